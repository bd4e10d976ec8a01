// Prints what a capture on standard input covers: `SPAN 1`, a line for each capture, and the refusal or the end. The lines
// are worked out by the crate spans; here bytes are read, handed on and written.
#![tactic(auto)]

ghost use Rattle.std.specs.Prelude.{◌≡◌, ◌<◌, Ok, true, length, IfOk};
ghost use Rattle.spans.specs.Eating.{eating_of, finishing_of, eaten_told};
ghost use Rattle.spans.specs.Pieces.{handed};
ghost use Rattle.span.specs.SoFar.{SpanSoFar, ReadToItsEnd};

use reads::{Early, Ended, Piece, Taker};
use spans::{Eaten, Span};
use std::io;
use std::io::Error;
use streams::Streams;

// Writes the lines that are due in a piece. Span and piece are there for the contract alone, which says whose lines these are.
fn write_lines(io: &mut Streams, s: Span, piece: &[u8], lines: &[u8]) -> io::Result<()>
    requires { lines.now ≡ (eating_of s piece.now 256).bytes }
{
    io.write_all(lines)
}

// Writes the lines that the end of the input brings, likewise.
fn write_last(io: &mut Streams, s: Span, ended: Ended, lines: &[u8]) -> io::Result<()>
    requires { SpanSoFar s ended.read × ReadToItsEnd s ended.got × (lines.now ≡ (finishing_of s 256).bytes) }
{
    io.write_all(lines)
}

// One call of eating on what is left of a piece: it consumes some of it, and so it refuses nothing. Its lines are written as soon as
// they are due. Where they could not be written there is no span to go on with.
fn eat_some(io: &mut Streams, s: Span, piece: &[u8], out: &mut [u8]) -> io::Result<Eaten>
    requires { (length out.old ≡ 256) × (0 < (eating_of s piece.now 256).eaten.consumed) }
    ensures eaten_value { IfOk result (λ eaten. eaten_told s (Ok eaten) ≡ (eating_of s piece.now 256).eaten) }
    ensures out_len { length out.new ≡ 256 }
{
    let eaten = spans::eat(s, piece, out).unwrap();
    let wrote = eaten.wrote;
    write_lines(io, s, piece, &out[..wrote])?;
    Ok(eaten)
}

// Hands a piece of the input over by calling again until its bytes are used up, or lines cannot be written. (session's feed_piece has the
// same loop, and says why.)
fn hand_over(io: &mut Streams, s: Span, piece: Piece<'_>, out: &mut [u8]) -> io::Result<Span>
    requires { SpanSoFar s piece.read × (length out.old ≡ 256) }
    ensures span_value { IfOk result (λ after. after ≡ (handed s piece.entry.bytes.now).span) }
    ensures out_len { length out.new ≡ 256 }
{
    let mut span = s;
    let mut rest = piece.bytes;
    while !rest.is_empty() {
        let eaten = eat_some(io, span, rest, out)?;
        span = eaten.span;
        rest = &rest[eaten.consumed..];
    }
    Ok(span)
}

// The span, as the pieces so far have left it, and room for its lines.
#[derive(Drop)]
struct Telling {
    span: Span,
    out: [u8; 256],
}

impl Taker for Telling {
    ghost so_far = { λ s read. SpanSoFar s.span read };

    ghost stopped = { λ s. s.span.stopped ≡ true };

    fn take(&mut self, io: &mut Streams, piece: Piece<'_>) -> io::Result<bool> {
        self.span = hand_over(io, self.span, piece, &mut self.out)?;
        Ok(!self.span.stopped)
    }
}

fn unwritten(io: &mut Streams, e: Error) {
    io.fail(b"span: a line could not be written", e);
}

// What is left to do where the input was read to its end, or as far as the span looks.
fn finish(io: &mut Streams, s: Span, ended: Ended)
    requires { SpanSoFar s ended.read × ReadToItsEnd s ended.got }
{
    let mut out = [0u8; 256];
    let told = spans::finish(s, &mut out);
    let wrote = told.unwrap_or(None).unwrap_or(0);
    if let Err(e) = write_last(io, s, ended, &out[..wrote]) {
        unwritten(io, e);
    }
}

// Says once, and after all else, what could not be done. No last line says that the input ended where it was not read so far.
fn main(rt: HostRuntime) {
    let mut io = Streams::new(rt.stdin(), rt.stdout(), rt.stderr());
    let mut buf = [0u8; 262144];
    let mut telling = Telling {
        span: spans::fresh(),
        out: [0u8; 256],
    };
    match reads::take_all(&mut io, &mut telling, 0, &mut buf) {
        Ok(ended) => finish(&mut io, telling.span, ended),
        Err(Early::Unwritten(e)) => unwritten(&mut io, e),
        Err(Early::Unread(_, e)) => io.fail(b"span: the input could not be read to its end", e),
    }
}
