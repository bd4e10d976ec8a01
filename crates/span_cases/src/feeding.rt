// An input is handed to a span in pieces, and what is due is printed.
ghost use Rattle.std.specs.Prelude.{◌≡◌, ◌<◌};
ghost use Rattle.spans.specs.Eating.{eating_of, eaten_told};

use crate::saying::{first, say};
use spans::{Eaten, Span};
use std::io::Stdout;
use wire::Refusal;

// Hands a piece of the input over, and prints the lines that are due.
fn hand_over(out: Stdout, s: Span, piece: &[u8]) -> Result<Eaten, Refusal>
    ensures { eaten_told s result ≡ (eating_of s piece.now 256).eaten }
{
    let mut lines = [0u8; 256];
    let e = spans::eat(s, piece, &mut lines)?;
    say(out, first(&lines, e.wrote));
    Ok(e)
}

// Prints the lines that the end of the input brings.
fn close(out: Stdout, s: Span) {
    let mut lines = [0u8; 256];
    if let Ok(Some(wrote)) = spans::finish(s, &mut lines) {
        say(out, first(&lines, wrote));
    }
}

// Hands an input over in pieces of so many bytes, each from where the one before was consumed to; then the end. A call consumes some
// of its piece, and so it refuses nothing.
fn run(out: Stdout, input: &[u8], step: usize)
    requires { 0 < step }
{
    let mut span = spans::fresh();
    let mut rest = input;
    while !rest.is_empty() {
        let e = hand_over(out, span, first(rest, step)).unwrap();
        span = e.span;
        rest = &rest[e.consumed..];
    }
    close(out, span);
}

// A name, a way to cut, and the lines.
fn cut(out: Stdout, name: &[u8], way: &[u8], input: &[u8], step: usize)
    requires { 0 < step }
{
    say(out, name);
    say(out, way);
    run(out, input, step);
}

// An input in each way to cut it. None is longer than 8,192 bytes.
pub(crate) fn ways(out: Stdout, name: &[u8], input: &[u8]) {
    cut(out, name, b": whole\n", input, 8192);
    cut(out, name, b": byte by byte\n", input, 1);
    cut(out, name, b": pieces of 7\n", input, 7);
    cut(out, name, b": pieces of 389\n", input, 389);
}

// Hands the same piece over so many times. Where it is refused the span stays as it is.
fn again(out: Stdout, s: Span, piece: &[u8], count: u32) -> Span {
    let mut span = s;
    for _ in 0..count {
        if let Ok(e) = hand_over(out, span, piece) {
            span = e.span;
        }
    }
    span
}

// A case of a packet numbered 0 and so many packets of another number behind it, each handed over by itself.
pub(crate) fn repeated(out: Stdout, name: &[u8], number: u64, count: u32) {
    say(out, name);
    say(out, b": packet by packet\n");
    let opened = again(
        out,
        spans::fresh(),
        b"SPN\x01\x00\x64\x00\x80\x96\x98\x00\x00\x80\x01",
        1,
    );
    let mut packet = [0u8; 388];
    wire::put(&mut packet, 0, 4, 0x0000_8184);
    let begun = again(out, opened, &packet, 1);
    wire::put(&mut packet, 2, 2, number);
    close(out, again(out, begun, &packet, count));
}
