// Moving a capture file to another version of its head (02, No. 9), for the programs newer and older: crate heads moves the head,
// and what stands behind it is copied as it is. Here bytes are read, handed on and written.
#![tactic(auto)]

mod out;

ghost use Rattle.std.specs.Prelude.{ℕ, ◌≡◌, refl, true, ◌+◌, ◌≤◌, length, take, drop, IfOk, OnOk};
ghost use Rattle.reads.specs.Got.{Whole, most};
ghost use Rattle.wire.specs.Refusal.{refusal_code};
ghost use Rattle.lines.specs.Lines.{line_text};
ghost use Rattle.heads.specs.Head.{is_head_version, head_length, head_length_in};
ghost use Rattle.heads.specs.Moving.{moving_code, moved_bytes};
ghost use Rattle.moves.specs.Moves.{ReadBehind, FilledUp, PutAs, Enough, Movable, refused_line, moved_line};
ghost use Rattle.moves.specs.Moves.{MovedSoFar, BegunAs, longest};

use out::Sent;
use reads::{Ended, Piece, Taker};
use std::io;
use std::marker::PhantomData;
use streams::{Failed, Streams};
use wire::Refusal;

// A way to move a file: the version of its head then, how a head is moved, and the line that says so.
trait Way {
    ghost VERSION: { ℕ };

    const VERSION: u32;

    fn move_head(first: &[u8], head: &mut [u8]) -> Result<(), Refusal>
        ensures { PutAs VERSION first.now head.old head.new result };

    fn moved() -> &'static [u8]
        ensures { result.now ≡ line_text (moved_line VERSION) };

    ghost allowed: { is_head_version VERSION ≡ true };
}

#[derive(Drop)]
struct ToVersion2;

#[derive(Drop)]
struct ToVersion1;

impl Way for ToVersion2 {
    ghost VERSION = { 2 };

    ghost allowed = { refl };

    const VERSION: u32 = 2;

    fn move_head(first: &[u8], head: &mut [u8]) -> Result<(), Refusal> {
        heads::newer(first, head)
    }

    fn moved() -> &'static [u8] {
        b"H 2\n"
    }
}

impl Way for ToVersion1 {
    ghost VERSION = { 1 };

    ghost allowed = { refl };

    const VERSION: u32 = 1;

    fn move_head(first: &[u8], head: &mut [u8]) -> Result<(), Refusal> {
        heads::older(first, head)
    }

    fn moved() -> &'static [u8] {
        b"H 1\n"
    }
}

// One read, to behind the bytes at hand.
fn read_on(io: &mut Streams, buf: &mut [u8], have: usize) -> io::Result<usize>
    requires { have ≤ length buf.old }
    ensures { ReadBehind have buf.old buf.new result }
{
    io.read(&mut buf[have..])
}

// Reads until a head is at hand whatever its version, 26 bytes, or the input ends. They come in pieces of any size.
fn fill(io: &mut Streams, buf: &mut [u8]) -> io::Result<Ended>
    requires { 26 ≤ length buf.old }
    ensures { IfOk result (λ filled. FilledUp buf.new filled.read filled.got) }
{
    let mut read = 0;
    'head: loop {
        let got = read_on(io, buf, read);
        let n = got?;
        read += n;
        if n == 0 || heads::LONGEST <= read {
            return Ok(Ended { read, got });
        }
    }
}

// Writes the moved head, and what stands behind the head in the first bytes. These, and the last read's answer, are there for the
// contract alone, which says whose head it is, and that they are enough to tell.
fn write_first<W: Way>(
    io: &mut Streams,
    got: io::Result<usize>,
    first: &[u8],
    head: &[u8],
    rest: &[u8],
) -> io::Result<Sent>
    requires { Movable W.VERSION got first.now
        × (head.now ≡ moved_bytes W.VERSION first.now)
        × (rest.now ≡ drop (head_length_in first.now) first.now) }
    ensures { IfOk result (MovedSoFar W.VERSION (length first.now)) }
{
    let mut sent = Sent::nothing();
    sent.send(io, head)?;
    sent.send(io, rest)?;
    Ok(sent)
}

// The head that was moved stands at the start of a slice.
fn write_moved<W: Way>(
    io: &mut Streams,
    got: io::Result<usize>,
    first: &[u8],
    moved: &[u8],
) -> io::Result<Sent>
    requires { Movable W.VERSION got first.now
        × (head_length W.VERSION ≤ length moved.now)
        × (take (head_length W.VERSION) moved.now ≡ moved_bytes W.VERSION first.now) }
    ensures { IfOk result (MovedSoFar W.VERSION (length first.now)) }
{
    let length = heads::head_length(W::VERSION);
    let behind = heads::head_length_in(first);
    write_first::<W>(io, got, first, &moved[..length], &first[behind..])
}

// Says that the first bytes are refused, and writes nothing else.
fn refuse<W: Way>(io: &mut Streams, got: io::Result<usize>, first: &[u8], line: &[u8])
    requires { Enough got first.now × (line.now ≡ line_text (refused_line W.VERSION first.now)) }
{
    let _ = io.report(line);
}

// Says why the first bytes are refused.
fn refused<W: Way>(io: &mut Streams, got: io::Result<usize>, first: &[u8], why: Refusal)
    requires { Enough got first.now × (refusal_code why ≡ moving_code W.VERSION first.now longest) }
{
    match why {
        Refusal::NotAHead => refuse::<W>(io, got, first, b"R 40 0\n"),
        Refusal::OtherVersion => refuse::<W>(io, got, first, b"R 41 0\n"),
        Refusal::WouldLose => refuse::<W>(io, got, first, b"R 42 0\n"),
        // 26 bytes have room for each head, and moving refuses for nothing else
        _ => unreachable!(),
    }
}

// Moves the head that the first bytes begin with. Where they are refused, which it says, nothing was written.
fn begin<W: Way>(io: &mut Streams, got: io::Result<usize>, first: &[u8]) -> io::Result<Option<Sent>>
    requires { Enough got first.now }
    ensures { IfOk result (BegunAs W.VERSION (length first.now)) }
{
    let mut head = [0u8; 26];
    match W::move_head(first, &mut head) {
        Ok(()) => return Ok(Some(write_moved::<W>(io, got, first, &head)?)),
        Err(why) => refused::<W>(io, got, first, why),
    }
    Ok(None)
}

// Writes a piece as it is: all that the last read gave.
fn write_piece(io: &mut Streams, sent: &mut Sent, piece: Piece<'_>) -> io::Result<()>
    ensures { OnOk result (sent.new.bytes ≡ sent.old.bytes + length piece.entry.bytes.now) }
{
    sent.send(io, piece.bytes)
}

// What was written so far of a file that is moved so.
#[derive(Drop)]
struct Copying<W> {
    sent: Sent,
    way: PhantomData<W>,
}

impl<W: Way> Taker for Copying<W> {
    ghost so_far = { λ s read. MovedSoFar W.VERSION read s.sent };

    // a file is copied to its end
    ghost stopped = { λ _. ⊥ };

    fn take(&mut self, io: &mut Streams, piece: Piece<'_>) -> io::Result<bool> {
        write_piece(io, &mut self.sent, piece)?;
        Ok(true)
    }
}

// Says that the file was moved: the input was read to its end, and as many bytes were written as it has in that version. The counts
// are there for the contract alone.
fn say_moved<W: Way>(io: &mut Streams, ended: Ended, sent: Sent, line: &[u8])
    requires { MovedSoFar W.VERSION ended.read sent × Whole ended.got × (line.now ≡ line_text (moved_line W.VERSION)) }
{
    let _ = io.report(line);
}

// What is left once the first bytes are written: the rest of the input, where it has not ended with them.
fn finish<W: Way>(io: &mut Streams, filled: Ended, sent: Sent, buf: &mut [u8]) -> Result<(), Failed>
    requires { MovedSoFar W.VERSION filled.read sent × (filled.read ≤ most) }
{
    let mut copying = Copying::<W> {
        sent,
        way: PhantomData,
    };
    let ended = match filled.got {
        Ok(0) => filled,
        _ => reads::take_all(io, &mut copying, filled.read, buf)?,
    };
    say_moved::<W>(io, ended, copying.sent, W::moved());
    Ok(())
}

fn move_file<W: Way>(io: &mut Streams, buf: &mut [u8]) -> Result<(), Failed>
    requires { length buf.old ≡ 131072 }
{
    let filled = fill(io, buf).map_err(Failed::Unread)?;
    let begun = begin::<W>(io, filled.got, &buf[..filled.read]).map_err(Failed::Unwritten)?;
    match begun {
        Some(sent) => finish::<W>(io, filled, sent, buf),
        None => Ok(()),
    }
}

// Says once, and after all else, what could not be done.
fn tell(io: &mut Streams, done: Result<(), Failed>, unread: &[u8], unwritten: &[u8]) {
    match done {
        Ok(()) => {}
        Err(Failed::Unread(e)) => io.fail(unread, e),
        Err(Failed::Unwritten(e)) => io.fail(unwritten, e),
    }
}

// Moves the capture file on standard input to version 2, to standard output.
pub fn newer(io: &mut Streams) {
    let mut buf = [0u8; 131072];
    let done = move_file::<ToVersion2>(io, &mut buf);
    tell(
        io,
        done,
        b"newer: the input could not be read to its end",
        b"newer: the output could not be written",
    );
}

// Moves it back to version 1.
pub fn older(io: &mut Streams) {
    let mut buf = [0u8; 131072];
    let done = move_file::<ToVersion1>(io, &mut buf);
    tell(
        io,
        done,
        b"older: the input could not be read to its end",
        b"older: the output could not be written",
    );
}
