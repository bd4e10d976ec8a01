// Reading an input as it comes, a piece at a time, to its end: one loop for the programs, and what a read answers, in the words that their
// contracts share (specs/Got).
#![tactic(auto)]

ghost use Rattle.std.specs.Prelude.{ℕ, ◌≡◌, false, ◌⊎◌, ◌+◌, ◌<◌, ◌≤◌, length, get_or, IfOk, OnOk};
ghost use Rattle.reads.specs.Got.{AllOf, Whole, IfUnread, failed_of, most};

use std::io;
use std::io::Error;
use streams::{Failed, Streams};

// A piece of an input: how many bytes were read before it, what the read answered, and all the bytes that it gave, one or more. No more
// than 2^63 are counted.
#[derive(Drop)]
pub struct Piece<'a> {
    pub read: usize,
    pub got: io::Result<usize>,
    pub bytes: &'a [u8],
    pub ghost all: { AllOf got bytes.now },
    pub ghost some: { 0 < length bytes.now },
    pub ghost counted: { read + length bytes.now ≤ most },
    // as its type has it
    pub ghost are_bytes: { (k : ℕ) → get_or bytes.now k 0 < 256 },
}

// What takes the pieces of an input.
pub trait Taker {
    // what is known of it when so many bytes were read
    ghost so_far: { Self → ℕ → Type 0 };

    // it wants no more
    ghost stopped: { Self → Type 0 };

    // Takes a piece, and answers whether it wants more; or writing what is due failed.
    fn take(&mut self, io: &mut Streams, piece: Piece<'_>) -> io::Result<bool>
        requires { so_far self.old piece.read }
        ensures taken { OnOk result (so_far self.new (piece.entry.read + length piece.entry.bytes.now)) }
        ensures stops { IfOk result (λ more. more ≡ false → stopped self.new) };
}

// How reading came to its end: how many bytes were read, and what the last read answered.
#[derive(Clone, Copy)]
pub struct Ended {
    pub read: usize,
    pub got: io::Result<usize>,
}

// Why reading ended early: a read failed, when so many bytes had been read; or what was due could not be written.
#[derive(Drop)]
pub enum Early {
    Unread(usize, Error),
    Unwritten(Error),
}

impl From<Early> for Failed {
    ghost from_gives = { λ early failed. failed ≡ failed_of early };

    fn from(early: Early) -> Failed {
        match early {
            Early::Unread(_, e) => Failed::Unread(e),
            Early::Unwritten(e) => Failed::Unwritten(e),
        }
    }
}

// A proved loop has to end, and nothing says that the input does. So the loop counts the bytes that it reads, up to a number that no run
// comes to; past it the program ends as where a read fails, for which the system has no number.
const MOST: usize = 0x8000_0000_0000_0000;

// Reads pieces as they come and hands them over, until the input ends, a read fails, what is due cannot be written, or no more is wanted.
// So many bytes were read before.
pub fn take_all<T: Taker>(
    io: &mut Streams,
    taker: &mut T,
    have: usize,
    buf: &mut [u8],
) -> Result<Ended, Early>
    requires { T.so_far taker.old have × (have ≤ most) }
    ensures ended { IfOk result (λ ended. T.so_far taker.new ended.read × (T.stopped taker.new ⊎ Whole ended.got)) }
    ensures unread { IfUnread result (λ read. T.so_far taker.new read) }
{
    let mut read = have;
    'pieces: loop {
        let got = io.read(buf);
        let n = got.map_err(|e| Early::Unread(read, e))?;
        if n == 0 {
            return Ok(Ended { read, got });
        }
        if MOST - read < n {
            return Err(Early::Unread(read, Error::from_raw_os_error(0)));
        }
        let piece = Piece {
            read,
            got,
            bytes: &buf[..n],
        };
        let wants_more = taker.take(io, piece).map_err(Early::Unwritten)?;
        read += n;
        if !wants_more {
            return Ok(Ended { read, got });
        }
    }
}
