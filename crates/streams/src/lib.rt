// Standard input, output and error for the programs, a call of std's at a time. A call that fails answers std's error, and no call is
// tried a second time.
#![tactic(auto)]

ghost use Rattle.std.specs.Prelude.{◌≤◌, length};
ghost use Rattle.std.specs.Io.{ReadsAtMost};
ghost use Rattle.streams.specs.Moved.{Moved, IsPrefixLen};

use std::fmt::InlineText;
use std::io;
use std::io::{Error, Read, Stderr, Stdin, Stdout, Write};

// The three streams.
#[derive(Drop)]
pub struct Streams {
    input: Stdin,
    output: Stdout,
    errors: Stderr,
}

// Why a program ends before its work is done.
#[derive(Drop)]
pub enum Failed {
    Unread(Error),
    Unwritten(Error),
}

impl Streams {
    pub fn new(input: Stdin, output: Stdout, errors: Stderr) -> Streams {
        Streams {
            input,
            output,
            errors,
        }
    }

    // One read of standard input: it answers how many bytes it put at the start of buf, 0 at the end of the input. Of the bytes in buf
    // afterwards the contract says nothing.
    pub fn read(&mut self, buf: &mut [u8]) -> io::Result<usize>
        ensures moved { Moved (length buf.old) result }
        ensures in_bounds { ReadsAtMost result buf.new }
    {
        self.input.read(buf)
    }

    // Reads until buf is full, the input ends or a read fails, and returns how many bytes it put at the start of buf. On an empty buf
    // it makes no call. (std's read_exact does not say how many, and read_to_end needs a heap.)
    pub fn read_full(&mut self, buf: &mut [u8]) -> usize
        ensures { IsPrefixLen result buf.new }
    {
        let mut done = 0;
        while done < buf.len() {
            match self.read(&mut buf[done..]) {
                Ok(0) | Err(_) => break,
                Ok(n) => done += n,
            }
        }
        done
    }

    // Writes all of the bytes to standard output, or stops at the first write that takes nothing or fails, when some of them may have
    // been written. On no bytes it makes no call.
    pub fn write_all(&mut self, bytes: &[u8]) -> io::Result<()> {
        put(&mut self.output, bytes)
    }

    // The same, to standard error.
    pub fn report(&mut self, bytes: &[u8]) -> io::Result<()> {
        put(&mut self.errors, bytes)
    }

    // Writes a line to standard error: what failed, as the caller names it, a colon and the error's text. Where that fails too, nobody
    // is left to be told.
    pub fn fail(&mut self, what: &[u8], e: Error) {
        let text = InlineText::<256>::of(e);
        let _ = self.report(what);
        let _ = self.report(b": ");
        let _ = self.report(without_number(text.as_str()));
        let _ = self.report(b"\n");
    }
}

// Writes until all is written, or a write takes nothing, for which the system has no number, or fails. (std's write_all tries again where
// a signal interrupts it.)
fn put<W: Write>(to: &mut W, bytes: &[u8]) -> io::Result<()> {
    let mut rest = bytes;
    while !rest.is_empty() {
        match to.write(rest)? {
            0 => return Err(Error::from_raw_os_error(0)),
            n => rest = &rest[n..],
        }
    }
    Ok(())
}

// The error's text as std has it has its number behind it, which is left out.
fn without_number(text: &str) -> &[u8] {
    match text.find(" (os error ") {
        Some(n) => text[..n].as_bytes(),
        None => text.as_bytes(),
    }
}
