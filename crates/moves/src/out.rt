// Standard output, and how much was written to it.
ghost use Rattle.std.specs.Prelude.{◌≡◌, ◌+◌, length, OnOk};

use std::io;
use std::io::Error;
use streams::Streams;

// How many bytes were written to standard output. The field is this file's alone, so that elsewhere it grows by writing only.
#[derive(Drop)]
pub struct Sent {
    bytes: usize,
}

impl Sent {
    // Before the first write, and called nowhere else.
    pub fn nothing() -> Sent
        ensures { result.bytes ≡ 0 }
    {
        Sent { bytes: 0 }
    }

    // Writes bytes and counts them. Where that failed nothing is promised, so that nobody can go on. More than can be counted, to which
    // no run comes, count as not written, for which the system has no number.
    pub fn send(&mut self, io: &mut Streams, bytes: &[u8]) -> io::Result<()>
        ensures { OnOk result (self.new.bytes ≡ self.old.bytes + length bytes.now) }
    {
        let after = self
            .bytes
            .checked_add(bytes.len())
            .ok_or(Error::from_raw_os_error(0))?;
        io.write_all(bytes)?;
        self.bytes = after;
        Ok(())
    }
}
