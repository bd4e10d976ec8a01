// Reading a head.
ghost use Rattle.std.specs.Prelude.{◌≡◌, ◌≤◌, length, eqb};
ghost use Rattle.wire.specs.Choice.{pick};
ghost use Rattle.wire.specs.Number.{number, field};
ghost use Rattle.heads.specs.Head.{mark, version_in, head_length_in, head_in, unknown, nominal, opened_says, head_reading_of};
ghost use Rattle.heads.specs.Inside.{head_by_words};

use crate::allowed::{NOMINAL, first_allowed, head_length, names_well};
use crate::writing::MARK;
use crate::{Head, LONGEST, SHORTEST};
use wire::Refusal;

fn version_in(s: &[u8]) -> u32
    ensures { result ≡ version_in s.now }
{
    wire::number_at(s, 3, 2) as u32
}

// How many bytes the head has that bytes begin with, as far as they tell.
pub fn head_length_in(s: &[u8]) -> usize
    ensures { result ≡ head_length_in s.now }
{
    head_length(version_in(s))
}

// A version's serial in a head's bytes, unknown where it has none.
fn serial_in(version: u32, s: &[u8]) -> u64
    ensures { result ≡ pick (eqb version 2) (field 14 8 s.now) unknown }
{
    if version == 2 {
        return wire::number_at(s, 14, 8);
    }
    0
}

// Its clock, 80,000,000 where it has none.
fn clock_in(version: u32, s: &[u8]) -> u32
    ensures { result ≡ pick (eqb version 2) (field 22 4 s.now) nominal }
{
    if version == 2 {
        return wire::number_at(s, 22, 4) as u32;
    }
    NOMINAL
}

// The values that stand in a head's bytes. Bytes past the end of the slice are not there, and count nothing.
pub fn head_in(s: &[u8]) -> Head
    ensures { result ≡ head_in s.now }
{
    let version = version_in(s);
    Head {
        version,
        divisor: wire::number_at(s, 5, 2) as u32,
        frequency: wire::number_at(s, 7, 5),
        mode: wire::number_at(s, 12, 1) as u8,
        size: wire::number_at(s, 13, 1) as u8,
        serial: serial_in(version, s),
        clock: clock_in(version, s),
    }
}

// The 14 bytes that both versions have, by the first eight of them and the last eight: each is one read of the processor's, in a
// part whose length the compiler sees.
#[derive(Clone, Copy)]
struct Words {
    low: u64,
    high: u64,
}

// What version 2 adds, likewise.
#[derive(Clone, Copy)]
struct Names {
    serial: u64,
    clock: u32,
}

// What a head of version 1 has in its place.
const UNNAMED: Names = Names {
    serial: 0,
    clock: NOMINAL,
};

impl Names {
    fn of(s: &[u8]) -> Names
        requires { 26 ≤ length s.now }
        ensures serial { result.serial ≡ field 14 8 s.now }
        ensures clock { result.clock ≡ field 22 4 s.now }
    {
        let all = &s[..26];
        Names {
            serial: wire::number_at(all, 14, 8),
            clock: wire::number_at(all, 22, 4) as u32,
        }
    }
}

impl Words {
    fn of(s: &[u8]) -> Words
        requires { 14 ≤ length s.now }
        ensures low { result.low ≡ field 0 8 s.now }
        ensures high { result.high ≡ field 6 8 s.now }
    {
        let first = &s[..14];
        Words {
            low: wire::number_at(first, 0, 8),
            high: wire::number_at(first, 6, 8),
        }
    }

    // The head that stands in them, with its serial and its clock.
    fn head(self, names: Names) -> Head
        ensures { result ≡ head_by_words self.low self.high names.serial names.clock }
    {
        Head {
            version: (self.low / 16_777_216 % 65_536) as u32,
            divisor: (self.low / 1_099_511_627_776 % 65_536) as u32,
            frequency: self.high / 256 % 1_099_511_627_776,
            mode: (self.high / 281_474_976_710_656 % 256) as u8,
            size: (self.high / 72_057_594_037_927_936) as u8,
            serial: names.serial,
            clock: names.clock,
        }
    }
}

// Reads a head of version 2 from bytes that begin as one.
fn read_second(w: Words, s: &[u8]) -> Result<Head, Refusal>
    requires { (14 ≤ length s.now)
        × (w.low ≡ field 0 8 s.now)
        × (w.high ≡ field 6 8 s.now)
        × (field 0 3 s.now ≡ number mark)
        × (version_in s.now ≡ 2) }
    ensures { opened_says result ≡ head_reading_of s.now }
{
    if s.len() < LONGEST {
        return Err(Refusal::NotAHead);
    }
    let n = Names::of(s);
    let h = w.head(n);
    let fine = first_allowed(h) & names_well(n.serial, n.clock);
    if !fine {
        return Err(Refusal::NotAHead);
    }
    Ok(h)
}

// Reads a head from the first 14 or 26 bytes of a slice.
pub fn read_head(s: &[u8]) -> Result<Head, Refusal>
    ensures { opened_says result ≡ head_reading_of s.now }
{
    if s.len() < SHORTEST {
        return Err(Refusal::NotAHead);
    }
    let w = Words::of(s);
    if w.low % 16_777_216 != MARK {
        return Err(Refusal::NotAHead);
    }
    let h = w.head(UNNAMED);
    if h.version == 2 {
        return read_second(w, s);
    }
    if h.version != 1 {
        return Err(Refusal::OtherVersion);
    }
    // serial and clock are what they have to be
    if !first_allowed(h) {
        return Err(Refusal::NotAHead);
    }
    Ok(h)
}
