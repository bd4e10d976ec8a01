// Items of document 01: the settings of a box, the table of items, and what a header alone decides.
#![tactic(auto)]

ghost use Rattle.std.specs.Prelude.{◌≡◌};
ghost use Rattle.items.specs.Settings.{serial_code};

pub mod header; // header.rt: what the header of a message decides
mod range_reply; // range_reply.rt: the range reply
pub mod ranges; // ranges.rt: a fresh box, and which settings are within their ranges
pub mod table; // table.rt: the table's lengths
pub mod values; // values.rt: the values that the table gives

pub use range_reply::put_range_reply;
pub use ranges::{fresh, in_range};
use wire::{Refusal, codes};

// A tuning channel. Gain and packet size have 32 bits where eight would do, and 0019's value 16: so no odd number of bytes is
// left over in a box, which the compiler would copy one by one with each message (docs/BENCHMARKS.md).
#[derive(Clone, Copy)]
pub struct Channel {
    // Hz
    pub frequency: u64,
    // the tuning word of this frequency at the box's clock
    pub word: u32,
    // the signed byte as it is sent
    pub gain: u32,
}

// The settings of a box. A box started fresh keeps each within its range; specs/Settings.antt has the ranges.
#[derive(Clone, Copy)]
pub struct Settings {
    // channel 00
    pub first: Channel,
    // channel 02
    pub second: Channel,
    // packets cut in this capture
    pub count: u64,
    // Hz
    pub clock: u32,
    // the D of the rate, 20,000,000 / D
    pub divisor: u32,
    // 0 large, 1 small
    pub size: u32,
    // 0 a single channel, 4 two of them
    pub setup: u16,
    pub running: bool,
    // 80 for 24 bits, 00 for 16
    pub mode: u8,
    pub serial: [u8; 8],
}

// What was made of a serial, the settings of a fresh box or the box, and why the serial was refused, where it was.
#[derive(Clone, Copy)]
pub struct Begun<T: Copy> {
    pub refused: Option<Refusal>,
    pub made: T,
}

impl<T: Copy> Begun<T> {
    // The code of what was made.
    pub fn code(&self) -> u8
        ensures { result ≡ serial_code self.now.refused }
    {
        match self.refused {
            None => codes::DONE,
            Some(refusal) => u8::from(refusal),
        }
    }
}
