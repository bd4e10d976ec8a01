// The capture head, in two versions. Document 01: "SPN, 16-bit version 1, 16-bit D, five-byte frequency, mode byte, size byte". 02,
// No. 9: "Version 2 of the head adds the serial (eight bytes, all zero for unknown) and the clock (four bytes, the 01 range) after
// the size byte". No. 7: "mode byte bit 6 set for two channels".
#![tactic(auto)]

mod allowed;
mod moving;
mod reading;
mod writing;

pub use allowed::{
    NOMINAL, channels_in, form_in, head_length, is_allowed, is_head_version, mode_with,
};
pub use moving::{newer, older};
pub use reading::{head_in, head_length_in, read_head};
pub use writing::write_head;

// The shortest head has 14 bytes, and its version stands in them; the longest has 26.
pub const SHORTEST: usize = 14;

pub const LONGEST: usize = 26;

// What a capture's head says: its version, the D of the rate, the frequency in Hz, the mode byte (80 for 24 bits, 00 for 16, and
// bit 6 for two channels), the size byte (0 large, 1 small), the box's serial as the number of its eight bytes (0 for unknown), and its
// clock in Hz. Version 1 has no serial and no clock: of such a head they are 0 and 80,000,000.
#[derive(Clone, Copy)]
pub struct Head {
    // a number and no enum: `write_head` promises 16 for every other version, and the edit version-nought and outside/ try 0 and 3
    pub version: u32,
    pub divisor: u32,
    pub frequency: u64,
    // numbers likewise: it promises 16 for each other mode, size and serial
    pub mode: u8,
    pub size: u8,
    pub serial: u64,
    pub clock: u32,
}
