// The settings' ranges: "A box with a field outside these rules is broken (21)."
ghost use Rattle.std.specs.Prelude.{◌≡◌, length};
ghost use Rattle.items.specs.Settings.{in_range, fresh_of, fresh_answer, fresh_says, is_mode, is_gain, is_size, is_setup};
ghost use Rattle.items.specs.Settings.{is_serial_byte, all_serial, holds_serial};

use crate::{Begun, Channel, Settings};
use wire::Refusal;

// 0019: "values 0 (single, the fresh value) and 4 (two channels, one converter)".
pub const SINGLE: u16 = 0;

pub const DUAL: u16 = 4;

// Every setting lies within its range: "A box whose stored word disagrees with its frequency and clock is broken (21)." The serial's
// bytes are tested first; of the numbers all are tested, none left out because of another. (A channel goes by its numbers, and not as a
// struct, and the serial's bytes are lent from a copy, not from one of all settings: where nothing is optimised that takes less stack,
// on the way to cutting a packet.)
pub fn in_range(s: Settings) -> bool
    ensures { result ≡ in_range s }
{
    let serial = s.serial;
    if !all_serial(&serial) {
        return false;
    }
    tuning::agree(s.first.frequency, s.clock, s.first.word)
        & is_gain(s.first.gain)
        & tuning::agree(s.second.frequency, s.clock, s.second.word)
        & is_gain(s.second.gain)
        & (s.count <= packets::MOST)
        & rates::is_d(s.divisor)
        & is_size(s.size)
        & is_setup(s.setup)
        & is_mode(s.mode)
}

// A fresh box with a serial; with serial 00000000 where the serial is refused, which is not eight of A-Z, 0-9.
pub fn fresh(serial: &[u8]) -> Begun<Settings>
    ensures { fresh_says result ≡ fresh_answer serial.now }
{
    match <[u8; 8]>::try_from(serial) {
        Ok(own) if all_serial(&own) => Begun {
            refused: None,
            made: started(own),
        },
        _ => Begun {
            refused: Some(Refusal::NotASerial),
            made: started([b'0'; 8]),
        },
    }
}

// "A fresh box: idle, mode 80, 10,000,000 Hz, gain 0, clock 80,000,000, D = 100, large packets, count 0." Channel 02 has "fresh ones at
// first" too.
fn started(serial: [u8; 8]) -> Settings
    ensures { result ≡ fresh_of serial }
{
    let channel = Channel {
        frequency: 10_000_000,
        word: 536_870_912,
        gain: 0,
    };
    Settings {
        first: channel,
        second: channel,
        count: 0,
        clock: 80_000_000,
        divisor: 100,
        size: packets::LARGE as u32,
        setup: SINGLE,
        running: false,
        mode: packets::MODE_24,
        serial,
    }
}

// Each of a serial's bytes is A-Z or 0-9.
fn all_serial(serial: &[u8; 8]) -> bool
    requires { length serial.now ≡ 8 }
    ensures { result ≡ all_serial serial.now }
{
    let mut all = true;
    for byte in serial {
        all &= is_serial_byte(*byte);
    }
    all
}

// Capture mode: 80 for 24 bits, 00 for 16.
pub fn is_mode(byte: u8) -> bool
    ensures { result ≡ is_mode byte }
{
    match byte {
        packets::MODE_24 | packets::MODE_16 => true,
        _ => false,
    }
}

// RF gain as it is sent: 0, -10, -20 or -30 in a signed byte.
pub fn is_gain(byte: u32) -> bool
    ensures { result ≡ is_gain byte }
{
    match byte {
        0x00 | 0xF6 | 0xEC | 0xE2 => true,
        _ => false,
    }
}

// Packet size: 0 large, 1 small.
pub fn is_size(byte: u32) -> bool
    ensures { result ≡ is_size byte }
{
    (byte == packets::LARGE as u32) | (byte == packets::SMALL as u32)
}

// Channel setup: 0 a single channel, 4 two of them.
pub fn is_setup(byte: u16) -> bool
    ensures { result ≡ is_setup byte }
{
    (byte == SINGLE) | (byte == DUAL)
}

// A serial as the number of its eight bytes: each is A-Z or 0-9.
pub fn is_serial(n: u64) -> bool
    ensures { result ≡ holds_serial n }
{
    all_serial(&n.to_le_bytes())
}

// A character of a serial: A-Z, 0-9.
pub fn is_serial_byte(byte: u8) -> bool
    ensures { result ≡ is_serial_byte byte }
{
    ((b'A' <= byte) & (byte <= b'Z')) | ((b'0' <= byte) & (byte <= b'9'))
}
