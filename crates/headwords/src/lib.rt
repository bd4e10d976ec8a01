// A capture head's values as a user writes them, for the program head.
#![tactic(auto)]

ghost use Rattle.std.specs.Prelude.{◌≡◌};
ghost use Rattle.wire.specs.Lists.{same};
ghost use Rattle.rates.specs.Rate.{is_d};
ghost use Rattle.tuning.specs.Bands.{in_bands};
ghost use Rattle.tuning.specs.Word.{is_clock};
ghost use Rattle.headwords.specs.Words.{only, is_number, value_behind, number_of, bits_word, mode_of, size_word, size_of};
ghost use Rattle.headwords.specs.Words.{serial_word, serial_of, plain_of, names_of, named_of, Fit};

use heads::Head;

// The mode bytes of two channels: those of one, with bit 6.
const TWICE_24: u8 = 0xC0;

const TWICE_16: u8 = 0x40;

// The first word that is none of those allowed.
#[derive(Clone, Copy, Debug, PartialEq, Eq)]
pub enum BadWord {
    Divisor,
    Frequency,
    Bits,
    Size,
    Serial,
    Clock,
}

// The number that a word of at most nine digits stands for; `str::parse` takes more digits, and a sign.
fn number_of(word: &[u8]) -> Option<u32>
    ensures { result ≡ only (is_number word.now) (value_behind 0 word.now) }
{
    if 9 < word.len() {
        return None;
    }
    let mut n: u32 = 0;
    for &byte in word {
        if !byte.is_ascii_digit() {
            return None;
        }
        n = n * 10 + (byte - b'0') as u32;
    }
    Some(n)
}

fn is_same(word: &[u8], other: &[u8]) -> bool
    ensures { result ≡ same word.now other.now }
{
    word == other
}

fn divisor_of(word: &[u8]) -> Option<u32>
    ensures { result ≡ only (is_d (number_of word.now)) (number_of word.now) }
{
    let d = number_of(word)?;
    rates::is_d(d).then_some(d)
}

fn frequency_of(word: &[u8]) -> Option<u64>
    ensures { result ≡ only (in_bands (number_of word.now)) (number_of word.now) }
{
    let hz = number_of(word)? as u64;
    tuning::in_bands(hz).then_some(hz)
}

fn clock_of(word: &[u8]) -> Option<u32>
    ensures { result ≡ only (is_clock (number_of word.now)) (number_of word.now) }
{
    let hz = number_of(word)?;
    tuning::is_clock(hz).then_some(hz)
}

// The mode byte that the bits of a sample stand for, with `2x` before them where there are two channels.
fn mode_of(word: &[u8]) -> Option<u8>
    ensures { result ≡ only (bits_word word.now) (mode_of word.now) }
{
    if is_same(word, b"24") {
        Some(packets::MODE_24)
    } else if is_same(word, b"16") {
        Some(packets::MODE_16)
    } else if is_same(word, b"2x24") {
        Some(TWICE_24)
    } else if is_same(word, b"2x16") {
        Some(TWICE_16)
    } else {
        None
    }
}

fn size_of(word: &[u8]) -> Option<u8>
    ensures { result ≡ only (size_word word.now) (size_of word.now) }
{
    if is_same(word, b"large") {
        Some(packets::LARGE)
    } else if is_same(word, b"small") {
        Some(packets::SMALL)
    } else {
        None
    }
}

// The number of the eight bytes of a word of A-Z, 0-9, or 0 for a dash.
fn serial_of(word: &[u8]) -> Option<u64>
    ensures { result ≡ only (serial_word word.now) (serial_of word.now) }
{
    if is_same(word, b"-") {
        return Some(0);
    }
    if word.len() != 8 {
        return None;
    }
    let n = wire::number_at(word, 0, 8);
    items::ranges::is_serial(n).then_some(n)
}

// A head of version 1 from four words. They come one by one: a struct of slices would be made for this call and taken apart here.
pub fn plain(d: &[u8], hz: &[u8], bits: &[u8], size: &[u8]) -> Result<Head, BadWord>
    ensures { (result ≡ plain_of d.now hz.now bits.now size.now) × Fit result }
{
    let divisor = divisor_of(d).ok_or(BadWord::Divisor)?;
    let frequency = frequency_of(hz).ok_or(BadWord::Frequency)?;
    let mode = mode_of(bits).ok_or(BadWord::Bits)?;
    let size = size_of(size).ok_or(BadWord::Size)?;
    Ok(Head {
        version: 1,
        divisor,
        frequency,
        mode,
        size,
        serial: 0,
        clock: heads::NOMINAL,
    })
}

// The head of version 2 that two words more make of it.
fn with_names(h: Head, serial: &[u8], clock: &[u8]) -> Result<Head, BadWord>
    ensures { result ≡ names_of h serial.now clock.now }
{
    let serial = serial_of(serial).ok_or(BadWord::Serial)?;
    let clock = clock_of(clock).ok_or(BadWord::Clock)?;
    Ok(Head {
        version: 2,
        serial,
        clock,
        ..h
    })
}

// A head of version 2 from six words.
pub fn named(
    d: &[u8],
    hz: &[u8],
    bits: &[u8],
    size: &[u8],
    serial: &[u8],
    clock: &[u8],
) -> Result<Head, BadWord>
    ensures { (result ≡ named_of d.now hz.now bits.now size.now
        serial.now clock.now)
        × Fit result }
{
    let h = plain(d, hz, bits, size)?;
    with_names(h, serial, clock)
}
