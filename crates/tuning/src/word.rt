// Tuning word (house).
ghost use Rattle.std.specs.Prelude.{◌≡◌, ◌*◌, ◌^◌, ◌<◌, ◌≤◌, true, ◌&&◌, ◌==◌};
ghost use Rattle.wire.specs.Halves.{halves_up};
ghost use Rattle.tuning.specs.Bands.{in_bands};
ghost use Rattle.tuning.specs.Word.{offset_of, has_word, word_of, word_kept, is_clock, word_says, word_told};

use crate::bands::{FIRST_MAXIMUM, SECOND_OSCILLATOR, in_bands};
use wire::Refusal;

// The clock is one that may be set.
pub fn is_clock(hz: u32) -> bool
    ensures { result ≡ is_clock hz }
{
    wire::within(79_992_000, 80_008_000, hz as u64)
}

// "The offset n is the frequency, or 160,000,000 less the frequency in the second band." Of a frequency that lies in no band
// it is any number of 32 bits: so none has to be tested before.
fn offset_of(hz: u64) -> u64
    ensures { (in_bands hz ≡ true → result ≡ offset_of hz) × (result < 2 ^ 32) }
{
    if hz <= FIRST_MAXIMUM {
        return hz;
    }
    if hz <= SECOND_OSCILLATOR {
        return SECOND_OSCILLATOR - hz;
    }
    0
}

// Whether a word is n x 2^32 / clock to the nearest whole number, halves up. A product tells it, for each call of feeding and
// cutting asks: half the clock more than n x 2^32 is at least clock x word, by less than the clock.
fn is_nearest(n: u64, clock: u32, word: u32) -> bool
    requires { n < 2 ^ 32 }
    ensures { 0 < clock → result ≡ (word == halves_up (n * 2 ^ 32) clock) }
{
    let clock = clock as u64;
    let dividend = n * 0x1_0000_0000 + clock / 2;
    let least = clock * word as u64;
    (least <= dividend) & (dividend < least + clock)
}

// A guess at it by three products; nothing rests on it. In the place of 2^64 / clock a curve of the second degree is taken,
// which meets it at three of the clock's 16,001 values. Of 200,000 guesses at random 0.1 % were wrong.
fn guess(n: u64, clock: u32) -> u32
    requires { n ≤ 34000000 }
{
    let above = (clock as u64).wrapping_sub(79_992_000) % 0x4000;
    let slope = 3_022_919_035 - above * 2_475_880 / 0x1_0000;
    let inverse = (241_809_344_857_875_401 - above * slope) / 0x10_0000;
    ((n * inverse + 0x8000_0000) / 0x1_0000_0000 % 0x1_0000_0000) as u32
}

// n x 2^32 / clock to the nearest whole number, halves up.
fn nearest(n: u64, clock: u32) -> u32
    requires { (n ≤ 34000000) × (79992000 ≤ clock) }
    ensures { result ≡ halves_up (n * 2 ^ 32) clock }
{
    let guessed = guess(n, clock);
    if is_nearest(n, clock, guessed) {
        return guessed;
    }
    let clock = clock as u64;
    ((n * 0x1_0000_0000 + clock / 2) / clock) as u32
}

// The tuning word of a frequency at a clock. Refused where the frequency lies in no band, or the clock may not be set.
pub fn word_of(hz: u64, clock: u32) -> Result<u32, Refusal>
    ensures { word_says result ≡ word_told hz clock }
{
    if !has_word(hz, clock) {
        return Err(Refusal::ValueNotAllowed);
    }
    Ok(nearest(offset_of(hz), clock))
}

// The word that a box keeps with a frequency and a clock; 0 where they have none, as its definition (specs/Word) and a box's bytes
// have it.
pub fn word_kept(hz: u64, clock: u32) -> u32
    ensures { result ≡ word_kept hz clock }
{
    word_of(hz, clock).unwrap_or(0)
}

// A frequency of a band, a clock that may be set, and their word.
pub fn agree(hz: u64, clock: u32, word: u32) -> bool
    ensures { result ≡ has_word hz clock && (word == word_of hz clock) }
{
    in_bands(hz) & is_clock(clock) & is_nearest(offset_of(hz), clock, word)
}

// A frequency of a band and a clock that may be set.
fn has_word(hz: u64, clock: u32) -> bool
    ensures { result ≡ has_word hz clock }
{
    in_bands(hz) & is_clock(clock)
}
