// The lines that are due, written.
ghost use Rattle.std.specs.Prelude.{◌≡◌, ◌+◌, ◌≤◌, length, true};
ghost use Rattle.std.proofs.lemmas.List.Edits.{sets};
ghost use Rattle.tuning.specs.Word.{is_clock};
ghost use Rattle.lines.specs.Lines.{text_of, end_time};
ghost use Rattle.lines.specs.Inside.{Stored};
ghost use Rattle.lines.specs.Due.{opening_if, capture_if, ending_lines, due_lines, sized, lines_told, telling_of};
ghost use Rattle.lines.specs.Timing.{of_a_capture, time_told, timing_of};

use crate::text::put_line;
use crate::{Due, Ending};
use wire::Refusal;

// No capture has more samples of a channel: 4,000,000,000 packets of 256 pairs.
const MOST_SAMPLES: u64 = 1_024_000_000_000;

// "SPAN 1", where it is due.
fn put_opening(on: bool, buf: &mut [u8], at: usize) -> usize
    requires { at + 26 ≤ length buf.old }
    ensures { Stored 26 buf.old at (text_of (opening_if on)) buf.new result }
{
    if on {
        let ns = [1u64];
        return put_line(b"SPAN", &ns, buf, at);
    }
    at
}

// "samples x 4D / clock seconds, in microseconds rounded down". A sample takes 4D cycles of the clock. The cycles times a million can
// have more than 64 bits, so the whole seconds are counted first, and then the microseconds of the cycles that are left.
fn end_time(samples: u64, divisor: u64, clock: u64) -> u64
    requires { (samples ≤ 1_024_000_000_000) × (divisor ≤ 625) × (is_clock clock ≡ true) }
    ensures { result ≡ end_time divisor clock samples }
{
    let cycles = samples * (4 * divisor);
    cycles / clock * 1_000_000 + cycles % clock * 1_000_000 / clock
}

// Whether a capture can have so many samples of a channel, at this D and this clock.
fn of_a_capture(samples: u64, divisor: u32, clock: u32) -> bool
    ensures { result ≡ of_a_capture samples divisor clock }
{
    (samples <= MOST_SAMPLES) & rates::is_d(divisor) & tuning::is_clock(clock)
}

// How long so many samples of a channel last: the end time of a capture that covers them. It refuses with 16 more samples than a
// capture has, a D other than 10 to 625 and a clock that may not be set.
pub fn time_of(samples: u64, divisor: u32, clock: u32) -> Result<u64, Refusal>
    ensures { time_told result ≡ timing_of samples divisor clock }
{
    if !of_a_capture(samples, divisor, clock) {
        return Err(Refusal::ValueNotAllowed);
    }
    Ok(end_time(samples, divisor as u64, clock as u64))
}

// The line of the capture that ends, where packets were heard in it.
fn put_capture(d: Due, buf: &mut [u8], at: usize) -> usize
    requires { (at + 170 ≤ length buf.old) × (sized d ≡ true) }
    ensures { Stored 170 buf.old at (text_of (capture_if d)) buf.new result }
{
    if d.heard == 0 {
        return at;
    }
    let positions = d.position + 1;
    let samples = positions * d.pairs;
    let ns = [
        d.capture,
        d.bits,
        d.pairs,
        d.heard,
        positions,
        samples,
        end_time(samples, d.divisor, d.clock),
        positions - d.heard,
    ];
    put_line(b"C", &ns, buf, at)
}

// The refusal or the end.
fn put_ending(e: Ending, buf: &mut [u8], at: usize) -> usize
    requires { at + 44 ≤ length buf.old }
    ensures { Stored 44 buf.old at (text_of (ending_lines (Some e))) buf.new result }
{
    match e {
        Ending::Refusal { code, offset } => {
            let ns = [code as u64, offset];
            put_line(b"R", &ns, buf, at)
        }
        Ending::Captures(captures) => {
            let ns = [captures];
            put_line(b"E", &ns, buf, at)
        }
    }
}

// All lines that are due, at the start of a buffer.
fn put_due(d: Due, buf: &mut [u8]) -> usize
    requires { (240 ≤ length buf.old) × (sized d ≡ true) }
    ensures { Stored 240 buf.old 0 (text_of (due_lines d)) buf.new result }
{
    let first = put_opening(d.opening, buf, 0);
    let second = put_capture(d, buf, first);
    match d.ending {
        Some(ending) => put_ending(ending, buf, second),
        None => second,
    }
}

// The clock is one that may be set. No clock of more than 32 bits is.
fn is_clock(hz: u64) -> bool
    ensures { result ≡ is_clock hz }
{
    match u32::try_from(hz) {
        Ok(hz) => tuning::is_clock(hz),
        Err(_) => false,
    }
}

// Whether the products of a capture's line are those of numbers that a capture can have, and no more packets are heard than
// there are positions.
fn is_sized(d: Due) -> bool
    ensures { result ≡ sized d }
{
    if packets::LAST < d.position {
        return false;
    }
    if 256 < d.pairs {
        return false;
    }
    if 625 < d.divisor {
        return false;
    }
    if !is_clock(d.clock) {
        return false;
    }
    d.heard <= d.position + 1
}

// Writes the lines that are due at the start of a slice, and answers how many bytes they are: 240 are room enough. It refuses
// with 16 a position, pairs or a D above all that captures have, a clock that none has (also where no capture's line is due), or more packets heard than positions,
// and then with 20 a slice that has no room for all lines; nothing is written then.
pub fn tell(d: Due, out: &mut [u8]) -> Result<usize, Refusal>
    ensures { (lines_told result ≡ (telling_of d (length out.old)).answer)
        × (out.new ≡ sets out.old 0 (telling_of d (length out.old)).bytes) }
{
    if !is_sized(d) {
        return Err(Refusal::ValueNotAllowed);
    }
    let mut text = [0u8; 256];
    let n = put_due(d, &mut text);
    if out.len() < n {
        return Err(Refusal::NoRoom);
    }
    wire::copy(&text[..n], out, 0);
    Ok(n)
}
