// Bands: "100,000 to 34,000,000 Hz, oscillator 0; 140,000,000 to 150,000,000 Hz, oscillator 160,000,000."
ghost use Rattle.std.specs.Prelude.{◌≡◌, ◌+◌, ◌^◌, ◌<◌, ◌++◌};
ghost use Rattle.std.proofs.lemmas.List.Edits.{sets};
ghost use Rattle.wire.specs.Number.{bytes};
ghost use Rattle.tuning.specs.Bands.{bands, in_bands, range_bytes};

pub const FIRST_MINIMUM: u64 = 100_000;

pub const FIRST_MAXIMUM: u64 = 34_000_000;

const FIRST_OSCILLATOR: u64 = 0;

const SECOND_MINIMUM: u64 = 140_000_000;

const SECOND_MAXIMUM: u64 = 150_000_000;

pub const SECOND_OSCILLATOR: u64 = 160_000_000;

// The frequency lies in one of the bands.
pub fn in_bands(hz: u64) -> bool
    ensures { result ≡ in_bands hz }
{
    wire::within(FIRST_MINIMUM, FIRST_MAXIMUM, hz)
        | wire::within(SECOND_MINIMUM, SECOND_MAXIMUM, hz)
}

// Minimum, maximum and oscillator of a band, in five bytes each, at a place of the slice.
fn put_band(dst: &mut [u8], at: usize, minimum: u64, maximum: u64, oscillator: u64)
    requires { at + 10 < 2 ^ 64 }
    ensures { dst.new ≡ sets dst.old at (bytes 5 minimum ++ bytes 5 maximum ++ bytes 5 oscillator) }
{
    wire::put(dst, at, 5, minimum);
    wire::put(dst, at + 5, 5, maximum);
    wire::put(dst, at + 10, 5, oscillator);
}

// Writes the bands of a range reply, 30 bytes, at a place of the slice. What would lie past its end is not written.
pub fn put_range(dst: &mut [u8], at: usize)
    ensures { dst.new ≡ sets dst.old at (range_bytes bands) }
{
    // no byte of it has a place; past this test the place of the second band cannot overflow
    if dst.len() <= at {
        return;
    }
    put_band(dst, at, FIRST_MINIMUM, FIRST_MAXIMUM, FIRST_OSCILLATOR);
    put_band(
        dst,
        at + 15,
        SECOND_MINIMUM,
        SECOND_MAXIMUM,
        SECOND_OSCILLATOR,
    );
}
