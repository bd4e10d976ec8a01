// "Samples come in as whole numbers from -8,388,608 to 8,388,607": looked at in a loop that has no early way out, so that many
// are looked at in one step of the processor.
ghost use Rattle.std.specs.Prelude.{◌≡◌, ltb};
ghost use Rattle.packets.specs.Samples.{is_sample, all_samples};

// How far a number lies above the least sample, modulo 2 ^ 32: below 2 ^ 24 for a sample, and for no other number.
// (4303355904 is 2 ^ 32 + 2 ^ 23: with the whole turn no sum is negative.)
fn above(x: i32) -> u32
    ensures { ltb result 16777216 ≡ is_sample x }
{
    ((x as i64 + 4303355904) as u64 % 4294967296) as u32
}

// Whether all are samples. Numbers joined by `or` are below a power of two exactly if each of them is. Each half of the slice is
// joined in a number of its own, so that the processor need not wait for one `or` before the next.
pub fn all_fit(samples: &[i32]) -> bool
    ensures { result ≡ all_samples samples.now }
{
    // The later half begins here. Of an odd number of samples both halves have the one in the middle.
    let half = samples.len() / 2;
    let n = samples.len() - half;
    let mut first = 0u32;
    let mut second = 0u32;
    for i in 0..n {
        first |= above(samples[i]);
        second |= above(samples[half + i]);
    }
    first | second < 16777216
}
