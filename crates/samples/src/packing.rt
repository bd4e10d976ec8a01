// Packing: samples into the bytes of a packet, after its four leading bytes.
ghost use Rattle.std.specs.Prelude.{◌≡◌, true, ◌++◌, ◌+◌, ◌*◌, ◌≤◌, ◌<◌, pos, length, get_or};
ghost use Rattle.std.specs.Int.Signed.{le_z};
ghost use Rattle.std.proofs.lemmas.List.Edits.{sets};
ghost use Rattle.wire.specs.Number.{bytes};
ghost use Rattle.wire.specs.Signed.{minus, coded};
ghost use Rattle.packets.specs.Samples.{all_samples, at_most, narrowed, samples_bytes};
ghost use Rattle.samples.specs.Packing.{may_pack, packed_of};

use crate::fitting::all_fit;
use packets::Form;

// Writes a word at a place that the slice has: stores of one number side by side are one of the processor's. (`wire::put` looks
// first whether the slice has it: a test at each word. Tried: `copy_from_slice(&v.to_le_bytes())` costs `pack24` twice the
// instructions.)
fn put_word(dst: &mut [u8], at: usize, v: u32)
    requires { at + 4 ≤ length dst.old }
    ensures { dst.new ≡ sets dst.old at (bytes 4 v) }
{
    dst[at] = (v % 256) as u8;
    dst[at + 1] = (v / 256 % 256) as u8;
    dst[at + 2] = (v / 65536 % 256) as u8;
    dst[at + 3] = (v / 16777216 % 256) as u8;
}

// Writes four numbers of 24 bits at a place that the slice has: twelve bytes, in three words.
fn put_four24(dst: &mut [u8], at: usize, a: u32, b: u32, c: u32, d: u32)
    requires { (at + 12 ≤ length dst.old) × (a < 16777216) × (b < 16777216) × (c < 16777216) × (d < 16777216) }
    ensures { dst.new
        ≡ sets dst.old at (bytes 3 a ++ (bytes 3 b ++ (bytes 3 c ++ bytes 3 d))) }
{
    put_word(dst, at, a + 16777216 * (b % 256));
    put_word(dst, at + 4, b / 256 + 65536 * (c % 65536));
    put_word(dst, at + 8, c / 65536 + 256 * d);
}

// What is sent of the sample at a place: "24-bit form: two's complement." The slice is handed in, since what is known is that
// all of it are samples.
fn code24(samples: &[i32], at: usize) -> u32
    requires { (all_samples samples.now ≡ true) × (at < length samples.now) }
    ensures { (result ≡ coded 24 (narrowed 24 (get_or samples.now at (pos 0)))) × (result < 16777216) }
{
    let above = (samples[at] + 8388608) as u32;
    (above + 8388608) % 16777216
}

// "hold at 32,767": a number above it becomes 32,767. Of a sample nothing comes below -32,768, so that the second test never
// holds; but a number that is held at both ends is narrowed by one instruction of the processor's, many at once.
fn hold16(q: i32) -> i32
    requires { le_z (minus 32768) q ≡ true }
    ensures { result ≡ at_most 32767 q }
{
    if 32767 < q {
        return 32767;
    }
    if q < -32768 {
        return -32768;
    }
    q
}

// What is sent of the sample at a place at 16 bits: "add 128, divide by 256 rounding down, and hold at 32,767". A shift rounds
// down.
fn code16(samples: &[i32], at: usize) -> u16
    requires { (all_samples samples.now ≡ true) × (at < length samples.now) }
    ensures { result ≡ coded 16 (narrowed 16 (get_or samples.now at (pos 0))) }
{
    let sent = hold16((samples[at] + 128) >> 8);
    let above = (sent + 32768) as u32;
    ((above + 32768) % 65536) as u16
}

// Writes samples in three bytes each, four at once.
fn pack24(samples: &[i32], packet: &mut [u8], fours: usize)
    requires { (all_samples samples.now ≡ true)
        × (length samples.now ≡ 4 * fours)
        × (4 + 12 * fours ≤ length packet.old) }
    ensures { packet.new ≡ sets packet.old 4 (samples_bytes 24 samples.now) }
{
    for i in 0..fours {
        let a = code24(samples, 4 * i);
        let b = code24(samples, 4 * i + 1);
        let c = code24(samples, 4 * i + 2);
        let d = code24(samples, 4 * i + 3);
        put_four24(packet, 4 + 12 * i, a, b, c, d);
    }
}

// Writes samples in two bytes each, the least significant first.
fn pack16(samples: &[i32], packet: &mut [u8])
    requires { (all_samples samples.now ≡ true) × (4 + 2 * length samples.now ≤ length packet.old) }
    ensures { packet.new ≡ sets packet.old 4 (samples_bytes 16 samples.now) }
{
    for i in 0..samples.len() {
        let v = code16(samples, i);
        packet[4 + 2 * i] = (v % 256) as u8;
        packet[5 + 2 * i] = (v / 256) as u8;
    }
}

// Writes the sample bytes of a packet of a form after its four leading bytes. It refuses, and writes nothing, where the
// form is not listed, the samples are not its I/Q pairs, the slice has no room for the packet, or a sample is outside 24 bits.
// (In line, what its loops keep would lie on the stack of who cuts packets, beside the box: docs/TRUSTED.md, "The stack".)
#[inline(never)]
pub fn pack(f: Form, samples: &[i32], packet: &mut [u8]) -> bool
    ensures { (result ≡ may_pack f samples.now (length packet.old))
        × (packet.new ≡ sets packet.old 4 (packed_of f samples.now (length packet.old))) }
{
    let Some(total) = packets::total_of(f) else {
        return false;
    };
    if samples.len() as u64 != 2 * f.pairs {
        return false;
    }
    if (packet.len() as u64) < total {
        return false;
    }
    // all are looked at before the first is written
    if !all_fit(samples) {
        return false;
    }
    // In every listed form the pairs are even: the samples are whole fours.
    if f.bits == 24 {
        pack24(samples, packet, samples.len() / 4);
        return true;
    }
    pack16(samples, packet);
    true
}
