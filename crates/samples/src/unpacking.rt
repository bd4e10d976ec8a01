// Unpacking: the bytes after a packet's four leading bytes, as signed numbers of the width sent.
ghost use Rattle.std.specs.Prelude.{◌≡◌, ◌+◌, ◌*◌, ◌-◌, ◌≤◌, ◌<◌, length, drop};
ghost use Rattle.std.proofs.lemmas.List.Edits.{sets};
ghost use Rattle.wire.specs.Number.{field};
ghost use Rattle.wire.specs.Signed.{signed};
ghost use Rattle.packets.specs.Samples.{samples_from};
ghost use Rattle.samples.specs.Packing.{may_unpack, unpacked_of};

use packets::Form;

// The word at a place that the slice has. (`wire::number_at` looks first whether the slice has it: a test at each sample.)
fn word_at(s: &[u8], at: usize) -> u32
    requires { at + 4 ≤ length s.now }
    ensures { result ≡ field at 4 s.now }
{
    wire::word(s[at], s[at + 1], s[at + 2], s[at + 3])
}

// The number that 24 bits stand for.
fn sign24(v: u32) -> i32
    requires { v < 16777216 }
    ensures { result ≡ signed 24 v }
{
    ((v + 8388608) % 16777216) as i32 - 8388608
}

// The number that 16 bits stand for.
fn sign16(v: u16) -> i32
    ensures { result ≡ signed 16 v }
{
    ((v as u32 + 32768) % 65536) as i32 - 32768
}

// Reads a sample from the word that ends with its three bytes: the four leading bytes see to it that one byte more stands
// before each.
fn unpack24(packet: &[u8], out: &mut [i32], n: usize)
    requires { (4 + 3 * n ≤ length packet.now) × (n ≤ length out.old) }
    ensures { out.new ≡ sets out.old 0 (samples_from 24 (drop 4 packet.now) 0 n) }
{
    for i in 0..n {
        out[i] = sign24(word_at(packet, 3 + 3 * i) / 256);
    }
}

// Reads 32 pairs from the first on, four in a round. The words of a round go by way of an array of 16-bit numbers: the
// compiler makes a plain copy of the first inner loop, and reads the samples at once where they are written; no array is left.
fn block16(packet: &[u8], out: &mut [i32], first: usize)
    requires { (4 + 4 * (first + 32) ≤ length packet.now) × (2 * (first + 32) ≤ length out.old) }
    ensures { out.new
        ≡ sets out.old (2 * first) (samples_from 16 (drop 4 packet.now) (2 * first) (2 * (first + 32) - 2 * first)) }
{
    let mut held = [0u16; 64];
    for round in 0..8usize {
        for i in 4 * round..4 * round + 4 {
            let pair = word_at(packet, 4 + 4 * (first + i));
            held[2 * i] = (pair % 65536) as u16;
            held[2 * i + 1] = (pair / 65536) as u16;
        }
        for k in 8 * round..8 * round + 8 {
            out[2 * first + k] = sign16(held[k]);
        }
    }
}

// Reads blocks of 32 pairs.
fn unpack16(packet: &[u8], out: &mut [i32], blocks: usize)
    requires { (4 + 128 * blocks ≤ length packet.now) × (64 * blocks ≤ length out.old) }
    ensures { out.new ≡ sets out.old 0 (samples_from 16 (drop 4 packet.now) 0 (64 * blocks)) }
{
    for i in 0..blocks {
        block16(packet, out, 32 * i);
    }
}

// Writes the samples of a packet of a form at the start of `out`, I and Q in turn, as signed numbers of the width sent. It
// refuses, and writes nothing, where the form is not listed, the packet is shorter than its form says, or `out` has no room.
pub fn unpack(f: Form, packet: &[u8], out: &mut [i32]) -> bool
    ensures { (result ≡ may_unpack f (length packet.now) (length out.old))
        × (out.new ≡ sets out.old 0 (unpacked_of f packet.now (length out.old))) }
{
    let Some(total) = packets::total_of(f) else {
        return false;
    };
    if (packet.len() as u64) < total {
        return false;
    }
    if (out.len() as u64) < 2 * f.pairs {
        return false;
    }
    let pairs = f.pairs as usize;
    if f.bits == 24 {
        unpack24(packet, out, 2 * pairs);
        return true;
    }
    unpack16(packet, out, pairs / 32);
    true
}
