// Making a reader, and reading packets.
ghost use Rattle.std.specs.Prelude.{◌≡◌, length};
ghost use Rattle.std.proofs.lemmas.List.Edits.{sets};
ghost use Rattle.reader.specs.Reading.{heard_says, reading_says, sample_bytes_of, unpacking_of, numbers_written};
ghost use Rattle.harvestdoor.specs.States.{reader_in};
ghost use Rattle.harvestdoor.specs.Reading.{silent_over, read_over, sample_byte_at};
ghost use Rattle.harvestdoor.specs.Inside.{heard_bytes, reading_in};

use reader::Heard;
use wire::{Refusal, codes};

// Makes a reader that has heard nothing, of packets of so many channels, in 34 bytes. Answers 1; or 21, and leaves the bytes as they
// came, where they are not 34 or the count is neither 1 nor 2.
#[unsafe(no_mangle)]
pub extern "C" fn skvornela_silent(channels: u8, state: &mut [u8]) -> u8
    ensures { record { code = result; state = state.new } ≡ silent_over channels state.old }
{
    if state.len() != crate::states::LENGTH {
        return Refusal::Broken as u8;
    }
    if !packets::is_count(channels) {
        return Refusal::Broken as u8;
    }
    crate::states::put_reader(state, reader::silent(channels));
    codes::DONE
}

// Stores the reader after a packet that was heard, in its 34 bytes: all of it where a capture starts, at position 0, and else what a
// packet that goes on changes.
fn put_heard(state: &mut [u8], h: Heard)
    requires { length state.old ≡ 34 }
    ensures { state.new ≡ heard_bytes (heard_says h) state.old }
{
    if h.position == 0 {
        let after = h.reader;
        crate::states::put_reader(state, after);
        return;
    }
    crate::states::put_next(state, h.position, h.total);
}

// Reads one packet with a reader in lent bytes, which is broken where they are not 34.
#[tactic(auto, unfolding(crate::specs::Inside::reading_in))]
fn read(state: &[u8], packet: &[u8]) -> Result<Heard, Refusal>
    ensures { reading_says (reader_in state.now) result ≡ reading_in state.now packet.now }
{
    if state.len() != crate::states::LENGTH {
        return Err(Refusal::Broken);
    }
    reader::read(crate::states::reader_in(state), packet)
}

// Reads one packet with a reader of 34 bytes. Answers the code, and leaves the packet's position, in each channel that of its first
// sample, and how many packets were missed just before it and in the capture so far; all four are 0 where the packet is
// refused, and the reader's bytes are then as they came.
#[unsafe(no_mangle)]
pub extern "C" fn skvornela_read(
    state: &mut [u8],
    packet: &[u8],
    position: &mut u64,
    sample: &mut u64,
    missed: &mut u64,
    total: &mut u64,
) -> u8
    ensures { record {
      code = result;
      position = position.new;
      sample = sample.new;
      missed = missed.new;
      total = total.new;
      state = state.new;
    }
        ≡ read_over state.old packet.now }
{
    match read(state, packet) {
        Ok(h) => {
            *position = h.position;
            *sample = h.sample;
            *missed = h.missed;
            *total = h.total;
            put_heard(state, h);
            codes::DONE
        }
        Err(refusal) => {
            *position = 0;
            *sample = 0;
            *missed = 0;
            *total = 0;
            u8::from(refusal)
        }
    }
}

// How many sample bytes a packet has; leaves the one at a place, 0 past their end.
#[unsafe(no_mangle)]
pub extern "C" fn skvornela_sample_byte(packet: &[u8], place: usize, byte: &mut u8) -> usize
    ensures { (result ≡ length (sample_bytes_of packet.now)) × (byte.new ≡ sample_byte_at place packet.now) }
{
    let part = reader::sample_bytes(packet);
    if place < part.len() {
        *byte = part[place];
        return part.len();
    }
    *byte = 0;
    part.len()
}

// Unpacks a packet into lent numbers. Answers the code, and leaves how many numbers were written.
#[unsafe(no_mangle)]
pub extern "C" fn skvornela_unpack(packet: &[u8], out: &mut [i32], count: &mut usize) -> u8
    ensures { (record { code = result; count = count.new } ≡ unpacking_of packet.now (length out.old))
        × (out.new ≡ sets out.old 0 (numbers_written packet.now (length out.old))) }
{
    let written = reader::unpack(packet, out);
    *count = written.unwrap_or(0);
    wire::code_of(written)
}
