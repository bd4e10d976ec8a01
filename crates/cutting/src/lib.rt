// Cutting packets from samples, at the box.
#![tactic(auto)]

ghost use Rattle.std.specs.Prelude.{◌≡◌, ◌++◌, ◌+◌, ◌≤◌, ◌<◌, length};
ghost use Rattle.wire.specs.Choice.{pick};
ghost use Rattle.wire.specs.Number.{bytes};
ghost use Rattle.wire.specs.Header.{header_of, type_data};
ghost use Rattle.packets.specs.Numbers.{number_at};
ghost use Rattle.packets.specs.Samples.{all_samples};
ghost use Rattle.std.proofs.lemmas.List.Edits.{sets};
ghost use Rattle.wire.specs.Codes as Code;
ghost use Rattle.wire.specs.Refusal.{refusal_code};
ghost use Rattle.station.specs.Station.{box_of};
ghost use Rattle.cutting.specs.Cutting.{cutting_of, parts_of, cut_says, held_says};

use items::Settings;
use station::{Parts, Station};
use wire::{Refusal, types};

// What one call of cutting did: how many bytes of packet it wrote; and the box after it, or where its held bytes were lent, its
// settings. Of an unfinished message cutting changes nothing.
#[derive(Clone, Copy)]
pub struct Cut<T: Copy> {
    pub wrote: usize,
    pub left: T,
}

// Cuts the next packet of a running capture from I and Q in turn: the packet of the box's mode and size, with the number of
// its position. Where it refuses, the lent packet is as it was. The box comes and goes by value, and is copied on the stack: a
// task that has little stack calls `cut_held`, or the door.
pub fn cut_packet(s: Station, samples: &[i32], packet: &mut [u8]) -> Result<Cut<Station>, Refusal>
    ensures { (cut_says s result ≡ (cutting_of s samples.now (length packet.old)).cut)
        × (packet.new
        ≡ sets packet.old 0 (cutting_of s samples.now (length packet.old)).bytes) }
{
    // The bytes held are lent by themselves, and put back, though they are as they were. (Of a box of which a part is lent the compiler
    // copies the whole by memcpy; and where another copy of them is answered it keeps both on the stack.)
    let held = s.store.held;
    let cut = cut_held(s.parts(), &held, samples, packet)?;
    let mut left = s;
    left.settings = cut.left;
    left.store.held = held;
    Ok(Cut {
        wrote: cut.wrote,
        left,
    })
}

// The same of a box whose held bytes are lent, with its other parts by value, so that a call copies no box.
pub fn cut_held(
    parts: Parts,
    held: &[u8],
    samples: &[i32],
    packet: &mut [u8],
) -> Result<Cut<Settings>, Refusal>
    ensures { (held_says parts.settings result
        ≡ parts_of (cutting_of (box_of parts.settings held.now parts.taken) samples.now (length packet.old)).cut)
        × (packet.new
        ≡ sets packet.old 0
        (cutting_of (box_of parts.settings held.now parts.taken) samples.now (length packet.old)).bytes) }
{
    if !station::is_sound(parts, held) {
        return Err(Refusal::Broken);
    }
    let settings = parts.settings;
    if !settings.running {
        return Err(Refusal::WhileIdle);
    }
    let count = settings.count;
    let full = packets::MOST <= count;
    if full {
        return Err(Refusal::CaptureFull);
    }
    let form = packets::form_for(settings.mode, settings.size as u8).unwrap();
    if samples.len() as u64 != 2 * form.pairs {
        return Err(Refusal::WrongCount);
    }
    if !samples::pack(form, samples, packet) {
        return Err(not_packed(samples));
    }
    let total = packets::total_of(form).unwrap();
    put_leading(packet, total, count);
    Ok(Cut {
        wrote: total as usize,
        left: Settings {
            count: count + 1,
            ..settings
        },
    })
}

// Writes the four leading bytes of a packet: the header of its total, and the number of its position. (`wire::put` has functions
// below it, which take more stack than packing does where nothing is optimised.)
fn put_leading(packet: &mut [u8], total: u64, position: u64)
    requires { (total < 65536) × (4 ≤ length packet.old) }
    ensures { packet.new ≡ sets packet.old 0 (bytes 2 (header_of type_data total) ++ bytes 2 (number_at position)) }
{
    let header = wire::header_of(types::DATA, total as u16);
    let number = packets::number_at_position(position);
    packet[0] = (header % 256) as u8;
    packet[1] = (header / 256) as u8;
    packet[2] = (number % 256) as u8;
    packet[3] = (number / 256) as u8;
}

// Why nothing was packed, of the right number of samples: one outside 24 bits (24) is looked for before the room (20).
fn not_packed(samples: &[i32]) -> Refusal
    ensures { refusal_code result ≡ pick (all_samples samples.now) Code.no_room Code.not_a_sample }
{
    if samples::all_fit(samples) {
        return Refusal::NoRoom;
    }
    Refusal::NotASample
}
