// The harvester's packet reader: a packet's position, its sample bytes, its samples.
#![tactic(auto)]

ghost use Rattle.std.specs.Prelude.{◌≡◌, true, ◌+◌, ◌<◌, length};
ghost use Rattle.std.proofs.lemmas.List.Edits.{sets};
ghost use Rattle.packets.specs.Channels.{is_count};
ghost use Rattle.packets.specs.Numbers.{number_at, step_of, most};
ghost use Rattle.reader.specs.Inside.{goes_on};
ghost use Rattle.reader.specs.Reading.{silent, sound, heard_at, reading_of, sample_bytes_of, unpacking_of, numbers_written};
ghost use Rattle.reader.specs.Reading.{heard_says, reading_says, unpacking_says};

use packets::Form;
use wire::Refusal;

// How many channels the packets hold, as it was told; and what a reader has heard of the capture so far: the position and form of
// the last packet, and how many packets were missed up to it. Before the first packet that is nothing, and then all is zero.
// (No Option around the last three: a silent reader with a total or a form is a state too, `is_sound` has it broken, and the door's
// 34 bytes and the example `silent with a total` hand it in.)
#[derive(Clone, Copy)]
pub struct Reader {
    pub heard: bool,
    pub channels: u8,
    pub position: u64,
    pub total: u64,
    pub form: Form,
}

// What one call of reading answered where the packet was heard: its position, its first sample's position in each channel, how many packets
// were missed just before it and in the capture so far, and the reader after it.
#[derive(Clone, Copy)]
pub struct Heard {
    pub position: u64,
    pub sample: u64,
    pub missed: u64,
    pub total: u64,
    pub reader: Reader,
}

// What stands in the place of a form where nothing was heard.
const NO_FORM: Form = Form { bits: 0, pairs: 0 };

// A reader that has heard nothing, of packets of so many channels. One that is told another count than 1 or 2 is broken.
pub fn silent(channels: u8) -> Reader
    ensures { result ≡ silent channels }
{
    Reader {
        heard: false,
        channels,
        position: 0,
        total: 0,
        form: NO_FORM,
    }
}

// Whether the reader was told 1 or 2 channels, and is silent, or holds a position that a capture can have, a total that steps to
// it give, and a listed form: "other states are broken".
pub fn is_sound(r: Reader) -> bool
    ensures { result ≡ sound r }
{
    if !packets::is_count(r.channels) {
        return false;
    }
    if r.heard {
        return packets::steps_give(r.position, r.total) && packets::is_listed(r.form);
    }
    r.position == 0 && r.total == 0 && r.form == NO_FORM
}

// A packet taken at a position, with how many were missed: in each channel its first sample stands at that position times the
// channel's I/Q pairs.
fn heard_at(channels: u8, position: u64, missed: u64, total: u64, form: Form) -> Heard
    requires { (is_count channels ≡ true) × (position < most) × (form.pairs < 257) }
    ensures { heard_says result ≡ heard_at channels position missed total form }
{
    let each = packets::pairs_each(channels, form).unwrap();
    let sample = position * each;
    Heard {
        position,
        sample,
        missed,
        total,
        reader: Reader {
            heard: true,
            channels,
            position,
            total,
            form,
        },
    }
}

// The position that a step from the last packet's position leads to: the first above it that has this number. The sum of the
// position's two halves lies whole turns of 65,535 below it, as a sum of digits lies nines below a number: that takes no
// division, and no branch that a lost packet makes the processor guess wrong.
fn position_after(position: u64, number: u16) -> u64
    requires { (position < most) × (0 < number) }
    ensures { result ≡ position + step_of (number_at position) number }
{
    let halves = position / 65536 + position % 65536;
    let number = number as u64;
    if halves < number {
        return position + (number - halves);
    }
    if halves < number + 65535 {
        return position + (number + 65535 - halves);
    }
    position + (number + 131070 - halves)
}

// Whether a packet goes on in the reader's capture: the reader is sound and has heard one, and this one has its form and a number above
// 0. So it is with nearly every packet, and these are all the tests that it takes: a form that a packet has is a listed one.
#[tactic(auto, using(crate::proofs::Going::by_form, crate::proofs::Going::none_goes_on))]
fn goes_on(r: Reader, packet: &[u8]) -> bool
    ensures { result ≡ goes_on r packet.now }
{
    let Some(form) = packets::whole(packet) else {
        return false;
    };
    (form == r.form)
        & r.heard
        & (packets::number_in(packet) != 0)
        & packets::is_count(r.channels)
        & packets::steps_give(r.position, r.total)
}

// Reads such a packet.
fn next(r: Reader, packet: &[u8]) -> Result<Heard, Refusal>
    requires { goes_on r packet.now ≡ true }
    ensures { reading_says r result ≡ reading_of r packet.now }
{
    let position = position_after(r.position, packets::number_in(packet));
    if packets::LAST < position {
        return Err(Refusal::PastLast);
    }
    let missed = position - r.position - 1;
    Ok(heard_at(r.channels, position, missed, r.total + missed, r.form))
}

// Reads one packet: "Packet reading 21, 30, 31, 32, 33." Of the packet only its length and its first four bytes are looked at.
pub fn read(r: Reader, packet: &[u8]) -> Result<Heard, Refusal>
    ensures { reading_says r result ≡ reading_of r packet.now }
{
    if goes_on(r, packet) {
        return next(r, packet);
    }
    if !is_sound(r) {
        return Err(Refusal::Broken);
    }
    let form = packets::whole(packet).ok_or(Refusal::NotAPacket)?;
    if packets::number_in(packet) == 0 {
        return Ok(heard_at(r.channels, 0, 0, 0, form));
    }
    if !r.heard {
        return Err(Refusal::NoFirstPacket);
    }
    // with the reader's form it would go on
    Err(Refusal::FormChanged)
}

// "A call of its own answers with the sample bytes handed back as that part of the caller's packet, or with an empty part
// where the slice is 30."
pub fn sample_bytes(packet: &[u8]) -> &[u8]
    ensures { result.now ≡ sample_bytes_of packet.now }
{
    match packets::whole(packet) {
        Some(_) => &packet[4..],
        None => &packet[..0],
    }
}

// "Unpacking takes a packet and writes its I and Q in turn as signed numbers of the width sent; it refuses with 30, then 20." Answers how
// many numbers it wrote.
pub fn unpack(packet: &[u8], out: &mut [i32]) -> Result<usize, Refusal>
    ensures { (unpacking_says result ≡ unpacking_of packet.now (length out.old))
        × (out.new ≡ sets out.old 0 (numbers_written packet.now (length out.old))) }
{
    let form = packets::whole(packet).ok_or(Refusal::NotAPacket)?;
    if !samples::unpack(form, packet, out) {
        return Err(Refusal::NoRoom);
    }
    Ok(2 * form.pairs as usize)
}
