// Packets and numbers of document 01: the four forms, and the number at each position. (Crate samples has the loops.)
#![tactic(auto)]

ghost use Rattle.std.specs.Prelude.{◌≡◌, ◌<◌, ◌&&◌, leb, get_or, Some, None};
ghost use Rattle.wire.specs.Choice.{pick};
ghost use Rattle.wire.specs.Number.{field};
ghost use Rattle.packets.specs.Forms.{form_for, listed_form, total_of, form_with_header, whole_of, found};
ghost use Rattle.packets.specs.Inside.{form_with_total};
ghost use Rattle.packets.specs.Channels.{is_count, pairs_each};
ghost use Rattle.packets.specs.Numbers.{number_at, number_in, step_of, last};
ghost use Rattle.packets.specs.Missed.{steps_give};

// How many packets a capture can hold, and the position of the last of them.
pub const MOST: u64 = 4_000_000_000;

pub const LAST: u64 = 3_999_999_999;

// The mode byte, "80 (24 bits) or 00 (16 bits)", and the size byte, "0 large, 1 small".
pub const MODE_24: u8 = 0x80;

pub const MODE_16: u8 = 0x00;

pub const LARGE: u8 = 0;

pub const SMALL: u8 = 1;

// How a packet is laid out: the bits of a sample and the I/Q pairs in a packet.
#[derive(Clone, Copy, PartialEq, Eq)]
pub struct Form {
    pub bits: u64,
    pub pairs: u64,
}

// The four listed forms, those of the table in specs/Forms.antt.
pub const LARGE_24: Form = Form {
    bits: 24,
    pairs: 240,
};

pub const SMALL_24: Form = Form {
    bits: 24,
    pairs: 64,
};

pub const LARGE_16: Form = Form {
    bits: 16,
    pairs: 256,
};

pub const SMALL_16: Form = Form {
    bits: 16,
    pairs: 128,
};

// The form that a box with this mode byte and this size byte cuts; none for bytes that are neither.
#[tactic(auto, unfolding(crate::specs::Forms::found))]
pub fn form_for(mode: u8, size: u8) -> Option<Form>
    ensures { result ≡ found (form_for mode size) }
{
    match (mode, size) {
        (MODE_24, LARGE) => Some(LARGE_24),
        (MODE_24, SMALL) => Some(SMALL_24),
        (MODE_16, LARGE) => Some(LARGE_16),
        (MODE_16, SMALL) => Some(SMALL_16),
        (_, _) => None,
    }
}

// Whether the form is one of the four.
pub fn is_listed(f: Form) -> bool
    ensures { result ≡ listed_form f }
{
    matches!(f, LARGE_24 | SMALL_24 | LARGE_16 | SMALL_16)
}

// How many bytes a packet of a listed form has; none for any other form.
pub fn total_of(f: Form) -> Option<u64>
    ensures { result ≡ pick (listed_form f) (Some (total_of f)) None }
{
    if is_listed(f) {
        Some(4 + f.pairs * 2 * (f.bits / 8))
    } else {
        None
    }
}

// Whether packets can hold so many channels: one or two.
pub fn is_count(channels: u8) -> bool
    ensures { result ≡ is_count channels }
{
    (channels == 1) | (channels == 2)
}

// The I/Q pairs that each channel has in a packet of a form; none where packets cannot hold so many channels. A count is 1 or 2, so
// this takes no division.
pub fn pairs_each(channels: u8, f: Form) -> Option<u64>
    ensures { result ≡ pick (is_count channels) (Some (pairs_each channels f)) None }
{
    match channels {
        1 => Some(f.pairs),
        2 => Some(f.pairs / 2),
        _ => None,
    }
}

// The form whose two header bytes hold this number; none for any other header.
#[tactic(auto, unfolding(crate::specs::Forms::found))]
pub fn form_of_header(header: u16) -> Option<Form>
    ensures { result ≡ found (form_with_header header) }
{
    match header {
        0x85A4 => Some(LARGE_24),
        0x8184 => Some(SMALL_24),
        0x8404 => Some(LARGE_16),
        0x8204 => Some(SMALL_16),
        _ => None,
    }
}

// A byte of a slice, 0 where the slice has no such place.
fn byte_at(s: &[u8], at: usize) -> u16
    ensures { (result ≡ get_or s.now at 0) × (result < 256) }
{
    if at < s.len() {
        return s[at] as u16;
    }
    0
}

// The 16-bit number at one of the first places of a packet. Bytes past the end of the slice are not there, and count nothing.
fn two_at(packet: &[u8], at: usize) -> u16
    requires { at < 4 }
    ensures { result ≡ field at 2 packet.now }
{
    byte_at(packet, at) + 256 * byte_at(packet, at + 1)
}

// The form of packets of so many bytes; none where no packet has as many.
#[tactic(auto, unfolding(crate::specs::Forms::found))]
fn form_of_total(total: usize) -> Option<Form>
    ensures { result ≡ found (form_with_total total) }
{
    match total {
        1444 => Some(LARGE_24),
        388 => Some(SMALL_24),
        1028 => Some(LARGE_16),
        516 => Some(SMALL_16),
        _ => None,
    }
}

// The form of a slice that is one whole packet of a listed form; none for any other slice. Its length is looked at first: that names
// the form, and then the header must be 8000 (hex) more, as a data item's is.
#[tactic(auto, using(crate::proofs::Forms::whole_found))]
pub fn whole(packet: &[u8]) -> Option<Form>
    ensures { result ≡ found (whole_of packet.now) }
{
    let total = packet.len();
    let form = form_of_total(total)?;
    if two_at(packet, 0) as usize == 0x8000 + total {
        Some(form)
    } else {
        None
    }
}

// The number that a packet carries.
pub fn number_in(packet: &[u8]) -> u16
    ensures { result ≡ number_in packet.now }
{
    two_at(packet, 2)
}

// "The packet at position 0 has number 0; at position p of 1 or more, ((p - 1) mod 65,535) + 1."
pub fn number_at_position(p: u64) -> u16
    ensures { result ≡ number_at p }
{
    if p == 0 {
        return 0;
    }
    ((p - 1) % 65535 + 1) as u16
}

// "From number s to number t above 0 the step is t - s, and 65,535 more if t is not above s."
pub fn step(s: u16, t: u16) -> u64
    ensures { result ≡ step_of s t }
{
    if s < t {
        return t as u64 - s as u64;
    }
    t as u64 + 65535 - s as u64
}

// Whether the position is one that a capture can have, and the total one that steps to it give: each is 1 to 65,535, and passes
// over one packet less.
#[tactic(auto, unfolding(crate::specs::Missed::steps_give))]
pub fn steps_give(position: u64, total: u64) -> bool
    ensures { result ≡ leb position last && steps_give position total }
{
    if LAST < position {
        return false;
    }
    if position < total {
        return false;
    }
    position <= 65535 * (position - total)
}
