// A packet as it comes, byte by byte: its header and its number are read, its samples are counted.
ghost use Rattle.std.specs.Prelude.{◌≡◌, ◌+◌, ◌≤◌, ◌<◌, ◌&&◌, leb};
ghost use Rattle.packets.specs.Numbers.{last};
ghost use Rattle.hearing.specs.Hearing.{heard_by_steps, tally_in_range, field_with, taking_byte, position_now};
ghost use Rattle.hearing.specs.Hearing.{lacks_first, heard_code, accepting, closes, settled, whole_told, reach_told};
ghost use Rattle.hearing.specs.Inside.{Sane};

use crate::{FARTHEST, Reach, Stop, Tally};
use packets::Form;
use wire::Refusal;

// Whether a position is one that a capture can have, and steps lead there from the first of so many packets heard, one to each
// other; where none is heard, whether it is 0.
fn is_heard(heard: u64, position: u64) -> bool
    ensures { result ≡ leb position last && heard_by_steps heard position }
{
    if heard == 0 {
        return position == 0;
    }
    let steps = heard - 1;
    if position < steps {
        return false;
    }
    packets::steps_give(position, position - steps)
}

// Whether each count of a tally is within its range. A tally that is not is broken.
pub fn in_range(t: Tally) -> bool
    ensures { result ≡ tally_in_range t }
{
    if FARTHEST < t.begins {
        return false;
    }
    if FARTHEST - t.begins < t.came {
        return false;
    }
    if t.begins < t.heard {
        return false;
    }
    if t.begins < t.captures {
        return false;
    }
    is_heard(t.heard, t.position)
}

// A 16-bit field that begins at a place of the packet, after one byte more.
fn field_with(place: u64, came: u64, field: u16, b: u8) -> u16
    requires { place ≤ 2 }
    ensures { result ≡ field_with place came field b }
{
    if came == place {
        return b as u16;
    }
    if came == place + 1 {
        return field % 256 + 256 * b as u16;
    }
    field
}

// One byte of the packet more.
pub(crate) fn take_byte(t: Tally, b: u8) -> Tally
    requires { t.came + 1 < 0x1_0000_0000_0000_0000 }
    ensures { result ≡ taking_byte t b }
{
    Tally {
        came: t.came + 1,
        header: field_with(0, t.came, t.header, b),
        number: field_with(2, t.came, t.number, b),
        ..t
    }
}

// The position that the packet has.
fn position_now(t: Tally) -> u64
    requires { t.position ≤ last }
    ensures { result ≡ position_now t }
{
    if t.number == 0 {
        return 0;
    }
    t.position + packets::step(packets::number_at_position(t.position), t.number)
}

// Whether no packet numbered 0 has come yet: the number is above 0, and no capture is open.
fn lacks_first(t: Tally) -> bool
    ensures { result ≡ lacks_first t }
{
    if t.number == 0 {
        return false;
    }
    t.heard == 0
}

// Whether the packet is whole and accepted, in a capture of a form, or more bytes are waited for; a refusal where it is
// neither.
fn is_whole(f: Form, t: Tally) -> Result<bool, Refusal>
    requires { t.position ≤ last }
    ensures { whole_told result ≡ heard_code f t }
{
    if t.came < 2 {
        return Ok(false);
    }
    let Some(now) = packets::form_of_header(t.header) else {
        return Err(Refusal::NotAPacket);
    };
    if t.came < packets::total_of(now).unwrap() {
        return Ok(false);
    }
    if now != f {
        return Err(Refusal::FormChanged);
    }
    if lacks_first(t) {
        return Err(Refusal::NoFirstPacket);
    }
    if packets::LAST < position_now(t) {
        return Err(Refusal::PastLast);
    }
    Ok(true)
}

// The tally after an accepted packet.
pub(crate) fn accept(t: Tally) -> Tally
    requires { Sane 0 t × (0 < t.came) }
    ensures { result ≡ accepting t }
{
    let next = Tally {
        begins: t.begins + t.came,
        came: 0,
        header: 0,
        number: 0,
        position: position_now(t),
        ..t
    };
    if t.number == 0 {
        return Tally {
            captures: t.captures + 1,
            heard: 1,
            ..next
        };
    }
    Tally {
        heard: t.heard + 1,
        ..next
    }
}

// Whether the open capture ends with the packet.
fn closes(t: Tally) -> bool
    ensures { result ≡ closes t }
{
    if t.number == 0 {
        return t.heard != 0;
    }
    false
}

// Settles what the bytes of a packet come to, with n bytes taken in all: more are waited for, or the packet is accepted, or
// a line is due.
pub(crate) fn settle(n: usize, f: Form, t: Tally) -> Reach
    requires { Sane 0 t × (0 < t.came) }
    ensures { reach_told result ≡ settled n f t }
{
    match is_whole(f, t) {
        Ok(whole) => {
            if !whole {
                return Reach {
                    at: n,
                    stop: None,
                    tally: t,
                };
            }
            if closes(t) {
                return Reach {
                    at: n,
                    stop: Some(Stop::CaptureEnds),
                    tally: t,
                };
            }
            Reach {
                at: n,
                stop: None,
                tally: accept(t),
            }
        }
        Err(r) => Reach {
            at: n,
            stop: Some(Stop::Refused(r)),
            tally: t,
        },
    }
}
