// The harvester's reply reader: given a wish and the bytes that came, what a box said to it.
#![tactic(auto)]

mod awaited; // awaited.rt: which values a wish waits for, and what each says
mod compared; // compared.rt: two slices held together

ghost use Rattle.std.specs.Prelude.{◌≡◌, true, false, ◌+◌, eqb};
ghost use Rattle.wire.specs.Number.{field};
ghost use Rattle.layouts.specs.Layouts.{value_place};
ghost use Rattle.wishes.specs.Wishes.{open_wish, allowed_wish};
ghost use Rattle.replies.specs.Awaited.{asks_range, reply_layout};
ghost use Rattle.replies.specs.Reading.{is_nak, read_says, reply_reader_says};

use layouts::Layout;
use wire::{Refusal, types};
use wishes::{StateFields, Wish};

// What a reply says. A serial is the number in its eight characters, least significant first; a version is its id and the
// two bytes after it; a status is whether the box is running; frequencies, clock and rate are in Hz.
#[derive(Clone, Copy, Debug, PartialEq, Eq)]
pub enum Reply {
    // the box refused
    Nak,
    Name,
    Serial(u64),
    Interface(u16),
    Version(u8, u16),
    Status(bool),
    State(StateFields),
    ChannelSetup(u8),
    Frequency(u64),
    // both bands
    FrequencyRange,
    Gain(i8),
    Clock(u32),
    Rate(u32),
    PacketSize(u8),
}

// How the reply to a wish other than the one for the range is laid out: its value is what is to be read, and 0 here.
fn reply_layout(w: Wish) -> Layout
    requires { asks_range w ≡ false }
    ensures { result ≡ reply_layout w 0 }
{
    let asked = wishes::layout_of(w);
    Layout {
        kind: types::REPLY,
        width: awaited::width_of(w),
        value: 0,
        ..asked
    }
}

// The number in the first eight bytes of the value's place.
fn number_in(a: Layout, bytes: &[u8]) -> u64
    ensures { result ≡ field (value_place a) 8 bytes.now }
{
    wire::number_at(bytes, a.value_place(), 8)
}

// No byte stands behind those eight, or a zero.
fn ends_there(a: Layout, bytes: &[u8]) -> bool
    ensures { result ≡ eqb (field (value_place a + 8) 1 bytes.now) 0 }
{
    let ninth = a.value_place() + 8;
    bytes.len() <= ninth || bytes[ninth] == 0
}

// A reply to a wish other than the one for the range. What stands around the value is compared, and the value read: no value
// has more than eight bytes, but for a serial's, whose ninth is zero.
fn read_value(w: Wish, bytes: &[u8]) -> Result<Reply, Refusal>
    requires { (open_wish w ≡ true) × (allowed_wish w ≡ true) × (asks_range w ≡ false) × (is_nak bytes.now ≡ false) }
    ensures { read_says result ≡ reply_reader_says w bytes.now }
{
    let a = reply_layout(w);
    if !a.is_of(bytes) {
        return Err(Refusal::NotAReply);
    }
    if !ends_there(a, bytes) {
        return Err(Refusal::NotAReply);
    }
    let n = number_in(a, bytes);
    if !awaited::could_say(w, n) {
        return Err(Refusal::NotAReply);
    }
    Ok(awaited::says(w, n))
}

// The one reply to the wish for the range of a channel, whose byte is echoed, with both bands.
fn read_range(channel: u8, bytes: &[u8]) -> Result<Reply, Refusal>
    requires { (open_wish (Wish.AskFrequencyRange channel) ≡ true) × (is_nak bytes.now ≡ false) }
    ensures { read_says result ≡ reply_reader_says (Wish.AskFrequencyRange channel) bytes.now }
{
    let mut range = [0u8; 36];
    items::put_range_reply(&mut range, channel).unwrap();
    if compared::same_words(bytes, &range) {
        Ok(Reply::FrequencyRange)
    } else {
        Err(Refusal::NotAReply)
    }
}

// NAK is the bytes 02 00.
#[tactic(auto, using(crate::proofs::Values::no_nak))]
fn is_nak(bytes: &[u8]) -> bool
    ensures { result ≡ is_nak bytes.now }
{
    matches!(bytes, [0x02, 0x00])
}

// What the bytes say to the wish; or nothing, since the writer would refuse the wish, by its channel byte (15) or by its value
// (16), or since the bytes are not a reply to it (28).
pub fn read(w: Wish, bytes: &[u8]) -> Result<Reply, Refusal>
    ensures { read_says result ≡ reply_reader_says w bytes.now }
{
    if !wishes::is_open(w) {
        return Err(Refusal::ChannelNotAllowed);
    }
    if !wishes::is_allowed(w) {
        return Err(Refusal::ValueNotAllowed);
    }
    if is_nak(bytes) {
        return Ok(Reply::Nak);
    }
    match w {
        Wish::AskFrequencyRange(channel) => read_range(channel, bytes),
        _ => read_value(w, bytes),
    }
}
