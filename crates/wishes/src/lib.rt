// Harvester's wishes of document 01: what the harvester can ask of a box, and the messages that ask it.
#![tactic(auto)]

ghost use Rattle.std.specs.Prelude.{◌≡◌, ◌∷◌, length};
ghost use Rattle.std.proofs.lemmas.List.Edits.{sets};
ghost use Rattle.wire.specs.Choice.{one_of};
ghost use Rattle.wire.specs.Number.{number};
ghost use Rattle.wire.specs.Header.{type_set, type_request};
ghost use Rattle.items.specs.Settings.{dual, open_channels};
ghost use Rattle.wishes.specs.Wishes.{state_sent, layout_of, open_wish, allowed_wish, may_wish_state};
ghost use Rattle.wishes.specs.Writing.{written_says, writing_of, bytes_written};

use items::{table, values};
use layouts::Layout;
use wire::{Refusal, types};

// The state that is wished for: its run byte, 1 for idle or 2 for run, and its capture mode, which idle does not look at.
#[derive(Clone, Copy, Debug, PartialEq, Eq)]
pub struct StateFields {
    pub run: u8,
    pub mode: u8,
}

// "One wish for each kind and item above": a set holds the value to set, frequencies, clock and rate in Hz. Where the message has
// a channel byte, the wish holds that first (02, No. 7): "Wishes gain 0019 and a channel byte".
#[derive(Clone, Copy, Debug, PartialEq, Eq)]
pub enum Wish {
    AskName,
    AskSerial,
    AskInterface,
    AskVersion(u8),
    AskStatus,
    SetState(StateFields),
    AskState,
    SetChannelSetup(u8),
    AskChannelSetup,
    SetFrequency(u8, u64),
    AskFrequency(u8),
    AskFrequencyRange(u8),
    SetGain(u8, i8),
    AskGain(u8),
    SetClock(u8, u32),
    AskClock(u8),
    SetRate(u8, u32),
    AskRate(u8),
    SetPacketSize(u8),
    AskPacketSize,
}

// "Idle is sent as 00 01 00 00, run as 80 02, mode, 00", as one number.
fn state_sent(fields: StateFields) -> u64
    ensures { result ≡ number (state_sent fields) }
{
    if fields.run == values::IDLE {
        return u32::from_le_bytes([0x00, values::IDLE, 0x00, 0x00]) as u64;
    }
    values::state_number(fields.run, fields.mode)
}

// A request has no value.
fn request(item: u16, echo: Option<u8>) -> Layout
    ensures { result ≡ record { kind = type_request; item = item; echo = echo; width = 0; value = 0 } }
{
    Layout {
        kind: types::REQUEST,
        item,
        echo,
        width: 0,
        value: 0,
    }
}

fn setting(item: u16, echo: Option<u8>, width: u8, value: u64) -> Layout
    ensures { result ≡ record { kind = type_set; item = item; echo = echo; width = width; value = value } }
{
    Layout {
        kind: types::SET,
        width,
        value,
        ..request(item, echo)
    }
}

// The table of wishes: how each is laid out in its message.
pub fn layout_of(w: Wish) -> Layout
    ensures { result ≡ layout_of w }
{
    match w {
        Wish::AskName => request(table::NAME, None),
        Wish::AskSerial => request(table::SERIAL, None),
        Wish::AskInterface => request(table::INTERFACE, None),
        Wish::AskVersion(id) => request(table::VERSIONS, Some(id)),
        Wish::AskStatus => request(table::STATUS, None),
        Wish::SetState(fields) => setting(table::STATE, None, 4, state_sent(fields)),
        Wish::AskState => request(table::STATE, None),
        Wish::SetChannelSetup(n) => setting(table::CHANNEL_SETUP, None, 1, n as u64),
        Wish::AskChannelSetup => request(table::CHANNEL_SETUP, None),
        Wish::SetFrequency(channel, hz) => setting(table::FREQUENCY, Some(channel), 5, hz),
        Wish::AskFrequency(channel) => request(table::FREQUENCY, Some(channel)),
        Wish::AskFrequencyRange(channel) => Layout {
            kind: types::RANGE,
            ..request(table::FREQUENCY, Some(channel))
        },
        Wish::SetGain(channel, g) => setting(
            table::GAIN,
            Some(channel),
            1,
            g.cast_unsigned() as u64,
        ),
        Wish::AskGain(channel) => request(table::GAIN, Some(channel)),
        Wish::SetClock(channel, hz) => setting(table::CLOCK, Some(channel), 4, hz as u64),
        Wish::AskClock(channel) => request(table::CLOCK, Some(channel)),
        Wish::SetRate(channel, hz) => setting(table::RATE, Some(channel), 4, hz as u64),
        Wish::AskRate(channel) => request(table::RATE, Some(channel)),
        Wish::SetPacketSize(n) => setting(table::PACKET_SIZE, None, 1, n as u64),
        Wish::AskPacketSize => request(table::PACKET_SIZE, None),
    }
}

// The box takes the state: idle always, run in one of the two modes.
fn may_state(fields: StateFields) -> bool
    ensures { result ≡ may_wish_state fields }
{
    let run = fields.run;
    match run {
        values::IDLE => true,
        values::RUN => items::ranges::is_mode(fields.mode),
        _ => false,
    }
}

// A channel that a box with two of them opens to a request: 00 or 02.
fn may_ask_of(channel: u8) -> bool
    ensures { result ≡ one_of channel (open_channels dual) }
{
    channels::is_open(items::ranges::DUAL, channel)
}

// To a set FF is open too.
fn may_set_on(channel: u8) -> bool
    ensures { result ≡ one_of channel (0xFF ∷ open_channels dual) }
{
    channels::may_set(items::ranges::DUAL, channel)
}

// Some box allows the wish's channel byte: one with two channels does, where any does.
pub fn is_open(w: Wish) -> bool
    ensures { result ≡ open_wish w }
{
    match w {
        Wish::SetFrequency(channel, _) => may_set_on(channel),
        Wish::AskFrequency(channel) => may_ask_of(channel),
        Wish::AskFrequencyRange(channel) => may_ask_of(channel),
        Wish::SetGain(channel, _) => may_set_on(channel),
        Wish::AskGain(channel) => may_ask_of(channel),
        _ => true, // there is no channel byte, or any goes
    }
}

// The box would not refuse the wish's value with 16.
pub fn is_allowed(w: Wish) -> bool
    ensures { result ≡ allowed_wish w }
{
    match w {
        Wish::AskVersion(id) => values::is_version(id),
        Wish::SetState(fields) => may_state(fields),
        Wish::SetChannelSetup(n) => items::ranges::is_setup(n as u16),
        Wish::SetFrequency(_, hz) => tuning::in_bands(hz),
        Wish::SetGain(_, g) => items::ranges::is_gain(g.cast_unsigned() as u32),
        Wish::SetClock(_, hz) => tuning::is_clock(hz),
        Wish::SetRate(_, hz) => rates::may_ask(hz),
        Wish::SetPacketSize(n) => items::ranges::is_size(n as u32),
        _ => true, // there is no value
    }
}

// Writes the message of a wish at the start of the buffer, and says how long it is; or nothing, since no box allows the channel byte
// (15), since the box would not allow the value (16), or since the buffer is under 16 bytes (20).
pub fn write(w: Wish, buffer: &mut [u8]) -> Result<usize, Refusal>
    ensures { (written_says result ≡ writing_of w (length buffer.old))
        × (buffer.new ≡ sets buffer.old 0 (bytes_written w (length buffer.old))) }
{
    if !is_open(w) {
        return Err(Refusal::ChannelNotAllowed);
    }
    if !is_allowed(w) {
        return Err(Refusal::ValueNotAllowed);
    }
    if buffer.len() < 16 {
        return Err(Refusal::NoRoom);
    }
    layout_of(w).put(buffer).ok_or(Refusal::NoRoom)
}
