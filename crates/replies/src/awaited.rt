// What a wish waits for: how wide the value is, which values a valid box could give, and what each says.
ghost use Rattle.std.specs.Prelude.{◌≡◌, true, false, [], ◌∷◌, ◌^◌, ◌<◌, Some, None};
ghost use Rattle.wire.specs.Choice.{pick, one_of};
ghost use Rattle.rates.specs.Rate.{may_ask, rate_of, nearest_of};
ghost use Rattle.wishes.specs.Wishes.{allowed_wish};
ghost use Rattle.replies.specs.Awaited.{awaited, asks_range, is_status, state_shown, is_state, state_could, says_state};
ghost use Rattle.replies.specs.declared.Reply.TheVariants.{State};

use crate::Reply;
use items::values;
use wishes::{StateFields, Wish};

// How many bytes the value has in a reply to a wish.
pub(crate) fn width_of(w: Wish) -> u8
    ensures { result ≡ (awaited w).width }
{
    match w {
        Wish::AskName => 7,
        Wish::AskSerial => 9,
        Wish::AskInterface | Wish::AskVersion(_) => 2,
        Wish::SetFrequency(_, _) | Wish::AskFrequency(_) => 5,
        Wish::AskFrequencyRange(_) => 31,
        Wish::SetChannelSetup(_) | Wish::AskChannelSetup => 1,
        Wish::AskStatus | Wish::SetGain(_, _) | Wish::AskGain(_) => 1,
        Wish::SetPacketSize(_) | Wish::AskPacketSize => 1,
        _ => 4,
    }
}

// 0B idle, 0C running.
fn is_status(n: u64) -> bool
    ensures { result ≡ is_status n }
{
    matches!(n, values::STATUS_IDLE | values::STATUS_RUNNING)
}

// "Replies hold 80, run byte, mode, 00 (house)": this run byte, and either mode.
fn is_shown(run: u8, n: u64) -> bool
    ensures { result ≡ one_of n (state_shown run 0x80 ∷ state_shown run 0x00 ∷ []) }
{
    (n == values::state_number(run, packets::MODE_24))
        | (n == values::state_number(run, packets::MODE_16))
}

// Idle or running, in either mode.
fn is_state(n: u64) -> bool
    ensures { result ≡ is_state n }
{
    is_shown(values::IDLE, n) | is_shown(values::RUN, n)
}

// What a box can say to a state that was set: idle in either mode, which it kept, or what was sent.
fn state_could(fields: StateFields, n: u64) -> bool
    ensures { result ≡ state_could fields n }
{
    if fields.run == values::IDLE {
        return is_shown(values::IDLE, n);
    }
    n == values::state_number(values::RUN, fields.mode)
}

// The rate that a box answers with where this one is set.
fn achieved_for(hz: u32) -> Option<u32>
    ensures { result ≡ pick (may_ask hz) (Some (rate_of (nearest_of hz))) None }
{
    rates::achieved(rates::nearest(hz)?)
}

// A valid box could give the value n to the wish: a set is answered with the value that was sent, but for a rate, which is
// achieved, and for idle, which keeps the mode.
pub(crate) fn could_say(w: Wish, n: u64) -> bool
    requires { (allowed_wish w ≡ true) × (asks_range w ≡ false) × (n < 256 ^ (awaited w).width) }
    ensures { result ≡ (awaited w).could n }
{
    match w {
        Wish::AskName => n == values::NAME,
        Wish::AskSerial => items::ranges::is_serial(n),
        Wish::AskInterface => n == values::INTERFACE,
        Wish::AskVersion(id) => n == values::version_of(id),
        Wish::AskStatus => is_status(n),
        Wish::SetState(fields) => state_could(fields, n),
        Wish::AskState => is_state(n),
        Wish::AskChannelSetup => items::ranges::is_setup(n as u16),
        Wish::AskFrequency(_) => tuning::in_bands(n),
        Wish::AskGain(_) => items::ranges::is_gain(n as u32),
        Wish::AskClock(_) => tuning::is_clock(n as u32),
        Wish::SetRate(_, hz) => achieved_for(hz) == Some(n as u32),
        Wish::AskRate(_) => rates::d_of(n as u32).is_some(),
        Wish::AskPacketSize => items::ranges::is_size(n as u32),
        _ => n == wishes::layout_of(w).value,
    }
}

// Run byte and mode are the second and third of four bytes.
fn state_in(n: u64) -> StateFields
    ensures { State result ≡ says_state n }
{
    let [_, run, mode, ..] = n.to_le_bytes();
    StateFields { run, mode }
}

// What the value n says to the wish.
pub(crate) fn says(w: Wish, n: u64) -> Reply
    requires { n < 256 ^ (awaited w).width }
    ensures { result ≡ (awaited w).says n }
{
    match w {
        Wish::AskName => Reply::Name,
        Wish::AskSerial => Reply::Serial(n),
        Wish::AskInterface => Reply::Interface(n as u16),
        Wish::AskVersion(id) => Reply::Version(id, n as u16),
        Wish::AskStatus => Reply::Status(n == values::STATUS_RUNNING),
        Wish::SetState(_) | Wish::AskState => Reply::State(state_in(n)),
        Wish::SetChannelSetup(_) | Wish::AskChannelSetup => Reply::ChannelSetup(n as u8),
        Wish::SetFrequency(_, _) | Wish::AskFrequency(_) => Reply::Frequency(n),
        Wish::AskFrequencyRange(_) => Reply::FrequencyRange,
        Wish::SetGain(_, _) | Wish::AskGain(_) => Reply::Gain((n as u8).cast_signed()),
        Wish::SetClock(_, _) | Wish::AskClock(_) => Reply::Clock(n as u32),
        Wish::SetRate(_, _) | Wish::AskRate(_) => Reply::Rate(n as u32),
        Wish::SetPacketSize(_) | Wish::AskPacketSize => Reply::PacketSize(n as u8),
    }
}
