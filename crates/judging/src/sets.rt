// What a set of each item does. The readers are handed the message's parameters as a part starting at byte four.
ghost use Rattle.std.specs.Prelude.{◌≡◌, [], ◌∷◌, ◌≤◌, length};
ghost use Rattle.wire.specs.Refusal.{code_of};
ghost use Rattle.items.specs.Items.{state, state_after, run, channel_setup, frequency, gain, clock, rate, packet_size, row_of};
ghost use Rattle.judging.specs.Inside.{set_code, set_by};
ghost use Rattle.judging.specs.Says.{set_says};

use items::{Channel, Settings, ranges, table, values};
use wire::Refusal;

// The settings after a set of an item, or its refusal. Where the table has a dash there is nothing to store; such a set is refused
// before (14).
#[tactic(auto, unfolding(items::specs::Items::row_of))]
pub(crate) fn set_item(s: Settings, item: u16, p: &[u8]) -> Result<Settings, Refusal>
    requires { 4 ≤ length p.now }
    ensures { set_says s result ≡ set_by (row_of item) s p.now }
{
    match item {
        table::STATE => set_state(s, p),
        table::CHANNEL_SETUP => set_setup(s, p),
        table::FREQUENCY => set_frequency(s, p),
        table::GAIN => set_gain(s, p),
        table::CLOCK => set_clock(s, p),
        table::RATE => set_rate(s, p),
        table::PACKET_SIZE => set_size(s, p),
        _ => Ok(s),
    }
}

// What speaks against a set, "in order of checking": a channel byte that is not allowed, a value that is not, and an item that is
// locked while the box is running.
fn allowed(channel: bool, value: bool, locked: bool) -> Result<(), Refusal>
    ensures { code_of result ≡ set_code channel value locked }
{
    if !channel {
        return Err(Refusal::ChannelNotAllowed);
    }
    if !value {
        return Err(Refusal::ValueNotAllowed);
    }
    if locked {
        return Err(Refusal::NotWhileRunning);
    }
    Ok(())
}

// State: "Run byte 1 is idle: the other three are ignored, the mode is kept, always accepted." "Other run bytes are 16."
fn set_state(s: Settings, p: &[u8]) -> Result<Settings, Refusal>
    requires { 3 ≤ length p.now }
    ensures { set_says s result ≡ set_by state s p.now }
{
    match p[1] {
        values::IDLE => Ok(Settings {
            running: false,
            ..s
        }),
        values::RUN => start(s, p[0], p[2]),
        _ => Err(Refusal::ValueNotAllowed),
    }
}

// "Run byte 2 starts: first byte 80 and mode 80 (24 bits) or 00 (16 bits), else 16." Run while running "in another mode 17".
fn start(s: Settings, first: u8, mode: u8) -> Result<Settings, Refusal>
    ensures { set_says s result ≡ set_by state s (first ∷ run ∷ mode ∷ []) }
{
    let value = (first == values::COMPLEX) & ranges::is_mode(mode);
    let other_mode = mode != s.mode;
    allowed(true, value, s.running & other_mode)?;
    Ok(started(s, mode))
}

// "Starting from idle sets the packet count to 0. Run while running in the same mode replies and changes nothing".
fn started(s: Settings, mode: u8) -> Settings
    ensures { result ≡ state_after s (0x80 ∷ run ∷ mode ∷ []) }
{
    if s.running {
        return s;
    }
    Settings {
        running: true,
        mode,
        count: 0,
        ..s
    }
}

// Channel setup: 0 a single channel, 4 two of them; not while running. It touches no channel.
fn set_setup(s: Settings, p: &[u8]) -> Result<Settings, Refusal>
    requires { 1 ≤ length p.now }
    ensures { set_says s result ≡ set_by channel_setup s p.now }
{
    let setup = p[0] as u16;
    allowed(true, ranges::is_setup(setup), s.running)?;
    Ok(Settings { setup, ..s })
}

// Frequency: channel, 40-bit Hz in one of the bands. "Channel for 0020 and 0038: 00, and on set also FF", and 02 where it is open.
// The word of each channel that the set covers is that of the frequency at the box's clock; it is worked out only where it is stored.
fn set_frequency(s: Settings, p: &[u8]) -> Result<Settings, Refusal>
    requires { 1 ≤ length p.now }
    ensures { set_says s result ≡ set_by frequency s p.now }
{
    let byte = p[0];
    let hz = wire::number_at(p, 1, 5);
    let channel = channels::may_set(s.setup, byte);
    let value = tuning::in_bands(hz);
    allowed(channel, value, false)?;
    let word = tuning::word_kept(hz, s.clock);
    let first = channels::covers(s.setup, byte, channels::FIRST);
    let second = channels::covers(s.setup, byte, channels::SECOND);
    Ok(Settings {
        first: channels::tuned(s.first, first, hz, word),
        second: channels::tuned(s.second, second, hz, word),
        ..s
    })
}

// RF gain: channel, signed byte 0, -10, -20 or -30.
fn set_gain(s: Settings, p: &[u8]) -> Result<Settings, Refusal>
    requires { 2 ≤ length p.now }
    ensures { set_says s result ≡ set_by gain s p.now }
{
    let value = p[1] as u32;
    let channel = channels::may_set(s.setup, p[0]);
    allowed(channel, ranges::is_gain(value), false)?;
    let first = channels::covers(s.setup, p[0], channels::FIRST);
    let second = channels::covers(s.setup, p[0], channels::SECOND);
    Ok(Settings {
        first: channels::gained(s.first, first, value),
        second: channels::gained(s.second, second, value),
        ..s
    })
}

// Clock: any channel byte, 32-bit Hz. Either channel's word goes by it, also where the channel is not open.
fn set_clock(s: Settings, p: &[u8]) -> Result<Settings, Refusal>
    ensures { set_says s result ≡ set_by clock s p.now }
{
    let clock = wire::number_at(p, 1, 4) as u32;
    allowed(true, tuning::is_clock(clock), false)?;
    Ok(Settings {
        clock,
        first: Channel {
            word: tuning::word_kept(s.first.frequency, clock),
            ..s.first
        },
        second: Channel {
            word: tuning::word_kept(s.second.frequency, clock),
            ..s.second
        },
        ..s
    })
}

// Rate: any channel byte, 32-bit Hz; the D with the nearest exact rate is taken. Not while running.
fn set_rate(s: Settings, p: &[u8]) -> Result<Settings, Refusal>
    ensures { set_says s result ≡ set_by rate s p.now }
{
    let asked = wire::number_at(p, 1, 4) as u32;
    let divisor = rates::nearest(asked).ok_or(Refusal::ValueNotAllowed)?;
    allowed(true, true, s.running)?;
    Ok(Settings { divisor, ..s })
}

// Packet size: 0 large, 1 small; not while running.
fn set_size(s: Settings, p: &[u8]) -> Result<Settings, Refusal>
    requires { 1 ≤ length p.now }
    ensures { set_says s result ≡ set_by packet_size s p.now }
{
    let size = p[0] as u32;
    allowed(true, ranges::is_size(size), s.running)?;
    Ok(Settings { size, ..s })
}
