// The two tuning channels of a box (02, No. 7): which are open, which of them a set covers, and what a set leaves of one.
#![tactic(auto)]

ghost use Rattle.std.specs.Prelude.{◌≡◌, ◌∷◌};
ghost use Rattle.wire.specs.Choice.{pick, one_of};
ghost use Rattle.items.specs.Settings.{open_channels, channels_of, covers, channel_at, gained_to};

use items::{Channel, Settings, ranges};

// The channel bytes: 00 is the first channel's, 02 the second's, and with FF a set means every channel that is open.
pub const FIRST: u8 = 0x00;

pub const SECOND: u8 = 0x02;

pub const ALL: u8 = 0xFF;

// Whether a channel is open, by 0019's value: "With 4, frequency, tuning word and gain are open for channels 00 and 02".
pub fn is_open(setup: u16, channel: u8) -> bool
    ensures { result ≡ one_of channel (open_channels setup) }
{
    (channel == FIRST) | ((channel == SECOND) & (setup == ranges::DUAL))
}

// How many channels a box's packets hold, which is what their reader has to be told.
pub fn count_of(s: Settings) -> u8
    ensures { result ≡ channels_of s }
{
    if s.setup == ranges::DUAL {
        return 2;
    }
    1
}

// Whether a set may have this channel byte: FF, or that of a channel that is open.
pub fn may_set(setup: u16, byte: u8) -> bool
    ensures { result ≡ one_of byte (0xFF ∷ open_channels setup) }
{
    (byte == ALL) | is_open(setup, byte)
}

// Whether a set with this channel byte covers a channel: "FF sets both; with 0, FF sets channel 00 only".
pub fn covers(setup: u16, byte: u8, channel: u8) -> bool
    ensures { result ≡ covers setup byte channel }
{
    (byte == channel) | ((byte == ALL) & is_open(setup, channel))
}

// The channel whose value is shown beside a channel byte: the second beside 02, the first beside any other.
pub fn channel_at(s: Settings, byte: u8) -> Channel
    ensures { result ≡ channel_at byte s }
{
    if byte == SECOND {
        return s.second;
    }
    s.first
}

// A channel after a set of the frequency, with its word, that covers it or does not: then it "retains its values".
pub fn tuned(c: Channel, covered: bool, hz: u64, word: u32) -> Channel
    ensures { result ≡ pick covered (record { frequency = hz; word = word; gain = c.gain }) c }
{
    if covered {
        return Channel {
            frequency: hz,
            word,
            ..c
        };
    }
    c
}

// The same of a set of the gain.
pub fn gained(c: Channel, covered: bool, gain: u32) -> Channel
    ensures { result ≡ pick covered (gained_to gain c) c }
{
    if covered {
        return Channel { gain, ..c };
    }
    c
}
