// Wishes and replies.
ghost use Rattle.std.specs.Prelude.{◌≡◌, length};
ghost use Rattle.wire.specs.Choice.{pick};
ghost use Rattle.wire.specs.Codes as Code;
ghost use Rattle.wire.specs.Refusal.{code_of};
ghost use Rattle.std.proofs.lemmas.List.Edits.{sets};
ghost use Rattle.replies.specs.Reading.{reply_says, read_says, reply_reader_says};
ghost use Rattle.wishes.specs.Writing.{writing_of, bytes_written};
ghost use Rattle.harvestdoor.specs.Asking.{wish_of, shown as shown_of, as_shown, said_of};

use items::{table, values};
use replies::Reply;
use wire::Refusal;
use wishes::{StateFields, Wish};

// The wish of a number, with the fields of every case; a wish that no box grants where the number names none.
// (The fields go one by one, as the two calls from C have them.)
#[tactic(auto, unfolding(crate::specs::Asking::wish_table))]
fn wish_of(which: u8, byte: u8, mode: u8, gain: i8, word: u32, hertz: u64, channel: u8) -> Wish
    ensures { result ≡ wish_of which byte mode gain word hertz channel }
{
    match which {
        0 => Wish::AskName,
        1 => Wish::AskSerial,
        2 => Wish::AskInterface,
        3 => Wish::AskVersion(byte),
        4 => Wish::AskStatus,
        5 => Wish::SetState(StateFields { run: byte, mode }),
        6 => Wish::AskState,
        7 => Wish::SetChannelSetup(byte),
        8 => Wish::AskChannelSetup,
        9 => Wish::SetFrequency(channel, hertz),
        10 => Wish::AskFrequency(channel),
        11 => Wish::AskFrequencyRange(channel),
        12 => Wish::SetGain(channel, gain),
        13 => Wish::AskGain(channel),
        14 => Wish::SetClock(channel, word),
        15 => Wish::AskClock(channel),
        16 => Wish::SetRate(channel, word),
        17 => Wish::AskRate(channel),
        18 => Wish::SetPacketSize(byte),
        19 => Wish::AskPacketSize,
        _ => Wish::AskVersion(255),
    }
}

// Writes a wish's message at the start of a buffer. Answers the code, and leaves how many bytes were written.
#[unsafe(no_mangle)]
pub extern "C" fn skvornela_wish(
    which: u8,
    byte: u8,
    mode: u8,
    gain: i8,
    word: u32,
    hertz: u64,
    channel: u8,
    buffer: &mut [u8],
    wrote: &mut usize,
) -> u8
    ensures { (record { code = result; wrote = wrote.new }
        ≡ writing_of (wish_of which byte mode gain word hertz channel) (length buffer.old))
        × (buffer.new
        ≡ sets buffer.old 0 (bytes_written (wish_of which byte mode gain word hertz channel) (length buffer.old))) }
{
    let written = wishes::write(
        wish_of(which, byte, mode, gain, word, hertz, channel),
        buffer,
    );
    *wrote = written.unwrap_or(0);
    wire::code_of(written)
}

// What a reply says, as numbers: the item's code, how many values there are, the first two of them, and a gain.
#[derive(Clone, Copy)]
struct Shown {
    item: u16,
    count: usize,
    first: u64,
    second: u64,
    gain: i8,
}

// A reply of up to two values.
fn saying(item: u16, count: usize, first: u64, second: u64) -> Shown
    ensures { as_shown Code.done result.item result.count result.first result.second result.gain
        ≡ said_of item count first second }
{
    Shown {
        item,
        count,
        first,
        second,
        gain: 0,
    }
}

fn status_byte(running: bool) -> u64
    ensures { result ≡ pick running 0x0C 0x0B }
{
    if running {
        values::STATUS_RUNNING
    } else {
        values::STATUS_IDLE
    }
}

#[tactic(auto, unfolding(crate::specs::Asking::shown))]
fn shown_reply(reply: Reply) -> Shown
    ensures { as_shown Code.done result.item result.count result.first result.second result.gain
        ≡ shown_of (reply_says reply) }
{
    match reply {
        Reply::Nak => saying(0, 0, 0, 0),
        // the seven bytes of "NetSDR" and its zero
        Reply::Name => saying(table::NAME, 7, values::NAME % 256, values::NAME / 256 % 256),
        Reply::Serial(n) => saying(table::SERIAL, 1, n, 0),
        Reply::Interface(n) => saying(table::INTERFACE, 1, n as u64, 0),
        Reply::Version(id, n) => saying(table::VERSIONS, 2, id as u64, n as u64),
        Reply::Status(running) => saying(table::STATUS, 1, status_byte(running), 0),
        Reply::State(fields) => saying(table::STATE, 2, fields.run as u64, fields.mode as u64),
        Reply::ChannelSetup(n) => saying(table::CHANNEL_SETUP, 1, n as u64, 0),
        Reply::Frequency(hz) => saying(table::FREQUENCY, 1, hz, 0),
        // minimum, maximum and oscillator of each band; the first two are those of the first band
        Reply::FrequencyRange => saying(
            table::FREQUENCY,
            6,
            tuning::FIRST_MINIMUM,
            tuning::FIRST_MAXIMUM,
        ),
        Reply::Gain(g) => Shown {
            gain: g,
            ..saying(table::GAIN, 1, 0, 0)
        },
        Reply::Clock(hz) => saying(table::CLOCK, 1, hz as u64, 0),
        Reply::Rate(hz) => saying(table::RATE, 1, hz as u64, 0),
        Reply::PacketSize(n) => saying(table::PACKET_SIZE, 1, n as u64, 0),
    }
}

// A refusal has no item and no values.
#[tactic(auto, unfolding(crate::specs::Asking::shown))]
fn shown_by(answer: Result<Reply, Refusal>) -> Shown
    ensures { as_shown (code_of answer) result.item result.count result.first result.second result.gain
        ≡ shown_of (read_says answer) }
{
    match answer {
        Ok(reply) => shown_reply(reply),
        Err(_) => saying(0, 0, 0, 0),
    }
}

// Reads the bytes that came for a wish. Answers the code, and leaves what they say.
#[unsafe(no_mangle)]
pub extern "C" fn skvornela_reply(
    which: u8,
    byte: u8,
    mode: u8,
    gain: i8,
    word: u32,
    hertz: u64,
    channel: u8,
    bytes: &[u8],
    item: &mut u16,
    count: &mut usize,
    first: &mut u64,
    second: &mut u64,
    level: &mut i8,
) -> u8
    ensures { as_shown result item.new count.new first.new second.new level.new
        ≡ shown_of (reply_reader_says (wish_of which byte mode gain word hertz channel) bytes.now) }
{
    let answer = replies::read(
        wish_of(which, byte, mode, gain, word, hertz, channel),
        bytes,
    );
    let s = shown_by(answer);
    *item = s.item;
    *count = s.count;
    *first = s.first;
    *second = s.second;
    *level = s.gain;
    wire::code_of(answer)
}
