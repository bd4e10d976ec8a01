// The harvester's wishes are written, fed to the box, and its replies read.
use crate::saying::{first, say, say_number, say_signed};
use items::values;
use replies::Reply;
use station::Station;
use std::io::Stdout;
use wire::Refusal;
use wishes::{StateFields, Wish};

fn say_gain(out: Stdout, gain: i8) {
    say(out, b"Gain");
    say_signed(out, i32::from(gain));
}

// Run byte and mode: idle keeps the mode.
fn say_state(out: Stdout, fields: StateFields) {
    say_number(out, b"State", fields.run as u64);
    say_number(out, b" mode", fields.mode as u64);
}

// What a reply says.
fn say_reply(out: Stdout, reply: Reply) {
    match reply {
        Reply::Nak => say(out, b"NAK"),
        Reply::Name => say(out, b"Name"),
        Reply::Serial(n) => say_number(out, b"Serial", n),
        Reply::Interface(n) => say_number(out, b"Interface", n as u64),
        Reply::Version(_, n) => say_number(out, b"Version", n as u64),
        Reply::Status(running) => say_number(out, b"Status", running as u64),
        Reply::State(fields) => say_state(out, fields),
        Reply::ChannelSetup(n) => say_number(out, b"ChannelSetup", n as u64),
        Reply::Frequency(hz) => say_number(out, b"Frequency", hz),
        Reply::FrequencyRange => say(out, b"FrequencyRange"),
        Reply::Gain(g) => say_gain(out, g),
        Reply::Clock(hz) => say_number(out, b"Clock", hz as u64),
        Reply::Rate(hz) => say_number(out, b"Rate", hz as u64),
        Reply::PacketSize(n) => say_number(out, b"PacketSize", n as u64),
    }
}

// Reads the n bytes that came as the reply to a wish.
fn hear(out: Stdout, w: Wish, came: &[u8], n: usize) {
    match replies::read(w, first(came, n)) {
        Ok(reply) => say_reply(out, reply),
        Err(Refusal::ChannelNotAllowed) => say(out, b"channel not allowed"),
        Err(Refusal::ValueNotAllowed) => say(out, b"not allowed"),
        Err(_) => say(out, b"not a reply"),
    }
}

// Feeds the first n bytes of a message to the box, and reads what comes back.
fn send(out: Stdout, s: Station, w: Wish, message: &[u8], n: usize) -> Station {
    let mut reply = [0u8; 64];
    match station::feed(s, first(message, n), &mut reply) {
        Ok(fed) => {
            hear(out, w, &reply, fed.wrote);
            fed.left
        }
        Err(_) => {
            hear(out, w, &reply, 0);
            s
        }
    }
}

// Writes a wish, or tells that the writer refuses it, and sends it.
fn write_and_send(out: Stdout, s: Station, w: Wish) -> Station {
    let mut message = [0u8; 16];
    if let Ok(n) = wishes::write(w, &mut message) {
        return send(out, s, w, &message, n);
    }
    say(out, b"not sent");
    s
}

// One wish and what came of it, in a line.
pub(crate) fn ask(out: Stdout, s: Station, word: &[u8], w: Wish) -> Station {
    say(out, b"asked ");
    say(out, word);
    say(out, b": ");
    let after = write_and_send(out, s, w);
    say(out, b"\n");
    after
}

// Run in a mode.
pub(crate) fn run(out: Stdout, s: Station, mode: u8) -> Station {
    ask(
        out,
        s,
        b"SetState run",
        Wish::SetState(StateFields {
            run: values::RUN,
            mode,
        }),
    )
}

// Idle keeps the mode that the box has, and looks at none.
pub(crate) fn idle(out: Stdout, s: Station) -> Station {
    ask(
        out,
        s,
        b"SetState idle",
        Wish::SetState(StateFields {
            run: values::IDLE,
            mode: 0,
        }),
    )
}

// One channel, or two.
pub(crate) fn channels(out: Stdout, s: Station, setup: u8) -> Station {
    ask(out, s, b"SetChannelSetup", Wish::SetChannelSetup(setup))
}

// What the box is.
fn introduce(out: Stdout, s: Station) -> Station {
    let a = ask(out, s, b"AskName", Wish::AskName);
    let b = ask(out, a, b"AskSerial", Wish::AskSerial);
    let c = ask(out, b, b"AskInterface", Wish::AskInterface);
    let d = ask(out, c, b"AskVersion", Wish::AskVersion(3));
    ask(out, d, b"AskFrequencyRange", Wish::AskFrequencyRange(0))
}

// Where it listens. 34,000,001 Hz lies past the first band, and is not sent.
fn tune(out: Stdout, s: Station) -> Station {
    let a = ask(out, s, b"SetFrequency", Wish::SetFrequency(0, 14_010_000));
    let b = ask(out, a, b"SetFrequency", Wish::SetFrequency(0, 34_000_001));
    let c = ask(out, b, b"AskFrequency", Wish::AskFrequency(0));
    let d = ask(out, c, b"SetGain", Wish::SetGain(0, -20));
    ask(out, d, b"AskGain", Wish::AskGain(0))
}

// The second channel: closed at first, open with two channels, and it retains its frequency when it is closed again. No box has a
// channel 01, so that wish is not sent.
fn tune_both(out: Stdout, s: Station) -> Station {
    let a = ask(out, s, b"AskFrequency 02", Wish::AskFrequency(2));
    let b = ask(out, a, b"SetChannelSetup", Wish::SetChannelSetup(4));
    let c = ask(out, b, b"SetFrequency 02", Wish::SetFrequency(2, 7_000_000));
    let d = ask(out, c, b"SetGain FF", Wish::SetGain(0xFF, -10));
    let e = ask(out, d, b"AskFrequency 01", Wish::AskFrequency(1));
    let f = ask(out, e, b"SetChannelSetup", Wish::SetChannelSetup(0));
    let g = ask(
        out,
        f,
        b"SetFrequency FF",
        Wish::SetFrequency(0xFF, 14_010_000),
    );
    let h = ask(out, g, b"SetChannelSetup", Wish::SetChannelSetup(4));
    let i = ask(out, h, b"AskFrequency 02", Wish::AskFrequency(2));
    let j = ask(out, i, b"AskGain 02", Wish::AskGain(2));
    let k = ask(out, j, b"SetChannelSetup", Wish::SetChannelSetup(0));
    ask(out, k, b"AskChannelSetup", Wish::AskChannelSetup)
}

// How fast. 1,907,000 is nearest to 20,000,000 / 11, though 20,000,000 / 1,907,000 is nearer to 10.
fn pace(out: Stdout, s: Station) -> Station {
    let a = ask(out, s, b"SetClock", Wish::SetClock(0, 80_000_100));
    let b = ask(out, a, b"AskClock", Wish::AskClock(0));
    let c = ask(out, b, b"SetRate", Wish::SetRate(0, 1_907_000));
    let d = ask(
        out,
        c,
        b"SetPacketSize",
        Wish::SetPacketSize(packets::SMALL),
    );
    ask(out, d, b"AskPacketSize", Wish::AskPacketSize)
}

// While it runs a rate is refused, and the one that was set stays.
fn refuse_a_rate(out: Stdout, s: Station) -> Station {
    let a = run(out, s, packets::MODE_24);
    let b = ask(out, a, b"AskStatus", Wish::AskStatus);
    let c = ask(out, b, b"SetRate", Wish::SetRate(0, 55_556));
    let d = ask(out, c, b"AskRate", Wish::AskRate(0));
    let e = ask(out, d, b"AskState", Wish::AskState);
    idle(out, e)
}

// Every wish once, before the captures.
pub(crate) fn evening(out: Stdout, s: Station) -> Station {
    let a = introduce(out, s);
    let b = tune(out, a);
    let c = tune_both(out, b);
    let d = pace(out, c);
    refuse_a_rate(out, d)
}
