// A box in lent bytes, field after field. Its layout stands here; docs/WORKING.md has it as a table.
ghost use Rattle.std.specs.Prelude.{◌≡◌, ◌+◌, ◌≤◌, length};
ghost use Rattle.std.proofs.lemmas.List.Edits.{sets};
ghost use Rattle.wire.specs.Number.{bytes, field};
ghost use Rattle.boxdoor.specs.States.{common_from, held_from, taken_from, station_size, channel_in, settings_in};
ghost use Rattle.boxdoor.specs.States.{channel_bytes, common_bytes, settings_bytes, station_bytes};

use items::{Channel, Settings};
use station::{Parts, Station};

// Where a channel's word and gain begin, counted from the channel's first byte; at that byte begins its frequency.
const WORD: usize = 8;

const GAIN: usize = 12;

// Where the fields of a box begin.
const FIRST: usize = 0;

const SECOND: usize = 13;

const COUNT: usize = 26;

const CLOCK: usize = 34;

const DIVISOR: usize = 38;

const RUNNING: usize = 42;

const MODE: usize = 43;

const SIZE: usize = 44;

const SETUP: usize = 45;

const SERIAL: usize = 46;

pub(crate) const HELD: usize = 54;

pub(crate) const TAKEN: usize = 118;

// How many bytes it is in all.
pub(crate) const LENGTH: usize = 126;

// The channel from a place on.
fn channel_at(b: &[u8], at: usize) -> Channel
    requires { at + 13 ≤ length b.now }
    ensures { result ≡ channel_in at b.now }
{
    Channel {
        frequency: wire::number_at(b, at, 8),
        word: wire::number_at(b, at + WORD, 4) as u32,
        gain: b[at + GAIN] as u32,
    }
}

// The settings in a box's bytes.
fn settings_of(b: &[u8]) -> Settings
    requires { length b.now ≡ station_size }
    ensures { result ≡ settings_in b.now }
{
    let mut serial = [0u8; 8];
    wire::copy(&b[SERIAL..HELD], &mut serial, 0);
    // a part of a length that the compiler sees
    let front = &b[..HELD];
    Settings {
        first: channel_at(front, FIRST),
        second: channel_at(front, SECOND),
        count: wire::number_at(front, COUNT, 8),
        clock: wire::number_at(front, CLOCK, 4) as u32,
        divisor: wire::number_at(front, DIVISOR, 4) as u32,
        size: b[SIZE] as u32,
        setup: b[SETUP] as u16,
        running: b[RUNNING] != 0,
        mode: b[MODE],
        serial: serial,
    }
}

// All of a box but its held bytes.
pub(crate) fn parts_of(b: &[u8]) -> Parts
    requires { length b.now ≡ station_size }
    ensures { result ≡ record { settings = settings_in b.now; taken = field taken_from 8 b.now } }
{
    Parts {
        settings: settings_of(b),
        taken: wire::number_at(b, TAKEN, 8) as usize,
    }
}

// Stores a channel from a place on.
fn put_channel(b: &mut [u8], at: usize, c: Channel)
    requires { at + 13 ≤ length b.old }
    ensures { b.new ≡ sets b.old at (channel_bytes c) }
{
    wire::put(b, at, 8, c.frequency);
    wire::put(b, at + WORD, 4, c.word as u64);
    wire::put(b, at + GAIN, 1, c.gain as u64);
}

// Stores the numbers among the settings that are no channel's, behind the channels.
fn put_common(b: &mut [u8], s: Settings)
    requires { length b.old ≡ held_from }
    ensures { b.new ≡ sets b.old common_from (common_bytes s) }
{
    wire::put(b, COUNT, 8, s.count);
    wire::put(b, CLOCK, 4, s.clock as u64);
    wire::put(b, DIVISOR, 4, s.divisor as u64);
    wire::put(b, RUNNING, 1, s.running as u64);
    wire::put(b, MODE, 1, s.mode as u64);
    wire::put(b, SIZE, 1, s.size as u64);
    wire::put(b, SETUP, 1, s.setup as u64);
}

// Stores the settings in the bytes in front of the held ones.
fn put_settings(b: &mut [u8], s: Settings)
    requires { length b.old ≡ held_from }
    ensures { b.new ≡ sets b.old 0 (settings_bytes s) }
{
    put_channel(b, FIRST, s.first);
    put_channel(b, SECOND, s.second);
    put_common(b, s);
    let serial = s.serial;
    wire::copy(&serial, b, SERIAL);
}

// Stores all of a box but its held bytes, which are left as they lie.
pub(crate) fn put_parts(b: &mut [u8], parts: Parts)
    requires { length b.old ≡ station_size }
    ensures { b.new ≡ sets (sets b.old 0 (settings_bytes parts.settings)) taken_from (bytes 8 parts.taken) }
{
    // a part of a length that the compiler sees
    put_settings(&mut b[..HELD], parts.settings);
    wire::put(b, TAKEN, 8, parts.taken as u64);
}

// Stores a box in its bytes.
pub(crate) fn put_station(b: &mut [u8], s: Station)
    requires { length b.old ≡ station_size }
    ensures { b.new ≡ station_bytes s }
{
    wire::copy(&s.store.held, b, HELD);
    put_parts(b, s.parts());
}
