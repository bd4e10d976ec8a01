// The box of document 01: a fresh one, feeding it, and its tuning word.
#![tactic(auto)]

mod feeding; // feeding.rt: one call of feeding
mod talking; // talking.rt: a host's whole talk with a fresh box

ghost use Rattle.std.specs.Prelude.{◌≡◌};
ghost use Rattle.station.specs.Station.{valid, box_of, fresh_box, fresh_station, session_serial, tuning_says, tuning_told, box_says};
ghost use Rattle.station.specs.Feeding.{call_code};

use answers::Outcome;
pub use feeding::{feed, feed_held};
use framing::Store;
use items::{Begun, Settings};
pub use talking::serve_talk;
use wire::{Refusal, codes};

// A box: its settings, and what it keeps of an unfinished message.
#[derive(Clone, Copy)]
pub struct Station {
    pub settings: Settings,
    pub store: Store,
}

// A box without the bytes that it holds, where these are lent: its settings, and how many bytes of its message are taken.
#[derive(Clone, Copy)]
pub struct Parts {
    pub settings: Settings,
    pub taken: usize,
}

// What one call of feeding did: what the message came to that it finished, where it finished one and does not wait for more;
// how many of the host's bytes it consumed, how many bytes of reply it wrote; and the box after it, or its parts.
#[derive(Clone, Copy)]
pub struct Fed<T: Copy> {
    pub outcome: Option<Outcome>,
    pub consumed: usize,
    pub wrote: usize,
    pub left: T,
}

impl<T: Copy> Fed<T> {
    // The code of the call.
    pub fn code(&self) -> u8
        ensures { result ≡ call_code self.now.outcome }
    {
        match self.outcome {
            None => codes::WAITING,
            Some(outcome) => u8::from(outcome),
        }
    }
}

impl Station {
    // All of it but the bytes that it holds.
    pub fn parts(self) -> Parts
        ensures { result ≡ record { settings = self.settings; taken = self.store.taken } }
    {
        Parts {
            settings: self.settings,
            taken: self.store.taken,
        }
    }
}

// A fresh box with a serial; with serial 00000000 where the serial is refused, which is not eight of A-Z, 0-9.
pub fn fresh(serial: &[u8]) -> Begun<Station>
    ensures { box_says result ≡ fresh_box serial.now }
{
    let began = items::fresh(serial);
    Begun {
        refused: began.refused,
        made: Station {
            settings: began.made,
            store: framing::between(),
        },
    }
}

// "A fresh box with serial MT123456": the session program's, and the one that the other programs begin with.
pub fn session_box() -> Station
    ensures { result ≡ fresh_station session_serial }
{
    fresh(b"MT123456").made
}

// Whether every setting is in its range, and the unfinished message one that some bytes could have left.
pub fn is_valid(s: Station) -> bool
    ensures { result ≡ valid s }
{
    is_sound(s.parts(), &s.store.held)
}

// The same of a box in parts.
#[tactic(auto, unfolding(crate::specs::Station::valid))]
pub fn is_sound(parts: Parts, held: &[u8]) -> bool
    ensures { result ≡ valid (box_of parts.settings held.now parts.taken) }
{
    if !items::in_range(parts.settings) {
        return false;
    }
    framing::could_be_left(held, parts.taken)
}

// The tuning word of a channel, 00 or 02: the one that is kept. A channel that is not open has none, and a broken box has none.
pub fn tuning_word(s: Station, channel: u8) -> Result<u32, Refusal>
    ensures { tuning_says result ≡ tuning_told s channel }
{
    word_held(s.parts(), &s.store.held, channel)
}

// The same of a box whose held bytes are lent, with its other parts by value, so that a call copies no box.
pub fn word_held(parts: Parts, held: &[u8], channel: u8) -> Result<u32, Refusal>
    ensures { tuning_says result ≡ tuning_told (box_of parts.settings held.now parts.taken) channel }
{
    if !is_sound(parts, held) {
        return Err(Refusal::Broken);
    }
    if !channels::is_open(parts.settings.setup, channel) {
        return Err(Refusal::ChannelNotAllowed);
    }
    Ok(channels::channel_at(parts.settings, channel).word)
}
