// A piece of the input at once: whole packets are taken in one go, and samples are skipped by count.
ghost use Rattle.std.specs.Prelude.{◌≡◌, ◌+◌, ◌-◌, ◌≤◌, ◌<◌, true, length, IfSome};
ghost use Rattle.wire.specs.Refusal.{code_of};
ghost use Rattle.wire.specs.Codes as Code;
ghost use Rattle.packets.specs.Forms.{listed_form};
ghost use Rattle.packets.specs.Numbers.{last};
ghost use Rattle.hearing.specs.Hearing.{next_tally, hearing_of, hearing_code, reach_told, hearing_told};
ghost use Rattle.hearing.specs.Inside.{Sane, Goes, Between, Follows, Samples, Hears, skipped, word_at};

use crate::coming::{accept, in_range, settle, take_byte};
use crate::{Outcome, Reach, Stop, Tally};
use packets::Form;
use wire::{Refusal, types};

// ---- whole packets in one go

// Whether a packet begins, in an open capture, with nothing of the packet before it left.
fn is_between(t: Tally) -> bool
    ensures { result ≡ true → Between t }
{
    if t.came != 0 {
        return false;
    }
    if t.header != 0 {
        return false;
    }
    if t.number != 0 {
        return false;
    }
    t.heard != 0
}

// The four bytes at a place that the slice has, as one number. (`wire::number_at` looks first whether the slice has them.)
fn word_at(s: &[u8], at: usize) -> u32
    requires { at + 4 ≤ length s.now }
    ensures { result ≡ word_at s.now at }
{
    wire::word(s[at], s[at + 1], s[at + 2], s[at + 3])
}

// The position of the packet that begins at a place of the piece, where it is whole, has this header and a number above
// 0, and its position is allowed.
fn follow(
    piece: &[u8],
    at: usize,
    header: u32,
    total: usize,
    before: u16,
    position: u64,
) -> Option<u64>
    requires { (at ≤ length piece.now) × (4 ≤ total) × (position ≤ last) }
    ensures { IfSome result (λ q. Follows piece.now at header total before position q) }
{
    if piece.len() - at < total {
        return None;
    }
    let front = word_at(piece, at);
    if front % 65536 != header {
        return None;
    }
    let number = (front / 65536) as u16;
    if number == 0 {
        return None;
    }
    let next = position + packets::step(before, number);
    if packets::LAST < next {
        return None;
    }
    Some(next)
}

// Takes whole packets of the capture's form, as long as they follow in the open capture and no line is due.
fn whole_packets(f: Form, t: Tally, piece: &[u8], from: usize) -> Reach
    requires { (listed_form f ≡ true) × (from ≤ length piece.now) × Sane (length piece.now - from) t }
    ensures { Goes f t piece.now from (reach_told result) × (from ≤ result.at) }
{
    if !is_between(t) {
        return Reach {
            at: from,
            stop: None,
            tally: t,
        };
    }
    let total = packets::total_of(f).unwrap() as usize;
    let header = wire::header_of(types::DATA, total as u16) as u32;
    let mut at = from;
    let mut heard = t.heard;
    let mut position = t.position;
    let mut before = packets::number_at_position(position);
    while let Some(next) = follow(piece, at, header, total, before, position) {
        position = next;
        before = (word_at(piece, at) / 65536) as u16;
        heard += 1;
        at += total;
    }
    Reach {
        at,
        stop: None,
        tally: Tally {
            begins: t.begins + (at - from) as u64,
            heard,
            position,
            ..t
        },
    }
}

// ---- a piece

// How many bytes can be skipped of so many: the packet's samples, but for its last byte.
fn skippable(t: Tally, rest: usize) -> usize
    ensures { (result ≤ rest) × (0 < result → Samples t result) }
{
    if t.came < 4 {
        return 0;
    }
    let Some(form) = packets::form_of_header(t.header) else {
        return 0;
    };
    let total = packets::total_of(form).unwrap();
    if total <= t.came {
        return 0;
    }
    rest.min((total - 1 - t.came) as usize)
}

fn skip(t: Tally, k: usize) -> Tally
    requires { t.came + k < 0x1_0000_0000_0000_0000 }
    ensures { result ≡ skipped t k }
{
    Tally {
        came: t.came + k as u64,
        ..t
    }
}

// Takes some of a piece from a place on: whole packets, or samples, or one byte.
fn hear_some(f: Form, t: Tally, piece: &[u8], at: usize) -> Reach
    requires { (listed_form f ≡ true) × (at < length piece.now) × Sane (length piece.now - at) t }
    ensures { Goes f t piece.now at (reach_told result) × (at < result.at) }
{
    let r = whole_packets(f, t, piece, at);
    if at < r.at {
        return r;
    }
    let k = skippable(t, piece.len() - at);
    if 0 < k {
        return Reach {
            at: at + k,
            stop: None,
            tally: skip(t, k),
        };
    }
    settle(at + 1, f, take_byte(t, piece[at]))
}

// Takes a piece, until a line is due or the piece is used up. The place moves by what was taken, and is told in the end (`Hears`).
fn hear_all(f: Form, t: Tally, piece: &[u8]) -> Reach
    requires { (listed_form f ≡ true) × Sane (length piece.now) t }
    ensures { Hears f t piece.now (reach_told result) }
{
    let mut at = 0;
    let mut now = t;
    while at < piece.len() {
        let r = hear_some(f, now, piece, at);
        if r.stop.is_some() {
            return r;
        }
        at = r.at;
        let next = r.tally;
        now = next;
    }
    Reach {
        at,
        stop: None,
        tally: now,
    }
}

// The tally with which hearing goes on from what was reached.
fn next_tally(r: Reach) -> Tally
    requires { (reach_told r).code ≡ Code.done → Sane 0 r.tally × (0 < r.tally.came) }
    ensures { result ≡ next_tally (reach_told r) }
{
    let Some(stop) = r.stop else {
        return r.tally;
    };
    match stop {
        Stop::CaptureEnds => accept(r.tally),
        Stop::Refused(_) => r.tally,
    }
}

// Takes a piece of a capture of a form, until a line is due or the piece is used up. It stops where the open capture ends with a
// packet numbered 0, and where a packet is refused, with 30, 32, 31 or 33. It refuses with 21 a tally that is broken and a form that
// is not listed; nothing happens then.
pub fn hear(f: Form, t: Tally, piece: &[u8]) -> Result<Outcome, Refusal>
    ensures heard { hearing_told t result ≡ hearing_of f t piece.now }
    ensures code { code_of result ≡ hearing_code f t }
{
    if !in_range(t) {
        return Err(Refusal::Broken);
    }
    if !packets::is_listed(f) {
        return Err(Refusal::Broken);
    }
    let reach = hear_all(f, t, piece);
    Ok(Outcome {
        reach,
        next: next_tally(reach),
    })
}
