// The lines that are due: after the head, where hearing was cut short, at the end of the input.
ghost use Rattle.std.specs.Prelude.{◌≡◌, true, false};
ghost use Rattle.wire.specs.Refusal.{refusal_code, code_of};
ghost use Rattle.heads.specs.Head.{allowed_head};
ghost use Rattle.hearing.specs.Inside.{Counted};
ghost use Rattle.lines.specs.Due.{due_lines, sized};
ghost use Rattle.spans.specs.Eating.{head_of, head_lacks, head_lines, heard_lines, last_lines};
ghost use Rattle.spans.specs.Inside.{due_first, due_now, stopped_at};

use crate::Span;
use crate::head::lacks;
use heads::Head;
use hearing::{Stop, Tally};
use lines::{Due, Ending};
use wire::Refusal;

// The refusal of what begins at an input byte.
fn refusal_at(r: Refusal, offset: u64) -> Ending
    ensures { result ≡ Ending.Refusal (refusal_code r) offset }
{
    Ending::Refusal {
        code: u8::from(r),
        offset,
    }
}

// The opening line, and what comes behind it; no capture has ended.
fn opening_due(ending: Option<Ending>) -> Due
    ensures { result ≡ due_first ending }
{
    Due {
        opening: true,
        capture: 0,
        bits: 0,
        pairs: 0,
        divisor: 0,
        clock: heads::NOMINAL as u64,
        heard: 0,
        position: 0,
        ending,
    }
}

// The lines after a whole head, by how it reads.
pub(crate) fn head_due(read: Result<Head, Refusal>) -> Due
    ensures { (due_lines result ≡ head_lines (code_of read)) × (sized result ≡ true) }
{
    match read {
        Ok(_) => opening_due(None),
        Err(r) => opening_due(Some(refusal_at(r, 0))),
    }
}

// The line of the open capture, by the pairs that each channel has, and what comes behind it.
fn ended_due(h: Head, t: Tally, ending: Option<Ending>) -> Due
    requires { allowed_head h ≡ true }
    ensures { result ≡ due_now h t ending }
{
    let f = heads::form_in(h).unwrap();
    let pairs = packets::pairs_each(heads::channels_in(h), f).unwrap();
    Due {
        opening: false,
        capture: t.captures,
        bits: f.bits,
        pairs,
        divisor: h.divisor as u64,
        clock: h.clock as u64,
        heard: t.heard,
        position: t.position,
        ending,
    }
}

// The lines that are due where hearing a piece stopped.
pub(crate) fn heard_due(h: Head, stop: Stop, t: Tally) -> Due
    requires { (allowed_head h ≡ true) × Counted t }
    ensures { (due_lines result ≡ heard_lines h (stopped_at stop t)) × (sized result ≡ true) }
{
    match stop {
        Stop::CaptureEnds => ended_due(h, t, None),
        Stop::Refused(r) => ended_due(h, t, Some(refusal_at(r, t.begins))),
    }
}

// The lines that the end of the input brings.
pub(crate) fn last_due(s: Span) -> Due
    requires { Counted s.tally × (head_lacks s ≡ false → allowed_head (head_of s) ≡ true) }
    ensures { (due_lines result ≡ last_lines s) × (sized result ≡ true) }
{
    if lacks(s) {
        return head_due(Err(Refusal::NotAHead));
    }
    let head = s.head;
    let h = heads::head_in(&head);
    let t = s.tally;
    if t.came == 0 {
        return ended_due(h, t, Some(Ending::Captures(t.captures)));
    }
    ended_due(h, t, Some(refusal_at(Refusal::NotAPacket, t.begins)))
}
