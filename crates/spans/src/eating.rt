// A span takes its input in pieces.
ghost use Rattle.std.specs.Prelude.{◌≡◌, true, not, eqb, length};
ghost use Rattle.std.proofs.lemmas.List.Edits.{sets};
ghost use Rattle.wire.specs.Codes as Code;
ghost use Rattle.wire.specs.Refusal.{code_of};
ghost use Rattle.heads.specs.Head.{allowed_head};
ghost use Rattle.hearing.specs.Hearing.{stop_told, tally_in_range};
ghost use Rattle.spans.specs.Eating.{tally_from, fresh_span, valid_span, head_lacks, head_of, head_read};
ghost use Rattle.spans.specs.Eating.{with_tally, opening, listening, eating_of, finishing_of, eaten_told, end_told};

use crate::due::{head_due, heard_due, last_due};
use crate::head::{head_ok, lacks, read, take_head};
use crate::{Did, Eaten, Span};
use heads::Head;
use hearing::{Stop, Tally};
use wire::Refusal;

// A span before its first byte.
pub fn fresh() -> Span
    ensures { result ≡ fresh_span }
{
    Span {
        stopped: false,
        came: 0,
        head: [0; 26],
        tally: tally_from(0),
    }
}

// Nothing heard, where packets begin at an input byte.
fn tally_from(begins: u64) -> Tally
    ensures { result ≡ tally_from begins }
{
    Tally {
        begins,
        came: 0,
        header: 0,
        number: 0,
        captures: 0,
        heard: 0,
        position: 0,
    }
}

// Whether a span is not broken: no count of it is out of its range, and no whole head of it is refused.
fn is_valid(s: Span) -> bool
    ensures { result ≡ valid_span s }
{
    if s.stopped {
        return true;
    }
    if !hearing::in_range(s.tally) {
        return false;
    }
    head_ok(s)
}

// The span with a tally, that goes on or has stopped.
fn with_tally(stopped: bool, s: Span, t: Tally) -> Span
    ensures { result ≡ with_tally stopped s t }
{
    Span {
        stopped,
        tally: t,
        ..s
    }
}

// The span after a whole head, by how it reads: the packets begin behind it.
fn after_head(read: Result<Head, Refusal>, s: Span) -> Span
    ensures { result ≡ head_read (code_of read) s }
{
    with_tally(read.is_err(), s, tally_from(s.came as u64))
}

// The head's part of a piece.
fn open(s: Span, piece: &[u8], out: &mut [u8]) -> Result<Eaten, Refusal>
    requires { head_lacks s ≡ true }
    ensures { (eaten_told s result ≡ (opening s piece.now (length out.old)).eaten)
        × (out.new ≡ sets out.old 0 (opening s piece.now (length out.old)).bytes) }
{
    let after = take_head(s, piece);
    let consumed = after.came - s.came;
    if lacks(after) {
        return Ok(Eaten {
            did: Did::Waiting,
            consumed,
            wrote: 0,
            span: after,
        });
    }
    let head = after.head;
    let read = read(&head);
    // 16 cannot come: the numbers are a capture's
    let wrote = lines::tell(head_due(read), out)?;
    Ok(Eaten {
        did: Did::Lines,
        consumed,
        wrote,
        span: after_head(read, after),
    })
}

// Whether hearing stopped at a packet that is refused.
fn is_refused(stop: Stop) -> bool
    ensures { result ≡ not (eqb (stop_told stop) Code.done) }
{
    match stop {
        Stop::CaptureEnds => false,
        Stop::Refused(_) => true,
    }
}

// The packets' part of a piece.
fn listen(s: Span, piece: &[u8], out: &mut [u8]) -> Result<Eaten, Refusal>
    requires { (allowed_head (head_of s) ≡ true) × (tally_in_range s.tally ≡ true) }
    ensures { (eaten_told s result ≡ (listening s piece.now (length out.old)).eaten)
        × (out.new ≡ sets out.old 0 (listening s piece.now (length out.old)).bytes) }
{
    let head = s.head;
    let h = heads::head_in(&head);
    // 21 cannot come: the tally is in range, and the head's form is listed
    let heard = hearing::hear(heads::form_in(h).unwrap(), s.tally, piece)?;
    let r = heard.reach;
    let Some(stop) = r.stop else {
        return Ok(Eaten {
            did: Did::Waiting,
            consumed: r.at,
            wrote: 0,
            span: with_tally(false, s, r.tally),
        });
    };
    // 16 cannot come: the numbers are a capture's
    let wrote = lines::tell(heard_due(h, stop, r.tally), out)?;
    Ok(Eaten {
        did: Did::Lines,
        consumed: r.at,
        wrote,
        span: with_tally(is_refused(stop), s, heard.next),
    })
}

// Takes a piece of the input, until lines are due or the piece is used up, and writes those lines at the start of out: 256
// bytes are room enough. Where lines were written, the rest of the piece is to be handed over again. It refuses with 21 a span that
// is broken, and then with 20 where out has no room for the lines; nothing happens then.
pub fn eat(s: Span, piece: &[u8], out: &mut [u8]) -> Result<Eaten, Refusal>
    ensures { (eaten_told s result ≡ (eating_of s piece.now (length out.old)).eaten)
        × (out.new ≡ sets out.old 0 (eating_of s piece.now (length out.old)).bytes) }
{
    if !is_valid(s) {
        return Err(Refusal::Broken);
    }
    if s.stopped {
        return Ok(Eaten {
            did: Did::Stopped,
            consumed: piece.len(),
            wrote: 0,
            span: s,
        });
    }
    if lacks(s) {
        return open(s, piece, out);
    }
    listen(s, piece, out)
}

// Writes the lines that the end of the input brings, and answers how many bytes they are: none are due where the span stopped
// before. It refuses with 21 a span that is broken, and then with 20 where out has no room for the lines; nothing happens then.
pub fn finish(s: Span, out: &mut [u8]) -> Result<Option<usize>, Refusal>
    ensures { (end_told result ≡ (finishing_of s (length out.old)).answer)
        × (out.new ≡ sets out.old 0 (finishing_of s (length out.old)).bytes) }
{
    if !is_valid(s) {
        Err(Refusal::Broken)
    } else if s.stopped {
        Ok(None)
    } else {
        let wrote = lines::tell(last_due(s), out)?;
        Ok(Some(wrote))
    }
}
