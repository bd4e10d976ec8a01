// A span's head: as it comes, and once it is whole.
ghost use Rattle.std.specs.Prelude.{◌≡◌, ◌≤◌, true};
ghost use Rattle.wire.specs.Refusal.{code_of};
ghost use Rattle.heads.specs.Head.{head_read_code};
ghost use Rattle.spans.specs.Eating.{head_wants, head_lacks, head_ok, head_filled, head_taken};

use crate::Span;
use heads::Head;
use wire::Refusal;

// Reads a head: its code is what matters here.
pub(crate) fn read(s: &[u8]) -> Result<Head, Refusal>
    ensures { code_of result ≡ head_read_code s.now }
{
    heads::read_head(s)
}

// How many bytes a head has, of which so many have come: its version stands in the first 14.
fn wanted(came: usize, head: &[u8]) -> usize
    ensures { result ≡ head_wants came head.now }
{
    if came < heads::SHORTEST {
        return heads::SHORTEST;
    }
    heads::head_length_in(head)
}

// Whether bytes of the head are still to come.
pub(crate) fn lacks(s: Span) -> bool
    ensures { result ≡ head_lacks s }
{
    let head = s.head;
    s.came < wanted(s.came, &head)
}

// Whether the head is still coming, or is whole and one that is read.
pub(crate) fn head_ok(s: Span) -> bool
    ensures { result ≡ head_ok s }
{
    let head = s.head;
    let all = wanted(s.came, &head);
    if s.came < all {
        return true;
    }
    if s.came != all {
        return false;
    }
    read(&head).is_ok()
}

// The span with the bytes of a piece that its head lacks, if it has so many.
fn filled(all: usize, s: Span, piece: &[u8]) -> Span
    requires { (s.came ≤ all) × (all ≤ 26) }
    ensures { result ≡ head_filled all s piece.now }
{
    let k = (all - s.came).min(piece.len());
    let mut head = s.head;
    wire::copy(&piece[..k], &mut head, s.came);
    Span {
        stopped: false,
        came: s.came + k,
        head,
        ..s
    }
}

// The span with the bytes that its head lacks taken of a piece. How many these are, the version says: it is looked up in as many
// as the longest head has.
pub(crate) fn take_head(s: Span, piece: &[u8]) -> Span
    requires { head_lacks s ≡ true }
    ensures { result ≡ head_taken s piece.now }
{
    let ahead = filled(heads::LONGEST, s, piece);
    let head = ahead.head;
    let all = wanted(ahead.came, &head);
    filled(all, s, piece)
}
