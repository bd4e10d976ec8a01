// The span program's work: it takes the bytes of a capture as they come, and writes the lines that are to be printed.
#![tactic(auto)]

mod due;
mod eating;
mod head;

pub use eating::{eat, finish, fresh};
use hearing::Tally;

// A span: what is kept of the input between two pieces of it. A span that stopped keeps its bytes and its tally (`silently` in
// specs/Eating gives it back), so they stand beside the flag.
#[derive(Clone, Copy, Debug, PartialEq, Eq)]
pub struct Span {
    // a refusal was printed, and no more bytes are wanted
    pub stopped: bool,
    // how many bytes of the head have come, and those bytes: no heap, so there is room for the longest head beside the count
    pub came: usize,
    pub head: [u8; 26],
    pub tally: Tally,
}

// What one call of eating came to.
#[derive(Clone, Copy, Debug, PartialEq, Eq)]
pub enum Did {
    // the piece is used up, and more is waited for
    Waiting,
    // lines were written
    Lines,
    // the span stopped before, and needs no more bytes
    Stopped,
}

// What one call of eating did: how many bytes of the piece it consumed, how many bytes of lines it wrote, and the span after it.
#[derive(Clone, Copy, Debug, PartialEq, Eq)]
pub struct Eaten {
    pub did: Did,
    pub consumed: usize,
    pub wrote: usize,
    pub span: Span,
}
