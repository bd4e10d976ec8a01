// A capture's packets as they come, in whatever pieces: which are accepted, where each stands, and which is refused.
#![tactic(auto)]

mod coming;
mod pieces;

pub use coming::in_range;
pub use pieces::hear;
use wire::Refusal;

// The last input byte that a tally counts up to, 2^63.
pub const FARTHEST: u64 = 0x8000_0000_0000_0000;

// What is known while packets come: the packet that comes now, and the open capture.
#[derive(Clone, Copy, Debug, PartialEq, Eq)]
pub struct Tally {
    // the input byte where the packet begins
    pub begins: u64,
    // how many of its bytes have come
    pub came: u64,
    // its header and its number, as far as they have come
    pub header: u16,
    pub number: u16,
    // captures begun; the open one has this number
    pub captures: u64,
    // packets heard in the open capture, 0 where none is open
    pub heard: u64,
    // the position of the last of them
    pub position: u64,
}

// Why hearing stops within a piece, with a line due.
#[derive(Clone, Copy, Debug, PartialEq, Eq)]
pub enum Stop {
    // the open capture ends with a packet numbered 0
    CaptureEnds,
    // a packet is refused
    Refused(Refusal),
}

// How far hearing got in a piece: how many bytes it took, why it stopped (or the piece is used up), and the tally then. The
// packet with which it stops is counted as taken, and has had no effect yet.
#[derive(Clone, Copy, Debug, PartialEq, Eq)]
pub struct Reach {
    pub at: usize,
    pub stop: Option<Stop>,
    pub tally: Tally,
}

// What hearing a piece came to: how far it got, and the tally with which hearing goes on.
#[derive(Clone, Copy, Debug, PartialEq, Eq)]
pub struct Outcome {
    pub reach: Reach,
    pub next: Tally,
}
