// The lines that the span program prints: what each says, and its text.
#![tactic(auto)]

mod telling;
mod text;

pub use telling::{tell, time_of};

// What comes last: a refusal with its code and the input byte, or the end of the input with the count of captures.
#[derive(Clone, Copy, Debug, PartialEq, Eq)]
pub enum Ending {
    // a number, as `tell` writes whatever code it is given (`refusal_line`)
    Refusal { code: u8, offset: u64 },
    Captures(u64),
}

// The lines that are due: the opening line, the line of the capture that ends (where packets were heard in it), and what
// comes last, unless only a capture ended. The clock is the box's, in Hz: with D it says how long a sample takes.
// The numbers of a capture stand here also where none was heard, as `tell` refuses some of them then too (`telling_of`).
#[derive(Clone, Copy, Debug, PartialEq, Eq)]
pub struct Due {
    pub opening: bool,
    pub capture: u64,
    pub bits: u64,
    pub pairs: u64,
    pub divisor: u64,
    pub clock: u64,
    pub heard: u64,
    pub position: u64,
    pub ending: Option<Ending>,
}
