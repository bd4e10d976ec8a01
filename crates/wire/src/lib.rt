// Message blocks of document 01: headers and numbers, least significant byte first; and the little that all crates share.
#![tactic(auto)]

mod bytes;
mod choice;
pub mod codes; // codes.rt: what comes back
mod header;
mod number;
mod refusal; // refusal.rt: the codes from 10 on
pub mod types; // types.rt: the types of messages

pub use bytes::copy;
pub use choice::within;
pub use header::{header_of, length_in, type_in};
pub use number::{number_at, put, word};
pub use refusal::{Refusal, code_of};
