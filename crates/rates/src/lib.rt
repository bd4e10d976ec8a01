// Rate of document 01: the 616 achieved rates, and the D whose exact rate is nearest.
#![tactic(auto)]

mod choice;
mod entries;
mod table;

pub use choice::{may_ask, nearest};
pub use table::{achieved, d_of, is_d};
