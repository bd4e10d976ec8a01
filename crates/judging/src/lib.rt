// What a finished message does, by the table of items of document 01: the settings after it, or why it is refused.
#![tactic(auto)]

mod message; // message.rt: header, table and item in turn
mod sets; // sets.rt: what a set of each item does

pub use message::{item_in, judge};
