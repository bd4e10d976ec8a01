// Bands and tuning word of document 01.
#![tactic(auto)]

mod bands;
mod word;

pub use bands::{FIRST_MAXIMUM, FIRST_MINIMUM, in_bands, put_range};
pub use word::{agree, is_clock, word_kept, word_of};
