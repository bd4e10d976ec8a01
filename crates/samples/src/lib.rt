// Samples of document 01: the loops that pack them into a packet and unpack them, kept to shapes that compile fast.
#![tactic(auto)]

mod fitting;
mod packing;
mod unpacking;

pub use fitting::all_fit;
pub use packing::pack;
pub use unpacking::unpack;
