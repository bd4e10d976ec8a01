// The box's door to other languages: its calls on numbers and lent slices, for a program in Rust or C to link.
#![tactic(auto)]

mod states; // states.rt: a box in lent bytes
mod feeding; // feeding.rt: a fresh box, feeding it, its tuning word
mod cuts; // cuts.rt: cutting packets
