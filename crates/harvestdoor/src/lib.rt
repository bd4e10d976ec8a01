// The harvester's door to other languages: its calls on numbers and lent slices, for a program in Rust or C to link.
#![tactic(auto)]

mod states; // states.rt: a reader in lent bytes
mod reading; // reading.rt: reading packets
mod asking; // asking.rt: wishes and replies
mod heading; // heading.rt: capture heads
