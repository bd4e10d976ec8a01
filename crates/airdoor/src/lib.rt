// The door of programs on the air: what a station over sockets and a night recorder ask besides what the box's door and the harvester's
// answer, so that they know no rule of the protocol themselves.
#![tactic(auto)]

mod heading; // heading.rt: the mode byte and the length of a capture head
mod shapes; // shapes.rt: the shape of packets behind one
mod measures; // measures.rt: the D of a rate, the length of a message, the end time of samples
