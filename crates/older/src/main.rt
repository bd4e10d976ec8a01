// Moves a capture file back to version 1 of its head, from standard input to standard output.
#![tactic(auto)]

use streams::Streams;

fn main(rt: HostRuntime) {
    let mut io = Streams::new(rt.stdin(), rt.stdout(), rt.stderr());
    moves::older(&mut io);
}
