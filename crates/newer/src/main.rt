// Moves a capture file to version 2 of its head, from standard input to standard output.
#![tactic(auto)]

use streams::Streams;

fn main(rt: HostRuntime) {
    let mut io = Streams::new(rt.stdin(), rt.stdout(), rt.stderr());
    moves::newer(&mut io);
}
