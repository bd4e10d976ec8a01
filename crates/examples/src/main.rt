// Runs the examples and edges of document 01, as the requests of document 02 that have landed change them, and the examples that
// source document 003 prints. What is printed is compared, a line for each call: what it was, its code, and its bytes or numbers.
// A constant of 01 that is wrong in its definition and in the code alike is proved all the same: here it shows, since what is
// taken stands beside what lies next to it.
#![tactic(auto)]

mod boxes; // boxes.rt: the box at edges that no message of the script reaches
mod harvest; // harvest.rt: the harvester's calls at their edges
mod script; // script.rt: the messages on standard input, fed to boxes
mod telling; // telling.rt: what a call came to, in a line

use streams::Streams;

fn main(rt: HostRuntime) {
    let mut io = Streams::new(rt.stdin(), rt.stdout(), rt.stderr());
    let mut text = [0u8; 65536];
    let n = io.read_full(&mut text);
    let out = rt.stdout();
    script::run(out, &text[..n]);
    telling::say(
        out,
        b"\n# Packets cut: code, and the packet's first ten bytes\n",
    );
    boxes::forms(out);
    boxes::cuts(out);
    boxes::counts(out);
    telling::say(out, b"\n# Replies with little room\n");
    boxes::feeds(out);
    telling::say(
        out,
        b"\n# Packets read: code, position, first sample, missed, in all; unpacked: code, numbers, sample bytes\n",
    );
    harvest::packets_read(out);
    telling::say(out, b"\n# Wishes written\n");
    harvest::wishes_written(out);
    telling::say(out, b"\n# Replies read\n");
    harvest::replies_read(out);
    telling::say(out, b"\n# Heads written\n");
    harvest::heads_written(out);
    telling::say(
        out,
        b"\n# Heads read: code, version, D, frequency, mode, size, serial, clock\n",
    );
    harvest::heads_read(out);
    telling::say(
        out,
        b"\n# Heads moved to version 2, and back to version 1\n",
    );
    harvest::heads_moved(out);
    telling::say(
        out,
        b"\n# Packets of 16 bits: code, and the packet's first ten bytes\n",
    );
    boxes::sixteen_bits(out);
    telling::say(
        out,
        b"\n# The tuning words: code, the words kept of channels 00 and 02; what asking for each answers\n",
    );
    boxes::words(out);
    telling::say(out, b"\n# The same with two channels\n");
    boxes::two_words(out);
}
