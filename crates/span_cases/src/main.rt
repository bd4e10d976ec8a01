// The span program's rules, case by case, on the proved library: each input is handed over whole, byte by byte and in odd
// pieces. What is printed is compared with what a script that knows nothing of the library works out (expected.py). A case
// is a line on standard input:
//
//     NAME: 53504E 84810400* ..    bytes; a star behind four bytes that begin a packet stands for the rest of it, zeros,
//                                  and a minus takes the last byte away
#![tactic(auto)]

mod building; // building.rt: from a line to an input
mod feeding; // feeding.rt: an input is handed over
mod saying; // saying.rt: words on standard output

use streams::Streams;

fn main(rt: HostRuntime) {
    let mut io = Streams::new(rt.stdin(), rt.stdout(), rt.stderr());
    let mut text = [0u8; 65536];
    let n = io.read_full(&mut text);
    let out = rt.stdout();
    building::cases(out, &text[..n]);
    // "position past 3,999,999,999": 61,036 full turns past position 5,739 lies the last one, past 5,740 one too many.
    feeding::repeated(out, b"to position 3999999999", 5739, 61037);
    feeding::repeated(out, b"to position 4000000000", 5740, 61037);
}
