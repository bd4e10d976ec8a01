// A night at the station: the harvester asks, the box answers and cuts packets, some of them are lost, and the harvester
// tells from those that it heard where it stands. Both sides are the proved library; what is printed is compared.
#![tactic(auto)]

mod asking; // asking.rt: wishes are sent to the box, and its replies read
mod capturing; // capturing.rt: captures are cut, heard with gaps, and measured
mod saying; // saying.rt: words and numbers on standard output

use station::Station;
use std::io::Stdout;

// The four packet forms, six packets each.
fn four_forms(out: Stdout, s: Station) -> Station {
    let first = capturing::capture(out, s, packets::MODE_24, packets::LARGE, 6);
    let second = capturing::capture(out, first, packets::MODE_24, packets::SMALL, 6);
    let third = capturing::capture(out, second, packets::MODE_16, packets::LARGE, 6);
    capturing::capture(out, third, packets::MODE_16, packets::SMALL, 6)
}

fn main(rt: HostRuntime) {
    let out = rt.stdout();
    let tuned = asking::evening(out, station::session_box());
    let heard = four_forms(out, tuned);
    // "The packet at position 0 has number 0; at position p of 1 or more, ((p - 1) mod 65,535) + 1": past the number's turn.
    let turned = capturing::capture(out, heard, packets::MODE_24, packets::SMALL, 65540);
    // the same with two channels, and a short capture of 16 bits
    let two = asking::channels(out, turned, 4);
    let twice = capturing::capture(out, two, packets::MODE_24, packets::SMALL, 65540);
    let last = capturing::capture(out, twice, packets::MODE_16, packets::LARGE, 6);
    asking::channels(out, last, 0);
}
