// Runs of calls: many packets at once, for a program in another language that has them at once. A run crosses the boundary
// once, so the state stays where the library keeps it. (A run of messages is a talk: crate talks.)
#![tactic(auto)]

ghost use Rattle.std.specs.Prelude.{◌≡◌};
ghost use Rattle.runs.specs.Cutting.{started, cut_run};
ghost use Rattle.runs.specs.Reading.{read_run};

use station::Station;

// Reads packets of `each` bytes one after another by a new reader of so many channels, to the first that it refuses. Answers the
// position of the first sample of the last packet heard, and leaves the total of packets missed in its capture up to it; both are
// 0 where none was heard.
#[unsafe(no_mangle)]
pub extern "C" fn skvornela_read_run(
    channels: u8,
    packets: &[u8],
    each: usize,
    total: &mut u64,
) -> u64
    ensures { record { sample = result; total = total.new } ≡ read_run channels each packets.now }
{
    if each == 0 {
        *total = 0;
        return 0;
    }
    let mut r = reader::silent(channels);
    let mut sample: u64 = 0;
    let mut lost: u64 = 0;
    let mut at: usize = 0;
    let turns = packets.len() / each;
    for turn in 0..turns {
        let end = at + each;
        let Ok(h) = reader::read(r, &packets[at..end]) else {
            *total = lost;
            return sample;
        };
        sample = h.sample;
        lost = h.total;
        r = h.reader;
        at = end;
    }
    *total = lost;
    sample
}

// A fresh box with serial MT123456 that was started with a mode, a size and a channel setup.
fn started(mode: u8, size: u8, setup: u8) -> Station
    ensures { result ≡ started mode size setup }
{
    let station = station::session_box();
    let store = station.store;
    let mut settings = station.settings;
    settings.running = true;
    settings.mode = mode;
    settings.size = size as u32;
    settings.setup = setup as u16;
    Station { settings, store }
}

// Cuts packets of n samples and `total` bytes one after another by a box that was just started with a mode, a size
// and a channel setup, as many as there are samples and room for, to the first that it refuses. Answers how many it cut.
#[unsafe(no_mangle)]
pub extern "C" fn skvornela_cut_run(
    mode: u8,
    size: u8,
    setup: u8,
    n: usize,
    total: usize,
    samples: &[i32],
    out: &mut [u8],
) -> usize
    ensures { record { count = result; out = out.new }
        ≡ cut_run (started mode size setup) n total samples.now out.old }
{
    if n == 0 {
        return 0;
    }
    if total == 0 {
        return 0;
    }
    let mut s = started(mode, size, setup);
    let packets = (samples.len() / n).min(out.len() / total);
    let mut i: usize = 0;
    let mut at: usize = 0;
    for count in 0..packets {
        let end = i + n;
        let Ok(cut) = cutting::cut_packet(s, &samples[i..end], &mut out[at..]) else {
            return count;
        };
        s = cut.left;
        i = end;
        at += total;
    }
    packets
}
