// Captures: the box cuts packets of a signal, some are lost, and from those that are heard the harvester works out where
// each stands and what the capture covers.
use crate::asking::{ask, idle, run};
use crate::saying::{first, say, say_number, say_signed};
use cutting::Cut;
use heads::Head;
use items::Settings;
use reader::{Heard, Reader};
use spans::Span;
use station::Station;
use std::io::Stdout;
use wire::Refusal;
use wishes::Wish;

// The box, and the harvester's two readers of what it sends.
#[derive(Clone, Copy)]
struct Night {
    station: Station,
    reader: Reader,
    span: Span,
}

// The signal: number i of the packet at position p, spread over the 24 bits.
fn signal(p: u32, i: u32) -> i32 {
    let spread = (i as u64 * 7919 + p as u64 * 5_000_011) % 16_777_216;
    spread as i32 - 8_388_608
}

// The packets that reach the harvester: all others are lost.
fn is_heard(p: u32) -> bool {
    match p {
        0 | 2 | 3 | 5 | 30000 | 65534 | 65535 | 65536 | 65539 => true,
        _ => false,
    }
}

// The packet size of the box as the one byte that a message and a capture's head have for it.
fn size_byte(settings: Settings) -> u8 {
    (settings.size % 256) as u8
}

// How many numbers a packet of the box holds, I and Q in turn.
fn numbers_of(settings: Settings) -> usize {
    match packets::form_for(settings.mode, size_byte(settings)) {
        Some(form) if form.pairs <= 256 => 2 * form.pairs as usize,
        _ => 0,
    }
}

// The signal of the packet at position p.
fn fill(samples: &mut [i32; 512], p: u32) {
    for i in 0..512 {
        samples[i] = signal(p, i as u32);
    }
}

// Cuts the next packet, from as many samples as it holds.
fn cut_first(s: Station, samples: &[i32; 512], packet: &mut [u8]) -> Result<Cut<Station>, Refusal> {
    let n = numbers_of(s.settings);
    cutting::cut_packet(s, first(samples, n), packet)
}

// Cuts the packet at position p.
fn cut(s: Station, p: u32, packet: &mut [u8]) -> Result<Cut<Station>, Refusal> {
    let mut samples = [0i32; 512];
    fill(&mut samples, p);
    cut_first(s, &samples, packet)
}

// The first I and the first Q of each channel.
fn say_first(out: Stdout, numbers: &[i32], channels: u8) {
    if 4 <= numbers.len() {
        say_signed(out, numbers[0]);
        say_signed(out, numbers[1]);
        if channels == 2 {
            say_signed(out, numbers[2]);
            say_signed(out, numbers[3]);
        }
    }
}

// The first numbers that a packet of so many channels unpacks to.
fn say_numbers(out: Stdout, packet: &[u8], channels: u8) {
    let mut numbers = [0i32; 512];
    if reader::unpack(packet, &mut numbers).is_ok() {
        say_first(out, &numbers, channels);
    }
}

// Hands bytes of the capture to the span, and prints the lines that are due.
fn measure(out: Stdout, s: Span, piece: &[u8]) -> Span {
    let mut lines = [0u8; 256];
    match spans::eat(s, piece, &mut lines) {
        Ok(eaten) => {
            say(out, first(&lines, eaten.wrote));
            eaten.span
        }
        Err(_) => s,
    }
}

// Reads a packet that was heard, and tells its number, its position, its first sample's position, how many were missed just
// before it and in all, and its first numbers.
fn read_packet(out: Stdout, r: Reader, packet: &[u8]) -> Reader {
    // what is refused is told with zeros
    let heard = reader::read(r, packet).unwrap_or(Heard {
        position: 0,
        sample: 0,
        missed: 0,
        total: 0,
        reader: r,
    });
    say_number(out, b"number", packets::number_in(packet) as u64);
    say_number(out, b" position", heard.position);
    say_number(out, b" sample", heard.sample);
    say_number(out, b" missed", heard.missed);
    say_number(out, b" of", heard.total);
    say_numbers(out, packet, r.channels);
    say(out, b"\n");
    heard.reader
}

// A packet of n bytes is heard.
fn hear(out: Stdout, night: Night, packet: &[u8], n: usize) -> Night {
    let whole = first(packet, n);
    let reader = read_packet(out, night.reader, whole);
    let span = measure(out, night.span, whole);
    let station = night.station;
    Night {
        station,
        reader,
        span,
    }
}

// The packet at position p is cut, and heard or lost.
fn next(out: Stdout, night: Night, p: u32) -> Night {
    let mut packet = [0u8; 1444];
    let (station, wrote) = match cut(night.station, p, &mut packet) {
        Ok(cut) => (cut.left, cut.wrote),
        Err(_) => (night.station, 0),
    };
    let reader = night.reader;
    let span = night.span;
    let after = Night {
        station,
        reader,
        span,
    };
    if is_heard(p) {
        return hear(out, after, &packet, wrote);
    }
    after
}

// As many packets as are asked for.
fn packets_of(out: Stdout, night: Night, count: u32) -> Night {
    let mut after = night;
    for p in 0..count {
        after = next(out, after, p);
    }
    after
}

// A span that has taken the head of the capture that the box begins; it names the box and its clock.
fn open(out: Stdout, settings: Settings) -> Span {
    let mut head = [0u8; 26];
    let serial = settings.serial;
    // a box's values may be written, and 26 bytes have room
    let _ = heads::write_head(
        Head {
            version: 2,
            divisor: settings.divisor,
            frequency: settings.first.frequency,
            mode: heads::mode_with(settings.mode, channels::count_of(settings)),
            size: size_byte(settings),
            serial: wire::number_at(&serial, 0, 8),
            clock: settings.clock,
        },
        &mut head,
    );
    measure(out, spans::fresh(), &head)
}

// The end of the capture: what it covers.
fn close(out: Stdout, s: Span) {
    let mut lines = [0u8; 256];
    if let Ok(Some(wrote)) = spans::finish(s, &mut lines) {
        say(out, first(&lines, wrote));
    }
}

// A capture in a mode and size, with as many channels as the box has, from its first packet to the box's being idle again.
pub(crate) fn capture(out: Stdout, s: Station, mode: u8, size: u8, count: u32) -> Station {
    let sized = ask(out, s, b"SetPacketSize", Wish::SetPacketSize(size));
    let running = run(out, sized, mode);
    let begun = Night {
        station: running,
        reader: reader::silent(channels::count_of(running.settings)),
        span: open(out, running.settings),
    };
    let over = packets_of(out, begun, count);
    close(out, over.span);
    idle(out, over.station)
}
