// From a line to an input.
ghost use Rattle.std.specs.Prelude.{◌≤◌, length};

use crate::feeding::ways;
use crate::saying::first;
use std::io::Stdout;

// How much of an input there is, and the first digit of a byte that is half there.
#[derive(Drop)]
struct Made {
    at: usize,
    high: Option<u8>,
}

// The value of a hexadecimal digit, in capitals.
fn value_of(digit: u8) -> Option<u8> {
    match digit {
        b'0'..=b'9' => Some(digit - b'0'),
        b'A'..=b'F' => Some(digit - 55),
        _ => None,
    }
}

// The place behind the packet whose first four bytes were put last, at most the end.
fn packet_end(input: &[u8], at: usize) -> usize {
    if at < 4 {
        return at;
    }
    let header = wire::number_at(input, at - 4, 2) % 65536;
    let total = wire::length_in(header as u16) as usize;
    (at - 4).saturating_add(total).min(input.len())
}

// One character of the line more.
fn put_next(m: Made, c: u8, input: &mut [u8]) -> Made {
    if c == b'*' {
        return Made {
            at: packet_end(input, m.at),
            high: None,
        };
    }
    if c == b'-' {
        return Made {
            at: m.at.saturating_sub(1),
            high: None,
        };
    }
    let value = value_of(c);
    let Some(high) = m.high else {
        return Made {
            at: m.at,
            high: value,
        };
    };
    // what is no digit counts 16 behind the first digit of a byte
    wire::put(
        input,
        m.at,
        1,
        high as u64 * 16 + value.unwrap_or(16) as u64,
    );
    Made {
        at: m.at.saturating_add(1).min(input.len()),
        high: None,
    }
}

// Puts the bytes of a line in a slice of zeros, and answers how many there are.
fn build(line: &[u8], input: &mut [u8]) -> usize {
    let mut m = Made { at: 0, high: None };
    for &c in line {
        m = put_next(m, c, input);
    }
    m.at
}

// A case: its name, and its bytes as a line has them.
fn case(out: Stdout, name: &[u8], line: &[u8]) {
    let mut input = [0u8; 8192];
    let n = build(line, &mut input);
    ways(out, name, first(&input, n));
}

// The first place from one on that has this byte, or the end.
fn find(text: &[u8], from: usize, b: u8) -> usize
    requires { from ≤ length text.now }
    ensures { (from ≤ result) × (result ≤ length text.now) }
{
    match text[from..].iter().position(|&c| c == b) {
        Some(i) => from + i,
        None => text.len(),
    }
}

// One case after the other. A name goes up to the next colon, wherever that is, and the place moves by a case at a time.
pub(crate) fn cases(out: Stdout, text: &[u8]) {
    let mut at = 0;
    while at < text.len() {
        let colon = find(text, at, b':');
        let end = find(text, colon, b'\n');
        case(out, &text[at..colon], &text[colon..end]);
        at = end.saturating_add(1).min(text.len());
    }
}
