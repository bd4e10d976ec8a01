// Messages for the box. The script on standard input has a line for each step, and what the box says can be laid beside the
// documents:
//
//     # words                 a remark, copied, as an empty line is
//     box MT123456            a fresh box with this serial; the line is copied, and its code written behind it
//     04 20 01 00             a message, fed in one call; written is its code, and the reply's bytes
//     name asked: 04 20 01 00   the same, with what stands before the colon copied
//     00 80 +8191             bytes and so many zeros behind them
ghost use Rattle.std.specs.Prelude.{◌≤◌, ◌<◌, length};

use crate::telling::{find, first, from, name, say, tell};
use station::Station;
use std::io::Stdout;

// The value of a hexadecimal digit in capitals; of anything else 0.
fn value_of(digit: u8) -> u8 {
    match digit {
        b'0'..=b'9' => digit - b'0',
        b'A'..=b'F' => digit - (b'A' - 10),
        _ => 0,
    }
}

// Puts the bytes of a line, two digits each and a space between, at the start of out, and answers how many there are.
fn read_bytes(line: &[u8], out: &mut [u8]) -> usize
    ensures { result ≤ length out.old }
{
    let mut n = 0;
    for digits in line.chunks(3) {
        if digits.len() < 2 || n == out.len() {
            break;
        }
        out[n] = (value_of(digits[0]) << 4) | value_of(digits[1]);
        n += 1;
    }
    n
}

// The number that a plus and up to four digits are; none where there is no plus.
fn zeros_in(text: &[u8]) -> usize
    ensures { result < 10000 }
{
    let mut n = 0;
    for digit in text {
        n = (n * 10 + value_of(*digit) as usize) % 10_000;
    }
    n
}

// Feeds a message in one call.
fn feed_and_tell(out: Stdout, s: Station, message: &[u8]) -> Station {
    let mut reply = [0u8; 64];
    match station::feed(s, message, &mut reply) {
        Ok(fed) => {
            tell(out, fed.code(), first(&reply, fed.wrote));
            fed.left
        }
        Err(refusal) => {
            tell(out, u8::from(refusal), b"");
            s
        }
    }
}

// A message of at most 8,200 bytes.
fn run_message(out: Stdout, s: Station, line: &[u8]) -> Station {
    let mut message = [0u8; 8200];
    let plus = find(line, b'+');
    let n = read_bytes(&line[..plus], &mut message);
    let more = zeros_in(&line[plus..]);
    feed_and_tell(out, s, first(&message, n + more))
}

// A message, behind its name where it has one.
fn run_named(out: Stdout, s: Station, line: &[u8]) -> Station {
    let colon = find(line, b':');
    if colon == line.len() {
        return run_message(out, s, line);
    }
    name(out, &line[..colon]);
    run_message(out, s, from(&line[colon..], 2))
}

// The box that a line "box SERIAL" begins.
fn begin(out: Stdout, line: &[u8]) -> Station {
    let began = station::fresh(from(line, 4));
    name(out, line);
    tell(out, began.code(), b"");
    began.made
}

// One line of the script, and the box after it.
fn run_line(out: Stdout, s: Station, line: &[u8]) -> Station {
    if line.len() == 0 || line[0] == b'#' {
        say(out, line);
        say(out, b"\n");
        return s;
    }
    if check::same(first(line, 4), b"box ") {
        return begin(out, line);
    }
    run_named(out, s, line)
}

// One line after the other.
pub(crate) fn run(out: Stdout, text: &[u8]) {
    let mut now = station::fresh(b"00000000").made;
    for line in text.split_inclusive(|b| *b == b'\n') {
        now = run_line(out, now, line.strip_suffix(b"\n").unwrap_or(line));
    }
}
