// What a call came to, in a line: its name, its code, and its bytes or its numbers. A write that fails loses its text, which the
// comparison then shows.
ghost use Rattle.std.specs.Prelude.{◌≤◌, length};

use std::io::Stdout;

pub(crate) fn say(out: Stdout, text: &[u8]) {
    let _ = out.write_all(text);
}

// What the call is.
pub(crate) fn name(out: Stdout, words: &[u8]) {
    say(out, words);
    say(out, b": ");
}

// The first n bytes, or all where there are fewer.
pub(crate) fn first(bytes: &[u8], n: usize) -> &[u8] {
    &bytes[..n.min(bytes.len())]
}

// The bytes from a place on, or none where there are fewer.
pub(crate) fn from(bytes: &[u8], at: usize) -> &[u8] {
    &bytes[at.min(bytes.len())..]
}

// The first place that has this byte, or the end.
pub(crate) fn find(text: &[u8], b: u8) -> usize
    ensures { result ≤ length text.now }
{
    text.iter().position(|c| *c == b).unwrap_or(text.len())
}

// The digit of a value below 16.
fn digit_of(value: u8) -> u8 {
    match value {
        0..=9 => b'0' + value,
        10..=15 => value + (b'A' - 10),
        _ => b'?',
    }
}

// A space and a byte.
fn say_byte(out: Stdout, b: u8) {
    say(out, &[b' ', digit_of(b >> 4), digit_of(b & 15)]);
}

// A space and a number.
pub(crate) fn say_number(out: Stdout, n: u64) {
    say(out, b" ");
    let _ = out.print(n);
}

pub(crate) fn say_code(out: Stdout, code: u8) {
    let _ = out.print(u64::from(code));
}

// A code, the bytes, and the line's end.
pub(crate) fn tell(out: Stdout, code: u8, bytes: &[u8]) {
    say_code(out, code);
    for b in bytes {
        say_byte(out, *b);
    }
    say(out, b"\n");
}
