// Words and numbers on standard output. A write that fails loses its text, which the comparison then shows.
use std::io::Stdout;

pub(crate) fn say(out: Stdout, text: &[u8]) {
    let _ = out.write_all(text);
}

// The first n, or all where there are fewer.
pub(crate) fn first<T>(all: &[T], n: usize) -> &[T] {
    &all[..n.min(all.len())]
}

// A word and the number behind it.
pub(crate) fn say_number(out: Stdout, word: &[u8], n: u64) {
    say(out, word);
    say(out, b" ");
    let _ = out.print(n);
}

// A space and a number that may be below zero.
pub(crate) fn say_signed(out: Stdout, n: i32) {
    let sign: &[u8] = if n < 0 { b" -" } else { b" " };
    say(out, sign);
    let _ = out.print(n.unsigned_abs());
}
