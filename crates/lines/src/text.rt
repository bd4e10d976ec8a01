// Lines as text. Each function puts its part at a place of the one buffer, and answers the place after it: no heap.
ghost use Rattle.std.specs.Prelude.{◌∷◌, ◌+◌, ◌*◌, ◌≤◌, length};
ghost use Rattle.lines.specs.Lines.{decimal, numbers_text, text_with};
ghost use Rattle.lines.specs.Inside.{Stored};

// Writes a space and a number in decimal, and answers the place after them.
fn put_number(n: u64, buf: &mut [u8], at: usize) -> usize
    requires { at + 21 ≤ length buf.old }
    ensures { Stored 21 buf.old at (0x20 ∷ decimal n) buf.new result }
{
    let mut digits = [0u8; 20];
    let k = io::decimal(n, &mut digits);
    wire::put(buf, at, 1, 0x20);
    wire::copy(&digits[..k], buf, at + 1);
    at + 1 + k
}

// Writes numbers, each after a space.
fn put_numbers(ns: &[u64], buf: &mut [u8], at: usize) -> usize
    requires { at + 21 * length ns.now ≤ length buf.old }
    ensures { Stored (21 * length ns.now) buf.old at (numbers_text ns.now) buf.new result }
{
    let mut to = at;
    for &n in ns {
        to = put_number(n, buf, to);
    }
    to
}

// Writes a line: a word, and numbers.
pub(crate) fn put_line(word: &[u8], ns: &[u64], buf: &mut [u8], at: usize) -> usize
    requires { at + (length word.now + 21 * length ns.now + 1) ≤ length buf.old }
    ensures { Stored (length word.now + 21 * length ns.now + 1) buf.old at
        (text_with word.now ns.now) buf.new result }
{
    wire::copy(word, buf, at);
    let to = put_numbers(ns, buf, at + word.len());
    wire::put(buf, to, 1, 0x0A);
    to + 1
}
