// Words on standard output. A write that fails loses its text, which the comparison then shows.
ghost use Rattle.std.specs.Prelude.{◌≡◌, take};

use std::io::Stdout;

pub(crate) fn say(out: Stdout, text: &[u8]) {
    let _ = out.write_all(text);
}

// The first n bytes, or all where there are fewer.
pub(crate) fn first(bytes: &[u8], n: usize) -> &[u8]
    ensures { result.now ≡ take n bytes.now }
{
    &bytes[..n.min(bytes.len())]
}
