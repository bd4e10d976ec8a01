// Whether two slices are the same, by words of eight bytes: of bytes that are known the compiler makes the words beforehand. (`==` of
// slices was tried, and of arrays too: the range reply then took 1.8 and 1.2 times as long, past the row's bar in docs/BENCHMARKS.md.)
ghost use Rattle.std.specs.Prelude.{◌≡◌, length, drop};
ghost use Rattle.wire.specs.Lists.{same};

// Eight at a time, then one by one.
pub(crate) fn same_words(a: &[u8], b: &[u8]) -> bool
    ensures { result ≡ same a.now b.now }
{
    let n = a.len();
    if n != b.len() {
        return false;
    }
    let words = n / 8;
    for i in 0..words {
        if wire::number_at(a, 8 * i, 8) != wire::number_at(b, 8 * i, 8) {
            return false;
        }
    }
    same_from(a, b, 8 * words)
}

// Whether two slices of one length hold the same bytes from a place on, one by one.
fn same_from(a: &[u8], b: &[u8], from: usize) -> bool
    requires { length a.now ≡ length b.now }
    ensures { result ≡ same (drop from a.now) (drop from b.now) }
{
    for i in from..a.len() {
        if a[i] != b[i] {
            return false;
        }
    }
    true
}
