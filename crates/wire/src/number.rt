// Numbers in bytes: "All longer fields are least significant byte first."
ghost use Rattle.std.specs.Prelude.{◌≡◌, [], ◌∷◌, ◌+◌, ◌-◌, ◌≤◌, ◌<◌, min, length};
ghost use Rattle.std.proofs.lemmas.List.Edits.{sets};
ghost use Rattle.wire.specs.Number.{number, bytes, field};

// The number in the n bytes at a place of a slice, of which at most eight are read. Bytes past the end of the slice are
// not there, and count nothing. Eight bytes are two words, and four one, where they are all there.
pub fn number_at(s: &[u8], at: usize, n: usize) -> u64
    ensures { result ≡ field at (min n 8) s.now }
{
    let room = s.len().saturating_sub(at);
    if (n == 8) & (8 <= room) {
        return word_at(s, at) + 4_294_967_296 * word_at(s, at + 4);
    }
    if (n == 4) & (4 <= room) {
        return word_at(s, at);
    }
    by_bytes(s, at, n.min(8).min(room))
}

// The word at a place that the slice has. A crate that reads words without a test has such a function of its own, since this
// one is not for all slices, and what a crate makes public is.
fn word_at(s: &[u8], at: usize) -> u64
    requires { at + 4 ≤ length s.now }
    ensures { (result ≡ field at 4 s.now) × (result < 4294967296) }
{
    u64::from(word(s[at], s[at + 1], s[at + 2], s[at + 3]))
}

// The number in four bytes: of bytes that stand side by side in a slice it is one read of the processor's.
pub fn word(first: u8, second: u8, third: u8, fourth: u8) -> u32
    ensures { result ≡ number (first ∷ second ∷ third ∷ fourth ∷ []) }
{
    u32::from_le_bytes([first, second, third, fourth])
}

// So many bytes, from the last one down.
fn by_bytes(s: &[u8], at: usize, n: usize) -> u64
    requires { (n ≤ 8) × (n ≤ length s.now - at) }
    ensures { result ≡ field at n s.now }
{
    let mut number: u64 = 0;
    for i in (0..n).rev() {
        number = number * 256 + u64::from(s[at + i]);
    }
    number
}

// Writes a number in n bytes at a place of a slice. What would lie past the end of the slice is not written. Eight bytes are two
// words, and four one, where there is room for them all.
pub fn put(dst: &mut [u8], at: usize, n: usize, v: u64)
    ensures { dst.new ≡ sets dst.old at (bytes n v) }
{
    let room = dst.len().saturating_sub(at);
    if (n == 8) & (8 <= room) {
        put_word(dst, at, v);
        put_word(dst, at + 4, v / 4_294_967_296);
    } else if (n == 4) & (4 <= room) {
        put_word(dst, at, v);
    } else {
        put_bytes(dst, at, n, v);
    }
}

// Writes a word at a place that the slice has: stores side by side are one of the processor's. As with `word_at`, a crate that
// writes words without a test has its own.
fn put_word(dst: &mut [u8], at: usize, v: u64)
    requires { at + 4 ≤ length dst.old }
    ensures { dst.new ≡ sets dst.old at (bytes 4 v) }
{
    dst[at..at + 4].copy_from_slice(&((v % 4_294_967_296) as u32).to_le_bytes());
}

// Any number of bytes, from the first one up.
fn put_bytes(dst: &mut [u8], at: usize, n: usize, v: u64)
    ensures { dst.new ≡ sets dst.old at (bytes n v) }
{
    let fits = n.min(dst.len().saturating_sub(at));
    let mut rest = v;
    for i in 0..fits {
        dst[at + i] = (rest % 256) as u8;
        rest /= 256;
    }
}
