// Feeding, the part of it that no item has a say in: which bytes make a message, and what the box keeps of one that is
// not finished.
#![tactic(auto)]

ghost use Rattle.std.specs.Prelude.{◌≡◌, true, ◌++◌, ◌+◌, ◌*◌, ◌-◌, ◌≤◌, ◌<◌, eqb, length, take, drop, get_or};
ghost use Rattle.framing.specs.Framing.{between, total_of, announced_by, finished, zeros, could_be_left};
ghost use Rattle.framing.specs.Telling.{first_ten, took_says, took_in, held_after};
ghost use Rattle.framing.specs.Inside.{total_ahead};

// What the box keeps of an unfinished message: its first 64 bytes and how many were taken. Unused places are zero, and
// all is zero between messages. The count stands beside the bytes, in memory of a fixed size: the doors' bytes may hold any count,
// more than 64 of a long message, and `could_be_left` judges it.
#[derive(Clone, Copy)]
pub struct Store {
    pub held: [u8; 64],
    pub taken: usize,
}

// What one call took of the host's bytes: how many, how many of the message are taken with them, and, where they finished it,
// the ten bytes from its beginning as they lie, zero where there are fewer. No message that the box obeys is longer, and what
// lies behind one does not decide.
#[derive(Clone, Copy)]
pub struct Took {
    pub count: usize,
    pub taken: usize,
    pub opening: Option<[u8; 10]>,
}

// The store between messages.
pub fn between() -> Store
    ensures { result ≡ between }
{
    Store {
        held: [0; 64],
        taken: 0,
    }
}

// How many bytes a message has in all.
pub fn total_of(kind: u8, size: u16) -> u16
    ensures { result ≡ total_of kind size }
{
    match size {
        0 => match kind {
            0..=3 => 2,
            _ => 8194,
        },
        1 => 2,
        _ => size,
    }
}

// Whether some bytes of a host could have left these bytes held and this count of them taken: there are 64 places, those
// not taken are zero, and the message is not finished.
pub fn could_be_left(held: &[u8], taken: usize) -> bool
    ensures { result ≡ could_be_left (record { held = held.now; taken = taken }) }
{
    if held.len() != 64 {
        return false;
    }
    if is_finished(held, taken) {
        return false;
    }
    unused(held, taken)
}

// Takes the host's bytes up to the end of the message, and not past it, where `held` has what was kept of it and `had` were
// taken before. Of a message that is finished already nothing is taken. One that these bytes finish is read where it lies:
// nothing more of it is kept. Of any other those bytes are kept that belong to its first 64. Where there are not 64 places
// nothing is taken.
pub fn take_in(held: &mut [u8], had: usize, host: &[u8]) -> Took
    ensures { (took_says result ≡ took_in (record { held = held.old; taken = had }) host.now)
        × (held.new ≡ held_after (record { held = held.old; taken = had }) host.now) }
{
    if held.len() != 64 {
        return Took {
            count: 0,
            taken: had,
            opening: None,
        };
    }
    let total = total_ahead(held, had, host);
    let missing = total.saturating_sub(had);
    if host.len() < missing {
        wire::copy(host, held, had);
        return Took {
            count: host.len(),
            taken: had + host.len(),
            opening: None,
        };
    }
    // a message that comes whole is the usual one, and none of its bytes is looked for among those held
    if had == 0 {
        return Took {
            count: total,
            taken: total,
            opening: Some(first_ten(host)),
        };
    }
    Took {
        count: missing,
        taken: had + missing,
        opening: Some(opening(held, had, host)),
    }
}

// The first ten of these bytes, zero past their end. The header is read and stored apart from the eight behind it: so what
// is read of them later is never part of two stores, for which a processor waits.
fn first_ten(host: &[u8]) -> [u8; 10]
    ensures { result ≡ first_ten host.now }
{
    let mut ten = [0u8; 10];
    wire::put(&mut ten, 0, 2, wire::number_at(host, 0, 2));
    wire::put(&mut ten, 2, 8, wire::number_at(host, 2, 8));
    ten
}

// The first ten of a message of which `had` bytes are held and the host's come next. (Byte after byte: of two copies the compiler makes
// calls of memset and memcpy. See `wire::copy`.)
fn opening(held: &[u8], had: usize, host: &[u8]) -> [u8; 10]
    requires { length held.now ≡ 64 }
    ensures { result ≡ first_ten (take had held.now ++ host.now) }
{
    let mut ten = [0u8; 10];
    for i in 0..10 {
        ten[i] = byte_of(held, had, host, i);
    }
    ten
}

// One of them, zero past their end.
fn byte_of(held: &[u8], had: usize, host: &[u8], i: usize) -> u8
    requires { (length held.now ≡ 64) × (i < 64) }
    ensures { result ≡ get_or (take had held.now ++ host.now) i 0 }
{
    if i < had {
        return held[i];
    }
    if host.len() <= i - had {
        return 0;
    }
    host[i - had]
}

// The header that two bytes make.
fn header(low: u8, high: u8) -> u16
    ensures { result ≡ low + 256 * high }
{
    low as u16 + 256 * high as u16
}

// The total that a header announces.
fn announced_by(header: u16) -> usize
    ensures { result ≡ announced_by header }
{
    total_of(wire::type_in(header), wire::length_in(header)) as usize
}

// Whether the message is finished of which these bytes are held and `taken` were taken.
fn is_finished(held: &[u8], taken: usize) -> bool
    requires { length held.now ≡ 64 }
    ensures { result ≡ finished (record { held = held.now; taken = taken }) }
{
    if taken < 2 {
        return false;
    }
    announced_by(header(held[0], held[1])) <= taken
}

// The total of a message of which `had` bytes are held and the host's come next: two while they do not make a header.
fn total_ahead(held: &[u8], had: usize, host: &[u8]) -> usize
    requires { length held.now ≡ 64 }
    ensures { result ≡ total_ahead held.now had host.now }
{
    if host.len() < 2usize.saturating_sub(had) {
        return 2;
    }
    match had {
        0 => announced_by(header(host[0], host[1])),
        1 => announced_by(header(held[0], host[0])),
        _ => announced_by(header(held[0], held[1])),
    }
}

// Whether every place from `from` on is zero. Sixteen places are one step of the processor's: so the windows are full ones,
// of which the later may overlap, and only what begins past place 48 is looked at byte by byte.
fn unused(held: &[u8], from: usize) -> bool
    requires { length held.now ≡ 64 }
    ensures { result ≡ zeros (drop from held.now) }
{
    // between messages, at places that the compiler sees
    if from == 0 {
        return (window(held, 0) | window(held, 16) | window(held, 32) | window(held, 48)) == 0;
    }
    if 48 < from {
        return any_of(&held[from.min(64)..]) == 0;
    }
    let second = (from + 16).min(48);
    let third = (from + 32).min(48);
    (window(held, from) | window(held, second) | window(held, third) | window(held, 48)) == 0
}

// The 16 bytes at a place, joined by `or`.
fn window(held: &[u8], at: usize) -> u8
    requires { at + 16 ≤ length held.now }
    ensures { eqb result 0 ≡ zeros (take 16 (drop at held.now)) }
{
    any_of(&held[at..at + 16])
}

// These bytes joined by `or`: zero where all of them are.
fn any_of(bytes: &[u8]) -> u8
    ensures { eqb result 0 ≡ zeros bytes.now }
{
    let mut any = 0;
    for b in bytes {
        any |= *b;
    }
    any
}
