// The words of the command, as std has them.
ghost use Rattle.std.specs.Prelude.{◌≡◌, ◌≤◌, take};

use std::env::FillError;
use std::rt::Env;

// How many there are, the program's own name among them.
pub(crate) fn count_of(rt: &impl Env) -> usize {
    (0..usize::MAX)
        .find(|&i| !is_there(rt, i))
        .unwrap_or(usize::MAX)
}

// A word that has no room is there too.
fn is_there(rt: &impl Env, i: usize) -> bool {
    let mut word = [0u8; 32];
    match rt.arg(i, &mut word) {
        Err(FillError::NotPresent) => false,
        _ => true,
    }
}

// A word, in a buffer of 32 bytes, since nothing is allocated. One that is missing counts as empty, and so does one of more than 32
// bytes: it is none of those allowed, and an empty one is none either.
#[derive(Drop)]
pub(crate) struct Word {
    bytes: [u8; 32],
    long: usize,
    ghost inside: { long ≤ 32 },
}

impl Word {
    fn at(rt: &impl Env, i: usize) -> Word {
        let mut bytes = [0u8; 32];
        let long = rt.arg(i, &mut bytes).unwrap_or(0);
        Word { bytes, long }
    }

    pub(crate) fn as_slice(&self) -> &[u8]
        ensures { result.now ≡ take self.now.long self.now.bytes }
    {
        &self.bytes[..self.long]
    }
}

// Those behind the program's name. Of four the last two are missing.
#[derive(Drop)]
pub(crate) struct Words {
    pub d: Word,
    pub hz: Word,
    pub bits: Word,
    pub size: Word,
    pub serial: Word,
    pub clock: Word,
}

impl Words {
    pub(crate) fn of(rt: &impl Env) -> Words {
        Words {
            d: Word::at(rt, 1),
            hz: Word::at(rt, 2),
            bits: Word::at(rt, 3),
            size: Word::at(rt, 4),
            serial: Word::at(rt, 5),
            clock: Word::at(rt, 6),
        }
    }
}
