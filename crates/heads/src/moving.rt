// Moving a head to another version.
ghost use Rattle.std.specs.Prelude.{◌≡◌, true, length};
ghost use Rattle.std.proofs.lemmas.List.Edits.{sets};
ghost use Rattle.heads.specs.Head.{is_head_version};
ghost use Rattle.wire.specs.Refusal.{code_of};
ghost use Rattle.heads.specs.Moving.{moved_to, loses, moving_code, move_writes};
ghost use Rattle.heads.specs.Inside.{put_code, put_bytes};

use crate::Head;
use crate::allowed::{head_length, is_bare};
use crate::reading::read_head;
use crate::writing::put_head;
use wire::Refusal;

// The head that says the same in another version.
fn moved_to(version: u32, h: Head) -> Head
    ensures { result ≡ moved_to version h }
{
    Head { version, ..h }
}

// Whether a head would lose its serial or its clock.
fn would_lose(version: u32, h: Head) -> bool
    ensures { result ≡ loses version h }
{
    (version == 1) & !is_bare(h)
}

// A head that was read, in another version.
fn put_moved(version: u32, h: Head, out: &mut [u8]) -> Result<(), Refusal>
    requires { is_head_version version ≡ true }
    ensures code { code_of result ≡ put_code version h (length out.old) }
    ensures bytes { out.new ≡ sets out.old 0 (put_bytes version h (length out.old)) }
{
    if would_lose(version, h) {
        return Err(Refusal::WouldLose);
    }
    if out.len() < head_length(version) {
        return Err(Refusal::NoRoom);
    }
    put_head(moved_to(version, h), out);
    Ok(())
}

fn move_to(version: u32, s: &[u8], out: &mut [u8]) -> Result<(), Refusal>
    requires { is_head_version version ≡ true }
    ensures code { code_of result ≡ moving_code version s.now (length out.old) }
    ensures bytes { out.new ≡ sets out.old 0 (move_writes version s.now (length out.old)) }
{
    let h = read_head(s)?;
    put_moved(version, h, out)
}

// Moves the head that bytes begin with to version 2, at the start of a slice. Of version 1 serial and clock are unknown and
// 80,000,000 there. It refuses what reading refuses, and then a slice under 26 bytes.
pub fn newer(s: &[u8], out: &mut [u8]) -> Result<(), Refusal>
    ensures code { code_of result ≡ moving_code 2 s.now (length out.old) }
    ensures bytes { out.new ≡ sets out.old 0 (move_writes 2 s.now (length out.old)) }
{
    move_to(2, s, out)
}

// Moves it back to version 1. It refuses what reading refuses, then a head that would lose its serial or its clock, and then a
// slice under 14 bytes.
pub fn older(s: &[u8], out: &mut [u8]) -> Result<(), Refusal>
    ensures code { code_of result ≡ moving_code 1 s.now (length out.old) }
    ensures bytes { out.new ≡ sets out.old 0 (move_writes 1 s.now (length out.old)) }
{
    move_to(1, s, out)
}
