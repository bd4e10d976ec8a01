// Writing a head.
ghost use Rattle.std.specs.Prelude.{◌≡◌, true, ◌++◌, ◌≤◌, length};
ghost use Rattle.std.proofs.lemmas.List.Edits.{sets};
ghost use Rattle.wire.specs.Number.{bytes};
ghost use Rattle.wire.specs.Refusal.{code_of};
ghost use Rattle.heads.specs.Head.{fields_of, field_bytes, head_length, is_head_version, head_bytes};
ghost use Rattle.heads.specs.Head.{head_write_code, written_bytes};

use crate::Head;
use crate::allowed::{head_length, is_allowed};
use wire::Refusal;

// SPN, the first character in the low byte.
pub(crate) const MARK: u64 = 0x4E_50_53;

// The 14 bytes that both versions have: mark, version, D and the frequency's first byte as one number, which is one store of the
// processor's. The slice's length is one that the compiler sees, so that no store is tested.
fn put_first(h: Head, out: &mut [u8])
    ensures { out.new ≡ sets out.old 0 (field_bytes 1 (fields_of h)) }
{
    let marked = MARK + 16_777_216 * (h.version as u64 % 65_536);
    let tuned = h.divisor as u64 % 65_536 + 65_536 * (h.frequency % 256);
    wire::put(out, 0, 8, marked + 1_099_511_627_776 * tuned);
    wire::put(out, 8, 4, h.frequency / 256);
    wire::put(out, 12, 1, h.mode as u64);
    wire::put(out, 13, 1, h.size as u64);
}

// The 12 bytes that version 2 adds.
fn put_rest(serial: u64, clock: u32, out: &mut [u8])
    ensures { out.new ≡ sets out.old 0 (bytes 8 serial ++ bytes 4 clock) }
{
    wire::put(out, 0, 8, serial);
    wire::put(out, 8, 4, clock as u64);
}

// A head at the start of a slice that has room for it.
pub(crate) fn put_head(h: Head, out: &mut [u8])
    requires { (is_head_version h.version ≡ true) × (head_length h.version ≤ length out.old) }
    ensures { out.new ≡ sets out.old 0 (head_bytes h) }
{
    put_first(h, &mut out[..14]);
    if h.version == 2 {
        put_rest(h.serial, h.clock, &mut out[14..26]);
    }
}

// Writes a head at the start of a slice. It refuses a value that is not allowed, and then a slice that is shorter than the head.
pub fn write_head(h: Head, out: &mut [u8]) -> Result<(), Refusal>
    ensures code { code_of result ≡ head_write_code h (length out.old) }
    ensures bytes { out.new ≡ sets out.old 0 (written_bytes h (length out.old)) }
{
    if !is_allowed(h) {
        return Err(Refusal::ValueNotAllowed);
    }
    if out.len() < head_length(h.version) {
        return Err(Refusal::NoRoom);
    }
    put_head(h, out);
    Ok(())
}
