// The range reply: 0020 has "the only range request". The box writes it, and the harvester writes it to recognise it.
ghost use Rattle.std.specs.Prelude.{◌≡◌, [], ◌∷◌, ltb, length};
ghost use Rattle.std.proofs.lemmas.List.Edits.{sets};
ghost use Rattle.wire.specs.Choice.{pick};
ghost use Rattle.wire.specs.Header.{type_range_reply};
ghost use Rattle.items.specs.Items.{frequency};
ghost use Rattle.items.specs.Answer.{framed, range_body};

use crate::table;
use wire::types;

// Header and item code of two bytes each, the channel byte, the count of bands, and the bands.
const LENGTH: usize = 36;

// Writes the range reply for a channel byte at the start of the slice, and says how long it is; or nothing, where it does
// not fit. "The range reply gives channel, 02, then minimum, maximum, oscillator of each in five bytes."
pub fn put_range_reply(dst: &mut [u8], channel: u8) -> Option<usize>
    ensures { (result ≡ pick (ltb (length dst.old) 36) None (Some 36))
        × (dst.new
        ≡ sets dst.old 0
        (pick (ltb (length dst.old) 36) [] (framed type_range_reply (range_body frequency (channel ∷ []))))) }
{
    if dst.len() < LENGTH {
        return None;
    }
    let header = wire::header_of(types::RANGE_REPLY, LENGTH as u16);
    wire::put(dst, 0, 2, header as u64);
    wire::put(dst, 2, 2, table::FREQUENCY as u64);
    dst[4] = channel;
    dst[5] = 0x02;
    tuning::put_range(dst, 6);
    Some(LENGTH)
}
