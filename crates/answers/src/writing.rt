// What is written: a reply, a range reply or NAK, or nothing where there is no room.
ghost use Rattle.std.specs.Prelude.{◌≡◌, length};
ghost use Rattle.std.proofs.lemmas.List.Edits.{sets};
ghost use Rattle.wire.specs.Codes as Code;
ghost use Rattle.wire.specs.Header.{nak, type_range};
ghost use Rattle.items.specs.Items.{frequency, row_of};
ghost use Rattle.answers.specs.Inside.{count_in, bytes_in, due};

use crate::value;
use items::Settings;
use wire::types;

// Writes the reply to an accepted message at the start of the buffer, and says how much; nothing where there is no room.
pub(crate) fn put_reply(
    kind: u8,
    item: u16,
    echo: u8,
    s: Settings,
    reply: &mut [u8],
) -> Option<usize>
    requires { ((row_of item).code ≡ item) × (kind ≡ type_range → row_of item ≡ frequency) }
    ensures { (result ≡ count_in (length reply.old) (due Code.done kind item echo s))
        × (reply.new ≡ sets reply.old 0 (bytes_in (length reply.old) (due Code.done kind item echo s))) }
{
    if kind == types::RANGE {
        return items::put_range_reply(reply, echo);
    }
    value::reply_layout(s, item, echo).put(reply)
}

// "NAK is the bytes 02 00."
pub(crate) fn put_nak(reply: &mut [u8]) -> Option<usize>
    ensures { (result ≡ count_in (length reply.old) nak)
        × (reply.new ≡ sets reply.old 0 (bytes_in (length reply.old) nak)) }
{
    if reply.len() < 2 {
        return None;
    }
    reply[0] = 0x02;
    reply[1] = 0x00;
    Some(2)
}
