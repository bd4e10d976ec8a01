// The table of items: "Lengths are totals; a dash means not offered (14)."
ghost use Rattle.std.specs.Prelude.{◌≡◌};
ghost use Rattle.wire.specs.Choice.{first_of};
ghost use Rattle.wire.specs.Codes as Code;
ghost use Rattle.wire.specs.Refusal.{code_of};
ghost use Rattle.items.specs.Items.{total, dash};
ghost use Rattle.items.specs.Table.{expected_says, offer_told, table_told, table_checks, offer_for};

use wire::{Refusal, types};

// The item codes, in the table's order. They stay numbers: `expected`, `judge` and `item_in` promise an answer for each of 16 bits.
pub const NAME: u16 = 0x0001;

pub const SERIAL: u16 = 0x0002;

pub const INTERFACE: u16 = 0x0003;

pub const VERSIONS: u16 = 0x0004;

pub const STATUS: u16 = 0x0005;

pub const STATE: u16 = 0x0018;

pub const CHANNEL_SETUP: u16 = 0x0019;

pub const FREQUENCY: u16 = 0x0020;

pub const GAIN: u16 = 0x0038;

pub const CLOCK: u16 = 0x00B0;

pub const RATE: u16 = 0x00B8;

pub const PACKET_SIZE: u16 = 0x00C4;

// The length that an item has for a kind; or that the item is not in the list, or the kind not offered.
#[tactic(auto, unfolding(crate::specs::Items::listed_item, crate::specs::Items::row_of))]
pub fn expected(item: u16, kind: u8) -> Result<u16, Refusal>
    ensures { expected_says result ≡ table_told item kind }
{
    match item {
        NAME => asked(kind, 4),
        SERIAL => asked(kind, 4),
        INTERFACE => asked(kind, 4),
        VERSIONS => asked(kind, 5),
        STATUS => asked(kind, 4),
        STATE => set_or_asked(kind, 8, 4),
        CHANNEL_SETUP => set_or_asked(kind, 5, 4),
        FREQUENCY => match kind {
            types::SET => Ok(10),
            types::REQUEST => Ok(5),
            types::RANGE => Ok(5),
            _ => Err(Refusal::NotOffered),
        },
        GAIN => set_or_asked(kind, 6, 5),
        CLOCK => set_or_asked(kind, 9, 5),
        RATE => set_or_asked(kind, 9, 5),
        PACKET_SIZE => set_or_asked(kind, 5, 4),
        _ => Err(Refusal::NotListed),
    }
}

// The line of an item that can only be requested.
fn asked(kind: u8, request: u16) -> Result<u16, Refusal>
    ensures { expected_says result ≡ offer_told (offer_for dash (total request) dash kind) }
{
    match kind {
        types::REQUEST => Ok(request),
        _ => Err(Refusal::NotOffered),
    }
}

// The line of an item that can be set and requested.
fn set_or_asked(kind: u8, setting: u16, request: u16) -> Result<u16, Refusal>
    ensures { expected_says result ≡ offer_told (offer_for (total setting) (total request) dash kind) }
{
    match kind {
        types::SET => Ok(setting),
        types::REQUEST => Ok(request),
        _ => Err(Refusal::NotOffered),
    }
}

// A message whose item, kind and length the table has; or why not.
pub fn listed(item: u16, kind: u8, size: u16) -> Result<(), Refusal>
    ensures { code_of result ≡ first_of (table_checks item kind size) Code.done }
{
    if size != expected(item, kind)? {
        return Err(Refusal::WrongLength);
    }
    Ok(())
}
