// What the header of a finished message decides, before its item is looked at.
ghost use Rattle.std.specs.Prelude.{◌≡◌, ◌≤◌};
ghost use Rattle.wire.specs.Choice.{first_of};
ghost use Rattle.wire.specs.Codes as Code;
ghost use Rattle.wire.specs.Header.{type_acknowledgement, type_data};
ghost use Rattle.items.specs.Header.{header_checks, due_says};

use wire::{Refusal, types};

// Whether a reply is due for a message with this header; or that its header is bad, or the message too long.
// `named` is the message's third byte: the item that an acknowledgement names.
pub fn reply_due(kind: u8, size: u16, named: u8) -> Result<bool, Refusal>
    ensures { due_says result ≡ first_of (header_checks kind size named) Code.done }
{
    match kind {
        types::SET..=types::RANGE => control_due(kind, size),
        types::ACKNOWLEDGEMENT => acknowledgement_due(size, named),
        _ => data_due(size),
    }
}

// A set, a request or a range request.
fn control_due(kind: u8, size: u16) -> Result<bool, Refusal>
    requires { kind ≤ 2 }
    ensures { due_says result ≡ first_of (header_checks kind size 0) Code.done }
{
    match size {
        0 | 1 => Err(Refusal::BadHeader),
        2 => match kind {
            types::SET => Ok(false),
            _ => Err(Refusal::BadHeader),
        },
        3 => Err(Refusal::BadHeader),
        4..=64 => Ok(true),
        _ => Err(Refusal::TooLong),
    }
}

// An acknowledgement: of length 3 and naming item 0 to 3, or a bad header.
fn acknowledgement_due(size: u16, named: u8) -> Result<bool, Refusal>
    ensures { due_says result ≡ first_of (header_checks type_acknowledgement size named) Code.done }
{
    match size {
        3 => match named {
            0..=3 => Ok(false),
            _ => Err(Refusal::BadHeader),
        },
        _ => Err(Refusal::BadHeader),
    }
}

// A data item: "of every length but 1" it is unanswered.
fn data_due(size: u16) -> Result<bool, Refusal>
    ensures { due_says result ≡ first_of (header_checks type_data size 0) Code.done }
{
    match size {
        1 => Err(Refusal::BadHeader),
        _ => Ok(false),
    }
}
