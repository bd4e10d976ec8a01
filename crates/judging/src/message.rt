// What one finished message does: the settings after it, or why it is not obeyed.
ghost use Rattle.std.specs.Prelude.{◌≡◌, ◌≤◌, length};
ghost use Rattle.wire.specs.Number.{field};
ghost use Rattle.wire.specs.Refusal.{code_of};
ghost use Rattle.items.specs.Settings.{single};
ghost use Rattle.items.specs.Items.{versions, frequency, row_of};
ghost use Rattle.items.specs.Answer.{judged_of};
ghost use Rattle.judging.specs.Inside.{asked_by};
ghost use Rattle.judging.specs.Says.{judged_says};

use crate::sets;
use items::{Settings, header, table, values};
use wire::{Refusal, types};

// The settings after a finished message of a type and a length, none where no reply is due; or its refusal. `opening` is its first
// ten bytes; what lies behind a shorter one does not decide. "Codes 10 to 17 stand in order of checking (11 first)."
pub fn judge(
    s: Settings,
    kind: u8,
    size: u16,
    opening: &[u8; 10],
) -> Result<Option<Settings>, Refusal>
    ensures { judged_says s result ≡ judged_of s (record { type = kind; size = size; bytes = opening.now }) }
{
    let message = &opening[..];
    if !header::reply_due(kind, size, message[2])? {
        return Ok(None);
    }
    let item = item_in(message);
    table::listed(item, kind, size)?;
    let parameters = &message[4..];
    if kind == types::SET {
        return Ok(Some(sets::set_item(s, item, parameters)?));
    }
    asked(s.setup, item, parameters)?;
    Ok(Some(s))
}

// "Control messages have a 16-bit item code after the header".
pub fn item_in(message: &[u8]) -> u16
    ensures { result ≡ field 2 2 message.now }
{
    wire::number_at(message, 2, 2) as u16
}

// A request or a range request, by 0019's value: the channel of frequency and gain is open (15), and there are versions 0 to 3 (16).
#[tactic(auto, unfolding(items::specs::Items::row_of))]
fn asked(setup: u16, item: u16, p: &[u8]) -> Result<(), Refusal>
    requires { 1 ≤ length p.now }
    ensures { code_of result ≡ asked_by setup (row_of item) p.now }
{
    match item {
        table::VERSIONS => asked_version(p),
        table::FREQUENCY | table::GAIN => asked_channel(setup, p),
        _ => Ok(()),
    }
}

// Versions: id 0 to 3; "other id 16".
fn asked_version(p: &[u8]) -> Result<(), Refusal>
    requires { 1 ≤ length p.now }
    ensures { code_of result ≡ asked_by single versions p.now }
{
    if values::is_version(p[0]) {
        return Ok(());
    }
    Err(Refusal::ValueNotAllowed)
}

// "Channel for 0020 and 0038: 00"; "channel 02 with value 0 is 15".
fn asked_channel(setup: u16, p: &[u8]) -> Result<(), Refusal>
    requires { 1 ≤ length p.now }
    ensures { code_of result ≡ asked_by setup frequency p.now }
{
    if channels::is_open(setup, p[0]) {
        return Ok(());
    }
    Err(Refusal::ChannelNotAllowed)
}
