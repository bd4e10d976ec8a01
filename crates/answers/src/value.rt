// The reply that shows an item's current value.
ghost use Rattle.std.specs.Prelude.{◌≡◌, [], ◌∷◌, ◌++◌, length};
ghost use Rattle.wire.specs.Choice.{pick};
ghost use Rattle.wire.specs.Number.{bytes};
ghost use Rattle.wire.specs.Header.{type_reply};
ghost use Rattle.layouts.specs.Layouts.{laid};
ghost use Rattle.items.specs.Items.{achieved_rate, status_byte, versions, idle, run, state_bytes, row_of};
ghost use Rattle.items.specs.Settings.{fresh_of};
ghost use Rattle.items.specs.Answer.{framed, reply_body};
ghost use Rattle.answers.specs.Inside.{replying};

use items::{Settings, table, values};
use layouts::Layout;
use wire::types;

// The reply for an item with its current value, and the channel byte or id that it echoes. What is no item has an empty
// value.
pub(crate) fn reply_layout(s: Settings, item: u16, echo: u8) -> Layout
    requires { (row_of item).code ≡ item }
    ensures { laid result ≡ framed type_reply (reply_body (row_of item) s (echo ∷ [])) }
{
    match item {
        table::NAME => reply(item, None, 7, values::NAME),
        table::SERIAL => {
            let serial = s.serial;
            reply(item, None, 9, serial_value(&serial))
        }
        table::INTERFACE => reply(item, None, 2, values::INTERFACE),
        table::VERSIONS => version(echo),
        table::STATUS => reply(item, None, 1, status_value(s.running)),
        table::STATE => reply(item, None, 4, state_value(s.running, s.mode)),
        table::CHANNEL_SETUP => reply(item, None, 1, s.setup as u64),
        table::FREQUENCY => reply(item, Some(echo), 5, channels::channel_at(s, echo).frequency),
        table::GAIN => reply(
            item,
            Some(echo),
            1,
            channels::channel_at(s, echo).gain as u64,
        ),
        table::CLOCK => reply(item, Some(echo), 4, s.clock as u64),
        table::RATE => reply(item, Some(echo), 4, achieved(s.divisor) as u64),
        table::PACKET_SIZE => reply(item, None, 1, s.size as u64),
        _ => reply(item, None, 0, 0),
    }
}

// The achieved rate of a D; a divisor that is none has no rate.
fn achieved(divisor: u32) -> u32
    ensures { result ≡ achieved_rate divisor }
{
    rates::achieved(divisor).unwrap_or(0)
}

// A reply for an item, with the byte that it echoes, where there is one, and a value in so many bytes.
fn reply(item: u16, echo: Option<u8>, width: u8, value: u64) -> Layout
    ensures { result ≡ replying item echo width value }
{
    Layout {
        kind: types::REPLY,
        item,
        echo,
        width,
        value,
    }
}

// The id, then its two bytes; what is no version has none.
fn version(id: u8) -> Layout
    ensures { laid result ≡ framed type_reply (reply_body versions (fresh_of []) (id ∷ [])) }
{
    if values::is_version(id) {
        return reply(table::VERSIONS, Some(id), 2, values::version_of(id));
    }
    reply(table::VERSIONS, Some(id), 0, 0)
}

// "0B idle, 0C running"
fn status_value(running: bool) -> u64
    ensures { result ≡ status_byte running }
{
    if running {
        values::STATUS_RUNNING
    } else {
        values::STATUS_IDLE
    }
}

// "Replies hold 80, run byte, mode, 00 (house)."
fn state_value(running: bool, mode: u8) -> u64
    ensures { bytes 4 result ≡ state_bytes (pick running run idle) mode }
{
    if running {
        return values::state_number(values::RUN, mode);
    }
    values::state_number(values::IDLE, mode)
}

// "eight characters and a zero byte"
fn serial_value(serial: &[u8]) -> u64
    requires { length serial.now ≡ 8 }
    ensures { bytes 9 result ≡ serial.now ++ 0x00 ∷ [] }
{
    wire::number_at(serial, 0, 8)
}
