// A reader in lent bytes.
ghost use Rattle.std.specs.Prelude.{◌≡◌, length};
ghost use Rattle.harvestdoor.specs.States.{reader_in, reader_bytes};
ghost use Rattle.harvestdoor.specs.Inside.{next_bytes};

use packets::Form;
use reader::Reader;

// Where the fields of a reader begin: position 8, bits 8, pairs 8, total 8, heard 1, channels 1.
const POSITION: usize = 0;

const BITS: usize = 8;

const PAIRS: usize = 16;

const TOTAL: usize = 24;

const HEARD: usize = 32;

const CHANNELS: usize = 33;

// How many bytes it is in all.
pub(crate) const LENGTH: usize = 34;

// The reader in 34 bytes.
pub(crate) fn reader_in(b: &[u8]) -> Reader
    requires { length b.now ≡ 34 }
    ensures { result ≡ reader_in b.now }
{
    Reader {
        heard: b[HEARD] != 0,
        channels: b[CHANNELS],
        position: wire::number_at(b, POSITION, 8),
        total: wire::number_at(b, TOTAL, 8),
        form: Form {
            bits: wire::number_at(b, BITS, 8),
            pairs: wire::number_at(b, PAIRS, 8),
        },
    }
}

// Stores what a packet changes of a reader in 34 bytes that has heard one before: its position and its total. Its flag, which may have
// come as any number but 0, is stored as 1.
pub(crate) fn put_next(b: &mut [u8], position: u64, total: u64)
    requires { length b.old ≡ 34 }
    ensures { b.new ≡ next_bytes position total b.old }
{
    wire::put(b, POSITION, 8, position);
    wire::put(b, TOTAL, 8, total);
    wire::put(b, HEARD, 1, 1);
}

// Stores a reader in 34 bytes.
pub(crate) fn put_reader(b: &mut [u8], r: Reader)
    requires { length b.old ≡ 34 }
    ensures { b.new ≡ reader_bytes r }
{
    let form = r.form;
    wire::put(b, POSITION, 8, r.position);
    wire::put(b, BITS, 8, form.bits);
    wire::put(b, PAIRS, 8, form.pairs);
    wire::put(b, TOTAL, 8, r.total);
    wire::put(b, HEARD, 1, r.heard as u64);
    wire::put(b, CHANNELS, 1, r.channels as u64);
}
