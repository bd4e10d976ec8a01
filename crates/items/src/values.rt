// The values that the table's last column gives, for the box that sends them and the harvester that reads them. Those of more
// than one byte are numbers, least significant byte first.
ghost use Rattle.std.specs.Prelude.{◌≡◌, [], get_or};
ghost use Rattle.wire.specs.Number.{number};
ghost use Rattle.items.specs.Items.{version_table, is_version, state_bytes};

// 0001: "NetSDR" and a zero byte.
pub const NAME: u64 = 0x00_52_44_53_74_65_4E;

// 0003: 105 in 16 bits.
pub const INTERFACE: u64 = 105;

// 0005: "0B idle, 0C running".
pub const STATUS_IDLE: u64 = 0x0B;

pub const STATUS_RUNNING: u64 = 0x0C;

// 0018: "80 for complex data", and the run byte, 1 idle and 2 run.
pub const COMPLEX: u8 = 0x80;

pub const IDLE: u8 = 1;

pub const RUN: u8 = 2;

// 0018: "80 for complex data, run byte, capture mode, 00", as one number.
pub fn state_number(run: u8, mode: u8) -> u64
    ensures { result ≡ number (state_bytes run mode) }
{
    (mode as u64) << 16 | (run as u64) << 8 | COMPLEX as u64
}

// 0004: "id, then two bytes: 0: 64 00, 1: 6B 00, 2: 66 00, 3: 01 07 (house)".
const VERSIONS: [u64; 4] = [0x0064, 0x006B, 0x0066, 0x0701];

// The two bytes of an id as a number, 0 for another id, which has none.
pub fn version_of(id: u8) -> u64
    ensures { result ≡ number (get_or version_table id []) }
{
    if is_version(id) {
        return VERSIONS[id as usize];
    }
    0
}

// There is a version of this id.
pub fn is_version(id: u8) -> bool
    ensures { result ≡ is_version id }
{
    id < 4
}
