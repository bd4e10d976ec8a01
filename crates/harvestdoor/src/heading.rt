// Capture heads.
ghost use Rattle.std.specs.Prelude.{◌≡◌, length};
ghost use Rattle.std.proofs.lemmas.List.Edits.{sets};
ghost use Rattle.heads.specs.Head.{head_write_code, written_bytes};
ghost use Rattle.heads.specs.Moving.{moving_code, move_writes};
ghost use Rattle.harvestdoor.specs.Heads.{head_with, found_in};

use heads::Head;

// What stands in the place of a head that was not found.
const NO_HEAD: Head = Head {
    version: 0,
    divisor: 0,
    frequency: 0,
    mode: 0,
    size: 0,
    serial: 0,
    clock: 0,
};

// Writes a capture head at the start of a slice: of version 1 the serial is 0 and the clock 80,000,000. Answers the code.
#[unsafe(no_mangle)]
pub extern "C" fn skvornela_head_write(
    version: u32,
    divisor: u32,
    frequency: u64,
    mode: u8,
    size: u8,
    serial: u64,
    clock: u32,
    out: &mut [u8],
) -> u8
    ensures { (result ≡ head_write_code (head_with version divisor frequency mode size serial clock) (length out.old))
        × (out.new
        ≡ sets out.old 0
        (written_bytes (head_with version divisor frequency mode size serial clock) (length out.old))) }
{
    let h = Head {
        version: version,
        divisor: divisor,
        frequency: frequency,
        mode: mode,
        size: size,
        serial: serial,
        clock: clock,
    };
    wire::code_of(heads::write_head(h, out))
}

// Reads a capture head from the first 14 or 26 bytes of a slice. Answers the code, and leaves the head's values, or zeros where it
// refuses.
#[unsafe(no_mangle)]
pub extern "C" fn skvornela_head_read(
    bytes: &[u8],
    version: &mut u32,
    divisor: &mut u32,
    frequency: &mut u64,
    mode: &mut u8,
    size: &mut u8,
    serial: &mut u64,
    clock: &mut u32,
) -> u8
    ensures { record {
      code = result;
      head = head_with version.new divisor.new frequency.new mode.new size.new
          serial.new clock.new;
    }
        ≡ found_in bytes.now }
{
    let answer = heads::read_head(bytes);
    let head = answer.unwrap_or(NO_HEAD);
    *version = head.version;
    *divisor = head.divisor;
    *frequency = head.frequency;
    *mode = head.mode;
    *size = head.size;
    *serial = head.serial;
    *clock = head.clock;
    wire::code_of(answer)
}

// Moves the capture head that a slice begins with to version 2, at the start of another. Answers the code.
#[unsafe(no_mangle)]
pub extern "C" fn skvornela_head_newer(bytes: &[u8], out: &mut [u8]) -> u8
    ensures { (result ≡ moving_code 2 bytes.now (length out.old))
        × (out.new ≡ sets out.old 0 (move_writes 2 bytes.now (length out.old))) }
{
    wire::code_of(heads::newer(bytes, out))
}

// The same to version 1.
#[unsafe(no_mangle)]
pub extern "C" fn skvornela_head_older(bytes: &[u8], out: &mut [u8]) -> u8
    ensures { (result ≡ moving_code 1 bytes.now (length out.old))
        × (out.new ≡ sets out.old 0 (move_writes 1 bytes.now (length out.old))) }
{
    wire::code_of(heads::older(bytes, out))
}
