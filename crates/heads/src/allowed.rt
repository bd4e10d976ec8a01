// The values that a head may have.
ghost use Rattle.std.specs.Prelude.{◌≡◌, ◌&&◌};
ghost use Rattle.tuning.specs.Word.{is_clock};
ghost use Rattle.packets.specs.Forms.{found};
ghost use Rattle.heads.specs.Head.{is_head_version, head_length, channels_in, box_mode, mode_with, form_in};
ghost use Rattle.heads.specs.Head.{head_serial, bare, allowed_head};
ghost use Rattle.heads.specs.Inside.{first_allowed};

use crate::Head;
use packets::Form;

// The clock of a head that names none.
pub const NOMINAL: u32 = 80_000_000;

// Whether there is such a version: 1 or 2.
pub fn is_head_version(version: u32) -> bool
    ensures { result ≡ is_head_version version }
{
    (version == 1) | (version == 2)
}

// How many bytes a head of a version has; of a version that there is not, as many as are looked at.
pub fn head_length(version: u32) -> usize
    ensures { result ≡ head_length version }
{
    if version == 2 {
        return 26;
    }
    14
}

// How many channels a capture's packets hold, by its head: bit 6 of the mode byte is set for two.
pub fn channels_in(h: Head) -> u8
    ensures { result ≡ channels_in h }
{
    1 + h.mode / 0x40 % 2
}

// The mode byte without bit 6.
fn box_mode(mode: u8) -> u8
    ensures { result ≡ box_mode mode }
{
    0x80 * (mode / 0x80) + mode % 0x40
}

// The mode byte of a head, from a box's mode and how many channels its packets hold: bit 6 is set for two, and for no other number.
pub fn mode_with(mode: u8, channels: u8) -> u8
    ensures { result ≡ mode_with mode channels }
{
    if channels == 2 {
        return box_mode(mode) + 0x40;
    }
    box_mode(mode)
}

// The packet form that a head announces; none where its mode or its size is none of the table's.
pub fn form_in(h: Head) -> Option<Form>
    ensures { result ≡ found (form_in h) }
{
    packets::form_for(box_mode(h.mode), h.size)
}

// A serial that a head may have: eight of A-Z, 0-9, or none.
fn is_head_serial(n: u64) -> bool
    ensures { result ≡ head_serial n }
{
    (n == 0) | items::ranges::is_serial(n)
}

// Whether a head names neither its box nor another clock than 80,000,000.
pub(crate) fn is_bare(h: Head) -> bool
    ensures { result ≡ bare h }
{
    (h.serial == 0) & (h.clock == NOMINAL)
}

// Whether the values are allowed that both versions have: mode and size are those of a listed form, whatever bit 6 is.
pub(crate) fn first_allowed(h: Head) -> bool
    ensures { result ≡ first_allowed h.version h.divisor h.frequency h.mode h.size }
{
    is_head_version(h.version)
        & rates::is_d(h.divisor)
        & tuning::in_bands(h.frequency)
        & items::ranges::is_mode(box_mode(h.mode))
        & items::ranges::is_size(h.size as u32)
}

// Whether serial and clock are such as version 2 may have.
pub(crate) fn names_well(serial: u64, clock: u32) -> bool
    ensures { result ≡ (head_serial serial && is_clock clock) }
{
    is_head_serial(serial) & tuning::is_clock(clock)
}

// Whether each value of a head is allowed.
pub fn is_allowed(h: Head) -> bool
    ensures { result ≡ allowed_head h }
{
    if !first_allowed(h) {
        return false;
    }
    if h.version == 2 {
        return names_well(h.serial, h.clock);
    }
    is_bare(h)
}
