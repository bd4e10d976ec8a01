// The mode byte and the length of a capture head.
ghost use Rattle.std.specs.Prelude.{◌≡◌, ◌&&◌, true, length};
ghost use Rattle.items.specs.Settings.{is_mode, is_setup, open_channels};
ghost use Rattle.airdoor.specs.Heading.{head_mode_over, head_length_over};

use items::ranges;
use wire::{Refusal, codes};

// Whether a box can be in this capture mode with this channel setup.
fn is_allowed(mode: u8, setup: u8) -> bool
    ensures { result ≡ (is_mode mode && is_setup setup) }
{
    ranges::is_mode(mode) & ranges::is_setup(setup as u16)
}

// How many channels a box's packets hold, by its channel setup: 02 is open beside 00, or closed.
fn channels_with(setup: u8) -> u8
    ensures { result ≡ length (open_channels setup) }
{
    if channels::is_open(setup as u16, channels::SECOND) {
        return 2;
    }
    1
}

// The mode byte that a head has for captures of a box in this capture mode and channel setup. Answers 1 and leaves it; or 16, and
// leaves 0, where a box cannot have the mode or the setup.
#[unsafe(no_mangle)]
pub extern "C" fn skvornela_head_mode(mode: u8, setup: u8, byte: &mut u8) -> u8
    ensures { record { code = result; byte = byte.new } ≡ head_mode_over mode setup }
{
    if is_allowed(mode, setup) {
        *byte = heads::mode_with(mode, channels_with(setup));
        return codes::DONE;
    }
    *byte = 0;
    Refusal::ValueNotAllowed as u8
}

// How many bytes a head of a version has, 0 where there is no such version.
#[unsafe(no_mangle)]
pub extern "C" fn skvornela_head_length(version: u32) -> usize
    ensures { result ≡ head_length_over version }
{
    if heads::is_head_version(version) {
        return heads::head_length(version);
    }
    0
}
