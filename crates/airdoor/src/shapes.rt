// The shape of packets behind a capture head: how they are laid out.
ghost use Rattle.std.specs.Prelude.{◌≡◌};
ghost use Rattle.airdoor.specs.Shapes.{some_head, as_shape, shape_in, shape_over};
ghost use Rattle.airdoor.specs.Inside.{shape_says};

use heads::Head;
use wire::{Refusal, codes};

// The channels of a packet, the bits of a sample, the I/Q pairs of each channel, the numbers in a packet, and its bytes in all.
#[derive(Clone, Copy)]
struct Shape {
    channels: u8,
    bits: u64,
    pairs: u64,
    numbers: usize,
    total: usize,
}

// A head with this mode byte and this size byte. Its other values say nothing of packets.
fn some_head(mode: u8, size: u8) -> Head
    ensures { result ≡ some_head mode size }
{
    Head {
        version: 0,
        divisor: 0,
        frequency: 0,
        mode: mode,
        size: size,
        serial: 0,
        clock: 0,
    }
}

// The shape of packets behind a head.
fn shape_in(h: Head) -> Result<Shape, Refusal>
    ensures { shape_says result ≡ shape_in h }
{
    let form = heads::form_in(h).ok_or(Refusal::ValueNotAllowed)?;
    let channels = heads::channels_in(h);
    Ok(Shape {
        channels,
        bits: form.bits,
        pairs: packets::pairs_each(channels, form).unwrap(),
        numbers: (2 * form.pairs) as usize,
        total: packets::total_of(form).unwrap() as usize,
    })
}

// How packets are laid out behind a head with this mode byte and this size byte: how many channels they hold, the bits of a sample, the
// I/Q pairs of each channel in a packet, the numbers in a packet (I and Q of every channel, which is what cutting takes), and its
// bytes in all. Answers 1; or 16, and leaves zeros, where no head may have these bytes.
#[unsafe(no_mangle)]
pub extern "C" fn skvornela_shape(
    mode: u8,
    size: u8,
    channels: &mut u8,
    bits: &mut u64,
    pairs: &mut u64,
    numbers: &mut usize,
    total: &mut usize,
) -> u8
    ensures { as_shape result channels.new bits.new pairs.new numbers.new total.new
        ≡ shape_over mode size }
{
    match shape_in(some_head(mode, size)) {
        Ok(s) => {
            *channels = s.channels;
            *bits = s.bits;
            *pairs = s.pairs;
            *numbers = s.numbers;
            *total = s.total;
            codes::DONE
        }
        Err(refusal) => {
            *channels = 0;
            *bits = 0;
            *pairs = 0;
            *numbers = 0;
            *total = 0;
            u8::from(refusal)
        }
    }
}
