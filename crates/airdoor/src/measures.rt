// The D of a rate, the length of a message, the end time of samples.
ghost use Rattle.std.specs.Prelude.{◌≡◌};
ghost use Rattle.rates.specs.Table.{d_of};
ghost use Rattle.lines.specs.Timing.{timing_of};
ghost use Rattle.airdoor.specs.Measures.{message_over};

// The D whose achieved rate is exactly this one, 0 where there is none.
#[unsafe(no_mangle)]
pub extern "C" fn skvornela_divisor(rate: u32) -> u32
    ensures { result ≡ d_of rate }
{
    rates::d_of(rate).unwrap_or(0)
}

// How many bytes the message has in all that begins with these bytes; 0 while there are not two, its header.
#[unsafe(no_mangle)]
pub extern "C" fn skvornela_message(bytes: &[u8]) -> usize
    ensures { result ≡ message_over bytes.now }
{
    if bytes.len() < 2 {
        return 0;
    }
    let header = wire::number_at(bytes, 0, 2) as u16;
    framing::total_of(wire::type_in(header), wire::length_in(header)) as usize
}

// How long so many samples of a channel last at a D and a clock, in microseconds rounded down. Answers 1 and leaves them; or 16, and leaves
// 0, where no capture has so many samples, or no box this D or this clock.
#[unsafe(no_mangle)]
pub extern "C" fn skvornela_end_time(
    samples: u64,
    divisor: u32,
    clock: u32,
    microseconds: &mut u64,
) -> u8
    ensures { record { code = result; microseconds = microseconds.new } ≡ timing_of samples divisor clock }
{
    let t = lines::time_of(samples, divisor, clock);
    *microseconds = t.unwrap_or(0);
    wire::code_of(t)
}
