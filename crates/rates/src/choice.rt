// Which D is taken for a rate asked for.
ghost use Rattle.std.specs.Prelude.{◌≡◌, Some, None};
ghost use Rattle.wire.specs.Choice.{pick};
ghost use Rattle.rates.specs.Rate.{may_ask, nearest_of};

// The rate may be asked for: it lies in 32,000 to 2,000,000.
pub fn may_ask(rate: u32) -> bool
    ensures { result ≡ may_ask rate }
{
    wire::within(32_000, 2_000_000, rate as u64)
}

// The D with the nearest exact rate, and none for a rate that may not be asked for. The exact rates next to the one asked for
// are those of d = 20,000,000 / rate, cut off, and of d + 1. The first lies above / d higher, the second below / (d + 1)
// lower; rounding the quotient instead would compare 1 / rate, and take 10 for 1,907,000.
pub fn nearest(rate: u32) -> Option<u32>
    ensures { result ≡ pick (may_ask rate) (Some (nearest_of rate)) None }
{
    if !may_ask(rate) {
        return None;
    }
    let d = 20_000_000 / rate;
    let above = 20_000_000 % rate;
    let below = rate - above;
    if above * (d + 1) < below * d {
        return Some(d);
    }
    Some(d + 1)
}
