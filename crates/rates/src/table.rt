// The D from 10 to 625, and their achieved rates.
ghost use Rattle.std.specs.Prelude.{◌≡◌, ltb, Some, None};
ghost use Rattle.wire.specs.Choice.{pick};
ghost use Rattle.rates.specs.Rate.{is_d, rate_of};
ghost use Rattle.rates.specs.Table.{d_of};

use crate::choice::nearest;
use crate::entries::RATES;

// The number is one of the whole D from 10 to 625.
pub fn is_d(d: u32) -> bool
    ensures { result ≡ is_d d }
{
    wire::within(10, 625, d as u64)
}

// The achieved rate of a D, and none for every other number.
pub fn achieved(d: u32) -> Option<u32>
    ensures { result ≡ pick (is_d d) (Some (rate_of d)) None }
{
    if !is_d(d) {
        return None;
    }
    // the place is D less ten
    Some(RATES[(d - 10) as usize])
}

// The D whose achieved rate is exactly this one, and none where there is none. No other than the nearest can be it.
pub fn d_of(rate: u32) -> Option<u32>
    ensures { result ≡ pick (ltb 0 (d_of rate)) (Some (d_of rate)) None }
{
    let d = nearest(rate)?;
    (achieved(d)? == rate).then_some(d)
}
