// Tests that document 01 makes of numbers everywhere.
ghost use Rattle.std.specs.Prelude.{◌≡◌};
ghost use Rattle.wire.specs.Choice.{within};

// low ≤ n ≤ high
pub fn within(low: u64, high: u64, n: u64) -> bool
    ensures { result ≡ within low high n }
{
    if n < low {
        return false;
    }
    n <= high
}
