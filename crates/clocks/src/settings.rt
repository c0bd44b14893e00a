// The most that each setting, and a sum of times, can be.
ghost use Rattle.std.specs.Prelude.{◌≡◌, min};

pub(crate) const MOST_MAIN: u32 = 86_400_000;

pub(crate) const MOST_PERIODS: u32 = 100;

pub(crate) const MOST_EXTRA: u32 = 600_000;

pub(crate) const MOST_TIME: u32 = 1_000_000_000;

// A sum of times, stopped at the most.
pub(crate) fn capped(sum: u32) -> u32
    ensures { result ≡ min sum 1000000000 }
{
    sum.min(MOST_TIME)
}
