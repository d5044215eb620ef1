//! Counts of calls, which stay at their last value.

ghost use Rattle.std.specs.Prelude.{◌≡◌};
ghost use Rattle.edge_traits.specs.Devices.{next, next_if};

/// A count one higher.
pub fn one_more(count: u64) -> u64
    ensures { result ≡ next count }
{
    count.saturating_add(1)
}

/// A count one higher, where this one counts.
pub fn one_more_if(counts: bool, count: u64) -> u64
    ensures { result ≡ next_if counts count }
{
    if counts { one_more(count) } else { count }
}
