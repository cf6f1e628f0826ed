//! Counters of faults.
ghost use Rattle.iolb_host.specs.Count.{Rose};

/// Counts one more. At its last value a counter stays.
pub(crate) fn raise(count: &mut u64)
    ensures { Rose count.old count.new }
{
    if *count < u64::MAX {
        *count += 1;
    }
}
