// Counts of faults.
ghost use Rattle.std.specs.Prelude.{◌≡◌, ◌≤◌};
ghost use Rattle.stair_rack.specs.Count.{Rose, one_more};

// The count after one more fault: it stands still at `u64::MAX`.
pub(crate) fn raised(count: u64) -> u64
    ensures value { result ≡ one_more count }
    ensures rose { Rose count result }
    ensures kept { count ≤ result }
{
    count.saturating_add(1)
}
