// Counting faults.
ghost use Rattle.std.specs.Prelude.{◌≡◌, ◌≤◌, ◌+◌};
ghost use Rattle.zb_disk.specs.declared.disk.Trouble.TheVariants.{Failed};
ghost use Rattle.zb_disk.specs.Cause.{Rose};

use crate::disk::Trouble;

/// Counts a fault, and gives the trouble to tell.
pub fn count_fault(faults: &mut u64) -> Trouble
    ensures result { result ≡ Failed }
    ensures later { faults.old ≤ faults.new }
    ensures by_one { faults.new ≤ faults.old + 1 }
    ensures rose { Rose faults.old faults.new }
{
    *faults = faults.saturating_add(1);
    Trouble::Failed
}
