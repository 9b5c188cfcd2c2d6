ghost use Rattle.std.specs.Prelude.{◌≡◌, ◌≤◌};
ghost use Rattle.lr_base.specs.Counts.{raised};
ghost use Rattle.lr_base.specs.Outside.{Rose};

use crate::errors::Failed;

/// Counts a call that failed.
pub fn fail(faults: &mut u64) -> Failed
    ensures count { faults.new ≡ raised faults.old }
    ensures later { faults.old ≤ faults.new }
    ensures rose { Rose faults.old faults.new }
{
    *faults = faults.saturating_add(1);
    Failed
}
