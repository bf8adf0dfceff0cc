//! Failed calls, and their count.
ghost use Rattle.std.specs.Prelude.{◌≤◌};
ghost use Rattle.tc_io.specs.Causes.{Rose};

use tc_base::Fault;

/// A call of the system failed, or there was no memory for a number.
#[derive(Clone, Copy, Drop)]
pub struct Failed;

/// Counts a fault.
pub fn fault(faults: &mut u64) -> Fault
    ensures rose { Rose faults.old faults.new }
    ensures later { faults.old ≤ faults.new }
{
    *faults = faults.saturating_add(1);
    Fault
}
