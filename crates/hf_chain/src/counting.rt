//! Steps, as they are counted.
ghost use Rattle.std.specs.Prelude.{◌≡◌, ◌+◌, ◌-◌, ◌^◌, ◌≤◌, min};

use tc_base::Steps;

/// Counts one step more, up to the greatest number.
pub fn count_step<L>(steps: &mut Steps<L>)
    ensures more { steps.new ≡ min (steps.old + 1) (2 ^ 64 - 1) }
    ensures later { steps.old ≤ steps.new }
{
    if steps.count() < u64::MAX {
        steps.tick();
    }
}
