//! A clock that steps.
ghost use Rattle.std.specs.Prelude.{◌≡◌, ◌+◌, ◌-◌, ◌^◌, ◌++◌, ℕ, List, [], ◌∷◌, Option, Some, min};

use crate::answered::Answered;
use tc_io::Clock;

/// A clock that goes on by the same step at each call, up to the greatest number, and tells its answers.
#[derive(Drop)]
pub struct StepClock {
    next: u64,
    step: u64,
    told: Answered,
}

impl StepClock {
    /// A clock whose first answer is `first`.
    pub fn new(first: u64, step: u64) -> StepClock
        ensures first { result.next ≡ first }
        ensures step { result.step ≡ step }
        ensures untold { result.told.items ≡ [] }
    {
        StepClock {
            next: first,
            step,
            told: Answered::none(),
        }
    }
}

impl Clock for StepClock {
    ghost answers = { λ c. Some c.told.items };

    fn now(&mut self) -> u64
        ensures told { self.new.told.items ≡ self.old.told.items ++ result ∷ [] }
        ensures answer { result ≡ self.old.next }
        ensures goes_on { self.new.next ≡ min (self.old.next + self.old.step) (2 ^ 64 - 1) }
        ensures keeps_step { self.new.step ≡ self.old.step }
    {
        let now = self.next;
        self.next = now.saturating_add(self.step);
        self.told = self.told.and(&now);
        now
    }
}
