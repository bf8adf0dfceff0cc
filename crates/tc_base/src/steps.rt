//! A counter of steps.
ghost use Rattle.std.specs.Prelude.{◌≡◌, ◌+◌, ◌-◌, ◌^◌, ℕ, min};

use std::marker::{Model, PhantomData};

/// How many steps were taken; a contract sees the number. It stays at the greatest u64. `L` says whose steps they are.
#[derive(Drop)]
pub struct Steps<L> {
    count: u64,
    of: PhantomData<L>,
}

impl<L> Model for Steps<L> {
    ghost Value = { ℕ };

    ghost view = { λ s. s.count };
}

impl<L> Steps<L> {
    pub fn new() -> Steps<L>
        ensures { result ≡ 0 }
    {
        Steps {
            count: 0,
            of: PhantomData,
        }
    }

    pub fn count(&self) -> u64
        ensures { result ≡ self.now }
    {
        self.count
    }

    /// Counts one step more.
    pub fn tick(&mut self)
        ensures { self.new ≡ min (self.old + 1) (2 ^ 64 - 1) }
    {
        self.count = self.count.saturating_add(1);
    }
}
