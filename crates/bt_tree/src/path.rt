//! The way down to a leaf.
ghost use Rattle.std.specs.Prelude.{◌≡◌, [], ◌∷◌, ◌++◌, ℕ, List, reverse, IfOk, OnOk, MatchOption};

use std::alloc::{AllocError, Global};
use std::marker::Model;

/// The nodes above a place, each by its id and with which of the pages below it was taken. A contract sees the lowest first.
#[derive(Drop)]
pub(crate) struct Path {
    steps: Vec<(u64, usize)>,
}

impl Model for Path {
    ghost Value = { List (ℕ × ℕ) };

    ghost view = { λ p. reverse p.steps.items };
}

impl Path {
    pub(crate) fn new(alloc: Global) -> Path
        ensures { result ≡ [] }
    {
        Path {
            steps: Vec::new(alloc),
        }
    }

    /// The same way, which leaves this one as it is.
    pub(crate) fn copy(&self, alloc: Global) -> Result<Path, AllocError>
        ensures { IfOk result (λ p. p ≡ self.now) }
    {
        let steps = Vec::from_slice(alloc, &self.steps)?;
        Ok(Path { steps })
    }

    /// Takes all steps out, and keeps the room for others.
    pub(crate) fn clear(&mut self)
        ensures { self.new ≡ [] }
    {
        self.steps.clear();
    }

    pub(crate) fn push(&mut self, id: u64, place: usize) -> Result<(), AllocError>
        ensures { OnOk result (self.new ≡ (id, place) ∷ self.old) }
    {
        self.steps.push((id, place))?;
        Ok(())
    }

    /// Takes the lowest step out.
    pub(crate) fn pop(&mut self) -> Option<(u64, usize)>
        ensures { MatchOption result ((self.old ≡ []) × (self.new ≡ [])) (λ x. self.old ≡ x ∷ self.new) }
    {
        self.steps.pop()
    }
}
