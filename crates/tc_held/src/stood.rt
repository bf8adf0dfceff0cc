//! What two things were at earlier moments. Only proofs read it: it takes no memory, and its calls do nothing.
ghost use Rattle.std.specs.Prelude.{◌≡◌, List, [], ◌∷◌, ◌++◌};
ghost use Rattle.std.specs.Borrow.{ftrue};

use std::marker::{Model, PhantomData};

/// A list of both, the latest last.
pub struct Stood<A, B> {
    of: PhantomData<(A, B)>,
    pub ghost items: { List (A × B) },
}

impl<A, B> Model for Stood<A, B> {
    ghost also_owns = { λ _. ftrue };
}

impl<A, B> Drop for Stood<A, B> {
    fn drop(self) {
        let Self { of: _ } = self;
    }
}

impl<A, B> Stood<A, B> {
    pub fn new() -> Stood<A, B>
        ensures { result.items ≡ [] }
    {
        Stood { of: PhantomData }
    }

    /// With what they are now behind it.
    pub fn and(&self, _first: &A, _second: &B) -> Stood<A, B>
        ensures { result.items ≡ self.now.items ++ (_first.now, _second.now) ∷ [] }
    {
        Stood { of: PhantomData }
    }
}
