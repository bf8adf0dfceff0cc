//! What a clock answered. Only proofs read it, and it takes no memory.
ghost use Rattle.std.specs.Prelude.{◌≡◌, ℕ, List, [], ◌∷◌, ◌++◌};
ghost use Rattle.std.specs.Borrow.{ftrue};

use std::marker::Model;

/// A list of answers, the latest last.
#[derive(Drop)]
pub struct Answered {
    pub ghost items: { List ℕ },
}

impl Model for Answered {
    ghost also_owns = { λ _. ftrue };
}

impl Answered {
    pub fn none() -> Answered
        ensures { result.items ≡ [] }
    {
        Answered {}
    }

    /// With an answer behind them.
    pub fn and(&self, _answer: &u64) -> Answered
        ensures { result.items ≡ self.now.items ++ _answer.now ∷ [] }
    {
        Answered {}
    }
}
