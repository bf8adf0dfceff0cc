ghost use Rattle.std.specs.Prelude.{◌≡◌, ℕ, List, IfOk};

use std::alloc::{AllocError, Global};
use std::marker::Model;

/// A list of connection numbers.
#[derive(Debug, Drop)]
pub struct Numbers {
    items: Vec<u32>,
}

impl Model for Numbers {
    ghost Value = { List ℕ };

    ghost view = { λ n. n.items.items };
}

impl Numbers {
    /// A copy of numbers.
    pub fn from_slice(alloc: Global, items: &[u32]) -> Result<Numbers, AllocError>
        ensures { IfOk result (λ n. n ≡ items.now) }
    {
        Ok(Numbers {
            items: Vec::from_slice(alloc, items)?,
        })
    }
}
