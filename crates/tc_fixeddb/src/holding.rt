//! The engine, and the ids that keys name in it.

use crate::naming::id_named;
use std::alloc::Global;
use tc_fixed::Fixed;

/// A fixed-length database, over a space that keeps it in file 0. What isn't in the file is counted of it: a request on a key costs one read
/// of a cell, a list what it lists.
#[derive(Drop)]
pub struct FixedEngine<S> {
    pub(crate) alloc: Global,
    pub(crate) fixed: Fixed<S>,
}

impl<S> FixedEngine<S> {
    ghost use Rattle.std.specs.Prelude.{◌≤◌, IfSome};
    ghost use Rattle.tc_fixed.specs.Holding.{max_id_of};
    ghost use Rattle.tc_fixeddb.specs.Holding.{Names};

    /// The id that a key names.
    pub(crate) fn id_of(&self, key: &[u8]) -> Option<u64>
        ensures names { Names self.now.fixed key.now result }
        ensures allowed { IfSome result (λ id. (1 ≤ id) × (id ≤ max_id_of self.now.fixed)) }
    {
        id_named(
            self.fixed.max_id(),
            self.fixed.least(),
            self.fixed.greatest(),
            key,
        )
    }
}
