//! The engine.
use crate::kept::Kept;
use std::alloc::Global;

/// A tree database, over a space that keeps it in file 0.
#[derive(Drop)]
pub struct TreeEngine<S> {
    pub(crate) alloc: Global,
    pub(crate) kept: Kept<S>,
    /// The bytes of all keys and values, once they were counted.
    pub(crate) total: Option<u64>,
}
