//! The engine.
use std::alloc::Global;
use tc_hash::Hash;

/// A hash database, over a space that keeps it in file 0. A request on a key costs a search of its bucket's tree, a list of keys reads the head and the key of
/// each record. The bytes of all keys and values are counted when they are first asked for, and from then on kept.
#[derive(Drop)]
pub struct HashEngine<S> {
    pub(crate) alloc: Global,
    pub(crate) hash: Hash<S>,
    /// The bytes of all keys and values, once they were counted.
    pub(crate) total: Option<u64>,
}
