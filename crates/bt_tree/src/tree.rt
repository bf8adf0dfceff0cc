//! A tree that is open.
ghost use Rattle.std.specs.Prelude.{◌≤◌};

use crate::path::Path;
use bt_cache::Cache;
use bt_rows::TreeHead;
use std::alloc::Global;
use std::marker::PhantomData;
use tc_base::Blob;

/// A list of pairs in the order of their keys, equal keys in order of arrival, as pages in a store of records.
#[derive(Drop)]
pub struct Tree<R, O> {
    pub(crate) alloc: Global,
    pub(crate) store: R,
    /// The pages that were used last.
    pub(crate) cache: Cache<R>,
    /// The numbers of the tree as they are now, which `settle` brings to the store's region.
    pub(crate) head: TreeHead,
    /// How many rows there are, that of the leaves among them.
    pub(crate) height: u64,
    /// The record `column` that the store holds beside the pages, if it has one.
    pub(crate) column: Option<Blob>,
    /// Room for the way down to a leaf.
    pub(crate) path: Path,
    pub(crate) of: PhantomData<O>,
    pub ghost rows: { 1 ≤ height },
}
