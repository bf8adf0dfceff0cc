//! Pages as values.
use tc_base::{Blob, Blobs, Seq};

/// A key and its values in order of arrival, one at least.
#[derive(Drop)]
pub struct Item {
    pub key: Blob,
    pub values: Blobs,
}

/// A page of keys and values.
#[derive(Drop)]
pub struct Leaf {
    /// The id of the leaf before it, 0 for none.
    pub prev: u64,
    /// The id of the leaf behind it, 0 for none.
    pub next: u64,
    pub items: Seq<Item>,
}

/// A page below a node, and the least key that may stand under it.
#[derive(Drop)]
pub struct NodeEntry {
    /// The id of that page.
    pub child: u64,
    pub key: Blob,
}

/// A page above others.
#[derive(Drop)]
pub struct Node {
    /// The id of the page under which the keys below the first entry's stand.
    pub heir: u64,
    pub entries: Seq<NodeEntry>,
}
