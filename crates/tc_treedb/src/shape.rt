//! The numbers of a tree file.

/// The numbers of a tree file that is made anew.
#[derive(Clone, Copy, PartialEq, Eq)]
pub struct TreeShape {
    /// Whether keys are ordered by their numbers, else by their bytes.
    pub decimal: bool,
    /// The most keys of a leaf, from 4 to 256.
    pub leaf_limit: u32,
    /// The most entries of a node, from 4 to 256.
    pub node_limit: u32,
    /// The number of buckets, from 1 to 2^38.
    pub buckets: u64,
    /// The power of the alignment, from 4 to 16.
    pub apow: u8,
    /// The power of the free block pool, up to 20.
    pub fpow: u8,
    /// Whether it has the large form.
    pub large: bool,
}

/// Those of a file that an opening makes.
pub(crate) const USUAL: TreeShape = TreeShape {
    decimal: false,
    leaf_limit: 128,
    node_limit: 256,
    buckets: 32_749,
    apow: 8,
    fpow: 10,
    large: false,
};
