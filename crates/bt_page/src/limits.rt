/// The least that a tree's limit of keys a leaf, or of entries a node, may be.
pub const LIMIT_LEAST: u32 = 4;

/// The greatest that such a limit may be.
pub const LIMIT_MOST: u32 = 256;

/// The most bytes that a leaf of two keys or more has behind its two links.
pub const LEAF_MOST: usize = 65_536;
