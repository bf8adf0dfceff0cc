//! The numbers of the main file of a table.

/// The numbers of a main file that is made anew.
#[derive(Clone, Copy, PartialEq, Eq)]
pub struct TableShape {
    /// The number of buckets, from 1 to 2^38.
    pub buckets: u64,
    /// The power of the alignment, from 4 to 16.
    pub apow: u8,
    /// The power of the free block pool, up to 20.
    pub fpow: u8,
    /// Whether it has the large form.
    pub large: bool,
}

/// Those of a file that an opening makes.
pub(crate) const USUAL: TableShape = TableShape {
    buckets: 131_071,
    apow: 4,
    fpow: 10,
    large: false,
};
