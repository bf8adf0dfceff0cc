//! The numbers of a fixed-length file.

/// The numbers of a fixed-length file that is made anew.
#[derive(Clone, Copy, PartialEq, Eq)]
pub struct FixedShape {
    /// The most bytes of a value, from 1 to 1,048,576.
    pub width: u32,
    /// The limit of the file size, from 512 to 2^40.
    pub limit: u64,
}

/// Those of a file that an opening makes.
pub(crate) const USUAL: FixedShape = FixedShape {
    width: 255,
    limit: 268_435_456,
};
