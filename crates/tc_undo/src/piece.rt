//! One of several writes that are made as one.

/// Bytes for a data file: the file, the place, and where they lie in the bytes of all of them.
#[derive(Clone, Copy)]
pub struct Piece {
    pub file: u32,
    pub at: u64,
    pub from: usize,
    pub size: usize,
}
