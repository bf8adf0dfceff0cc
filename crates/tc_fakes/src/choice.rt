//! A choice of what a stop leaves.

/// What a stop leaves of calls that no sync followed.
#[derive(Clone, Copy)]
pub struct Choice {
    /// How many bytes of a write are kept, at most: so many of those over old ones, and so many of those behind.
    pub keep: u64,
    /// The byte that stands in place of the others over old ones.
    pub fill: u8,
    /// Whether cuts happened.
    pub cut: bool,
}
