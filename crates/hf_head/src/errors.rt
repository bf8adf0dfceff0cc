use thiserror::Error;

/// Why bytes aren't a head: the first of these that is so.
#[derive(Clone, Copy, Debug, PartialEq, Eq, Error)]
pub enum HeadErr {
    /// The first 13 bytes aren't the magic.
    #[error("not a database file")]
    Magic,
    /// The type is another one.
    #[error("a database of another type")]
    Class,
    /// A power is out of its range. A fixed-length file has none.
    #[error("a power is out of range")]
    Power,
    /// The options aren't zero.
    #[error("options that aren't supported")]
    Opts,
    /// A number is out of its range, or two don't fit together.
    #[error("numbers that don't fit")]
    Numbers,
}
