/// What names a record: the entry of a bucket, or a chain of the record at a place.
#[derive(Clone, Copy, Drop, PartialEq, Eq)]
pub enum Parent {
    /// The entry of that bucket.
    Bucket(u64),
    /// The left chain of the record there.
    Left(u64),
    /// The right chain of the record there.
    Right(u64),
}

/// Where the search for a key ends.
#[derive(Clone, Copy, Drop, PartialEq, Eq)]
pub enum Found {
    /// The record of the key, and what names it.
    Here { at: u64, from: Parent },
    /// The empty entry or chain where it would hang.
    Gap { to: Parent },
}
