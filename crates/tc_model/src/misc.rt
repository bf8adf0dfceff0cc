use tc_base::{Blob, Blobs, Mode, Pairs};

/// A misc request, by its name, the kind of the database and the number of its arguments. Texts of numbers are kept as they came.
#[derive(Drop)]
pub enum Misc {
    /// Stores a value.
    Put {
        mode: Mode,
        key: Blob,
        value: Blob,
    },
    /// Stores a row of a table.
    PutRow {
        mode: Mode,
        key: Blob,
        columns: Pairs,
    },
    /// Takes a key out, of a tree its first value.
    Out {
        key: Blob,
    },
    Get {
        key: Blob,
    },
    /// Gets the columns of a row.
    GetRow {
        key: Blob,
    },
    /// Stores values one after the other.
    PutList {
        pairs: Pairs,
    },
    /// The same in a tree, each behind those of its key.
    PutDups {
        pairs: Pairs,
    },
    /// Takes out what is held of these keys, with all values.
    OutList {
        keys: Blobs,
    },
    GetList {
        keys: Blobs,
    },
    /// Adds a value behind those of its key.
    PutDup {
        key: Blob,
        value: Blob,
    },
    /// The pairs from a key on, and before another where there is one.
    Range {
        from: Blob,
        maximum: Blob,
        to: Option<Blob>,
    },
    Vanish,
    /// Makes the index of a column, or takes it away.
    SetIndex {
        column: Blob,
        code: Blob,
    },
    Search {
        conditions: Blobs,
    },
}
