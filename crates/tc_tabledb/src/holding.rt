//! The engine.
use std::alloc::Global;
use tc_base::{Decimal, Lexical};
use tc_btree::Btree;
use tc_hash::Hash;
use tc_table::{Side, Sorted, Table};

/// A tree of an index by bytes.
pub(crate) type Lexicals<S> = Btree<Hash<S>, Lexical>;

/// One by the numbers of texts.
pub(crate) type Decimals<S> = Btree<Hash<S>, Decimal>;

/// Rows and indexes over hash files.
pub(crate) type Tables<S> = Table<Hash<S>, Lexicals<S>, Decimals<S>>;

/// One of the indexes.
pub(crate) type Indexed<S> = Side<Lexicals<S>, Decimals<S>>;

/// Its tree.
pub(crate) type Trees<S> = Sorted<Lexicals<S>, Decimals<S>>;

/// A table database, over a space that keeps its rows in file 0 and its indexes in the files 3 to 18.
/// By its code the bytes of all keys, names and values are counted when they are first asked for, and are kept until the next change.
#[derive(Drop)]
pub struct TableEngine<S> {
    pub(crate) alloc: Global,
    pub(crate) table: Tables<S>,
    /// The bytes of all primary keys, names and values, once they were counted.
    pub(crate) total: Option<u64>,
}
