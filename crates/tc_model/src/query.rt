use tc_base::{Blob, Seq};

/// What the pairs of an index have of a column's value, and by what they are ordered.
#[derive(Clone, Copy, PartialEq, Eq)]
pub enum IndexKind {
    /// The value, by bytes.
    Lexical,
    /// The value, by its number.
    Decimal,
    /// Each token of it, by bytes.
    Token,
}

/// A condition on a column; an empty column is the primary key.
#[derive(Drop)]
pub struct Cond {
    pub column: Blob,
    /// Its number in the table of operators.
    pub operator: u8,
    pub negated: bool,
    /// No index may serve it.
    pub unindexed: bool,
    pub expression: Blob,
}

/// The order of what is found: by a column, in the way 0 to 3.
#[derive(Drop)]
pub struct Sort {
    pub column: Blob,
    pub way: u8,
}

/// What is done with what is found.
#[derive(Clone, Copy, PartialEq, Eq)]
pub enum Deed {
    /// Its primary keys are answered.
    Keys,
    /// Its primary keys and row texts are answered.
    Get,
    /// It is taken out.
    Out,
    /// Its number is answered.
    Count,
}

/// A search of a table. Without a maximum there is no limit.
#[derive(Drop)]
pub struct Query {
    pub conds: Seq<Cond>,
    pub sort: Option<Sort>,
    pub maximum: Option<u64>,
    pub skip: u64,
    pub deed: Deed,
}
