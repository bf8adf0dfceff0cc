//! What a command is to do.
use tc_base::{Blob, Blobs, Pair};
use tk_words::PutWord;

/// Which rows of a table a search finds, in which order.
#[derive(Drop)]
pub struct Wanted {
    /// Conditions: a column, an operator and an expression each.
    pub conditions: Blobs,
    /// A column and an order's digit from 0 to 3. Without it the order is that of primary keys.
    pub sort: Option<Pair>,
    /// So many rows at most, of those behind the ones that are left out.
    pub maximum: Option<u32>,
    pub skip: u32,
}

/// What is to be done with a database that was opened.
#[derive(Drop)]
pub enum Task {
    /// Gives a key a value. Of a table the value is a row as replies have it.
    Put {
        word: PutWord,
        key: Blob,
        value: Blob,
    },
    /// Takes a key out.
    Out {
        key: Blob,
    },
    /// Prints a value.
    Get {
        key: Blob,
    },
    /// Prints the keys, at most so many, each with its value where `values` says so. More than 2,147,483,647 aren't asked for.
    List {
        maximum: Option<u32>,
        values: bool,
    },
    /// Packs the files, in the large form where `large` says so.
    Optimize {
        large: bool,
    },
    /// Prints what the database and its files are.
    Inform,
    /// Gives a column of a table an index: of code 0 lexical, 1 decimal, 2 of tokens. Code 9999 takes the index away.
    SetIndex {
        column: Blob,
        code: u16,
    },
    /// Prints the keys of the rows of a table that are wanted, each with its row where `values` says so.
    Search {
        wanted: Wanted,
        values: bool,
    },
    /// Takes the rows of a table that are wanted out.
    SearchOut {
        wanted: Wanted,
    },
    /// Makes so many requests that the seed determines, and prints what came of them.
    Drill {
        seed: u64,
        count: u32,
    },
}
