//! What the program may be told to do.
ghost use Rattle.std.specs.Prelude.{◌≡◌, List, ℕ, string_bytes, IfOk};
ghost use Rattle.tk_words.specs.Names.{is_name};

use crate::names::names;
use std::alloc::{AllocError, Global};
use std::marker::Model;
use tc_base::{Blob, Blobs, Kind, Pair};

/// The name of a database, which a contract sees as its bytes.
#[derive(Drop)]
pub struct DbName {
    text: String,
}

impl Model for DbName {
    ghost Value = { List ℕ };

    ghost view = { λ n. string_bytes n.text };
}

impl DbName {
    pub(crate) fn of(alloc: Global, text: &str) -> Result<DbName, AllocError>
        ensures { IfOk result (λ n. n ≡ text.now) }
    {
        Ok(DbName {
            text: String::from_str(alloc, text)?,
        })
    }

    /// Whether it names a database of a kind.
    pub fn names(&self, kind: Kind) -> bool
        ensures { result ≡ is_name kind self.now }
    {
        names(kind, &self.text)
    }

    /// The name as it was given.
    pub fn as_str(&self) -> &str
        ensures { result.now ≡ self.now }
    {
        self.text.as_str()
    }
}

/// What a put does on a key that is held.
#[derive(Clone, Copy, PartialEq, Eq)]
pub enum PutWord {
    /// The new value takes the old one's place.
    Over,
    /// The old value stays, and the put is refused.
    Keep,
    /// The new value is joined behind the old one.
    Cat,
    /// The new value stands beside the old ones; for trees alone.
    Dup,
}

/// What the words ask for.
#[derive(Drop)]
pub enum CommandLine {
    /// Serves standard input and output.
    Pipe {
        name: DbName,
    },
    /// Serves at an address. `mport` is 0 where there is no master, `limit` is in bytes.
    Serve {
        name: DbName,
        host: Blob,
        port: u16,
        ulog: bool,
        sid: u16,
        mhost: Option<Blob>,
        mport: u16,
        limit: u64,
        turns: u64,
    },
    /// Makes a file. A number that the kind doesn't have is 0.
    Create {
        kind: Kind,
        name: DbName,
        bnum: u64,
        apow: u8,
        fpow: u8,
        decimal: bool,
        lmemb: u32,
        nmemb: u32,
        width: u32,
        limsiz: u64,
        large: bool,
    },
    /// Prints what the file is.
    Inform {
        kind: Kind,
        name: DbName,
    },
    /// Puts a value; of a table, `values` are the names and values of a row, each behind the other.
    Put {
        kind: Kind,
        name: DbName,
        word: PutWord,
        key: Blob,
        values: Blobs,
    },
    /// Removes a key.
    Out {
        kind: Kind,
        name: DbName,
        key: Blob,
    },
    /// Prints a value.
    Get {
        kind: Kind,
        name: DbName,
        key: Blob,
    },
    /// Prints at most `maximum` keys, with their values where `values` says so.
    List {
        kind: Kind,
        name: DbName,
        maximum: Option<u32>,
        values: bool,
    },
    /// Packs the file, and gives it the large form where `large` says so.
    Optimize {
        kind: Kind,
        name: DbName,
        large: bool,
    },
    /// Makes the contents anew of the update log's records up to a timestamp, in microseconds since 1970.
    Restore {
        kind: Kind,
        name: DbName,
        stamp: u64,
    },
    /// Makes an index of a column: 0 lexical, 1 decimal, 2 token; 9999 takes it away.
    SetIndex {
        name: DbName,
        column: Blob,
        code: u16,
    },
    /// Prints or removes the rows that meet all conditions, which are a column, an operator and an expression each. The key of `sort` is a column,
    /// its value a digit from 0 to 3.
    Search {
        name: DbName,
        triples: Blobs,
        sort: Option<Pair>,
        maximum: Option<u32>,
        skip: u32,
        values: bool,
        remove: bool,
    },
    /// Makes `count` requests that `seed` determines.
    Drill {
        seed: u64,
        count: u32,
        name: DbName,
    },
}
