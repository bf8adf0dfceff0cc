//! Text commands as values; their bytes are said by the grammar.
use tc_base::{Blob, Key, Keys, Request};

/// How a storing command treats a key that is held or isn't.
#[derive(Clone, Copy, PartialEq, Eq)]
pub enum Word {
    /// Stores in any case.
    Set,
    /// Stores where the key isn't held.
    Add,
    /// Stores where it is.
    Replace,
    /// Joins behind the value, where the key is held.
    Append,
}

/// What a text command asks for. A key has 1 to 250 bytes, a value at most 16,777,216. Where it is quiet no reply is wanted.
#[derive(Drop)]
pub enum Text {
    /// Stores a value, as the word says.
    Store {
        word: Word,
        key: Key,
        value: Blob,
        quiet: bool,
    },
    /// Asks for the values of these keys, of which there is one at least.
    Get {
        keys: Keys,
    },
    /// Takes a key out.
    Delete {
        key: Key,
        quiet: bool,
    },
    /// Adds to the number that a value spells, or takes off it where it counts down.
    Count {
        key: Key,
        by: u64,
        down: bool,
        quiet: bool,
    },
    /// Takes all keys out.
    Flush {
        quiet: bool,
    },
    /// Asks for the version.
    Version,
    /// Any other line.
    Other,
}

/// What is done of a text command, with the value of its key in hand.
#[derive(Drop)]
pub enum Then {
    /// This is replied, and nothing is asked of the database.
    Say { reply: Blob },
    /// This is asked of the database, and where it succeeds this is replied.
    Do { request: Request, reply: Blob },
}

/// What stands at the front of a connection's bytes: a request, or a text command.
#[derive(Drop)]
pub enum Piece {
    /// Its bytes begin with `C8`.
    Request { request: Request },
    /// They begin otherwise.
    Text { text: Text },
}
