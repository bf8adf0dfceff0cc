//! Requests and replies as values; their bytes are `ty_wire`'s.
use crate::blob::Blob;
use crate::key::Key;
use crate::seq::{Blobs, Keys, Pairs};

/// What a client asks for, in the order of the protocol's table.
#[derive(Drop)]
pub enum Request {
    /// Sets the value of a key.
    Put {
        key: Key,
        value: Blob,
    },
    /// Sets the value of a key that isn't held.
    PutKeep {
        key: Key,
        value: Blob,
    },
    /// Joins a value behind that of a key.
    PutCat {
        key: Key,
        value: Blob,
    },
    /// Joins a value behind that of a key, and keeps the last `width` bytes.
    PutShl {
        key: Key,
        value: Blob,
        width: u32,
    },
    /// Sets the value of a key, with no reply.
    PutNr {
        key: Key,
        value: Blob,
    },
    /// Removes a key.
    Out {
        key: Key,
    },
    /// Asks for the value of a key.
    Get {
        key: Key,
    },
    /// Asks for the values of keys.
    MGet {
        keys: Keys,
    },
    /// Asks for the size of the value of a key.
    Vsiz {
        key: Key,
    },
    /// Begins the walk over the keys.
    IterInit,
    /// Asks for the next key of the walk.
    IterNext,
    /// Asks for the keys that begin with a prefix, at most `maximum`, all where it is negative.
    FwmKeys {
        prefix: Key,
        maximum: i32,
    },
    /// Adds to the number that a key holds.
    AddInt {
        key: Key,
        number: u32,
    },
    /// Adds to the fraction that a key holds; always refused.
    AddDouble {
        key: Key,
        integer: u64,
        fraction: u64,
    },
    /// Calls a script; always refused.
    Ext {
        name: Blob,
        options: u32,
        key: Key,
        value: Blob,
    },
    /// Brings the database to the disk.
    Sync,
    /// Packs the database.
    Optimize {
        text: Blob,
    },
    /// Removes all keys.
    Vanish,
    /// Copies the database's files.
    Copy {
        path: Blob,
    },
    /// Restores the database from an update log.
    Restore {
        path: Blob,
        timestamp: u64,
        options: u32,
    },
    /// Names a master; always refused.
    SetMst {
        host: Blob,
        port: u32,
        timestamp: u64,
        options: u32,
    },
    /// Asks for the number of records.
    Rnum,
    /// Asks for the size of the contents.
    Size,
    /// Asks for a few lines on the database.
    Stat,
    /// Calls a function by its name.
    Misc {
        name: Blob,
        options: u32,
        args: Blobs,
    },
    /// Asks for the update records above a timestamp.
    Repl {
        timestamp: u64,
        server: u32,
    },
}

/// What a client is answered.
#[derive(Drop)]
pub enum Reply {
    /// The request failed and changed nothing.
    Fail,
    /// The misc request failed and changed nothing.
    FailMisc,
    /// No reply at all.
    Silent,
    /// The request was done, and there is no more to say.
    Done,
    /// It was done, and gives a value.
    Value { value: Blob },
    /// It was done, and gives a number of four bytes.
    Four { number: u32 },
    /// It was done, and gives a number of eight bytes.
    Eight { number: u64 },
    /// It was done, and gives a list.
    List { items: Blobs },
    /// It was done, and gives keys and values.
    Pairs { pairs: Pairs },
}
