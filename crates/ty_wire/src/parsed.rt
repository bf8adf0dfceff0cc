//! A request whose texts lie where they were read.

/// So many texts, each with its size in front, at the front of bytes.
#[derive(Clone, Copy)]
pub struct Items<'a> {
    /// How many there are.
    pub count: usize,
    /// The most bytes that one of them has.
    pub most: usize,
    /// The most bytes that they take together.
    pub left: usize,
    pub bytes: &'a [u8],
}

/// What stores a value under a key.
#[derive(Clone, Copy)]
pub enum Stores {
    Put,
    PutKeep,
    PutCat,
    PutShl(u32),
    PutNr,
}

/// What has a key, and numbers at most.
#[derive(Clone, Copy)]
pub enum Keyed {
    Out,
    Get,
    Vsiz,
    FwmKeys(i32),
    AddInt(u32),
    AddDouble(u64, u64),
}

/// What has a text that is no key, and numbers at most.
#[derive(Clone, Copy)]
pub enum Texted {
    Optimize,
    Copy,
    Restore(u64, u32),
    SetMst(u32, u64, u32),
}

/// What has numbers at most.
#[derive(Clone, Copy)]
pub enum Bare {
    IterInit,
    IterNext,
    Sync,
    Vanish,
    Rnum,
    Size,
    Stat,
    Repl(u64, u32),
}

/// A request by the texts that it has.
#[derive(Clone, Copy)]
pub enum Parsed<'a> {
    Stores(Stores, &'a [u8], &'a [u8]),
    Keyed(Keyed, &'a [u8]),
    Texted(Texted, &'a [u8]),
    Bare(Bare),
    MGet(Items<'a>),
    Ext(&'a [u8], u32, &'a [u8], &'a [u8]),
    Misc(&'a [u8], u32, Items<'a>),
}
