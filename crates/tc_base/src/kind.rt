/// What a put does on a key that is held.
#[derive(Clone, Copy, PartialEq, Eq)]
pub enum Mode {
    /// The new value takes the old one's place.
    Over,
    /// The old value stays, and the put is refused.
    Keep,
    /// The new value is joined behind the old one.
    Cat,
}

/// How a file is packed.
#[derive(Clone, Copy, PartialEq, Eq)]
pub enum Form {
    /// In the form that it has.
    Keep,
    /// In the large form, whose pointers have eight bytes.
    Large,
}

/// The kinds of database: four in files, two in memory.
#[derive(Clone, Copy, PartialEq, Eq)]
pub enum Kind {
    Hash,
    Tree,
    Fixed,
    Table,
    MemHash,
    MemTree,
}

/// A rule of a layout, as `L6`: its letter is ASCII, its number counts from 1.
#[derive(Clone, Copy, Debug, PartialEq, Eq)]
pub struct Rule {
    pub letter: u8,
    pub number: u8,
}
