//! Rows of a reply.
ghost use Rattle.std.specs.Prelude.{◌+◌, ◌≤◌, ◌<◌};

use std::alloc::{AllocError, Global};
use tc_base::Blob;

/// Rows that are spelled one behind the other, behind bytes that were there before: as many as have room. From the first row that hasn't on
/// it is long, and none is added.
#[derive(Drop)]
pub struct Rows {
    bytes: Blob,
    count: u64,
    room: u64,
    most: u32,
    long: bool,
    ghost within: { count + room ≤ most },
    ghost small: { most < 4294967296 },
}

impl Rows {
    ghost use Rattle.std.specs.Prelude.{◌≡◌, ◌∷◌, ◌+◌, ◌≤◌, ◌<◌, ◌++◌, [], length, OnOk, IsTrue, IsFalse};
    ghost use Rattle.tc_engine.specs.Rows.{Adds, Extends, Gathered, HasRoom, LacksRoom, bytes_of, count_of, is_long, item_row, most_of, pair_row};

    /// Takes over bytes, to which at most so many are added.
    pub fn over(alloc: Global, bytes: &mut Blob, most: u32) -> Rows
        ensures begins { Gathered result bytes.old [] }
        ensures most { most_of result ≡ most }
    {
        Rows {
            bytes: std::mem::replace(bytes, Blob::new(alloc)),
            count: 0,
            room: most as u64,
            most,
            long: false,
        }
    }

    /// Gives the bytes back.
    pub fn give(self, bytes: &mut Blob)
        ensures { bytes.new ≡ bytes_of self }
    {
        *bytes = self.bytes;
    }

    /// Whether a row had no room.
    pub fn is_long(&self) -> bool
        ensures { result ≡ is_long self.now }
    {
        self.long
    }

    /// How many rows it has; of a long one those that had room.
    pub fn count(&self) -> u64
        ensures value { result ≡ count_of self.now }
        ensures small { result < 4294967296 }
    {
        self.count
    }

    // Whether a row of so many bytes has room.
    fn has_room(&self, sizes: u64, first: usize, second: usize) -> bool
        ensures fits { IsTrue result → HasRoom self.now (sizes + first + second) }
        ensures lacks { IsFalse result → LacksRoom self.now (sizes + first + second) }
    {
        if self.long || self.room < sizes {
            return false;
        }
        let left = self.room - sizes;
        let (first, second) = (first as u64, second as u64);
        first <= left && second <= left - first
    }

    // Adds a row that has room.
    fn add(&mut self, sizes: &[u8], first: &[u8], second: &[u8]) -> Result<(), AllocError>
        requires room { HasRoom self.old (length sizes.now + length first.now + length second.now) }
        requires some { 0 < length sizes.now }
        ensures added { OnOk result (Adds self.old self.new ((sizes.now ++ (first.now ++ second.now)) ∷ [])) }
        ensures front { Extends self.old self.new }
    {
        self.bytes.append(sizes)?;
        self.bytes.append(first)?;
        self.bytes.append(second)?;
        self.room -= (sizes.len() + first.len() + second.len()) as u64;
        self.count += 1;
        Ok(())
    }

    /// Adds a text with its size in front. On an `Err` some more bytes may stand behind the others.
    pub fn item(&mut self, text: &[u8]) -> Result<(), AllocError>
        ensures added { OnOk result (Adds self.old self.new (item_row text.now ∷ [])) }
        ensures front { Extends self.old self.new }
    {
        if !self.has_room(4, text.len(), 0) {
            self.long = true;
            return Ok(());
        }
        self.add(&(text.len() as u32).to_be_bytes(), text, &[])
    }

    /// Adds a key and a value with their sizes in front. On an `Err` some more bytes may stand behind the others.
    pub fn pair(&mut self, key: &[u8], value: &[u8]) -> Result<(), AllocError>
        ensures added { OnOk result (Adds self.old self.new (pair_row key.now value.now ∷ [])) }
        ensures front { Extends self.old self.new }
    {
        if !self.has_room(8, key.len(), value.len()) {
            self.long = true;
            return Ok(());
        }
        let mut sizes = [0; 8];
        sizes[..4].copy_from_slice(&(key.len() as u32).to_be_bytes());
        sizes[4..].copy_from_slice(&(value.len() as u32).to_be_bytes());
        self.add(&sizes, key, value)
    }
}
