//! Writes of a file that follow one another.
ghost use Rattle.std.specs.Prelude.{◌≡◌, ◌↔◌, ◌+◌, ◌<◌, ◌++◌, [], length, false, IsTrue};
ghost use Rattle.tc_realfs.specs.Gathering.{JoinsWrites};

use std::alloc::Global;

/// How many bytes are gathered, at most.
const MOST: usize = 65_536;

/// Bytes that are to be written from a place of a file on, up to 64 KiB.
#[derive(Drop)]
pub struct Gathered {
    pub file: u32,
    pub at: u64,
    bytes: Vec<u8>,
}

impl Gathered {
    /// No bytes, which takes no memory.
    pub fn new(alloc: Global) -> Gathered
        ensures { result.bytes.items ≡ [] }
    {
        Gathered {
            file: 0,
            at: 0,
            bytes: Vec::new(alloc),
        }
    }

    pub fn as_slice(&self) -> &[u8]
        ensures { result.now ≡ self.now.bytes.items }
    {
        self.bytes.as_slice()
    }

    pub fn is_empty(&self) -> bool
        ensures { IsTrue result ↔ (self.now.bytes.items ≡ []) }
    {
        self.bytes.is_empty()
    }

    /// Takes all bytes out and keeps the room for others.
    pub fn clear(&mut self)
        ensures { self.new.bytes.items ≡ [] }
    {
        self.bytes.clear();
    }

    // Where nothing was gathered, what comes is for that place.
    fn aim(&mut self, file: u32, at: u64)
        ensures bytes { self.new.bytes ≡ self.old.bytes }
        ensures held { 0 < length self.old.bytes.items → (self.new.file ≡ self.old.file) × (self.new.at ≡ self.old.at) }
    {
        if self.bytes.is_empty() {
            self.file = file;
            self.at = at;
        }
    }

    // Whether so many bytes at a place of a file come behind those that were gathered, and are few enough.
    fn follow(&self, file: u32, at: u64, size: usize) -> bool
        ensures file { IsTrue result → self.now.file ≡ file }
        ensures place { IsTrue result → at ≡ self.now.at + length self.now.bytes.items }
    {
        let len = self.bytes.len();
        self.file == file
            && at >= self.at
            && at - self.at == len as u64
            && len <= MOST
            && size <= MOST - len
    }

    /// Adds bytes that are to be written at a place of a file, where they come behind those that were gathered, or those are none, and there is memory for them.
    /// Answers whether it did; else the bytes stay.
    pub fn add(&mut self, file: u32, at: u64, bytes: &[u8]) -> bool
        ensures place { IsTrue result → (self.new.file ≡ file) × (at ≡ self.new.at + length self.old.bytes.items) }
        ensures added { IsTrue result → self.new.bytes.items ≡ self.old.bytes.items ++ bytes.now }
        ensures held { 0 < length self.old.bytes.items → (self.new.file ≡ self.old.file) × (self.new.at ≡ self.old.at) }
        ensures refused { result ≡ false → self.new.bytes.items ≡ self.old.bytes.items }
    {
        self.aim(file, at);
        if !self.follow(file, at, bytes.len()) {
            return false;
        }
        let Ok(()) = self.bytes.extend_from_slice(bytes) else {
            return false;
        };
        true
    }
}

/// Bytes that are gathered and written at once make of a file what the writes in their order do.
pub fn joined_as_written()
    ensures { JoinsWrites }
{}
