//! A hash file that is held open.
ghost use Rattle.std.specs.Prelude.{◌≡◌};

use crate::front::Front;
use hf_record::Body;
use std::marker::PhantomData;

/// A finite map in one file of a space. The map lies in the file alone; what is held here is the head, the free blocks, the number of records, the region,
/// and what is known of the bytes in front of the blocks.
#[derive(Drop)]
pub struct Hash<S> {
    /// The number of its file, the head that it was opened or made with, and the free blocks.
    pub(crate) body: Body,
    /// How many records there are.
    pub(crate) records: u64,
    /// The region of the owner.
    pub(crate) region: [u8; 128],
    /// How often a value was asked for, up to the greatest number.
    pub(crate) gets: u64,
    /// What stands in front of the blocks, once `settle` read or wrote it.
    pub(crate) front: Option<Front>,
    pub(crate) of: PhantomData<S>,
}

impl<S> Hash<S> {
    /// The type of its file: 0 for a hash file, 1 for a tree file, 3 for a table.
    pub fn kind(&self) -> u8
        ensures { result ≡ self.now.body.head.kind }
    {
        self.body.head.kind
    }

    /// How many records there are.
    pub fn count(&self) -> u64
        ensures { result ≡ self.now.records }
    {
        self.records
    }

    /// The size up to which the file has blocks.
    pub fn size(&self) -> u64
        ensures { result ≡ self.now.body.pool.size }
    {
        self.body.pool.size()
    }
}
