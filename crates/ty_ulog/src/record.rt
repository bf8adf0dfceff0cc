//! One update record as a value.
ghost use Rattle.std.specs.Prelude.{◌≡◌, IfOk};
ghost use Rattle.ty_ulog.specs.Records.{seen};

use std::alloc::{AllocError, Global};
use tc_base::Blob;

/// The file of the update log.
pub const ULOG_FILE: u32 = 2;

/// What one updating request that succeeded leaves for others to repeat.
#[derive(Drop)]
pub struct Record {
    /// Its timestamp, in microseconds where the clock tells the time; the log's timestamps ascend.
    pub stamp: u64,
    /// The timestamp of the record before it, 0 for the first.
    pub before: u64,
    /// The id of the server that wrote it.
    pub server: u16,
    /// The id of that server's master; its own where it has none.
    pub master: u16,
    /// The bytes of the request.
    pub request: Blob,
}

/// A record whose request lies where it was read.
#[derive(Clone, Copy)]
pub struct RecordRef<'a> {
    pub stamp: u64,
    pub before: u64,
    pub server: u16,
    pub master: u16,
    pub request: &'a [u8],
}

impl RecordRef<'_> {
    /// A copy with its request.
    pub fn to_record(self, alloc: Global) -> Result<Record, AllocError>
        ensures { IfOk result (λ copy. copy ≡ seen self.entry) }
    {
        Ok(Record {
            stamp: self.stamp,
            before: self.before,
            server: self.server,
            master: self.master,
            request: Blob::from_slice(alloc, self.request)?,
        })
    }
}
