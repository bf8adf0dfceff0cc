//! Calls that changed a file.
ghost use Rattle.std.specs.Prelude.{◌≡◌, ◌≤◌, IfOk};

use std::alloc::{AllocError, Global};
use tc_base::Blob;

/// What a call made of a file.
#[derive(Drop)]
pub enum Change {
    Loaded(Blob),
    Written(u64, Blob),
    CutTo(u64),
    Synced,
}

/// A change of one of the 19 files.
#[derive(Drop)]
pub struct Call {
    pub file: u32,
    pub change: Change,
    pub ghost in_range: { file ≤ 18 },
}

impl Change {
    fn copied(&self, alloc: Global) -> Result<Change, AllocError>
        ensures { IfOk result (λ c. c ≡ self.now) }
    {
        match self {
            Change::Loaded(bytes) => {
                let bytes = Blob::from_slice(alloc, bytes.as_slice())?;
                Ok(Change::Loaded(bytes))
            }
            Change::Written(at, bytes) => {
                let bytes = Blob::from_slice(alloc, bytes.as_slice())?;
                Ok(Change::Written(*at, bytes))
            }
            Change::CutTo(len) => Ok(Change::CutTo(*len)),
            Change::Synced => Ok(Change::Synced),
        }
    }
}

impl Call {
    /// The same call once more.
    pub fn copied(&self, alloc: Global) -> Result<Call, AllocError>
        ensures { IfOk result (λ c. c ≡ self.now) }
    {
        Ok(Call {
            file: self.file,
            change: self.change.copied(alloc)?,
        })
    }
}
