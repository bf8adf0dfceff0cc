//! Files, and all that was done to them.
ghost use Rattle.std.specs.Prelude.{◌≡◌, ◌<◌, ◌≤◌, ℕ, ◌∷◌, [], true, length, IfOk, OnOk, OnErr, slice_index_or};
ghost use Rattle.tc_io.specs.Images.{Images, now, of, reads, loaded};
ghost use Rattle.tc_fakes.specs.Chosen.{chosen};
ghost use Rattle.tc_fakes.specs.History.{calls_of, step_of};
ghost use Rattle.tc_fakes.specs.Honest.{Holds, Settled, fits, all_fit};

use crate::changes::{Call, Change};
use crate::choice::Choice;
use crate::file_set::{FILES, FileSet};
use std::alloc::{AllocError, Global};
use tc_base::Blob;

/// Files as they read, and the calls that made them.
#[derive(Drop)]
pub struct Disk {
    alloc: Global,
    files: FileSet,
    pub history: Vec<Call>,
    ghost held: { Holds files reads (calls_of history.items) },
    pub ghost fit: { all_fit (calls_of history.items) ≡ true },
}

// What stands in place of bytes that were not kept: a byte.
fn fill_of(choice: &Choice) -> u8
    ensures { choice.now.fill < 256 }
{
    choice.fill
}

impl Disk {
    /// Empty files.
    pub fn new(alloc: Global) -> Result<Disk, AllocError>
        ensures { IfOk result (λ d. d.history.items ≡ []) }
    {
        Ok(Disk {
            alloc,
            files: FileSet::new(alloc)?,
            history: Vec::new(alloc),
        })
    }

    /// A file as it reads.
    pub fn bytes(&self, file: u32) -> &[u8]
        requires { file ≤ 18 }
        ensures { result.now ≡ now (calls_of self.now.history.items) file }
    {
        self.files.bytes(file)
    }

    /// Makes a call. An `Err` changes nothing.
    pub fn apply(&mut self, call: Call) -> Result<(), AllocError>
        requires { fits (step_of call.change) (now (calls_of self.old.history.items) call.file) ≡ true }
        ensures ok { OnOk result (calls_of self.new.history.items ≡ (call.file, step_of call.change) ∷ calls_of self.old.history.items) }
        ensures err { OnErr result (calls_of self.new.history.items ≡ calls_of self.old.history.items) }
    {
        self.history.reserve(1)?;
        self.files.make(&call)?;
        self.history.push_reserved(call);
        Ok(())
    }

    /// Sets a file as synced. An `Err` changes nothing.
    pub fn load(&mut self, file: u32, bytes: &[u8]) -> Result<(), AllocError>
        requires { file ≤ 18 }
        ensures ok { OnOk result (calls_of self.new.history.items ≡ (file, loaded bytes.now) ∷ calls_of self.old.history.items) }
        ensures err { OnErr result (calls_of self.new.history.items ≡ calls_of self.old.history.items) }
    {
        let change = Change::Loaded(Blob::from_slice(self.alloc, bytes)?);
        self.apply(Call { file, change })
    }

    // The images that a choice picks.
    fn images(&self, choice: &Choice) -> Result<FileSet, AllocError>
        ensures { IfOk result (λ s. Holds s (chosen choice.now) (calls_of self.now.history.items)) }
    {
        let mut reads = FileSet::new(self.alloc)?;
        let mut images = FileSet::new(self.alloc)?;
        for call in &self.history {
            images.leave(call, &reads, choice)?;
            reads.make(call)?;
        }
        Ok(images)
    }

    /// Files that are loaded with the images that a choice picks.
    pub fn image(&self, choice: &Choice) -> Result<Disk, AllocError>
        ensures images { IfOk result (λ d. (f : ℕ) → now (calls_of d.history.items) f ≡ chosen choice.now (of f (calls_of self.now.history.items))) }
        ensures possible { IfOk result (λ d. Images (calls_of self.now.history.items) (now (calls_of d.history.items))) }
        ensures settled { IfOk result (λ d. Settled (calls_of d.history.items)) }
    {
        let _fill = fill_of(choice);
        let images = self.images(choice)?;
        let disk = Disk::loaded_with(self.alloc, &images)?;
        Ok(disk)
    }

    // Files that are loaded with these.
    fn loaded_with(alloc: Global, files: &FileSet) -> Result<Disk, AllocError>
        requires { length files.now ≡ 19 }
        ensures loads { IfOk result (λ d. (f : ℕ) → now (calls_of d.history.items) f ≡ slice_index_or files.now f []) }
        ensures settled { IfOk result (λ d. Settled (calls_of d.history.items)) }
    {
        let mut disk = Disk::new(alloc)?;
        for file in 0..FILES {
            let bytes = files.bytes(file);
            if !bytes.is_empty() {
                disk.load(file, bytes)?;
            }
        }
        Ok(disk)
    }
}
