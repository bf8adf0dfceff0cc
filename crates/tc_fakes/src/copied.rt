//! Copies of a database in memory, each under a label.
ghost use Rattle.std.specs.Prelude.{◌≡◌, ℕ, List, ◌∷◌, [], true, Some, None, IfOk, OnOk, OnErr, unwrap_or};
ghost use Rattle.tc_io.specs.Images.{now};
ghost use Rattle.tc_fakes.specs.History.{calls_of, step_of, call_of};
ghost use Rattle.tc_fakes.specs.Honest.{fits, all_fit};
ghost use Rattle.tc_fakes.specs.Copied.{Makes, OthersKept, copy_calls};

use crate::changes::Call;
use crate::disk::Disk;
use std::alloc::{AllocError, Global};
use tc_base::Blob;

/// A change of a file of the copy under a label.
#[derive(Drop)]
pub struct CopyCall {
    pub label: Blob,
    pub call: Call,
}

/// All that was done to copies, in order, and the label bound last.
#[derive(Drop)]
pub struct Copied {
    alloc: Global,
    pub label: Option<Blob>,
    pub calls: Vec<CopyCall>,
    pub ghost fit: { (l : List ℕ) → all_fit (copy_calls calls.items l) ≡ true },
}

// Makes a call again, where it is one on the copy under a label.
fn replay(alloc: Global, disk: &mut Disk, one: &CopyCall, label: &[u8]) -> Result<(), AllocError>
    requires { one.now.label ≡ label.now → fits (step_of one.now.call.change) (now (calls_of disk.old.history.items) one.now.call.file) ≡ true }
    ensures same { OnOk result (one.now.label ≡ label.now → calls_of disk.new.history.items ≡ call_of one.now.call ∷ calls_of disk.old.history.items) }
    ensures other { OnOk result ((one.now.label ≡ label.now → ⊥) → calls_of disk.new.history.items ≡ calls_of disk.old.history.items) }
{
    if one.label.as_slice() == label {
        disk.apply(one.call.copied(alloc)?)?;
    }
    Ok(())
}

impl Copied {
    /// No copy.
    pub fn new(alloc: Global) -> Copied
        ensures label { result.label ≡ None }
        ensures calls { result.calls.items ≡ [] }
    {
        Copied {
            alloc,
            label: None,
            calls: Vec::new(alloc),
        }
    }

    /// Names the copy that `apply` is of. An `Err` changes nothing.
    pub fn bind(&mut self, label: &[u8]) -> Result<(), AllocError>
        ensures ok { OnOk result (self.new.label ≡ Some label.now) }
        ensures err { OnErr result (self.new.label ≡ self.old.label) }
        ensures calls { self.new.calls ≡ self.old.calls }
    {
        self.label = Some(Blob::from_slice(self.alloc, label)?);
        Ok(())
    }

    /// Names no copy.
    pub fn end(&mut self)
        ensures label { self.new.label ≡ None }
        ensures calls { self.new.calls ≡ self.old.calls }
    {
        self.label = None;
    }

    /// The files of the copy under a label.
    pub fn disk(&self, label: &[u8]) -> Result<Disk, AllocError>
        ensures { IfOk result (λ d. calls_of d.history.items ≡ copy_calls self.now.calls.items label.now) }
    {
        let mut disk = Disk::new(self.alloc)?;
        for one in &self.calls {
            replay(self.alloc, &mut disk, one, label)?;
        }
        Ok(disk)
    }

    /// The files of the copy whose label was bound last.
    pub fn bound(&self) -> Result<Disk, AllocError>
        ensures { IfOk result (λ d. calls_of d.history.items ≡ copy_calls self.now.calls.items (unwrap_or self.now.label [])) }
    {
        match &self.label {
            Some(label) => self.disk(label.as_slice()),
            None => self.disk(b""),
        }
    }

    // The label bound last.
    fn bound_label(&self) -> Result<Blob, AllocError>
        ensures { IfOk result (λ b. b ≡ unwrap_or self.now.label []) }
    {
        match &self.label {
            Some(label) => Blob::from_slice(self.alloc, label.as_slice()),
            None => Ok(Blob::new(self.alloc)),
        }
    }

    /// Makes a call on the copy whose label was bound last. An `Err` changes nothing.
    #[tactic(auto, using(crate::proofs::Pushed::fit_pushed, crate::proofs::Pushed::pushed_same, crate::proofs::Pushed::pushed_other))]
    pub fn apply(&mut self, call: Call) -> Result<(), AllocError>
        requires { fits (step_of call.change) (now (copy_calls self.old.calls.items (unwrap_or self.old.label [])) call.file) ≡ true }
        ensures ok { OnOk result (Makes (unwrap_or self.old.label []) (call.file, step_of call.change) self.old.calls.items self.new.calls.items) }
        ensures others { OthersKept (unwrap_or self.old.label []) self.old.calls.items self.new.calls.items }
        ensures err { OnErr result (self.new.calls.items ≡ self.old.calls.items) }
        ensures label { self.new.label ≡ self.old.label }
    {
        let label = self.bound_label()?;
        self.calls.push(CopyCall { label, call })?;
        Ok(())
    }
}
