//! A volume in memory.
ghost use Rattle.std.specs.Prelude.{◌≡◌, ◌≤◌, ◌+◌, ◌∷◌, ◌++◌, [], length, take, drop, ◌⊎◌, ℕ, true, false, Some, None, IfOk, OnOk, OnErr};
ghost use Rattle.tc_io.specs.Images.{Images, now, of, loaded, written, cut_to, synced};
ghost use Rattle.tc_fakes.specs.Chosen.{chosen};
ghost use Rattle.tc_fakes.specs.History.{step_of};
ghost use Rattle.tc_fakes.specs.Honest.{Settled, fits};
ghost use Rattle.tc_fakes.specs.Counted.{FailsRightly, IsFresh, Starved};

use crate::changes::{Call, Change};
use crate::choice::Choice;
use crate::copied::Copied;
use crate::counts::Counts;
use crate::disk::Disk;
use std::alloc::{AllocError, Global};
use tc_base::{Blob, Fault};
use tc_io::Volume;

/// A volume in memory, which keeps and tells all that was done to its files and to its copies.
#[derive(Drop)]
pub struct MemVolume {
    alloc: Global,
    disk: Disk,
    copied: Copied,
    names: Vec<Blob>,
    bound: bool,
    counts: Counts,
}

impl MemVolume {
    ghost use Rattle.tc_fakes.specs.Copied.{copy_calls};
    ghost use Rattle.tc_fakes.specs.History.{calls_of};
    ghost use Rattle.tc_fakes.specs.Kept.{CallsCopy, OnlyCopied, SameNames, copy_kept, kept};

    /// A volume of empty files, of whose calls none is to fail.
    pub fn new(alloc: Global) -> Result<MemVolume, AllocError>
        ensures calls { IfOk result (λ v. kept v ≡ []) }
        ensures names { IfOk result (λ v. v.names.items ≡ []) }
        ensures copies { IfOk result (λ v. v.copied.calls.items ≡ []) }
        ensures bound { IfOk result (λ v. v.bound ≡ false) }
        ensures counts { IfOk result (λ v. IsFresh v.counts) }
    {
        Ok(MemVolume::of_disk(alloc, Disk::new(alloc)?))
    }

    // A volume with these files, whose record they are, and no copy.
    fn of_disk(alloc: Global, disk: Disk) -> MemVolume
        ensures disk { result.disk ≡ disk }
        ensures names { result.names.items ≡ [] }
        ensures copies { result.copied.calls.items ≡ [] }
        ensures bound { result.bound ≡ false }
        ensures counts { IsFresh result.counts }
    {
        MemVolume {
            alloc,
            disk,
            copied: Copied::new(alloc),
            names: Vec::new(alloc),
            bound: false,
            counts: Counts::new(alloc),
        }
    }

    /// Sets a file, of 0 to 18, as synced: from here on these bytes are its only image. An `Err` changes nothing.
    pub fn load(&mut self, file: u32, bytes: &[u8]) -> Result<(), AllocError>
        requires { file ≤ 18 }
        ensures ok { OnOk result (kept self.new ≡ (file, loaded bytes.now) ∷ kept self.old) }
        ensures err { OnErr result (kept self.new ≡ kept self.old) }
        ensures names { SameNames self.old self.new }
        ensures counts { self.new.counts ≡ self.old.counts }
    {
        self.disk.load(file, bytes)
    }

    /// A file, of 0 to 18, as it reads.
    pub fn bytes(&self, file: u32) -> &[u8]
        requires { file ≤ 18 }
        ensures { result.now ≡ now (kept self.now) file }
    {
        self.disk.bytes(file)
    }

    /// Names the calls that answer a fault, counted from 1 over all methods of the trait that may fail, in place of those named before.
    pub fn fail_at(&mut self, calls: Vec<u64>)
        ensures { self.new ≡ record self.old { counts = record self.old.counts { fails = calls } } }
    {
        self.counts.fails = calls;
    }

    /// Makes every call behind that one answer a fault, counted as for `fail_at`.
    pub fn stop_after(&mut self, call: u64)
        ensures { self.new ≡ record self.old { counts = record self.old.counts { stop = Some call } } }
    {
        self.counts.stop = Some(call);
    }

    /// One image of each file, as a fresh volume that is loaded with them and has no copy.
    pub fn image(&self, choice: &Choice) -> Result<MemVolume, AllocError>
        ensures images { IfOk result (λ v. (f : ℕ) → now (kept v) f ≡ chosen choice.now (of f (kept self.now))) }
        ensures possible { IfOk result (λ v. Images (kept self.now) (now (kept v))) }
        ensures settled { IfOk result (λ v. Settled (kept v)) }
        ensures names { IfOk result (λ v. v.names.items ≡ []) }
        ensures copies { IfOk result (λ v. v.copied.calls.items ≡ []) }
        ensures bound { IfOk result (λ v. v.bound ≡ false) }
        ensures counts { IfOk result (λ v. IsFresh v.counts) }
    {
        let disk = self.disk.image(choice)?;
        Ok(MemVolume::of_disk(self.alloc, disk))
    }

    /// The copy under a label, with all that was done to it, as a fresh volume that has no copy. It is made anew from its calls.
    pub fn copy(&self, label: &[u8]) -> Result<MemVolume, AllocError>
        ensures calls { IfOk result (λ v. kept v ≡ copy_calls self.now.copied.calls.items label.now) }
        ensures names { IfOk result (λ v. v.names.items ≡ []) }
        ensures copies { IfOk result (λ v. v.copied.calls.items ≡ []) }
        ensures bound { IfOk result (λ v. v.bound ≡ false) }
        ensures counts { IfOk result (λ v. IsFresh v.counts) }
    {
        Ok(MemVolume::of_disk(self.alloc, self.copied.disk(label)?))
    }

    // The files of the copy whose label was bound last, where there is memory for them.
    fn bound_copy(&mut self) -> Result<Disk, Fault>
        ensures disk { IfOk result (λ d. calls_of d.history.items ≡ copy_kept self.old) }
        ensures kept { kept self.new ≡ kept self.old }
        ensures names { SameNames self.old self.new }
        ensures fed { OnOk result (self.new.counts ≡ self.old.counts) }
        ensures starved { OnErr result (Starved self.old.counts self.new.counts) }
    {
        match self.copied.bound() {
            Ok(disk) => Ok(disk),
            Err(_) => Err(self.counts.starve()),
        }
    }

    // Makes a call on the copy whose label was bound last.
    fn apply_copied(&mut self, call: Call) -> Result<(), Fault>
        requires { fits (step_of call.change) (now (copy_kept self.old) call.file) ≡ true }
        ensures ok { OnOk result (CallsCopy (call.file, step_of call.change) self.old self.new) }
        ensures err { OnErr result (self.new.copied.calls.items ≡ self.old.copied.calls.items) }
        ensures only { OnlyCopied self.old self.new }
        ensures fed { OnOk result (self.new.counts ≡ self.old.counts) }
        ensures starved { OnErr result (Starved self.old.counts self.new.counts) }
    {
        if self.copied.apply(call).is_err() {
            return Err(self.counts.starve());
        }
        Ok(())
    }

    /// How many calls found no memory.
    pub fn starved(&self) -> u64
        ensures { result ≡ self.now.counts.starved }
    {
        self.counts.starved
    }

    /// How many methods of the trait that may fail were called.
    pub fn calls(&self) -> u64
        ensures { result ≡ self.now.counts.calls }
    {
        self.counts.calls
    }

    // Makes a call.
    fn apply(&mut self, call: Call) -> Result<(), Fault>
        requires { fits (step_of call.change) (now (kept self.old) call.file) ≡ true }
        ensures ok { OnOk result (kept self.new ≡ (call.file, step_of call.change) ∷ kept self.old) }
        ensures err { OnErr result (kept self.new ≡ kept self.old) }
        ensures names { SameNames self.old self.new }
        ensures fed { OnOk result (self.new.counts ≡ self.old.counts) }
        ensures starved { OnErr result (Starved self.old.counts self.new.counts) }
    {
        if self.disk.apply(call).is_err() {
            return Err(self.counts.starve());
        }
        Ok(())
    }
}

impl Volume for MemVolume {
    ghost use Rattle.tc_fakes.specs.Honest.{honest};
    ghost use Rattle.tc_fakes.specs.Copied.{copy_calls};
    ghost use Rattle.tc_fakes.specs.Kept.{CallsCopy, Names, NamesUnstarved, OnlyCopied, SameFiles, SameNames, copy_kept, kept, named};

    ghost tells = { Unit {0} };

    ghost calls = { kept };

    ghost bound = { λ v. v.bound };

    ghost names = { named };

    ghost faults = { λ v. v.counts.faults };

    ghost now_is_image = { λ v _. honest (kept v) v.disk.fit };

    ghost copy_is_image = { λ v label _. honest (copy_calls v.copied.calls.items label) (v.copied.fit label) };

    fn bind(&mut self, name: &str) -> Result<(), Fault>
        ensures bound { OnOk result (self.new.bound ≡ true) }
        ensures bound_err { OnErr result (self.new.bound ≡ self.old.bound) }
        ensures told { OnOk result (Names self.old self.new name.now) }
        ensures told_err { OnErr result (NamesUnstarved self.old self.new name.now) }
        ensures copied { self.new.copied ≡ self.old.copied }
        ensures kept { kept self.new ≡ kept self.old }
        ensures rightly { FailsRightly self.old.counts self.new.counts result }
    {
        let is_refused = self.counts.begin();
        let Ok(name) = Blob::from_slice(self.alloc, name.as_bytes()) else {
            return Err(self.counts.starve());
        };
        if self.names.push(name).is_err() {
            return Err(self.counts.starve());
        }
        if is_refused {
            return Err(self.counts.fault());
        }
        self.bound = true;
        Ok(())
    }

    fn len(&mut self, file: u32) -> Result<u64, Fault>
        requires { file ≤ 18 }
        ensures len { IfOk result (λ n. n ≡ length (now (kept self.old) file)) }
        ensures kept { kept self.new ≡ kept self.old }
        ensures names { SameNames self.old self.new }
        ensures rightly { FailsRightly self.old.counts self.new.counts result }
    {
        self.counts.refuse()?;
        Ok(self.disk.bytes(file).len() as u64)
    }

    fn read(&mut self, file: u32, at: u64, into: &mut [u8]) -> Result<(), Fault>
        requires file { file ≤ 18 }
        requires inside { at + length into.old ≤ length (now (kept self.old) file) }
        ensures bytes { OnOk result (into.new ≡ take (length into.old) (drop at (now (kept self.old) file))) }
        ensures kept { kept self.new ≡ kept self.old }
        ensures names { SameNames self.old self.new }
        ensures rightly { FailsRightly self.old.counts self.new.counts result }
    {
        self.counts.refuse()?;
        let at = at as usize;
        into.copy_from_slice(&self.disk.bytes(file)[at..at + into.len()]);
        Ok(())
    }

    fn write(&mut self, file: u32, at: u64, bytes: &[u8]) -> Result<(), Fault>
        requires file { file ≤ 18 }
        requires inside { at ≤ length (now (kept self.old) file) }
        ensures made { OnOk result (kept self.new ≡ (file, written at bytes.now) ∷ kept self.old) }
        ensures not_made { OnErr result (kept self.new ≡ kept self.old) }
        ensures names { SameNames self.old self.new }
        ensures rightly { FailsRightly self.old.counts self.new.counts result }
    {
        self.counts.refuse()?;
        let Ok(bytes) = Blob::from_slice(self.alloc, bytes) else {
            return Err(self.counts.starve());
        };
        let change = Change::Written(at, bytes);
        self.apply(Call { file, change })?;
        Ok(())
    }

    fn cut(&mut self, file: u32, len: u64) -> Result<(), Fault>
        requires { file ≤ 18 }
        ensures made { OnOk result (kept self.new ≡ (file, cut_to len) ∷ kept self.old) }
        ensures not_made { OnErr result (kept self.new ≡ kept self.old) }
        ensures names { SameNames self.old self.new }
        ensures rightly { FailsRightly self.old.counts self.new.counts result }
    {
        self.counts.refuse()?;
        let change = Change::CutTo(len);
        self.apply(Call { file, change })?;
        Ok(())
    }

    fn sync(&mut self, file: u32) -> Result<(), Fault>
        requires { file ≤ 18 }
        ensures made { OnOk result (kept self.new ≡ (file, synced) ∷ kept self.old) }
        ensures not_made { OnErr result (kept self.new ≡ kept self.old) }
        ensures names { SameNames self.old self.new }
        ensures rightly { FailsRightly self.old.counts self.new.counts result }
    {
        self.counts.refuse()?;
        let change = Change::Synced;
        self.apply(Call { file, change })?;
        Ok(())
    }

    fn bind_copy(&mut self, label: &[u8]) -> Result<(), Fault>
        ensures label { OnOk result (self.new.copied.label ≡ Some label.now) }
        ensures label_err { OnErr result (self.new.copied.label ≡ self.old.copied.label) }
        ensures calls { self.new.copied.calls ≡ self.old.copied.calls }
        ensures files { SameFiles self.old self.new }
        ensures rightly { FailsRightly self.old.counts self.new.counts result }
    {
        self.counts.refuse()?;
        if self.copied.bind(label).is_err() {
            return Err(self.counts.starve());
        }
        Ok(())
    }

    fn copy_len(&mut self, file: u32) -> Result<u64, Fault>
        requires { file ≤ 18 }
        ensures len { IfOk result (λ n. n ≡ length (now (copy_kept self.old) file)) }
        ensures kept { kept self.new ≡ kept self.old }
        ensures names { SameNames self.old self.new }
        ensures rightly { FailsRightly self.old.counts self.new.counts result }
    {
        self.counts.refuse()?;
        let copy = self.bound_copy()?;
        Ok(copy.bytes(file).len() as u64)
    }

    fn copy_read(&mut self, file: u32, at: u64, into: &mut [u8]) -> Result<(), Fault>
        requires file { file ≤ 18 }
        requires inside { at + length into.old ≤ length (now (copy_kept self.old) file) }
        ensures bytes { OnOk result (into.new ≡ take (length into.old) (drop at (now (copy_kept self.old) file))) }
        ensures kept { kept self.new ≡ kept self.old }
        ensures names { SameNames self.old self.new }
        ensures rightly { FailsRightly self.old.counts self.new.counts result }
    {
        self.counts.refuse()?;
        let copy = self.bound_copy()?;
        let from = at as usize;
        into.copy_from_slice(&copy.bytes(file)[from..from + into.len()]);
        Ok(())
    }

    fn copy_write(&mut self, file: u32, at: u64, bytes: &[u8]) -> Result<(), Fault>
        requires file { file ≤ 18 }
        requires inside { at ≤ length (now (copy_kept self.old) file) }
        ensures made { OnOk result (CallsCopy (file, written at bytes.now) self.old self.new) }
        ensures not_made { OnErr result (self.new.copied.calls.items ≡ self.old.copied.calls.items) }
        ensures only { OnlyCopied self.old self.new }
        ensures rightly { FailsRightly self.old.counts self.new.counts result }
    {
        self.counts.refuse()?;
        let Ok(bytes) = Blob::from_slice(self.alloc, bytes) else {
            return Err(self.counts.starve());
        };
        let change = Change::Written(at, bytes);
        self.apply_copied(Call { file, change })?;
        Ok(())
    }

    fn copy_cut(&mut self, file: u32, len: u64) -> Result<(), Fault>
        requires { file ≤ 18 }
        ensures made { OnOk result (CallsCopy (file, cut_to len) self.old self.new) }
        ensures not_made { OnErr result (self.new.copied.calls.items ≡ self.old.copied.calls.items) }
        ensures only { OnlyCopied self.old self.new }
        ensures rightly { FailsRightly self.old.counts self.new.counts result }
    {
        self.counts.refuse()?;
        let change = Change::CutTo(len);
        self.apply_copied(Call { file, change })?;
        Ok(())
    }

    fn copy_sync(&mut self, file: u32) -> Result<(), Fault>
        requires { file ≤ 18 }
        ensures made { OnOk result (CallsCopy (file, synced) self.old self.new) }
        ensures not_made { OnErr result (self.new.copied.calls.items ≡ self.old.copied.calls.items) }
        ensures only { OnlyCopied self.old self.new }
        ensures rightly { FailsRightly self.old.counts self.new.counts result }
    {
        self.counts.refuse()?;
        self.apply_copied(Call {
            file,
            change: Change::Synced,
        })?;
        Ok(())
    }

    fn end_copy(&mut self)
        ensures label { self.new.copied.label ≡ None }
        ensures calls { self.new.copied.calls ≡ self.old.copied.calls }
        ensures files { SameFiles self.old self.new }
        ensures counts { self.new.counts ≡ self.old.counts }
    {
        self.copied.end();
    }
}
