//! The bytes of one file.
ghost use Rattle.std.specs.Prelude.{◌≡◌, ℕ, List, [], ◌+◌, ◌-◌, ◌≤◌, length, take, OnOk, OnErr};
ghost use Rattle.tc_base.specs.Files.{wrote};
ghost use Rattle.tc_fakes.specs.Chosen.{made, left, torn, torn_over};
ghost use Rattle.tc_fakes.specs.History.{step_of};

use crate::changes::Change;
use crate::choice::Choice;
use std::alloc::{AllocError, Global};
use std::marker::Model;

/// The bytes of a file.
#[derive(Drop)]
pub struct FileBytes {
    alloc: Global,
    bytes: Vec<u8>,
}

impl Model for FileBytes {
    ghost Value = { List ℕ };

    ghost view = { λ f. f.bytes.items };
}

// Puts bytes over others from a place on.
fn put_at(into: &mut [u8], at: usize, bytes: &[u8])
    requires { at + length bytes.now ≤ length into.old }
    ensures { into.new ≡ wrote at bytes.now into.old }
{
    into[at..at + bytes.len()].copy_from_slice(bytes);
}

// Puts what a stop leaves of bytes over others from a place on.
fn tear_at(into: &mut [u8], at: usize, bytes: &[u8], choice: &Choice)
    requires { at + length bytes.now ≤ length into.old }
    ensures { into.new ≡ wrote at (torn_over choice.now bytes.now) into.old }
{
    put_over(&mut into[at..at + bytes.len()], bytes, choice);
}

// Puts bytes over others of the same length: at most so many of them, and then the filling.
fn put_over(into: &mut [u8], bytes: &[u8], choice: &Choice)
    requires { length into.old ≡ length bytes.now }
    ensures { into.new ≡ torn_over choice.now bytes.now }
{
    let keep = choice.keep.min(bytes.len() as u64) as usize;
    into[..keep].copy_from_slice(&bytes[..keep]);
    into[keep..].fill(choice.fill);
}

impl FileBytes {
    /// No bytes, which takes no memory.
    pub fn new(alloc: Global) -> FileBytes
        ensures { result ≡ [] }
    {
        FileBytes {
            alloc,
            bytes: Vec::new(alloc),
        }
    }

    pub fn as_slice(&self) -> &[u8]
        ensures { result.now ≡ self.now }
    {
        self.bytes.as_slice()
    }

    // Puts other bytes in place of all. An `Err` changes nothing.
    fn load(&mut self, bytes: &[u8]) -> Result<(), AllocError>
        ensures ok { OnOk result (self.new ≡ bytes.now) }
        ensures err { OnErr result (self.new ≡ self.old) }
    {
        self.bytes = Vec::from_slice(self.alloc, bytes)?;
        Ok(())
    }

    // Writes bytes from a place on, or at the end where it lies behind. An `Err` changes nothing.
    fn write(&mut self, at: u64, bytes: &[u8]) -> Result<(), AllocError>
        ensures ok { OnOk result (self.new ≡ wrote at bytes.now self.old) }
        ensures err { OnErr result (self.new ≡ self.old) }
    {
        let len = self.bytes.len();
        let at = at.min(len as u64) as usize;
        let (over, more) = bytes.split_at(bytes.len().min(len - at));
        self.bytes.extend_from_slice(more)?;
        put_at(&mut self.bytes, at, over);
        Ok(())
    }

    // What a write that was stopped leaves. An `Err` changes nothing.
    fn tear(&mut self, at: u64, bytes: &[u8], choice: &Choice) -> Result<(), AllocError>
        ensures ok { OnOk result (self.new ≡ torn choice.now at bytes.now self.old) }
        ensures err { OnErr result (self.new ≡ self.old) }
    {
        let len = self.bytes.len();
        if (len as u64) < at {
            return Ok(());
        }
        let at = at as usize;
        let (over, more) = bytes.split_at(bytes.len().min(len - at));
        let keep = choice.keep.min(more.len() as u64) as usize;
        self.bytes.extend_from_slice(&more[..keep])?;
        tear_at(&mut self.bytes, at, over, choice);
        Ok(())
    }

    /// Makes a change. An `Err` changes nothing.
    pub fn make(&mut self, change: &Change) -> Result<(), AllocError>
        ensures ok { OnOk result (self.new ≡ made (step_of change.now) self.old) }
        ensures err { OnErr result (self.new ≡ self.old) }
    {
        match change {
            Change::Loaded(bytes) => self.load(bytes.as_slice()),
            Change::Written(at, bytes) => self.write(*at, bytes.as_slice()),
            Change::CutTo(len) => {
                self.bytes.truncate(*len as usize);
                Ok(())
            }
            Change::Synced => Ok(()),
        }
    }

    /// Makes of an image what a stop leaves of a change, where the file reads `reads`. An `Err` changes nothing.
    pub fn leave(
        &mut self,
        change: &Change,
        reads: &[u8],
        choice: &Choice,
    ) -> Result<(), AllocError>
        ensures ok { OnOk result (self.new ≡ left choice.now (step_of change.now) reads.now self.old) }
        ensures err { OnErr result (self.new ≡ self.old) }
    {
        match change {
            Change::Loaded(bytes) => self.load(bytes.as_slice()),
            Change::Written(at, bytes) => self.tear(*at, bytes.as_slice(), choice),
            Change::CutTo(len) => {
                if choice.cut {
                    self.bytes.truncate(*len as usize);
                }
                Ok(())
            }
            Change::Synced => self.load(reads),
        }
    }
}
