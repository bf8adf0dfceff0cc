//! Bytes of a file that are read many at once.
ghost use Rattle.std.specs.Prelude.{◌≡◌, ℕ, ◌+◌, ◌-◌, ◌≤◌, List, length, take, drop, OnOk, IsErrOf, IsTrue};
ghost use Rattle.tc_io.specs.Causes.{HasCause};
ghost use Rattle.tc_space.specs.Ranges.{IsDataFile};
ghost use Rattle.tc_space.specs.Frames.{OnlyReads};
ghost use Rattle.tc_space.specs.Refusals.{Blamed};
ghost use Rattle.tc_reach.specs.declared.window.Window.{Window};
ghost use Rattle.tc_reach.specs.Windows.{Covers, Shows};

use crate::errors::ReadErr;
use crate::reading::read_into;
use std::alloc::{AllocError, Global};
use tc_base::Fault;
use tc_space::Space;

/// Bytes of a file from a place on.
#[derive(Drop)]
pub struct Window {
    at: u64,
    bytes: Vec<u8>,
}

impl Window {
    /// No bytes, which takes no memory.
    pub fn new(alloc: Global) -> Window
        ensures { (file : List ℕ) → Shows result file }
    {
        Window {
            at: 0,
            bytes: Vec::new(alloc),
        }
    }

    // Whether so many bytes from a place on are there.
    fn has(&self, at: u64, count: usize) -> bool
        ensures { IsTrue result → Covers self.now at count }
    {
        if at < self.at {
            return false;
        }
        let skip = at - self.at;
        let len = self.bytes.len() as u64;
        if skip > len {
            return false;
        }
        count as u64 <= len - skip
    }

    // So many bytes, whatever they are, that stand for those from a place on.
    fn make_room(&mut self, at: u64, count: usize) -> Result<(), AllocError>
        ensures at { OnOk result (self.new.at ≡ at) }
        ensures long { OnOk result (length self.new.bytes.items ≡ count) }
    {
        if self.bytes.len() != count {
            self.bytes.clear();
            self.bytes.resize(count, 0)?;
        }
        self.at = at;
        Ok(())
    }

    // Reads as many bytes as there is room for.
    fn read<S: Space>(&mut self, space: &mut S, file: u32) -> Result<(), Fault>
        requires sound { S.sound space.old }
        requires file { IsDataFile file }
        requires inside { S.tells → self.old.at + length self.old.bytes.items ≤ length (S.now space.old file) }
        ensures at { self.new.at ≡ self.old.at }
        ensures long { length self.new.bytes.items ≡ length self.old.bytes.items }
        ensures shows { OnOk result (S.tells → Shows self.new (S.now space.old file)) }
        ensures reads { OnlyReads S.Space space.old space.new }
        ensures cause { HasCause (S.faults space.old) (S.faults space.new) result }
    {
        read_into(space, file, self.at, &mut self.bytes)
    }

    /// Brings so many bytes from a place on into the window, if they aren't there, with those behind them up to 4,096 in all.
    ///
    /// After an error the window shows nothing that may be relied on.
    pub fn fill<S: Space>(
        &mut self,
        space: &mut S,
        file: u32,
        at: u64,
        count: usize,
    ) -> Result<(), ReadErr>
        requires sound { S.sound space.old }
        requires file { IsDataFile file }
        requires inside { S.tells → at + count ≤ length (S.now space.old file) }
        ensures covers { OnOk result (Covers self.new at count) }
        ensures shows { OnOk result (S.tells → Shows self.old (S.now space.old file) → Shows self.new (S.now space.old file)) }
        ensures reads { OnlyReads S.Space space.old space.new }
        ensures cause { Blamed S.Space (IsErrOf result ReadErr.Fault) space.old space.new }
    {
        if self.has(at, count) {
            return Ok(());
        }
        let ahead = space.len(file).saturating_sub(at).min(4096) as usize;
        self.make_room(at, ahead.max(count))?;
        self.read(space, file)?;
        Ok(())
    }

    /// So many bytes from a place on.
    pub fn get(&self, at: u64, count: usize) -> &[u8]
        requires { Covers self.now at count }
        ensures long { length result.now ≡ count }
        ensures shows { (file : List ℕ) → Shows self.now file → result.now ≡ take count (drop at file) }
    {
        let skip = (at - self.at) as usize;
        &self.bytes[skip..skip + count]
    }

    /// The bytes from a place on that are there; none, where it isn't among them.
    pub fn rest(&self, at: u64) -> &[u8]
        ensures { (file : List ℕ) → Shows self.now file → result.now ≡ take (length result.now) (drop at file) }
    {
        if at < self.at || at - self.at > self.bytes.len() as u64 {
            return &self.bytes[..0];
        }
        let skip = (at - self.at) as usize;
        &self.bytes[skip..]
    }
}
