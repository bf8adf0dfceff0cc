//! Bytes of a file that were read ahead of who asks for them.
ghost use Rattle.std.specs.Prelude.{◌≡◌, ℕ, ◌+◌, ◌≤◌, List, [], length, take, drop, IfSome, IsTrue, OnOk};
ghost use Rattle.tc_realfs.specs.Gathering.{ReadsAhead, ShowsAhead, ShowsTold};

use crate::paged::{Source, take_from};
use crate::pages::resize;
use std::alloc::Global;
use std::io;
use std::mem::replace;

/// How many bytes are read at once, at most.
const MOST: u64 = 65_536;

/// The bytes of a file from a place on, up to 64 KiB. Who changes the file lets go of them.
#[derive(Drop)]
pub struct Ahead {
    alloc: Global,
    start: u64,
    bytes: Vec<u8>,
}

impl Ahead {
    /// No bytes, which takes no memory.
    #[tactic(auto, using(crate::proofs::Dues::none_ahead))]
    pub fn new(alloc: Global) -> Ahead
        ensures { (file : List ℕ) → ShowsAhead result file }
    {
        Ahead {
            alloc,
            start: 0,
            bytes: Vec::new(alloc),
        }
    }

    /// Lets go of the bytes.
    #[tactic(auto, using(crate::proofs::Dues::none_ahead))]
    pub fn forget(&mut self)
        ensures { (file : List ℕ) → ShowsAhead self.new file }
    {
        self.bytes.clear();
    }

    // Whether so many bytes from a place on are there.
    fn reaches(&self, at: u64, size: usize) -> bool
        ensures behind { IsTrue result → self.now.start ≤ at }
        ensures inside { IsTrue result → at + size ≤ self.now.start + length self.now.bytes.items }
    {
        let len = self.bytes.len() as u64;
        at >= self.start && at - self.start <= len && size as u64 <= len - (at - self.start)
    }

    // Fills bytes with those from a place on. Answers whether they are there.
    fn copy(&self, at: u64, into: &mut [u8]) -> bool
        ensures { IsTrue result → (file : List ℕ) → ShowsAhead self.now file → into.new ≡ take (length into.old) (drop at file) }
    {
        if !self.reaches(at, into.len()) {
            return false;
        }
        take_from(self.start, &self.bytes, at, into);
        true
    }

    // So many bytes, whatever they are, in place of those that are there. None where memory is wanting.
    fn room(&mut self, count: usize) -> Option<Vec<u8>>
        ensures long { IfSome result (λ room. length room.items ≡ count) }
        ensures none { self.new.bytes.items ≡ [] }
    {
        let mut room = replace(&mut self.bytes, Vec::new(self.alloc));
        resize(&mut room, count).ok()?;
        Some(room)
    }

    // Keeps the bytes of the file from a place on.
    fn keep(&mut self, at: u64, bytes: Vec<u8>)
        ensures { (file : List ℕ) → bytes.items ≡ take (length bytes.items) (drop at file) → ShowsAhead self.new file }
    {
        self.start = at;
        self.bytes = bytes;
    }

    /// Fills bytes with those from a place on of a file of a length, by one call at most, which reads those behind them too where there is memory for them.
    #[tactic(auto, using(crate::proofs::Dues::none_ahead))]
    pub fn read<S: Source + Drop>(
        &mut self,
        source: S,
        len: u64,
        at: u64,
        into: &mut [u8],
    ) -> io::Result<()>
        requires inside { at + length into.old ≤ len }
        ensures bytes { OnOk result (ReadsAhead self.old (S.bytes source) at (length into.old) into.new) }
        ensures shows { ShowsTold (S.bytes source) self.old → ShowsTold (S.bytes source) self.new }
    {
        if self.copy(at, into) {
            return Ok(());
        }
        let count = (len - at).min(MOST) as usize;
        if into.len() > count {
            return source.read_at(at, into);
        }
        let Some(mut room) = self.room(count) else {
            return source.read_at(at, into);
        };
        source.read_at(at, &mut room)?;
        take_from(at, &room, at, into);
        self.keep(at, room);
        Ok(())
    }
}
