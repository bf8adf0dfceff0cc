//! Bytes written over those of a file, one after the other and many at once.
ghost use Rattle.std.specs.Prelude.{◌≡◌, ◌+◌, ◌^◌, ◌<◌, ◌≤◌, ◌++◌, [], length, take, drop, OnOk, IsErrOf};
ghost use Rattle.tc_space.specs.Effects.{Outcome};
ghost use Rattle.tc_space.specs.Frames.{Keeps, OnlyReads};
ghost use Rattle.tc_space.specs.Ranges.{IsDataFile};
ghost use Rattle.hf_pack.specs.Effects.{WritesOver};
ghost use Rattle.hf_pack.specs.Streams.{CopiedIn, PushedIn, end_of, LiesBehind, ReachesIn};

use std::alloc::{AllocError, Global};
use tc_base::Blob;
use tc_reach::{give_up, read_into, write_changed};
use tc_space::{RecErr, Space};

/// How many bytes are read and written at once.
pub const PIECE: usize = 65_536;

/// Bytes that come over those of a file: up to a place they are written, and the next ones are held here. There is room for a piece of the file.
#[derive(Drop)]
pub struct Stream {
    at: u64,
    out: Blob,
    pub(crate) room: Vec<u8>,
}

impl Stream {
    /// A stream from a place on.
    pub fn new(alloc: Global, at: u64) -> Stream
        ensures at { result.at ≡ at }
        ensures none { result.out ≡ [] }
    {
        Stream {
            at,
            out: Blob::new(alloc),
            room: Vec::new(alloc),
        }
    }

    /// Where its bytes end; the greatest number where that is past it.
    pub fn end(&self) -> u64
        ensures exact { end_of self.now < 2 ^ 64 → result ≡ end_of self.now }
        ensures most { result ≤ end_of self.now }
    {
        self.at.saturating_add(self.out.len() as u64)
    }

    // Room for so many bytes.
    fn make_room(&mut self, count: usize) -> Result<(), AllocError>
        ensures long { OnOk result (length self.new.room.items ≡ count) }
        ensures same { (self.new.at ≡ self.old.at) × (self.new.out ≡ self.old.out) }
    {
        self.room.resize(count, 0)
    }

    /// Writes what it holds, where it differs from what stands there. After a refusal the space isn't sound.
    pub fn flush<S: Space>(&mut self, space: &mut S, file: u32) -> Result<(), RecErr>
        requires sound { S.sound space.old }
        requires reaches { ReachesIn S.Space space.old file (end_of self.old) }
        ensures pushed { OnOk result (PushedIn S.Space file self.old self.new space.old space.new []) }
        ensures none { OnOk result (self.new.out ≡ []) }
        ensures writes { WritesOver S.Space file result space.old space.new }
    {
        // the bytes lie inside the file, and so their end is no greater
        let end = self.end().min(space.len(file));
        let count = self.out.len();
        let Ok(()) = self.make_room(count) else {
            give_up(space);
            return Err(RecErr::Memory);
        };
        write_changed(space, file, self.at, self.out.as_slice(), &mut self.room)?;
        self.at = end;
        self.out.clear();
        Ok(())
    }

    // Writes what it holds where that is a piece. After a refusal the space isn't sound.
    fn flush_piece<S: Space>(&mut self, space: &mut S, file: u32) -> Result<(), RecErr>
        requires sound { S.sound space.old }
        requires reaches { ReachesIn S.Space space.old file (end_of self.old) }
        ensures pushed { OnOk result (PushedIn S.Space file self.old self.new space.old space.new []) }
        ensures writes { WritesOver S.Space file result space.old space.new }
    {
        if self.out.len() < PIECE {
            return Ok(());
        }
        self.flush(space, file)
    }

    // Takes bytes to those that it holds. After a refusal the space isn't sound.
    fn hold<S: Space>(&mut self, space: &mut S, bytes: &[u8]) -> Result<(), RecErr>
        requires { S.sound space.old }
        ensures held { OnOk result (self.new.out ≡ self.old.out ++ bytes.now) }
        ensures at { self.new.at ≡ self.old.at }
        ensures same { OnOk result (space.new ≡ space.old) }
        ensures outcome { Outcome S.sound S.flag result space.new }
        ensures keeps { Keeps S.Space space.old space.new }
        ensures cause { (IsErrOf result RecErr.Fault → ⊥) × (IsErrOf result RecErr.Full → ⊥) }
    {
        let Ok(()) = self.out.append(bytes) else {
            give_up(space);
            return Err(RecErr::Memory);
        };
        Ok(())
    }

    /// Takes bytes behind its own. After a refusal the space isn't sound.
    pub fn push<S: Space>(&mut self, space: &mut S, file: u32, bytes: &[u8]) -> Result<(), RecErr>
        requires sound { S.sound space.old }
        requires reaches { ReachesIn S.Space space.old file (end_of self.old + length bytes.now) }
        ensures pushed { OnOk result (PushedIn S.Space file self.old self.new space.old space.new bytes.now) }
        ensures writes { WritesOver S.Space file result space.old space.new }
    {
        self.hold(space, bytes)?;
        self.flush_piece(space, file)
    }

    /// Fills its room with so many bytes of the file from a place on. After a refusal the space isn't sound.
    pub fn load<S: Space>(
        &mut self,
        space: &mut S,
        file: u32,
        from: u64,
        count: usize,
    ) -> Result<(), RecErr>
        requires sound { S.sound space.old }
        requires reaches { ReachesIn S.Space space.old file (from + count) }
        ensures loaded { OnOk result (S.tells → self.new.room.items ≡ take count (drop from (S.now space.old file))) }
        ensures long { OnOk result (length self.new.room.items ≡ count) }
        ensures same { (self.new.at ≡ self.old.at) × (self.new.out ≡ self.old.out) }
        ensures reads { OnOk result (OnlyReads S.Space space.old space.new) }
        ensures writes { WritesOver S.Space file result space.old space.new }
    {
        let Ok(()) = self.make_room(count) else {
            give_up(space);
            return Err(RecErr::Memory);
        };
        if let Err(e) = read_into(space, file, from, &mut self.room) {
            give_up(space);
            return Err(RecErr::from(e));
        }
        Ok(())
    }

    /// Takes the bytes in its room behind its own. After a refusal the space isn't sound.
    pub fn push_room<S: Space>(&mut self, space: &mut S, file: u32) -> Result<(), RecErr>
        requires sound { S.sound space.old }
        requires reaches { ReachesIn S.Space space.old file (end_of self.old + length self.old.room.items) }
        ensures pushed { OnOk result (PushedIn S.Space file self.old self.new space.old space.new self.old.room.items) }
        ensures writes { WritesOver S.Space file result space.old space.new }
    {
        let Ok(()) = self.out.append(&self.room) else {
            give_up(space);
            return Err(RecErr::Memory);
        };
        self.flush_piece(space, file)
    }

    // Takes so many bytes from a place on behind its own. After a refusal the space isn't sound.
    fn copy_piece<S: Space>(
        &mut self,
        space: &mut S,
        file: u32,
        from: u64,
        count: usize,
    ) -> Result<(), RecErr>
        requires sound { S.sound space.old }
        requires file { IsDataFile file }
        requires behind { LiesBehind S.Space file self.old from count space.old }
        ensures copied { OnOk result (CopiedIn S.Space file self.old self.new space.old space.new from count) }
        ensures writes { WritesOver S.Space file result space.old space.new }
    {
        self.load(space, file, from, count)?;
        self.push_room(space, file)
    }

    /// Takes so many bytes from a place on behind its own, a piece at a time. After a refusal the space isn't sound.
    pub fn copy<S: Space>(
        &mut self,
        space: &mut S,
        file: u32,
        from: u64,
        count: u64,
    ) -> Result<(), RecErr>
        requires sound { S.sound space.old }
        requires file { IsDataFile file }
        requires behind { LiesBehind S.Space file self.old from count space.old }
        requires long { S.tells → length (S.now space.old file) < 2 ^ 64 }
        ensures copied { OnOk result (CopiedIn S.Space file self.old self.new space.old space.new from count) }
        ensures writes { WritesOver S.Space file result space.old space.new }
    {
        let mut done: u64 = 0;
        while done < count {
            let n = (count - done).min(PIECE as u64);
            self.copy_piece(space, file, from.saturating_add(done), n as usize)?;
            done += n;
        }
        Ok(())
    }
}
