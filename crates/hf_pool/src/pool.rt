//! The free blocks of a file and its size.
ghost use Rattle.tc_space.specs.Refusals.{OnFault};

use crate::index::Index;
use crate::marks::mark;
use hf_block::Blocks;
use std::alloc::{AllocError, Global};
use tc_base::{Blob, FOUR_BYTES_END, put_vnum, vnum_len};
use tc_reach::append_zeros;
use tc_space::{RecErr, Space};

/// The free blocks of a file, the size up to which it has blocks, and whether the free blocks may have changed since their section was written.
#[derive(Drop)]
pub struct Pool {
    index: Index,
    unit: u64,
    size: u64,
    changed: bool,
    ghost some: { 5 ≤ unit },
    ghost aligned: { size % unit ≡ 0 },
    ghost within: { LieWithin size (tree.get nat_cmp index.by_place) },
    ghost multiples: { AreMultiples unit (tree.get nat_cmp index.by_place) },
}

impl Pool {
    ghost use Rattle.std.specs.Prelude.{◌≡◌, ℕ, ◌+◌, ◌-◌, ◌%◌, ◌<◌, ◌≤◌, ◌^◌, ◌↔◌, ◌++◌, length, IfOk, IfSome, IfNone, OnOk, OnErr, IsErrOf, IsTrue, true, false};
    ghost use Rattle.hf_block.specs.Walks.{HoldsUpTo};
    ghost use Rattle.hf_layout.specs.Frees.{IsThere, IsBest, HasNone, MeetsNone};
    ghost use Rattle.hf_pool.specs.Pools.{GivesIn, GoesBackIn, HoldsFrees, IsLaidOut, KeepsLaid, LacksRoomToGive, LacksRoomToPart, MayGive, MayTake, Notes, Parts, Takes, TakesIn, frees};
    ghost use Rattle.tc_space.specs.Effects.{Outcome};
    ghost use Rattle.tc_space.specs.Frames.{OnlyWrites};
    ghost use Rattle.hf_pool.specs.Multiples.{LieWithin};
    ghost use Rattle.hf_pool.specs.Joins.{FrontJoined, BackJoined, GivesBack};
    ghost use Rattle.hf_pool.specs.Trims.{Trimmed};
    ghost use Rattle.hf_block.specs.Rows.{StandApart, IsListed};
    ghost use Rattle.hf_pool.specs.Sections.{InOrder};
    ghost use Rattle.hf_pool.specs.Written.{AddsBlocks, AddsPairs, AddsSection};
    ghost use Rattle.tc_reach.specs.Limits.{AddsSome};

    /// The size up to which the file has blocks.
    pub fn size(&self) -> u64
        ensures { result ≡ self.now.size }
    {
        self.size
    }

    /// The unit of places and sizes.
    pub fn unit(&self) -> u64
        ensures value { result ≡ self.now.unit }
        ensures some { 5 ≤ result }
    {
        self.unit
    }

    /// The size of the free block at a place, if one begins there.
    pub fn free_at(&self, place: u64) -> Option<u64>
        ensures size { result ≡ frees self.now place }
        ensures within { LieWithin self.now.size (frees self.now) }
    {
        self.index.at(place)
    }

    /// Whether a block there meets no free block.
    pub fn meets_none(&self, at: u64, size: u64) -> bool
        requires some { 0 < size }
        requires fits { at + size < 2 ^ 64 }
        ensures { IsTrue result ↔ MeetsNone (frees self.now) at size }
    {
        self.index.meets_none(at, size)
    }

    /// Whether free blocks may have changed since `mark_written` was called last. It is so of a pool that was just built.
    pub fn has_changed(&self) -> bool
        ensures { result ≡ self.now.changed }
    {
        self.changed
    }

    /// Notes that the section of the free blocks, as they are, stands in the file.
    pub fn mark_written(&mut self)
        ensures written { self.new.changed ≡ false }
        ensures same { self.new ≡ record self.old { changed = self.new.changed } }
    {
        self.changed = false;
    }

    // The place and size of the least block of at least that size among those that begin below a place, the one at the lowest place among equals. Of those that
    // begin behind it a file that was written here has one at most.
    fn best(&self, size: u64, most: u64) -> Option<(u64, u64)>
        ensures some { IfSome result (λ b. IsBest (frees self.now) most size b.0 b.1) }
        ensures none { IfNone result (HasNone (frees self.now) most size) }
    {
        let mut from = size;
        while let Some((place, found)) = self.index.least(from) {
            if place < most {
                return Some((place, found));
            }
            from = found + 1;
        }
        None
    }

    // A free block parted in memory: the front is taken, and what is left over stays free.
    fn part_in_memory(&mut self, place: u64, found: u64, size: u64) -> Result<(), AllocError>
        requires there { IsThere (frees self.old) place found }
        requires enough { size ≤ found }
        requires some { 0 < size }
        requires aligned { size % self.old.unit ≡ 0 }
        ensures ok { OnOk result (Parts self.old self.new size place found) }
        ensures unit { self.new.unit ≡ self.old.unit }
        ensures changed { self.new.changed ≡ true }
    {
        self.changed = true;
        self.index.remove(place, found);
        if found > size {
            self.index.insert(place + size, found - size)?;
        }
        Ok(())
    }

    /// Takes a block of that size, a multiple of the unit: of the free blocks that begin below `most` the least that is large enough, the one at the lowest
    /// place among equals, of which what is left over stays free; else one at the end, wherever that is. It answers the block's place, a multiple of the unit.
    /// Only the head of what is left over is written. After a refusal the space isn't sound.
    pub fn take<S: Space>(
        &mut self,
        space: &mut S,
        file: u32,
        size: u64,
        most: u64,
    ) -> Result<u64, RecErr>
        requires holds { HoldsFrees S.Space space.old file (frees self.old) }
        requires may { MayTake self.old size }
        ensures taken { IfOk result (Takes most self.old self.new size) }
        ensures file { IfOk result (λ place. TakesIn S.Space file most self.old self.new size place space.old space.new) }
        ensures outcome { Outcome S.sound S.flag result space.new }
        ensures writes { OnlyWrites S.Space space.old space.new }
        ensures notes { Notes self.old self.new }
        ensures full { IsErrOf result RecErr.Full → LacksRoomToPart S.Space most self.old size file space.old space.new }
        ensures cause { OnFault S.Space result space.old space.new }
    {
        let Some((place, found)) = self.best(size, most) else {
            let place = self.size;
            self.size += size;
            return Ok(place);
        };
        let Ok(()) = self.part_in_memory(place, found, size) else {
            space.spoil();
            return Err(RecErr::Memory);
        };
        if found > size {
            mark(space, file, place + size, found - size)?;
        }
        Ok(place)
    }

    // The free block in front of a place is taken out, if a block of that size may be joined to it: the joined block.
    fn join_front(&mut self, at: u64, size: u64) -> (u64, u64)
        requires some { 0 < size }
        requires size { size < 2 ^ 32 }
        ensures joined { FrontJoined (frees self.old) at size result.0 result.1 (frees self.new) }
        ensures end { self.new.size ≡ self.old.size }
        ensures unit { self.new.unit ≡ self.old.unit }
        ensures changed { self.new.changed ≡ self.old.changed }
    {
        let Some(start) = self.index.before(at) else {
            return (at, size);
        };
        let front = at - start;
        if front + size >= FOUR_BYTES_END {
            return (at, size);
        }
        self.index.remove(start, front);
        (start, front + size)
    }

    // The free block at an end is taken out, if it may be joined behind a block of that size: the joined size.
    fn join_back(&mut self, end: u64, size: u64) -> u64
        requires size { size < 2 ^ 32 }
        ensures joined { BackJoined (frees self.old) end size result (frees self.new) }
        ensures end { self.new.size ≡ self.old.size }
        ensures unit { self.new.unit ≡ self.old.unit }
        ensures changed { self.new.changed ≡ self.old.changed }
    {
        let Some(back) = self.index.at(end) else {
            return size;
        };
        if size + back >= FOUR_BYTES_END {
            return size;
        }
        self.index.remove(end, back);
        size + back
    }

    // A block given back in memory: its joined place and size. An `Err` may have lost its neighbours.
    fn give_in_memory(&mut self, at: u64, size: u64) -> Result<(u64, u64), AllocError>
        requires { MayGive self.old at size }
        ensures ok { IfOk result (λ b. GivesBack (frees self.old) (frees self.new) at size b.0 b.1) }
        ensures end { OnOk result (self.new.size ≡ self.old.size) }
        ensures place { IfOk result (λ b. (b.0 ≤ at) × (b.1 < 2 ^ 32)) }
        ensures unit { self.new.unit ≡ self.old.unit }
        ensures changed { self.new.changed ≡ true }
    {
        self.changed = true;
        let (start, half) = self.join_front(at, size);
        let total = self.join_back(at + size, half);
        self.index.insert(start, total)?;
        Ok((start, total))
    }

    /// Gives a block back, whose place and size are multiples of the unit: it is joined with the free neighbour before it and then with the one behind
    /// it, each where the sum is below 2^32, and its head is written. After a refusal the space isn't sound.
    pub fn give<S: Space>(
        &mut self,
        space: &mut S,
        file: u32,
        at: u64,
        size: u64,
    ) -> Result<(), RecErr>
        requires holds { HoldsUpTo S.Space space.old file (at + size) }
        requires may { MayGive self.old at size }
        ensures given { OnOk result (GivesIn S.Space file self.old self.new at size space.old space.new) }
        ensures back { OnOk result (S.tells → GoesBackIn S.Space file self.old self.new at size space.old space.new) }
        ensures stays { Notes self.old self.new × OnOk result (self.new.size ≡ self.old.size) }
        ensures outcome { Outcome S.sound S.flag result space.new }
        ensures writes { OnlyWrites S.Space space.old space.new }
        ensures full { IsErrOf result RecErr.Full → LacksRoomToGive S.Space file self.old self.new at size space.old space.new }
        ensures cause { OnFault S.Space result space.old space.new }
    {
        let Ok((start, total)) = self.give_in_memory(at, size) else {
            space.spoil();
            return Err(RecErr::Memory);
        };
        mark(space, file, start, total)
    }

    /// Takes the free blocks at the end out and lowers the size by theirs.
    pub fn trim(&mut self)
        ensures trimmed { Trimmed (frees self.old) (frees self.new) self.old.size self.new.size }
        ensures laid { KeepsLaid self.old self.new }
        ensures notes { Notes self.old self.new }
        ensures exact { self.new.size ≡ self.old.size → self.new.changed ≡ self.old.changed }
    {
        while let Some(place) = self.index.before(self.size) {
            self.changed = true;
            self.index.remove(place, self.size - place);
            self.size = place;
        }
    }

    /// The free blocks of a list of blocks that stand apart, in ascending place, from `first` up to `size`, a multiple of the unit. Blocks that aren't free
    /// may be left out.
    pub fn build(
        alloc: Global,
        blocks: &Blocks,
        unit: u64,
        first: u64,
        size: u64,
    ) -> Result<Pool, AllocError>
        requires unit { 5 ≤ unit }
        requires size { size % unit ≡ 0 }
        requires blocks { StandApart unit first size blocks.now }
        ensures free { IfOk result (λ pool. (q t : ℕ) → IsThere (frees pool) q t ↔ IsListed blocks.now q t) }
        ensures size { IfOk result (λ pool. pool.size ≡ size) }
        ensures unit { IfOk result (λ pool. pool.unit ≡ unit) }
        ensures laid { IfOk result (IsLaidOut unit first size blocks.now) }
        ensures anew { IfOk result (λ pool. pool.changed ≡ true) }
    {
        let _ = first;
        let mut index = Index::new(alloc);
        for block in blocks.as_slice() {
            if block.free {
                index.insert(block.place, block.size)?;
            }
        }
        Ok(Pool {
            index,
            unit,
            size,
            changed: true,
        })
    }

    // The pairs of the section, and the bytes left behind them. An `Err` may have added some.
    fn put_pairs(&self, len: usize, into: &mut Blob) -> Result<usize, AllocError>
        ensures ok { IfOk result (AddsPairs self.now len into.old into.new) }
        ensures ordered { OnOk result (InOrder (frees self.now) self.now.index.by_place.entries) }
        ensures err { OnErr result (AddsSome into.old into.new) }
    {
        let mut before = 0;
        let mut room = len;
        for (place, size) in self.index.by_place() {
            let shifted = *place / self.unit;
            let difference = shifted.saturating_sub(before);
            let units = *size / self.unit;
            let n = pair_len(difference, units);
            if n + 2 > room {
                return Ok(room);
            }
            put_vnum(difference, into)?;
            put_vnum(units, into)?;
            before = shifted;
            room -= n;
        }
        Ok(room)
    }

    /// Adds the pairs of the pool section of `len` bytes, without the zeros behind them. An `Err` may have added some.
    pub fn pairs(&self, len: usize, into: &mut Blob) -> Result<(), AllocError>
        requires { 2 ≤ len }
        ensures ok { OnOk result (AddsBlocks self.now len into.old into.new) }
        ensures err { OnErr result (AddsSome into.old into.new) }
    {
        self.put_pairs(len, into)?;
        Ok(())
    }

    /// Adds the pool section of `len` bytes: the free blocks in ascending place as far as they fit, and zeros. An `Err` may have
    /// added some of it.
    pub fn section(&self, len: usize, into: &mut Blob) -> Result<(), AllocError>
        requires { 2 ≤ len }
        ensures ok { OnOk result (AddsSection self.now len into.old into.new) }
        ensures err { OnErr result (AddsSome into.old into.new) }
    {
        let room = self.put_pairs(len, into)?;
        append_zeros(room, into)
    }
}

// The bytes of a pair.
fn pair_len(difference: u64, units: u64) -> usize
    ensures value { result ≡ length (vnum difference ++ vnum units) }
    ensures most { result ≤ 20 }
{
    vnum_len(difference) + vnum_len(units)
}

ghost use Rattle.std.specs.Prelude.{◌≡◌, ℕ, ◌+◌, ◌%◌, ◌<◌, ◌≤◌, ◌^◌, ◌++◌, length, Some, OnOk, OnErr};
ghost use Rattle.hf_pool.specs.Multiples.{AreMultiples, LieWithin};
ghost use Rattle.tc_base.specs.Vnum.{vnum};
ghost use Rattle.std.specs.Ordering.{nat_cmp};
ghost use Rattle.std.specs.BTreeMap as tree;
