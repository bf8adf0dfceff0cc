//! The update log in file 2.
#![tactic(auto, using(tc_space::specs::Frames::only_reads_refl, tc_space::specs::Frames::only_reads_then, tc_space::specs::Frames::only_writes_refl, tc_space::specs::Frames::only_writes_then))]

ghost use Rattle.std.specs.Prelude.{◌≡◌, ◌+◌, ◌-◌, ◌≤◌, ◌<◌, ◌^◌, ◌↔◌, List, [], ◌∷◌, ◌++◌, length, take, drop, min, false, All, is_ok, if◌then◌else◌, IfOk, IfErr, OnOk, OnErr, IsErrOf, IsTrue};
ghost use Rattle.tc_io.specs.Causes.{HasCause};
ghost use Rattle.tc_space.specs.Effects.{Outcome};
ghost use Rattle.tc_space.specs.Frames.{OnlyReads, OnlyWrites, Others};
ghost use Rattle.tc_space.specs.Refusals.{Blamed, OnFault};
ghost use Rattle.tc_space.specs.Stores.{Only, RefusesIn};
ghost use Rattle.ty_ulog.specs.declared.record.Record.{Record};
ghost use Rattle.ty_ulog.specs.Holding.{Holds, Means, ReadsFew, file_of};
ghost use Rattle.ty_ulog.specs.Log.{Breaks, above, log_bytes, records_in};
ghost use Rattle.ty_ulog.specs.Noting.{Asks, EndLacks, GathersOne, IsNoted, LacksAt, MayAppend, Notes, OverflowsWith, StaysGathered, WaitsInVain};
ghost use Rattle.ty_ulog.specs.Records.{record_bytes};
ghost use Rattle.ty_ulog.specs.Updates.{IsUpdating};

use crate::ahead::Ahead;
use crate::errors::broken;
use crate::heads::Piece;
use crate::index::Index;
use crate::record::{Record, RecordRef, ULOG_FILE};
use crate::writing::{put_record, put_seen};
use std::alloc::Global;
use tc_base::{Blob, Fault};
use tc_io::Clock;
use tc_reach::read_into;
use tc_space::{OpenErr, RecErr, Space};

/// An update log: the last timestamp of what file 2 holds, and where some of its records begin.
#[derive(Drop)]
pub struct Ulog {
    alloc: Global,
    last: u64,
    index: Index,
}

/// Bytes of records that are to be written, and the last timestamp in front of them.
#[derive(Drop)]
pub struct Batch {
    bytes: Blob,
    before: u64,
}

// Bytes of records that wait are written once they are so many.
const WRITTEN_AT_ONCE: usize = 524_288;

// Whether a record with these timestamps follows the last one held.
fn follows(last: u64, stamp: u64, before: u64) -> bool
    ensures { IsTrue result ↔ ((before ≡ last) × (last < stamp)) }
{
    (before == last) & (last < stamp)
}

// Adds bytes at the end of file 2, by one write. After an `Err` the space isn't sound.
fn write_end<S: Space>(space: &mut S, end: u64, bytes: &[u8]) -> Result<(), RecErr>
    requires sound { S.sound space.old }
    requires end { S.tells → end ≡ length (S.now space.old 2) }
    ensures wrote { OnOk result (S.tells → S.now space.new 2 ≡ S.now space.old 2 ++ bytes.now) }
    ensures others { OnOk result (Others S.Space (Only 2) space.old space.new) }
    ensures full { IsErrOf result RecErr.Full → LacksAt S.Space space.old space.new end (length bytes.now) }
    ensures outcome { Outcome S.sound S.flag result space.new }
    ensures frame { OnlyWrites S.Space space.old space.new }
    ensures cause { OnFault S.Space result space.old space.new }
{
    space.write(ULOG_FILE, end, bytes)?;
    Ok(())
}

impl Ulog {
    // The log of no records.
    fn empty(alloc: Global) -> Ulog
        ensures last { result.last ≡ 0 }
        ensures marks { result.index.marks ≡ [] }
    {
        Ulog {
            alloc,
            last: 0,
            index: Index::new(alloc),
        }
    }

    /// Reads file 2 through in pieces, one record at a time. `Broken` comes exactly where a rule fails, with the first: that the file is
    /// whole updates is looked at over the whole file before their order is. No more bytes are read than the file has.
    pub fn open<S: Space>(alloc: Global, space: &mut S) -> Result<Ulog, OpenErr>
        requires { S.sound space.old }
        ensures holds { IfOk result (λ u. S.tells → Holds u (S.now space.old 2) (records_in (S.now space.old 2))) }
        ensures broken { IfErr result (Breaks S.tells (S.now space.old 2)) }
        ensures once { S.tells → S.bytes_read space.new ≤ S.bytes_read space.old + length (S.now space.old 2) }
        ensures reads { OnlyReads S.Space space.old space.new }
        ensures cause { Blamed S.Space (IsErrOf result OpenErr.Fault) space.old space.new }
    {
        let end = space.len(ULOG_FILE);
        let mut ahead = Ahead::new(alloc, end);
        let mut log = Ulog::empty(alloc);
        let mut in_order = true;
        'updates: while ahead.place() < end {
            let at = ahead.place();
            let Some(head) = ahead.next(space)? else {
                return Err(broken(1));
            };
            in_order = in_order & follows(log.last, head.stamp, head.before);
            log.index.add(at, log.last)?;
            log.last = head.stamp;
        }
        if !in_order {
            return Err(broken(2));
        }
        Ok(log)
    }

    /// The last timestamp held, 0 where there is no record.
    pub fn last(&self) -> u64
        ensures { result ≡ self.now.last }
    {
        self.last
    }

    /// Adds a record at the end of file 2, by one write. It overwrites nothing, so the undo log gets no entry. After an `Err` the last timestamp
    /// is as it was, and either nothing was written and the log is as before, or the space isn't sound.
    pub fn append<S: Space>(&mut self, space: &mut S, r: &Record) -> Result<(), RecErr>
        requires sound { S.sound space.old }
        requires next { MayAppend self.old r.now }
        ensures notes { OnOk result (Notes S.Space self.old self.new space.old space.new (r.now ∷ [])) }
        ensures refused { RefusesIn S.Space file_of Holds result self.old self.new space.old space.new }
        ensures last { self.new.last ≡ (if is_ok result then r.now.stamp else self.old.last) }
        ensures full { IsErrOf result RecErr.Full → EndLacks S.Space space.old space.new (length (record_bytes r.now)) }
        ensures frame { OnlyWrites S.Space space.old space.new }
        ensures cause { OnFault S.Space result space.old space.new }
    {
        let mut bytes = Blob::new(self.alloc);
        put_record(r, &mut bytes)?;
        let end = space.len(ULOG_FILE);
        self.index.add(end, self.last)?;
        write_end(space, end, bytes.as_slice())?;
        self.last = r.stamp;
        Ok(())
    }

    // Adds the next record, whose request updated, to bytes that are to be written.
    fn note(&mut self, now: u64, own: u16, request: &Blob, bytes: &mut Blob) -> Result<(), RecErr>
        requires { IsUpdating request.now }
        ensures noted { OnOk result (IsNoted self.old self.new own now request.now bytes.old bytes.new) }
        ensures full { IsErrOf result RecErr.Full → self.old.last ≡ 2 ^ 64 - 1 }
        ensures err { OnErr result (self.new ≡ self.old) }
        ensures never_a_fault { IsErrOf result RecErr.Fault → ⊥ }
    {
        let before = self.last;
        let Some(next) = before.checked_add(1) else {
            return Err(RecErr::Full);
        };
        let stamp = next.max(now);
        put_seen(
            RecordRef {
                stamp,
                before,
                server: own,
                master: own,
                request: request.as_slice(),
            },
            bytes,
        )?;
        self.last = stamp;
        Ok(())
    }

    // Writes what waits at the end of file 2. After an `Err` the space isn't sound.
    fn flush<S: Space>(&mut self, space: &mut S, batch: &mut Batch) -> Result<(), RecErr>
        requires { S.sound space.old }
        ensures gathers { OnOk result (StaysGathered S.Space self.old self.new space.old space.new batch.old batch.new) }
        ensures empty { OnOk result (batch.new.bytes ≡ []) }
        ensures full { IsErrOf result RecErr.Full → WaitsInVain S.Space space.old space.new batch.old }
        ensures outcome { Outcome S.sound S.flag result space.new }
        ensures frame { OnlyWrites S.Space space.old space.new }
        ensures cause { OnFault S.Space result space.old space.new }
    {
        if batch.bytes.is_empty() {
            return Ok(());
        }
        let end = space.len(ULOG_FILE);
        let Ok(()) = self.index.add(end, batch.before) else {
            space.spoil();
            return Err(RecErr::Memory);
        };
        write_end(space, end, batch.bytes.as_slice())?;
        batch.bytes.clear();
        batch.before = self.last;
        Ok(())
    }

    // Writes what waits where that is much. After an `Err` the space isn't sound.
    fn flush_much<S: Space>(&mut self, space: &mut S, batch: &mut Batch) -> Result<(), RecErr>
        requires { S.sound space.old }
        ensures gathers { OnOk result (StaysGathered S.Space self.old self.new space.old space.new batch.old batch.new) }
        ensures few { OnOk result (length batch.new.bytes < 524288) }
        ensures full { IsErrOf result RecErr.Full → WaitsInVain S.Space space.old space.new batch.old }
        ensures outcome { Outcome S.sound S.flag result space.new }
        ensures frame { OnlyWrites S.Space space.old space.new }
        ensures cause { OnFault S.Space result space.old space.new }
    {
        if batch.bytes.len() < WRITTEN_AT_ONCE {
            return Ok(());
        }
        self.flush(space, batch)?;
        Ok(())
    }

    // Adds the next record, and writes what waits where that is much. After an `Err` the space isn't sound.
    fn gather<S: Space>(
        &mut self,
        space: &mut S,
        now: u64,
        own: u16,
        request: &Blob,
        batch: &mut Batch,
    ) -> Result<(), RecErr>
        requires sound { S.sound space.old }
        requires few { length batch.old.bytes < 524288 }
        requires noted { IsUpdating request.now }
        ensures gathers { OnOk result (GathersOne S.Space own now request.now self.old self.new space.old space.new batch.old batch.new) }
        ensures few { OnOk result (length batch.new.bytes < 524288) }
        ensures full { IsErrOf result RecErr.Full → OverflowsWith S.Space own now request.now self.old self.new space.old space.new batch.old }
        ensures outcome { Outcome S.sound S.flag result space.new }
        ensures frame { OnlyWrites S.Space space.old space.new }
        ensures cause { OnFault S.Space result space.old space.new }
    {
        match self.note(now, own, request, &mut batch.bytes) {
            Ok(()) => self.flush_much(space, batch),
            Err(e) => {
                space.spoil();
                Err(e)
            }
        }
    }

    /// Adds a record of each of these requests, in order, with the own id in both fields: its timestamp is the clock's answer, which is asked
    /// once for it, or one more than the last timestamp, where that is greater. After an `Err` the space isn't sound.
    ///
    /// They are written behind what file 2 has, as many at once as take about half a MiB.
    pub fn append_updates<S: Space, K: Clock>(
        &mut self,
        space: &mut S,
        clock: &mut K,
        own: u16,
        updates: &[Blob],
    ) -> Result<(), RecErr>
        requires sound { S.sound space.old }
        requires noted { All IsUpdating updates.now }
        ensures asks { Asks S.Space result (K.answers clock.old) (K.answers clock.new) own updates.now self.old self.new space.old space.new }
        ensures refused { OnErr result (S.flag space.new ≡ false) }
        ensures frame { OnlyWrites S.Space space.old space.new }
        ensures cause { OnFault S.Space result space.old space.new }
    {
        let mut batch = Batch {
            bytes: Blob::new(self.alloc),
            before: self.last,
        };
        for request in updates {
            let now = clock.now();
            self.gather(space, now, own, request, &mut batch)?;
        }
        self.flush(space, &mut batch)?;
        Ok(())
    }

    /// The place of the first record with a greater timestamp, or the end. It takes no memory and, where the log is the file's, reads two MiB
    /// and 4,096 bytes at most, however long the log is.
    pub fn after<S: Space>(&self, space: &mut S, stamp: u64) -> Result<u64, Fault>
        requires { S.sound space.old }
        ensures inside { IfOk result (λ at. S.tells → at ≤ length (S.now space.old 2)) }
        ensures rest { IfOk result (λ at. (rs : List Record) → Means S.Space self.now space.old rs → drop at (S.now space.old 2) ≡ log_bytes (above stamp rs)) }
        ensures counted { ReadsFew S.Space self.now space.old space.new 2101248 }
        ensures reads { OnlyReads S.Space space.old space.new }
        ensures cause { HasCause (S.faults space.old) (S.faults space.new) result }
    {
        let end = space.len(ULOG_FILE);
        let mut at = self.index.start(stamp).min(end);
        let mut piece = Piece::read(space, at, end)?;
        while at < end {
            let Some(head) = piece.head(space, at)? else {
                return Ok(end);
            };
            if head.stamp > stamp {
                return Ok(at);
            }
            at += head.size as u64;
        }
        Ok(end)
    }

    /// Fills the front of `into` with the bytes from a place on, as many as there are and have room there; none exactly where none stand
    /// from there on. It takes no memory.
    pub fn next_bytes<S: Space>(
        &self,
        space: &mut S,
        at: u64,
        into: &mut [u8; 4096],
    ) -> Result<usize, Fault>
        requires { S.sound space.old }
        ensures few { IfOk result (λ n. (n ≤ 4096) × (at + n < 2 ^ 64)) }
        ensures count { IfOk result (λ n. S.tells → n ≡ min 4096 (length (S.now space.old 2) - at)) }
        ensures bytes { IfOk result (λ n. S.tells → take n into.new ≡ take n (drop at (S.now space.old 2))) }
        ensures counted { S.bytes_read space.new ≤ S.bytes_read space.old + 4096 }
        ensures reads { OnlyReads S.Space space.old space.new }
        ensures cause { HasCause (S.faults space.old) (S.faults space.new) result }
    {
        let n = space.len(ULOG_FILE).saturating_sub(at).min(4096) as usize;
        if n == 0 {
            return Ok(0);
        }
        read_into(space, ULOG_FILE, at, &mut into[..n])?;
        Ok(n)
    }
}
