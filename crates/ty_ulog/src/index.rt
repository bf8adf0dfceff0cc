//! Places in an update log, so that none is found by reading all of it.
ghost use Rattle.std.specs.Prelude.{◌≡◌, ◌↔◌, ◌-◌, ◌≤◌, ◌<◌, List, [], length, OnOk, OnErr, IsTrue};
ghost use Rattle.std.specs.List.Sorted.{IsNonDecreasingBy};
ghost use Rattle.ty_ulog.specs.declared.index.Mark.{Mark};
ghost use Rattle.ty_ulog.specs.declared.record.Record.{Record};
ghost use Rattle.ty_ulog.specs.Log.{Follow};
ghost use Rattle.ty_ulog.specs.Holding.{Marked, Spread};
ghost use Rattle.ty_ulog.specs.Steps.{IsParted, StartsAt, last_place};

use std::alloc::{AllocError, Global};
use tc_base::Seq;

/// So many bytes a mark lies behind the one before it, or more.
pub const MARK_STEP: u64 = 524_288;

/// A place at which a record begins, and the last timestamp in front of it.
#[derive(Clone, Copy)]
pub struct Mark {
    pub place: u64,
    pub last: u64,
}

/// Marks in the order of their places: at most 16 bytes for each half MiB of the log.
#[derive(Drop)]
pub struct Index {
    marks: Seq<Mark>,
}

// How many marks have no greater timestamp.
fn count_passed(marks: &[Mark], stamp: u64) -> usize
    ensures bound { result ≤ length marks.now }
    ensures parted { IsNonDecreasingBy (λ (m : Mark). m.last) marks.now → IsParted marks.now stamp result }
{
    marks.partition_point(|mark| mark.last <= stamp)
}

// The place of the last of these marks, or the front.
#[tactic(auto, using(crate::proofs::Marking::marks_last, crate::proofs::Marking::marks_none))]
fn last_place(marks: &[Mark]) -> u64
    ensures { result ≡ last_place 0 marks.now }
{
    match marks.last() {
        Some(mark) => mark.place,
        None => 0,
    }
}

impl Index {
    /// No marks, which takes no memory.
    pub fn new(alloc: Global) -> Index
        ensures { result.marks ≡ [] }
    {
        Index {
            marks: Seq::new(alloc),
        }
    }

    // Whether a place is near the last mark, or the front.
    fn is_near(&self, place: u64) -> bool
        ensures { IsTrue result ↔ (place - last_place 0 self.now.marks < 524288) }
    {
        let marked = last_place(self.marks.as_slice());
        place.saturating_sub(marked) < MARK_STEP
    }

    /// Records come at this place, behind the last timestamp: where the last mark is far, the place is marked. An `Err` changes nothing.
    pub fn add(&mut self, place: u64, last: u64) -> Result<(), AllocError>
        ensures marked { OnOk result (Marked self.old.marks self.new.marks place last) }
        ensures err { OnErr result (self.new ≡ self.old) }
    {
        if self.is_near(place) {
            return Ok(());
        }
        self.marks.push(Mark { place, last })?;
        Ok(())
    }

    /// From where on the first record above a timestamp is looked for.
    pub fn start(&self, stamp: u64) -> u64
        ensures { (rs : List Record) → Follow 0 rs → Spread self.now.marks 0 0 rs → StartsAt rs stamp result }
    {
        let marks = self.marks.as_slice();
        let passed = count_passed(marks, stamp);
        last_place(&marks[..passed])
    }
}
