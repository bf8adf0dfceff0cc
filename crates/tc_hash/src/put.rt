//! Keys given values.
ghost use Rattle.std.specs.Prelude.{◌≡◌, ◌+◌, ◌≤◌, ◌<◌, ◌↔◌, length, IfOk, OnOk, OnErr, IsErrOf, IsTrue};
ghost use Rattle.tc_base.specs.declared.kind.Mode.{Mode};
ghost use Rattle.tc_base.specs.declared.kind.Mode.TheVariants.{Over, Cat};
ghost use Rattle.tc_space.specs.Effects.{Outcome};
ghost use Rattle.tc_space.specs.Frames.{Keeps};
ghost use Rattle.tc_space.specs.Refusals.{Blamed, OnFault, OnlyLogIsFull};
ghost use Rattle.hf_chain.specs.Costs.{PaidBy, step_most};
ghost use Rattle.hf_record.specs.Asking.{PaysFor};
ghost use Rattle.hf_record.specs.Changing.{FitsInto};
ghost use Rattle.hf_record.specs.Moves.{LacksRoom};
ghost use Rattle.hf_record.specs.Searching.{IsGap};
ghost use Rattle.tc_hash.specs.Keeping.{CanCall, GivesNew, GivesValue, LacksBlock, Refused, StaysOpen, size_for};
ghost use Rattle.tc_hash.specs.Putting.{Answers, CanCallAt, CanCallIn, IsKept, LacksFor, LacksWithin, PutsValue, joined_to};

use crate::hash::Hash;
use hf_record::{Parent, Place, Search, block_of};
use tc_base::{BLOCK_MOST, Mode, Steps};
use tc_reach::{full_in, give_up};
use tc_space::{PutErr, RecErr, Space};

/// What a put did.
#[derive(Clone, Copy, Drop, PartialEq, Eq)]
pub enum Put {
    /// The key has the value. Before, it had one of so many bytes, if it had one.
    Stored(Option<u64>),
    /// The key is held and was to be kept. Nothing has changed.
    Held,
    /// The value would have more bytes than were allowed. Nothing has changed.
    TooLong,
}

// Whether a number and another one make no more than is allowed.
fn fits(old: u64, more: usize, most: u64) -> bool
    ensures { IsTrue result ↔ (old + more ≤ most) }
{
    match old.checked_add(more as u64) {
        Some(sum) => sum <= most,
        None => false,
    }
}

impl<S: Space> Hash<S> {
    // Gives a value to a key that isn't held, where it would hang. After a refusal the space isn't sound.
    fn insert(&mut self, space: &mut S, key: &[u8], value: &[u8], to: &Parent) -> Result<(), RecErr>
        requires ready { CanCall S.Space self.old space.old }
        requires gap { IsGap S.Space self.old.body key.now space.old to.now }
        ensures put { OnOk result (GivesNew S.Space key.now value.now self.old self.new space.old space.new) }
        ensures outcome { Outcome S.sound S.flag result space.new }
        ensures full { IsErrOf result RecErr.Full → S.tells → LacksRoom S.Space self.old.body space.old space.new (size_for self.old key.now value.now) }
        ensures keeps { Keeps S.Space space.old space.new }
        ensures stays { StaysOpen self.old self.new }
        ensures counted { S.bytes_read space.new ≡ S.bytes_read space.old }
        ensures cause { OnFault S.Space result space.old space.new }
    {
        // no file has so many records
        if self.records == u64::MAX {
            give_up(space);
            return Err(RecErr::Memory);
        }
        self.body.hang_new(space, key, value, to)?;
        self.records += 1;
        Ok(())
    }

    /// Gives a value to a key that isn't held, as is known. After a refusal the space isn't sound.
    pub(crate) fn insert_absent<L>(
        &mut self,
        space: &mut S,
        key: &[u8],
        value: &[u8],
        steps: &mut Steps<L>,
    ) -> Result<(), RecErr>
        requires ready { CanCall S.Space self.old space.old }
        ensures put { OnOk result (GivesNew S.Space key.now value.now self.old self.new space.old space.new) }
        ensures outcome { Outcome S.sound S.flag result space.new }
        ensures full { IsErrOf result RecErr.Full → S.tells → LacksRoom S.Space self.old.body space.old space.new (size_for self.old key.now value.now) }
        ensures keeps { Keeps S.Space space.old space.new }
        ensures stays { StaysOpen self.old self.new }
        ensures paid { PaidBy S.Space (step_most (length key.now)) steps.old steps.new space.old space.new }
        ensures cause { OnFault S.Space result space.old space.new }
    {
        match self.body.search(space, key, steps) {
            Ok(Search::Gap(to)) => self.insert(space, key, value, &to),
            // in a file whose bytes are told no record has the key
            Ok(Search::Here(_)) => {
                give_up(space);
                Err(RecErr::Memory)
            }
            Err(e) => {
                give_up(space);
                Err(RecErr::from(e))
            }
        }
    }

    // Gives another value to a key, inside the block of `room` bytes that its record has. After a refusal the space isn't sound.
    fn replace_inside(
        &mut self,
        space: &mut S,
        key: &[u8],
        value: &[u8],
        place: &Place,
        room: u64,
    ) -> Result<(), RecErr>
        requires block { CanCallIn S.Space key.now place.now room self.old space.old }
        requires fits { FitsInto self.old.body key.now value.now room }
        ensures put { OnOk result (GivesValue S.Space Over key.now value.now 5 self.old self.new space.old space.new) }
        ensures outcome { Outcome S.sound S.flag result space.new }
        ensures full { OnlyLogIsFull S.Space result space.new }
        ensures keeps { Keeps S.Space space.old space.new }
        ensures stays { StaysOpen self.old self.new }
        ensures counted { S.bytes_read space.new ≡ S.bytes_read space.old }
        ensures cause { OnFault S.Space result space.old space.new }
    {
        self.body.replace(space, key, value, place, room)
    }

    // Gives another value to a key whose record's block of `room` bytes is too small for it: the block is given back, and a new one taken. After a
    // refusal the space isn't sound, or nothing has changed.
    fn move_to_larger<L>(
        &mut self,
        space: &mut S,
        key: &[u8],
        value: &[u8],
        place: &Place,
        room: u64,
        steps: &mut Steps<L>,
    ) -> Result<(), RecErr>
        requires block { CanCallIn S.Space key.now place.now room self.old space.old }
        requires few { room < size_for self.old key.now value.now }
        ensures put { OnOk result (GivesValue S.Space Over key.now value.now 34 self.old self.new space.old space.new) }
        ensures refused { OnErr result (Refused S.Space self.old self.new space.old space.new) }
        ensures full { IsErrOf result RecErr.Full → LacksBlock S.Space Over key.now value.now self.old space.old space.new }
        ensures keeps { Keeps S.Space space.old space.new }
        ensures stays { StaysOpen self.old self.new }
        ensures paid { PaidBy S.Space (step_most (length key.now)) steps.old steps.new space.old space.new }
        ensures cause { OnFault S.Space result space.old space.new }
    {
        self.take_record(space, key, place, room, steps)?;
        self.insert_absent(space, key, value, steps)
    }

    // Gives another value to a key whose record was found. After a refusal the space isn't sound, or nothing has changed.
    fn replace<L>(
        &mut self,
        space: &mut S,
        key: &[u8],
        value: &[u8],
        place: &Place,
        steps: &mut Steps<L>,
    ) -> Result<(), RecErr>
        requires { CanCallAt S.Space key.now place.now self.old space.old }
        ensures put { OnOk result (GivesValue S.Space Over key.now value.now 34 self.old self.new space.old space.new) }
        ensures refused { OnErr result (Refused S.Space self.old self.new space.old space.new) }
        ensures full { IsErrOf result RecErr.Full → LacksBlock S.Space Over key.now value.now self.old space.old space.new }
        ensures keeps { Keeps S.Space space.old space.new }
        ensures stays { StaysOpen self.old self.new }
        ensures paid { PaidBy S.Space (step_most (length key.now)) steps.old steps.new space.old space.new }
        ensures cause { OnFault S.Space result space.old space.new }
    {
        let Some(wanted) = self.body.size_for(key, value) else {
            return Err(full_in(space));
        };
        let room = block_of(&place.rec);
        if wanted > room {
            return self.move_to_larger(space, key, value, place, room, steps);
        }
        self.replace_inside(space, key, value, place, room)
    }

    // Joins bytes behind the value of a key whose record was found. After a refusal the space isn't sound, or nothing has changed.
    fn join<L>(
        &mut self,
        space: &mut S,
        key: &[u8],
        more: &[u8],
        place: &Place,
        steps: &mut Steps<L>,
    ) -> Result<(), RecErr>
        requires { CanCallAt S.Space key.now place.now self.old space.old }
        ensures put { OnOk result (GivesValue S.Space Cat key.now more.now 34 self.old self.new space.old space.new) }
        ensures refused { OnErr result (Refused S.Space self.old self.new space.old space.new) }
        ensures full { IsErrOf result RecErr.Full → LacksBlock S.Space Cat key.now more.now self.old space.old space.new }
        ensures keeps { Keeps S.Space space.old space.new }
        ensures stays { StaysOpen self.old self.new }
        ensures paid { PaysFor S.Space key.now place.now.rec.value steps.old steps.new space.old space.new }
        ensures cause { OnFault S.Space result space.old space.new }
    {
        let mut longer = self.body.value_at(space, key, place)?;
        longer.append(more)?;
        self.replace(space, key, longer.as_slice(), place, steps)
    }

    // Puts a key that isn't held, where it would hang; whatever the mode, it does the same.
    fn put_absent(
        &mut self,
        space: &mut S,
        key: &[u8],
        value: &[u8],
        most: u64,
        to: &Parent,
    ) -> Result<Put, RecErr>
        requires ready { CanCall S.Space self.old space.old }
        requires gap { IsGap S.Space self.old.body key.now space.old to.now }
        ensures put { IfOk result (λ p. (mode : Mode) → Answers S.Space mode key.now value.now most p self.old self.new space.old space.new) }
        ensures refused { OnErr result (Refused S.Space self.old self.new space.old space.new) }
        ensures full { IsErrOf result RecErr.Full → (mode : Mode) → LacksWithin S.Space mode key.now value.now most self.old space.old space.new }
        ensures keeps { Keeps S.Space space.old space.new }
        ensures stays { StaysOpen self.old self.new }
        ensures counted { S.bytes_read space.new ≡ S.bytes_read space.old }
        ensures cause { OnFault S.Space result space.old space.new }
    {
        if value.len() as u64 > most {
            return Ok(Put::TooLong);
        }
        self.insert(space, key, value, to)?;
        Ok(Put::Stored(None))
    }

    // Puts a key that is held, whose record was found.
    fn put_held<L>(
        &mut self,
        space: &mut S,
        key: &[u8],
        value: &[u8],
        mode: Mode,
        most: u64,
        place: &Place,
        steps: &mut Steps<L>,
    ) -> Result<Put, RecErr>
        requires { CanCallAt S.Space key.now place.now self.old space.old }
        ensures put { IfOk result (λ p. Answers S.Space mode key.now value.now most p self.old self.new space.old space.new) }
        ensures refused { OnErr result (Refused S.Space self.old self.new space.old space.new) }
        ensures full { IsErrOf result RecErr.Full → LacksWithin S.Space mode key.now value.now most self.old space.old space.new }
        ensures keeps { Keeps S.Space space.old space.new }
        ensures stays { StaysOpen self.old self.new }
        ensures steps { steps.old ≤ steps.new }
        ensures paid { IfOk result (λ p. PaysFor S.Space key.now (joined_to mode p) steps.old steps.new space.old space.new) }
        ensures cause { OnFault S.Space result space.old space.new }
    {
        let was = place.rec.value;
        match mode {
            Mode::Keep => Ok(Put::Held),
            Mode::Over => {
                if value.len() as u64 > most {
                    return Ok(Put::TooLong);
                }
                self.replace(space, key, value, place, steps)?;
                Ok(Put::Stored(Some(was)))
            }
            Mode::Cat => {
                if !fits(was, value.len(), most) {
                    return Ok(Put::TooLong);
                }
                self.join(space, key, value, place, steps)?;
                Ok(Put::Stored(Some(was)))
            }
        }
    }

    /// Gives a key a value of at most so many bytes, and answers what it did: `Held` comes exactly with `Keep` on a held key, `TooLong` exactly where the
    /// value, with `Cat` behind the one that the key has, would have more and isn't that of a key to be kept.
    ///
    /// The record stands in the least block that holds it. It is written over the old one where that one's block is large enough, whose rest is given back;
    /// else that block is given back whole and another is taken: the least free one that is large enough, at the lowest place among equals, or, where none
    /// is, one at the end, by which alone the file grows. Besides the block at most 512 bytes of the file differ. No more bytes are read than those of the
    /// steps, and with `Cat` the old value. It is full only where no block was to be had for this record, or where the undo log is. After a refusal the space isn't
    /// sound, or nothing has changed; where it is full it isn't sound.
    pub fn put_within<L>(
        &mut self,
        space: &mut S,
        key: &[u8],
        value: &[u8],
        mode: Mode,
        most: u64,
        steps: &mut Steps<L>,
    ) -> Result<Put, RecErr>
        requires { CanCall S.Space self.old space.old }
        ensures put { IfOk result (λ p. Answers S.Space mode key.now value.now most p self.old self.new space.old space.new) }
        ensures refused { OnErr result (Refused S.Space self.old self.new space.old space.new) }
        ensures full { IsErrOf result RecErr.Full → LacksWithin S.Space mode key.now value.now most self.old space.old space.new }
        ensures keeps { Keeps S.Space space.old space.new }
        ensures stays { StaysOpen self.old self.new }
        ensures steps { steps.old ≤ steps.new }
        ensures paid { IfOk result (λ p. PaysFor S.Space key.now (joined_to mode p) steps.old steps.new space.old space.new) }
        ensures cause { OnFault S.Space result space.old space.new }
    {
        match self.body.search(space, key, steps)? {
            Search::Gap(to) => self.put_absent(space, key, value, most, &to),
            Search::Here(place) => self.put_held(space, key, value, mode, most, &place, steps),
        }
    }

    /// Gives a key a value, as `put_within` does; `Exists` comes exactly with `Keep` on a held key, and changes nothing. Where it is full the space isn't sound.
    pub fn put<L>(
        &mut self,
        space: &mut S,
        key: &[u8],
        value: &[u8],
        mode: Mode,
        steps: &mut Steps<L>,
    ) -> Result<(), PutErr>
        requires { CanCall S.Space self.old space.old }
        ensures put { OnOk result (PutsValue S.Space mode key.now value.now self.old self.new space.old space.new) }
        ensures exists { IsErrOf result PutErr.Exists → IsKept S.Space mode key.now self.old self.new space.old space.new }
        ensures refused { OnErr result (Refused S.Space self.old self.new space.old space.new) }
        ensures full { IsErrOf result PutErr.Full → LacksFor S.Space mode key.now value.now self.old space.old space.new }
        ensures keeps { Keeps S.Space space.old space.new }
        ensures stays { StaysOpen self.old self.new }
        ensures steps { steps.old ≤ steps.new }
        ensures cause { Blamed S.Space (IsErrOf result PutErr.Fault) space.old space.new }
    {
        match self.put_within(space, key, value, mode, BLOCK_MOST, steps)? {
            Put::Stored(_) => Ok(()),
            Put::Held => Err(PutErr::Exists),
            // no block is so large
            Put::TooLong => Err(PutErr::from(full_in(space))),
        }
    }
}
