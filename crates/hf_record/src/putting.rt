//! A key given a value.
ghost use Rattle.std.specs.Prelude.{◌≡◌, ◌+◌, ◌≤◌, length, OnOk, OnErr, IsErrOf, IsTrue, false};
ghost use Rattle.tc_space.specs.Effects.{Outcome};
ghost use Rattle.tc_space.specs.Frames.{OnlyWrites};
ghost use Rattle.tc_space.specs.Refusals.{OnFault, OnlyLogIsFull};
ghost use Rattle.hf_record.specs.Allocating.{Shortens};
ghost use Rattle.hf_record.specs.Changing.{CanChange, FitsInto, MayWriteOver, PutsAt, PutsNew, StaysBody, WritesOver, size_in};
ghost use Rattle.hf_record.specs.Moves.{LacksRoom};
ghost use Rattle.hf_record.specs.Searching.{HasFound, IsGap};

use crate::body::Body;
use hf_chain::{Parent, Place, hang};
use tc_base::second_hash;
use tc_reach::{give_up, refused_for, write_at};
use tc_space::{RecErr, Space};

// Whether so many bytes from a place on end by another place.
fn ends_by(at: u64, size: u64, end: u64) -> bool
    ensures { IsTrue result → at + size ≤ end }
{
    at <= end && size <= end - at
}

impl Body {
    /// Hangs a record of a key that isn't held, where it would hang, in a block that is taken for it. After a refusal the space isn't sound.
    pub fn hang_new<S: Space>(
        &mut self,
        space: &mut S,
        key: &[u8],
        value: &[u8],
        to: &Parent,
    ) -> Result<(), RecErr>
        requires may { CanChange S.Space self.old space.old }
        requires gap { IsGap S.Space self.old key.now space.old to.now }
        ensures put { OnOk result (PutsNew S.Space key.now value.now self.old self.new space.old space.new) }
        ensures stays { StaysBody self.old self.new }
        ensures refused { OnErr result (S.flag space.new ≡ false) }
        ensures writes { OnlyWrites S.Space space.old space.new }
        ensures full { IsErrOf result RecErr.Full → S.tells → LacksRoom S.Space self.old space.old space.new (size_in self.old key.now value.now) }
        ensures cause { OnFault S.Space result space.old space.new }
    {
        let bytes = match self.spell(second_hash(key), 0, 0, key, value) {
            Ok(bytes) => bytes,
            Err(e) => return Err(refused_for(space, e)),
        };
        let place = self.add(space, bytes.as_slice())?;
        hang(space, self.file, &self.head, place, to)?;
        Ok(())
    }

    // Writes a record over a block of `room` bytes that isn't the pool's, and gives back what is left over. After a refusal the space isn't sound.
    fn write_over<S: Space>(
        &mut self,
        space: &mut S,
        at: u64,
        room: u64,
        bytes: &[u8],
    ) -> Result<(), RecErr>
        requires { MayWriteOver S.Space self.old at room bytes.now space.old }
        ensures over { OnOk result (WritesOver S.Space at room bytes.now self.old self.new space.old space.new) }
        ensures pool { OnOk result (Shortens (length bytes.now) at room self.old.pool self.new.pool) }
        ensures stays { StaysBody self.old self.new }
        ensures outcome { Outcome S.sound S.flag result space.new }
        ensures writes { OnlyWrites S.Space space.old space.new }
        ensures full { OnlyLogIsFull S.Space result space.new }
        ensures cause { OnFault S.Space result space.old space.new }
    {
        let size = bytes.len() as u64;
        // in a file whose bytes are told the block lies inside
        if !ends_by(at, room, self.pool.size()) {
            give_up(space);
            return Err(RecErr::Memory);
        }
        write_at(space, self.file, at, bytes)?;
        if size >= room {
            return Ok(());
        }
        self.give_back(space, at + size, room - size)?;
        Ok(())
    }

    /// Writes the record of a key that is held, with another value, into the block of `room` bytes that it has. After a refusal the space isn't sound.
    pub fn replace<S: Space>(
        &mut self,
        space: &mut S,
        key: &[u8],
        value: &[u8],
        place: &Place,
        room: u64,
    ) -> Result<(), RecErr>
        requires ready { HasFound S.Space self.old key.now space.old place.now room }
        requires fits { FitsInto self.old key.now value.now room }
        ensures put { OnOk result (PutsAt S.Space key.now value.now place.now.at 5 self.old self.new space.old space.new) }
        ensures pool { OnOk result (Shortens (size_in self.old key.now value.now) place.now.at room self.old.pool self.new.pool) }
        ensures stays { StaysBody self.old self.new }
        ensures refused { OnErr result (S.flag space.new ≡ false) }
        ensures writes { OnlyWrites S.Space space.old space.new }
        ensures full { OnlyLogIsFull S.Space result space.new }
        ensures cause { OnFault S.Space result space.old space.new }
    {
        let rec = &place.rec;
        let bytes = match self.spell(rec.hash, rec.left, rec.right, key, value) {
            Ok(bytes) => bytes,
            Err(e) => {
                give_up(space);
                return Err(e);
            }
        };
        self.write_over(space, place.at, room, bytes.as_slice())?;
        Ok(())
    }
}
