//! Keys taken out.
ghost use Rattle.std.specs.Prelude.{◌≤◌, length, IfOk, OnOk, OnErr};
ghost use Rattle.tc_space.specs.Frames.{Keeps};
ghost use Rattle.tc_space.specs.Refusals.{OnFault};
ghost use Rattle.hf_chain.specs.Costs.{PaidBy, step_most};
ghost use Rattle.hf_record.specs.Filling.{SpoilsFull};
ghost use Rattle.tc_hash.specs.Keeping.{CanCall, Refused, StaysOpen, TakesRecord};
ghost use Rattle.tc_hash.specs.Putting.{CanCallIn, TakesLen};

use crate::hash::Hash;
use hf_record::{Place, Search, block_of};
use tc_base::Steps;
use tc_space::{RecErr, Space};

impl<S: Space> Hash<S> {
    /// Takes the record of a key out, whose block has `room` bytes.
    pub(crate) fn take_record<L>(
        &mut self,
        space: &mut S,
        key: &[u8],
        place: &Place,
        room: u64,
        steps: &mut Steps<L>,
    ) -> Result<(), RecErr>
        requires { CanCallIn S.Space key.now place.now room self.old space.old }
        ensures taken { OnOk result (TakesRecord S.Space key.now place.now.at room self.old self.new space.old space.new) }
        ensures refused { OnErr result (Refused S.Space self.old self.new space.old space.new) }
        ensures full { SpoilsFull S.Space result space.new }
        ensures keeps { Keeps S.Space space.old space.new }
        ensures stays { StaysOpen self.old self.new }
        ensures paid { PaidBy S.Space 40 steps.old steps.new space.old space.new }
        ensures cause { OnFault S.Space result space.old space.new }
    {
        self.body.take_out(space, key, place, room, steps)?;
        self.records = self.records.saturating_sub(1);
        Ok(())
    }

    /// Takes a key out, and answers how many bytes its value had; none exactly where it isn't held. The block of its record is given back, and no more than two
    /// links are written besides. No more bytes are read than those of the steps. It is full only where the undo log is. After a refusal the space isn't sound, or
    /// nothing has changed; where it is full it isn't sound.
    pub fn out<L>(
        &mut self,
        space: &mut S,
        key: &[u8],
        steps: &mut Steps<L>,
    ) -> Result<Option<u64>, RecErr>
        requires { CanCall S.Space self.old space.old }
        ensures out { IfOk result (λ was. TakesLen S.Space key.now was self.old self.new space.old space.new) }
        ensures refused { OnErr result (Refused S.Space self.old self.new space.old space.new) }
        ensures full { SpoilsFull S.Space result space.new }
        ensures keeps { Keeps S.Space space.old space.new }
        ensures stays { StaysOpen self.old self.new }
        ensures steps { steps.old ≤ steps.new }
        ensures paid { PaidBy S.Space (step_most (length key.now)) steps.old steps.new space.old space.new }
        ensures cause { OnFault S.Space result space.old space.new }
    {
        match self.body.search(space, key, steps)? {
            Search::Here(place) => {
                let room = block_of(&place.rec);
                self.take_record(space, key, &place, room, steps)?;
                Ok(Some(place.rec.value))
            }
            Search::Gap(_) => Ok(None),
        }
    }
}
