//! A record taken out.
ghost use Rattle.std.specs.Prelude.{◌≡◌, ◌⊎◌, false, OnErr, OnOk};
ghost use Rattle.tc_space.specs.Changes.{out_of};
ghost use Rattle.tc_space.specs.Frames.{Keeps, OnlyReads};
ghost use Rattle.tc_space.specs.Refusals.{OnFault};
ghost use Rattle.hf_chain.specs.Costs.{PaidBy};
ghost use Rattle.hf_record.specs.Changing.{MapsBy, StaysBody};
ghost use Rattle.hf_record.specs.Filling.{SpoilsFull};
ghost use Rattle.hf_record.specs.Moves.{Gives};
ghost use Rattle.hf_record.specs.Searching.{HasFound};

use crate::body::Body;
use hf_chain::{Place, unhang};
use tc_base::Steps;
use tc_space::{RecErr, Space};

impl Body {
    /// Takes the record of a key out, whose block has `room` bytes: it is unhung, and its block given back. A step is the read of another record's head. After
    /// a refusal nothing has changed, or the space isn't sound; where it is full the space isn't sound.
    pub fn take_out<S: Space, L>(
        &mut self,
        space: &mut S,
        key: &[u8],
        place: &Place,
        room: u64,
        steps: &mut Steps<L>,
    ) -> Result<(), RecErr>
        requires { HasFound S.Space self.old key.now space.old place.now room }
        ensures out { OnOk result (MapsBy S.Space (out_of key.now) 21 self.old self.new space.old space.new) }
        ensures pool { OnOk result (Gives place.now.at room self.old.pool self.new.pool) }
        ensures stays { StaysBody self.old self.new }
        ensures refused { OnErr result ((S.flag space.new ≡ false) ⊎ (OnlyReads S.Space space.old space.new × (self.new ≡ self.old))) }
        ensures keeps { Keeps S.Space space.old space.new }
        ensures paid { PaidBy S.Space 40 steps.old steps.new space.old space.new }
        ensures full { SpoilsFull S.Space result space.new }
        ensures cause { OnFault S.Space result space.old space.new }
    {
        unhang(space, self.file, &self.head, place, steps)?;
        self.give_back(space, place.at, room)?;
        Ok(())
    }
}
