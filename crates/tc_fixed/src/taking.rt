//! Ids taken out.
ghost use Rattle.std.specs.Prelude.{◌≡◌, ◌≤◌, IfOk, OnOk, OnErr, IsErrOf, IsSome, is_some, take, true, false};
ghost use Rattle.std.specs.FinMap.{empty, get, remove};
ghost use Rattle.tc_model.specs.Arrays.{Array, least, greatest};
ghost use Rattle.tc_space.specs.Effects.{Changes};
ghost use Rattle.tc_space.specs.Frames.{Keeps, OnlyReads, Refuses, Writes};
ghost use Rattle.tc_space.specs.Refusals.{Blames, OnFault};
ghost use Rattle.tc_space.specs.Stores.{IsReady, Only, TakesOut};
ghost use Rattle.tc_fixed.specs.Holding.{Means, SameShape};
ghost use Rattle.tc_fixed.specs.Settling.{without_value};

use crate::cells::{blank, place};
use crate::fixed::{FILE, Fixed};
use crate::scanning::{first_held, last_held};
use crate::tally::Tally;
use tc_reach::{cut_to, write_over};
use tc_space::{RecErr, Space};

impl<S: Space> Fixed<S> {
    // The least id held but one.
    fn least_without(&self, space: &mut S, id: u64) -> Result<u64, RecErr>
        requires ready { IsReady S.Space (Means S.Space) self.now space.old }
        requires id { (1 ≤ id) × (id ≤ self.now.tally.greatest) }
        ensures value { IfOk result (λ found. (m : Array) → Means S.Space self.now space.old m → IsSome (get m id) → found ≡ least (remove m id)) }
        ensures reads { OnlyReads S.Space space.old space.new }
        ensures cause { Blames S.Space result space.old space.new }
    {
        if id != self.tally.least {
            return Ok(self.tally.least);
        }
        let found = first_held(self.alloc, space, self.width, id + 1, self.tally.greatest)?;
        Ok(found)
    }

    // The greatest id held but one.
    fn greatest_without(&self, space: &mut S, id: u64) -> Result<u64, RecErr>
        requires ready { IsReady S.Space (Means S.Space) self.now space.old }
        requires id { (1 ≤ id) × (id ≤ self.now.tally.greatest) }
        ensures value { IfOk result (λ found. (m : Array) → Means S.Space self.now space.old m → IsSome (get m id) → found ≡ greatest (remove m id)) }
        ensures few { IfOk result (λ found. found ≤ self.now.tally.greatest) }
        ensures reads { OnlyReads S.Space space.old space.new }
        ensures cause { Blames S.Space result space.old space.new }
    {
        if id != self.tally.greatest {
            return Ok(self.tally.greatest);
        }
        let low = self.tally.least.max(1);
        let found = last_held(self.alloc, space, self.width, low, id - 1)?;
        Ok(found)
    }

    /// Takes an id out, and says whether it was held: zeros are written over its whole cell. After a refusal the space isn't sound, or nothing has changed; with `Full` it isn't.
    pub fn out(&mut self, space: &mut S, id: u64) -> Result<bool, RecErr>
        requires ready { IsReady S.Space (Means S.Space) self.old space.old }
        ensures wrote { IfOk result (λ taken. taken ≡ true → S.tells → Changes S.now 0 (without_value self.old id (S.now space.old 0)) space.old space.new) }
        ensures out { IfOk result (λ taken. TakesOut S.Space (Only 0) (Means S.Space) (λ m. is_some (get m id)) (λ m. remove m id) taken self.old self.new space.old space.new) }
        ensures refused { OnErr result (Refuses S.Space (Means S.Space) self.old self.new space.old space.new) }
        ensures full { IsErrOf result RecErr.Full → (S.flag space.new ≡ false) × (S.tells → S.log_full space.new) }
        ensures keeps { Keeps S.Space space.old space.new }
        ensures shape { SameShape self.old self.new }
        ensures cause { OnFault S.Space result space.old space.new }
    {
        let Some(long) = self.held_at(space, id)? else {
            return Ok(false);
        };
        let least = self.least_without(space, id)?;
        let greatest = self.greatest_without(space, id)?;
        blank(self.width, &mut self.buffer)?;
        write_over(space, FILE, place(self.width, id), &self.buffer)?;
        self.tally = self.tally.without(id, long, least, greatest);
        Ok(true)
    }

    /// Takes all ids out: the file is cut to its head. After a refusal the space isn't sound.
    pub fn clear(&mut self, space: &mut S) -> Result<(), RecErr>
        requires ready { IsReady S.Space (Means S.Space) self.old space.old }
        ensures wrote { OnOk result (S.tells → Changes S.now 0 (take 256 (S.now space.old 0)) space.old space.new) }
        ensures clear { OnOk result (Writes S.Space (Only 0) (Means S.Space) (λ m. empty) self.old self.new space.old space.new) }
        ensures refused { OnErr result (Refuses S.Space (Means S.Space) self.old self.new space.old space.new) }
        ensures full { IsErrOf result RecErr.Full → (S.flag space.new ≡ false) × (S.tells → S.log_full space.new) }
        ensures keeps { Keeps S.Space space.old space.new }
        ensures shape { SameShape self.old self.new }
        ensures cause { OnFault S.Space result space.old space.new }
    {
        cut_to(space, FILE, 256)?;
        self.tally = Tally::none();
        Ok(())
    }
}
