//! Changes of many ids.
#![tactic(auto, using(tc_space::specs::Frames::keeps_refl, tc_space::specs::Frames::keeps_then))]

ghost use Rattle.std.specs.Prelude.{◌≡◌, false, OnOk, OnErr};
ghost use Rattle.tc_space.specs.Frames.{Keeps};
ghost use Rattle.tc_space.specs.Refusals.{OnFault, OnlyLogIsFull};
ghost use Rattle.tc_fixed.specs.Holding.{SameShape};
ghost use Rattle.tc_fixeddb.specs.Changing.{AllNamed, LacksAfter, ReadyIds, WritesIds, with_all, with_named, without_those, without_named};

use crate::holding::FixedEngine;
use crate::naming::all_named;
use crate::storing::put_cut;
use tc_base::{Blob, Pair};
use tc_space::{RecErr, Space};

// Gives up what was written since the last commit. A space that was full isn't sound already.
fn give_up<S: Space>(space: &mut S, cause: RecErr)
    requires full { cause ≡ RecErr.Full → S.flag space.old ≡ false }
    ensures spoiled { S.flag space.new ≡ false }
    ensures keeps { Keeps S.Space space.old space.new }
    ensures faults { S.faults space.new ≡ S.faults space.old }
    ensures full { cause ≡ RecErr.Full → space.new ≡ space.old }
{
    if cause != RecErr::Full {
        space.spoil();
    }
}

impl<S: Space> FixedEngine<S> {
    /// Whether each pair can be stored when its turn comes.
    pub(crate) fn can_store(&self, pairs: &[Pair]) -> bool
        ensures { AllNamed self.now.fixed pairs.now result }
    {
        all_named(
            self.fixed.max_id(),
            self.fixed.least(),
            self.fixed.greatest(),
            pairs,
        )
    }

    // Gives the id that a key names a value, if it names one. After a refusal the space isn't sound.
    fn set_named(&mut self, space: &mut S, key: &[u8], value: &[u8]) -> Result<(), RecErr>
        requires ready { ReadyIds S.Space self.old.fixed space.old }
        ensures set { OnOk result (WritesIds S.Space (with_named self.old.fixed key.now value.now) self.old.fixed self.new.fixed space.old space.new) }
        ensures refused { OnErr result (S.flag space.new ≡ false) }
        ensures full { LacksAfter S.Space result (with_named self.old.fixed key.now value.now) self.old.fixed space.old space.new }
        ensures keeps { Keeps S.Space space.old space.new }
        ensures shape { SameShape self.old.fixed self.new.fixed }
        ensures cause { OnFault S.Space result space.old space.new }
    {
        let Some(id) = self.id_of(key) else {
            return Ok(());
        };
        match put_cut(&mut self.fixed, space, id, value) {
            Ok(()) => Ok(()),
            Err(e) => {
                give_up(space, e);
                Err(e)
            }
        }
    }

    /// Gives each id that is named a value, one after the other. After a refusal the space isn't sound.
    pub(crate) fn set_each(&mut self, space: &mut S, pairs: &[Pair]) -> Result<(), RecErr>
        requires ready { ReadyIds S.Space self.old.fixed space.old }
        ensures set { OnOk result (WritesIds S.Space (with_all self.old.fixed pairs.now) self.old.fixed self.new.fixed space.old space.new) }
        ensures refused { OnErr result (S.flag space.new ≡ false) }
        ensures full { LacksAfter S.Space result (with_all self.old.fixed pairs.now) self.old.fixed space.old space.new }
        ensures keeps { Keeps S.Space space.old space.new }
        ensures shape { SameShape self.old.fixed self.new.fixed }
        ensures cause { OnFault S.Space result space.old space.new }
    {
        for pair in pairs {
            self.set_named(space, pair.key.as_slice(), pair.value.as_slice())?;
        }
        Ok(())
    }

    // Takes the id that a key names out, if it is held. After a refusal the space isn't sound.
    fn out_named(&mut self, space: &mut S, key: &[u8]) -> Result<(), RecErr>
        requires ready { ReadyIds S.Space self.old.fixed space.old }
        ensures out { OnOk result (WritesIds S.Space (without_named self.old.fixed key.now) self.old.fixed self.new.fixed space.old space.new) }
        ensures refused { OnErr result (S.flag space.new ≡ false) }
        ensures full { OnlyLogIsFull S.Space result space.new }
        ensures keeps { Keeps S.Space space.old space.new }
        ensures shape { SameShape self.old.fixed self.new.fixed }
        ensures cause { OnFault S.Space result space.old space.new }
    {
        let Some(id) = self.id_of(key) else {
            return Ok(());
        };
        match self.fixed.out(space, id) {
            Ok(_) => Ok(()),
            Err(e) => {
                give_up(space, e);
                Err(e)
            }
        }
    }

    /// Takes each id that is named and held out. After a refusal the space isn't sound.
    pub(crate) fn out_each(&mut self, space: &mut S, keys: &[Blob]) -> Result<(), RecErr>
        requires ready { ReadyIds S.Space self.old.fixed space.old }
        ensures out { OnOk result (WritesIds S.Space (without_those self.old.fixed keys.now) self.old.fixed self.new.fixed space.old space.new) }
        ensures refused { OnErr result (S.flag space.new ≡ false) }
        ensures full { OnlyLogIsFull S.Space result space.new }
        ensures keeps { Keeps S.Space space.old space.new }
        ensures shape { SameShape self.old.fixed self.new.fixed }
        ensures cause { OnFault S.Space result space.old space.new }
    {
        for key in keys {
            self.out_named(space, key.as_slice())?;
        }
        Ok(())
    }
}
