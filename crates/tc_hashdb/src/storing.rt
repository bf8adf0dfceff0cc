//! Values given to keys, and keys taken out.
#![tactic(auto, using(crate::specs::Changing::head_refl, crate::specs::Changing::head_open, tc_space::specs::Frames::keeps_refl, tc_space::specs::Frames::keeps_then, tc_space::specs::Frames::reads_refl, tc_space::specs::Stores::ready_reads, crate::proofs::Kept::ready_hash, crate::proofs::Kept::in_of, crate::proofs::Kept::reads_again, crate::proofs::Kept::refuses_again))]

ghost use Rattle.std.specs.Prelude.{◌≡◌, false, IfOk, OnErr, IsErrOf, Some};
ghost use Rattle.std.specs.FinMap.{empty};
ghost use Rattle.tc_space.specs.Frames.{Keeps, Refuses};
ghost use Rattle.tc_space.specs.Refusals.{OnFault};
ghost use Rattle.tc_space.specs.Stores.{IsReady};
ghost use Rattle.hf_record.specs.Filling.{SpoilsFull};
ghost use Rattle.tc_model.specs.Maps.{without};
ghost use Rattle.tc_hashdb.specs.Changing.{KeepsHead, LacksRoomFor, Takes, stored_in};
ghost use Rattle.tc_hashdb.specs.Holding.{Means};

use crate::counting::{counted_with, counted_without, stored_len};
use crate::holding::HashEngine;
use tc_base::{Mode, Steps, VALUE_MOST};
use tc_hash::Put;
use tc_space::{RecErr, Space};

impl<S: Space> HashEngine<S> {
    /// Gives a key a value as a mode says, and answers whether it did. After a refusal the space isn't sound, or nothing has changed.
    pub(crate) fn store_at(
        &mut self,
        space: &mut S,
        mode: Mode,
        key: &[u8],
        value: &[u8],
    ) -> Result<bool, RecErr>
        requires { IsReady S.Space (Means S.Space) self.old space.old }
        ensures takes { IfOk result (λ done. Takes S.Space (stored_in mode key.now value.now) done self.old self.new space.old space.new) }
        ensures refused { OnErr result (Refuses S.Space (Means S.Space) self.old self.new space.old space.new) }
        ensures full { IsErrOf result RecErr.Full → LacksRoomFor S.Space (stored_in mode key.now value.now) self.old space.old space.new }
        ensures keeps { Keeps S.Space space.old space.new }
        ensures cause { OnFault S.Space result space.old space.new }
    {
        let mut steps: Steps<()> = Steps::new();
        let most = VALUE_MOST as u64;
        let done = self
            .hash
            .put_within(space, key, value, mode, most, &mut steps)?;
        let Put::Stored(old) = done else {
            return Ok(false);
        };
        let len = stored_len(mode, old, value.len());
        self.total = counted_with(self.total, key.len() as u64, old, len);
        Ok(true)
    }

    /// Takes a key out, and answers whether it was held. After a refusal the space isn't sound, or nothing has changed.
    pub(crate) fn out_at(&mut self, space: &mut S, key: &[u8]) -> Result<bool, RecErr>
        requires { IsReady S.Space (Means S.Space) self.old space.old }
        ensures takes { IfOk result (λ done. Takes S.Space (λ m. without m key.now) done self.old self.new space.old space.new) }
        ensures refused { OnErr result (Refuses S.Space (Means S.Space) self.old self.new space.old space.new) }
        ensures full { SpoilsFull S.Space result space.new }
        ensures numbers { KeepsHead self.old self.new }
        ensures keeps { Keeps S.Space space.old space.new }
        ensures cause { OnFault S.Space result space.old space.new }
    {
        let mut steps: Steps<()> = Steps::new();
        let Some(old) = self.hash.out(space, key, &mut steps)? else {
            return Ok(false);
        };
        self.total = counted_without(self.total, key.len() as u64, Some(old));
        Ok(true)
    }

    /// Takes all keys out. After a refusal the space isn't sound, or nothing has changed.
    pub(crate) fn clear_all_keys(&mut self, space: &mut S) -> Result<bool, RecErr>
        requires { IsReady S.Space (Means S.Space) self.old space.old }
        ensures takes { IfOk result (λ done. Takes S.Space (λ m. Some empty) done self.old self.new space.old space.new) }
        ensures refused { OnErr result (Refuses S.Space (Means S.Space) self.old self.new space.old space.new) }
        ensures full { IsErrOf result RecErr.Full → LacksRoomFor S.Space (λ m. Some empty) self.old space.old space.new }
        ensures keeps { Keeps S.Space space.old space.new }
        ensures cause { OnFault S.Space result space.old space.new }
    {
        self.hash.clear(space)?;
        self.total = Some(0);
        Ok(true)
    }
}
