//! Changes of many keys.
#![tactic(auto, using(tc_space::specs::Frames::keeps_refl, tc_space::specs::Frames::keeps_then, crate::specs::Changing::head_refl, crate::specs::Changing::head_then, crate::specs::Changing::head_open))]

ghost use Rattle.std.specs.Prelude.{◌≡◌, false, OnOk, OnErr, IfOk, IsErrOf};
ghost use Rattle.std.specs.List.{list_all};
ghost use Rattle.std.specs.FinMap.{entries};
ghost use Rattle.tc_base.specs.Maps.{Map};
ghost use Rattle.tc_space.specs.Frames.{Keeps, Refuses, Writes};
ghost use Rattle.tc_space.specs.Refusals.{OnFault, OnlyLogIsFull};
ghost use Rattle.tc_space.specs.Stores.{IsReady, Only};
ghost use Rattle.tc_hashdb.specs.Changing.{KeepsHead, after, all_out, all_set, is_short, last_values, out_one, set_entries, set_one};
ghost use Rattle.tc_hashdb.specs.Filling.{FillsKey, FillsMap};
ghost use Rattle.tc_hashdb.specs.Holding.{Means};

use crate::counting::counted_with;
use crate::holding::HashEngine;
use std::alloc::{AllocError, Global};
use tc_base::{Blob, Key, Mode, Pair, Pairs, Steps, VALUE_MOST};
use tc_hash::Put;
use tc_maps::Bytemap;
use tc_reach::give_up;
use tc_space::{RecErr, Space};

/// Whether no value is too long.
pub(crate) fn are_short(pairs: &[Pair]) -> bool
    ensures { result ≡ list_all is_short pairs.now }
{
    for pair in pairs {
        if pair.value.len() > VALUE_MOST {
            return false;
        }
    }
    true
}

/// The last value that pairs give each of their keys.
pub fn last_of_each(alloc: Global, pairs: Pairs) -> Result<Bytemap, AllocError>
    ensures { IfOk result (λ m. m ≡ last_values pairs) }
{
    let mut last = Bytemap::new(alloc);
    for pair in pairs.into_vec() {
        last.set(Key::new(pair.key), pair.value)?;
    }
    Ok(last)
}

// Why a call was refused behind others that wrote: the space isn't sound then. Where a limit was met it wasn't sound before.
fn given_up<S: Space>(space: &mut S, cause: RecErr) -> RecErr
    requires { cause ≡ RecErr.Full → S.flag space.old ≡ false }
    ensures spoiled { S.flag space.new ≡ false }
    ensures keeps { Keeps S.Space space.old space.new }
    ensures faults { S.faults space.new ≡ S.faults space.old }
    ensures full { result ≡ RecErr.Full → (cause ≡ RecErr.Full) × (space.new ≡ space.old) }
    ensures fault { result ≡ RecErr.Fault → cause ≡ RecErr.Fault }
{
    if !space.is_sound() {
        return cause;
    }
    space.spoil();
    cause
}

impl<S: Space> HashEngine<S> {
    // Gives a key a value, whatever its length. After a refusal the space isn't sound.
    fn set_value(&mut self, space: &mut S, key: &[u8], value: &[u8]) -> Result<(), RecErr>
        requires ready { IsReady S.Space (Means S.Space) self.old space.old }
        ensures set { OnOk result (Writes S.Space (Only 0) (Means S.Space) (λ m. set_one m key.now value.now) self.old self.new space.old space.new) }
        ensures refused { OnErr result (S.flag space.new ≡ false) }
        ensures full { IsErrOf result RecErr.Full → (m : Map) → Means S.Space self.old space.old m → FillsKey S.Space space.new m key.now value.now }
        ensures numbers { KeepsHead self.old self.new }
        ensures keeps { Keeps S.Space space.old space.new }
        ensures cause { OnFault S.Space result space.old space.new }
    {
        let mut steps: Steps<()> = Steps::new();
        let done = match self
            .hash
            .put_within(space, key, value, Mode::Over, u64::MAX, &mut steps)
        {
            Ok(done) => done,
            Err(e) => return Err(given_up(space, e)),
        };
        let Put::Stored(old) = done else {
            // no value is so long
            give_up(space);
            return Err(RecErr::Memory);
        };
        let len = value.len() as u64;
        self.total = counted_with(self.total, key.len() as u64, old, Some(len));
        Ok(())
    }

    // Gives each key of a map its value. After a refusal the space isn't sound.
    fn set_entries(&mut self, space: &mut S, values: &Bytemap) -> Result<(), RecErr>
        requires ready { IsReady S.Space (Means S.Space) self.old space.old }
        ensures set { OnOk result (Writes S.Space (Only 0) (Means S.Space) (λ m. set_entries m (entries values.now)) self.old self.new space.old space.new) }
        ensures refused { OnErr result (S.flag space.new ≡ false) }
        ensures full { IsErrOf result RecErr.Full → (m : Map) → Means S.Space self.old space.old m → FillsMap S.Space space.new m (set_entries m (entries values.now)) }
        ensures numbers { KeepsHead self.old self.new }
        ensures keeps { Keeps S.Space space.old space.new }
        ensures cause { OnFault S.Space result space.old space.new }
    {
        let least = Key::new(Blob::new(self.alloc));
        for (key, value) in values.entries_from(&least) {
            self.set_value(space, key.as_slice(), value.as_slice())?;
        }
        Ok(())
    }

    /// Gives each key its value, one pair after the other; of several values of a key only the last is written. After a refusal the space isn't sound, or
    /// nothing has changed.
    pub(crate) fn set_all(&mut self, space: &mut S, pairs: Pairs) -> Result<(), RecErr>
        requires ready { IsReady S.Space (Means S.Space) self.old space.old }
        ensures set { OnOk result (Writes S.Space (Only 0) (Means S.Space) (all_set pairs) self.old self.new space.old space.new) }
        ensures refused { OnErr result (Refuses S.Space (Means S.Space) self.old self.new space.old space.new) }
        ensures full { IsErrOf result RecErr.Full → (m : Map) → Means S.Space self.old space.old m → FillsMap S.Space space.new m (all_set pairs m) }
        ensures numbers { KeepsHead self.old self.new }
        ensures keeps { Keeps S.Space space.old space.new }
        ensures cause { OnFault S.Space result space.old space.new }
    {
        let values = last_of_each(self.alloc, pairs)?;
        self.set_entries(space, &values)?;
        Ok(())
    }

    // Takes a key out, if it is held. After a refusal the space isn't sound.
    fn drop_key(&mut self, space: &mut S, key: &[u8]) -> Result<(), RecErr>
        requires ready { IsReady S.Space (Means S.Space) self.old space.old }
        ensures out { OnOk result (Writes S.Space (Only 0) (Means S.Space) (λ m. out_one m key.now) self.old self.new space.old space.new) }
        ensures refused { OnErr result (S.flag space.new ≡ false) }
        ensures full { OnlyLogIsFull S.Space result space.new }
        ensures numbers { KeepsHead self.old self.new }
        ensures keeps { Keeps S.Space space.old space.new }
        ensures cause { OnFault S.Space result space.old space.new }
    {
        match self.out_at(space, key) {
            Ok(_) => Ok(()),
            Err(e) => Err(given_up(space, e)),
        }
    }

    /// Takes each key out that is held. After a refusal the space isn't sound.
    pub(crate) fn drop_each(&mut self, space: &mut S, keys: &[Blob]) -> Result<(), RecErr>
        requires ready { IsReady S.Space (Means S.Space) self.old space.old }
        ensures out { OnOk result (Writes S.Space (Only 0) (Means S.Space) (all_out keys.now) self.old self.new space.old space.new) }
        ensures refused { OnErr result (S.flag space.new ≡ false) }
        ensures full { OnlyLogIsFull S.Space result space.new }
        ensures numbers { KeepsHead self.old self.new }
        ensures keeps { Keeps S.Space space.old space.new }
        ensures cause { OnFault S.Space result space.old space.new }
    {
        for key in keys {
            self.drop_key(space, key.as_slice())?;
        }
        Ok(())
    }
}
