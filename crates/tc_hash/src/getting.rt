//! Values asked for by key.
ghost use Rattle.std.specs.Prelude.{◌≡◌, ◌≤◌, length, option_map, IfOk, IfErr};
ghost use Rattle.std.specs.FinMap.{get};
ghost use Rattle.tc_base.specs.Maps.{Map};
ghost use Rattle.tc_io.specs.Causes.{Rose};
ghost use Rattle.tc_space.specs.Frames.{Keeps};
ghost use Rattle.tc_space.specs.Refusals.{Blames};
ghost use Rattle.hf_record.specs.Asking.{PaysFor, value_most};
ghost use Rattle.tc_hash.specs.Keeping.{AsksFor, CanCall, CountsOne, Looks, Means};

use crate::hash::Hash;
use tc_base::{Blob, Steps};
use tc_space::{RecErr, Space};

impl<S: Space> Hash<S> {
    /// The value of a key. A step is the read of the bucket's entry or of one record: at most one more than there are keys in the bucket. Besides the
    /// bytes of the steps it reads no more than the value has. It changes nothing but the count of gets.
    pub fn get<L>(
        &mut self,
        space: &mut S,
        key: &[u8],
        steps: &mut Steps<L>,
    ) -> Result<Option<Blob>, RecErr>
        requires { CanCall S.Space self.old space.old }
        ensures value { IfOk result (λ found. (m : Map) → Means S.Space self.old space.old m → found ≡ get m key.now) }
        ensures looks { Looks S.Space self.old self.new space.old space.new }
        ensures keeps { Keeps S.Space space.old space.new }
        ensures counts { CountsOne self.old self.new }
        ensures steps { steps.old ≤ steps.new }
        ensures within { AsksFor S.Space key.now (λ m. value_most (get m key.now)) self.old steps.old steps.new space.old space.new }
        ensures paid { IfOk result (λ found. PaysFor S.Space key.now (value_most found) steps.old steps.new space.old space.new) }
        ensures cause { Blames S.Space result space.old space.new }
    {
        self.gets = self.gets.saturating_add(1);
        self.body.value(space, key, steps)
    }

    /// How many bytes the value of a key has, in as many steps. It reads no value, takes no memory and changes nothing.
    pub fn get_len<L>(
        &mut self,
        space: &mut S,
        key: &[u8],
        steps: &mut Steps<L>,
    ) -> Result<Option<u64>, RecErr>
        requires { CanCall S.Space self.old space.old }
        ensures len { IfOk result (λ found. (m : Map) → Means S.Space self.old space.old m → found ≡ option_map length (get m key.now)) }
        ensures looks { Looks S.Space self.old self.new space.old space.new }
        ensures keeps { Keeps S.Space space.old space.new }
        ensures same { self.new ≡ self.old }
        ensures within { AsksFor S.Space key.now (λ m. 0) self.old steps.old steps.new space.old space.new }
        ensures paid { PaysFor S.Space key.now 0 steps.old steps.new space.old space.new }
        ensures cause { IfErr result (λ e. (e ≡ RecErr.Fault) × Rose (S.faults space.old) (S.faults space.new)) }
    {
        Ok(self.body.value_len(space, key, steps)?)
    }
}
