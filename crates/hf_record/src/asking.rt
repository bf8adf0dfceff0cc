//! Values asked for by key.
ghost use Rattle.std.specs.Prelude.{◌≡◌, ◌≤◌, length, option_map, IfOk};
ghost use Rattle.std.specs.FinMap.{get};
ghost use Rattle.tc_base.specs.Maps.{Map};
ghost use Rattle.tc_io.specs.Causes.{HasCause};
ghost use Rattle.tc_space.specs.Frames.{OnlyReads};
ghost use Rattle.tc_space.specs.Refusals.{Blames};
ghost use Rattle.hf_record.specs.Asking.{AskedBy, PaysFor, value_most};
ghost use Rattle.hf_record.specs.Changing.{CanChange};
ghost use Rattle.hf_record.specs.Holding.{Has};

use crate::body::Body;
use hf_chain::Search;
use tc_base::{Blob, Fault, Steps};
use tc_space::{RecErr, Space};

impl Body {
    /// The value of a key. Besides what the search reads it reads no more bytes than the value has.
    pub fn value<S: Space, L>(
        &self,
        space: &mut S,
        key: &[u8],
        steps: &mut Steps<L>,
    ) -> Result<Option<Blob>, RecErr>
        requires { CanChange S.Space self.now space.old }
        ensures value { IfOk result (λ found. S.tells → (m : Map) → Has self.now (S.now space.old self.now.file) m → found ≡ get m key.now) }
        ensures within { S.tells → AskedBy S.Space self.now key.now (λ m. value_most (get m key.now)) steps.old steps.new space.old space.new }
        ensures paid { IfOk result (λ found. PaysFor S.Space key.now (value_most found) steps.old steps.new space.old space.new) }
        ensures rises { steps.old ≤ steps.new }
        ensures reads { OnlyReads S.Space space.old space.new }
        ensures cause { Blames S.Space result space.old space.new }
    {
        match self.search(space, key, steps)? {
            Search::Here(place) => Ok(Some(self.value_at(space, key, &place)?)),
            Search::Gap(_) => Ok(None),
        }
    }

    /// How many bytes the value of a key has. It reads no value, and takes no memory.
    pub fn value_len<S: Space, L>(
        &self,
        space: &mut S,
        key: &[u8],
        steps: &mut Steps<L>,
    ) -> Result<Option<u64>, Fault>
        requires { CanChange S.Space self.now space.old }
        ensures len { IfOk result (λ found. S.tells → (m : Map) → Has self.now (S.now space.old self.now.file) m → found ≡ option_map length (get m key.now)) }
        ensures within { S.tells → AskedBy S.Space self.now key.now (λ m. 0) steps.old steps.new space.old space.new }
        ensures paid { PaysFor S.Space key.now 0 steps.old steps.new space.old space.new }
        ensures reads { OnlyReads S.Space space.old space.new }
        ensures cause { HasCause (S.faults space.old) (S.faults space.new) result }
    {
        match self.search(space, key, steps)? {
            Search::Here(place) => Ok(Some(place.rec.value)),
            Search::Gap(_) => Ok(None),
        }
    }
}
