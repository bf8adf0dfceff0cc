//! What is read of a hash database.
#![tactic(auto, using(tc_space::specs::Frames::keeps_refl, tc_space::specs::Frames::reads_refl, crate::proofs::Kept::ready_hash, crate::proofs::Kept::in_of, crate::proofs::Kept::reads_again, crate::proofs::Kept::refuses_again, crate::proofs::Kept::reads_counted))]

ghost use Rattle.std.specs.Prelude.{◌≡◌, length, option_map, IfOk};
ghost use Rattle.std.specs.FinMap.{get, keys};
ghost use Rattle.tc_base.specs.Maps.{Map};
ghost use Rattle.tc_maps.specs.Sizes.{size_of};
ghost use Rattle.tc_space.specs.Frames.{Keeps, Reads};
ghost use Rattle.tc_space.specs.Refusals.{Blames};
ghost use Rattle.tc_space.specs.Stores.{IsReady};
ghost use Rattle.tc_hashdb.specs.Holding.{Means};

use crate::holding::HashEngine;
use tc_base::{Blob, Blobs, Steps};
use tc_space::{RecErr, Space};

impl<S: Space> HashEngine<S> {
    /// The length of the value of a key.
    pub(crate) fn find_len(&mut self, space: &mut S, key: &[u8]) -> Result<Option<u64>, RecErr>
        requires { IsReady S.Space (Means S.Space) self.old space.old }
        ensures len { IfOk result (λ found. (m : Map) → Means S.Space self.old space.old m → found ≡ option_map length (get m key.now)) }
        ensures reads { Reads S.Space (Means S.Space) self.old self.new space.old space.new }
        ensures keeps { Keeps S.Space space.old space.new }
        ensures same { self.new ≡ self.old }
        ensures cause { Blames S.Space result space.old space.new }
    {
        let mut steps: Steps<()> = Steps::new();
        self.hash.get_len(space, key, &mut steps)
    }

    /// The value of a key.
    pub(crate) fn find(&mut self, space: &mut S, key: &[u8]) -> Result<Option<Blob>, RecErr>
        requires { IsReady S.Space (Means S.Space) self.old space.old }
        ensures value { IfOk result (λ found. (m : Map) → Means S.Space self.old space.old m → found ≡ get m key.now) }
        ensures reads { Reads S.Space (Means S.Space) self.old self.new space.old space.new }
        ensures keeps { Keeps S.Space space.old space.new }
        ensures cause { Blames S.Space result space.old space.new }
    {
        let mut steps: Steps<()> = Steps::new();
        self.hash.get(space, key, &mut steps)
    }

    /// The keys, in order.
    pub(crate) fn list(&mut self, space: &mut S) -> Result<Blobs, RecErr>
        requires { IsReady S.Space (Means S.Space) self.old space.old }
        ensures value { IfOk result (λ all. (m : Map) → Means S.Space self.old space.old m → all ≡ keys m) }
        ensures reads { Reads S.Space (Means S.Space) self.old self.new space.old space.new }
        ensures keeps { Keeps S.Space space.old space.new }
        ensures cause { Blames S.Space result space.old space.new }
    {
        let mut steps: Steps<()> = Steps::new();
        self.hash.keys(space, &mut steps)
    }

    /// The bytes of all keys and values.
    pub(crate) fn count_bytes(&mut self, space: &mut S) -> Result<u64, RecErr>
        requires { IsReady S.Space (Means S.Space) self.old space.old }
        ensures value { IfOk result (λ n. (m : Map) → Means S.Space self.old space.old m → n ≡ size_of m) }
        ensures reads { Reads S.Space (Means S.Space) self.old self.new space.old space.new }
        ensures keeps { Keeps S.Space space.old space.new }
        ensures cause { Blames S.Space result space.old space.new }
    {
        if let Some(total) = self.total {
            return Ok(total);
        }
        let total = self.hash.bytes(space)?;
        self.total = Some(total);
        Ok(total)
    }
}
