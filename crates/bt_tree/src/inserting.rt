//! A pair put into a tree.
ghost use Rattle.std.specs.Prelude.{◌≡◌, ◌+◌, ◌-◌, ◌<◌, ◌^◌, length, if◌then◌else◌, IfOk, OnOk};
ghost use Rattle.tc_space.specs.Frames.{Keeps};
ghost use Rattle.tc_space.specs.Refusals.{Blames, OnFault};
ghost use Rattle.bt_cache.specs.Effects.{OnFull};
ghost use Rattle.bt_ways.specs.Changes.{inserted};
ghost use Rattle.bt_tree.specs.Inserting.{AddsPages, GivesIds, Inserts, IsFull, StaysMade, TakesInLeaf, WritesPages};
ghost use Rattle.bt_tree.specs.Meaning.{IsOpen, RefusesPairs};
ghost use Rattle.bt_tree.specs.Numbers.{with_pairs};
ghost use Rattle.bt_tree.specs.Visits.{LooksAt, StaysTree};

use crate::changing::change;
use crate::cutting::leaf_fits;
use crate::tree::Tree;
use bt_slots::SlottedLeaf;
use tc_base::{Order, Steps};
use tc_space::{RecErr, Records, Space};

/// The leaf of an id with a pair more, or another value, at the item of a place.
#[derive(Drop)]
pub(crate) struct Changed {
    pub(crate) id: u64,
    pub(crate) leaf: SlottedLeaf,
    pub(crate) place: usize,
    pub(crate) grown: bool,
}

impl<R: Records, O: Order> Tree<R, O> {
    // Goes to the leaf where a key belongs and puts the pair among its items. Nothing is written yet.
    fn take_pair<L>(
        &mut self,
        space: &mut R::S,
        key: &[u8],
        value: &[u8],
        last: bool,
        steps: &mut Steps<L>,
    ) -> Result<Changed, RecErr>
        requires { IsOpen R.S.Space R.Records O.Order self.old space.old }
        ensures taken { IfOk result (TakesInLeaf R.S.Space R.Records O.Order last key.now value.now self.old space.old self.new.path) }
        ensures inside { IfOk result (λ x. x.place < length x.leaf.items) }
        ensures deep { OnOk result (length self.new.path + 1 ≡ self.old.height) }
        ensures looks { LooksAt R.S.Space R.Records self.old self.new space.old space.new }
        ensures stays { StaysTree self.old self.new }
        ensures cause { Blames R.S.Space result space.old space.new }
    {
        let id = self.descend(space, key, steps)?;
        let leaf = self.own_leaf(space, id, steps)?;
        let (leaf, place, grown) = change::<O>(self.alloc, leaf, key, value, last)?;
        Ok(Changed {
            id,
            leaf,
            place,
            grown,
        })
    }

    // One pair more is counted, if there is one.
    fn count_pair(&mut self, grown: bool)
        requires { self.old.head.pairs < 2 ^ 64 - 1 }
        ensures { self.new ≡ with_pairs (self.old.head.pairs + (if grown then 1 else 0)) self.old }
    {
        if grown {
            self.head.pairs += 1;
        }
    }

    /// Puts a pair: with `last` behind the values of its key, else in the place of the first of them; a key that isn't held comes in with it. At most the leaf where the
    /// key belongs is written, unless it grows beyond its limits: then it is parted, with at most two further leaves, one further node in each row and a new root.
    /// No more ids than those are given, whatever it answers. After a refusal the space isn't sound, or nothing has changed, and no id is given. `Full` is the store's, or
    /// comes where a leaf is to be parted and fewer ids are left than pages come: the file is then that of the tree as it was, and tells its numbers.
    pub fn insert(
        &mut self,
        space: &mut R::S,
        key: &[u8],
        value: &[u8],
        last: bool,
    ) -> Result<(), RecErr>
        requires { IsOpen R.S.Space R.Records O.Order self.old space.old }
        ensures inserted { OnOk result (Inserts R.S.Space R.Records O.Order last key.now value.now self.old self.new space.old space.new) }
        ensures gains { GivesIds R.S.Space 2 self.old.height 1 result self.old self.new space.new }
        ensures adds { OnOk result (AddsPages R.S.Space R.Records O.Order last key.now value.now self.old self.new space.old) }
        ensures pages { OnOk result (WritesPages R.S.Space R.Records O.Order (inserted O.cmp last key.now value.now) self.old self.new space.old space.new) }
        ensures refused { RefusesPairs R.S.Space R.Records O.Order result self.old self.new space.old space.new }
        ensures full { OnFull result (IsFull R.S.Space R.Records O.Order last key.now value.now self.old space.old space.new) }
        ensures keeps { Keeps R.S.Space space.old space.new }
        ensures stays { StaysMade R.Records self.old self.new }
        ensures cause { OnFault R.S.Space result space.old space.new }
    {
        if self.head.pairs == u64::MAX || self.height == u64::MAX {
            return Err(RecErr::Memory);
        }
        let mut steps: Steps<R> = Steps::new();
        let changed = self.take_pair(space, key, value, last, &mut steps)?;
        let grown = changed.grown;
        if leaf_fits(self.head.leaf_limit, &changed.leaf) {
            self.put_leaf(space, changed.id, changed.leaf)?;
            self.count_pair(grown);
            return Ok(());
        }
        if let Err(e) = self.part(space, changed.id, changed.leaf, changed.place, &mut steps) {
            space.spoil();
            return Err(e);
        }
        self.count_pair(grown);
        Ok(())
    }
}
