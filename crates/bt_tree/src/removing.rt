//! Pairs taken out of a tree.
ghost use Rattle.std.specs.Prelude.{◌≡◌, ◌-◌, ◌<◌, ◌⊎◌, [], length, true, false, IfOk, IfSome, OnOk};
ghost use Rattle.tc_space.specs.Changes.{has_pair};
ghost use Rattle.tc_space.specs.Frames.{Keeps};
ghost use Rattle.tc_space.specs.Refusals.{Blames, OnFault};
ghost use Rattle.bt_rows.specs.Orders.{before_by};
ghost use Rattle.bt_cache.specs.Effects.{OnFull};
ghost use Rattle.bt_tree.specs.Finding.{AnswersAt};
ghost use Rattle.bt_ways.specs.Changes.{removed};
ghost use Rattle.bt_tree.specs.Inserting.{StaysMade, WritesPages};
ghost use Rattle.bt_tree.specs.Meaning.{AnswersPairs, IsOpen, RefusesPairs};
ghost use Rattle.bt_tree.specs.Paging.{HasLeafAt, IsShown, Peeks};
ghost use Rattle.bt_tree.specs.Removing.{AddsNone, GivesInLeaf, HitsIn, IsRefusedRoom, LowersRoot, Removes, TellsHeld};
ghost use Rattle.bt_tree.specs.Numbers.{with_pairs};
ghost use Rattle.bt_tree.specs.Visits.{Asks, LooksAt, StaysTree};

use crate::searching::spot;
use crate::taking::take_value;
use crate::tree::Tree;
use bt_slots::SlottedLeaf;
use tc_base::{Order, Steps};
use tc_space::{RecErr, Records, Space};

/// The leaf of an id without values that went, and how many they were.
#[derive(Drop)]
pub(crate) struct Lessened {
    pub(crate) id: u64,
    pub(crate) leaf: SlottedLeaf,
    pub(crate) count: u64,
}

// Whether the leaf where a key belongs has it.
fn has_key<O: Order>(leaf: &SlottedLeaf, key: &[u8]) -> bool
    ensures { AnswersAt O.cmp key.now (has_pair key.now) leaf.now result }
{
    spot::<O>(leaf, key).1
}

impl<R: Records, O: Order> Tree<R, O> {
    // Whether the leaf of an id, where a key belongs, has it. The cache keeps the page.
    fn holds_key<L>(
        &mut self,
        space: &mut R::S,
        id: u64,
        key: &[u8],
        steps: &mut Steps<L>,
    ) -> Result<bool, RecErr>
        requires ready { IsShown R.S.Space R.Records self.old space.old }
        requires there { HasLeafAt R.S.Space R.Records id self.old space.old }
        ensures hit { IfOk result (HitsIn R.S.Space R.Records (before_by O.cmp) key.now id self.old space.old) }
        ensures peeks { Peeks R.S.Space R.Records self.old self.new space.old space.new }
        ensures cause { Blames R.S.Space result space.old space.new }
    {
        let leaf = self.cache.leaf(&mut self.store, space, id, steps)?;
        Ok(has_key::<O>(&leaf, key))
    }

    // Goes to the leaf where a key belongs and takes its values out of its items, if it has the key. Nothing is written yet.
    fn give_pairs<L>(
        &mut self,
        space: &mut R::S,
        key: &[u8],
        all: bool,
        steps: &mut Steps<L>,
    ) -> Result<Option<Lessened>, RecErr>
        requires { IsOpen R.S.Space R.Records O.Order self.old space.old }
        ensures hit { IfOk result (TellsHeld R.S.Space R.Records O.Order key.now self.old space.old) }
        ensures given { IfOk result (λ o. IfSome o (GivesInLeaf R.S.Space R.Records O.Order all key.now self.old space.old self.new.path)) }
        ensures looks { LooksAt R.S.Space R.Records self.old self.new space.old space.new }
        ensures stays { StaysTree self.old self.new }
        ensures cause { Blames R.S.Space result space.old space.new }
    {
        let id = self.descend(space, key, steps)?;
        if !self.holds_key(space, id, key, steps)? {
            return Ok(None);
        }
        let leaf = self.own_leaf(space, id, steps)?;
        let (leaf, count) = take_value::<O>(self.alloc, leaf, key, all)?;
        Ok(Some(Lessened { id, leaf, count }))
    }

    // Whether the leaf of an id is to go: it has no items, and isn't the root.
    fn is_spare(&self, id: u64, leaf: &SlottedLeaf) -> bool
        ensures kept { result ≡ false → (0 < length leaf.now.items) ⊎ (id ≡ self.now.head.root) }
        ensures bare { result ≡ true → leaf.now.items ≡ [] }
    {
        leaf.len() == 0 && id != self.head.root
    }

    // So many pairs less are counted.
    fn uncount(&mut self, count: u64)
        ensures { self.new ≡ with_pairs (self.old.head.pairs - count) self.old }
    {
        self.head.pairs = self.head.pairs.saturating_sub(count);
    }

    /// Whether a key is held. It reads what `find` does.
    pub fn holds<L>(
        &mut self,
        space: &mut R::S,
        key: &[u8],
        steps: &mut Steps<L>,
    ) -> Result<bool, RecErr>
        requires { IsOpen R.S.Space R.Records O.Order self.old space.old }
        ensures value { IfOk result (AnswersPairs R.S.Space R.Records O.Order (has_pair key.now) self.old space.old) }
        ensures asks { Asks R.S.Space R.Records O.Order self.old.height self.old self.new steps.old steps.new space.old space.new }
        ensures cause { Blames R.S.Space result space.old space.new }
    {
        let leaf = self.leaf_for(space, key, steps)?;
        Ok(has_key::<O>(&leaf, key))
    }

    /// Takes the first value of a key out, or with `all` all of them; a key without values goes with them. False comes exactly where the key isn't held, and then nothing
    /// is written. A leaf that becomes empty is taken out of the tree, with the nodes that led to it alone; a root with its heir alone gives way to it.
    /// After a refusal the space isn't sound, or nothing has changed. No page is added. `Full` is the store's.
    pub fn remove(&mut self, space: &mut R::S, key: &[u8], all: bool) -> Result<bool, RecErr>
        requires { IsOpen R.S.Space R.Records O.Order self.old space.old }
        ensures out { IfOk result (λ taken. Removes R.S.Space R.Records O.Order all key.now taken self.old self.new space.old space.new) }
        ensures ids { AddsNone self.old self.new }
        ensures pages { OnOk result (WritesPages R.S.Space R.Records O.Order (removed O.cmp all key.now) self.old self.new space.old space.new) }
        ensures root { OnOk result (LowersRoot R.S.Space R.Records O.Order self.old self.new space.old space.new) }
        ensures refused { RefusesPairs R.S.Space R.Records O.Order result self.old self.new space.old space.new }
        ensures full { OnFull result (IsRefusedRoom R.S.Space R.Records O.Order all key.now self.old space.old space.new) }
        ensures keeps { Keeps R.S.Space space.old space.new }
        ensures stays { StaysMade R.Records self.old self.new }
        ensures cause { OnFault R.S.Space result space.old space.new }
    {
        let mut steps: Steps<R> = Steps::new();
        let Some(lessened) = self.give_pairs(space, key, all, &mut steps)? else {
            return Ok(false);
        };
        let id = lessened.id;
        let leaf = lessened.leaf;
        let count = lessened.count;
        if !self.is_spare(id, &leaf) {
            self.put_leaf(space, id, leaf)?;
            self.uncount(count);
            return Ok(true);
        }
        let prev = leaf.prev();
        let next = leaf.next();
        if let Err(e) = self.vacate(space, id, prev, next, &mut steps) {
            space.spoil();
            return Err(e);
        }
        self.uncount(count);
        Ok(true)
    }
}
