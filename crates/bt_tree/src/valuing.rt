//! One value among those of a key, given another or taken out.
ghost use Rattle.std.specs.Prelude.{◌≡◌, ◌+◌, ◌-◌, ◌<◌, length, option_map, IfOk, IfSome, None, OnOk};
ghost use Rattle.tc_space.specs.Frames.{Keeps};
ghost use Rattle.tc_space.specs.Refusals.{Blames, OnFault};
ghost use Rattle.bt_cache.specs.Effects.{OnFull};
ghost use Rattle.bt_tree.specs.Inserting.{StaysMade};
ghost use Rattle.bt_tree.specs.Meaning.{IsOpen, RefusesPairs};
ghost use Rattle.bt_tree.specs.Paging.{HasLeafAt, IsShown, Peeks};
ghost use Rattle.bt_slots.specs.Lying.{values_with_nth};
ghost use Rattle.bt_slots.specs.Slots.{HasValuesAt};
ghost use Rattle.bt_tree.specs.Numbers.{with_pairs};
ghost use Rattle.bt_tree.specs.Valuing.{ChangesPages, GivesFewIds, IsSetFull, PlacesIn, RevaluesLeaf, SetsAt, TellsPlace, gone};
ghost use Rattle.bt_tree.specs.Visits.{LooksAt, StaysTree};

use crate::cutting::leaf_fits;
use crate::inserting::Changed;
use crate::searching::spot;
use crate::tree::Tree;
use bt_slots::SlottedLeaf;
use std::alloc::{AllocError, Global};
use tc_base::{Order, Steps};
use tc_space::{RecErr, Records, Space};

// The place of a key's item in the leaf where it belongs, if it has a value at a place.
fn item_with<O: Order>(leaf: &SlottedLeaf, key: &[u8], place: u64) -> Option<usize>
    ensures { PlacesIn O.cmp key.now place leaf.now result }
{
    let (at, hit) = spot::<O>(leaf, key);
    if !hit {
        return None;
    }
    let many = leaf.count(at);
    if place >= many {
        return None;
    }
    Some(at)
}

// The leaf with another value at a place of an item, or without it, where the item has such a value.
fn with_nth(
    alloc: Global,
    leaf: SlottedLeaf,
    at: usize,
    place: u64,
    value: Option<&[u8]>,
) -> Result<SlottedLeaf, AllocError>
    requires { option_map (λ v. v.now) value ≡ None → 0 < place }
    ensures inside { OnOk result (at < length leaf.items) }
    ensures values { IfOk result (HasValuesAt (values_with_nth place (option_map (λ v. v.now) value.entry)) at leaf) }
{
    let len = leaf.len();
    if at >= len {
        return Err(AllocError);
    }
    let many = leaf.count(at);
    if place >= many {
        return Err(AllocError);
    }
    leaf.with_value_at(alloc, at, place, value)
}

impl<R: Records, O: Order> Tree<R, O> {
    // The same in the leaf of an id. The cache keeps the page.
    fn place_in<L>(
        &mut self,
        space: &mut R::S,
        id: u64,
        key: &[u8],
        place: u64,
        steps: &mut Steps<L>,
    ) -> Result<Option<usize>, RecErr>
        requires ready { IsShown R.S.Space R.Records self.old space.old }
        requires there { HasLeafAt R.S.Space R.Records id self.old space.old }
        ensures place { IfOk result (TellsPlace R.S.Space R.Records O.cmp key.now place id self.old space.old) }
        ensures peeks { Peeks R.S.Space R.Records self.old self.new space.old space.new }
        ensures cause { Blames R.S.Space result space.old space.new }
    {
        let leaf = self.cache.leaf(&mut self.store, space, id, steps)?;
        Ok(item_with::<O>(&leaf, key, place))
    }

    // Goes to the leaf where a key belongs and gives the value at a place another one, or takes it out, if it is there. Nothing is written yet.
    fn revalue<L>(
        &mut self,
        space: &mut R::S,
        key: &[u8],
        place: u64,
        value: Option<&[u8]>,
        steps: &mut Steps<L>,
    ) -> Result<Option<Changed>, RecErr>
        requires open { IsOpen R.S.Space R.Records O.Order self.old space.old }
        requires behind { option_map (λ v. v.now) value ≡ None → 0 < place }
        ensures leaf { IfOk result (RevaluesLeaf R.S.Space R.Records O.Order key.now place (option_map (λ v. v.now) value.entry) self.old space.old self.new.path) }
        ensures inside { IfOk result (λ found. IfSome found (λ x. x.place < length x.leaf.items)) }
        ensures deep { OnOk result (length self.new.path + 1 ≡ self.old.height) }
        ensures looks { LooksAt R.S.Space R.Records self.old self.new space.old space.new }
        ensures stays { StaysTree self.old self.new }
        ensures cause { Blames R.S.Space result space.old space.new }
    {
        let id = self.descend(space, key, steps)?;
        let Some(at) = self.place_in(space, id, key, place, steps)? else {
            return Ok(None);
        };
        let leaf = self.own_leaf(space, id, steps)?;
        // its value was found in the same page
        let leaf = with_nth(self.alloc, leaf, at, place, value)?;
        Ok(Some(Changed {
            id,
            leaf,
            place: at,
            grown: false,
        }))
    }

    // One pair less is counted where a value went.
    fn uncount_value(&mut self, value: Option<&[u8]>)
        ensures { self.new ≡ with_pairs (self.old.head.pairs - gone (option_map (λ v. v.now) value.entry)) self.old }
    {
        if value.is_none() {
            self.head.pairs = self.head.pairs.saturating_sub(1);
        }
    }

    // The first value of a key goes.
    fn drop_first(&mut self, space: &mut R::S, key: &[u8]) -> Result<bool, RecErr>
        requires { IsOpen R.S.Space R.Records O.Order self.old space.old }
        ensures set { IfOk result (λ there. SetsAt R.S.Space R.Records O.Order key.now 0 None there self.old self.new space.old space.new) }
        ensures gains { GivesFewIds R.S.Space 2 self.old.height 1 result self.old self.new space.new }
        ensures pages { OnOk result (ChangesPages R.S.Space R.Records O.Order key.now 0 None self.old self.new space.old space.new) }
        ensures refused { RefusesPairs R.S.Space R.Records O.Order result self.old self.new space.old space.new }
        ensures full { OnFull result (IsSetFull R.S.Space R.Records O.Order key.now 0 None self.old space.old space.new) }
        ensures keeps { Keeps R.S.Space space.old space.new }
        ensures stays { StaysMade R.Records self.old self.new }
        ensures cause { OnFault R.S.Space result space.old space.new }
    {
        self.remove(space, key, false)
    }

    // A value of a key gets another one, or one behind the first goes.
    fn set_within(
        &mut self,
        space: &mut R::S,
        key: &[u8],
        place: u64,
        value: Option<&[u8]>,
    ) -> Result<bool, RecErr>
        requires open { IsOpen R.S.Space R.Records O.Order self.old space.old }
        requires behind { option_map (λ v. v.now) value ≡ None → 0 < place }
        ensures set { IfOk result (λ there. SetsAt R.S.Space R.Records O.Order key.now place (option_map (λ v. v.now) value.entry) there self.old self.new space.old space.new) }
        ensures gains { GivesFewIds R.S.Space 2 self.old.height 1 result self.old self.new space.new }
        ensures pages { OnOk result (ChangesPages R.S.Space R.Records O.Order key.now place (option_map (λ v. v.now) value.entry) self.old self.new space.old space.new) }
        ensures refused { RefusesPairs R.S.Space R.Records O.Order result self.old self.new space.old space.new }
        ensures full { OnFull result (IsSetFull R.S.Space R.Records O.Order key.now place (option_map (λ v. v.now) value.entry) self.old space.old space.new) }
        ensures keeps { Keeps R.S.Space space.old space.new }
        ensures stays { StaysMade R.Records self.old self.new }
        ensures cause { OnFault R.S.Space result space.old space.new }
    {
        if self.height == u64::MAX {
            return Err(RecErr::Memory);
        }
        let mut steps: Steps<R> = Steps::new();
        let Some(changed) = self.revalue(space, key, place, value, &mut steps)? else {
            return Ok(false);
        };
        if leaf_fits(self.head.leaf_limit, &changed.leaf) {
            self.put_leaf(space, changed.id, changed.leaf)?;
            self.uncount_value(value);
            return Ok(true);
        }
        if let Err(e) = self.part(space, changed.id, changed.leaf, changed.place, &mut steps) {
            space.spoil();
            return Err(e);
        }
        self.uncount_value(value);
        Ok(true)
    }

    /// Gives the value at a place among those of a key, counted from 0, another one, or with None takes it out. False comes exactly where there is no such value, and then nothing is
    /// written. It writes what `insert` and `remove` do: pages come only where the leaf where the key belongs has no room for what is made of its pairs, and then no more than by a put.
    /// Where a leaf goes, a root with its heir alone gives way to it. After a refusal the space isn't sound, or nothing has changed, and no id is given.
    pub fn set_at(
        &mut self,
        space: &mut R::S,
        key: &[u8],
        place: u64,
        value: Option<&[u8]>,
    ) -> Result<bool, RecErr>
        requires { IsOpen R.S.Space R.Records O.Order self.old space.old }
        ensures set { IfOk result (λ there. SetsAt R.S.Space R.Records O.Order key.now place (option_map (λ v. v.now) value.entry) there self.old self.new space.old space.new) }
        ensures gains { GivesFewIds R.S.Space 2 self.old.height 1 result self.old self.new space.new }
        ensures pages { OnOk result (ChangesPages R.S.Space R.Records O.Order key.now place (option_map (λ v. v.now) value.entry) self.old self.new space.old space.new) }
        ensures refused { RefusesPairs R.S.Space R.Records O.Order result self.old self.new space.old space.new }
        ensures full { OnFull result (IsSetFull R.S.Space R.Records O.Order key.now place (option_map (λ v. v.now) value.entry) self.old space.old space.new) }
        ensures keeps { Keeps R.S.Space space.old space.new }
        ensures stays { StaysMade R.Records self.old self.new }
        ensures cause { OnFault R.S.Space result space.old space.new }
    {
        if place == 0 {
            let Some(_first) = value else {
                return self.drop_first(space, key);
            };
            return self.set_within(space, key, place, value);
        }
        self.set_within(space, key, place, value)
    }
}
