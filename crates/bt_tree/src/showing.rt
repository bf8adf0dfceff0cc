//! Items of a tree shown where they lie in its pages, with no copy.
ghost use Rattle.std.specs.Prelude.{◌<◌, length, slice_get, IfOk, IfNone, IfSome, true, ◌+◌};
ghost use Rattle.tc_space.specs.Refusals.{Blames};
ghost use Rattle.bt_cache.specs.Held.{IsThere, ReadyBeside};
ghost use Rattle.bt_cache.specs.Shared.{IsSomeLeaf};
ghost use Rattle.bt_ways.specs.Items.{item_in};
ghost use Rattle.bt_tree.specs.Meaning.{IsOpen};
ghost use Rattle.bt_tree.specs.Showing.{LeadsInFront, ShownOf, ShowsAt, ShowsBelow, ShowsItem, ShowsLastOf, ShowsOne, ShowsPlace, item_before, item_first, item_last};
ghost use Rattle.bt_tree.specs.Visits.{Asks, Visits};

use crate::searching::spot;
use crate::tree::Tree;
use bt_slots::{Lying, SlottedLeaf};
use std::alloc::AllocError;
use tc_base::{Order, Steps};
use tc_space::{RecErr, Records};

/// What is shown items where they lie, one by one, until it wants no more.
pub trait Taker {
    ghost use Rattle.std.specs.Prelude.{Bool, IfOk};
    ghost use Rattle.bt_page.specs.declared.page.Item.{Item};
    ghost use Rattle.bt_slots.specs.Lying.{seen};

    /// It was shown an item, and this is whether it wants more.
    ghost takes: { Self → Item → Self → Bool → Type 0 };

    /// So it stands to what it was before, whatever it answered.
    ghost stays: { Self → Self → Type 0 };

    /// Is shown an item, and answers whether it wants more.
    fn take(&mut self, item: &Lying<'_>) -> Result<bool, AllocError>
        ensures taken { IfOk result (takes self.old (seen item.now.key.now item.now.first.now item.now.more item.now.further.now) self.new) }
        ensures stays { stays self.old self.new };

    ghost stays_refl: { (t : Self) → stays t t };

    ghost stays_then: { (t u v : Self) → stays t u → stays u v → stays t v };
}

// Shows the item at a place.
fn show_place<T: Taker>(leaf: &SlottedLeaf, place: usize, taker: &mut T) -> Result<bool, AllocError>
    requires { place < length leaf.now.items }
    ensures shown { IfOk result (ShowsPlace T.takes leaf.now place taker.old taker.new) }
    ensures stays { T.stays taker.old taker.new }
{
    taker.take(&leaf.lying(place))
}

// Shows the item of a key, if the leaf where it belongs has it, and answers whether it has.
fn show_found<O: Order, T: Taker>(
    leaf: &SlottedLeaf,
    key: &[u8],
    taker: &mut T,
) -> Result<bool, AllocError>
    ensures shown { IfOk result (λ held. ShowsAt O.cmp key.now (item_in key.now) T.takes leaf.now held taker.old taker.new) }
    ensures stays { T.stays taker.old taker.new }
{
    let (place, hit) = spot::<O>(leaf, key);
    if !hit {
        return Ok(false);
    }
    let _more = show_place(leaf, place, taker)?;
    Ok(true)
}

// Shows the first item of a leaf, if it has any, and answers whether it has.
fn show_start<T: Taker>(leaf: &SlottedLeaf, taker: &mut T) -> Result<bool, AllocError>
    ensures shown { IfOk result (λ held. ShownOf T.takes (slice_get leaf.now.items 0) held taker.old taker.new) }
    ensures stays { T.stays taker.old taker.new }
{
    let len = leaf.len();
    if len == 0 {
        return Ok(false);
    }
    let _more = show_place(leaf, 0, taker)?;
    Ok(true)
}

// Shows the last item of a leaf, if it has any, and answers whether it has.
fn show_end<T: Taker>(leaf: &SlottedLeaf, taker: &mut T) -> Result<bool, AllocError>
    ensures shown { IfOk result (λ held. ShowsLastOf T.takes leaf.now held taker.old taker.new) }
    ensures stays { T.stays taker.old taker.new }
{
    let len = leaf.len();
    if len == 0 {
        return Ok(false);
    }
    let _more = show_place(leaf, len - 1, taker)?;
    Ok(true)
}

// Shows the last item below a key, if the leaf where the key belongs has it; else it answers the id of the leaf in front, 0 for none.
fn show_below<O: Order, T: Taker>(
    leaf: &SlottedLeaf,
    key: &[u8],
    taker: &mut T,
) -> Result<Option<u64>, AllocError>
    ensures here { IfOk result (λ prev. IfNone prev (ShowsBelow O.cmp key.now T.takes leaf.now taker.old taker.new)) }
    ensures front { IfOk result (λ prev. IfSome prev (λ id. LeadsInFront O.cmp key.now leaf.now id taker.old taker.new)) }
    ensures stays { T.stays taker.old taker.new }
{
    let (place, _) = spot::<O>(leaf, key);
    if place == 0 {
        return Ok(Some(leaf.prev()));
    }
    let _more = show_place(leaf, place - 1, taker)?;
    Ok(None)
}

impl<R: Records, O: Order> Tree<R, O> {
    /// Shows a key with its values where they lie, and answers whether it is held. It reads what `find` does. `Full` doesn't come.
    pub fn show<T: Taker, L>(
        &mut self,
        space: &mut R::S,
        key: &[u8],
        taker: &mut T,
        steps: &mut Steps<L>,
    ) -> Result<bool, RecErr>
        requires { IsOpen R.S.Space R.Records O.Order self.old space.old }
        ensures shown { IfOk result (λ held. ShowsItem R.S.Space R.Records O.Order (item_in key.now) T.takes self.old space.old held taker.old taker.new) }
        ensures stays { T.stays taker.old taker.new }
        ensures asks { Asks R.S.Space R.Records O.Order self.old.height self.old self.new steps.old steps.new space.old space.new }
        ensures cause { Blames R.S.Space result space.old space.new }
    {
        let leaf = self.leaf_for(space, key, steps)?;
        Ok(show_found::<O, T>(&leaf, key, taker)?)
    }

    // Shows the last item of the leaf of an id, and answers whether it has any.
    fn show_last_of<T: Taker, L>(
        &mut self,
        space: &mut R::S,
        id: u64,
        taker: &mut T,
        steps: &mut Steps<L>,
    ) -> Result<bool, RecErr>
        requires ready { ReadyBeside R.S.Space R.Records self.old.cache self.old.store space.old }
        requires there { IsThere R.S.Space R.Records IsSomeLeaf id self.old.cache self.old.store space.old }
        ensures shown { IfOk result (λ held. ShowsOne R.S.Space R.Records T.takes id self.old space.old held taker.old taker.new) }
        ensures stays { T.stays taker.old taker.new }
        ensures visits { Visits R.S.Space R.Records 1 self.old self.new steps.old steps.new space.old space.new }
        ensures cause { Blames R.S.Space result space.old space.new }
    {
        let _counted = steps.count();
        let leaf = self.cache.leaf(&mut self.store, space, id, steps)?;
        Ok(show_end(&leaf, taker)?)
    }

    /// Shows the last item with a lesser key, and answers whether there is one. It reads the way to where the key belongs, and one more leaf at most.
    pub fn show_before<T: Taker, L>(
        &mut self,
        space: &mut R::S,
        key: &[u8],
        taker: &mut T,
        steps: &mut Steps<L>,
    ) -> Result<bool, RecErr>
        requires { IsOpen R.S.Space R.Records O.Order self.old space.old }
        ensures shown { IfOk result (λ held. ShowsItem R.S.Space R.Records O.Order (item_before O.cmp key.now) T.takes self.old space.old held taker.old taker.new) }
        ensures stays { T.stays taker.old taker.new }
        ensures asks { Asks R.S.Space R.Records O.Order (self.old.height + 1) self.old self.new steps.old steps.new space.old space.new }
        ensures cause { Blames R.S.Space result space.old space.new }
    {
        let id = self.descend(space, key, steps)?;
        let _counted = steps.count();
        let leaf = self.cache.leaf(&mut self.store, space, id, steps)?;
        let Some(prev) = show_below::<O, T>(&leaf, key, taker)? else {
            return Ok(true);
        };
        if prev == 0 {
            return Ok(false);
        }
        self.show_last_of(space, prev, taker, steps)
    }

    /// Shows the first item of all, and answers whether there is one. It reads one page.
    pub fn show_first<T: Taker, L>(
        &mut self,
        space: &mut R::S,
        taker: &mut T,
        steps: &mut Steps<L>,
    ) -> Result<bool, RecErr>
        requires { IsOpen R.S.Space R.Records O.Order self.old space.old }
        ensures shown { IfOk result (λ held. ShowsItem R.S.Space R.Records O.Order item_first T.takes self.old space.old held taker.old taker.new) }
        ensures stays { T.stays taker.old taker.new }
        ensures asks { Asks R.S.Space R.Records O.Order 1 self.old self.new steps.old steps.new space.old space.new }
        ensures cause { Blames R.S.Space result space.old space.new }
    {
        let _counted = steps.count();
        let leaf = self
            .cache
            .leaf(&mut self.store, space, self.head.first, steps)?;
        Ok(show_start(&leaf, taker)?)
    }

    /// Shows the last item of all, as `show_first` the first.
    pub fn show_last<T: Taker, L>(
        &mut self,
        space: &mut R::S,
        taker: &mut T,
        steps: &mut Steps<L>,
    ) -> Result<bool, RecErr>
        requires { IsOpen R.S.Space R.Records O.Order self.old space.old }
        ensures shown { IfOk result (λ held. ShowsItem R.S.Space R.Records O.Order item_last T.takes self.old space.old held taker.old taker.new) }
        ensures stays { T.stays taker.old taker.new }
        ensures asks { Asks R.S.Space R.Records O.Order 1 self.old self.new steps.old steps.new space.old space.new }
        ensures cause { Blames R.S.Space result space.old space.new }
    {
        self.show_last_of(space, self.head.last, taker, steps)
    }
}
