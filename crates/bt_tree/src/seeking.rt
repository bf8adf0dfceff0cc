//! Items of a tree as copies: those from a stretch on, those behind a key, the one before it, and the ends.
ghost use Rattle.std.specs.Prelude.{◌≡◌, ◌≤◌, ◌+◌, ℕ, length, drop, IfOk};
ghost use Rattle.tc_space.specs.Refusals.{Blames};
ghost use Rattle.bt_cache.specs.Held.{IsThere, ReadyBeside};
ghost use Rattle.bt_cache.specs.Shared.{IsSomeLeaf};
ghost use Rattle.bt_order.specs.Ends.{side_above};
ghost use Rattle.bt_rows.specs.Orders.{before_by};
ghost use Rattle.bt_tree.specs.Meaning.{AnswersPairs, IsOpen};
ghost use Rattle.bt_tree.specs.Seeking.{SeeksLeaf, SeeksPairs};
ghost use Rattle.bt_tree.specs.Showing.{item_before, item_first, item_last};
ghost use Rattle.bt_tree.specs.Visits.{Asks, Visits};

use crate::showing::Taker;
use crate::stretching::start;
use crate::tree::Tree;
use bt_order::Above;
use bt_page::Item;
use bt_slots::{Lying, SlottedLeaf};
use std::alloc::{AllocError, Global};
use tc_base::{Cut, Order, Seq, Steps};
use tc_space::{RecErr, Records};

/// A list of items.
pub type Items = Seq<Item>;

// A copy of the last item that was shown.
#[derive(Drop)]
struct ItemCopy {
    alloc: Global,
    item: Option<Item>,
}

impl Taker for ItemCopy {
    ghost use Rattle.std.specs.Prelude.{◌≡◌, true, Some};

    ghost takes = { λ t x u more. (u.item ≡ Some x) × (more ≡ true) };

    ghost stays = { λ t u. Unit {0} };

    ghost stays_refl = { λ t. tt };

    ghost stays_then = { λ t u v first second. tt };

    fn take(&mut self, item: &Lying<'_>) -> Result<bool, AllocError> {
        self.item = Some(item.to_item(self.alloc)?);
        Ok(true)
    }
}

/// Copies of items of a leaf, and the id of the next leaf.
#[derive(Drop)]
pub(crate) struct Copies {
    pub(crate) items: Items,
    pub(crate) next: u64,
}

// Copies of the items of a leaf from a place on.
fn copy_from(alloc: Global, leaf: &SlottedLeaf, place: usize) -> Result<Items, AllocError>
    requires { place ≤ length leaf.now.items }
    ensures { IfOk result (λ items. items ≡ drop place leaf.now.items) }
{
    let mut items = Items::new(alloc);
    for i in place..leaf.len() {
        items.push(leaf.item(alloc, i)?)?;
    }
    Ok(items)
}

impl<R: Records, O: Order> Tree<R, O> {
    // Copies of the items of the leaf of an id that aren't in front of a stretch, and the id of the next leaf.
    fn copies_of<C: Cut<O>, L>(
        &mut self,
        space: &mut R::S,
        cut: &C,
        id: u64,
        steps: &mut Steps<L>,
    ) -> Result<Copies, RecErr>
        requires ready { ReadyBeside R.S.Space R.Records self.old.cache self.old.store space.old }
        requires there { IsThere R.S.Space R.Records IsSomeLeaf id self.old.cache self.old.store space.old }
        ensures copies { IfOk result (λ x. SeeksLeaf R.S.Space R.Records (before_by O.cmp) (C.side_of cut.now) id self.old space.old x.items x.next) }
        ensures visits { Visits R.S.Space R.Records 1 self.old self.new steps.old steps.new space.old space.new }
        ensures cause { Blames R.S.Space result space.old space.new }
    {
        let _counted = steps.count();
        let leaf = self.cache.leaf(&mut self.store, space, id, steps)?;
        let place = start::<O, C>(&leaf, cut);
        let items = copy_from(self.alloc, &leaf, place)?;
        Ok(Copies {
            items,
            next: leaf.next(),
        })
    }

    /// Items one behind the other, each with all its values, from the first that isn't in front of a stretch on, as copies. How many of them isn't told; none exactly where there is no such item.
    /// It reads the way to the first of them, and one more leaf at most. `Full` doesn't come.
    pub fn seek<C: Cut<O>, L>(
        &mut self,
        space: &mut R::S,
        cut: &C,
        steps: &mut Steps<L>,
    ) -> Result<Items, RecErr>
        requires { IsOpen R.S.Space R.Records O.Order self.old space.old }
        ensures items { IfOk result (SeeksPairs R.S.Space R.Records O.Order (C.side_of cut.now) self.old space.old) }
        ensures asks { Asks R.S.Space R.Records O.Order (self.old.height + 1) self.old self.new steps.old steps.new space.old space.new }
        ensures cause { Blames R.S.Space result space.old space.new }
    {
        let id = self.descend_to(space, cut, steps)?;
        let copies = self.copies_of(space, cut, id, steps)?;
        let next = copies.next;
        if next == 0 {
            return Ok(copies.items);
        }
        let len = copies.items.len();
        if len == 0 {
            let more = self.copies_of(space, cut, next, steps)?;
            return Ok(more.items);
        }
        Ok(copies.items)
    }

    /// The same from the first item with a greater key on.
    pub fn items_behind<L>(
        &mut self,
        space: &mut R::S,
        key: &[u8],
        steps: &mut Steps<L>,
    ) -> Result<Items, RecErr>
        requires { IsOpen R.S.Space R.Records O.Order self.old space.old }
        ensures items { IfOk result (SeeksPairs R.S.Space R.Records O.Order (side_above O.cmp key.now) self.old space.old) }
        ensures asks { Asks R.S.Space R.Records O.Order (self.old.height + 1) self.old self.new steps.old steps.new space.old space.new }
        ensures cause { Blames R.S.Space result space.old space.new }
    {
        self.seek(space, &Above { key }, steps)
    }

    /// The last item with a lesser key, as a copy.
    pub fn before<L>(
        &mut self,
        space: &mut R::S,
        key: &[u8],
        steps: &mut Steps<L>,
    ) -> Result<Option<Item>, RecErr>
        requires { IsOpen R.S.Space R.Records O.Order self.old space.old }
        ensures value { IfOk result (AnswersPairs R.S.Space R.Records O.Order (item_before O.cmp key.now) self.old space.old) }
        ensures asks { Asks R.S.Space R.Records O.Order (self.old.height + 1) self.old self.new steps.old steps.new space.old space.new }
        ensures cause { Blames R.S.Space result space.old space.new }
    {
        let mut copy = ItemCopy {
            alloc: self.alloc,
            item: None,
        };
        let _held = self.show_before(space, key, &mut copy, steps)?;
        Ok(copy.item)
    }

    /// The first item of all, as a copy.
    pub fn first(&mut self, space: &mut R::S) -> Result<Option<Item>, RecErr>
        requires { IsOpen R.S.Space R.Records O.Order self.old space.old }
        ensures value { IfOk result (AnswersPairs R.S.Space R.Records O.Order item_first self.old space.old) }
        ensures asks { (steps : ℕ) → Asks R.S.Space R.Records O.Order 1 self.old self.new steps (steps + 1) space.old space.new }
        ensures cause { Blames R.S.Space result space.old space.new }
    {
        let mut steps: Steps<R> = Steps::new();
        let mut copy = ItemCopy {
            alloc: self.alloc,
            item: None,
        };
        let _held = self.show_first(space, &mut copy, &mut steps)?;
        Ok(copy.item)
    }

    /// The last item of all, as a copy.
    pub fn last(&mut self, space: &mut R::S) -> Result<Option<Item>, RecErr>
        requires { IsOpen R.S.Space R.Records O.Order self.old space.old }
        ensures value { IfOk result (AnswersPairs R.S.Space R.Records O.Order item_last self.old space.old) }
        ensures asks { (steps : ℕ) → Asks R.S.Space R.Records O.Order 1 self.old self.new steps (steps + 1) space.old space.new }
        ensures cause { Blames R.S.Space result space.old space.new }
    {
        let mut steps: Steps<R> = Steps::new();
        let mut copy = ItemCopy {
            alloc: self.alloc,
            item: None,
        };
        let _held = self.show_last(space, &mut copy, &mut steps)?;
        Ok(copy.item)
    }
}
