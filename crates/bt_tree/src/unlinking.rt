//! A leaf with no items, taken out of a tree.
ghost use Rattle.std.specs.Prelude.{◌≡◌, OnOk};
ghost use Rattle.tc_space.specs.Refusals.{OnFault};
ghost use Rattle.bt_rows.specs.Pages.{IsGiven};
ghost use Rattle.bt_ways.specs.Removals.{with_next, with_prev};
ghost use Rattle.bt_cache.specs.Effects.{OnFull};
ghost use Rattle.bt_tree.specs.Removing.{HasLast, HasLink, HasLinks, LacksLast, LacksLink, LacksLinks, Narrows, StaysBeside, TurnsLinked, TurnsUnlinked, TurnsVacated, first_after, last_after};

use crate::tree::Tree;
use bt_page::Leaf;
use bt_slots::SlottedLeaf;
use tc_base::{Order, Seq, Steps};
use tc_space::{RecErr, Records};

impl<R: Records, O: Order> Tree<R, O> {
    // The leaf of an id gets another next one; where none is named, that is the first of all.
    fn link_next<L>(
        &mut self,
        space: &mut R::S,
        id: u64,
        next: u64,
        steps: &mut Steps<L>,
    ) -> Result<(), RecErr>
        requires { HasLink R.S.Space R.Records id self.old space.old }
        ensures linked { OnOk result (TurnsLinked R.S.Space R.Records id (with_next id next) self.old self.new space.old space.new) }
        ensures full { OnFull result (LacksLink R.S.Space R.Records id self.old space.old space.new) }
        ensures narrows { Narrows R.S.Space R.Records self.old self.new space.old space.new }
        ensures same { self.new.head ≡ record self.old.head { first = first_after id next self.old.head.first } }
        ensures beside { StaysBeside self.old self.new }
        ensures cause { OnFault R.S.Space result space.old space.new }
    {
        if id == 0 {
            self.head.first = next;
            return Ok(());
        }
        let leaf = self.own_leaf(space, id, steps)?;
        let leaf = leaf.with_next(self.alloc, next)?;
        self.put_leaf(space, id, leaf)
    }

    // The leaf of an id gets another previous one; where none is named, that is the last of all.
    fn link_prev<L>(
        &mut self,
        space: &mut R::S,
        id: u64,
        prev: u64,
        steps: &mut Steps<L>,
    ) -> Result<(), RecErr>
        requires { HasLink R.S.Space R.Records id self.old space.old }
        ensures linked { OnOk result (TurnsLinked R.S.Space R.Records id (with_prev id prev) self.old self.new space.old space.new) }
        ensures full { OnFull result (LacksLink R.S.Space R.Records id self.old space.old space.new) }
        ensures narrows { Narrows R.S.Space R.Records self.old self.new space.old space.new }
        ensures same { self.new.head ≡ record self.old.head { last = last_after prev id self.old.head.last } }
        ensures beside { StaysBeside self.old self.new }
        ensures cause { OnFault R.S.Space result space.old space.new }
    {
        if id == 0 {
            self.head.last = prev;
            return Ok(());
        }
        let leaf = self.own_leaf(space, id, steps)?;
        let leaf = leaf.with_prev(self.alloc, prev)?;
        self.put_leaf(space, id, leaf)
    }

    // Links the neighbours of a leaf with each other and drops its page.
    fn unlink<L>(
        &mut self,
        space: &mut R::S,
        id: u64,
        prev: u64,
        next: u64,
        steps: &mut Steps<L>,
    ) -> Result<(), RecErr>
        requires ready { HasLinks R.S.Space R.Records prev next self.old space.old }
        requires given { R.S.tells → IsGiven self.old.head id }
        ensures unlinked { OnOk result (TurnsUnlinked R.S.Space R.Records id prev next self.old self.new space.old space.new) }
        ensures full { OnFull result (LacksLinks R.S.Space R.Records prev next self.old space.old space.new) }
        ensures narrows { Narrows R.S.Space R.Records self.old self.new space.old space.new }
        ensures same { OnOk result (self.new.head ≡ record self.old.head { first = first_after prev next self.old.head.first; last = last_after prev next self.old.head.last }) }
        ensures beside { StaysBeside self.old self.new }
        ensures cause { OnFault R.S.Space result space.old space.new }
    {
        self.link_next(space, prev, next, steps)?;
        self.link_prev(space, next, prev, steps)?;
        self.drop_page(space, id)
    }

    // Takes out a leaf that has neighbours, its place in the rows above, and the roots that have their heir alone.
    fn cut_leaf<L>(
        &mut self,
        space: &mut R::S,
        id: u64,
        prev: u64,
        next: u64,
        steps: &mut Steps<L>,
    ) -> Result<(), RecErr>
        requires ready { HasLast R.S.Space R.Records O.Order id prev next self.old space.old }
        requires beside { (prev ≡ 0) × (next ≡ 0) → ⊥ }
        ensures vacated { OnOk result (TurnsVacated R.S.Space R.Records O.Order id prev next self.old self.new space.old space.new) }
        ensures full { OnFull result (LacksLast R.S.Space R.Records O.Order id prev next self.old space.old space.new) }
        ensures narrows { Narrows R.S.Space R.Records self.old self.new space.old space.new }
        ensures cause { OnFault R.S.Space result space.old space.new }
    {
        self.unlink(space, id, prev, next, steps)?;
        self.prune(space, steps)?;
        self.sink(space, steps)
    }

    // Drops the nodes above the only leaf, which is then the root, with no items.
    fn clear(&mut self, space: &mut R::S, id: u64) -> Result<(), RecErr>
        requires { HasLast R.S.Space R.Records O.Order id 0 0 self.old space.old }
        ensures vacated { OnOk result (TurnsVacated R.S.Space R.Records O.Order id 0 0 self.old self.new space.old space.new) }
        ensures full { OnFull result (LacksLast R.S.Space R.Records O.Order id 0 0 self.old space.old space.new) }
        ensures narrows { Narrows R.S.Space R.Records self.old self.new space.old space.new }
        ensures cause { OnFault R.S.Space result space.old space.new }
    {
        self.drop_way(space)?;
        let leaf = Leaf {
            prev: 0,
            next: 0,
            items: Seq::new(self.alloc),
        };
        let leaf = SlottedLeaf::of(self.alloc, &leaf)?;
        self.put_leaf(space, id, leaf)?;
        self.head.root = id;
        self.head.first = id;
        self.head.last = id;
        self.height = 1;
        Ok(())
    }

    /// Takes out a leaf with these links that has no items any more, where the noted way leads; the only one becomes the root. After a refusal some of it may have been written.
    pub(crate) fn vacate<L>(
        &mut self,
        space: &mut R::S,
        id: u64,
        prev: u64,
        next: u64,
        steps: &mut Steps<L>,
    ) -> Result<(), RecErr>
        requires { HasLast R.S.Space R.Records O.Order id prev next self.old space.old }
        ensures vacated { OnOk result (TurnsVacated R.S.Space R.Records O.Order id prev next self.old self.new space.old space.new) }
        ensures full { OnFull result (LacksLast R.S.Space R.Records O.Order id prev next self.old space.old space.new) }
        ensures narrows { Narrows R.S.Space R.Records self.old self.new space.old space.new }
        ensures cause { OnFault R.S.Space result space.old space.new }
    {
        if prev == 0 && next == 0 {
            return self.clear(space, id);
        }
        self.cut_leaf(space, id, prev, next, steps)
    }
}
