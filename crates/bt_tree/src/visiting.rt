//! The items of a stretch of keys shown where they lie, until no more is wanted.
ghost use Rattle.std.specs.Prelude.{◌≤◌, length, drop, IfOk, OnOk};
ghost use Rattle.tc_space.specs.Refusals.{Blames};
ghost use Rattle.bt_cache.specs.Held.{IsThere, ReadyBeside};
ghost use Rattle.bt_cache.specs.Shared.{IsSomeLeaf};
ghost use Rattle.bt_tree.specs.Meaning.{IsOpen};
ghost use Rattle.bt_tree.specs.Ranging.{Scans};
ghost use Rattle.bt_tree.specs.Visiting.{CostsVisit, ShowsInside, ShowsLeaf, ShowsRest, VisitsPairs};
ghost use Rattle.bt_tree.specs.Visits.{Visits};

use crate::showing::Taker;
use crate::stretching::{has, start};
use crate::tree::Tree;
use bt_slots::SlottedLeaf;
use std::alloc::AllocError;
use tc_base::{Cut, Order, Steps};
use tc_space::{RecErr, Records};

// Shows items from a place up to the first that isn't inside, while more is wanted, and answers whether all were shown and more is wanted.
fn show_from<O: Order, C: Cut<O>, T: Taker>(
    leaf: &SlottedLeaf,
    place: usize,
    cut: &C,
    taker: &mut T,
) -> Result<bool, AllocError>
    requires { place ≤ length leaf.now.items }
    ensures shown { IfOk result (ShowsRest T.takes (C.side_of cut.now) (drop place leaf.now.items) taker.old taker.new) }
    ensures stays { T.stays taker.old taker.new }
{
    for i in place..leaf.len() {
        if !has::<O, C>(cut, leaf.key(i)) {
            return Ok(false);
        }
        if !taker.take(&leaf.lying(i))? {
            return Ok(false);
        }
    }
    Ok(true)
}

// Shows the items of a leaf that are inside, while more is wanted, and answers the id of the next leaf; 0 where no further item is to be shown.
fn show_leaf<O: Order, C: Cut<O>, T: Taker>(
    leaf: &SlottedLeaf,
    cut: &C,
    taker: &mut T,
) -> Result<u64, AllocError>
    ensures shown { IfOk result (ShowsInside O.cmp T.takes (C.side_of cut.now) leaf.now taker.old taker.new) }
    ensures stays { T.stays taker.old taker.new }
{
    let place = start::<O, C>(leaf, cut);
    if !show_from::<O, C, T>(leaf, place, cut, taker)? {
        return Ok(0);
    }
    Ok(leaf.next())
}

impl<R: Records, O: Order> Tree<R, O> {
    // Shows the items of one leaf that are inside, and answers the id of the next leaf; 0 where no further item is to be shown.
    fn visit_leaf<C: Cut<O>, T: Taker, L>(
        &mut self,
        space: &mut R::S,
        cut: &C,
        id: u64,
        taker: &mut T,
        steps: &mut Steps<L>,
    ) -> Result<u64, RecErr>
        requires ready { ReadyBeside R.S.Space R.Records self.old.cache self.old.store space.old }
        requires there { IsThere R.S.Space R.Records IsSomeLeaf id self.old.cache self.old.store space.old }
        ensures shown { IfOk result (ShowsLeaf R.S.Space R.Records O.cmp T.takes (C.side_of cut.now) id self.old space.old taker.old taker.new) }
        ensures stays { T.stays taker.old taker.new }
        ensures visits { Visits R.S.Space R.Records 1 self.old self.new steps.old steps.new space.old space.new }
        ensures cause { Blames R.S.Space result space.old space.new }
    {
        let _counted = steps.count();
        let leaf = self.cache.leaf(&mut self.store, space, id, steps)?;
        Ok(show_leaf::<O, C, T>(&leaf, cut, taker)?)
    }

    /// Shows the items of a stretch of keys where they lie, in order, while more is wanted. The way to the first of them is read, then each leaf that holds some of those shown once,
    /// and one more at most. Nothing is copied. `Full` doesn't come.
    pub fn visit<C: Cut<O>, T: Taker, L>(
        &mut self,
        space: &mut R::S,
        cut: &C,
        taker: &mut T,
        steps: &mut Steps<L>,
    ) -> Result<(), RecErr>
        requires { IsOpen R.S.Space R.Records O.Order self.old space.old }
        ensures shown { OnOk result (VisitsPairs R.S.Space R.Records O.Order T.takes (C.side_of cut.now) self.old space.old steps.old steps.new taker.old taker.new) }
        ensures stays { T.stays taker.old taker.new }
        ensures asks { Scans R.S.Space R.Records O.Order self.old self.new steps.old steps.new space.old space.new }
        ensures cost { CostsVisit R.S.Space R.Records O.Order (C.side_of cut.now) self.old space.old steps.old steps.new }
        ensures cause { Blames R.S.Space result space.old space.new }
    {
        let first = self.descend_to(space, cut, steps)?;
        let mut next = self.visit_leaf(space, cut, first, taker, steps)?;
        // behind the first leaf each has a pair at least
        for i in 0..self.head.pairs {
            if next == 0 {
                return Ok(());
            }
            let onward = self.visit_leaf(space, cut, next, taker, steps)?;
            next = onward;
        }
        Ok(())
    }
}
