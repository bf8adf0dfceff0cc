//! The first pairs of a stretch of keys.
ghost use Rattle.std.specs.Prelude.{◌≡◌, ◌≢◌, ◌<◌, ◌-◌, ℕ, [], List, length, take, IfOk};
ghost use Rattle.tc_space.specs.Changes.{inside_first};
ghost use Rattle.tc_space.specs.Refusals.{Blames};
ghost use Rattle.bt_rows.specs.Orders.{before_by};
ghost use Rattle.bt_cache.specs.Held.{IsThere, ReadyBeside};
ghost use Rattle.bt_cache.specs.Shared.{IsSomeLeaf};
ghost use Rattle.bt_tree.specs.Finding.{LeadsTo};
ghost use Rattle.bt_tree.specs.Meaning.{AnswersPairs, IsOpen};
ghost use Rattle.bt_tree.specs.Ranging.{FewPages, Scans, ScansLeaf, start_of};
ghost use Rattle.bt_tree.specs.Visits.{Visits};

use crate::searching::child;
use crate::stretching::{add_leaf, route_to};
use crate::tree::Tree;
use tc_base::{Cut, Order, Pairs, Steps};
use tc_space::{RecErr, Records};

// The id of the next leaf, or 0 where none was added to so many pairs.
fn if_grown(next: u64, before: usize, now: usize) -> u64
    ensures grown { result ≢ 0 → before < now }
    ensures same { before < now → result ≡ next }
{
    if now > before { next } else { 0 }
}

impl<R: Records, O: Order> Tree<R, O> {
    // Goes down to the leaf where a stretch begins, and answers its id: the first pair that isn't in front of the stretch stands there, or is the first of the next leaf.
    pub(crate) fn descend_to<C: Cut<O>, L>(
        &mut self,
        space: &mut R::S,
        cut: &C,
        steps: &mut Steps<L>,
    ) -> Result<u64, RecErr>
        requires { IsOpen R.S.Space R.Records O.Order self.old space.old }
        ensures found { IfOk result (λ id. (path : List (ℕ × ℕ)) × LeadsTo R.S.Space R.Records O.cmp (start_of (C.side_of cut.now)) [] self.old space.old path id) }
        ensures visits { Visits R.S.Space R.Records (self.old.height - 1) self.old self.new steps.old steps.new space.old space.new }
        ensures cause { Blames R.S.Space result space.old space.new }
    {
        let mut id = self.head.root;
        for i in 1..self.height {
            let _counted = steps.count();
            let node = self.cache.node(&mut self.store, space, id, steps)?;
            let place = route_to::<O, C>(&node, cut);
            id = child(&node, place);
        }
        Ok(id)
    }

    // Adds the pairs of one leaf that are inside, at most up to `max`, and answers the id of the next leaf; 0 where no further pair is to be added.
    fn scan<C: Cut<O>, L>(
        &mut self,
        space: &mut R::S,
        cut: &C,
        max: u64,
        id: u64,
        steps: &mut Steps<L>,
        pairs: &mut Pairs,
    ) -> Result<u64, RecErr>
        requires ready { ReadyBeside R.S.Space R.Records self.old.cache self.old.store space.old }
        requires there { IsThere R.S.Space R.Records IsSomeLeaf id self.old.cache self.old.store space.old }
        ensures scanned { IfOk result (ScansLeaf R.S.Space R.Records (before_by O.cmp) (C.side_of cut.now) max id self.old space.old pairs.old pairs.new) }
        ensures room { IfOk result (λ next. next ≢ 0 → length pairs.new < max) }
        ensures visits { Visits R.S.Space R.Records 1 self.old self.new steps.old steps.new space.old space.new }
        ensures cause { Blames R.S.Space result space.old space.new }
    {
        let _counted = steps.count();
        let leaf = self.cache.leaf(&mut self.store, space, id, steps)?;
        Ok(add_leaf::<O, C>(self.alloc, &leaf, cut, max, pairs)?)
    }

    /// The first pairs of a stretch of keys, in order, at most `max`, as copies. The way to the first of them is read, then each leaf that holds some of them once, and one more at most;
    /// behind the way no more leaves than `max`. Each page that isn't in memory is a step. `Full` doesn't come.
    pub fn range<C: Cut<O>, L>(
        &mut self,
        space: &mut R::S,
        cut: &C,
        max: u64,
        steps: &mut Steps<L>,
    ) -> Result<Pairs, RecErr>
        requires { IsOpen R.S.Space R.Records O.Order self.old space.old }
        ensures value { IfOk result (AnswersPairs R.S.Space R.Records O.Order (inside_first max (C.side_of cut.now)) self.old space.old) }
        ensures asks { Scans R.S.Space R.Records O.Order self.old self.new steps.old steps.new space.old space.new }
        ensures cost { FewPages R.S.Space R.Records O.Order (C.side_of cut.now) max self.old space.old steps.old steps.new }
        ensures cause { Blames R.S.Space result space.old space.new }
    {
        let mut pairs = Pairs::new(self.alloc);
        let first = self.descend_to(space, cut, steps)?;
        let mut next = self.scan(space, cut, max, first, steps, &mut pairs)?;
        'leaves: while next != 0 {
            let before = pairs.len();
            let onward = self.scan(space, cut, max, next, steps, &mut pairs)?;
            next = if_grown(onward, before, pairs.len());
        }
        Ok(pairs)
    }
}
