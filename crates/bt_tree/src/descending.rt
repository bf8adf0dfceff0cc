//! The way from the root to the leaf where a key belongs.
ghost use Rattle.std.specs.Prelude.{◌≡◌, ◌+◌, ◌-◌, length, IfOk, OnOk};
ghost use Rattle.tc_space.specs.Refusals.{Blames};
ghost use Rattle.bt_rows.specs.Orders.{before_by};
ghost use Rattle.bt_tree.specs.Finding.{FindsLeaf, LeadsTo};
ghost use Rattle.bt_tree.specs.Meaning.{IsOpen};
ghost use Rattle.bt_tree.specs.Visits.{Visits};

use crate::searching::{child, route};
use crate::tree::Tree;
use bt_slots::SlottedLeaf;
use std::rc::Rc;
use tc_base::{Order, Steps};
use tc_space::{RecErr, Records};

impl<R: Records, O: Order> Tree<R, O> {
    /// Goes down to the leaf where a key belongs, notes the way, and answers the leaf's id.
    pub(crate) fn descend<L>(
        &mut self,
        space: &mut R::S,
        key: &[u8],
        steps: &mut Steps<L>,
    ) -> Result<u64, RecErr>
        requires { IsOpen R.S.Space R.Records O.Order self.old space.old }
        ensures found { IfOk result (LeadsTo R.S.Space R.Records O.cmp (before_by O.cmp) key.now self.old space.old self.new.path) }
        ensures deep { OnOk result (length self.new.path + 1 ≡ self.old.height) }
        ensures visits { Visits R.S.Space R.Records (self.old.height - 1) self.old self.new steps.old steps.new space.old space.new }
        ensures cause { Blames R.S.Space result space.old space.new }
    {
        self.path.clear();
        let mut id = self.head.root;
        for i in 1..self.height {
            let _counted = steps.count();
            let node = self.cache.node(&mut self.store, space, id, steps)?;
            let place = route::<O>(&node, key);
            self.path.push(id, place)?;
            id = child(&node, place);
        }
        Ok(id)
    }

    /// The leaf where a key belongs.
    pub(crate) fn leaf_for<L>(
        &mut self,
        space: &mut R::S,
        key: &[u8],
        steps: &mut Steps<L>,
    ) -> Result<Rc<SlottedLeaf>, RecErr>
        requires { IsOpen R.S.Space R.Records O.Order self.old space.old }
        ensures leaf { IfOk result (λ leaf. FindsLeaf R.S.Space R.Records O.Order key.now self.old space.old leaf.value) }
        ensures visits { Visits R.S.Space R.Records self.old.height self.old self.new steps.old steps.new space.old space.new }
        ensures cause { Blames R.S.Space result space.old space.new }
    {
        let id = self.descend(space, key, steps)?;
        let _counted = steps.count();
        self.cache.leaf(&mut self.store, space, id, steps)
    }
}
