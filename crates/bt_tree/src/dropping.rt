//! Pages taken out of a tree.
ghost use Rattle.std.specs.Prelude.{◌≡◌, OnOk};
ghost use Rattle.std.specs.List.{AllByRecursion};
ghost use Rattle.tc_space.specs.Refusals.{OnFault, OnlyLogIsFull};
ghost use Rattle.bt_rows.specs.Pages.{IsGiven};
ghost use Rattle.bt_ways.specs.Removals.{without_way};
ghost use Rattle.bt_ways.specs.Writes.{drop_at};
ghost use Rattle.bt_tree.specs.Paging.{IsShown, Rewrites, StaysStill};
ghost use Rattle.bt_tree.specs.Removing.{Narrows, StaysNumbered};

use crate::tree::Tree;
use tc_base::Order;
use tc_space::{RecErr, Records};

impl<R: Records, O: Order> Tree<R, O> {
    /// Takes out the page of an id that was given, if there is one.
    pub(crate) fn drop_page(&mut self, space: &mut R::S, id: u64) -> Result<(), RecErr>
        requires ready { IsShown R.S.Space R.Records self.old space.old }
        requires id { R.S.tells → IsGiven self.old.head id }
        ensures out { OnOk result (Rewrites R.S.Space R.Records (drop_at id) self.old self.new space.old space.new) }
        ensures full { OnlyLogIsFull R.S.Space result space.new }
        ensures still { StaysStill R.S.Space R.Records self.old self.new space.old space.new }
        ensures cause { OnFault R.S.Space result space.old space.new }
    {
        self.cache.drop_page(&mut self.store, space, id)
    }

    /// Takes out the nodes on the noted way, lowest first. After a refusal some of them may be gone.
    pub(crate) fn drop_way(&mut self, space: &mut R::S) -> Result<(), RecErr>
        requires ready { IsShown R.S.Space R.Records self.old space.old }
        requires ids { R.S.tells → AllByRecursion (λ s. IsGiven self.old.head s.0) self.old.path }
        ensures out { OnOk result (Rewrites R.S.Space R.Records (without_way self.old.path) self.old self.new space.old space.new) }
        ensures full { OnlyLogIsFull R.S.Space result space.new }
        ensures narrows { Narrows R.S.Space R.Records self.old self.new space.old space.new }
        ensures same { StaysNumbered self.old self.new }
        ensures cause { OnFault R.S.Space result space.old space.new }
    {
        while let Some((id, _)) = self.path.pop() {
            self.drop_page(space, id)?;
        }
        Ok(())
    }
}
