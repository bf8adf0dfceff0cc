//! Whether ids are left for the pages that come where a leaf is parted.
ghost use Rattle.std.specs.Prelude.{◌≡◌, ◌+◌, ◌<◌, ◌≤◌, ℕ, List, length, drop, IfOk, IsFalse, IsTrue};
ghost use Rattle.tc_space.specs.Refusals.{Blames};
ghost use Rattle.bt_page.specs.Keys.{node_offset};
ghost use Rattle.bt_page.specs.declared.page.Item.{Item};
ghost use Rattle.bt_ways.specs.Changes.{IsOver};
ghost use Rattle.bt_tree.specs.Climbing.{ComeAlong, HasWay, IsFullAt};
ghost use Rattle.bt_tree.specs.Paging.{HasNodeAt, IsShown, Peeks};
ghost use Rattle.bt_tree.specs.Parting.{LacksId, parts_from};

use crate::cutting::cut_places;
use crate::tree::Tree;
use bt_slots::{SlottedLeaf, SlottedNode};
use tc_base::{Order, PAGE_END, Steps};
use tc_space::{RecErr, Records};

// How many leaves come where one is parted, the last of them at a place.
fn leaves_behind(leaf: &SlottedLeaf, j: usize) -> u64
    requires { j ≤ length leaf.now.items }
    ensures { (given : ℕ) (second : List Item) → result ≡ length (parts_from given second (drop j leaf.now.items)) }
{
    if j == leaf.len() {
        return 1;
    }
    2
}

// Whether so many entries more are above the limit of a node.
fn is_full(node: &SlottedNode, limit: u32, more: u64) -> bool
    ensures { IsTrue result → limit < length node.now.entries + more }
{
    let room = u64::from(limit).saturating_sub(node.len() as u64);
    more > room
}

// Whether fewer ids are left behind those that are given than so many.
fn runs_past(given: u64, more: u64) -> bool
    ensures { IsTrue result → node_offset ≤ given + more }
{
    let left = (PAGE_END - 1).saturating_sub(given);
    more > left
}

impl<R: Records, O: Order> Tree<R, O> {
    // Whether so many entries more are above the limit of the node of an id. The cache keeps the page.
    fn has_no_room<L>(
        &mut self,
        space: &mut R::S,
        id: u64,
        more: u64,
        steps: &mut Steps<L>,
    ) -> Result<bool, RecErr>
        requires ready { IsShown R.S.Space R.Records self.old space.old }
        requires there { HasNodeAt R.S.Space R.Records id self.old space.old }
        ensures full { IfOk result (λ full. IsTrue full → IsFullAt R.S.Space R.Records id more self.old space.old) }
        ensures peeks { Peeks R.S.Space R.Records self.old self.new space.old space.new }
        ensures cause { Blames R.S.Space result space.old space.new }
    {
        let node = self.cache.node(&mut self.store, space, id, steps)?;
        Ok(is_full(&node, self.head.node_limit, more))
    }

    // How many nodes come, at least, where so many entries climb the noted way. Nothing is written.
    fn nodes_above<L>(
        &mut self,
        space: &mut R::S,
        added: u64,
        steps: &mut Steps<L>,
    ) -> Result<u64, RecErr>
        requires { HasWay R.S.Space R.Records self.old space.old }
        ensures come { IfOk result (λ n. ComeAlong R.S.Space R.Records added n self.old space.old) }
        ensures peeks { Peeks R.S.Space R.Records self.old self.new space.old space.new }
        ensures cause { Blames R.S.Space result space.old space.new }
    {
        let mut way = self.path.copy(self.alloc)?;
        let mut more = added;
        let mut nodes: u64 = 0;
        while let Some((id, _)) = way.pop() {
            let full = self.has_no_room(space, id, more, steps)?;
            if !full {
                return Ok(nodes);
            }
            // no way is so long
            if nodes >= PAGE_END {
                return Err(RecErr::Memory);
            }
            more = 1;
            nodes += 1;
        }
        Ok(nodes + 1)
    }

    /// Whether ids are left for the pages that come where a leaf at the end of the noted way is parted, since its items are above its limits. No page is read but where fewer ids of nodes are left than
    /// there are rows, and nothing is written.
    pub(crate) fn has_ids<L>(
        &mut self,
        space: &mut R::S,
        leaf: &SlottedLeaf,
        place: usize,
        steps: &mut Steps<L>,
    ) -> Result<bool, RecErr>
        requires ready { HasWay R.S.Space R.Records self.old space.old }
        requires inside { place < length leaf.now.items }
        requires over { R.S.tells → IsOver self.old.head.leaf_limit leaf.now.items place }
        ensures lacks { IfOk result (λ has. IsFalse has → LacksId R.S.Space R.Records leaf.now.items self.old space.old) }
        ensures peeks { Peeks R.S.Space R.Records self.old self.new space.old space.new }
        ensures cause { Blames R.S.Space result space.old space.new }
    {
        let places = cut_places(self.head.leaf_limit, leaf, place, leaf.next() == 0);
        let leaves = leaves_behind(leaf, places.1);
        let few = runs_past(self.head.leaf_ids, leaves);
        if few {
            return Ok(false);
        }
        // a node in each row at most
        let near = runs_past(self.head.node_ids, self.height);
        if !near {
            return Ok(true);
        }
        let nodes = self.nodes_above(space, leaves, steps)?;
        let past = runs_past(self.head.node_ids, nodes);
        if past {
            return Ok(false);
        }
        Ok(true)
    }
}
