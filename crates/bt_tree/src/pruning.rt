//! Places and nodes that go from the rows above a leaf.
ghost use Rattle.std.specs.Prelude.{◌≡◌, ◌<◌, ◌≤◌, length, IfOk, OnOk};
ghost use Rattle.tc_space.specs.Refusals.{Blames, OnFault, OnlyLogIsFull};
ghost use Rattle.bt_ways.specs.Removals.{without_place};
ghost use Rattle.bt_cache.specs.Effects.{OnFull};
ghost use Rattle.bt_tree.specs.Climbing.{HasWay};
ghost use Rattle.bt_tree.specs.Paging.{HasNodeAt, IsShown, Peeks};
ghost use Rattle.bt_tree.specs.Removing.{HasRows, IsHeir, IsLowered, LacksCut, Narrows, ShowsHeir, StaysNumbered, TurnsCut, TurnsSunk};

use crate::tree::Tree;
use bt_page::Node;
use bt_slots::SlottedNode;
use tc_base::{Order, Seq, Steps};
use tc_space::{RecErr, Records};

// The node without one of the pages below it, where it has others.
fn without_child(node: Node, place: usize) -> Node
    requires some { 0 < length node.entries }
    requires place { place ≤ length node.entries }
    ensures { result ≡ without_place place node }
{
    let mut entries = node.entries.into_vec();
    if place == 0 {
        let first = entries.remove(0);
        return Node {
            heir: first.child,
            entries: Seq::from_vec(entries),
        };
    }
    entries.remove(place - 1);
    Node {
        heir: node.heir,
        entries: Seq::from_vec(entries),
    }
}

// The heir of a node that has no other page below it.
fn lone_heir(node: &SlottedNode) -> Option<u64>
    ensures { IsHeir node.now result }
{
    if node.len() > 0 {
        return None;
    }
    Some(node.heir())
}

impl<R: Records, O: Order> Tree<R, O> {
    /// Takes the place that the noted way leads to out of the lowest node of the way, which is written; one that has this place alone is dropped, and its own place goes from the node above it, and so
    /// on. After a refusal some nodes may be gone.
    pub(crate) fn prune<L>(&mut self, space: &mut R::S, steps: &mut Steps<L>) -> Result<(), RecErr>
        requires { HasWay R.S.Space R.Records self.old space.old }
        ensures cut { OnOk result (TurnsCut R.S.Space R.Records self.old self.new space.old space.new) }
        ensures full { OnFull result (LacksCut R.S.Space R.Records self.old space.old space.new) }
        ensures narrows { Narrows R.S.Space R.Records self.old self.new space.old space.new }
        ensures same { StaysNumbered self.old self.new }
        ensures cause { OnFault R.S.Space result space.old space.new }
    {
        while let Some((id, place)) = self.path.pop() {
            let node = self.own_node(space, id, steps)?;
            if node.len() == 0 {
                self.drop_page(space, id)?;
                continue;
            }
            if place > node.len() {
                return Err(RecErr::Memory);
            }
            let node = without_child(node.to_node(self.alloc)?, place);
            let node = SlottedNode::of(self.alloc, &node)?;
            return self.put_node(space, id, node);
        }
        Ok(())
    }

    // The heir of the node of an id, where no other page is below it.
    fn heir_alone<L>(
        &mut self,
        space: &mut R::S,
        id: u64,
        steps: &mut Steps<L>,
    ) -> Result<Option<u64>, RecErr>
        requires ready { IsShown R.S.Space R.Records self.old space.old }
        requires there { HasNodeAt R.S.Space R.Records id self.old space.old }
        ensures heir { IfOk result (ShowsHeir R.S.Space R.Records id self.old space.old) }
        ensures peeks { Peeks R.S.Space R.Records self.old self.new space.old space.new }
        ensures cause { Blames R.S.Space result space.old space.new }
    {
        let node = self.cache.node(&mut self.store, space, id, steps)?;
        Ok(lone_heir(&node))
    }

    // The heir is the root, one row less.
    fn lower(&mut self, heir: u64)
        requires { 2 ≤ self.old.height }
        ensures { IsLowered heir self.old self.new }
    {
        self.head.root = heir;
        self.height -= 1;
    }

    /// While the root is a node with its heir alone, it is dropped, and the heir is the root, one row less. After a refusal some nodes may be gone.
    pub(crate) fn sink<L>(&mut self, space: &mut R::S, steps: &mut Steps<L>) -> Result<(), RecErr>
        requires { HasRows R.S.Space R.Records O.Order self.old space.old }
        ensures sunk { OnOk result (TurnsSunk R.S.Space R.Records O.Order self.old self.new space.old space.new) }
        ensures full { OnlyLogIsFull R.S.Space result space.new }
        ensures narrows { Narrows R.S.Space R.Records self.old self.new space.old space.new }
        ensures ends { (self.new.head.first ≡ self.old.head.first) × (self.new.head.last ≡ self.old.head.last) }
        ensures cause { OnFault R.S.Space result space.old space.new }
    {
        while self.height >= 2 {
            let id = self.head.root;
            let Some(heir) = self.heir_alone(space, id, steps)? else {
                return Ok(());
            };
            self.drop_page(space, id)?;
            self.lower(heir);
        }
        Ok(())
    }
}
