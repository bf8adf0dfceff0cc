//! Entries put into the nodes above a place.
ghost use Rattle.std.specs.Prelude.{◌≡◌, ◌+◌, ◌-◌, ◌<◌, ◌≤◌, ◌/◌, ◌^◌, ◌++◌, ◌∷◌, [], suc, length, take, drop, IfOk, OnOk};
ghost use Rattle.tc_space.specs.Refusals.{OnFault};
ghost use Rattle.bt_ways.specs.Laws.{spliced};
ghost use Rattle.bt_cache.specs.Effects.{OnFull};
ghost use Rattle.bt_tree.specs.Climbing.{Grows, HasWay, IsOneOrNext, LacksNodeOf, LacksWayNode, TurnsClimbed, TurnsDivided};
ghost use Rattle.bt_tree.specs.Paging.{IsNodeId, IsOwn, IsShown};

use crate::tree::Tree;
use bt_page::{Node, NodeEntry};
use bt_slots::SlottedNode;
use std::alloc::{AllocError, Global};
use tc_base::{Blob, Order, Seq, Steps};
use tc_space::{RecErr, Records};

// Puts entries in behind so many.
fn splice(
    alloc: Global,
    node: SlottedNode,
    place: usize,
    added: &[NodeEntry],
) -> Result<SlottedNode, AllocError>
    requires { place ≤ length node.entries }
    ensures { IfOk result (λ n. n ≡ record { heir = node.heir; entries = spliced node.entries place added.now }) }
{
    // the last one first, so that each comes to the same place
    let mut all = node;
    let mut left = added.len();
    while left > 0 {
        left -= 1;
        let entry = &added[left];
        all = all.with_entry(alloc, place, entry.child, entry.key.as_slice())?;
    }
    Ok(all)
}

// A node of the entries in front of the middle one, that one, and a node of those behind it under its page.
fn halves(
    alloc: Global,
    node: &SlottedNode,
) -> Result<(SlottedNode, NodeEntry, SlottedNode), AllocError>
    ensures cut { IfOk result (λ h. node.now.entries ≡ h.0.entries ++ h.1 ∷ h.2.entries) }
    ensures half { IfOk result (λ h. length h.0.entries ≡ length node.now.entries / 2) }
    ensures heir { IfOk result (λ h. h.0.heir ≡ node.now.heir) }
    ensures child { IfOk result (λ h. h.2.heir ≡ h.1.child) }
{
    let at = node.len() / 2;
    if at == node.len() {
        return Err(AllocError);
    }
    let child = node.child(at);
    let key = Blob::from_slice(alloc, node.key(at))?;
    let front = node.section(alloc, 0, at, node.heir())?;
    let back = node.section(alloc, at + 1, node.len(), child)?;
    Ok((front, NodeEntry { child, key }, back))
}

// The one entry of a page.
fn lone(alloc: Global, child: u64, entry: NodeEntry) -> Result<Seq<NodeEntry>, AllocError>
    ensures { IfOk result (λ all. all ≡ record { child = child; key = entry.key } ∷ []) }
{
    let mut all = Seq::new(alloc);
    let key = entry.key;
    all.push(NodeEntry { child, key })?;
    Ok(all)
}

impl<R: Records, O: Order> Tree<R, O> {
    // Writes a node as two, and gives the entry of the second.
    fn divide(
        &mut self,
        space: &mut R::S,
        id: u64,
        node: SlottedNode,
    ) -> Result<Seq<NodeEntry>, RecErr>
        requires ready { IsShown R.S.Space R.Records self.old space.old }
        requires id { R.S.tells → IsNodeId self.old.head id }
        ensures divided { IfOk result (λ above. TurnsDivided R.S.Space R.Records id node above self.old self.new space.old space.new) }
        ensures one { IfOk result (λ above. length above ≡ 1) }
        ensures full { OnFull result (LacksNodeOf R.S.Space R.Records (IsOneOrNext id self.old.head) (length node.entries / 2) node.heir node.entries self.old space.old space.new) }
        ensures grows { Grows R.S.Space R.Records 1 0 self.old self.new space.old space.new }
        ensures way { (self.new.path ≡ self.old.path) × (self.new.head.root ≡ self.old.head.root) }
        ensures cause { OnFault R.S.Space result space.old space.new }
    {
        let second = self.node_id()?;
        let (lower, up, upper) = halves(self.alloc, &node)?;
        let above = lone(self.alloc, second, up)?;
        self.put_node(space, second, upper)?;
        self.put_node(space, id, lower)?;
        Ok(above)
    }

    // Writes a new root over the old one.
    fn grow(&mut self, space: &mut R::S, added: Seq<NodeEntry>) -> Result<(), RecErr>
        requires ready { HasWay R.S.Space R.Records self.old space.old }
        requires root { self.old.path ≡ [] }
        requires few { length added ≤ 2 }
        requires rows { self.old.height < 2 ^ 64 - 1 }
        ensures climbed { OnOk result (TurnsClimbed R.S.Space R.Records added self.old self.new space.old space.new) }
        ensures full { OnFull result (LacksNodeOf R.S.Space R.Records (IsOwn self.old.head 0 1) 2 self.old.head.root added self.old space.old space.new) }
        ensures grows { Grows R.S.Space R.Records 1 1 self.old self.new space.old space.new }
        ensures cause { OnFault R.S.Space result space.old space.new }
    {
        let id = self.node_id()?;
        let node = Node {
            heir: self.head.root,
            entries: added,
        };
        let node = SlottedNode::of(self.alloc, &node)?;
        self.put_node(space, id, node)?;
        self.head.root = id;
        self.height += 1;
        Ok(())
    }

    /// Puts entries behind the place that the noted way leads to: into the lowest node of the way, which is written, as two where it grows beyond its limit, whose middle entry then goes on up; past the root
    /// a new root is written. After a refusal some of it may have been written.
    pub(crate) fn climb<L>(
        &mut self,
        space: &mut R::S,
        added: Seq<NodeEntry>,
        steps: &mut Steps<L>,
    ) -> Result<(), RecErr>
        requires ready { HasWay R.S.Space R.Records self.old space.old }
        requires few { length added ≤ 2 }
        requires rows { self.old.height < 2 ^ 64 - 1 }
        ensures climbed { OnOk result (TurnsClimbed R.S.Space R.Records added self.old self.new space.old space.new) }
        ensures full { OnFull result (LacksWayNode R.S.Space R.Records added self.old space.old space.new) }
        ensures grows { Grows R.S.Space R.Records (suc (length self.old.path)) 1 self.old self.new space.old space.new }
        ensures cause { OnFault R.S.Space result space.old space.new }
    {
        let mut more = added;
        while let Some((id, place)) = self.path.pop() {
            let node = self.own_node(space, id, steps)?;
            if place > node.len() {
                return Err(RecErr::Memory);
            }
            let node = splice(self.alloc, node, place, more.as_slice())?;
            if node.len() <= self.head.node_limit as usize {
                return self.put_node(space, id, node);
            }
            let above = self.divide(space, id, node)?;
            more = above;
        }
        self.grow(space, more)
    }
}
