//! Single pages of a tree, read and written.
ghost use Rattle.std.specs.Prelude.{◌≡◌, ◌+◌, ◌<◌, ◌≤◌, ◌^◌, IfOk, OnOk, OnErr, IsErrOf};
ghost use Rattle.tc_space.specs.Refusals.{Blames, OnFault};
ghost use Rattle.bt_page.specs.Keys.{node_offset};
ghost use Rattle.bt_rows.specs.declared.page.Page.TheVariants.{Leaf as leaf_page, Node as node_page};
ghost use Rattle.bt_cache.specs.Effects.{OnFull};
ghost use Rattle.bt_tree.specs.Numbers.{with_leaf_ids, with_node_ids};
ghost use Rattle.bt_tree.specs.Paging.{HasLeafAt, HasNodeAt, IsLeafId, IsNodeId, IsPageOf, IsShown, LacksThis, Peeks, PutsAt, RefusesPages, StaysStill};

use crate::tree::Tree;
use bt_slots::{SlottedLeaf, SlottedNode};
use std::rc::Rc;
use tc_base::{Order, PAGE_END, Steps};
use tc_space::{RecErr, Records};

impl<R: Records, O: Order> Tree<R, O> {
    /// The leaf of an id by value, as its bytes: one that the cache holds is taken out of it and isn't copied.
    pub(crate) fn own_leaf<L>(
        &mut self,
        space: &mut R::S,
        id: u64,
        steps: &mut Steps<L>,
    ) -> Result<SlottedLeaf, RecErr>
        requires ready { IsShown R.S.Space R.Records self.old space.old }
        requires there { HasLeafAt R.S.Space R.Records id self.old space.old }
        ensures leaf { IfOk result (IsPageOf R.S.Space R.Records leaf_page id self.old space.old) }
        ensures peeks { Peeks R.S.Space R.Records self.old self.new space.old space.new }
        ensures cause { Blames R.S.Space result space.old space.new }
    {
        let leaf = self.cache.take_leaf(&mut self.store, space, id, steps)?;
        match Rc::try_unwrap(leaf) {
            Ok(leaf) => Ok(leaf),
            Err(shared) => Ok(shared.copy(self.alloc)?),
        }
    }

    /// The node of an id by value, as `own_leaf` gives a leaf.
    pub(crate) fn own_node<L>(
        &mut self,
        space: &mut R::S,
        id: u64,
        steps: &mut Steps<L>,
    ) -> Result<SlottedNode, RecErr>
        requires ready { IsShown R.S.Space R.Records self.old space.old }
        requires there { HasNodeAt R.S.Space R.Records id self.old space.old }
        ensures node { IfOk result (IsPageOf R.S.Space R.Records node_page id self.old space.old) }
        ensures peeks { Peeks R.S.Space R.Records self.old self.new space.old space.new }
        ensures cause { Blames R.S.Space result space.old space.new }
    {
        let node = self.cache.node(&mut self.store, space, id, steps)?;
        self.cache.forget(id);
        match Rc::try_unwrap(node) {
            Ok(node) => Ok(node),
            Err(shared) => Ok(shared.copy(self.alloc)?),
        }
    }

    /// Writes a leaf, as its bytes, under an id that was given. After a refusal the space isn't sound, or nothing has changed.
    pub(crate) fn put_leaf(
        &mut self,
        space: &mut R::S,
        id: u64,
        leaf: SlottedLeaf,
    ) -> Result<(), RecErr>
        requires ready { IsShown R.S.Space R.Records self.old space.old }
        requires id { R.S.tells → IsLeafId self.old.head id }
        ensures put { OnOk result (PutsAt R.S.Space R.Records id (leaf_page leaf) self.old self.new space.old space.new) }
        ensures refused { RefusesPages R.S.Space R.Records result self.old self.new space.old space.new }
        ensures full { OnFull result (LacksThis R.S.Space R.Records id (leaf_page leaf) self.old space.old space.new) }
        ensures still { StaysStill R.S.Space R.Records self.old self.new space.old space.new }
        ensures cause { OnFault R.S.Space result space.old space.new }
    {
        // it doesn't come where the records are told
        if id >= PAGE_END {
            return Err(RecErr::Memory);
        }
        // its bytes tell that the page has a spelling
        let _bytes = leaf.as_slice();
        self.cache.put_leaf(&mut self.store, space, id, leaf)
    }

    /// Writes a node, as its bytes, under an id that was given, as `put_leaf` writes a leaf.
    pub(crate) fn put_node(
        &mut self,
        space: &mut R::S,
        id: u64,
        node: SlottedNode,
    ) -> Result<(), RecErr>
        requires ready { IsShown R.S.Space R.Records self.old space.old }
        requires id { R.S.tells → IsNodeId self.old.head id }
        ensures put { OnOk result (PutsAt R.S.Space R.Records id (node_page node) self.old self.new space.old space.new) }
        ensures refused { RefusesPages R.S.Space R.Records result self.old self.new space.old space.new }
        ensures full { OnFull result (LacksThis R.S.Space R.Records id (node_page node) self.old space.old space.new) }
        ensures still { StaysStill R.S.Space R.Records self.old self.new space.old space.new }
        ensures cause { OnFault R.S.Space result space.old space.new }
    {
        // it doesn't come where the records are told
        if id < PAGE_END {
            return Err(RecErr::Memory);
        }
        // its bytes tell that the page has a spelling
        let _bytes = node.as_slice();
        self.cache.put_node(&mut self.store, space, id, node)
    }

    /// The next id of a leaf, which no page has. An `Err`, which is Memory, changes nothing.
    pub(crate) fn leaf_id(&mut self) -> Result<u64, RecErr>
        ensures given { IfOk result (λ id. id ≡ self.old.head.leaf_ids + 1) }
        ensures small { IfOk result (λ id. id < node_offset) }
        ensures noted { OnOk result (self.new ≡ with_leaf_ids (self.old.head.leaf_ids + 1) self.old) }
        ensures err { OnErr result (self.new ≡ self.old) }
        ensures cause { (IsErrOf result RecErr.Fault → ⊥) × (IsErrOf result RecErr.Full → ⊥) }
    {
        // it doesn't come where `has_ids` found enough
        if self.head.leaf_ids >= PAGE_END - 1 {
            return Err(RecErr::Memory);
        }
        self.head.leaf_ids += 1;
        Ok(self.head.leaf_ids)
    }

    /// The next id of a node, which no page has, with the 2^48 added to it. An `Err`, which is Memory, changes nothing.
    pub(crate) fn node_id(&mut self) -> Result<u64, RecErr>
        ensures given { IfOk result (λ id. id ≡ node_offset + (self.old.head.node_ids + 1)) }
        ensures small { OnOk result (self.old.head.node_ids + 1 < node_offset) }
        ensures noted { OnOk result (self.new ≡ with_node_ids (self.old.head.node_ids + 1) self.old) }
        ensures err { OnErr result (self.new ≡ self.old) }
        ensures cause { (IsErrOf result RecErr.Fault → ⊥) × (IsErrOf result RecErr.Full → ⊥) }
    {
        // it doesn't come where `has_ids` found enough
        if self.head.node_ids >= PAGE_END - 1 {
            return Err(RecErr::Memory);
        }
        self.head.node_ids += 1;
        Ok(PAGE_END + self.head.node_ids)
    }
}
