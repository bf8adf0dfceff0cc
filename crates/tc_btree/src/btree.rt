//! A tree as a list of pairs.
ghost use Rattle.std.specs.Prelude.{◌≡◌, true, false, IfOk, IfErr, OnErr};
ghost use Rattle.std.specs.Borrow.{sem};
ghost use Rattle.tc_space.specs.Frames.{Keeps, OnlyReads};
ghost use Rattle.tc_space.specs.Refusals.{OnFault};
ghost use Rattle.bt_check.specs.Looks.{MayLook, OnOpenFault};
ghost use Rattle.bt_cache.specs.Effects.{OnFull};
ghost use Rattle.bt_tree.specs.Making.{HoldsBare, IsRefused, LacksFirst, MayBe};
ghost use Rattle.bt_tree.specs.Opening.{BreaksIn, IsOrdered};
ghost use Rattle.tc_btree.specs.Lending.{LendsTree};
ghost use Rattle.tc_btree.specs.Meaning.{MakesList, OpensList};

use bt_tree::Tree;
use std::alloc::Global;
use tc_base::Order;
use tc_space::{OpenErr, RecErr, Records};

/// Pairs in the order of their keys, equal keys in order of arrival, in a tree of pages over a store of records.
#[derive(Drop)]
pub struct Btree<R, O> {
    pub(crate) alloc: Global,
    pub(crate) tree: Tree<R, O>,
}

impl<R: Records + Drop, O: Order> Btree<R, O> {
    /// No pairs, in a store that holds nothing, or the record `column` alone, which makes it an index file's: as `Tree::create` makes it.
    pub fn create(
        alloc: Global,
        store: R,
        space: &mut R::S,
        leaf_limit: u32,
        node_limit: u32,
    ) -> Result<Btree<R, O>, RecErr>
        requires ready { MayLook R.S.Space R.Records store space.old }
        requires bare { HoldsBare R.S.Space R.Records store space.old }
        requires numbers { MayBe leaf_limit node_limit O.CODE }
        ensures made { IfOk result (MakesList R.S.Space R.Records O.Order store leaf_limit node_limit space.old space.new) }
        ensures refused { OnErr result (IsRefused R.S.Space space.old space.new) }
        ensures full { OnFull result (LacksFirst R.S.Space R.Records store space.old space.new) }
        ensures keeps { Keeps R.S.Space space.old space.new }
        ensures cause { OnFault R.S.Space result space.old space.new }
    {
        let tree = Tree::create(alloc, store, space, leaf_limit, node_limit)?;
        Ok(Btree { alloc, tree })
    }

    /// The pairs that stand in a store, whose rules are checked in their order, as `Tree::open` does.
    pub fn open(alloc: Global, store: R, space: &mut R::S) -> Result<Btree<R, O>, OpenErr>
        requires ready { MayLook R.S.Space R.Records store space.old }
        requires order { IsOrdered R.Records O.Order store }
        ensures opened { IfOk result (OpensList R.S.Space R.Records O.Order false store space.old space.new) }
        ensures broken { IfErr result (BreaksIn R.S.Space R.Records O.Order false store space.old) }
        ensures reads { OnlyReads R.S.Space space.old space.new }
        ensures cause { OnOpenFault R.S.Space result space.old space.new }
    {
        let tree = Tree::open(alloc, store, space)?;
        Ok(Btree { alloc, tree })
    }

    /// The pairs of an index file, where the record `column` may stand beside the pages, as `Tree::open_index` opens it.
    pub fn open_index(alloc: Global, store: R, space: &mut R::S) -> Result<Btree<R, O>, OpenErr>
        requires ready { MayLook R.S.Space R.Records store space.old }
        requires order { IsOrdered R.Records O.Order store }
        ensures opened { IfOk result (OpensList R.S.Space R.Records O.Order true store space.old space.new) }
        ensures broken { IfErr result (BreaksIn R.S.Space R.Records O.Order true store space.old) }
        ensures reads { OnlyReads R.S.Space space.old space.new }
        ensures cause { OnOpenFault R.S.Space result space.old space.new }
    {
        let tree = Tree::open_index(alloc, store, space)?;
        Ok(Btree { alloc, tree })
    }
}

impl<R: Records, O: Order> Btree<R, O> {
    /// The tree itself, lent: what it is afterwards is the tree of the list.
    pub fn tree(&mut self) -> &mut Tree<R, O>
        ensures* writes_back { sem 𝓛 (LendsTree R.row O.row self.entry result) }
        ensures value { result.now ≡ self.old.tree }
    {
        &mut self.tree
    }
}
