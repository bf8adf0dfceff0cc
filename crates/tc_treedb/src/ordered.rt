//! A tree of one order over a hash file, as contracts see it.
ghost use Rattle.std.specs.Prelude.{◌≡◌};
ghost use Rattle.std.specs.Borrow.{sem};
ghost use Rattle.tc_treedb.specs.Lending.{LendsTree};

use bt_tree::Tree;
use std::marker::Model;
use tc_hash::Hash;

/// A tree over a hash file, which a contract sees as the tree.
#[derive(Drop)]
pub struct Ordered<S, O> {
    pub(crate) tree: Tree<Hash<S>, O>,
}

impl<S, O> Model for Ordered<S, O> {
    ghost use Rattle.std.specs.Coded.{codes};
    ghost use Rattle.bt_cache.specs.contracts.shared.SharedPage as page;
    ghost use Rattle.bt_tree.specs.declared.tree.Tree.{Tree};
    ghost use Rattle.hf_pool.specs.contracts.pool.Pool as pool;
    ghost use Rattle.tc_hash.specs.declared.hash.Hash.{Hash};

    ghost Value = { Tree (Hash S) O };

    ghost coded = { Prim.hlevel (codes, page.the_row.coded, pool.the_row.coded) };

    ghost view = { λ o. o.tree };
}

impl<S, O> Ordered<S, O> {
    /// The tree, lent: what it is afterwards is the tree.
    pub(crate) fn lent(&mut self) -> &mut Tree<Hash<S>, O>
        ensures* writes_back { sem 𝓛 (LendsTree S.row O.row self.entry result) }
        ensures value { result.now ≡ self.old }
    {
        &mut self.tree
    }

    /// The tree, to be read.
    pub(crate) fn seen(&self) -> &Tree<Hash<S>, O>
        ensures { result.now ≡ self.now }
    {
        &self.tree
    }
}
