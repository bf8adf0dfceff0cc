//! What the stores of a table are, over hash files.
ghost use Rattle.tc_tabledb.specs.Members.{AreTableStores};
ghost use Rattle.tc_treedb.specs.Trees.{IsStore};

use crate::holding::{Decimals, Lexicals};
use tc_base::{Decimal, Lexical, Order};
use tc_hash::Hash;
use tc_space::{Multi, Records, Space};

// A hash file, as the store of rows and of trees.
fn hash_store<S: Space>()
    ensures { IsStore S.Space ⟦<Hash<S> as Records>⟧ }
{}

/// A hash file for the rows, and a tree in either order over one for each index.
pub(crate) fn table_stores<S: Space>()
    ensures { AreTableStores S.Space ⟦<Hash<S> as Records>⟧ ⟦<Lexical as Order>⟧ ⟦<Decimal as Order>⟧ ⟦<Lexicals<S> as Multi>⟧ ⟦<Decimals<S> as Multi>⟧ }
{
    hash_store::<S>();
}
