//! What the members of a tree over a hash file are, in either order.
ghost use Rattle.std.specs.Prelude.{false, true};
ghost use Rattle.tc_treedb.specs.Trees.{IsStore, IsTreeFile};
ghost use Rattle.tc_treedb.specs.declared.kept.Kept.TheVariants.{Decimal as decimal_kept, Lexical as lexical_kept};

use tc_base::{Decimal, Lexical, Order};
use tc_hash::Hash;
use tc_space::{Records, Space};

// A hash file, as the store of a tree.
fn hash_store<S: Space>()
    ensures { IsStore S.Space ⟦<Hash<S> as Records>⟧ }
{}

/// A tree in the order of bytes, over a hash file.
pub(crate) fn lexical_tree<S: Space>()
    ensures { IsTreeFile S.Space ⟦<Hash<S> as Records>⟧ ⟦<Lexical as Order>⟧ false lexical_kept }
{
    hash_store::<S>();
}

/// A tree in the order of numbers, over a hash file.
pub(crate) fn decimal_tree<S: Space>()
    ensures { IsTreeFile S.Space ⟦<Hash<S> as Records>⟧ ⟦<Decimal as Order>⟧ true decimal_kept }
{
    hash_store::<S>();
}
