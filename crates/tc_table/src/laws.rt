//! What tables hold, over files and in the words of the abstract database.
ghost use Rattle.tc_table.specs.Laws.{IndexLaw};
ghost use Rattle.tc_table.specs.Over.{OverLaw};

use tc_space::{Multi, Records};

/// An index has its parts of rows exactly where the keys of its tree are those of the pairs that the abstract database gives it, each as often as there.
pub fn index_law()
    ensures { IndexLaw }
{}

/// What a table holds in a space is what it holds over its files, where they are told.
pub fn over_law<R: Records, L: Multi<S = R::S>, D: Multi<S = R::S>>()
    ensures { OverLaw R.Records L.Multi D.Multi R.S.Space }
{}
