//! What is known of a tree with no page read.
ghost use Rattle.std.specs.Prelude.{◌≡◌, ℕ, List, length};
ghost use Rattle.tc_base.specs.declared.seq.Pair.{Pair};
ghost use Rattle.bt_tree.specs.Meaning.{HoldsIn, file_in};

use crate::tree::Tree;
use tc_base::Order;
use tc_space::Records;

impl<R: Records, O: Order> Tree<R, O> {
    /// How many rows of pages there are: 1 where the root is a leaf.
    pub fn height(&self) -> u64
        ensures { result ≡ self.now.height }
    {
        self.height
    }

    /// How many pairs are held.
    pub fn count(&self) -> u64
        ensures { (bytes : List ℕ) (ps : List Pair) → HoldsIn R.Records O.Order self.now bytes ps → result ≡ length ps }
    {
        self.head.pairs
    }

    /// The number of the store's file.
    pub fn file(&self) -> u32
        ensures { result ≡ file_in R.Records self.now }
    {
        self.store.file()
    }
}
