//! The law of settled files.
ghost use Rattle.bt_tree.specs.Opening.{SettledKeepsRules, SettledOpens};

use tc_base::Order;
use tc_space::Records;

/// What `settle` leaves is what `open` asks for: in a store that opened to a file that stands for pairs, no rule is named, and the tree means these pairs.
pub fn settled_trees_open<R: Records, O: Order>()
    ensures opens { SettledOpens R.S.Space R.Records O.Order }
    ensures rules { SettledKeepsRules R.S.Space R.Records O.Order }
{}
