//! Ways down a tree of pages: where a key belongs in a page and in a tree, and what the rows become when pages along a way are written.
#![tactic(auto)]

mod laws;
mod removals;

pub use laws::{
    leaf_changes, leaf_loses_pairs, leaf_parts, leaf_takes_pair, node_parts, node_takes, root_grows,
};
pub use removals::{
    leaf_goes, node_goes, node_loses, only_leaf_empties, root_gives_way, root_is_alone,
};
