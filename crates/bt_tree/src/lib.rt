//! The tree of keys and values over any map of records: pages of keys in order under nodes that lead to them.
#![tactic(auto, using(tc_space::specs::Frames::keeps_refl, tc_space::specs::Frames::only_reads_refl))]

mod changing;
mod clearing;
mod climbing;
mod column;
mod cutting;
mod descending;
mod dropping;
mod finding;
mod inserting;
mod issuing;
mod laws;
mod making;
mod numbers;
mod opening;
mod paging;
mod parting;
mod path;
mod pruning;
mod ranging;
mod removing;
mod searching;
mod seeking;
mod settling;
mod showing;
mod stretching;
mod taking;
mod tree;
mod unlinking;
mod valuing;
mod visiting;

pub use laws::settled_trees_open;
pub use making::ROOM;
pub use seeking::Items;
pub use showing::Taker;
pub use tree::Tree;
