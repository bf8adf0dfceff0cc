//! Pages of a tree as their bytes, beside the places where their items or entries begin: what is read of a page is read where it lies, and a change moves bytes alone.
#![tactic(auto)]

mod bare;
mod building;
mod changing;
mod entries;
mod fronts;
mod leaf;
mod lying;
mod marking;
mod node;
mod parts;
mod scanning;
mod sections;
mod shifting;

pub use bare::{BareLeaf, BareNode, next_entry, next_item};
pub use leaf::SlottedLeaf;
pub use lying::{Lying, next_value};
pub use marking::Mark;
pub use node::SlottedNode;
