//! Pages of a tree: leaves and nodes as bytes, and the keys of their records. The format is in docs/FORMATS.md.
#![tactic(auto)]

mod keys;
mod limits;
mod page;
mod reading;
mod writing;

pub use keys::{page_id, page_key};
pub use limits::{LEAF_MOST, LIMIT_LEAST, LIMIT_MOST};
pub use page::{Item, Leaf, Node, NodeEntry};
pub use reading::{PageErr, read_leaf, read_node};
pub use writing::{write_leaf, write_node};
