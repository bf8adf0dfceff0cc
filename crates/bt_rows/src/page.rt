//! Pages and their places.
use bt_page::{Leaf, Node};
use tc_base::Blob;

/// A page of a tree.
#[derive(Drop)]
pub enum Page {
    Leaf(Leaf),
    Node(Node),
}

/// A place in a row: the id of its page, and the least key that may stand below it, none for the first place.
#[derive(Drop)]
pub struct Slot {
    pub bound: Option<Blob>,
    pub id: u64,
}

/// A leaf at its place.
#[derive(Drop)]
pub struct LeafAt {
    pub slot: Slot,
    pub leaf: Leaf,
}
