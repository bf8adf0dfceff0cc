//! What the header of a tree file says of the tree.
ghost use Rattle.std.specs.Prelude.{◌≡◌};
ghost use Rattle.bt_rows.specs.Heads.{head_of};

use tc_base::get_le;

/// The numbers of a tree, any that their fields hold: whether they are a tree's is what the rules say. Where one is a node's id, 2^48 is added to it.
#[derive(Clone, Copy, Debug, PartialEq, Eq)]
pub struct TreeHead {
    /// The order of keys: 0 by bytes, 1 by numbers.
    pub order: u8,
    /// The most keys of a leaf.
    pub leaf_limit: u32,
    /// The most entries of a node.
    pub node_limit: u32,
    /// The id of the page above all others.
    pub root: u64,
    /// The id of the first leaf.
    pub first: u64,
    /// The id of the last leaf.
    pub last: u64,
    /// The greatest id that was given to a leaf.
    pub leaf_ids: u64,
    /// The greatest id that was given to a node, without the 2^48.
    pub node_ids: u64,
    /// How many pairs of a key and a value the tree holds.
    pub pairs: u64,
}

impl TreeHead {
    /// The numbers in the opaque region of a header; its other bytes are ignored.
    pub fn read(opaque: &[u8; 128]) -> TreeHead
        ensures { result ≡ head_of opaque.now }
    {
        TreeHead {
            order: opaque[0],
            leaf_limit: get_le(opaque, 8, 4) as u32,
            node_limit: get_le(opaque, 12, 4) as u32,
            root: get_le(opaque, 16, 8),
            first: get_le(opaque, 24, 8),
            last: get_le(opaque, 32, 8),
            leaf_ids: get_le(opaque, 40, 8),
            node_ids: get_le(opaque, 48, 8),
            pairs: get_le(opaque, 56, 8),
        }
    }
}
