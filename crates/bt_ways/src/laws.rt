//! The laws of writing pages along a way.
ghost use Rattle.bt_ways.specs.Changes.{LeafLosesPairs, LeafTakesPair};
ghost use Rattle.bt_ways.specs.Laws.{LeafChanges, LeafParts, NodeParts, NodeTakes, RootGrows};

/// A new root over the old one takes the entries that climbed up to it.
pub fn root_grows()
    ensures { RootGrows }
{}

/// A node on the way takes entries behind the place where the way goes on.
pub fn node_takes()
    ensures { NodeTakes }
{}

/// A node on the way is cut in two, and the entry in the middle climbs on, with the id of the second node.
pub fn node_parts()
    ensures { NodeParts }
{}

/// The leaf where a key belongs gets other items, in order with those of the other leaves.
pub fn leaf_changes()
    ensures { LeafChanges }
{}

/// The leaf where a key belongs is parted, and the entries of its further parts climb.
pub fn leaf_parts()
    ensures { LeafParts }
{}

/// A pair comes into the leaf where its key belongs, and so into the pairs of all leaves.
pub fn leaf_takes_pair()
    ensures { LeafTakesPair }
{}

/// Pairs go out of the leaf where their key belongs, and so out of the pairs of all leaves.
pub fn leaf_loses_pairs()
    ensures { LeafLosesPairs }
{}
