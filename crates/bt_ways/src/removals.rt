//! The laws of what goes from a tree.
ghost use Rattle.bt_ways.specs.Removals.{LeafGoes, NodeGoes, NodeLoses, OnlyLeafEmpties, RootGivesWay, RootIsAlone};

/// The leaf where a key belongs is taken out, its neighbours are linked, and its place has gone from the rows above.
pub fn leaf_goes()
    ensures { LeafGoes }
{}

/// Where the leaf is the only one, the nodes on the way to it go, and it is the root, empty.
pub fn only_leaf_empties()
    ensures { OnlyLeafEmpties }
{}

/// A node with other places loses the one below which the way went on.
pub fn node_loses()
    ensures { NodeLoses }
{}

/// A node with this place alone goes, and its own place from the row above.
pub fn node_goes()
    ensures { NodeGoes }
{}

/// No place stands beside the root.
pub fn root_is_alone()
    ensures { RootIsAlone }
{}

/// A root with its heir alone gives way to it.
pub fn root_gives_way()
    ensures { RootGivesWay }
{}
