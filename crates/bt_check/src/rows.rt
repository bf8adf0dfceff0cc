//! The rows of a tree.
ghost use Rattle.std.specs.Prelude.{◌≤◌};

use bt_rows::Slot;
use bt_slots::BareLeaf;
use tc_base::Seq;

/// The places of all leaves, whether leaves stand in more than one row, and how many rows there are.
#[derive(Drop)]
pub(crate) struct Walked {
    pub leaves: Seq<Slot>,
    pub uneven: bool,
    pub height: u64,
    pub ghost some: { 1 ≤ height },
}

/// A leaf at its place, as its bytes.
#[derive(Drop)]
pub(crate) struct Placed {
    pub slot: Slot,
    pub leaf: BareLeaf,
}

/// The places of a row as they are named, of which there may be so many. Once more are named none is added.
#[derive(Drop)]
pub(crate) struct Naming {
    pub places: Seq<Slot>,
    pub room: usize,
    pub full: bool,
}
