//! Pairs that go out of a leaf.
ghost use Rattle.std.specs.Prelude.{◌≡◌, IfOk};
ghost use Rattle.bt_ways.specs.Changes.{AreItems, IsTaken};

use crate::searching::spot;
use bt_slots::SlottedLeaf;
use std::alloc::{AllocError, Global};
use tc_base::Order;

/// Takes the first pair of a key out of a leaf, or all its pairs; with the last one its item goes. Answers the leaf and how many went, 0 where the key isn't held.
pub(crate) fn take_value<O: Order>(
    alloc: Global,
    leaf: SlottedLeaf,
    key: &[u8],
    all: bool,
) -> Result<(SlottedLeaf, u64), AllocError>
    ensures taken { AreItems O.cmp leaf.items → IfOk result (λ x. IsTaken O.cmp all key.now leaf.items x.0.items x.1) }
    ensures links { IfOk result (λ x. (x.0.prev ≡ leaf.prev) × (x.0.next ≡ leaf.next)) }
{
    let (place, hit) = spot::<O>(&leaf, key);
    if !hit {
        return Ok((leaf, 0));
    }
    let values = leaf.count(place);
    if !all && values > 1 {
        return Ok((leaf.without_first(alloc, place)?, 1));
    }
    Ok((leaf.without_item(alloc, place)?, values))
}
