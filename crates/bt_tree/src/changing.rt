//! A pair that comes into a leaf.
ghost use Rattle.std.specs.Prelude.{◌≡◌, ◌<◌, length, IfOk};
ghost use Rattle.bt_ways.specs.Changes.{AreItems, IsChanged};

use crate::searching::spot;
use bt_slots::SlottedLeaf;
use std::alloc::{AllocError, Global};
use tc_base::Order;

/// Puts a pair among the items of a leaf: behind the values of its key where `last`, else in the place of the first of them; a key that isn't held comes in with it.
/// Answers the leaf, the place of the key's item, and whether there is a pair more.
pub(crate) fn change<O: Order>(
    alloc: Global,
    leaf: SlottedLeaf,
    key: &[u8],
    value: &[u8],
    last: bool,
) -> Result<(SlottedLeaf, usize, bool), AllocError>
    ensures changed { AreItems O.cmp leaf.items → IfOk result (λ x. IsChanged O.cmp last key.now value.now leaf.items x.0.items x.1 x.2) }
    ensures links { IfOk result (λ x. (x.0.prev ≡ leaf.prev) × (x.0.next ≡ leaf.next)) }
    ensures inside { IfOk result (λ x. x.1 < length x.0.items) }
{
    let (place, hit) = spot::<O>(&leaf, key);
    if !hit {
        return Ok((leaf.with_item(alloc, place, key, value)?, place, true));
    }
    if last {
        return Ok((leaf.with_value(alloc, place, value)?, place, true));
    }
    Ok((leaf.with_first(alloc, place, value)?, place, false))
}
