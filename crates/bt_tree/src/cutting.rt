//! Where a leaf that is too large is parted.
ghost use Rattle.std.specs.Prelude.{◌↔◌, ◌-◌, ◌<◌, ◌≤◌, length, IfSome, IsTrue, take, drop};
ghost use Rattle.bt_ways.specs.Changes.{IsCut, IsOver, ItemsWithin};

use bt_page::LEAF_MOST;
use bt_slots::SlottedLeaf;

// Whether the items of a leaf from one place to another are within its limits: so many keys at most, and with two or more so many bytes.
fn fits(limit: u32, leaf: &SlottedLeaf, from: usize, to: usize) -> bool
    requires { (from ≤ to) × (to ≤ length leaf.now.items) }
    ensures { IsTrue result ↔ ItemsWithin limit (take (to - from) (drop from leaf.now.items)) }
{
    let keys = to - from;
    if keys > limit as usize {
        return false;
    }
    keys < 2 || leaf.section_len(from, to) <= LEAF_MOST
}

/// Whether a leaf is within its limits.
pub(crate) fn leaf_fits(limit: u32, leaf: &SlottedLeaf) -> bool
    ensures { IsTrue result ↔ ItemsWithin limit leaf.now.items }
{
    fits(limit, leaf, 0, leaf.len())
}

// The middle of a leaf of too many items, or where half of the bytes are reached of one that is too large.
fn middle(leaf: &SlottedLeaf) -> usize
    ensures { result ≤ length leaf.now.items }
{
    let keys = leaf.len();
    let all = leaf.section_len(0, keys);
    if all <= LEAF_MOST {
        return keys / 2;
    }
    for i in 0..keys {
        if leaf.section_len(0, i + 1) >= all / 2 {
            return i + 1;
        }
    }
    keys
}

// Whether a leaf may be parted before the i-th item.
fn parts_fit(limit: u32, leaf: &SlottedLeaf, i: usize) -> bool
    ensures { IsTrue result → IsCut limit leaf.now.items i (length leaf.now.items) }
{
    if i == 0 || i >= leaf.len() {
        return false;
    }
    fits(limit, leaf, 0, i) && fits(limit, leaf, i, leaf.len())
}

// Where a leaf may be parted in halves, if it may.
fn halves(limit: u32, leaf: &SlottedLeaf) -> Option<usize>
    ensures { IfSome result (λ i. IsCut limit leaf.now.items i (length leaf.now.items)) }
{
    let i = middle(leaf);
    if parts_fit(limit, leaf, i) {
        return Some(i);
    }
    if i > 0 && parts_fit(limit, leaf, i - 1) {
        return Some(i - 1);
    }
    None
}

/// Where the items of a leaf that is too large are parted: [..i], [i..j], [j..], the last of which may be empty. In halves by bytes or by keys where both are within
/// the limits, behind all others where `at_end` and the new item is the last, else around the new item.
pub(crate) fn cut_places(
    limit: u32,
    leaf: &SlottedLeaf,
    place: usize,
    at_end: bool,
) -> (usize, usize)
    requires { place < length leaf.now.items }
    ensures cut { IsOver limit leaf.now.items place → IsCut limit leaf.now.items result.0 result.1 }
    ensures within { (result.0 ≤ result.1) × (result.1 ≤ length leaf.now.items) }
{
    let keys = leaf.len();
    let last = at_end && place + 1 == keys;
    if !last {
        if let Some(i) = halves(limit, leaf) {
            return (i, keys);
        }
    }
    if place == 0 {
        return (1, keys);
    }
    (place, place + 1)
}
