//! Searches in one page.
ghost use Rattle.std.specs.Prelude.{◌≡◌, ◌<◌, ◌≤◌, true, length};
ghost use Rattle.bt_rows.specs.Between.{KeysAscend};
ghost use Rattle.bt_rows.specs.Orders.{before_by};
ghost use Rattle.bt_rows.specs.Rules.{Ascends};
ghost use Rattle.bt_tree.specs.Climbing.{entry_key};
ghost use Rattle.bt_tree.specs.Finding.{IsFrontOf};
ghost use Rattle.bt_tree.specs.Parting.{item_key};
ghost use Rattle.bt_ways.specs.Searches.{IsRoute, IsSpot, child_at};

use bt_slots::{SlottedLeaf, SlottedNode};
use std::marker::PhantomData;
use tc_base::Order;

/// What divides keys in two: those in front, and the others.
pub(crate) trait Divider {
    ghost use Rattle.std.specs.Prelude.{ℕ, List, Bool};

    ghost in_front: { Self → List ℕ → Bool };

    fn is_front(&self, key: &[u8]) -> bool
        ensures { result ≡ in_front self.now key.now };
}

// In front are the keys below this one.
#[derive(Drop)]
struct Below<'a, O> {
    key: &'a [u8],
    of: PhantomData<O>,
}

impl<'a, O: Order> Divider for Below<'a, O> {
    ghost in_front = { λ divider key. before_by O.cmp key divider.key.now };

    fn is_front(&self, key: &[u8]) -> bool {
        O::order(key, self.key).is_lt()
    }
}

// In front are the keys that aren't above this one.
#[derive(Drop)]
struct UpTo<'a, O> {
    key: &'a [u8],
    of: PhantomData<O>,
}

impl<'a, O: Order> Divider for UpTo<'a, O> {
    ghost use Rattle.std.specs.Prelude.{not};

    ghost in_front = { λ divider key. not (before_by O.cmp divider.key.now key) };

    fn is_front(&self, key: &[u8]) -> bool {
        !O::order(self.key, key).is_lt()
    }
}

// How many items are in front, where those come first, by halves.
fn items_by_halves<D: Divider>(leaf: &SlottedLeaf, divider: &D) -> usize
    ensures within { result ≤ length leaf.now.items }
    ensures parted { IsFrontOf item_key (D.in_front divider.now) leaf.now.items result }
{
    let mut low = 0;
    let mut high = leaf.len();
    while low < high {
        let middle = low + (high - low) / 2;
        if divider.is_front(leaf.key(middle)) {
            low = middle + 1;
        } else {
            high = middle;
        }
    }
    low
}

/// How many items are in front, where those come first.
pub(crate) fn items_in_front<D: Divider>(leaf: &SlottedLeaf, divider: &D) -> usize
    ensures within { result ≤ length leaf.now.items }
    ensures parted { IsFrontOf item_key (D.in_front divider.now) leaf.now.items result }
{
    let len = leaf.len();
    // keys that come in ascending order belong behind the last one
    if len > 0 && divider.is_front(leaf.key(len - 1)) {
        return len;
    }
    items_by_halves(leaf, divider)
}

// How many entries are in front, where those come first, by halves.
fn entries_by_halves<D: Divider>(node: &SlottedNode, divider: &D) -> usize
    ensures within { result ≤ length node.now.entries }
    ensures parted { IsFrontOf entry_key (D.in_front divider.now) node.now.entries result }
{
    let mut low = 0;
    let mut high = node.len();
    while low < high {
        let middle = low + (high - low) / 2;
        if divider.is_front(node.key(middle)) {
            low = middle + 1;
        } else {
            high = middle;
        }
    }
    low
}

/// How many entries are in front, where those come first.
pub(crate) fn entries_in_front<D: Divider>(node: &SlottedNode, divider: &D) -> usize
    ensures within { result ≤ length node.now.entries }
    ensures parted { IsFrontOf entry_key (D.in_front divider.now) node.now.entries result }
{
    let len = node.len();
    // keys that come in ascending order belong behind the last one
    if len > 0 && divider.is_front(node.key(len - 1)) {
        return len;
    }
    entries_by_halves(node, divider)
}

/// How many entries are not above a key, where they ascend.
pub(crate) fn route<O: Order>(node: &SlottedNode, key: &[u8]) -> usize
    ensures within { result ≤ length node.now.entries }
    ensures route { KeysAscend (before_by O.cmp) node.now.entries → IsRoute (before_by O.cmp) node.now.entries key.now result }
{
    let divider: UpTo<'_, O> = UpTo {
        key,
        of: PhantomData,
    };
    entries_in_front(node, &divider)
}

/// The page behind so many entries.
pub(crate) fn child(node: &SlottedNode, place: usize) -> u64
    requires { place ≤ length node.now.entries }
    ensures { result ≡ child_at node.now.heir node.now.entries place }
{
    if place == 0 {
        return node.heir();
    }
    node.child(place - 1)
}

/// How many items are below a key, where they ascend, and whether the next one has it.
pub(crate) fn spot<O: Order>(leaf: &SlottedLeaf, key: &[u8]) -> (usize, bool)
    ensures within { result.0 ≤ length leaf.now.items }
    ensures inside { result.1 ≡ true → result.0 < length leaf.now.items }
    ensures spot { Ascends (before_by O.cmp) leaf.now.items → IsSpot (before_by O.cmp) leaf.now.items key.now result.0 result.1 }
{
    let divider: Below<'_, O> = Below {
        key,
        of: PhantomData,
    };
    let place = items_in_front(leaf, &divider);
    if place == leaf.len() {
        return (place, false);
    }
    (place, leaf.key(place) == key)
}
