//! Whether keys stand in order.
ghost use Rattle.std.specs.Prelude.{◌≡◌, ◌↔◌, IsTrue, option_map};
ghost use Rattle.bt_rows.specs.Orders.{before_by};
ghost use Rattle.bt_rows.specs.Rules.{Ascends, BoundUnder, InLeaf, IsBelow};
ghost use Rattle.bt_check.specs.Leaves.{AreAbove, AreUnder, at_place, last_key};

use crate::rows::Placed;
use bt_slots::{BareLeaf, next_item};
use std::cmp::Ordering;
use tc_base::{Blob, Order};

fn is_before<O: Order>(a: &[u8], b: &[u8]) -> bool
    ensures { result ≡ before_by O.cmp a.now b.now }
{
    O::order(a, b) == Ordering::Less
}

fn is_under<O: Order>(key: &[u8], bound: &Blob) -> bool
    ensures { result ≡ before_by O.cmp key.now bound.now }
{
    is_before::<O>(key, bound.as_slice())
}

fn ascends<O: Order>(leaf: &BareLeaf) -> bool
    ensures { IsTrue result ↔ Ascends (before_by O.cmp) leaf.now.items }
{
    let count = leaf.len();
    if count == 0 {
        return true;
    }
    let (first, behind) = next_item(leaf.items());
    let mut last = first.key;
    let mut rest = behind;
    for i in 1..count {
        let (item, behind) = next_item(rest);
        if !is_before::<O>(last, item.key) {
            return false;
        }
        last = item.key;
        rest = behind;
    }
    true
}

// Whether no key is below a bound, where they ascend.
fn all_above<O: Order>(bound: &Option<Blob>, leaf: &BareLeaf) -> bool
    ensures { Ascends (before_by O.cmp) leaf.now.items → IsTrue result ↔ AreAbove (before_by O.cmp) bound.now leaf.now.items }
{
    let Some(bound) = bound else {
        return true;
    };
    let count = leaf.len();
    if count == 0 {
        return true;
    }
    let (first, _behind) = next_item(leaf.items());
    if is_under::<O>(first.key, bound) {
        return false;
    }
    true
}

// The key of the last item, if there is any.
fn last_key(leaf: &BareLeaf) -> Option<&[u8]>
    ensures { option_map (λ k. k.now) result ≡ last_key leaf.now.items }
{
    let count = leaf.len();
    if count == 0 {
        return None;
    }
    let (first, behind) = next_item(leaf.items());
    let mut last = first.key;
    let mut rest = behind;
    for i in 1..count {
        let (item, behind) = next_item(rest);
        last = item.key;
        rest = behind;
    }
    Some(last)
}

// Whether all keys are below a bound, where they ascend.
fn all_under<O: Order>(leaf: &BareLeaf, bound: &Option<Blob>) -> bool
    ensures { Ascends (before_by O.cmp) leaf.now.items → IsTrue result ↔ AreUnder (before_by O.cmp) bound.now leaf.now.items }
{
    let Some(key) = last_key(leaf) else {
        return true;
    };
    let Some(bound) = bound else {
        return false;
    };
    is_under::<O>(key, bound)
}

fn bound_under<O: Order>(a: &Option<Blob>, b: &Option<Blob>) -> bool
    ensures { IsTrue result ↔ BoundUnder (before_by O.cmp) a.now b.now }
{
    match (a, b) {
        (_, None) => false,
        (None, Some(_)) => true,
        (Some(a), Some(b)) => is_under::<O>(a.as_slice(), b),
    }
}

pub(crate) fn in_leaf<O: Order>(l: &Placed) -> bool
    ensures { IsTrue result ↔ InLeaf (before_by O.cmp) (at_place l.now) }
{
    if !ascends::<O>(&l.leaf) {
        return false;
    }
    all_above::<O>(&l.slot.bound, &l.leaf)
}

/// Whether a leaf, whose keys ascend, is below another.
pub(crate) fn is_below<O: Order>(l: &Placed, m: &Placed) -> bool
    ensures { Ascends (before_by O.cmp) l.now.leaf.items → IsTrue result ↔ IsBelow (before_by O.cmp) (at_place l.now) (at_place m.now) }
{
    if !bound_under::<O>(&l.slot.bound, &m.slot.bound) {
        return false;
    }
    all_under::<O>(&l.leaf, &m.slot.bound)
}
