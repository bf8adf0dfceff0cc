//! Stretches of keys in one page.
ghost use Rattle.std.specs.Prelude.{◌≡◌, ◌≢◌, ◌≤◌, ◌<◌, [], length, drop, IfOk};
ghost use Rattle.tc_space.specs.Changes.{is_inside};
ghost use Rattle.bt_rows.specs.Between.{KeysAscend};
ghost use Rattle.bt_rows.specs.Orders.{before_by};
ghost use Rattle.bt_rows.specs.Rules.{Ascends};
ghost use Rattle.bt_tree.specs.Ranging.{AddsItems, FillsAt, IsFilled, IsStart, ScansItems, is_front, start_of};
ghost use Rattle.bt_ways.specs.Searches.{IsRoute};

use crate::searching::{Divider, entries_in_front, items_in_front};
use bt_page::Item;
use bt_slots::{SlottedLeaf, SlottedNode};
use std::alloc::{AllocError, Global};
use std::marker::PhantomData;
use tc_base::{Blob, Cut, Order, Pair, Pairs, Side};

fn is_in_front<O: Order, C: Cut<O>>(cut: &C, key: &[u8]) -> bool
    ensures { result ≡ is_front (C.side_of cut.now key.now) }
{
    match cut.side(key) {
        Side::Before => true,
        Side::Inside => false,
        Side::After => false,
    }
}

pub(crate) fn has<O: Order, C: Cut<O>>(cut: &C, key: &[u8]) -> bool
    ensures { result ≡ is_inside (C.side_of cut.now key.now) }
{
    match cut.side(key) {
        Side::Before => false,
        Side::Inside => true,
        Side::After => false,
    }
}

// In front of a stretch.
#[derive(Drop)]
struct FrontOf<'a, C, O> {
    cut: &'a C,
    of: PhantomData<O>,
}

impl<'a, O: Order, C: Cut<O>> Divider for FrontOf<'a, C, O> {
    ghost in_front = { λ divider key. is_front (C.side_of divider.cut.now key) };

    fn is_front(&self, key: &[u8]) -> bool {
        is_in_front::<O, C>(self.cut, key)
    }
}

/// How many entries are in front of a stretch, where they ascend, by halves.
pub(crate) fn route_to<O: Order, C: Cut<O>>(node: &SlottedNode, cut: &C) -> usize
    ensures within { result ≤ length node.now.entries }
    ensures route { KeysAscend (before_by O.cmp) node.now.entries → IsRoute (start_of (C.side_of cut.now)) node.now.entries [] result }
{
    let divider: FrontOf<'_, C, O> = FrontOf {
        cut,
        of: PhantomData,
    };
    entries_in_front(node, &divider)
}

// How many items are in front of a stretch, where they ascend, by halves.
pub(crate) fn start<O: Order, C: Cut<O>>(leaf: &SlottedLeaf, cut: &C) -> usize
    ensures within { result ≤ length leaf.now.items }
    ensures start { Ascends (before_by O.cmp) leaf.now.items → IsStart (C.side_of cut.now) leaf.now.items result }
{
    let divider: FrontOf<'_, C, O> = FrontOf {
        cut,
        of: PhantomData,
    };
    items_in_front(leaf, &divider)
}

// Adds copies of an item's pairs while there are fewer than `max`, and answers whether all went in.
fn add_values(alloc: Global, item: &Item, max: u64, pairs: &mut Pairs) -> Result<bool, AllocError>
    ensures { IfOk result (λ all. IsFilled max item.now pairs.old pairs.new all) }
{
    for value in item.values.as_slice() {
        if pairs.len() as u64 >= max {
            return Ok(false);
        }
        pairs.push(Pair {
            key: Blob::from_slice(alloc, item.key.as_slice())?,
            value: Blob::from_slice(alloc, value.as_slice())?,
        })?;
    }
    Ok(true)
}

// Adds copies of the pairs of the item at a place, as `add_values`.
fn add_item(
    alloc: Global,
    leaf: &SlottedLeaf,
    place: usize,
    max: u64,
    pairs: &mut Pairs,
) -> Result<bool, AllocError>
    requires { place < length leaf.now.items }
    ensures { IfOk result (FillsAt max leaf.now place pairs.old pairs.new) }
{
    if leaf.count(place) > 1 {
        return add_values(alloc, &leaf.item(alloc, place)?, max, pairs);
    }
    if pairs.len() as u64 >= max {
        return Ok(false);
    }
    pairs.push(Pair {
        key: Blob::from_slice(alloc, leaf.key(place))?,
        value: Blob::from_slice(alloc, leaf.first_value(place))?,
    })?;
    Ok(true)
}

// Adds copies of the pairs of items from a place up to the first that isn't inside, while there are fewer than `max`, and answers whether all went in.
fn add_items<O: Order, C: Cut<O>>(
    alloc: Global,
    leaf: &SlottedLeaf,
    place: usize,
    cut: &C,
    max: u64,
    pairs: &mut Pairs,
) -> Result<bool, AllocError>
    requires { place ≤ length leaf.now.items }
    ensures { IfOk result (AddsItems (C.side_of cut.now) max (drop place leaf.now.items) pairs.old pairs.new) }
{
    for i in place..leaf.len() {
        if !has::<O, C>(cut, leaf.key(i)) {
            return Ok(false);
        }
        if !add_item(alloc, leaf, i, max, pairs)? {
            return Ok(false);
        }
    }
    Ok(true)
}

/// Adds copies of a leaf's pairs inside a stretch while there are fewer than `max`, and answers the id of the next leaf; 0 where no further pair is to be added.
pub(crate) fn add_leaf<O: Order, C: Cut<O>>(
    alloc: Global,
    leaf: &SlottedLeaf,
    cut: &C,
    max: u64,
    pairs: &mut Pairs,
) -> Result<u64, AllocError>
    ensures scanned { IfOk result (ScansItems O.cmp (C.side_of cut.now) max leaf.now pairs.old pairs.new) }
    ensures room { IfOk result (λ next. next ≢ 0 → length pairs.new < max) }
{
    let place = start::<O, C>(leaf, cut);
    if !add_items::<O, C>(alloc, leaf, place, cut, max, pairs)? {
        return Ok(0);
    }
    if pairs.len() as u64 >= max {
        return Ok(0);
    }
    Ok(leaf.next())
}
