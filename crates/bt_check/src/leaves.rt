//! The leaves of a tree, from first to last.
ghost use Rattle.std.specs.Prelude.{◌≡◌, ◌↔◌, ◌≤◌, ◌+◌, IsTrue, length, option_to_list};
ghost use Rattle.std.specs.List.{flat_map};
ghost use Rattle.tc_space.specs.Refusals.{OnFault};
ghost use Rattle.bt_rows.specs.Orders.{before_by};
ghost use Rattle.bt_rows.specs.Rules.{item_pairs};
ghost use Rattle.bt_check.specs.Looks.{Gives, Looks, MayLook};
ghost use Rattle.bt_check.specs.Leaves.{EndAscends, IsBehind, IsClosed, IsLeafIn, IsTied, Sees, SeesAll, at_place, last_at, less};
ghost use Rattle.bt_check.specs.Verdicts.{Judges};

use crate::ordering::{in_leaf, is_below};
use crate::pages::read_leaf;
use crate::rows::Placed;
use bt_rows::{Slot, TreeHead};
use bt_slots::{BareLeaf, next_item};
use std::alloc::Global;
use tc_base::{Order, PAGE_END, Seq};
use tc_space::{RecErr, Records};

/// What was seen of leaves.
#[derive(Drop)]
pub(crate) struct Seen {
    pub last: Option<Placed>,
    pub ordered: bool,
    pub linked: bool,
    /// How many pairs are still to come, None where there are too many.
    pub left: Option<u64>,
}

fn less(left: Option<u64>, n: u64) -> Option<u64>
    ensures { result ≡ less left n }
{
    let Some(k) = left else {
        return None;
    };
    if n <= k { Some(k - n) } else { None }
}

// What is left behind the values of a leaf's items.
fn count_off(left: Option<u64>, leaf: &BareLeaf) -> Option<u64>
    ensures { result ≡ less left (length (flat_map item_pairs leaf.now.items)) }
{
    let mut left = left;
    let mut rest = leaf.items();
    for i in 0..leaf.len() {
        let (item, behind) = next_item(rest);
        left = less(less(left, 1), item.more);
        rest = behind;
    }
    left
}

fn is_behind<O: Order>(last: &Option<Placed>, m: &Placed) -> bool
    ensures { EndAscends (before_by O.cmp) (last_at last.now) → IsTrue result ↔ IsBehind (before_by O.cmp) (last_at last.now) (at_place m.now) }
{
    let Some(l) = last else {
        return in_leaf::<O>(m);
    };
    if !in_leaf::<O>(m) {
        return false;
    }
    is_below::<O>(l, m)
}

fn is_tied(head: &TreeHead, last: &Option<Placed>, m: &Placed) -> bool
    ensures { IsTrue result ↔ IsTied head.now (last_at last.now) (at_place m.now) }
{
    match last {
        None => m.leaf.prev() == 0 && head.first == m.slot.id,
        Some(l) => m.leaf.prev() == l.slot.id && l.leaf.next() == m.slot.id,
    }
}

fn is_closed(head: &TreeHead, last: &Option<Placed>) -> bool
    ensures { IsTrue result ↔ IsClosed head.now (last_at last.now) }
{
    match last {
        None => head.first == 0 && head.last == 0,
        Some(l) => l.leaf.next() == 0 && head.last == l.slot.id,
    }
}

impl Seen {
    // Takes a leaf behind those that were seen, if there is one.
    fn see<O: Order>(&mut self, head: &TreeHead, there: Option<Placed>)
        ensures { Sees (before_by O.cmp) head.now (option_to_list (last_at there)) self.old self.new }
    {
        let Some(m) = there else {
            return;
        };
        self.ordered = self.ordered & is_behind::<O>(&self.last, &m);
        self.linked = self.linked & is_tied(head, &self.last, &m);
        self.left = count_off(self.left, &m.leaf);
        self.last = Some(m);
    }
}

// The leaf in a place, if one stands there.
fn leaf_in<R: Records>(
    alloc: Global,
    store: &mut R,
    space: &mut R::S,
    slot: Slot,
) -> Result<Option<Placed>, RecErr>
    requires { MayLook R.S.Space R.Records store.old space.old }
    ensures leaf { Gives R.S.Space R.Records result store.old space.old (IsLeafIn slot) }
    ensures looks { Looks R.S.Space R.Records store.old store.new space.old space.new }
    ensures asks { R.gets store.new ≤ R.gets store.old + 1 }
    ensures cause { OnFault R.S.Space result space.old space.new }
{
    if slot.id >= PAGE_END {
        return Ok(None);
    }
    let Some(leaf) = read_leaf(alloc, store, space, slot.id)? else {
        return Ok(None);
    };
    Ok(Some(Placed { slot, leaf }))
}

/// Sees the leaves in these places, one at a time.
pub(crate) fn see_all<R: Records, O: Order>(
    alloc: Global,
    store: &mut R,
    space: &mut R::S,
    head: &TreeHead,
    places: Seq<Slot>,
) -> Result<Seen, RecErr>
    requires { MayLook R.S.Space R.Records store.old space.old }
    ensures seen { Gives R.S.Space R.Records result store.old space.old (SeesAll (before_by O.cmp) head.now places) }
    ensures looks { Looks R.S.Space R.Records store.old store.new space.old space.new }
    ensures asks { R.gets store.new ≤ R.gets store.old + length places }
    ensures cause { OnFault R.S.Space result space.old space.new }
{
    let mut seen = Seen {
        last: None,
        ordered: true,
        linked: true,
        left: Some(head.pairs),
    };
    for slot in places.into_vec() {
        let there = leaf_in(alloc, store, space, slot)?;
        seen.see::<O>(head, there);
    }
    Ok(seen)
}

/// The number of the first rule of leaves that doesn't hold of those that were seen.
pub(crate) fn broken_rule(head: &TreeHead, seen: &Seen) -> Option<u8>
    ensures { Judges head.now seen.now result }
{
    if !seen.ordered {
        return Some(6);
    }
    if !seen.linked {
        return Some(7);
    }
    if !is_closed(head, &seen.last) {
        return Some(7);
    }
    if seen.left != Some(0) {
        return Some(8);
    }
    None
}
