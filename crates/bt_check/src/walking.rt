//! The rows of a tree, from the root down.
ghost use Rattle.std.specs.Prelude.{◌≡◌, ◌↔◌, ◌⊎◌, ◌++◌, ◌+◌, ◌<◌, ◌≤◌, ◌∷◌, [], true, false, length, OnOk, IfOk, IsTrue};
ghost use Rattle.std.specs.BTreeSet.{btree_set_len};
ghost use Rattle.tc_space.specs.Refusals.{OnFault};
ghost use Rattle.bt_page.specs.Keys.{node_offset};
ghost use Rattle.bt_rows.specs.Rows.{children_of, root_slot};
ghost use Rattle.bt_check.specs.Looks.{AsksOrKeeps, Gives, Looks, MayLook};
ghost use Rattle.bt_check.specs.Walks.{IsNextRow, IsStuck, IsTakenOut, IsWithin, LeavesRoom, Spreads, Walks, leaf_places};

use crate::ids::{is_empty, take};
use crate::pages::read_node;
use crate::rows::{Naming, Walked};
use bt_rows::Slot;
use bt_slots::{BareNode, next_entry};
use std::alloc::{AllocError, Global};
use std::collections::BTreeSet;
use tc_base::{Blob, PAGE_END, Seq};
use tc_space::{RecErr, Records};

// Adds what a node names.
fn name_all(
    alloc: Global,
    bound: Option<Blob>,
    node: &BareNode,
    next: &mut Seq<Slot>,
) -> Result<(), AllocError>
    ensures { OnOk result (next.new ≡ next.old ++ children_of bound node.now) }
{
    next.push(Slot {
        bound,
        id: node.heir(),
    })?;
    let mut rest = node.entries();
    for i in 0..node.len() {
        let (child, key, behind) = next_entry(rest);
        next.push(Slot {
            bound: Some(Blob::from_slice(alloc, key)?),
            id: child,
        })?;
        rest = behind;
    }
    Ok(())
}

// Adds what the node in a place names to the next row, if it has room; its heir has the bound of the place.
fn spread<R: Records>(
    alloc: Global,
    store: &mut R,
    space: &mut R::S,
    slot: Slot,
    next: &mut Naming,
) -> Result<(), RecErr>
    requires node { node_offset ≤ slot.id }
    requires ready { MayLook R.S.Space R.Records store.old space.old }
    ensures next { Gives R.S.Space R.Records result store.old space.old (λ _. Spreads slot next.old next.new) }
    ensures room { next.new.room ≡ next.old.room }
    ensures few { OnOk result (IsWithin next.old → IsWithin next.new) }
    ensures looks { Looks R.S.Space R.Records store.old store.new space.old space.new }
    ensures asks { R.gets store.new ≤ R.gets store.old + 1 }
    ensures cause { OnFault R.S.Space result space.old space.new }
{
    let Some(node) = read_node(alloc, store, space, slot.id)? else {
        return Ok(());
    };
    // its heir and its entries
    if next.places.len().saturating_add(node.len()) >= next.room {
        next.full = true;
        return Ok(());
    }
    name_all(alloc, slot.bound, &node, &mut next.places)?;
    Ok(())
}

// Keeps the place of a leaf, or adds what stands below that of a node to the next row.
fn pass_one<R: Records>(
    alloc: Global,
    store: &mut R,
    space: &mut R::S,
    slot: Slot,
    next: &mut Naming,
    leaves: &mut Seq<Slot>,
) -> Result<(), RecErr>
    requires { MayLook R.S.Space R.Records store.old space.old }
    ensures next { Gives R.S.Space R.Records result store.old space.old (λ _. Spreads slot next.old next.new) }
    ensures room { next.new.room ≡ next.old.room }
    ensures few { OnOk result (IsWithin next.old → IsWithin next.new) }
    ensures leaves { OnOk result (leaves.new ≡ leaves.old ++ leaf_places (slot ∷ [])) }
    ensures looks { Looks R.S.Space R.Records store.old store.new space.old space.new }
    ensures asks { AsksOrKeeps R.Records 1 store.old store.new leaves.old leaves.new }
    ensures cause { OnFault R.S.Space result space.old space.new }
{
    if slot.id < PAGE_END {
        leaves.push(slot)?;
        return Ok(());
    }
    if next.full {
        return Ok(());
    }
    spread(alloc, store, space, slot, next)
}

// Makes the row below a row, of so many places at most, and keeps the places of the leaves in it.
fn pass<R: Records>(
    alloc: Global,
    store: &mut R,
    space: &mut R::S,
    row: Seq<Slot>,
    room: usize,
    leaves: &mut Seq<Slot>,
) -> Result<Naming, RecErr>
    requires { MayLook R.S.Space R.Records store.old space.old }
    ensures next { Gives R.S.Space R.Records result store.old space.old (IsNextRow row room) }
    ensures few { IfOk result (λ n. length n.places ≤ room) }
    ensures leaves { OnOk result (leaves.new ≡ leaves.old ++ leaf_places row) }
    ensures looks { Looks R.S.Space R.Records store.old store.new space.old space.new }
    ensures asks { AsksOrKeeps R.Records (length row) store.old store.new leaves.old leaves.new }
    ensures cause { OnFault R.S.Space result space.old space.new }
{
    let mut next = Naming {
        places: Seq::new(alloc),
        room,
        full: false,
    };
    for slot in row.into_vec() {
        pass_one(alloc, store, space, slot, &mut next, leaves)?;
    }
    Ok(next)
}

// Takes the ids of a row out of the set, and answers whether each of them was there, as often as the row names it.
fn take_row(row: &Seq<Slot>, ids: &mut BTreeSet<u64>) -> bool
    ensures taken { result ≡ true → IsTakenOut row.now ids.old ids.new }
    ensures stuck { result ≡ false → IsStuck ids.old row.now }
    ensures len { result ≡ true → btree_set_len ids.new + length row.now ≡ btree_set_len ids.old }
{
    for slot in row.as_slice() {
        if !take(ids, slot.id) {
            return false;
        }
    }
    true
}

// The row of the root alone.
fn root_row(alloc: Global, root: u64) -> Result<Seq<Slot>, AllocError>
    ensures { IfOk result (λ row. row ≡ root_slot root ∷ []) }
{
    let mut row = Seq::new(alloc);
    row.push(Slot {
        bound: None,
        id: root,
    })?;
    Ok(row)
}

// Whether leaves stand in two rows, where so many stood above a row and so many do with those in it.
fn is_uneven(above_is: bool, above: usize, all: usize) -> bool
    ensures { IsTrue result ↔ (IsTrue above_is ⊎ ((0 < above) × (above < all))) }
{
    above_is || (above > 0 && all > above)
}

/// Walks all rows, taking each page that is reached out of the set of all pages. None where a page is reached twice, isn't there, or is left.
pub(crate) fn walk<R: Records>(
    alloc: Global,
    store: &mut R,
    space: &mut R::S,
    root: u64,
    mut ids: BTreeSet<u64>,
) -> Result<Option<Walked>, RecErr>
    requires { MayLook R.S.Space R.Records store.old space.old }
    ensures walked { Gives R.S.Space R.Records result store.old space.old (Walks root ids) }
    ensures looks { Looks R.S.Space R.Records store.old store.new space.old space.new }
    ensures asks { R.gets store.new ≤ R.gets store.old + btree_set_len ids }
    ensures few { IfOk result (LeavesRoom (R.gets store.new) (R.gets store.old + btree_set_len ids)) }
    ensures cause { OnFault R.S.Space result space.old space.new }
{
    let mut row = root_row(alloc, root)?;
    let mut leaves = Seq::new(alloc);
    let mut uneven = false;
    let _most = ids.len();
    let mut height = 0;
    'rows: while row.len() > 0 {
        if !take_row(&row, &mut ids) {
            return Ok(None);
        }
        let above = leaves.len();
        // no more places than pages that are left
        let next = pass(alloc, store, space, row, ids.len(), &mut leaves)?;
        if next.full {
            return Ok(None);
        }
        row = next.places;
        uneven = is_uneven(uneven, above, leaves.len());
        height += 1;
    }
    if !is_empty(&ids) {
        return Ok(None);
    }
    Ok(Some(Walked {
        leaves,
        uneven,
        height,
    }))
}
