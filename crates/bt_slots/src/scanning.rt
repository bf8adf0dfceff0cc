//! Where the items or entries of a page begin, and how many they are.
ghost use Rattle.std.specs.Prelude.{◌≡◌, ℕ, ◌-◌, ◌≤◌, ◌<◌, ◌^◌, ◌++◌, ◌∷◌, List, [], length, take, drop, IfOk, IsErrOf, OnErr};
ghost use Rattle.std.specs.List.{AllByRecursion, flat_map};
ghost use Rattle.tc_base.specs.Vnum.{vnum};
ghost use Rattle.bt_page.specs.Pages.{value_bytes, item_bytes, entry_bytes, leaf_bytes, node_bytes, SizeFits, ItemFits, EntryFits, LeafFits, NodeFits};
ghost use Rattle.bt_page.specs.Spelled.{AtFront, NoneAt, Spells};
ghost use Rattle.bt_page.specs.declared.page.NodeEntry.{NodeEntry as the_entry};
ghost use Rattle.bt_page.specs.declared.page.Item.{Item as the_item};
ghost use Rattle.bt_page.specs.declared.page.Leaf.{Leaf as the_leaf};
ghost use Rattle.bt_page.specs.declared.page.Node.{Node as the_node};
ghost use Rattle.bt_slots.specs.Slots.{AreStarts, IsLeafIn, IsNodeIn};

use crate::fronts::{cut, rest_from};
use bt_page::PageErr;
use std::alloc::{AllocError, Global};
use tc_base::{read_number, read_three, read_two};

// What is behind so many bytes.
fn behind(n: u64, bytes: &[u8]) -> Result<&[u8], PageErr>
    ensures long { IfOk result (λ _. n ≤ length bytes.now) }
    ensures found { IfOk result (λ rest. rest.now ≡ drop n bytes.now) }
    ensures bad { OnErr result (length bytes.now < n) }
{
    if (bytes.len() as u64) < n {
        return Err(PageErr::Bad);
    }
    Ok(cut(n, bytes).1)
}

fn behind_value(bytes: &[u8]) -> Result<&[u8], PageErr>
    ensures found { IfOk result (λ rest. (v : List ℕ) × AtFront SizeFits value_bytes bytes.now v rest.now) }
    ensures bad { OnErr result (NoneAt SizeFits value_bytes bytes.now) }
{
    let Ok((size, rest)) = read_number(bytes) else {
        return Err(PageErr::Bad);
    };
    behind(size, rest)
}

// What is behind so many values.
fn behind_values(n: u64, bytes: &[u8]) -> Result<&[u8], PageErr>
    ensures found { IfOk result (λ rest. (more : List (List ℕ)) × (length more ≡ n) × AllByRecursion SizeFits more × (bytes.now ≡ flat_map value_bytes more ++ rest.now)) }
    ensures bad { OnErr result ((more : List (List ℕ)) (rest : List ℕ) → length more ≡ n → AllByRecursion SizeFits more → bytes.now ≡ flat_map value_bytes more ++ rest → ⊥) }
{
    let mut rest = bytes;
    for i in 0..n {
        rest = behind_value(rest)?;
    }
    Ok(rest)
}

// What is behind an item of whatever sizes.
#[inline(never)]
fn behind_any(bytes: &[u8]) -> Result<&[u8], PageErr>
    ensures found { IfOk result (λ rest. (i : the_item) × AtFront ItemFits item_bytes bytes.now i rest.now) }
    ensures bad { OnErr result (NoneAt ItemFits item_bytes bytes.now) }
{
    let Ok((key, first, more, rest)) = read_three(bytes) else {
        return Err(PageErr::Bad);
    };
    let rest = behind(key, rest)?;
    let rest = behind(first, rest)?;
    behind_values(more, rest)
}

// What is behind an item with short texts and one value.
fn behind_short<'a>(
    key: u8,
    first: u8,
    bytes: &'a [u8],
    texts: &'a [u8],
) -> Result<&'a [u8], PageErr>
    requires are { bytes.now ≡ key ∷ first ∷ 0 ∷ texts.now }
    requires key { key < 128 }
    requires first { first < 128 }
    ensures found { IfOk result (λ rest. (i : the_item) × AtFront ItemFits item_bytes bytes.now i rest.now) }
    ensures bad { OnErr result (NoneAt ItemFits item_bytes bytes.now) }
{
    behind(u64::from(key) + u64::from(first), texts)
}

fn behind_item(bytes: &[u8]) -> Result<&[u8], PageErr>
    ensures found { IfOk result (λ rest. (i : the_item) × AtFront ItemFits item_bytes bytes.now i rest.now) }
    ensures bad { OnErr result (NoneAt ItemFits item_bytes bytes.now) }
{
    // most items have short texts and one value
    if let [key, first, 0, texts @ ..] = bytes {
        if *key < 128 && *first < 128 {
            return behind_short(*key, *first, bytes, texts);
        }
    }
    behind_any(bytes)
}

// What is behind an entry of whatever sizes.
#[inline(never)]
fn behind_any_entry(bytes: &[u8]) -> Result<&[u8], PageErr>
    ensures found { IfOk result (λ rest. (e : the_entry) × AtFront EntryFits entry_bytes bytes.now e rest.now) }
    ensures bad { OnErr result (NoneAt EntryFits entry_bytes bytes.now) }
{
    let Ok((_child, size, rest)) = read_two(bytes) else {
        return Err(PageErr::Bad);
    };
    behind(size, rest)
}

// What is behind an entry with a short key.
fn behind_key<'a>(size: u8, bytes: &'a [u8], key: &'a [u8]) -> Result<&'a [u8], PageErr>
    requires are { (child : ℕ) × (child < 2 ^ 64) × (bytes.now ≡ vnum child ++ size ∷ key.now) }
    requires size { size < 128 }
    ensures found { IfOk result (λ rest. (e : the_entry) × AtFront EntryFits entry_bytes bytes.now e rest.now) }
    ensures bad { OnErr result (NoneAt EntryFits entry_bytes bytes.now) }
{
    behind(u64::from(size), key)
}

fn behind_entry(bytes: &[u8]) -> Result<&[u8], PageErr>
    ensures found { IfOk result (λ rest. (e : the_entry) × AtFront EntryFits entry_bytes bytes.now e rest.now) }
    ensures bad { OnErr result (NoneAt EntryFits entry_bytes bytes.now) }
{
    // most entries have a short key
    if let Ok((_child, rest)) = read_number(bytes) {
        if let [size, key @ ..] = rest {
            if *size < 128 {
                return behind_key(*size, bytes, key);
            }
        }
    }
    behind_any_entry(bytes)
}

// How many places are gathered before they are put behind the others.
const ROW: usize = 128;

// Notes a place behind the others and those that are gathered, and answers how many are gathered then.
fn note(
    starts: &mut Vec<usize>,
    row: &mut [usize; ROW],
    count: usize,
    start: usize,
) -> Result<usize, AllocError>
    requires { count ≤ 128 }
    ensures few { IfOk result (λ n. n ≤ 128) }
    ensures noted { IfOk result (λ n. starts.new.items ++ take n row.new ≡ (starts.old.items ++ take count row.old) ++ start ∷ []) }
{
    if count < ROW {
        row[count] = start;
        return Ok(count + 1);
    }
    starts.extend_from_slice(row)?;
    row[0] = start;
    Ok(1)
}

// Where each item begins in bytes that stand up to this place.
fn starts_of_items(alloc: Global, end: usize, items: &[u8]) -> Result<Vec<usize>, PageErr>
    requires { length items.now ≤ end }
    ensures found { IfOk result (λ starts. AreStarts ItemFits item_bytes (end - length items.now) items.now starts.items) }
    ensures bad { IsErrOf result PageErr.Bad → (xs : List the_item) → AllByRecursion ItemFits xs → items.now ≡ flat_map item_bytes xs → ⊥ }
{
    let mut starts = Vec::with_capacity(alloc, ROW)?;
    let mut row = [0; ROW];
    let mut count = 0;
    let mut rest = items;
    while !rest.is_empty() {
        count = note(&mut starts, &mut row, count, end - rest.len())?;
        rest = behind_item(rest)?;
    }
    starts.extend_from_slice(&row[..count])?;
    Ok(starts)
}

/// Where each item begins in a leaf's bytes. Bad where they are no leaf's.
pub(crate) fn item_starts(alloc: Global, bytes: &[u8]) -> Result<Vec<usize>, PageErr>
    ensures found { IfOk result (λ starts. (l : the_leaf) × IsLeafIn bytes.now starts.items l) }
    ensures bad { IsErrOf result PageErr.Bad → (l : the_leaf) → Spells LeafFits leaf_bytes bytes.now l → ⊥ }
{
    let Ok((_prev, _next, items)) = read_two(bytes) else {
        return Err(PageErr::Bad);
    };
    starts_of_items(alloc, bytes.len(), items)
}

// How many items the bytes are.
fn count_items(bytes: &[u8]) -> Result<usize, PageErr>
    ensures found { IfOk result (λ n. (xs : List the_item) × (n ≡ length xs) × AllByRecursion ItemFits xs × (bytes.now ≡ flat_map item_bytes xs)) }
    ensures bad { OnErr result ((xs : List the_item) → AllByRecursion ItemFits xs → bytes.now ≡ flat_map item_bytes xs → ⊥) }
{
    let mut count: usize = 0;
    let mut rest = rest_from(bytes, 0);
    while !rest.is_empty() {
        rest = behind_item(rest)?;
        count += 1;
    }
    Ok(count)
}

/// How many items the leaf has that the bytes are. Bad where they are no leaf's. It takes no memory.
pub(crate) fn leaf_count(bytes: &[u8]) -> Result<usize, PageErr>
    ensures found { IfOk result (λ n. (l : the_leaf) × (n ≡ length l.items) × Spells LeafFits leaf_bytes bytes.now l) }
    ensures bad { OnErr result ((l : the_leaf) → Spells LeafFits leaf_bytes bytes.now l → ⊥) }
{
    let Ok((_prev, _next, items)) = read_two(bytes) else {
        return Err(PageErr::Bad);
    };
    count_items(items)
}

// Where each entry begins in bytes that stand up to this place.
fn starts_of_entries(alloc: Global, end: usize, entries: &[u8]) -> Result<Vec<usize>, PageErr>
    requires { length entries.now ≤ end }
    ensures found { IfOk result (λ starts. AreStarts EntryFits entry_bytes (end - length entries.now) entries.now starts.items) }
    ensures bad { IsErrOf result PageErr.Bad → (xs : List the_entry) → AllByRecursion EntryFits xs → entries.now ≡ flat_map entry_bytes xs → ⊥ }
{
    let mut starts = Vec::with_capacity(alloc, ROW)?;
    let mut row = [0; ROW];
    let mut count = 0;
    let mut rest = entries;
    while !rest.is_empty() {
        count = note(&mut starts, &mut row, count, end - rest.len())?;
        rest = behind_entry(rest)?;
    }
    starts.extend_from_slice(&row[..count])?;
    Ok(starts)
}

/// Where each entry begins in a node's bytes. Bad where they are no node's.
pub(crate) fn entry_starts(alloc: Global, bytes: &[u8]) -> Result<Vec<usize>, PageErr>
    ensures found { IfOk result (λ starts. (n : the_node) × IsNodeIn bytes.now starts.items n) }
    ensures bad { IsErrOf result PageErr.Bad → (n : the_node) → Spells NodeFits node_bytes bytes.now n → ⊥ }
{
    let Ok((_heir, entries)) = read_number(bytes) else {
        return Err(PageErr::Bad);
    };
    starts_of_entries(alloc, bytes.len(), entries)
}

// How many entries the bytes are.
fn count_entries(bytes: &[u8]) -> Result<usize, PageErr>
    ensures found { IfOk result (λ n. (xs : List the_entry) × (n ≡ length xs) × AllByRecursion EntryFits xs × (bytes.now ≡ flat_map entry_bytes xs)) }
    ensures bad { OnErr result ((xs : List the_entry) → AllByRecursion EntryFits xs → bytes.now ≡ flat_map entry_bytes xs → ⊥) }
{
    let mut count: usize = 0;
    let mut rest = rest_from(bytes, 0);
    while !rest.is_empty() {
        rest = behind_entry(rest)?;
        count += 1;
    }
    Ok(count)
}

/// How many entries the node has that the bytes are. Bad where they are no node's. It takes no memory.
pub(crate) fn node_count(bytes: &[u8]) -> Result<usize, PageErr>
    ensures found { IfOk result (λ n. (m : the_node) × (n ≡ length m.entries) × Spells NodeFits node_bytes bytes.now m) }
    ensures bad { OnErr result ((m : the_node) → Spells NodeFits node_bytes bytes.now m → ⊥) }
{
    let Ok((_heir, entries)) = read_number(bytes) else {
        return Err(PageErr::Bad);
    };
    count_entries(entries)
}
