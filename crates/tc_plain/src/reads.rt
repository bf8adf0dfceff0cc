//! What is read of contents, kind by kind.
ghost use Rattle.std.specs.Prelude.{◌≡◌, ◌++◌, ◌+◌, IfOk, option_map, flat_map, sum_by, length};
ghost use Rattle.std.specs.FinMap.{entries};
ghost use Rattle.std.specs.Option.{option_copied};
ghost use Rattle.tc_model.specs.Rows.{texts_of, row_text};
ghost use Rattle.tc_model.specs.Stores.{held, is_held, value_of, replied, first_pair, all_pairs, all_keys, count, size_of, bytes_of};
ghost use Rattle.tc_model.specs.Maps.{bytes_in};
ghost use Rattle.tc_plain.specs.Views.{contents_of};

use crate::cells::{key_texts, named, value_at};
use crate::contents::Data;
use crate::maps::{Copied, IdMap, KeyMap};
use crate::rows::row_text;
use crate::trees::{first_of, keys_of, values_of, with_under};
use std::alloc::{AllocError, Global};
use tc_base::{Blob, Key, Keys, Pair, Pairs};

fn copied_if(alloc: Global, value: Option<&Blob>) -> Result<Option<Blob>, AllocError>
    ensures { IfOk result (λ o. o ≡ option_copied value.entry) }
{
    match value {
        Some(value) => Ok(Some(value.copied(alloc)?)),
        None => Ok(None),
    }
}

// The text of a row, if there is one.
fn text_if(alloc: Global, row: Option<&Pairs>) -> Result<Option<Blob>, AllocError>
    ensures { IfOk result (λ o. o ≡ option_map row_text (option_copied row.entry)) }
{
    match row {
        Some(row) => Ok(Some(row_text(alloc, row.as_slice())?)),
        None => Ok(None),
    }
}

/// The value that get gives: of a tree the first of the key, of a table the row text.
pub fn held(alloc: Global, stored: &Data, key: &[u8]) -> Result<Option<Blob>, AllocError>
    ensures { IfOk result (λ o. o ≡ held (contents_of stored.now) key.now) }
{
    match stored {
        Data::Hash { map, .. } => copied_if(alloc, map.get(&Key::from_slice(alloc, key)?)),
        Data::Tree { pairs, .. } => copied_if(alloc, first_of(pairs.as_slice(), key)),
        Data::Fixed { most, ids, .. } => copied_if(alloc, value_at(ids, *most, key)),
        Data::Table { rows, .. } => text_if(alloc, rows.get(&Key::from_slice(alloc, key)?)),
    }
}

pub fn is_held(alloc: Global, stored: &Data, key: &[u8]) -> Result<bool, AllocError>
    ensures { IfOk result (λ b. b ≡ is_held (contents_of stored.now) key.now) }
{
    let value = held(alloc, stored, key)?;
    Ok(value.is_some())
}

/// The value of a key, no bytes where it isn't held.
pub fn value_of(alloc: Global, stored: &Data, key: &[u8]) -> Result<Blob, AllocError>
    ensures { IfOk result (λ v. v ≡ value_of (contents_of stored.now) key.now) }
{
    match held(alloc, stored, key)? {
        Some(value) => Ok(value),
        None => Ok(Blob::new(alloc)),
    }
}

// A key as replies have it.
fn replied(alloc: Global, stored: &Data, key: &[u8]) -> Result<Blob, AllocError>
    ensures { IfOk result (λ k. k ≡ replied (contents_of stored.now) key.now) }
{
    match stored {
        Data::Fixed { ids, .. } => named(alloc, ids, key),
        Data::Hash { .. } => Blob::from_slice(alloc, key),
        Data::Tree { .. } => Blob::from_slice(alloc, key),
        Data::Table { .. } => Blob::from_slice(alloc, key),
    }
}

/// Adds a key and the value that get gives, where it is held.
pub fn push_first(
    alloc: Global,
    stored: &Data,
    key: &[u8],
    front: Pairs,
) -> Result<Pairs, AllocError>
    ensures { IfOk result (λ ps. ps ≡ front ++ first_pair (contents_of stored.now) key.now) }
{
    let mut found = front;
    let Some(value) = held(alloc, stored, key)? else {
        return Ok(found);
    };
    found.push(Pair {
        key: replied(alloc, stored, key)?,
        value,
    })?;
    Ok(found)
}

/// Adds each value that a tree has of a key, else the value that get gives.
pub fn push_all(alloc: Global, stored: &Data, key: &[u8], front: Pairs) -> Result<Pairs, AllocError>
    ensures { IfOk result (λ ps. ps ≡ front ++ all_pairs (contents_of stored.now) key.now) }
{
    match stored {
        Data::Tree { pairs, .. } => {
            let values = values_of(alloc, pairs.as_slice(), key)?;
            with_under(alloc, key, values.as_slice(), front)
        }
        Data::Hash { .. } => push_first(alloc, stored, key, front),
        Data::Fixed { .. } => push_first(alloc, stored, key, front),
        Data::Table { .. } => push_first(alloc, stored, key, front),
    }
}

/// The pairs of some keys, the first of each.
pub fn first_pairs(alloc: Global, stored: &Data, keys: &[Key]) -> Result<Pairs, AllocError>
    ensures { IfOk result (λ ps. ps ≡ flat_map (first_pair (contents_of stored.now)) keys.now) }
{
    let mut found = Pairs::new(alloc);
    for key in keys {
        found = push_first(alloc, stored, key.as_slice(), found)?;
    }
    Ok(found)
}

/// The pairs of some keys, all of each.
pub fn every_pair(alloc: Global, stored: &Data, keys: &[Blob]) -> Result<Pairs, AllocError>
    ensures { IfOk result (λ ps. ps ≡ flat_map (all_pairs (contents_of stored.now)) keys.now) }
{
    let mut found = Pairs::new(alloc);
    for key in keys {
        found = push_all(alloc, stored, key.as_slice(), found)?;
    }
    Ok(found)
}

/// The distinct keys, in the database's order.
pub fn all_keys(alloc: Global, stored: &Data) -> Result<Keys, AllocError>
    ensures { IfOk result (λ ks. ks ≡ all_keys (contents_of stored.now)) }
{
    match stored {
        Data::Hash { map, .. } => map.keys(alloc),
        Data::Tree { pairs, .. } => keys_of(alloc, pairs.as_slice()),
        Data::Fixed { ids, .. } => key_texts(alloc, ids),
        Data::Table { rows, .. } => rows.keys(alloc),
    }
}

/// The number of pairs of a tree, else of keys.
pub fn count(stored: &Data) -> u64
    ensures { result ≡ count (contents_of stored.now) }
{
    match stored {
        Data::Hash { map, .. } => map.len() as u64,
        Data::Tree { pairs, .. } => pairs.len() as u64,
        Data::Fixed { ids, .. } => ids.len() as u64,
        Data::Table { rows, .. } => rows.len() as u64,
    }
}

fn sum(a: u64, b: u64) -> Result<u64, AllocError>
    ensures { IfOk result (λ n. n ≡ a + b) }
{
    match a.checked_add(b) {
        Some(n) => Ok(n),
        None => Err(AllocError),
    }
}

fn bytes_of_map(map: &KeyMap<Blob>) -> Result<u64, AllocError>
    ensures { IfOk result (λ n. n ≡ bytes_in map.now) }
{
    let mut total: u64 = 0;
    for (key, value) in map.iter() {
        let bytes = sum(key.len() as u64, value.len() as u64)?;
        total = sum(total, bytes)?;
    }
    Ok(total)
}

fn bytes_of_pairs(pairs: &[Pair]) -> Result<u64, AllocError>
    ensures { IfOk result (λ n. n ≡ bytes_of (texts_of pairs.now)) }
{
    let mut total: u64 = 0;
    for pair in pairs {
        let bytes = sum(pair.key.len() as u64, pair.value.len() as u64)?;
        total = sum(total, bytes)?;
    }
    Ok(total)
}

fn bytes_of_keys(keys: &[Key]) -> Result<u64, AllocError>
    ensures { IfOk result (λ n. n ≡ bytes_of keys.now) }
{
    let mut total: u64 = 0;
    for key in keys {
        total = sum(total, key.len() as u64)?;
    }
    Ok(total)
}

fn bytes_of_cells(ids: &IdMap) -> Result<u64, AllocError>
    ensures { IfOk result (λ n. n ≡ sum_by (λ e. length e.1) (entries ids.now)) }
{
    let mut total: u64 = 0;
    for (_, value) in ids.iter() {
        total = sum(total, value.len() as u64)?;
    }
    Ok(total)
}

fn bytes_of_rows(rows: &KeyMap<Pairs>) -> Result<u64, AllocError>
    ensures { IfOk result (λ n. n ≡ sum_by (λ e. length e.0 + bytes_of (texts_of e.1)) (entries rows.now)) }
{
    let mut total: u64 = 0;
    for (key, row) in rows.iter() {
        let bytes = sum(key.len() as u64, bytes_of_pairs(row.as_slice())?)?;
        total = sum(total, bytes)?;
    }
    Ok(total)
}

/// The bytes of all keys and values; of a table those of primary keys, names and values.
pub fn size_of(alloc: Global, stored: &Data) -> Result<u64, AllocError>
    ensures { IfOk result (λ n. n ≡ size_of (contents_of stored.now)) }
{
    match stored {
        Data::Hash { map, .. } => bytes_of_map(map),
        Data::Tree { pairs, .. } => bytes_of_pairs(pairs.as_slice()),
        Data::Fixed { ids, .. } => {
            let keys = key_texts(alloc, ids)?;
            sum(bytes_of_keys(keys.as_slice())?, bytes_of_cells(ids)?)
        }
        Data::Table { rows, .. } => bytes_of_rows(rows),
    }
}
