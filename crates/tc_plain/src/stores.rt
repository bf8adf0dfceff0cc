//! What is stored in contents, kind by kind. Each gives the contents after, or none where it fails.
ghost use Rattle.std.specs.Prelude.{◌≡◌, IfOk, option_and_then, option_map, unwrap_or};
ghost use Rattle.tc_model.specs.Contents.{emptied, is_narrow, is_table};
ghost use Rattle.tc_model.specs.Maps.{with_value, without};
ghost use Rattle.tc_model.specs.Stores.{put, store, store_row, put_row, with_row, shift, add, with_sum, out, clear, put_last};
ghost use Rattle.tc_plain.specs.Views.{contents_of, Makes};
ghost use Rattle.tc_plain.specs.Bodies.{put_tree, put_cell, store_value, store_text, longer_row, out_tree, out_cell};

use crate::cells::id_of;
use crate::contents::Data;
use crate::maps::{Copied, IdMap, KeyMap};
use crate::reads::{held, is_held, value_of};
use crate::rows::{row_of_text, row_text, with_lacking};
use crate::trees::{first_of, with_first, with_last, without_all, without_first};
use std::alloc::{AllocError, Global};
use tc_base::{Blob, Key, Mode, Pairs, VALUE_MOST};
use tc_model::{last_of, spelled, sum_of};

fn put_hash(map: KeyMap<Blob>, key: Key, value: Blob) -> Result<Option<KeyMap<Blob>>, AllocError>
    ensures { IfOk result (λ o. o ≡ with_value map key value) }
{
    if value.len() > VALUE_MOST {
        return Ok(None);
    }
    let mut after = map;
    after.set(key, value)?;
    Ok(Some(after))
}

fn put_tree(
    alloc: Global,
    decimal: bool,
    pairs: &Pairs,
    key: &[u8],
    value: Blob,
) -> Result<Option<Pairs>, AllocError>
    ensures { IfOk result (λ o. o ≡ put_tree decimal pairs.now key.now value) }
{
    if value.len() > VALUE_MOST {
        return Ok(None);
    }
    Ok(Some(with_first(alloc, decimal, pairs.as_slice(), key, value)?))
}

// Sets the value of the id that a key names, cut to the width.
fn put_cell(
    width: u32,
    most: u64,
    ids: IdMap,
    key: &[u8],
    value: Blob,
) -> Result<Option<IdMap>, AllocError>
    ensures { IfOk result (λ o. o ≡ put_cell width most ids key.now value) }
{
    let Some(id) = id_of(&ids, most, key) else {
        return Ok(None);
    };
    let mut cut = value;
    cut.truncate(width as usize);
    if cut.len() > VALUE_MOST {
        return Ok(None);
    }
    let mut after = ids;
    after.set(id, cut)?;
    Ok(Some(after))
}

// A row whose text is too long is refused.
fn with_row(
    alloc: Global,
    rows: KeyMap<Pairs>,
    key: &[u8],
    row: Pairs,
) -> Result<Option<KeyMap<Pairs>>, AllocError>
    ensures { IfOk result (λ o. o ≡ with_row rows key.now row) }
{
    if row_text(alloc, row.as_slice())?.len() > VALUE_MOST {
        return Ok(None);
    }
    let mut after = rows;
    after.set(Key::from_slice(alloc, key)?, row)?;
    Ok(Some(after))
}

// The row of a key with the columns behind that it lacks.
fn longer_row(
    alloc: Global,
    rows: &KeyMap<Pairs>,
    key: &[u8],
    more: Pairs,
) -> Result<Pairs, AllocError>
    ensures { IfOk result (λ row. row ≡ longer_row rows.now key.now more) }
{
    match rows.get(&Key::from_slice(alloc, key)?) {
        Some(row) => with_lacking(alloc, row, more.as_slice()),
        None => with_lacking(alloc, &Pairs::new(alloc), more.as_slice()),
    }
}

fn put_row(
    alloc: Global,
    mode: Mode,
    rows: KeyMap<Pairs>,
    key: &[u8],
    row: Pairs,
) -> Result<Option<KeyMap<Pairs>>, AllocError>
    ensures { IfOk result (λ o. o ≡ put_row mode rows key.now row) }
{
    match mode {
        Mode::Over => with_row(alloc, rows, key, row),
        Mode::Keep => {
            if rows.get(&Key::from_slice(alloc, key)?).is_some() {
                return Ok(None);
            }
            with_row(alloc, rows, key, row)
        }
        Mode::Cat => {
            let longer = longer_row(alloc, &rows, key, row)?;
            with_row(alloc, rows, key, longer)
        }
    }
}

/// Stores a row, which only a table takes.
pub fn store_row(
    alloc: Global,
    mode: Mode,
    old: Data,
    key: &[u8],
    row: Pairs,
) -> Result<Option<Data>, AllocError>
    ensures { Makes result (store_row mode (contents_of old) key.now row) }
{
    let Data::Table { rows, indexes } = old else {
        return Ok(None);
    };
    let Some(rows) = put_row(alloc, mode, rows, key, row)? else {
        return Ok(None);
    };
    Ok(Some(Data::Table { rows, indexes }))
}

// Stores the row that a text spells.
fn store_text(
    alloc: Global,
    mode: Mode,
    old: Data,
    key: &[u8],
    text: &[u8],
) -> Result<Option<Data>, AllocError>
    ensures { Makes result (store_text mode (contents_of old) key.now text.now) }
{
    let Some(row) = row_of_text(alloc, text)? else {
        drop(old);
        return Ok(None);
    };
    store_row(alloc, mode, old, key, row)
}

/// Sets a value, of a tree the first of its key; of a table the row of a text.
pub fn put(alloc: Global, old: Data, key: &[u8], value: Blob) -> Result<Option<Data>, AllocError>
    ensures { Makes result (put (contents_of old) key.now value) }
{
    match old {
        Data::Hash { memory, map } => match put_hash(map, Key::from_slice(alloc, key)?, value)? {
            Some(map) => Ok(Some(Data::Hash { memory, map })),
            None => Ok(None),
        },
        Data::Tree {
            memory,
            decimal,
            pairs,
        } => match put_tree(alloc, decimal, &pairs, key, value)? {
            Some(pairs) => Ok(Some(Data::Tree {
                memory,
                decimal,
                pairs,
            })),
            None => Ok(None),
        },
        Data::Fixed { width, most, ids } => match put_cell(width, most, ids, key, value)? {
            Some(ids) => Ok(Some(Data::Fixed { width, most, ids })),
            None => Ok(None),
        },
        Data::Table { rows, indexes } => store_text(
            alloc,
            Mode::Over,
            Data::Table { rows, indexes },
            key,
            value.as_slice(),
        ),
    }
}

fn is_table(old: &Data) -> bool
    ensures { result ≡ is_table (contents_of old.now) }
{
    match old {
        Data::Table { .. } => true,
        _ => false,
    }
}

// The value that put, putkeep and putcat put where values aren't rows; none where putkeep fails.
fn value_put(
    alloc: Global,
    mode: Mode,
    old: &Data,
    key: &[u8],
    value: &[u8],
) -> Result<Option<Blob>, AllocError>
    ensures { IfOk result (λ o. option_and_then (put (contents_of old.now) key.now) o ≡ store_value mode (contents_of old.now) key.now value.now) }
{
    match mode {
        Mode::Over => Ok(Some(Blob::from_slice(alloc, value)?)),
        Mode::Keep => {
            if is_held(alloc, old, key)? {
                return Ok(None);
            }
            Ok(Some(Blob::from_slice(alloc, value)?))
        }
        Mode::Cat => {
            let mut joined = value_of(alloc, old, key)?;
            joined.append(value)?;
            Ok(Some(joined))
        }
    }
}

// What put, putkeep and putcat store where values aren't rows.
fn store_value(
    alloc: Global,
    mode: Mode,
    old: Data,
    key: &[u8],
    value: &[u8],
) -> Result<Option<Data>, AllocError>
    ensures { Makes result (store_value mode (contents_of old) key.now value.now) }
{
    let Some(stored) = value_put(alloc, mode, &old, key, value)? else {
        drop(old);
        return Ok(None);
    };
    put(alloc, old, key, stored)
}

/// What put, putkeep and putcat store; on a table the value is a row text.
#[tactic(auto, using(crate::proofs::Storing::stored_text, crate::proofs::Storing::stored_value))]
pub fn store(
    alloc: Global,
    mode: Mode,
    old: Data,
    key: &[u8],
    value: &[u8],
) -> Result<Option<Data>, AllocError>
    ensures { Makes result (store mode (contents_of old) key.now value.now) }
{
    if is_table(&old) {
        return store_text(alloc, mode, old, key, value);
    }
    store_value(alloc, mode, old, key, value)
}

// The last bytes of the old value and the new one joined; none on a table.
#[tactic(auto, using(crate::proofs::Storing::shifted, crate::proofs::Storing::unshifted))]
fn value_shifted(
    alloc: Global,
    old: &Data,
    key: &[u8],
    value: &[u8],
    width: u32,
) -> Result<Option<Blob>, AllocError>
    ensures { IfOk result (λ o. option_and_then (put (contents_of old.now) key.now) o ≡ shift (contents_of old.now) key.now value.now width) }
{
    if is_table(old) {
        return Ok(None);
    }
    let mut joined = value_of(alloc, old, key)?;
    joined.append(value)?;
    Ok(Some(Blob::from_slice(alloc, last_of(joined.as_slice(), width as usize))?))
}

/// Stores the last bytes of the old value and the new one joined; on a table it fails.
pub fn shift(
    alloc: Global,
    old: Data,
    key: &[u8],
    value: &[u8],
    width: u32,
) -> Result<Option<Data>, AllocError>
    ensures { Makes result (shift (contents_of old) key.now value.now width) }
{
    let Some(stored) = value_shifted(alloc, &old, key, value, width)? else {
        drop(old);
        return Ok(None);
    };
    put(alloc, old, key, stored)
}

/// The sum that addint gives, and the contents with it in four bytes.
fn with_sum(
    alloc: Global,
    old: Data,
    key: &[u8],
    number: u32,
) -> Result<Option<(u32, Data)>, AllocError>
    ensures { IfOk result (λ o. option_map (λ x. (x.0, contents_of x.1)) o ≡ with_sum (contents_of old) key.now number) }
{
    let Some(number) = sum_of(&held(alloc, &old, key)?, number) else {
        drop(old);
        return Ok(None);
    };
    let Some(after) = put(alloc, old, key, spelled(alloc, number)?)? else {
        return Ok(None);
    };
    Ok(Some((number, after)))
}

// Whether values of four bytes have no room.
fn is_narrow(old: &Data) -> bool
    ensures { result ≡ is_narrow (contents_of old.now) }
{
    match old {
        Data::Fixed { width, .. } => *width < 4,
        Data::Table { .. } => true,
        _ => false,
    }
}

/// Adds a number to that of a key; it fails on a table and on cells below four bytes.
#[tactic(auto, using(crate::proofs::Storing::summed, crate::proofs::Storing::unsummed))]
pub fn add(
    alloc: Global,
    old: Data,
    key: &[u8],
    number: u32,
) -> Result<Option<(u32, Data)>, AllocError>
    ensures { IfOk result (λ o. option_map (λ x. (x.0, contents_of x.1)) o ≡ add (contents_of old) key.now number) }
{
    if is_narrow(&old) {
        drop(old);
        return Ok(None);
    }
    with_sum(alloc, old, key, number)
}

fn out_key<V: Drop>(map: KeyMap<V>, key: &Key) -> Option<KeyMap<V>>
    ensures { result ≡ without map key.now }
{
    if map.get(key).is_none() {
        return None;
    }
    let mut after = map;
    after.remove(key);
    Some(after)
}

fn out_tree(
    alloc: Global,
    decimal: bool,
    pairs: &Pairs,
    key: &[u8],
) -> Result<Option<Pairs>, AllocError>
    ensures { IfOk result (λ o. o ≡ out_tree decimal pairs.now key.now) }
{
    if first_of(pairs.as_slice(), key).is_none() {
        return Ok(None);
    }
    Ok(Some(without_first(alloc, decimal, pairs.as_slice(), key)?))
}

fn out_cell(most: u64, ids: IdMap, key: &[u8]) -> Option<IdMap>
    ensures { result ≡ out_cell most ids key.now }
{
    let Some(id) = id_of(&ids, most, key) else {
        return None;
    };
    if ids.get(id).is_none() {
        return None;
    }
    let mut after = ids;
    after.remove(id);
    Some(after)
}

/// Takes a key out, of a tree its first value; it fails where the key isn't held.
pub fn out(alloc: Global, old: Data, key: &[u8]) -> Result<Option<Data>, AllocError>
    ensures { Makes result (out (contents_of old) key.now) }
{
    match old {
        Data::Hash { memory, map } => match out_key(map, &Key::from_slice(alloc, key)?) {
            Some(map) => Ok(Some(Data::Hash { memory, map })),
            None => Ok(None),
        },
        Data::Tree {
            memory,
            decimal,
            pairs,
        } => match out_tree(alloc, decimal, &pairs, key)? {
            Some(pairs) => Ok(Some(Data::Tree {
                memory,
                decimal,
                pairs,
            })),
            None => Ok(None),
        },
        Data::Fixed { width, most, ids } => match out_cell(most, ids, key) {
            Some(ids) => Ok(Some(Data::Fixed { width, most, ids })),
            None => Ok(None),
        },
        Data::Table { rows, indexes } => match out_key(rows, &Key::from_slice(alloc, key)?) {
            Some(rows) => Ok(Some(Data::Table { rows, indexes })),
            None => Ok(None),
        },
    }
}

// Takes a key out where it is held.
fn clear_key(alloc: Global, old: Data, key: &[u8]) -> Result<Data, AllocError>
    ensures { IfOk result (λ d. contents_of d ≡ unwrap_or (out (contents_of old) key.now) (contents_of old)) }
{
    let kept = old.copied(alloc)?;
    match out(alloc, old, key)? {
        Some(after) => {
            drop(kept);
            Ok(after)
        }
        None => Ok(kept),
    }
}

/// Takes out what is held of a key, of a tree all its values.
pub fn clear(alloc: Global, old: Data, key: &[u8]) -> Result<Data, AllocError>
    ensures { IfOk result (λ d. contents_of d ≡ clear (contents_of old) key.now) }
{
    match old {
        Data::Tree {
            memory,
            decimal,
            pairs,
        } => {
            let left = without_all(alloc, decimal, pairs.as_slice(), key)?;
            Ok(Data::Tree {
                memory,
                decimal,
                pairs: left,
            })
        }
        Data::Hash { memory, map } => clear_key(alloc, Data::Hash { memory, map }, key),
        Data::Fixed { width, most, ids } => clear_key(alloc, Data::Fixed { width, most, ids }, key),
        Data::Table { rows, indexes } => clear_key(alloc, Data::Table { rows, indexes }, key),
    }
}

/// Adds a value behind those of its key, which only a tree does.
pub fn put_last(
    alloc: Global,
    old: Data,
    key: &[u8],
    value: &[u8],
) -> Result<Option<Data>, AllocError>
    ensures { Makes result (put_last (contents_of old) key.now value.now) }
{
    let Data::Tree {
        memory,
        decimal,
        pairs,
    } = old
    else {
        return Ok(None);
    };
    if value.len() > VALUE_MOST {
        return Ok(None);
    }
    let value = Blob::from_slice(alloc, value)?;
    let pairs = with_last(alloc, decimal, pairs.as_slice(), key, value)?;
    Ok(Some(Data::Tree {
        memory,
        decimal,
        pairs,
    }))
}

/// Without its data, in its shape; a table keeps its indexes.
pub fn emptied(alloc: Global, old: Data) -> Data
    ensures { contents_of result ≡ emptied (contents_of old) }
{
    match old {
        Data::Hash { memory, .. } => Data::Hash {
            memory,
            map: KeyMap::new(alloc),
        },
        Data::Tree {
            memory,
            decimal,
            ..
        } => Data::Tree {
            memory,
            decimal,
            pairs: Pairs::new(alloc),
        },
        Data::Fixed { width, most, .. } => Data::Fixed {
            width,
            most,
            ids: IdMap::new(alloc),
        },
        Data::Table { indexes, .. } => Data::Table {
            rows: KeyMap::new(alloc),
            indexes,
        },
    }
}
