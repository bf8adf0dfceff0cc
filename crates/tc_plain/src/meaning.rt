//! What a misc request makes of contents, and the elements of its reply.
ghost use Rattle.std.specs.Fmt.{decimal};
ghost use Rattle.std.specs.Prelude.{◌≡◌, ◌∷◌, [], IfOk, map, filter, flat_map, fold, option_map, Some, true};
ghost use Rattle.std.specs.FinMap.{entries};
ghost use Rattle.tc_model.specs.Stores.{clear};
ghost use Rattle.tc_model.specs.declared.misc.Misc.TheVariants as misc;
ghost use Rattle.tc_model.specs.Search as search;
ghost use Rattle.tc_model.specs.Meaning as means;
ghost use Rattle.tc_model.specs.Meaning.{each, index_of, with_index, set_index, reply_of, without_rows, meaning, done};
ghost use Rattle.tc_plain.specs.Views.{contents_of, outcome_seen, Makes};
ghost use Rattle.tc_plain.specs.Bodies.{put_pair, is_asking, items_of, rows_left};

use crate::contents::Data;
use crate::maps::{Copied, KeyMap};
use crate::reads::{every_pair, held};
use crate::rows::{is_part, row_of_call, row_text, texts_of};
use crate::search::{FoundRow, FoundRows, arrange, holds};
use crate::stores::{clear, emptied, out, put_last, store, store_row};
use crate::trees::ranged;
use std::alloc::{AllocError, Global};
use tc_base::{Blob, Blobs, INDEXES_MOST, Key, Mode, Pair, Pairs};
use tc_model::{Deed, IndexKind, Misc, Query, has_short_keys, maximum_of};
use td_query::read_query;

/// The contents after a misc request, and the elements of its reply.
#[derive(Drop)]
pub(crate) struct Outcome {
    pub(crate) after: Data,
    pub(crate) items: Blobs,
}

fn changed(alloc: Global, after: Option<Data>) -> Option<Outcome>
    ensures { option_map outcome_seen result ≡ means.changes (option_map contents_of after) }
{
    match after {
        Some(after) => Some(Outcome {
            after,
            items: Blobs::new(alloc),
        }),
        None => None,
    }
}

// Puts a pair, or adds it behind the values of its key.
fn put_pair(alloc: Global, behind: bool, old: Data, pair: &Pair) -> Result<Option<Data>, AllocError>
    ensures { Makes result (put_pair behind (contents_of old) pair.now) }
{
    if behind {
        return put_last(alloc, old, pair.key.as_slice(), pair.value.as_slice());
    }
    store(
        alloc,
        Mode::Over,
        old,
        pair.key.as_slice(),
        pair.value.as_slice(),
    )
}

// Pair by pair; if one fails, the whole fails.
fn put_pairs(
    alloc: Global,
    behind: bool,
    old: Data,
    pairs: &[Pair],
) -> Result<Option<Data>, AllocError>
    ensures { Makes result (each (put_pair behind) (Some (contents_of old)) pairs.now) }
{
    let mut now = old;
    for pair in pairs {
        let Some(next) = put_pair(alloc, behind, now, pair)? else {
            return Ok(None);
        };
        now = next;
    }
    Ok(Some(now))
}

// Takes out what is held of some keys.
fn clear_all(alloc: Global, old: Data, keys: &[Blob]) -> Result<Data, AllocError>
    ensures { IfOk result (λ d. contents_of d ≡ fold clear (contents_of old) keys.now) }
{
    let mut now = old;
    for key in keys {
        now = clear(alloc, now, key.as_slice())?;
    }
    Ok(now)
}

// The elements of a reply to a request that changes nothing, but for a search.
fn asked(alloc: Global, m: &Misc, old: &Data) -> Result<Option<Blobs>, AllocError>
    ensures { IfOk result (λ o. is_asking m.now ≡ true → means.tells (contents_of old.now) o ≡ meaning m.now (contents_of old.now)) }
{
    match m {
        Misc::Get { key } => {
            let Some(value) = held(alloc, old, key.as_slice())? else {
                return Ok(None);
            };
            let mut items = Blobs::new(alloc);
            items.push(value)?;
            Ok(Some(items))
        }
        Misc::GetRow { key } => {
            let Data::Table { rows, .. } = old else {
                return Ok(None);
            };
            let Some(row) = rows.get(&Key::from_slice(alloc, key.as_slice())?) else {
                return Ok(None);
            };
            Ok(Some(texts_of(alloc, row.as_slice())?))
        }
        Misc::GetList { keys } => {
            let pairs = every_pair(alloc, old, keys.as_slice())?;
            Ok(Some(texts_of(alloc, pairs.as_slice())?))
        }
        Misc::Range { from, maximum, to } => {
            let Some(most) = maximum_of(maximum.as_slice()) else {
                return Ok(None);
            };
            let Data::Tree { decimal, pairs, .. } = old else {
                return Ok(Some(Blobs::new(alloc)));
            };
            let inside = ranged(alloc, *decimal, pairs.as_slice(), from.as_slice(), to, most)?;
            Ok(Some(texts_of(alloc, inside.as_slice())?))
        }
        _ => Ok(None),
    }
}

fn index_of(code: &[u8]) -> Option<Option<IndexKind>>
    ensures { result ≡ index_of code.now }
{
    if code == b"0".as_slice() {
        return Some(Some(IndexKind::Lexical));
    }
    if code == b"1".as_slice() {
        return Some(Some(IndexKind::Decimal));
    }
    if code == b"2".as_slice() {
        return Some(Some(IndexKind::Token));
    }
    if code == b"9999".as_slice() {
        return Some(None);
    }
    None
}

// An index that isn't there can't be removed, and there are at most 16.
fn with_index(
    indexes: KeyMap<IndexKind>,
    column: Key,
    kind: Option<IndexKind>,
) -> Result<Option<KeyMap<IndexKind>>, AllocError>
    ensures { IfOk result (λ o. o ≡ with_index indexes column kind) }
{
    let is_there = indexes.get(&column).is_some();
    let count = indexes.len();
    let mut after = indexes;
    match kind {
        Some(kind) => {
            if is_there | (count < INDEXES_MOST) {
                after.set(column, kind)?;
                return Ok(Some(after));
            }
            Ok(None)
        }
        None => {
            if is_there {
                after.remove(&column);
                return Ok(Some(after));
            }
            Ok(None)
        }
    }
}

// Makes an index or takes it away, which only a table has.
fn set_index(
    alloc: Global,
    old: Data,
    column: &Blob,
    code: &Blob,
) -> Result<Option<Data>, AllocError>
    ensures { Makes result (set_index (contents_of old) column.now code.now) }
{
    let Data::Table { rows, indexes } = old else {
        return Ok(None);
    };
    if !(column.len() >= 1 && is_part(column.as_slice())) {
        return Ok(None);
    }
    let Some(kind) = index_of(code.as_slice()) else {
        return Ok(None);
    };
    let name = Key::from_slice(alloc, column.as_slice())?;
    let Some(indexes) = with_index(indexes, name, kind)? else {
        return Ok(None);
    };
    Ok(Some(Data::Table { rows, indexes }))
}

// The rows that meet the conditions.
fn matching(alloc: Global, q: &Query, rows: &KeyMap<Pairs>) -> Result<FoundRows, AllocError>
    ensures { IfOk result (λ fs. fs ≡ filter (search.holds q.now) (entries rows.now)) }
{
    let mut found = FoundRows::new(alloc);
    for (key, row) in rows.iter() {
        let one = (Blob::from_slice(alloc, key.as_slice())?, row.copied(alloc)?);
        if holds(alloc, q, &one)? {
            found.push(one)?;
        }
    }
    Ok(found)
}

/// The rows that a query finds, in its order.
#[tactic(auto, unfolding(tc_model::specs::Search::found))]
pub fn found(alloc: Global, q: &Query, rows: &KeyMap<Pairs>) -> Result<FoundRows, AllocError>
    ensures { IfOk result (λ fs. fs ≡ search.found q.now rows.now) }
{
    arrange(alloc, q, matching(alloc, q, rows)?)
}

// The same of a query that isn't needed any more.
fn found_of(alloc: Global, q: Query, rows: &KeyMap<Pairs>) -> Result<FoundRows, AllocError>
    ensures { IfOk result (λ fs. fs ≡ search.found q rows.now) }
{
    let rows_found = found(alloc, &q, rows);
    drop(q);
    rows_found
}

fn keys_found(alloc: Global, rows: &[FoundRow]) -> Result<Blobs, AllocError>
    ensures { IfOk result (λ items. items ≡ map (λ f. f.0) rows.now) }
{
    let mut items = Blobs::new(alloc);
    for row in rows {
        items.push(row.0.copied(alloc)?)?;
    }
    Ok(items)
}

fn texts_found(alloc: Global, rows: &[FoundRow]) -> Result<Blobs, AllocError>
    ensures { IfOk result (λ items. items ≡ flat_map reply_of rows.now) }
{
    let mut items = Blobs::new(alloc);
    for row in rows {
        items.push(row.0.copied(alloc)?)?;
        items.push(row_text(alloc, row.1.as_slice())?)?;
    }
    Ok(items)
}

fn without_found(
    alloc: Global,
    rows: KeyMap<Pairs>,
    found: &[FoundRow],
) -> Result<KeyMap<Pairs>, AllocError>
    ensures { IfOk result (λ m. m ≡ without_rows rows found.now) }
{
    let mut left = rows;
    for row in found {
        left.remove(&Key::from_slice(alloc, row.0.as_slice())?);
    }
    Ok(left)
}

// A number of rows, as its digits.
fn counted(alloc: Global, count: usize) -> Result<Blobs, AllocError>
    ensures { IfOk result (λ items. items ≡ decimal count ∷ []) }
{
    let text = format!(in alloc; "{count}")?;
    let mut items = Blobs::new(alloc);
    items.push(Blob::from_slice(alloc, text.as_bytes())?)?;
    Ok(items)
}

// What is answered of the rows found.
fn items_of(alloc: Global, deed: Deed, found: &[FoundRow]) -> Result<Blobs, AllocError>
    ensures { IfOk result (λ items. items ≡ items_of deed found.now) }
{
    match deed {
        Deed::Keys => Ok(keys_found(alloc, found)?),
        Deed::Get => Ok(texts_found(alloc, found)?),
        Deed::Out => Ok(Blobs::new(alloc)),
        Deed::Count => Ok(counted(alloc, found.len())?),
    }
}

// The rows that are left.
fn rows_left(
    alloc: Global,
    deed: Deed,
    rows: KeyMap<Pairs>,
    found: &[FoundRow],
) -> Result<KeyMap<Pairs>, AllocError>
    ensures { IfOk result (λ left. left ≡ rows_left deed rows found.now) }
{
    match deed {
        Deed::Keys => Ok(rows),
        Deed::Get => Ok(rows),
        Deed::Out => Ok(without_found(alloc, rows, found)?),
        Deed::Count => Ok(rows),
    }
}

// What is done with the rows found.
fn done_with(
    alloc: Global,
    deed: Deed,
    rows: KeyMap<Pairs>,
    indexes: KeyMap<IndexKind>,
    found: &[FoundRow],
) -> Result<Outcome, AllocError>
    ensures { IfOk result (λ o. outcome_seen o ≡ means.done_with deed rows indexes found.now) }
{
    let items = items_of(alloc, deed, found)?;
    let left = rows_left(alloc, deed, rows, found)?;
    Ok(Outcome {
        after: Data::Table {
            rows: left,
            indexes,
        },
        items,
    })
}

// A search of a table.
fn searched(alloc: Global, old: Data, conditions: &Blobs) -> Result<Option<Outcome>, AllocError>
    ensures { IfOk result (λ o. option_map outcome_seen o ≡ meaning (misc.Search conditions.now) (contents_of old)) }
{
    let Some(q) = read_query(alloc, conditions)? else {
        drop(old);
        return Ok(None);
    };
    let Data::Table { rows, indexes } = old else {
        drop(q);
        return Ok(None);
    };
    let deed = q.deed;
    let rows_found = found_of(alloc, q, &rows)?;
    Ok(Some(done_with(alloc, deed, rows, indexes, rows_found.as_slice())?))
}

// Stores the row of a call's columns.
fn put_columns(
    alloc: Global,
    mode: Mode,
    old: Data,
    key: &Blob,
    columns: &Pairs,
) -> Result<Option<Data>, AllocError>
    ensures { IfOk result (λ o. means.changes (option_map contents_of o) ≡ meaning (misc.PutRow mode key.now columns.now) (contents_of old)) }
{
    let Some(row) = row_of_call(alloc, columns.as_slice())? else {
        drop(old);
        return Ok(None);
    };
    store_row(alloc, mode, old, key.as_slice(), row)
}

// What each means.
fn change(alloc: Global, m: &Misc, old: Data) -> Result<Option<Outcome>, AllocError>
    ensures { IfOk result (λ o. option_map outcome_seen o ≡ meaning m.now (contents_of old)) }
{
    match m {
        Misc::Put { mode, key, value } => {
            let after = store(alloc, *mode, old, key.as_slice(), value.as_slice())?;
            Ok(changed(alloc, after))
        }
        Misc::PutRow { mode, key, columns } => {
            let after = put_columns(alloc, *mode, old, key, columns)?;
            Ok(changed(alloc, after))
        }
        Misc::Out { key } => {
            let after = out(alloc, old, key.as_slice())?;
            Ok(changed(alloc, after))
        }
        Misc::PutList { pairs } => {
            let after = put_pairs(alloc, false, old, pairs.as_slice())?;
            Ok(changed(alloc, after))
        }
        Misc::PutDups { pairs } => {
            let after = put_pairs(alloc, true, old, pairs.as_slice())?;
            Ok(changed(alloc, after))
        }
        Misc::OutList { keys } => {
            let after = clear_all(alloc, old, keys.as_slice())?;
            Ok(changed(alloc, Some(after)))
        }
        Misc::PutDup { key, value } => {
            let after = put_last(alloc, old, key.as_slice(), value.as_slice())?;
            Ok(changed(alloc, after))
        }
        Misc::Vanish => Ok(changed(alloc, Some(emptied(alloc, old)))),
        Misc::SetIndex { column, code } => {
            let after = set_index(alloc, old, column, code)?;
            Ok(changed(alloc, after))
        }
        Misc::Search { conditions } => searched(alloc, old, conditions),
        _ => match asked(alloc, m, &old)? {
            Some(items) => Ok(Some(Outcome { after: old, items })),
            None => {
                drop(old);
                Ok(None)
            }
        },
    }
}

/// What a misc request makes of contents, and the elements of its reply; none where it fails.
#[tactic(auto, unfolding(tc_model::specs::Meaning::done))]
pub(crate) fn done(alloc: Global, m: &Misc, old: Data) -> Result<Option<Outcome>, AllocError>
    ensures { IfOk result (λ o. option_map outcome_seen o ≡ done m.now (contents_of old)) }
{
    if !has_short_keys(m) {
        drop(old);
        return Ok(None);
    }
    change(alloc, m, old)
}
