//! Rows, and their texts.
ghost use Rattle.std.specs.Prelude.{◌≡◌, ◌++◌, ◌∷◌, map, IfOk};
ghost use Rattle.std.specs.List.{list_all, join_with_byte};
ghost use Rattle.std.specs.Option.{option_copied};
ghost use Rattle.tc_model.specs.Rows.{column, has, is_part, is_column, with_column, row_of, pairs_of, texts_of, row_of_text, row_text, is_distinct, row_of_call, with_lacking};
ghost use Rattle.tc_plain.specs.Bodies.{given, lacking};

use crate::maps::Copied;
use crate::texts::parts;
use std::alloc::{AllocError, Global};
use tc_base::{Blob, Blobs, COLUMN_MOST, Pair, Pairs};

/// The value of a row's column, if it has the column.
pub fn column<'a>(row: &'a [Pair], name: &[u8]) -> Option<&'a Blob>
    ensures { option_copied result ≡ column row.now name.now }
{
    for pair in row {
        if pair.key.as_slice() == name {
            return Some(&pair.value);
        }
    }
    None
}

fn has(row: &[Pair], name: &[u8]) -> bool
    ensures { result ≡ has row.now name.now }
{
    column(row, name).is_some()
}

/// Whether a text may be a column's value: at most 1,048,576 bytes, and no zero byte among them.
pub fn is_part(text: &[u8]) -> bool
    ensures { result ≡ is_part text.now }
{
    text.len() <= COLUMN_MOST && !text.contains(&0)
}

fn is_column(pair: &Pair) -> bool
    ensures { result ≡ is_column pair.now }
{
    pair.key.len() >= 1 && (is_part(pair.key.as_slice()) && is_part(pair.value.as_slice()))
}

fn are_columns(pairs: &[Pair]) -> bool
    ensures { result ≡ list_all is_column pairs.now }
{
    for pair in pairs {
        if !is_column(pair) {
            return false;
        }
    }
    true
}

// A column with another value where it has the name of the one given.
fn given_one(alloc: Global, one: &Pair, pair: &Pair) -> Result<Pair, AllocError>
    ensures { IfOk result (λ p. p ≡ given one.now pair.now) }
{
    let value = if pair.key.as_slice() == one.key.as_slice() {
        &one.value
    } else {
        &pair.value
    };
    Ok(Pair {
        key: pair.key.copied(alloc)?,
        value: value.copied(alloc)?,
    })
}

fn given_all(alloc: Global, one: &Pair, row: &[Pair]) -> Result<Pairs, AllocError>
    ensures { IfOk result (λ ps. ps ≡ map (given one.now) row.now) }
{
    let mut found = Pairs::new(alloc);
    for pair in row {
        found.push(given_one(alloc, one, pair)?)?;
    }
    Ok(found)
}

// A name that comes again gives its value to the earlier place.
fn with_column(alloc: Global, row: Pairs, one: &Pair) -> Result<Pairs, AllocError>
    ensures { IfOk result (λ r. r ≡ with_column row one.now) }
{
    if has(row.as_slice(), one.key.as_slice()) {
        return given_all(alloc, one, row.as_slice());
    }
    let mut longer = row;
    longer.push(one.copied(alloc)?)?;
    Ok(longer)
}

// The row of columns, if each is one.
fn row_of(alloc: Global, columns: &[Pair]) -> Result<Option<Pairs>, AllocError>
    ensures { IfOk result (λ r. r ≡ row_of columns.now) }
{
    if !are_columns(columns) {
        return Ok(None);
    }
    let mut row = Pairs::new(alloc);
    for pair in columns {
        row = with_column(alloc, row, pair)?;
    }
    Ok(Some(row))
}

// Texts two by two; an odd last one is dropped.
fn pairs_of(alloc: Global, texts: &[Blob]) -> Result<Pairs, AllocError>
    ensures { IfOk result (λ ps. ps ≡ pairs_of texts.now) }
{
    let mut found = Pairs::new(alloc);
    let mut rest = texts;
    while let [name, value, behind @ ..] = rest {
        found.push(Pair {
            key: name.copied(alloc)?,
            value: value.copied(alloc)?,
        })?;
        rest = behind;
    }
    Ok(found)
}

/// The row that a text spells, if it spells one.
pub fn row_of_text(alloc: Global, text: &[u8]) -> Result<Option<Pairs>, AllocError>
    ensures { IfOk result (λ r. r ≡ row_of_text text.now) }
{
    let texts = parts(alloc, text)?;
    let pairs = pairs_of(alloc, texts.as_slice())?;
    row_of(alloc, pairs.as_slice())
}

/// Keys and values one after the other.
pub fn texts_of(alloc: Global, pairs: &[Pair]) -> Result<Blobs, AllocError>
    ensures { IfOk result (λ ts. ts ≡ texts_of pairs.now) }
{
    let mut found = Blobs::new(alloc);
    for pair in pairs {
        found.push(pair.key.copied(alloc)?)?;
        found.push(pair.value.copied(alloc)?)?;
    }
    Ok(found)
}

/// A row's text: names and values with zero bytes between.
pub fn row_text(alloc: Global, row: &[Pair]) -> Result<Blob, AllocError>
    ensures { IfOk result (λ t. t ≡ row_text row.now) }
{
    let texts = texts_of(alloc, row)?;
    joined(alloc, texts.as_slice())
}

// A text and others with zero bytes between.
fn joined_behind(alloc: Global, first: &[u8], rest: &[Blob]) -> Result<Blob, AllocError>
    ensures { IfOk result (λ t. t ≡ join_with_byte 0 (first.now ∷ rest.now)) }
{
    let mut all = Blob::from_slice(alloc, first)?;
    for text in rest {
        all.push(0)?;
        all.append(text.as_slice())?;
    }
    Ok(all)
}

// Texts with zero bytes between.
fn joined(alloc: Global, texts: &[Blob]) -> Result<Blob, AllocError>
    ensures { IfOk result (λ t. t ≡ join_with_byte 0 texts.now) }
{
    let [first, rest @ ..] = texts else {
        return Ok(Blob::new(alloc));
    };
    joined_behind(alloc, first.as_slice(), rest)
}

// Whether no name comes again.
fn is_distinct(pairs: &[Pair]) -> bool
    ensures { result ≡ is_distinct pairs.now }
{
    let mut left = pairs;
    while let [pair, behind @ ..] = left {
        if has(behind, pair.key.as_slice()) {
            return false;
        }
        left = behind;
    }
    true
}

/// The row of a call's columns, if they make one: no name may come again.
pub fn row_of_call(alloc: Global, columns: &[Pair]) -> Result<Option<Pairs>, AllocError>
    ensures { IfOk result (λ r. r ≡ row_of_call columns.now) }
{
    if !is_distinct(columns) {
        return Ok(None);
    }
    row_of(alloc, columns)
}

// The columns whose names a row lacks.
fn lacking(alloc: Global, row: &[Pair], more: &[Pair], front: Pairs) -> Result<Pairs, AllocError>
    ensures { IfOk result (λ ps. ps ≡ front ++ lacking row.now more.now) }
{
    let mut found = front;
    for pair in more {
        if !has(row, pair.key.as_slice()) {
            found.push(pair.copied(alloc)?)?;
        }
    }
    Ok(found)
}

/// A row with the columns whose names it lacks behind.
pub fn with_lacking(alloc: Global, row: &Pairs, more: &[Pair]) -> Result<Pairs, AllocError>
    ensures { IfOk result (λ r. r ≡ with_lacking row.now more.now) }
{
    lacking(alloc, row.as_slice(), more, row.copied(alloc)?)
}
