//! The rows that a search reads by its plan: those that an index names, or all.

use crate::kept::ColumnIndex;
use play_text::Wrong;
use std::alloc::{AllocError, Global};
use tc_base::{Blob, Blobs, Cut, Seq, Side};
use tc_model::{Cond, IndexKind, Query};
use td_index::entry_of;
use td_plan::{Indexed, Names, Span, make_plan};
use td_row::Row;
use td_token::{common, tokens};

/// The type of an index by its number.
pub fn kind_of(code: &[u8]) -> Result<IndexKind, Wrong> {
    match code {
        b"0" => Ok(IndexKind::Lexical),
        b"1" => Ok(IndexKind::Decimal),
        b"2" => Ok(IndexKind::Token),
        _ => Err(Wrong::Unread),
    }
}

// The tokens of a text that another has too.
fn shared(alloc: Global, text: &[u8], other: &[u8]) -> Result<Blobs, AllocError> {
    let others = tokens(alloc, other)?;
    common(alloc, tokens(alloc, text)?, others.as_slice())
}

// Whether the index's key of a value and a primary key is looked up, or the value has the tokens that are.
fn is_named(
    alloc: Global,
    span: &Span,
    asked: &[u8],
    value: &[u8],
    key: &[u8],
) -> Result<bool, AllocError> {
    let entry = entry_of(alloc, value, key)?;
    match span {
        Span::Value(cut) => Ok(cut.side(entry.as_slice()) == Side::Inside),
        Span::Begin(cut) => Ok(cut.side(entry.as_slice()) == Side::Inside),
        Span::Number(cut) => Ok(cut.side(entry.as_slice()) == Side::Inside),
        Span::AllTokens => {
            let all = tokens(alloc, asked)?.len();
            Ok(shared(alloc, asked, value)?.len() == all)
        }
        Span::SomeToken => Ok(shared(alloc, asked, value)?.len() >= 1),
    }
}

// Whether a row is read for a condition.
fn is_read(
    alloc: Global,
    span: &Span,
    cond: &Cond,
    row: &Row,
    key: &[u8],
) -> Result<bool, AllocError> {
    match row.get(cond.column.as_slice()) {
        Some(value) => is_named(alloc, span, cond.expression.as_slice(), value, key),
        None => Ok(false),
    }
}

/// The columns and types of indexes.
pub fn names_of(alloc: Global, sides: &[ColumnIndex]) -> Result<Names, AllocError> {
    let mut names: Names = Seq::new(alloc);
    for side in sides {
        let column = Blob::from_slice(alloc, side.tree.name().as_slice())?;
        let kind = side.kind;
        names.push(Indexed { column, kind })?;
    }
    Ok(names)
}

/// Whether a search reads a row, where there are these indexes.
pub fn reads(
    alloc: Global,
    names: &Names,
    q: &Query,
    key: &[u8],
    row: &Row,
) -> Result<bool, AllocError> {
    let Some(plan) = make_plan(alloc, q, names)? else {
        return Ok(true);
    };
    let Some(cond) = q.conds.as_slice().get(plan.choice.cond) else {
        return Ok(false);
    };
    is_read(alloc, &plan.span, cond, row, key)
}
