//! The pairs of a table's index, and the answer of a query, as they are defined.
ghost use Rattle.std.specs.Prelude.{◌≡◌, ◌++◌, IfOk, map, flat_map, option_to_list};
ghost use Rattle.tc_base.specs.Lists.{pair};
ghost use Rattle.tc_model.specs.Indexes.{firsts, index_pairs};
ghost use Rattle.tc_model.specs.Rows.{column};

use crate::maps::{Copied, KeyMap};
use crate::rows::column;
use crate::texts::{distinct, tokens};
use std::alloc::{AllocError, Global};
use tc_base::{Blob, Blobs, Key, Pair, Pairs};
use tc_model::IndexKind;

// What an index has of a column's value.
fn firsts(alloc: Global, kind: IndexKind, value: &Blob) -> Result<Blobs, AllocError>
    ensures { IfOk result (λ fs. fs ≡ firsts kind value.now) }
{
    let mut found = Blobs::new(alloc);
    match kind {
        IndexKind::Lexical => {
            found.push(value.copied(alloc)?)?;
            Ok(found)
        }
        IndexKind::Decimal => {
            found.push(value.copied(alloc)?)?;
            Ok(found)
        }
        IndexKind::Token => {
            let all = tokens(alloc, value.as_slice())?;
            distinct(alloc, all.as_slice())
        }
    }
}

// A pair for each of them.
fn push_all(alloc: Global, key: &Key, firsts: &[Blob], front: Pairs) -> Result<Pairs, AllocError>
    ensures { IfOk result (λ ps. ps ≡ front ++ map (λ first. pair first key.now) firsts.now) }
{
    let mut found = front;
    for first in firsts {
        found.push(Pair {
            key: first.copied(alloc)?,
            value: Blob::from_slice(alloc, key.as_slice())?,
        })?;
    }
    Ok(found)
}

// The pairs of a row's column, where the row has it.
fn push_pairs(
    alloc: Global,
    kind: IndexKind,
    key: &Key,
    row: &Pairs,
    name: &[u8],
    front: Pairs,
) -> Result<Pairs, AllocError>
    ensures { IfOk result (λ ps. ps ≡ front ++ map (λ first. pair first key.now) (flat_map (firsts kind) (option_to_list (column row.now name.now)))) }
{
    let Some(value) = column(row.as_slice(), name) else {
        return Ok(front);
    };
    let all = firsts(alloc, kind, value)?;
    push_all(alloc, key, all.as_slice(), front)
}

/// The pairs of what the index has of a column's value and a primary key, of the rows that have the column.
#[tactic(auto, unfolding(tc_model::specs::Indexes::index_pairs))]
pub fn index_pairs(
    alloc: Global,
    rows: &KeyMap<Pairs>,
    name: &[u8],
    kind: IndexKind,
) -> Result<Pairs, AllocError>
    ensures { IfOk result (λ ps. ps ≡ index_pairs rows.now name.now kind) }
{
    let mut found = Pairs::new(alloc);
    for (key, row) in rows.iter() {
        found = push_pairs(alloc, kind, key, row, name, found)?;
    }
    Ok(found)
}
