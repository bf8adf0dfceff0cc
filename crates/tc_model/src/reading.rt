//! Which misc request a name, a kind and arguments are.
ghost use Rattle.std.specs.Prelude.{◌≡◌, IfOk, true};
ghost use Rattle.tc_model.specs.declared.misc.Misc.TheVariants as misc;
ghost use Rattle.tc_base.specs.declared.seq.Pair.{Pair};
ghost use Rattle.std.specs.Prelude.{List, ℕ};
ghost use Rattle.tc_model.specs.Misc.{misc_of, pick, entries, row_entries, list_entries, other_entries, two, paired, key_and_twos, bounds};
ghost use Rattle.tc_model.specs.Misc as kinds;

use crate::misc::Misc;
use std::alloc::{AllocError, Global};
use tc_base::{Blob, Blobs, Kind, Mode, Pair, Pairs};

fn copied(alloc: Global, text: &Blob) -> Result<Blob, AllocError>
    ensures { IfOk result (λ b. b ≡ text.now) }
{
    Blob::from_slice(alloc, text.as_slice())
}

fn is_tree(kind: Kind) -> bool
    ensures { result ≡ kinds.trees kind }
{
    match kind {
        Kind::Tree | Kind::MemTree => true,
        _ => false,
    }
}

fn is_table(kind: Kind) -> bool
    ensures { result ≡ kinds.tables kind }
{
    match kind {
        Kind::Table => true,
        _ => false,
    }
}

fn is_map(kind: Kind) -> bool
    ensures { result ≡ kinds.maps kind }
{
    match kind {
        Kind::Hash | Kind::MemHash | Kind::Fixed => true,
        _ => false,
    }
}

fn has_values(kind: Kind) -> bool
    ensures { result ≡ kinds.value_kinds kind }
{
    is_map(kind) || is_tree(kind)
}

fn put(alloc: Global, mode: Mode, args: &[Blob]) -> Result<Option<Misc>, AllocError>
    ensures { IfOk result (λ o. o ≡ two (λ key value. misc.Put mode key value) args.now) }
{
    let [key, value] = args else {
        return Ok(None);
    };
    Ok(Some(Misc::Put {
        mode,
        key: copied(alloc, key)?,
        value: copied(alloc, value)?,
    }))
}

fn range(alloc: Global, args: &[Blob]) -> Result<Option<Misc>, AllocError>
    ensures { IfOk result (λ o. o ≡ bounds args.now) }
{
    match args {
        [key, maximum] => Ok(Some(Misc::Range {
            from: copied(alloc, key)?,
            maximum: copied(alloc, maximum)?,
            to: None,
        })),
        [key, maximum, end] => Ok(Some(Misc::Range {
            from: copied(alloc, key)?,
            maximum: copied(alloc, maximum)?,
            to: Some(copied(alloc, end)?),
        })),
        _ => Ok(None),
    }
}

// Two by two, an even number; each text is moved.
fn pairs(alloc: Global, args: Blobs) -> Result<Option<Pairs>, AllocError>
    ensures { IfOk result (λ o. o ≡ paired args) }
{
    let mut found = Vec::with_capacity(alloc, args.len() / 2)?;
    let mut front: Option<Blob> = None;
    for text in args.into_vec() {
        let Some(key) = front.take() else {
            front = Some(text);
            continue;
        };
        found.push(Pair { key, value: text })?;
    }
    if front.is_some() {
        return Ok(None);
    }
    Ok(Some(Pairs::from_vec(found)))
}

fn put_row(alloc: Global, mode: Mode, args: Blobs) -> Result<Option<Misc>, AllocError>
    ensures { IfOk result (λ o. o ≡ key_and_twos (λ key columns. misc.PutRow mode key columns) args) }
{
    let [_, ..] = args.as_slice() else {
        return Ok(None);
    };
    let mut texts = args.into_vec();
    let key = texts.remove(0);
    let Some(columns) = pairs(alloc, Blobs::from_vec(texts))? else {
        return Ok(None);
    };
    Ok(Some(Misc::PutRow { mode, key, columns }))
}

// The last names of the table.
fn read_other(
    alloc: Global,
    name: &[u8],
    args: Blobs,
    kind: Kind,
) -> Result<Option<Misc>, AllocError>
    ensures { IfOk result (λ o. o ≡ pick other_entries name.now kind args) }
{
    if name == b"putdup".as_slice() && is_tree(kind) {
        let [key, value] = args.as_slice() else {
            return Ok(None);
        };
        return Ok(Some(Misc::PutDup {
            key: copied(alloc, key)?,
            value: copied(alloc, value)?,
        }));
    }
    if name == b"range".as_slice() && is_tree(kind) {
        return range(alloc, args.as_slice());
    }
    if name == b"vanish".as_slice() {
        if args.as_slice().is_empty() {
            return Ok(Some(Misc::Vanish));
        }
        return Ok(None);
    }
    if name == b"setindex".as_slice() && is_table(kind) {
        let [column, code] = args.as_slice() else {
            return Ok(None);
        };
        return Ok(Some(Misc::SetIndex {
            column: copied(alloc, column)?,
            code: copied(alloc, code)?,
        }));
    }
    if name == b"search".as_slice() && is_table(kind) {
        return Ok(Some(Misc::Search { conditions: args }));
    }
    Ok(None)
}

// Those and the names of lists.
fn read_list(
    alloc: Global,
    name: &[u8],
    args: Blobs,
    kind: Kind,
) -> Result<Option<Misc>, AllocError>
    ensures { IfOk result (λ o. o ≡ pick list_entries name.now kind args) }
{
    if name == b"putlist".as_slice() && is_map(kind) {
        let Some(pairs) = pairs(alloc, args)? else {
            return Ok(None);
        };
        return Ok(Some(Misc::PutList { pairs }));
    }
    if name == b"putlist".as_slice() && is_tree(kind) {
        let Some(pairs) = pairs(alloc, args)? else {
            return Ok(None);
        };
        return Ok(Some(Misc::PutDups { pairs }));
    }
    if name == b"outlist".as_slice() {
        return Ok(Some(Misc::OutList { keys: args }));
    }
    if name == b"getlist".as_slice() && has_values(kind) {
        return Ok(Some(Misc::GetList { keys: args }));
    }
    read_other(alloc, name, args, kind)
}

// Those and the names of rows.
fn read_row(alloc: Global, name: &[u8], args: Blobs, kind: Kind) -> Result<Option<Misc>, AllocError>
    ensures { IfOk result (λ o. o ≡ pick row_entries name.now kind args) }
{
    if name == b"put".as_slice() && is_table(kind) {
        return put_row(alloc, Mode::Over, args);
    }
    if name == b"putkeep".as_slice() && is_table(kind) {
        return put_row(alloc, Mode::Keep, args);
    }
    if name == b"putcat".as_slice() && is_table(kind) {
        return put_row(alloc, Mode::Cat, args);
    }
    if name == b"get".as_slice() && is_table(kind) {
        let [key] = args.as_slice() else {
            return Ok(None);
        };
        return Ok(Some(Misc::GetRow {
            key: copied(alloc, key)?,
        }));
    }
    read_list(alloc, name, args, kind)
}

fn read_name(
    alloc: Global,
    name: &[u8],
    args: Blobs,
    kind: Kind,
) -> Result<Option<Misc>, AllocError>
    ensures { IfOk result (λ o. o ≡ pick entries name.now kind args) }
{
    if name == b"put".as_slice() && has_values(kind) {
        return put(alloc, Mode::Over, args.as_slice());
    }
    if name == b"putkeep".as_slice() && has_values(kind) {
        return put(alloc, Mode::Keep, args.as_slice());
    }
    if name == b"putcat".as_slice() && has_values(kind) {
        return put(alloc, Mode::Cat, args.as_slice());
    }
    if name == b"get".as_slice() && has_values(kind) {
        let [key] = args.as_slice() else {
            return Ok(None);
        };
        return Ok(Some(Misc::Get {
            key: copied(alloc, key)?,
        }));
    }
    if name == b"out".as_slice() {
        let [key] = args.as_slice() else {
            return Ok(None);
        };
        return Ok(Some(Misc::Out {
            key: copied(alloc, key)?,
        }));
    }
    read_row(alloc, name, args, kind)
}

/// The request that a name and arguments are at a kind, or none where there is no such name, kind or number of arguments.
#[tactic(auto, unfolding(crate::specs::Misc::misc_of))]
pub fn read_misc(
    alloc: Global,
    name: &[u8],
    args: Blobs,
    kind: Kind,
) -> Result<Option<Misc>, AllocError>
    ensures { IfOk result (λ o. o ≡ misc_of name.now args kind) }
{
    read_name(alloc, name, args, kind)
}
