//! What is read of the rows of a table.
#![tactic(auto, using(tc_space::specs::Frames::keeps_refl, tc_space::specs::Frames::keeps_then, tc_space::specs::Frames::reads_refl, tc_space::specs::Frames::reads_then, tc_engine::specs::Rows::extends_refl, tc_engine::specs::Rows::extends_then, tc_table::proofs::Holding::stays_then))]

ghost use Rattle.std.specs.Prelude.{◌≡◌, ◌+◌, IfOk, IfSome, OnOk, map, option_map, length};
ghost use Rattle.std.specs.FinMap.{get, keys};
ghost use Rattle.tc_engine.specs.Changes.{first_of};
ghost use Rattle.tc_engine.specs.Rows.{Adds, AreItems, Extends, item_row};
ghost use Rattle.tc_model.specs.Contents.{Rows as RowMap};
ghost use Rattle.tc_model.specs.Rows.{row_text, texts_of};
ghost use Rattle.tc_model.specs.Stores.{bytes_of};
ghost use Rattle.tc_space.specs.Frames.{Keeps, Reads};
ghost use Rattle.tc_space.specs.Refusals.{Blames};
ghost use Rattle.tc_space.specs.Stores.{IsReady};
ghost use Rattle.tc_table.specs.Tables.{Holds, StaysTable};
ghost use Rattle.tc_treedb.specs.Taking.{beginning};
ghost use Rattle.tc_tabledb.specs.Reading.{ReadsTable, bytes_at, size_of_rows, sized_under};

use std::alloc::{AllocError, Global};
use tc_base::{Blob, Key, Keys};
use tc_engine::Rows;
use tc_hashdb::{add_items, add_texts, beginning, key_list};
use tc_space::{Multi, RecErr, Records};
use tc_table::Table;
use td_row::Row;

/// The text of a row.
pub(crate) fn text_of(alloc: Global, row: &Row) -> Result<Blob, AllocError>
    ensures { IfOk result (λ text. text ≡ row_text row.now) }
{
    let mut text = Blob::new(alloc);
    row.to_text(&mut text)?;
    Ok(text)
}

/// The text of the row of a primary key, if it has one.
pub(crate) fn text_at<R: Records, L: Multi<S = R::S>, D: Multi<S = R::S>>(
    alloc: Global,
    table: &mut Table<R, L, D>,
    space: &mut R::S,
    key: &[u8],
) -> Result<Option<Blob>, RecErr>
    requires { IsReady R.S.Space (Holds R.S.Space R.Records L.Multi D.Multi) table.old space.old }
    ensures text { IfOk result (λ found. (rows : RowMap) → Holds R.S.Space R.Records L.Multi D.Multi table.old space.old rows → found ≡ option_map row_text (get rows key.now)) }
    ensures reads { ReadsTable R.S.Space R.Records L.Multi D.Multi table.old table.new space.old space.new }
    ensures keeps { Keeps R.S.Space space.old space.new }
    ensures cause { Blames R.S.Space result space.old space.new }
{
    let Some(row) = table.get(space, key)? else {
        return Ok(None);
    };
    let text = text_of(alloc, &row)?;
    Ok(Some(text))
}

// Adds the names and values of a row as rows.
fn add_columns(row: &Row, into: &mut Rows) -> Result<(), AllocError>
    ensures added { OnOk result (Adds into.old into.new (map item_row (texts_of row.now))) }
    ensures front { Extends into.old into.new }
{
    for i in 0..row.len() {
        let (name, value) = row.at(i);
        add_items(name, value, into)?;
    }
    Ok(())
}

/// Adds the names and values of the row of a primary key as rows, and answers whether there is one.
pub(crate) fn add_row<R: Records, L: Multi<S = R::S>, D: Multi<S = R::S>>(
    table: &mut Table<R, L, D>,
    space: &mut R::S,
    key: &[u8],
    into: &mut Rows,
) -> Result<bool, RecErr>
    requires { IsReady R.S.Space (Holds R.S.Space R.Records L.Multi D.Multi) table.old space.old }
    ensures added { IfOk result (λ found. (m : RowMap) → Holds R.S.Space R.Records L.Multi D.Multi table.old space.old m → AreItems (option_map texts_of (get m key.now)) found into.old into.new) }
    ensures front { Extends into.old into.new }
    ensures reads { ReadsTable R.S.Space R.Records L.Multi D.Multi table.old table.new space.old space.new }
    ensures keeps { Keeps R.S.Space space.old space.new }
    ensures cause { Blames R.S.Space result space.old space.new }
{
    let Some(row) = table.get(space, key)? else {
        return Ok(false);
    };
    add_columns(&row, into)?;
    Ok(true)
}

// So many bytes and those of two texts, while they have 64 bits.
fn plus(bytes: u64, first: usize, second: usize) -> Option<u64>
    ensures { IfSome result (λ n. n ≡ bytes + first + second) }
{
    bytes.checked_add(first as u64)?.checked_add(second as u64)
}

// The bytes of all names and values of a row, while they have 64 bits.
fn row_size(row: &Row) -> Option<u64>
    ensures { IfSome result (λ n. n ≡ bytes_of (texts_of row.now)) }
{
    let mut total: u64 = 0;
    for i in 0..row.len() {
        let (name, value) = row.at(i);
        total = plus(total, name.len(), value.len())?;
    }
    Some(total)
}

// The bytes of the names and values of the row of a primary key, none where it has none.
fn size_at<R: Records, L: Multi<S = R::S>, D: Multi<S = R::S>>(
    table: &mut Table<R, L, D>,
    space: &mut R::S,
    key: &[u8],
) -> Result<u64, RecErr>
    requires { IsReady R.S.Space (Holds R.S.Space R.Records L.Multi D.Multi) table.old space.old }
    ensures size { IfOk result (λ n. (rows : RowMap) → Holds R.S.Space R.Records L.Multi D.Multi table.old space.old rows → n ≡ bytes_at rows key.now) }
    ensures reads { ReadsTable R.S.Space R.Records L.Multi D.Multi table.old table.new space.old space.new }
    ensures keeps { Keeps R.S.Space space.old space.new }
    ensures cause { Blames R.S.Space result space.old space.new }
{
    let Some(row) = table.get(space, key)? else {
        return Ok(0);
    };
    let Some(size) = row_size(&row) else {
        return Err(RecErr::Memory);
    };
    Ok(size)
}

// So many bytes with those of a primary key and of its row, while they have 64 bits.
fn plus_row(bytes: u64, key: usize, row: u64) -> Option<u64>
    ensures { IfSome result (λ n. n ≡ bytes + key + row) }
{
    bytes.checked_add(key as u64)?.checked_add(row)
}

// The bytes of these primary keys, and of the names and values of their rows.
fn bytes_under<R: Records, L: Multi<S = R::S>, D: Multi<S = R::S>>(
    table: &mut Table<R, L, D>,
    space: &mut R::S,
    row_keys: &[Blob],
) -> Result<u64, RecErr>
    requires { IsReady R.S.Space (Holds R.S.Space R.Records L.Multi D.Multi) table.old space.old }
    ensures size { IfOk result (λ n. (rows : RowMap) → Holds R.S.Space R.Records L.Multi D.Multi table.old space.old rows → n ≡ sized_under rows row_keys.now) }
    ensures reads { ReadsTable R.S.Space R.Records L.Multi D.Multi table.old table.new space.old space.new }
    ensures keeps { Keeps R.S.Space space.old space.new }
    ensures cause { Blames R.S.Space result space.old space.new }
{
    let mut total: u64 = 0;
    for i in 0..row_keys.len() {
        let key = row_keys[i].as_slice();
        let size = size_at(table, space, key)?;
        let Some(sum) = plus_row(total, key.len(), size) else {
            return Err(RecErr::Memory);
        };
        total = sum;
    }
    Ok(total)
}

/// The bytes of all primary keys, names and values.
pub(crate) fn all_bytes<R: Records, L: Multi<S = R::S>, D: Multi<S = R::S>>(
    table: &mut Table<R, L, D>,
    space: &mut R::S,
) -> Result<u64, RecErr>
    requires { IsReady R.S.Space (Holds R.S.Space R.Records L.Multi D.Multi) table.old space.old }
    ensures size { IfOk result (λ n. (rows : RowMap) → Holds R.S.Space R.Records L.Multi D.Multi table.old space.old rows → n ≡ size_of_rows rows) }
    ensures reads { ReadsTable R.S.Space R.Records L.Multi D.Multi table.old table.new space.old space.new }
    ensures keeps { Keeps R.S.Space space.old space.new }
    ensures cause { Blames R.S.Space result space.old space.new }
{
    let row_keys = table.keys(space)?;
    let total = bytes_under(table, space, row_keys.as_slice())?;
    Ok(total)
}

/// The primary keys, in order.
pub(crate) fn all_keys<R: Records, L: Multi<S = R::S>, D: Multi<S = R::S>>(
    alloc: Global,
    table: &mut Table<R, L, D>,
    space: &mut R::S,
) -> Result<Keys, RecErr>
    requires { IsReady R.S.Space (Holds R.S.Space R.Records L.Multi D.Multi) table.old space.old }
    ensures keys { IfOk result (λ found. (rows : RowMap) → Holds R.S.Space R.Records L.Multi D.Multi table.old space.old rows → found ≡ keys rows) }
    ensures reads { ReadsTable R.S.Space R.Records L.Multi D.Multi table.old table.new space.old space.new }
    ensures keeps { Keeps R.S.Space space.old space.new }
    ensures cause { Blames R.S.Space result space.old space.new }
{
    let all = table.keys(space)?;
    let found = key_list(alloc, all)?;
    Ok(found)
}

/// Adds the primary keys that begin with a prefix as rows, in order, at most so many.
pub(crate) fn add_keys<R: Records, L: Multi<S = R::S>, D: Multi<S = R::S>>(
    alloc: Global,
    table: &mut Table<R, L, D>,
    space: &mut R::S,
    prefix: &[u8],
    most: Option<u64>,
    into: &mut Rows,
) -> Result<(), RecErr>
    requires { IsReady R.S.Space (Holds R.S.Space R.Records L.Multi D.Multi) table.old space.old }
    ensures rows { OnOk result ((m : RowMap) → Holds R.S.Space R.Records L.Multi D.Multi table.old space.old m → Adds into.old into.new (map item_row (first_of most (beginning prefix.now (keys m))))) }
    ensures front { Extends into.old into.new }
    ensures reads { ReadsTable R.S.Space R.Records L.Multi D.Multi table.old table.new space.old space.new }
    ensures keeps { Keeps R.S.Space space.old space.new }
    ensures cause { Blames R.S.Space result space.old space.new }
{
    let all = table.keys(space)?;
    let found = beginning(alloc, all, prefix, most)?;
    add_texts(found.as_slice(), into)?;
    Ok(())
}
