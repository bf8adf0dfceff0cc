//! Rows that come and go, one after the other.
#![tactic(auto, using(tc_space::specs::Frames::keeps_refl, tc_space::specs::Frames::keeps_then, tc_table::proofs::Holding::table_stays, tc_table::proofs::Holding::stays_then))]

ghost use Rattle.std.specs.Prelude.{◌≡◌, false, map, nat_le, length, Some, None, IfOk, IsErrOf, OnErr, OnOk, if◌then◌else◌};
ghost use Rattle.tc_model.specs.Rows.{row_of_call, row_of_text};
ghost use Rattle.tc_space.specs.Frames.{GivenUp, Keeps};
ghost use Rattle.tc_space.specs.Refusals.{OnFault};
ghost use Rattle.tc_space.specs.Stores.{IsReady};
ghost use Rattle.tc_table.specs.Tables.{Holds, StaysTable};
ghost use Rattle.tc_tabledb.specs.Changing.{DropsAll, FullEach};

use std::alloc::{AllocError, Global};
use tc_base::{Blob, Blobs, Pair};
use tc_space::{Multi, RecErr, Records, Space};
use tc_table::Table;
use td_query::FoundRows;
use td_row::{Row, RowErr};

/// The row that a text spells, if it spells one.
pub(crate) fn read_text(alloc: Global, text: &[u8]) -> Result<Option<Row>, AllocError>
    ensures { IfOk result (λ row. row ≡ row_of_text text.now) }
{
    match Row::from_text(alloc, text) {
        Ok(row) => Ok(Some(row)),
        Err(RowErr::Bad) => Ok(None),
        Err(RowErr::Memory) => Err(AllocError),
    }
}

/// The row of the columns of a call, if they are one's.
pub(crate) fn read_columns(alloc: Global, columns: &[Pair]) -> Result<Option<Row>, AllocError>
    ensures { IfOk result (λ row. row ≡ row_of_call columns.now) }
{
    match Row::from_columns(alloc, columns) {
        Ok(row) => Ok(Some(row)),
        Err(RowErr::Bad) => Ok(None),
        Err(RowErr::Memory) => Err(AllocError),
    }
}

/// What was counted of the bytes, unless something was changed.
pub(crate) fn uncounted(changed: bool, total: Option<u64>) -> Option<u64>
    ensures { result ≡ (if changed then None else total) }
{
    if changed {
        return None;
    }
    total
}

/// Gives a space up that was written to, so that nothing of it is committed.
pub(crate) fn give_up<S: Space>(space: &mut S)
    ensures { GivenUp S.Space space.old space.new }
{
    space.spoil();
}

/// The primary keys of rows that were found.
pub(crate) fn found_keys(alloc: Global, found: &FoundRows) -> Result<Blobs, AllocError>
    ensures { IfOk result (λ keys. keys ≡ map (λ f. f.0) found.now) }
{
    let mut keys = Blobs::new(alloc);
    for row in found.as_slice() {
        keys.push(Blob::from_slice(alloc, row.0.as_slice())?)?;
    }
    Ok(keys)
}

// Takes the row of each of these keys out that has one. After a refusal those of the first ones may be gone.
fn drop_some<R: Records, L: Multi<S = R::S>, D: Multi<S = R::S>>(
    table: &mut Table<R, L, D>,
    space: &mut R::S,
    row_keys: &[Blob],
) -> Result<(), RecErr>
    requires { IsReady R.S.Space (Holds R.S.Space R.Records L.Multi D.Multi) table.old space.old }
    ensures drops { OnOk result (DropsAll R.S.Space R.Records L.Multi D.Multi row_keys.now table.old table.new space.old space.new) }
    ensures full { IsErrOf result RecErr.Full → FullEach R.S.Space R.Records L.Multi D.Multi L.O.cmp D.O.cmp row_keys.now table.old space.old space.new }
    ensures keeps { Keeps R.S.Space space.old space.new }
    ensures stays { StaysTable R.Records L.Multi D.Multi table.old table.new }
    ensures cause { OnFault R.S.Space result space.old space.new }
{
    for i in 0..row_keys.len() {
        let _had = table.out(space, row_keys[i].as_slice())?;
    }
    Ok(())
}

/// The same. After a refusal the space isn't sound.
pub(crate) fn drop_each<R: Records, L: Multi<S = R::S>, D: Multi<S = R::S>>(
    table: &mut Table<R, L, D>,
    space: &mut R::S,
    row_keys: &[Blob],
) -> Result<(), RecErr>
    requires { IsReady R.S.Space (Holds R.S.Space R.Records L.Multi D.Multi) table.old space.old }
    ensures drops { OnOk result (DropsAll R.S.Space R.Records L.Multi D.Multi row_keys.now table.old table.new space.old space.new) }
    ensures spoiled { OnErr result (R.S.flag space.new ≡ false) }
    ensures full { IsErrOf result RecErr.Full → FullGiven R.S.Space R.Records L.Multi D.Multi L.O.cmp D.O.cmp row_keys.now table.old space.old space.new }
    ensures keeps { Keeps R.S.Space space.old space.new }
    ensures stays { StaysTable R.Records L.Multi D.Multi table.old table.new }
    ensures cause { OnFault R.S.Space result space.old space.new }
{
    match drop_some(table, space, row_keys) {
        Ok(()) => Ok(()),
        Err(e) => {
            give_up(space);
            Err(e)
        }
    }
}

ghost use Rattle.tc_tabledb.specs.Changing.{FullGiven};
