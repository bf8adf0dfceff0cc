//! The rows of a table as the records of a map.
ghost use Rattle.std.specs.Prelude.{◌≡◌, IfOk, OnOk, IsErrOf};
ghost use Rattle.tc_base.specs.declared.kind.Mode.TheVariants.{Over};
ghost use Rattle.tc_model.specs.Rows.{Row as Columns};
ghost use Rattle.tc_space.specs.Changes.{put_in};
ghost use Rattle.tc_space.specs.Frames.{GivenUp, Keeps};
ghost use Rattle.tc_space.specs.Refusals.{OnFault};
ghost use Rattle.tc_space.specs.Stores.{FullPutIn, ReadyIn, RefusesIn, StaysMap, WritesIn};
ghost use Rattle.td_row.specs.Spelling.{SpellsRow, row_bytes};
ghost use Rattle.tc_model.specs.Well.{IsRow};

use std::alloc::{AllocError, Global};
use tc_base::{Blob, Mode, Steps};
use tc_space::{PutErr, RecErr, Records, Space};
use td_row::Row;

/// The row that bytes are.
pub(crate) fn row_of(alloc: Global, bytes: &[u8]) -> Result<Row, AllocError>
    ensures spells { IfOk result (λ row. SpellsRow bytes.now row) }
    ensures only { IfOk result (λ row. (r : Columns) → SpellsRow bytes.now r → r ≡ row) }
{
    match Row::read(alloc, bytes) {
        Ok(row) => Ok(row),
        Err(_) => Err(AllocError),
    }
}

/// The bytes of a row.
pub(crate) fn bytes_of(alloc: Global, row: &Row) -> Result<Blob, AllocError>
    ensures bytes { IfOk result (λ bytes. bytes ≡ row_bytes row.now) }
    ensures row { OnOk result (IsRow row.now) }
{
    let mut bytes = Blob::new(alloc);
    row.write(&mut bytes)?;
    Ok(bytes)
}

/// A row of the same columns.
pub(crate) fn copy_of(alloc: Global, row: &Row) -> Result<Row, AllocError>
    ensures { IfOk result (λ r. r ≡ row.now) }
{
    let copied = Row::new(alloc).merge(row)?;
    Ok(copied)
}

/// Gives a key these bytes, whatever it has.
pub(crate) fn put_bytes<R: Records>(
    rows: &mut R,
    space: &mut R::S,
    key: &[u8],
    bytes: &[u8],
) -> Result<(), RecErr>
    requires { ReadyIn R.S.Space R.file_of R.holds rows.old space.old }
    ensures put { OnOk result (WritesIn R.S.Space R.file_of R.holds (put_in Over key.now bytes.now) rows.old rows.new space.old space.new) }
    ensures refused { RefusesIn R.S.Space R.file_of R.holds result rows.old rows.new space.old space.new }
    ensures full { IsErrOf result RecErr.Full → FullPutIn R.S.Space R.file_of R.holds R.lacks Over key.now bytes.now rows.old space.old space.new }
    ensures keeps { Keeps R.S.Space space.old space.new }
    ensures stays { StaysMap R.file_of R.sort R.numbers R.region R.lead R.gets rows.old rows.new }
    ensures cause { OnFault R.S.Space result space.old space.new }
{
    let mut steps: Steps<R> = Steps::new();
    match rows.put(space, key, bytes, Mode::Over, &mut steps) {
        Ok(()) => Ok(()),
        Err(PutErr::Full) => Err(RecErr::Full),
        Err(PutErr::Fault) => Err(RecErr::Fault),
        Err(PutErr::Memory) => Err(RecErr::Memory),
        Err(PutErr::Exists) => Err(RecErr::Memory),
    }
}

/// Gives a space up that was written to, so that nothing of it is committed.
pub(crate) fn give_up<S: Space>(space: &mut S)
    ensures { GivenUp S.Space space.old space.new }
{
    space.spoil();
}
