//! A row's bytes in a file.
ghost use Rattle.std.specs.Prelude.{◌≡◌, ◌++◌, OnOk, OnErr, IfOk, IsErrOf, IfSome, IfNone};
ghost use Rattle.tc_base.specs.Lists.{pair};
ghost use Rattle.tc_base.specs.Reading.{Gives};
ghost use Rattle.tc_model.specs.Rows as rows;
ghost use Rattle.tc_model.specs.Well.{IsRow};
ghost use Rattle.td_row.specs.Spelling.{column_bytes, row_bytes, column_at, SpellsRow, AtFront, NoneAt, IsPrefix};

use crate::row::{Row, RowErr, is_column};
use std::alloc::{AllocError, Global};
use tc_base::{Blob, NotWhole, put_vnum, read_bytes, read_two};

// What is read as a column at the front of bytes, its name and its value, and the bytes behind it.
#[tactic(auto, unfolding(crate::specs::Spelling::column_at))]
fn read_column(bytes: &[u8]) -> Result<(&[u8], &[u8], &[u8]), NotWhole>
    ensures { Gives (λ x. (pair x.0.now x.1.now, x.2.now)) result (column_at bytes.now) }
{
    let (name_size, value_size, rest) = read_two(bytes)?;
    let (name, rest) = read_bytes(name_size as usize, rest)?;
    let (value, rest) = read_bytes(value_size as usize, rest)?;
    Ok((name, value, rest))
}

// The column at the front of bytes, if one stands there, and the bytes behind it.
fn column_of(bytes: &[u8]) -> Option<(&[u8], &[u8], &[u8])>
    ensures found { IfSome result (λ x. AtFront bytes.now (pair x.0.now x.1.now) x.2.now) }
    ensures none { IfNone result (NoneAt bytes.now) }
{
    let Ok((name, value, rest)) = read_column(bytes) else {
        return None;
    };
    if !is_column(name, value) {
        return None;
    }
    Some((name, value, rest))
}

// Adds a column's bytes behind those that are there. An `Err` may have added some.
fn write_column(name: &[u8], value: &[u8], into: &mut Blob) -> Result<(), AllocError>
    ensures ok { OnOk result (into.new ≡ into.old ++ column_bytes (pair name.now value.now)) }
    ensures err { OnErr result (IsPrefix into.old into.new) }
{
    put_vnum(name.len() as u64, into)?;
    put_vnum(value.len() as u64, into)?;
    into.append(name)?;
    into.append(value)?;
    Ok(())
}

// The same of all columns.
fn write_columns(row: &Row, into: &mut Blob) -> Result<(), AllocError>
    ensures ok { OnOk result (into.new ≡ into.old ++ row_bytes row.now) }
    ensures err { OnErr result (IsPrefix into.old into.new) }
    ensures row { IsRow row.now }
{
    for i in 0..row.len() {
        let (name, value) = row.at(i);
        write_column(name, value, into)?;
    }
    Ok(())
}

impl Row {
    /// The row that the bytes are, the last byte included. Bad exactly where they are no row's; Memory where its columns found no room.
    pub fn read(alloc: Global, bytes: &[u8]) -> Result<Row, RowErr>
        ensures found { IfOk result (λ r. SpellsRow bytes.now r) }
        ensures only { IfOk result (λ r. (s : rows.Row) → SpellsRow bytes.now s → s ≡ r) }
        ensures bad { IsErrOf result RowErr.Bad → (s : rows.Row) → SpellsRow bytes.now s → ⊥ }
    {
        let mut row = Row::new(alloc);
        let mut rest = bytes;
        while !rest.is_empty() {
            let Some((name, value, behind)) = column_of(rest) else {
                return Err(RowErr::Bad);
            };
            if !row.put(name, value)? {
                return Err(RowErr::Bad);
            }
            rest = behind;
        }
        Ok(row)
    }

    /// Adds the row's bytes behind those that are there. An `Err` changes nothing.
    pub fn write(&self, into: &mut Blob) -> Result<(), AllocError>
        ensures ok { OnOk result (into.new ≡ into.old ++ row_bytes self.now) }
        ensures row { IsRow self.now }
        ensures err { OnErr result (into.new ≡ into.old) }
    {
        let len = into.len();
        if let Err(e) = write_columns(self, into) {
            into.truncate(len);
            return Err(e);
        }
        Ok(())
    }
}
