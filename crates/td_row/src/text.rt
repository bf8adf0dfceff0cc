//! A row's text, as it comes and goes on the wire.
ghost use Rattle.std.specs.Prelude.{◌≡◌, ◌++◌, ◌∷◌, ◌≤◌, OnOk, OnErr, IfOk, IsErrOf, Some, None, length};
ghost use Rattle.std.specs.Option.{option_copied};
ghost use Rattle.tc_model.specs.Rows.{row_text, row_of_text};
ghost use Rattle.tc_model.specs.Texts.{parts};
ghost use Rattle.tc_model.specs.Well.{IsRow};
ghost use Rattle.td_row.specs.Spelling.{IsPrefix};
ghost use Rattle.td_row.specs.Texts.{left_parts, left_len};

use crate::row::{Row, RowErr};
use std::alloc::{AllocError, Global};
use tc_base::Blob;

/// The bytes of a text in front of the first zero byte, and those behind it if there is one.
pub fn part_of(text: &[u8]) -> (&[u8], Option<&[u8]>)
    ensures parts { parts text.now ≡ result.0.now ∷ left_parts (option_copied result.1) }
    ensures shorter { left_len (option_copied result.1) ≤ length text.now }
{
    for i in 0..text.len() {
        if text[i] == 0 {
            return (&text[..i], Some(&text[i + 1..]));
        }
    }
    (text, None)
}

// Adds a name and a value with a zero byte between them. An `Err` may have added a part of it.
fn write_pair(name: &[u8], value: &[u8], into: &mut Blob) -> Result<(), AllocError>
    ensures ok { OnOk result (into.new ≡ into.old ++ (name.now ++ 0 ∷ value.now)) }
    ensures err { OnErr result (IsPrefix into.old into.new) }
{
    into.append(name)?;
    into.push(0)?;
    into.append(value)?;
    Ok(())
}

// Adds a row's text behind the bytes that are there. An `Err` may have added a part of it.
fn write_text(row: &Row, into: &mut Blob) -> Result<(), AllocError>
    ensures ok { OnOk result (into.new ≡ into.old ++ row_text row.now) }
    ensures err { OnErr result (IsPrefix into.old into.new) }
    ensures row { IsRow row.now }
{
    if row.len() == 0 {
        return Ok(());
    }
    let (name, value) = row.at(0);
    write_pair(name, value, into)?;
    for i in 1..row.len() {
        let (name, value) = row.at(i);
        into.push(0)?;
        write_pair(name, value, into)?;
    }
    Ok(())
}

impl Row {
    /// The row that a text spells: names and values in turn, with a zero byte between each two parts. An odd last part is dropped, and a name that comes again
    /// gives its value to the earlier place. Bad exactly where a name is empty, or a name or a value too long; Memory where its columns found no room.
    pub fn from_text(alloc: Global, text: &[u8]) -> Result<Row, RowErr>
        ensures row { IfOk result (λ r. row_of_text text.now ≡ Some r) }
        ensures bad { IsErrOf result RowErr.Bad → row_of_text text.now ≡ None }
    {
        let mut row = Row::new(alloc);
        let mut left = Some(text);
        while let Some(front) = left {
            let (name, behind) = part_of(front);
            let Some(behind) = behind else {
                return Ok(row);
            };
            let (value, more) = part_of(behind);
            row.replace(name, value)?;
            left = more;
        }
        Ok(row)
    }

    /// Adds the row's text behind the bytes that are there: names and values in turn, with a zero byte between each two parts. An `Err` changes nothing.
    pub fn to_text(&self, into: &mut Blob) -> Result<(), AllocError>
        ensures ok { OnOk result (into.new ≡ into.old ++ row_text self.now) }
        ensures row { IsRow self.now }
        ensures err { OnErr result (into.new ≡ into.old) }
    {
        let len = into.len();
        if let Err(e) = write_text(self, into) {
            into.truncate(len);
            return Err(e);
        }
        Ok(())
    }
}
