//! Rows made of columns that are given, or of another row's.
ghost use Rattle.std.specs.Prelude.{◌≡◌, ◌++◌, ◌∷◌, [], IfOk, OnOk, IsErrOf, Some, None, if◌then◌else◌};
ghost use Rattle.tc_base.specs.Lists.{pair};
ghost use Rattle.tc_model.specs.Rows.{has, row_of_call, with_lacking};
ghost use Rattle.td_row.specs.Spelling.{IsColumn};

use crate::row::{Row, RowErr, is_column};
use std::alloc::{AllocError, Global};
use tc_base::Pair;

impl Row {
    /// The row of columns, each a name and a value. Bad exactly where one of them may be no column, or a name comes again; Memory where they found no room.
    pub fn from_columns(alloc: Global, columns: &[Pair]) -> Result<Row, RowErr>
        ensures row { IfOk result (λ r. row_of_call columns.now ≡ Some r) }
        ensures bad { IsErrOf result RowErr.Bad → row_of_call columns.now ≡ None }
    {
        let mut row = Row::new(alloc);
        for column in columns {
            let (name, value) = (column.key.as_slice(), column.value.as_slice());
            if !is_column(name, value) {
                return Err(RowErr::Bad);
            }
            if !row.put(name, value)? {
                return Err(RowErr::Bad);
            }
        }
        Ok(row)
    }

    // Adds a column, unless its name is there. An `Err` changes nothing.
    fn put_lacking(&mut self, name: &[u8], value: &[u8]) -> Result<(), AllocError>
        requires { IsColumn (pair name.now value.now) }
        ensures { OnOk result (self.new ≡ (if has self.old name.now then self.old else self.old ++ pair name.now value.now ∷ [])) }
    {
        if self.has(name) {
            return Ok(());
        }
        self.put(name, value)?;
        Ok(())
    }

    /// This row, and behind it the columns of another whose names it lacks; its own stay.
    pub fn merge(self, more: &Row) -> Result<Row, AllocError>
        ensures { IfOk result (λ r. r ≡ with_lacking self more.now) }
    {
        let mut row = self;
        for i in 0..more.len() {
            let (name, value) = more.at(i);
            row.put_lacking(name, value)?;
        }
        Ok(row)
    }
}
