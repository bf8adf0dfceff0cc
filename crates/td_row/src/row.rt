//! A row.
ghost use Rattle.std.specs.Prelude.{◌≡◌, ◌⊎◌, ◌<◌, ◌∷◌, ◌++◌, [], length, not, slice_get, Some, IfOk, OnOk, OnErr, IsErrOf, true, false};
ghost use Rattle.std.specs.Option.{option_copied};
ghost use Rattle.tc_base.specs.Lists.{pair};
ghost use Rattle.tc_model.specs.Rows.{column, has, is_part, is_column, with_column};
ghost use Rattle.tc_model.specs.Well.{IsRow};
ghost use Rattle.td_row.specs.Spelling.{IsColumn};

use indexmap::IndexMap;
use std::alloc::{AllocError, Global};
use std::marker::Model;
use tc_base::{Blob, COLUMN_MOST};
use thiserror::Error;

/// Why no row is made.
#[derive(Clone, Copy, Debug, PartialEq, Eq, Error)]
pub enum RowErr {
    /// It is no row's, or no column.
    #[error("not a row")]
    Bad,
    /// There was no memory for what the row holds.
    #[error("out of memory")]
    Memory,
}

impl From<AllocError> for RowErr {
    ghost use Rattle.td_row.specs.declared.row.RowErr.TheVariants.{Memory as is_memory};

    ghost from_gives = { λ _ e. e ≡ is_memory };

    fn from(_: AllocError) -> Self {
        RowErr::Memory
    }
}

/// Columns in order, each a name and a value. No name comes twice or is empty; neither names nor values hold a zero byte, and each has
/// at most 1,048,576 bytes. A column is found by the hash of its name.
#[derive(Drop)]
pub struct Row {
    alloc: Global,
    pub(crate) columns: IndexMap<Vec<u8>, Blob>,
}

impl Model for Row {
    ghost use Rattle.std.specs.Prelude.{map};
    ghost use Rattle.tc_base.specs.Lists.{pair};
    ghost use Rattle.tc_model.specs.Rows.{Row as Columns};
    ghost use Rattle.tc_model.specs.Well.{IsRow};

    ghost Value = { Columns };

    ghost view = { λ r. map (λ e. pair e.0.items e.1) r.columns.entries };

    ghost invariant = { λ r. IsRow (map (λ e. pair e.0.items e.1) r.columns.entries) };
}

// Whether a text may be a column's value: at most 1,048,576 bytes, and no zero byte among them.
fn is_part(text: &[u8]) -> bool
    ensures { result ≡ is_part text.now }
{
    text.len() <= COLUMN_MOST && !text.contains(&0)
}

// Whether a name and a value may be a column: the name isn't empty.
pub(crate) fn is_column(name: &[u8], value: &[u8]) -> bool
    ensures { result ≡ is_column (pair name.now value.now) }
{
    name.len() >= 1 && (is_part(name) && is_part(value))
}

impl Row {
    /// A row without columns, which takes no memory.
    pub fn new(alloc: Global) -> Row
        ensures { result ≡ [] }
    {
        Row {
            alloc,
            columns: IndexMap::new(alloc),
        }
    }

    // The value of the column of that name, as it is held.
    fn find(&self, name: &[u8]) -> Option<&Blob>
        ensures value { option_copied result ≡ column self.now name.now }
        ensures row { IsRow self.now }
    {
        self.columns.get(name)
    }

    /// The value of the column of that name, if there is one.
    pub fn get(&self, name: &[u8]) -> Option<&[u8]>
        ensures value { option_copied result ≡ column self.now name.now }
        ensures row { IsRow self.now }
    {
        match self.find(name) {
            Some(value) => Some(value.as_slice()),
            None => None,
        }
    }

    // Whether there is a column of that name.
    pub(crate) fn has(&self, name: &[u8]) -> bool
        ensures { result ≡ has self.now name.now }
    {
        self.find(name).is_some()
    }

    /// How many columns there are.
    pub fn len(&self) -> usize
        ensures len { result ≡ length self.now }
        ensures row { IsRow self.now }
    {
        self.columns.len()
    }

    /// The name and the value of the column at a place, counted from 0.
    pub fn at(&self, place: usize) -> (&[u8], &[u8])
        requires { place < length self.now }
        ensures { slice_get self.now place ≡ Some (pair result.0.now result.1.now) }
    {
        match self.columns.get_index(place) {
            Some((name, value)) => (name.as_slice(), value.as_slice()),
            None => (&[], &[]),
        }
    }

    // Sets a column, and says whether its name is new. An `Err` changes nothing.
    pub(crate) fn set(&mut self, name: Vec<u8>, value: Blob) -> Result<bool, AllocError>
        requires { IsColumn (pair name.items value) }
        ensures set { OnOk result (self.new ≡ with_column self.old (pair name.items value)) }
        ensures new { IfOk result (λ new. new ≡ not (has self.old name.items)) }
        ensures err { OnErr result (self.new ≡ self.old) }
    {
        let Ok(old) = self.columns.insert(name, value) else {
            return Err(AllocError);
        };
        Ok(old.is_none())
    }

    // The same of a copy of a name and a value.
    pub(crate) fn put(&mut self, name: &[u8], value: &[u8]) -> Result<bool, AllocError>
        requires { IsColumn (pair name.now value.now) }
        ensures set { OnOk result (self.new ≡ with_column self.old (pair name.now value.now)) }
        ensures new { IfOk result (λ new. new ≡ not (has self.old name.now)) }
        ensures err { OnErr result (self.new ≡ self.old) }
    {
        let name = Vec::from_slice(self.alloc, name)?;
        let value = Blob::from_slice(self.alloc, value)?;
        self.set(name, value)
    }

    /// Adds a column behind the others. Bad exactly where the name is empty, one of both is too long or has a zero byte, or a column has the name; Memory where
    /// it found no room. An `Err` changes nothing.
    pub fn add(&mut self, name: &[u8], value: &[u8]) -> Result<(), RowErr>
        ensures added { OnOk result (self.new ≡ self.old ++ pair name.now value.now ∷ []) }
        ensures column { OnOk result ((is_column (pair name.now value.now) ≡ true) × (has self.old name.now ≡ false)) }
        ensures bad { IsErrOf result RowErr.Bad → (is_column (pair name.now value.now) ≡ false) ⊎ (has self.old name.now ≡ true) }
        ensures err { OnErr result (self.new ≡ self.old) }
    {
        if !is_column(name, value) {
            return Err(RowErr::Bad);
        }
        if self.has(name) {
            return Err(RowErr::Bad);
        }
        self.put(name, value)?;
        Ok(())
    }

    // Sets a column: a new one comes last, and a name that is there keeps its place. Bad exactly where the name is empty, or one of both is too long or has
    // a zero byte. An `Err` changes nothing.
    pub(crate) fn replace(&mut self, name: &[u8], value: &[u8]) -> Result<(), RowErr>
        ensures column { OnOk result (is_column (pair name.now value.now) ≡ true) }
        ensures added { OnOk result (self.new ≡ with_column self.old (pair name.now value.now)) }
        ensures bad { IsErrOf result RowErr.Bad → is_column (pair name.now value.now) ≡ false }
        ensures err { OnErr result (self.new ≡ self.old) }
    {
        if !is_column(name, value) {
            return Err(RowErr::Bad);
        }
        self.put(name, value)?;
        Ok(())
    }
}
