//! A table in memory, whose records count their gets.
ghost use Rattle.std.specs.Prelude.{◌≡◌, true, OnOk};

use crate::texts::add_text;
use bt_order::All;
use play_text::{Why, Wrong};
use std::alloc::{AllocError, Global};
use tc_base::{Blob, Blobs, Decimal, Form, Lexical, Mode, Pairs, Steps};
use tc_memstores::{MemMulti, MemRecords, OneFile};
use tc_model::{IndexKind, Query};
use tc_space::{Multi, RecErr, Records, Space};
use tc_table::{Side, Sorted, Table};
use td_index::Index;
use td_query::FoundRows;
use td_row::Row;

type Lexicals = MemMulti<OneFile, Lexical>;

type Decimals = MemMulti<OneFile, Decimal>;

/// One of its indexes.
pub type ColumnIndex = Side<Lexicals, Decimals>;

fn refused(e: RecErr) -> Wrong {
    match e {
        RecErr::Full => Wrong::Not(Why::Limit),
        RecErr::Fault => Wrong::Not(Why::Fault),
        RecErr::Memory => Wrong::Memory,
    }
}

// The space may be used.
fn usable(space: &OneFile) -> Result<(), Wrong>
    ensures { OnOk result (space.now.sound ≡ true) }
{
    if space.is_sound() {
        Ok(())
    } else {
        Err(Wrong::Not(Why::Fault))
    }
}

// All pairs of an index's tree, in its order.
fn pairs_of<M: Multi<S = OneFile>>(tree: &mut M, space: &mut OneFile) -> Result<Pairs, Wrong> {
    usable(space)?;
    let mut steps: Steps<()> = Steps::new();
    tree.range(space, &All, u64::MAX, &mut steps)
        .map_err(refused)
}

// Those of an index.
fn pairs_in(side: &mut ColumnIndex, space: &mut OneFile) -> Result<Pairs, Wrong> {
    match &mut side.tree {
        Sorted::Lexical(index) => pairs_of(&mut index.tree, space),
        Sorted::Decimal(index) => pairs_of(&mut index.tree, space),
    }
}

// A text with a slash for each zero byte.
fn slashed(alloc: Global, text: &[u8]) -> Result<Blob, AllocError> {
    let mut all = Blob::new(alloc);
    for byte in text {
        all.push(if *byte == 0 { b'/' } else { *byte })?;
    }
    Ok(all)
}

// Adds the keys of pairs.
fn add_keys(alloc: Global, all: &mut Blob, pairs: &Pairs) -> Result<(), AllocError> {
    for pair in pairs.as_slice() {
        let key = slashed(alloc, pair.key.as_slice())?;
        add_text(all, b' ', key.as_slice())?;
    }
    Ok(())
}

/// A table in memory, and the number of the file that its next index has.
#[derive(Drop)]
pub struct Kept {
    alloc: Global,
    table: Table<MemRecords<OneFile>, Lexicals, Decimals>,
    space: OneFile,
    free: u32,
}

impl Kept {
    /// One without rows and indexes.
    pub fn new(alloc: Global) -> Kept {
        Kept {
            alloc,
            table: Table::over(alloc, MemRecords::new(alloc, 0)),
            space: OneFile::of(Vec::new(alloc)),
            free: 3,
        }
    }

    /// How many rows there are.
    pub fn count(&self) -> u64 {
        self.table.count()
    }

    /// How many rows were got so far.
    pub fn gets(&self) -> u64 {
        self.table.rows.gets()
    }

    /// Its indexes.
    pub fn sides(&self) -> &[ColumnIndex] {
        self.table.sides.as_slice()
    }

    /// Gives a primary key a row.
    pub fn put(&mut self, key: &[u8], row: Row) -> Result<(), Wrong> {
        usable(&self.space)?;
        let put = self.table.put(&mut self.space, Mode::Over, key, row);
        if put.map_err(refused)? {
            return Ok(());
        }
        Err(Wrong::Not(Why::Refused))
    }

    /// The row of a primary key, if it has one.
    pub fn get(&mut self, key: &[u8]) -> Result<Option<Row>, Wrong> {
        usable(&self.space)?;
        self.table.get(&mut self.space, key).map_err(refused)
    }

    /// The bytes that are kept of it.
    pub fn bytes(&mut self, key: &[u8]) -> Result<Option<Blob>, Wrong> {
        usable(&self.space)?;
        let mut steps: Steps<()> = Steps::new();
        let found = self.table.rows.get(&mut self.space, key, &mut steps);
        found.map_err(refused)
    }

    /// Takes the row of a primary key out; false where it has none.
    pub fn out(&mut self, key: &[u8]) -> Result<bool, Wrong> {
        usable(&self.space)?;
        self.table.out(&mut self.space, key).map_err(refused)
    }

    /// The primary keys, ascending.
    pub fn keys(&mut self) -> Result<Blobs, Wrong> {
        usable(&self.space)?;
        self.table.keys(&mut self.space).map_err(refused)
    }

    // So many steps are as many as rows were got since so many were.
    fn are_gets(&self, steps: u64, before: u64) -> Result<(), Wrong> {
        if self.gets().saturating_sub(before) == steps {
            Ok(())
        } else {
            Err(Wrong::Not(Why::AnotherCount))
        }
    }

    /// What a query finds. The steps that the search tells are the rows that were got.
    pub fn search(&mut self, q: &Query) -> Result<FoundRows, Wrong> {
        usable(&self.space)?;
        let before = self.gets();
        let mut steps: Steps<()> = Steps::new();
        let found = self.table.search(&mut self.space, q, &mut steps);
        self.are_gets(steps.count(), before)?;
        found.map_err(refused)
    }

    /// The primary keys of it. Its steps are the rows that were got, too.
    pub fn search_keys(&mut self, q: &Query) -> Result<Blobs, Wrong> {
        usable(&self.space)?;
        let before = self.gets();
        let mut steps: Steps<()> = Steps::new();
        let found = self.table.search_keys(&mut self.space, q, &mut steps);
        self.are_gets(steps.count(), before)?;
        found.map_err(refused)
    }

    /// The number of it. Its steps are the rows that were got, too.
    pub fn count_found(&mut self, q: &Query) -> Result<u64, Wrong> {
        usable(&self.space)?;
        let before = self.gets();
        let mut steps: Steps<()> = Steps::new();
        let found = self.table.count_found(&mut self.space, q, &mut steps);
        self.are_gets(steps.count(), before)?;
        found.map_err(refused)
    }

    // Makes an index of a type that is ordered by bytes.
    fn add_lexical(&mut self, name: Blob, kind: IndexKind) -> Result<(), Wrong> {
        usable(&self.space)?;
        let alloc = self.alloc;
        let tree = MemMulti::new(alloc, self.free);
        let tree = Sorted::Lexical(Index { alloc, tree, name });
        let added = self.table.add_index(&mut self.space, Side { kind, tree });
        added.map_err(refused)
    }

    // Makes one of a type that is ordered by numbers.
    fn add_decimal(&mut self, name: Blob, kind: IndexKind) -> Result<(), Wrong> {
        usable(&self.space)?;
        let alloc = self.alloc;
        let tree = MemMulti::new(alloc, self.free);
        let tree = Sorted::Decimal(Index { alloc, tree, name });
        let added = self.table.add_index(&mut self.space, Side { kind, tree });
        added.map_err(refused)
    }

    /// Makes an index of a column.
    pub fn add_index(&mut self, column: &[u8], kind: IndexKind) -> Result<(), Wrong> {
        let name = Blob::from_slice(self.alloc, column)?;
        self.free = self.free.saturating_add(1);
        match kind {
            IndexKind::Decimal => self.add_decimal(name, kind),
            _ => self.add_lexical(name, kind),
        }
    }

    /// Takes the index of a column away; false where it has none.
    pub fn drop_index(&mut self, column: &[u8]) -> bool {
        self.table.remove_index(column).is_some()
    }

    /// The keys of all indexes, with a blank between each two, and a slash for the zero byte.
    pub fn entries(&mut self) -> Result<Blob, Wrong> {
        let mut all = Blob::new(self.alloc);
        for side in self.table.sides.as_mut_slice() {
            let pairs = pairs_in(side, &mut self.space)?;
            add_keys(self.alloc, &mut all, &pairs)?;
        }
        Ok(all)
    }

    // Brings what is held in memory to the files.
    fn settle(&mut self) -> Result<(), Wrong> {
        usable(&self.space)?;
        self.table.settle(&mut self.space).map_err(refused)
    }

    /// Packs the files, that of the rows in a form.
    pub fn pack(&mut self, form: Form) -> Result<(), Wrong> {
        usable(&self.space)?;
        let packed = self.table.pack(&mut self.space, form);
        packed.map_err(refused)?;
        self.settle()
    }

    /// Takes all rows out.
    pub fn clear(&mut self) -> Result<(), Wrong> {
        usable(&self.space)?;
        self.table.clear(&mut self.space).map_err(refused)
    }
}
