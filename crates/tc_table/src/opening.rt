//! What is looked at when the files of a table are opened.
#![tactic(auto, using(tc_space::specs::Frames::keeps_refl, tc_space::specs::Frames::keeps_then, tc_space::specs::Frames::reads_refl, tc_space::specs::Frames::reads_then, td_index::proofs::Keeping::counts_stay, crate::proofs::Holding::table_stays))]

ghost use Rattle.std.specs.Prelude.{◌≡◌, [], List, IfOk, MatchOption, OnErr};
ghost use Rattle.tc_base.specs.Maps.{Map};
ghost use Rattle.tc_base.specs.declared.seq.Pair.{Pair};
ghost use Rattle.tc_space.specs.Frames.{In, Keeps, OnlyReads, Reads};
ghost use Rattle.tc_space.specs.Refusals.{Blames};
ghost use Rattle.tc_space.specs.Stores.{IsReady, ReadsIn, ReadyIn};
ghost use Rattle.td_index.specs.Checks.{Both, IsExact, StaysRows};
ghost use Rattle.tc_table.specs.Opening.{AreAllRows, AreTold, HasNoRows, JudgesKeys, TellsRow, TreeHolds, rows_in};
ghost use Rattle.tc_table.specs.Tables.{Admits, Holds, JudgesSide, OpensRows, StaysTable};
ghost use Rattle.tc_table.specs.Parts.{parts_in};
ghost use Rattle.tc_table.specs.Sides.{StaysSide, StaysTree, TreeReady};

use crate::column::Column;
use crate::side::{Side, Sorted};
use crate::table::Table;
use std::alloc::Global;
use tc_base::{Blob, Blobs, Steps};
use tc_space::{Multi, RecErr, Records};
use td_index::check_entries;
use td_row::{Row, RowErr};

// Whether the record of a key is a row's, where it has one.
fn row_at<R: Records>(
    alloc: Global,
    rows: &mut R,
    space: &mut R::S,
    key: &[u8],
) -> Result<bool, RecErr>
    requires { ReadyIn R.S.Space R.file_of R.holds rows.old space.old }
    ensures told { IfOk result (λ is. (m : Map) → In R.S.Space R.file_of R.holds rows.old space.old m → TellsRow m key.now is) }
    ensures reads { ReadsIn R.S.Space R.file_of R.holds rows.old rows.new space.old space.new }
    ensures keeps { Keeps R.S.Space space.old space.new }
    ensures stays { StaysRows R.Records rows.old rows.new }
    ensures cause { Blames R.S.Space result space.old space.new }
{
    let mut steps: Steps<R> = Steps::new();
    let Some(bytes) = rows.get(space, key, &mut steps)? else {
        return Ok(true);
    };
    match Row::read(alloc, bytes.as_slice()) {
        Ok(_) => Ok(true),
        Err(RowErr::Bad) => Ok(false),
        Err(RowErr::Memory) => Err(RecErr::Memory),
    }
}

/// Whether each record is a row's, where these are the keys of all.
pub(crate) fn are_rows<R: Records>(
    alloc: Global,
    rows: &mut R,
    space: &mut R::S,
    row_keys: &[Blob],
) -> Result<bool, RecErr>
    requires { ReadyIn R.S.Space R.file_of R.holds rows.old space.old }
    ensures judged { IfOk result (λ all. (m : Map) → In R.S.Space R.file_of R.holds rows.old space.old m → JudgesKeys row_keys.now m all) }
    ensures reads { ReadsIn R.S.Space R.file_of R.holds rows.old rows.new space.old space.new }
    ensures keeps { Keeps R.S.Space space.old space.new }
    ensures stays { StaysRows R.Records rows.old rows.new }
    ensures cause { Blames R.S.Space result space.old space.new }
{
    for i in 0..row_keys.len() {
        if !row_at(alloc, rows, space, row_keys[i].as_slice())? {
            return Ok(false);
        }
    }
    Ok(true)
}

/// Whether a tree has the pairs of a column of rows and no others, where these are the keys of all rows.
pub(crate) fn check_tree<R: Records, L: Multi<S = R::S>, D: Multi<S = R::S>>(
    alloc: Global,
    column: &Column,
    rows: &mut R,
    tree: &mut Sorted<L, D>,
    space: &mut R::S,
    row_keys: &[Blob],
) -> Result<bool, RecErr>
    requires rows { ReadyIn R.S.Space R.file_of R.holds rows.old space.old }
    requires tree { TreeReady R.S.Space L.Multi D.Multi tree.old space.old }
    ensures exact { IfOk result (λ all. (b : Both) → AreTold R.S.Space L.Multi D.Multi R.Records (rows.old, tree.old) space.old b → IsExact (parts_in column.now.kind column.now.name) row_keys.now all b) }
    ensures reads { Reads R.S.Space (AreTold R.S.Space L.Multi D.Multi R.Records) (rows.old, tree.old) (rows.new, tree.new) space.old space.new }
    ensures keeps { Keeps R.S.Space space.old space.new }
    ensures rows { StaysRows R.Records rows.old rows.new }
    ensures stays { StaysTree L.Multi D.Multi tree.old tree.new }
    ensures cause { Blames R.S.Space result space.old space.new }
{
    match tree {
        Sorted::Lexical(index) => check_entries(
            alloc,
            column,
            rows,
            &mut index.tree,
            space,
            row_keys,
        ),
        Sorted::Decimal(index) => check_entries(
            alloc,
            column,
            rows,
            &mut index.tree,
            space,
            row_keys,
        ),
    }
}

impl<R: Records + Drop, L: Multi<S = R::S> + Drop, D: Multi<S = R::S> + Drop> Table<R, L, D> {
    /// A table over the rows that a map has, without indexes.
    pub fn over(alloc: Global, rows: R) -> Table<R, L, D>
        ensures holds { (space : R.S) (m : Map) → In R.S.Space R.file_of R.holds rows space m → AreAllRows m → Holds R.S.Space R.Records L.Multi D.Multi result space (rows_in m) }
        ensures rows { result.rows ≡ rows }
        ensures none { result.sides.items ≡ [] }
    {
        Table {
            alloc,
            rows,
            sides: Vec::new(alloc),
        }
    }

    /// Opens the rows of a map as a table without indexes, and gives its primary keys too; nothing where a record is no row's.
    pub fn open(
        alloc: Global,
        rows: R,
        space: &mut R::S,
    ) -> Result<Option<(Table<R, L, D>, Blobs)>, RecErr>
        requires { ReadyIn R.S.Space R.file_of R.holds rows space.old }
        ensures opened { IfOk result (λ o. MatchOption o (HasNoRows R.S.Space R.Records rows space.old) (λ x. OpensRows R.S.Space R.Records L.Multi D.Multi rows x.0 x.1 space.old space.new)) }
        ensures reads { OnlyReads R.S.Space space.old space.new }
        ensures cause { Blames R.S.Space result space.old space.new }
    {
        let mut rows = rows;
        let mut steps: Steps<R> = Steps::new();
        let row_keys = rows.keys(space, &mut steps)?;
        if !are_rows(alloc, &mut rows, space, row_keys.as_slice())? {
            return Ok(None);
        }
        Ok(Some((Table::over(alloc, rows), row_keys)))
    }

    // Whether an index has the pairs of the rows and no others, where these are the keys of all.
    fn check(
        &mut self,
        space: &mut R::S,
        side: &mut Side<L, D>,
        row_keys: &[Blob],
    ) -> Result<bool, RecErr>
        requires ready { IsReady R.S.Space (Holds R.S.Space R.Records L.Multi D.Multi) self.old space.old }
        requires tree { TreeReady R.S.Space L.Multi D.Multi side.old.tree space.old }
        ensures exact { IfOk result (λ fits. JudgesSide R.S.Space R.Records L.Multi D.Multi side.old row_keys.now self.old space.old fits) }
        ensures reads { Reads R.S.Space (Holds R.S.Space R.Records L.Multi D.Multi) self.old self.new space.old space.new }
        ensures tree { (ps : List Pair) → TreeHolds R.S.Space L.Multi D.Multi side.old.tree space.old ps → TreeHolds R.S.Space L.Multi D.Multi side.new.tree space.new ps }
        ensures keeps { Keeps R.S.Space space.old space.new }
        ensures stays { StaysTable R.Records L.Multi D.Multi self.old self.new }
        ensures side { StaysSide L.Multi D.Multi side.old side.new }
        ensures sides { self.new.sides ≡ self.old.sides }
        ensures cause { Blames R.S.Space result space.old space.new }
    {
        let name = Blob::from_slice(self.alloc, side.tree.name().as_slice())?;
        let kind = side.kind;
        let column = Column { name, kind };
        let fits = check_tree(
            self.alloc,
            &column,
            &mut self.rows,
            &mut side.tree,
            space,
            row_keys,
        )?;
        Ok(fits)
    }

    /// Takes an index in, if it has the pairs of the rows and no others, where these are the keys of all; else it is let go.
    pub fn admit(
        &mut self,
        space: &mut R::S,
        side: Side<L, D>,
        row_keys: &[Blob],
    ) -> Result<bool, RecErr>
        requires ready { IsReady R.S.Space (Holds R.S.Space R.Records L.Multi D.Multi) self.old space.old }
        requires tree { TreeReady R.S.Space L.Multi D.Multi side.tree space.old }
        ensures exact { IfOk result (λ fits. JudgesSide R.S.Space R.Records L.Multi D.Multi side row_keys.now self.old space.old fits) }
        ensures admits { IfOk result (λ fits. Admits R.S.Space R.Records L.Multi D.Multi side row_keys.now fits self.old self.new space.old space.new) }
        ensures refused { OnErr result (Reads R.S.Space (Holds R.S.Space R.Records L.Multi D.Multi) self.old self.new space.old space.new) }
        ensures stays { OnErr result (StaysTable R.Records L.Multi D.Multi self.old self.new) }
        ensures keeps { Keeps R.S.Space space.old space.new }
        ensures cause { Blames R.S.Space result space.old space.new }
    {
        let mut side = side;
        if !self.check(space, &mut side, row_keys)? {
            return Ok(false);
        }
        let Ok(()) = self.sides.push(side) else {
            return Err(RecErr::Memory);
        };
        Ok(true)
    }
}
