//! A table.
#![tactic(auto, using(tc_space::specs::Frames::keeps_refl, tc_space::specs::Frames::keeps_then, tc_space::specs::Frames::reads_refl, crate::proofs::Holding::table_stays))]

ghost use Rattle.std.specs.Prelude.{◌≡◌, ◌+◌, ◌-◌, ◌^◌, min, false, Some, is_some, IfOk, OnOk, OnErr, IsErrOf};
ghost use Rattle.std.specs.FinMap.{get, insert, len, keys, remove};
ghost use Rattle.std.specs.Option.{option_copied};
ghost use Rattle.tc_space.specs.Frames.{Keeps, Reads, Refuses};
ghost use Rattle.tc_space.specs.Refusals.{Blames, OnFault};
ghost use Rattle.tc_space.specs.Changes.{value_in};
ghost use Rattle.tc_space.specs.Stores.{AnswersIn, IsReady};
ghost use Rattle.tc_model.specs.Contents.{Rows};
ghost use Rattle.tc_model.specs.Maps.{without};
ghost use Rattle.tc_model.specs.Rows.{row_text};
ghost use Rattle.tc_model.specs.Stores.{put_row};
ghost use Rattle.tc_model.specs.Values.{allowed};
ghost use Rattle.tc_table.specs.Full.{FullSince};
ghost use Rattle.tc_table.specs.Sides.{AllReady, AllStay, AllTurn};
ghost use Rattle.tc_table.specs.Tables.{FullDrop, FullOut, FullPut, FullSet, Holds, Makes, Sets, StaysTable, row_made, row_put};

use crate::records::{bytes_of, copy_of, give_up, put_bytes, row_of};
use crate::side::{Side, change_all};
use std::alloc::{AllocError, Global};
use tc_base::{Blob, Blobs, Mode, Steps, VALUE_MOST};
use tc_space::{Multi, RecErr, Records};
use td_row::Row;

/// Rows by primary key, and indexes of their columns.
///
/// After a refusal of a call that writes, the space isn't sound or nothing has changed. A call that only reads changes nothing, whatever it answers.
#[derive(Drop)]
pub struct Table<R, L, D> {
    pub alloc: Global,
    pub rows: R,
    pub sides: Vec<Side<L, D>>,
}

// Whether a row's text isn't too long.
fn is_allowed(alloc: Global, row: &Row) -> Result<bool, AllocError>
    ensures { IfOk result (λ b. b ≡ is_some (allowed (row_text row.now))) }
{
    let mut text = Blob::new(alloc);
    row.to_text(&mut text)?;
    Ok(text.len() <= VALUE_MOST)
}

// The row that a put gives a key, by the one that it has; none where that is to be kept.
fn row_by(alloc: Global, mode: Mode, old: Option<&Row>, row: Row) -> Result<Option<Row>, AllocError>
    ensures { IfOk result (λ new. new ≡ row_made mode (option_copied old.entry) row) }
{
    match mode {
        Mode::Over => Ok(Some(row)),
        Mode::Keep => {
            if old.is_some() {
                return Ok(None);
            }
            Ok(Some(row))
        }
        Mode::Cat => match old {
            Some(old) => Ok(Some(copy_of(alloc, old)?.merge(&row)?)),
            None => Ok(Some(row)),
        },
    }
}

// The same, and none where its text is too long.
fn allowed_row(
    alloc: Global,
    mode: Mode,
    old: Option<&Row>,
    row: Row,
) -> Result<Option<Row>, AllocError>
    ensures { IfOk result (λ new. new ≡ row_put mode (option_copied old.entry) row) }
{
    let Some(new) = row_by(alloc, mode, old, row)? else {
        return Ok(None);
    };
    if is_allowed(alloc, &new)? {
        return Ok(Some(new));
    }
    Ok(None)
}

impl<R: Records, L: Multi<S = R::S>, D: Multi<S = R::S>> Table<R, L, D> {
    /// How many rows there are.
    pub fn count(&self) -> u64
        ensures { (space : R.S) (rows : Rows) → Holds R.S.Space R.Records L.Multi D.Multi self.now space rows → result ≡ len rows }
    {
        self.rows.count()
    }

    // The bytes of the row of a primary key, if it has one.
    fn bytes_at(&mut self, space: &mut R::S, key: &[u8]) -> Result<Option<Blob>, RecErr>
        requires { IsReady R.S.Space (Holds R.S.Space R.Records L.Multi D.Multi) self.old space.old }
        ensures value { AnswersIn R.S.Space R.file_of R.holds result (value_in key.now) self.old.rows space.old }
        ensures reads { Reads R.S.Space (Holds R.S.Space R.Records L.Multi D.Multi) self.old self.new space.old space.new }
        ensures keeps { Keeps R.S.Space space.old space.new }
        ensures stays { StaysTable R.Records L.Multi D.Multi self.old self.new }
        ensures counted { R.gets self.new.rows ≡ min (R.gets self.old.rows + 1) (2 ^ 64 - 1) }
        ensures cause { Blames R.S.Space result space.old space.new }
    {
        let mut steps: Steps<R> = Steps::new();
        self.rows.get(space, key, &mut steps)
    }

    /// The row of a primary key, if it has one.
    pub fn get(&mut self, space: &mut R::S, key: &[u8]) -> Result<Option<Row>, RecErr>
        requires { IsReady R.S.Space (Holds R.S.Space R.Records L.Multi D.Multi) self.old space.old }
        ensures value { IfOk result (λ found. (rows : Rows) → Holds R.S.Space R.Records L.Multi D.Multi self.old space.old rows → found ≡ get rows key.now) }
        ensures reads { Reads R.S.Space (Holds R.S.Space R.Records L.Multi D.Multi) self.old self.new space.old space.new }
        ensures keeps { Keeps R.S.Space space.old space.new }
        ensures stays { StaysTable R.Records L.Multi D.Multi self.old self.new }
        ensures counted { R.gets self.new.rows ≡ min (R.gets self.old.rows + 1) (2 ^ 64 - 1) }
        ensures cause { Blames R.S.Space result space.old space.new }
    {
        let Some(bytes) = self.bytes_at(space, key)? else {
            return Ok(None);
        };
        let row = row_of(self.alloc, bytes.as_slice())?;
        Ok(Some(row))
    }

    /// The primary keys, ascending.
    pub fn keys(&mut self, space: &mut R::S) -> Result<Blobs, RecErr>
        requires { IsReady R.S.Space (Holds R.S.Space R.Records L.Multi D.Multi) self.old space.old }
        ensures value { IfOk result (λ found. (rows : Rows) → Holds R.S.Space R.Records L.Multi D.Multi self.old space.old rows → found ≡ keys rows) }
        ensures reads { Reads R.S.Space (Holds R.S.Space R.Records L.Multi D.Multi) self.old self.new space.old space.new }
        ensures keeps { Keeps R.S.Space space.old space.new }
        ensures stays { StaysTable R.Records L.Multi D.Multi self.old self.new }
        ensures gets { R.gets self.new.rows ≡ R.gets self.old.rows }
        ensures cause { Blames R.S.Space result space.old space.new }
    {
        let mut steps: Steps<R> = Steps::new();
        self.rows.keys(space, &mut steps)
    }

    // Puts what a row gives the indexes in the place of what another gave them. After a refusal the space isn't sound.
    fn index(
        &mut self,
        space: &mut R::S,
        key: &[u8],
        old: Option<&Row>,
        new: Option<&Row>,
    ) -> Result<(), RecErr>
        requires { AllReady R.S.Space L.Multi D.Multi self.old.sides.items space.old }
        ensures turn { OnOk result (AllTurn R.S.Space L.Multi D.Multi key.now (option_copied old.entry) (option_copied new.entry) self.old.sides.items self.new.sides.items space.old space.new) }
        ensures spoiled { OnErr result (R.S.flag space.new ≡ false) }
        ensures full { IsErrOf result RecErr.Full → FullSince R.S.Space L.Multi D.Multi L.O.cmp D.O.cmp key.now (option_copied old.entry) (option_copied new.entry) self.old.sides.items space.old space.new }
        ensures keeps { Keeps R.S.Space space.old space.new }
        ensures stays { AllStay L.Multi D.Multi self.old.sides.items self.new.sides.items }
        ensures rows { self.new.rows ≡ self.old.rows }
        ensures cause { OnFault R.S.Space result space.old space.new }
    {
        match change_all(self.alloc, self.sides.as_mut_slice(), space, key, old, new) {
            Ok(()) => Ok(()),
            Err(e) => {
                give_up(space);
                Err(e)
            }
        }
    }

    // Gives a primary key a row in the place of the one that it has, if it has one.
    fn set(
        &mut self,
        space: &mut R::S,
        key: &[u8],
        old: Option<&Row>,
        new: &Row,
    ) -> Result<(), RecErr>
        requires { IsReady R.S.Space (Holds R.S.Space R.Records L.Multi D.Multi) self.old space.old }
        ensures set { OnOk result (Sets R.S.Space R.Records L.Multi D.Multi key.now (option_copied old.entry) (λ rows. insert rows key.now new.now) self.old self.new space.old space.new) }
        ensures refused { OnErr result (Refuses R.S.Space (Holds R.S.Space R.Records L.Multi D.Multi) self.old self.new space.old space.new) }
        ensures full { IsErrOf result RecErr.Full → FullSet R.S.Space R.Records L.Multi D.Multi L.O.cmp D.O.cmp key.now (option_copied old.entry) new.now self.old space.old space.new }
        ensures keeps { Keeps R.S.Space space.old space.new }
        ensures stays { StaysTable R.Records L.Multi D.Multi self.old self.new }
        ensures cause { OnFault R.S.Space result space.old space.new }
    {
        let bytes = bytes_of(self.alloc, new)?;
        put_bytes(&mut self.rows, space, key, bytes.as_slice())?;
        self.index(space, key, old, Some(new))?;
        Ok(())
    }

    // Takes the row that a primary key has out.
    fn drop_row(&mut self, space: &mut R::S, key: &[u8], old: &Row) -> Result<(), RecErr>
        requires { IsReady R.S.Space (Holds R.S.Space R.Records L.Multi D.Multi) self.old space.old }
        ensures out { OnOk result (Sets R.S.Space R.Records L.Multi D.Multi key.now (Some old.now) (λ rows. remove rows key.now) self.old self.new space.old space.new) }
        ensures refused { OnErr result (Refuses R.S.Space (Holds R.S.Space R.Records L.Multi D.Multi) self.old self.new space.old space.new) }
        ensures full { IsErrOf result RecErr.Full → FullDrop R.S.Space R.Records L.Multi D.Multi L.O.cmp D.O.cmp key.now (Some old.now) self.old space.old space.new }
        ensures keeps { Keeps R.S.Space space.old space.new }
        ensures stays { StaysTable R.Records L.Multi D.Multi self.old self.new }
        ensures cause { OnFault R.S.Space result space.old space.new }
    {
        let mut steps: Steps<R> = Steps::new();
        if !self.rows.out(space, key, &mut steps)? {
            return Err(RecErr::Memory);
        }
        self.index(space, key, Some(old), None)?;
        Ok(())
    }

    /// Takes the row of a primary key out, and answers whether it had one.
    pub fn out(&mut self, space: &mut R::S, key: &[u8]) -> Result<bool, RecErr>
        requires { IsReady R.S.Space (Holds R.S.Space R.Records L.Multi D.Multi) self.old space.old }
        ensures out { IfOk result (λ done. Makes R.S.Space R.Records L.Multi D.Multi (λ rows. without rows key.now) done self.old self.new space.old space.new) }
        ensures refused { OnErr result (Refuses R.S.Space (Holds R.S.Space R.Records L.Multi D.Multi) self.old self.new space.old space.new) }
        ensures full { IsErrOf result RecErr.Full → FullOut R.S.Space R.Records L.Multi D.Multi L.O.cmp D.O.cmp key.now self.old space.old space.new }
        ensures keeps { Keeps R.S.Space space.old space.new }
        ensures stays { StaysTable R.Records L.Multi D.Multi self.old self.new }
        ensures cause { OnFault R.S.Space result space.old space.new }
    {
        let Some(old) = self.get(space, key)? else {
            return Ok(false);
        };
        self.drop_row(space, key, &old)?;
        Ok(true)
    }

    /// Gives a primary key a row: in the place of the one that it has, or only where it has none, or the columns behind that one's whose names it lacks. It answers whether it
    /// did: not where a row is to be kept, and not where the text of the new one has more than 16,777,216 bytes.
    pub fn put(
        &mut self,
        space: &mut R::S,
        mode: Mode,
        key: &[u8],
        row: Row,
    ) -> Result<bool, RecErr>
        requires { IsReady R.S.Space (Holds R.S.Space R.Records L.Multi D.Multi) self.old space.old }
        ensures put { IfOk result (λ done. Makes R.S.Space R.Records L.Multi D.Multi (λ rows. put_row mode rows key.now row) done self.old self.new space.old space.new) }
        ensures refused { OnErr result (Refuses R.S.Space (Holds R.S.Space R.Records L.Multi D.Multi) self.old self.new space.old space.new) }
        ensures full { IsErrOf result RecErr.Full → FullPut R.S.Space R.Records L.Multi D.Multi L.O.cmp D.O.cmp mode key.now row self.old space.old space.new }
        ensures keeps { Keeps R.S.Space space.old space.new }
        ensures stays { StaysTable R.Records L.Multi D.Multi self.old self.new }
        ensures cause { OnFault R.S.Space result space.old space.new }
    {
        let old = self.get(space, key)?;
        let had = old.as_ref();
        let Some(new) = allowed_row(self.alloc, mode, had, row)? else {
            return Ok(false);
        };
        self.set(space, key, had, &new)?;
        Ok(true)
    }
}
