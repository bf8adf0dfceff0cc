//! An index that comes to a table, and one that goes.
#![tactic(auto, using(tc_space::specs::Frames::keeps_refl, tc_space::specs::Frames::keeps_then, tc_space::specs::Frames::reads_refl, crate::proofs::Holding::table_stays, crate::proofs::Holding::stays_then))]

ghost use Rattle.std.specs.Prelude.{◌≡◌, false, length, IsErrOf, MatchOption, OnErr, OnOk};
ghost use Rattle.tc_space.specs.Frames.{Keeps, Refuses};
ghost use Rattle.tc_space.specs.Refusals.{OnFault};
ghost use Rattle.tc_space.specs.Stores.{IsReady};
ghost use Rattle.td_plan.specs.Choices.{IsFirst, NoneBefore};
ghost use Rattle.tc_table.specs.Adding as adding;
ghost use Rattle.tc_table.specs.Adding.{Adds, AddsRow, Fills, FullAt, FullFill, FullIn, FullRow, HasNone, IsApart, IsListed, IsNew, Removes};
ghost use Rattle.tc_table.specs.Sides.{StaysSide, TreeReady};
ghost use Rattle.tc_table.specs.Tables.{Holds, StaysTable};

use crate::records::give_up;
use crate::side::{Side, change_side};
use crate::table::Table;
use tc_base::Blob;
use tc_space::{Multi, RecErr, Records};

// Whether an index is of a column.
fn is_of<L, D>(side: &Side<L, D>, name: &[u8]) -> bool
    ensures { result ≡ adding.is_of name.now side.now }
{
    side.tree.name().as_slice() == name
}

// The place of the index of a column.
fn place_of<L, D>(sides: &[Side<L, D>], name: &[u8]) -> Option<usize>
    ensures { MatchOption result (NoneBefore (adding.is_of name.now) sides.now (length sides.now)) (λ i. IsFirst (adding.is_of name.now) sides.now i) }
{
    for i in 0..sides.len() {
        if is_of(&sides[i], name) {
            return Some(i);
        }
    }
    None
}

impl<R: Records, L: Multi<S = R::S> + Drop, D: Multi<S = R::S> + Drop> Table<R, L, D> {
    // Gives an index the parts of the row of a key. After a refusal some of them may be there.
    fn add_row(&mut self, space: &mut R::S, side: &mut Side<L, D>, key: &[u8]) -> Result<(), RecErr>
        requires ready { IsReady R.S.Space (Holds R.S.Space R.Records L.Multi D.Multi) self.old space.old }
        requires tree { TreeReady R.S.Space L.Multi D.Multi side.old.tree space.old }
        requires away { IsApart R.S.Space R.Records L.Multi D.Multi side.old self.old }
        ensures adds { OnOk result (AddsRow R.S.Space R.Records L.Multi D.Multi key.now side.old side.new self.old self.new space.old space.new) }
        ensures full { IsErrOf result RecErr.Full → FullAt R.S.Space R.Records L.Multi D.Multi L.O.cmp D.O.cmp key.now side.old self.old space.old space.new }
        ensures keeps { Keeps R.S.Space space.old space.new }
        ensures stays { StaysTable R.Records L.Multi D.Multi self.old self.new }
        ensures side { StaysSide L.Multi D.Multi side.old side.new }
        ensures cause { OnFault R.S.Space result space.old space.new }
    {
        let Some(row) = self.get(space, key)? else {
            return Err(RecErr::Memory);
        };
        change_side(self.alloc, side, space, key, None, Some(&row))?;
        Ok(())
    }

    // Gives it those of all these keys. After a refusal those of the first ones may be there.
    fn fill(
        &mut self,
        space: &mut R::S,
        side: &mut Side<L, D>,
        row_keys: &[Blob],
    ) -> Result<(), RecErr>
        requires sound { R.S.sound space.old }
        requires listed { IsListed R.S.Space R.Records L.Multi D.Multi row_keys.now self.old space.old }
        requires new { IsNew R.S.Space R.Records L.Multi D.Multi side.old self.old space.old }
        ensures fills { OnOk result (Fills R.S.Space R.Records L.Multi D.Multi row_keys.now side.old side.new self.old self.new space.old space.new) }
        ensures full { IsErrOf result RecErr.Full → FullRow R.S.Space R.Records L.Multi D.Multi L.O.cmp D.O.cmp row_keys.now side.old self.old space.old space.new }
        ensures keeps { Keeps R.S.Space space.old space.new }
        ensures stays { StaysTable R.Records L.Multi D.Multi self.old self.new }
        ensures side { StaysSide L.Multi D.Multi side.old side.new }
        ensures cause { OnFault R.S.Space result space.old space.new }
    {
        for i in 0..row_keys.len() {
            self.add_row(space, side, row_keys[i].as_slice())?;
        }
        Ok(())
    }

    // Fills an index and takes it in. Behind a refusal the space is to be given up.
    fn take_in(&mut self, space: &mut R::S, side: Side<L, D>) -> Result<(), RecErr>
        requires ready { IsReady R.S.Space (Holds R.S.Space R.Records L.Multi D.Multi) self.old space.old }
        requires new { IsNew R.S.Space R.Records L.Multi D.Multi side self.old space.old }
        ensures adds { OnOk result (Adds R.S.Space R.Records L.Multi D.Multi side self.old self.new space.old space.new) }
        ensures full { IsErrOf result RecErr.Full → FullIn R.S.Space R.Records L.Multi D.Multi L.O.cmp D.O.cmp side self.old space.old space.new }
        ensures keeps { Keeps R.S.Space space.old space.new }
        ensures cause { OnFault R.S.Space result space.old space.new }
    {
        let mut side = side;
        let row_keys = self.keys(space)?;
        self.fill(space, &mut side, row_keys.as_slice())?;
        let Ok(()) = self.sides.push(side) else {
            return Err(RecErr::Memory);
        };
        Ok(())
    }

    /// Takes an index in behind the others and gives it its parts of all rows, where it has nothing and a file of its own. After a refusal the space isn't sound.
    pub fn add_index(&mut self, space: &mut R::S, side: Side<L, D>) -> Result<(), RecErr>
        requires ready { IsReady R.S.Space (Holds R.S.Space R.Records L.Multi D.Multi) self.old space.old }
        requires new { IsNew R.S.Space R.Records L.Multi D.Multi side self.old space.old }
        ensures adds { OnOk result (Adds R.S.Space R.Records L.Multi D.Multi side self.old self.new space.old space.new) }
        ensures spoiled { OnErr result (R.S.flag space.new ≡ false) }
        ensures full { IsErrOf result RecErr.Full → FullFill R.S.Space R.Records L.Multi D.Multi L.O.cmp D.O.cmp side self.old space.old space.new }
        ensures keeps { Keeps R.S.Space space.old space.new }
        ensures cause { OnFault R.S.Space result space.old space.new }
    {
        match self.take_in(space, side) {
            Ok(()) => Ok(()),
            Err(e) => {
                give_up(space);
                Err(e)
            }
        }
    }

    /// Takes the index of a column out, if there is one. Its file stays as it is.
    pub fn remove_index(&mut self, name: &[u8]) -> Option<Side<L, D>>
        ensures { MatchOption result (HasNone name.now self.old self.new) (λ x. Removes name.now x self.old self.new) }
    {
        let Some(i) = place_of(self.sides.as_slice(), name) else {
            return None;
        };
        Some(self.sides.remove(i))
    }
}
