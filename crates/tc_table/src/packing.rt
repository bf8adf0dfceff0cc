//! A table whose files are packed.
ghost use Rattle.std.specs.Prelude.{◌≡◌, ◌⊎◌, false, IsErrOf, OnErr, OnOk};
ghost use Rattle.tc_base.specs.declared.kind.Form.TheVariants.{Keep};
ghost use Rattle.tc_space.specs.Changes.{same};
ghost use Rattle.tc_space.specs.Frames.{Keeps, Refuses};
ghost use Rattle.tc_space.specs.Lists.{StaysList};
ghost use Rattle.tc_space.specs.Refusals.{OnFault, OnlyLogIsFull};
ghost use Rattle.tc_space.specs.Stores.{FullPack, IsReady, PacksMap, ReadyIn, TightIn, WritesIn};
ghost use Rattle.tc_table.specs.Packing.{AllTighten, Packs, TreeTight};
ghost use Rattle.tc_table.specs.Settling.{AllKeep, TreeKeeps};
ghost use Rattle.tc_table.specs.Sides.{AllReady, AllStay, StaysTree, TreeReady};
ghost use Rattle.tc_table.specs.Tables.{Holds};

use crate::records::give_up;
use crate::side::{Side, Sorted};
use crate::table::Table;
use tc_base::Form;
use tc_space::{Multi, RecErr, Records, Space};

// Packs the file of a list in the form that it has.
fn pack_list<M: Multi>(tree: &mut M, space: &mut M::S) -> Result<(), RecErr>
    requires { ReadyIn M.S.Space M.file_of M.holds tree.old space.old }
    ensures packed { OnOk result (WritesIn M.S.Space M.file_of M.holds same tree.old tree.new space.old space.new) }
    ensures tight { OnOk result (TightIn M.S.Space M.file_of M.holds M.tight Keep tree.old tree.new space.old space.new) }
    ensures full { OnlyLogIsFull M.S.Space result space.new }
    ensures keeps { Keeps M.S.Space space.old space.new }
    ensures stays { OnOk result (StaysList M.file_of M.made M.lead tree.old tree.new) }
    ensures cause { OnFault M.S.Space result space.old space.new }
{
    tree.pack(space, Form::Keep)
}

// That of an index.
fn pack_tree<S: Space, L: Multi<S = S>, D: Multi<S = S>>(
    tree: &mut Sorted<L, D>,
    space: &mut S,
) -> Result<(), RecErr>
    requires { TreeReady S.Space L.Multi D.Multi tree.old space.old }
    ensures kept { OnOk result (TreeKeeps S.Space L.Multi D.Multi tree.old tree.new space.old space.new) }
    ensures tight { OnOk result (TreeTight S.Space L.Multi D.Multi tree.old tree.new space.old space.new) }
    ensures full { OnlyLogIsFull S.Space result space.new }
    ensures keeps { Keeps S.Space space.old space.new }
    ensures stays { OnOk result (StaysTree L.Multi D.Multi tree.old tree.new) }
    ensures cause { OnFault S.Space result space.old space.new }
{
    match tree {
        Sorted::Lexical(index) => pack_list(&mut index.tree, space),
        Sorted::Decimal(index) => pack_list(&mut index.tree, space),
    }
}

// Those of all indexes. After a refusal some of them may be done.
fn pack_all<S: Space, L: Multi<S = S>, D: Multi<S = S>>(
    sides: &mut [Side<L, D>],
    space: &mut S,
) -> Result<(), RecErr>
    requires { AllReady S.Space L.Multi D.Multi sides.old space.old }
    ensures kept { OnOk result (AllKeep S.Space L.Multi D.Multi sides.old sides.new space.old space.new) }
    ensures tight { OnOk result (AllTighten S.Space L.Multi D.Multi sides.old sides.new space.old space.new) }
    ensures full { OnlyLogIsFull S.Space result space.new }
    ensures keeps { Keeps S.Space space.old space.new }
    ensures stays { OnOk result (AllStay L.Multi D.Multi sides.old sides.new) }
    ensures cause { OnFault S.Space result space.old space.new }
{
    let Some((first, rest)) = sides.split_first_mut() else {
        return Ok(());
    };
    pack_tree(&mut first.tree, space)?;
    pack_all(rest, space)?;
    Ok(())
}

impl<R: Records, L: Multi<S = R::S>, D: Multi<S = R::S>> Table<R, L, D> {
    // Packs the indexes behind the rows. After a refusal the space isn't sound.
    fn pack_sides(&mut self, space: &mut R::S) -> Result<(), RecErr>
        requires { AllReady R.S.Space L.Multi D.Multi self.old.sides.items space.old }
        ensures kept { OnOk result (AllKeep R.S.Space L.Multi D.Multi self.old.sides.items self.new.sides.items space.old space.new) }
        ensures tight { OnOk result (AllTighten R.S.Space L.Multi D.Multi self.old.sides.items self.new.sides.items space.old space.new) }
        ensures spoiled { OnErr result (R.S.flag space.new ≡ false) }
        ensures full { OnlyLogIsFull R.S.Space result space.new }
        ensures keeps { Keeps R.S.Space space.old space.new }
        ensures stays { OnOk result (AllStay L.Multi D.Multi self.old.sides.items self.new.sides.items) }
        ensures rows { self.new.rows ≡ self.old.rows }
        ensures cause { OnFault R.S.Space result space.old space.new }
    {
        match pack_all(self.sides.as_mut_slice(), space) {
            Ok(()) => Ok(()),
            Err(e) => {
                give_up(space);
                Err(e)
            }
        }
    }

    /// Packs the file of the rows in a form, and those of the indexes in the form that they have. In place it is full only where the undo log is.
    pub fn pack(&mut self, space: &mut R::S, form: Form) -> Result<(), RecErr>
        requires { IsReady R.S.Space (Holds R.S.Space R.Records L.Multi D.Multi) self.old space.old }
        ensures packs { OnOk result (Packs R.S.Space L.Multi D.Multi R.Records form self.old self.new space.old space.new) }
        ensures refused { OnErr result (Refuses R.S.Space (Holds R.S.Space R.Records L.Multi D.Multi) self.old self.new space.old space.new) }
        ensures full { IsErrOf result RecErr.Full → FullPack R.S.Space R.lacks_large form self.old.rows space.old space.new }
        ensures keeps { Keeps R.S.Space space.old space.new }
        ensures formed { PacksMap R.S.flag R.file_of R.sort R.numbers R.region R.lead R.gets form result self.old.rows self.new.rows space.new }
        ensures stays { OnOk result (AllStay L.Multi D.Multi self.old.sides.items self.new.sides.items) }
        ensures left { OnErr result ((R.S.flag space.new ≡ false) ⊎ AllStay L.Multi D.Multi self.old.sides.items self.new.sides.items) }
        ensures cause { OnFault R.S.Space result space.old space.new }
    {
        self.rows.pack(space, form)?;
        self.pack_sides(space)?;
        Ok(())
    }
}
