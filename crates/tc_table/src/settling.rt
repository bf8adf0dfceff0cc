//! A table brought to its files.
ghost use Rattle.std.specs.Prelude.{◌≡◌, false, OnOk, OnErr};
ghost use Rattle.tc_space.specs.Frames.{Keeps, Refuses};
ghost use Rattle.tc_space.specs.Refusals.{OnFault, OnlyLogIsFull};
ghost use Rattle.tc_space.specs.Stores.{IsReady};
ghost use Rattle.tc_table.specs.Packing.{AllPack, TablePacks, TreePacks};
ghost use Rattle.tc_table.specs.Settling.{AllBring, AllKeep, Settles, TreeBrings, TreeKeeps};
ghost use Rattle.tc_table.specs.Sides.{AllReady, AllStay, StaysTree, TreeReady};
ghost use Rattle.tc_table.specs.Tables.{Holds, StaysTable};

use crate::records::give_up;
use crate::side::{Side, Sorted};
use crate::table::Table;
use tc_space::{Multi, RecErr, Records, Space};

// Brings a tree to its file.
fn settle_tree<S: Space, L: Multi<S = S>, D: Multi<S = S>>(
    tree: &mut Sorted<L, D>,
    space: &mut S,
) -> Result<(), RecErr>
    requires { TreeReady S.Space L.Multi D.Multi tree.old space.old }
    ensures kept { OnOk result (TreeKeeps S.Space L.Multi D.Multi tree.old tree.new space.old space.new) }
    ensures brings { OnOk result (TreeBrings S.Space L.Multi D.Multi tree.old space.old space.new) }
    ensures packs { OnOk result (TreePacks S.Space L.Multi D.Multi tree.old space.old space.new) }
    ensures full { OnlyLogIsFull S.Space result space.new }
    ensures keeps { Keeps S.Space space.old space.new }
    ensures stays { StaysTree L.Multi D.Multi tree.old tree.new }
    ensures cause { OnFault S.Space result space.old space.new }
{
    match tree {
        Sorted::Lexical(index) => index.tree.settle(space),
        Sorted::Decimal(index) => index.tree.settle(space),
    }
}

// The same of all indexes. After a refusal some of them may be done.
fn settle_all<S: Space, L: Multi<S = S>, D: Multi<S = S>>(
    sides: &mut [Side<L, D>],
    space: &mut S,
) -> Result<(), RecErr>
    requires { AllReady S.Space L.Multi D.Multi sides.old space.old }
    ensures kept { OnOk result (AllKeep S.Space L.Multi D.Multi sides.old sides.new space.old space.new) }
    ensures brings { OnOk result (AllBring S.Space L.Multi D.Multi sides.old space.old space.new) }
    ensures packs { OnOk result (AllPack S.Space L.Multi D.Multi sides.old space.old space.new) }
    ensures full { OnlyLogIsFull S.Space result space.new }
    ensures keeps { Keeps S.Space space.old space.new }
    ensures stays { AllStay L.Multi D.Multi sides.old sides.new }
    ensures cause { OnFault S.Space result space.old space.new }
{
    let Some((first, rest)) = sides.split_first_mut() else {
        return Ok(());
    };
    settle_tree(&mut first.tree, space)?;
    settle_all(rest, space)?;
    Ok(())
}

impl<R: Records, L: Multi<S = R::S>, D: Multi<S = R::S>> Table<R, L, D> {
    // Settles the indexes behind the rows. After a refusal the space isn't sound.
    fn settle_sides(&mut self, space: &mut R::S) -> Result<(), RecErr>
        requires { AllReady R.S.Space L.Multi D.Multi self.old.sides.items space.old }
        ensures kept { OnOk result (AllKeep R.S.Space L.Multi D.Multi self.old.sides.items self.new.sides.items space.old space.new) }
        ensures brings { OnOk result (AllBring R.S.Space L.Multi D.Multi self.old.sides.items space.old space.new) }
        ensures packs { OnOk result (AllPack R.S.Space L.Multi D.Multi self.old.sides.items space.old space.new) }
        ensures spoiled { OnErr result (R.S.flag space.new ≡ false) }
        ensures full { OnlyLogIsFull R.S.Space result space.new }
        ensures keeps { Keeps R.S.Space space.old space.new }
        ensures stays { AllStay L.Multi D.Multi self.old.sides.items self.new.sides.items }
        ensures rows { self.new.rows ≡ self.old.rows }
        ensures cause { OnFault R.S.Space result space.old space.new }
    {
        match settle_all(self.sides.as_mut_slice(), space) {
            Ok(()) => Ok(()),
            Err(e) => {
                give_up(space);
                Err(e)
            }
        }
    }

    /// Brings what is held in memory to the files, which then stand for the rows and the indexes, and end in what holds something; where they were packed they are packed files. It is
    /// full only where the undo log is.
    pub fn settle(&mut self, space: &mut R::S) -> Result<(), RecErr>
        requires { IsReady R.S.Space (Holds R.S.Space R.Records L.Multi D.Multi) self.old space.old }
        ensures settles { OnOk result (Settles R.S.Space L.Multi D.Multi R.Records self.old self.new space.old space.new) }
        ensures packs { OnOk result (TablePacks R.S.Space L.Multi D.Multi R.Records self.old space.old space.new) }
        ensures refused { OnErr result (Refuses R.S.Space (Holds R.S.Space R.Records L.Multi D.Multi) self.old self.new space.old space.new) }
        ensures full { OnlyLogIsFull R.S.Space result space.new }
        ensures keeps { Keeps R.S.Space space.old space.new }
        ensures stays { StaysTable R.Records L.Multi D.Multi self.old self.new }
        ensures cause { OnFault R.S.Space result space.old space.new }
    {
        self.rows.settle(space)?;
        self.settle_sides(space)?;
        Ok(())
    }
}
