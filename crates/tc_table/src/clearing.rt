//! A table that is emptied.
ghost use Rattle.std.specs.Prelude.{◌≡◌, false, IsErrOf, OnErr, OnOk};
ghost use Rattle.tc_space.specs.Frames.{Keeps, Refuses};
ghost use Rattle.tc_space.specs.Refusals.{OnFault};
ghost use Rattle.tc_space.specs.Stores.{IsReady};
ghost use Rattle.tc_table.specs.Clearing.{AllBare, AllClear, BareSince, Clears, FullEmptying, TreeBare, TreeClears};
ghost use Rattle.tc_table.specs.Sides.{AllReady, AllStay, StaysTree, TreeReady};
ghost use Rattle.tc_table.specs.Tables.{Holds, StaysTable};

use crate::records::give_up;
use crate::side::{Side, Sorted};
use crate::table::Table;
use tc_space::{Multi, RecErr, Records, Space};

// Takes all pairs out of a tree.
fn clear_tree<S: Space, L: Multi<S = S>, D: Multi<S = S>>(
    tree: &mut Sorted<L, D>,
    space: &mut S,
) -> Result<(), RecErr>
    requires { TreeReady S.Space L.Multi D.Multi tree.old space.old }
    ensures clears { OnOk result (TreeClears S.Space L.Multi D.Multi tree.old tree.new space.old space.new) }
    ensures full { IsErrOf result RecErr.Full → TreeBare S.Space L.Multi D.Multi tree.old space.old space.new }
    ensures keeps { Keeps S.Space space.old space.new }
    ensures stays { StaysTree L.Multi D.Multi tree.old tree.new }
    ensures cause { OnFault S.Space result space.old space.new }
{
    match tree {
        Sorted::Lexical(index) => index.tree.clear(space),
        Sorted::Decimal(index) => index.tree.clear(space),
    }
}

// The same of all indexes. After a refusal some of them may be done.
fn clear_all<S: Space, L: Multi<S = S>, D: Multi<S = S>>(
    sides: &mut [Side<L, D>],
    space: &mut S,
) -> Result<(), RecErr>
    requires { AllReady S.Space L.Multi D.Multi sides.old space.old }
    ensures clears { OnOk result (AllClear S.Space L.Multi D.Multi sides.old sides.new space.old space.new) }
    ensures full { IsErrOf result RecErr.Full → AllBare S.Space L.Multi D.Multi sides.old space.old space.new }
    ensures keeps { Keeps S.Space space.old space.new }
    ensures stays { AllStay L.Multi D.Multi sides.old sides.new }
    ensures cause { OnFault S.Space result space.old space.new }
{
    let Some((first, rest)) = sides.split_first_mut() else {
        return Ok(());
    };
    clear_tree(&mut first.tree, space)?;
    clear_all(rest, space)?;
    Ok(())
}

impl<R: Records, L: Multi<S = R::S>, D: Multi<S = R::S>> Table<R, L, D> {
    // Empties the indexes behind the rows. After a refusal the space isn't sound.
    fn clear_sides(&mut self, space: &mut R::S) -> Result<(), RecErr>
        requires { AllReady R.S.Space L.Multi D.Multi self.old.sides.items space.old }
        ensures clears { OnOk result (AllClear R.S.Space L.Multi D.Multi self.old.sides.items self.new.sides.items space.old space.new) }
        ensures spoiled { OnErr result (R.S.flag space.new ≡ false) }
        ensures full { IsErrOf result RecErr.Full → BareSince R.S.Space L.Multi D.Multi self.old.sides.items space.old space.new }
        ensures keeps { Keeps R.S.Space space.old space.new }
        ensures stays { AllStay L.Multi D.Multi self.old.sides.items self.new.sides.items }
        ensures rows { self.new.rows ≡ self.old.rows }
        ensures cause { OnFault R.S.Space result space.old space.new }
    {
        match clear_all(self.sides.as_mut_slice(), space) {
            Ok(()) => Ok(()),
            Err(e) => {
                give_up(space);
                Err(e)
            }
        }
    }

    /// Takes all rows out. The indexes stay, with nothing in them.
    pub fn clear(&mut self, space: &mut R::S) -> Result<(), RecErr>
        requires { IsReady R.S.Space (Holds R.S.Space R.Records L.Multi D.Multi) self.old space.old }
        ensures cleared { OnOk result (Clears R.S.Space R.Records L.Multi D.Multi self.old self.new space.old space.new) }
        ensures refused { OnErr result (Refuses R.S.Space (Holds R.S.Space R.Records L.Multi D.Multi) self.old self.new space.old space.new) }
        ensures full { IsErrOf result RecErr.Full → FullEmptying R.S.Space R.Records L.Multi D.Multi self.old space.old space.new }
        ensures keeps { Keeps R.S.Space space.old space.new }
        ensures stays { StaysTable R.Records L.Multi D.Multi self.old self.new }
        ensures cause { OnFault R.S.Space result space.old space.new }
    {
        self.rows.clear(space)?;
        self.clear_sides(space)?;
        Ok(())
    }
}
