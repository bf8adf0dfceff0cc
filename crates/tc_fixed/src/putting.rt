//! A value given to an id.
ghost use Rattle.std.specs.Prelude.{◌≡◌, ◌⊎◌, ◌^◌, ◌≤◌, length, OnOk, OnErr, IsErrOf, false};
ghost use Rattle.std.specs.FinMap.{insert};
ghost use Rattle.hf_head.specs.FixedHeads.{cell};
ghost use Rattle.tc_space.specs.Effects.{Changes};
ghost use Rattle.tc_space.specs.Frames.{Keeps, OnlyReads, Refuses, Writes};
ghost use Rattle.tc_space.specs.Refusals.{OnFault};
ghost use Rattle.tc_space.specs.Stores.{IsReady, Only};
ghost use Rattle.tc_fixed.specs.Cells.{end_of, with_cell};
ghost use Rattle.tc_fixed.specs.Holding.{HasCellsTo, HasNoRoom, Means, SameShape, max_id_of};
ghost use Rattle.tc_fixed.specs.Settling.{with_value};

use crate::cells::{place, spell};
use crate::fixed::{FILE, Fixed};
use std::alloc::Global;
use tc_reach::{clear_up_to, write_at};
use tc_space::{RecErr, Space};

// Writes the cell of an id, and zeros over those between the last one in the file and it. After a refusal the space isn't sound, or nothing
// has changed.
fn write_cell<S: Space>(
    alloc: Global,
    space: &mut S,
    width: u32,
    last: u64,
    id: u64,
    bytes: &[u8],
) -> Result<(), RecErr>
    requires cells { HasCellsTo S.Space space.old width last }
    requires id { (1 ≤ id) × (id ≤ 2 ^ 40) }
    requires cell { length bytes.now ≡ cell width }
    ensures wrote { OnOk result (S.tells → Changes S.now 0 (with_cell width last id bytes.now (S.now space.old 0)) space.old space.new) }
    ensures sound { OnOk result (S.sound space.new) }
    ensures refused { OnErr result ((S.flag space.new ≡ false) ⊎ OnlyReads S.Space space.old space.new) }
    ensures keeps { Keeps S.Space space.old space.new }
    ensures full { IsErrOf result RecErr.Full → (S.flag space.new ≡ false) × (S.tells → HasNoRoom (S.limit space.new 0) (S.log_full space.new) (end_of width id)) }
    ensures cause { OnFault S.Space result space.old space.new }
{
    let at = place(width, id);
    clear_up_to(alloc, space, FILE, place(width, last + 1), at)?;
    write_at(space, FILE, at, bytes)?;
    Ok(())
}

impl<S: Space> Fixed<S> {
    /// Gives an id a value, in place of its old one: its whole cell is written, with zeros behind the value, and so are those between the last one and it. After a refusal the space isn't sound, or nothing has changed; with `Full` it isn't.
    pub fn put(&mut self, space: &mut S, id: u64, value: &[u8]) -> Result<(), RecErr>
        requires ready { IsReady S.Space (Means S.Space) self.old space.old }
        requires id { (1 ≤ id) × (id ≤ max_id_of self.old) }
        requires value { length value.now ≤ self.old.width }
        ensures put { OnOk result (Writes S.Space (Only 0) (Means S.Space) (λ m. insert m id value.now) self.old self.new space.old space.new) }
        ensures wrote { OnOk result (S.tells → Changes S.now 0 (with_value self.old id value.now (S.now space.old 0)) space.old space.new) }
        ensures refused { OnErr result (Refuses S.Space (Means S.Space) self.old self.new space.old space.new) }
        ensures full { IsErrOf result RecErr.Full → (S.flag space.new ≡ false) × (S.tells → HasNoRoom (S.limit space.new 0) (S.log_full space.new) (end_of self.old.width id)) }
        ensures keeps { Keeps S.Space space.old space.new }
        ensures shape { SameShape self.old self.new }
        ensures cause { OnFault S.Space result space.old space.new }
    {
        let old = self.held_at(space, id)?;
        spell(self.width, value, &mut self.buffer)?;
        let last = self.tally.greatest;
        write_cell(self.alloc, space, self.width, last, id, &self.buffer)?;
        self.tally = self.tally.with(id, old, value.len() as u64);
        Ok(())
    }
}
