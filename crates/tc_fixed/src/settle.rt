//! What is held in memory, brought to the file.
ghost use Rattle.std.specs.Prelude.{◌≡◌, ◌≤◌, ◌^◌, length, take, OnOk, OnErr, IsErrOf, false};
ghost use Rattle.tc_base.specs.Files.{wrote};
ghost use Rattle.hf_head.specs.FixedHeads.{fixed_spelled, SpellsFixed};
ghost use Rattle.tc_model.specs.Arrays.{Array};
ghost use Rattle.tc_space.specs.Changes.{same};
ghost use Rattle.tc_space.specs.Effects.{Changes, Outcome};
ghost use Rattle.tc_space.specs.Frames.{Keeps, Refuses, Writes};
ghost use Rattle.tc_space.specs.Refusals.{OnFault, OnlyLogIsFull};
ghost use Rattle.tc_space.specs.Stores.{IsReady, Only};
ghost use Rattle.tc_fixed.specs.Holding.{Means, ReachesTo, SameShape, max_id_of};
ghost use Rattle.tc_fixed.specs.Settling.{head_of, settled};
ghost use Rattle.tc_fixed.specs.Standing.{Stands};

use crate::cells::cell_len;
use crate::fixed::{FILE, Fixed};
use crate::tally::Tally;
use hf_head::FixedHead;
use tc_reach::{cut_to, write_changed};
use tc_space::{RecErr, Space};

/// The bytes of a head.
pub fn spelling(head: &FixedHead) -> [u8; 256]
    ensures bytes { result ≡ fixed_spelled head.now }
    ensures spells { SpellsFixed head.now (fixed_spelled head.now) }
    ensures long { length (fixed_spelled head.now) ≡ 256 }
{
    head.write()
}

// Writes a head where it has changed, and cuts the file to the head's file size. After a refusal the space isn't sound.
fn write_head<S: Space>(space: &mut S, head: &FixedHead) -> Result<(), RecErr>
    requires reaches { ReachesTo S.Space space.old 256 }
    ensures wrote { OnOk result (S.tells → Changes S.now 0 (take head.now.size (wrote 0 (fixed_spelled head.now) (S.now space.old 0))) space.old space.new) }
    ensures outcome { Outcome S.sound S.flag result space.new }
    ensures keeps { Keeps S.Space space.old space.new }
    ensures full { OnlyLogIsFull S.Space result space.new }
    ensures spells { SpellsFixed head.now (fixed_spelled head.now) × (length (fixed_spelled head.now) ≡ 256) }
    ensures cause { OnFault S.Space result space.old space.new }
{
    let mut was = [0; 256];
    write_changed(space, FILE, 0, &spelling(head), &mut was)?;
    cut_to(space, FILE, head.size)?;
    Ok(())
}

/// The head of a file with these numbers.
pub fn head_now(width: u32, limit: u64, tally: &Tally) -> FixedHead
    requires width { width ≤ 1048576 }
    requires greatest { tally.now.greatest ≤ 2 ^ 40 }
    ensures { result ≡ head_of width limit tally.now }
{
    FixedHead {
        records: tally.records,
        size: 256 + cell_len(width) * tally.greatest,
        width,
        limit,
        least: tally.least,
        greatest: tally.greatest,
    }
}

impl<S: Space> Fixed<S> {
    /// Brings what is held in memory to the file: its head is written where it has changed, and the file is cut to the end of the cell of the greatest id.
    /// Then it stands for the map. After a refusal the space isn't sound.
    pub fn settle(&mut self, space: &mut S) -> Result<(), RecErr>
        requires ready { IsReady S.Space (Means S.Space) self.old space.old }
        ensures settled { OnOk result (Writes S.Space (Only 0) (Means S.Space) same self.old self.new space.old space.new) }
        ensures stands { OnOk result ((m : Array) → Means S.Space self.old space.old m → Stands (S.now space.new 0) self.old.width (max_id_of self.old) m) }
        ensures wrote { OnOk result (S.tells → Changes S.now 0 (settled self.old (S.now space.old 0)) space.old space.new) }
        ensures refused { OnErr result (Refuses S.Space (Means S.Space) self.old self.new space.old space.new) }
        ensures full { IsErrOf result RecErr.Full → (S.flag space.new ≡ false) × (S.tells → S.log_full space.new) }
        ensures keeps { Keeps S.Space space.old space.new }
        ensures shape { SameShape self.old self.new }
        ensures cause { OnFault S.Space result space.old space.new }
    {
        write_head(space, &head_now(self.width, self.limit, &self.tally))?;
        Ok(())
    }
}
