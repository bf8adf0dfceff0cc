//! The undo log of a copy is made one that breaks the first rule.
ghost use Rattle.std.specs.Prelude.{◌≡◌, true, IfOk, OnOk};
ghost use Rattle.tc_base.specs.Files.{Files};
ghost use Rattle.tc_io.specs.Causes.{HasCause};
ghost use Rattle.tc_io.specs.Copies.{IsCopyBound, copy_of, may_undo};
ghost use Rattle.tc_io.specs.Images.{Calls, now};
ghost use Rattle.ud_state.specs.Since.{Since};
ghost use Rattle.tk_copy.specs.Copying.{ChangesCopy, Copies, IsSpoiled, LeavesCopy, LogSynced};

use tc_base::Fault;
use tc_io::Volume;

// The first byte of an undo log that says anything.
const MAGIC: u8 = b'T';

// Whether the log is empty, or begins as one does.
fn may_undo<V: Volume>(vol: &mut V) -> Result<bool, Fault>
    requires bound { IsCopyBound (V.bound vol.old) (V.names vol.old) }
    ensures may { IfOk result (λ b. V.tells → b ≡ may_undo (now (copy_of (V.names vol.old)) 1)) }
    ensures same { V.tells → copy_of (V.names vol.new) ≡ copy_of (V.names vol.old) }
    ensures changes { ChangesCopy V.Volume vol.old vol.new }
    ensures cause { HasCause (V.faults vol.old) (V.faults vol.new) result }
{
    if vol.copy_len(1)? == 0 {
        return Ok(true);
    }
    let mut first = [0u8];
    vol.copy_read(1, 0, &mut first)?;
    Ok(first[0] == MAGIC)
}

// Writes over the first byte of the log, or behind none.
fn write_over<V: Volume>(vol: &mut V) -> Result<(), Fault>
    requires bound { IsCopyBound (V.bound vol.old) (V.names vol.old) }
    requires may { V.tells → may_undo (now (copy_of (V.names vol.old)) 1) ≡ true }
    ensures copies { V.tells → (kept : Files) (old : Calls) → LogSynced old (copy_of (V.names vol.old)) → Since (LeavesCopy kept old) (copy_of (V.names vol.old)) (copy_of (V.names vol.new)) }
    ensures spoiled { OnOk result (V.tells → (old : Calls) → LogSynced old (copy_of (V.names vol.old)) → IsSpoiled (copy_of (V.names vol.new))) }
    ensures changes { ChangesCopy V.Volume vol.old vol.new }
    ensures cause { HasCause (V.faults vol.old) (V.faults vol.new) result }
{
    vol.copy_write(1, 0, &[0])?;
    vol.copy_sync(1)?;
    Ok(())
}

/// Makes the copy one that can't be opened. A log that begins otherwise breaks the first rule already: it stays, since a write over it might leave that byte.
pub fn spoil<V: Volume>(vol: &mut V) -> Result<(), Fault>
    requires bound { IsCopyBound (V.bound vol.old) (V.names vol.old) }
    ensures copies { V.tells → (kept : Files) → Copies kept (copy_of (V.names vol.old)) (copy_of (V.names vol.new)) }
    ensures spoiled { OnOk result (V.tells → IsSpoiled (copy_of (V.names vol.new))) }
    ensures changes { ChangesCopy V.Volume vol.old vol.new }
    ensures cause { HasCause (V.faults vol.old) (V.faults vol.new) result }
{
    vol.copy_sync(1)?;
    if may_undo(vol)? {
        write_over(vol)?;
    }
    Ok(())
}
