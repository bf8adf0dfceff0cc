//! Data files are brought to the disk.
ghost use Rattle.std.specs.Prelude.{◌≡◌, ◌≤◌, true, false, length, OnOk};
ghost use Rattle.tc_io.specs.Causes.{HasCause};
ghost use Rattle.ud_log.specs.Undo.{is_data};
ghost use Rattle.ud_state.specs.State.{Durable, SyncOnly};
ghost use Rattle.tc_undo.specs.Volumes.{StaysBound, StaysCalm};
ghost use Rattle.tc_undo.specs.Found.{DurableThen};

use tc_base::Fault;
use tc_io::Volume;
use ud_log::file_at;

/// Brings a data file to the disk, if it is marked.
fn sync_if<V: Volume>(vol: &mut V, file: u32, marked: bool) -> Result<(), Fault>
    requires bound { V.bound vol.old ≡ true }
    requires is_data { is_data file ≡ true }
    ensures quiet { StaysCalm V.Volume vol.old vol.new }
    ensures synced { OnOk result (V.tells → SyncOnly (V.calls vol.old) (V.calls vol.new)) }
    ensures grows { OnOk result (V.tells → length (V.calls vol.old) ≤ length (V.calls vol.new)) }
    ensures there { OnOk result (V.tells → (marked ≡ false → Durable (V.calls vol.old) file) → Durable (V.calls vol.new) file) }
    ensures stays { StaysBound V.Volume vol.old vol.new }
    ensures cause { HasCause (V.faults vol.old) (V.faults vol.new) result }
{
    if !marked {
        return Ok(());
    }
    vol.sync(file)?;
    Ok(())
}

/// Brings the marked data files to the disk.
pub fn sync_marked<V: Volume>(vol: &mut V, marked: &[bool; 18]) -> Result<(), Fault>
    requires { V.bound vol.old ≡ true }
    ensures quiet { StaysCalm V.Volume vol.old vol.new }
    ensures synced { OnOk result (V.tells → SyncOnly (V.calls vol.old) (V.calls vol.new)) }
    ensures grows { OnOk result (V.tells → length (V.calls vol.old) ≤ length (V.calls vol.new)) }
    ensures there { OnOk result (V.tells → DurableThen marked.now (V.calls vol.old) (V.calls vol.new)) }
    ensures stays { StaysBound V.Volume vol.old vol.new }
    ensures cause { HasCause (V.faults vol.old) (V.faults vol.new) result }
{
    for i in 0..18 {
        sync_if(vol, file_at(i), marked[i])?;
    }
    Ok(())
}
