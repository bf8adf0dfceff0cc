//! A commit brings the changed data files to the disk, and then cuts the log.
ghost use Rattle.std.specs.Prelude.{◌≡◌, true, OnOk};
ghost use Rattle.tc_io.specs.Causes.{HasCause};
ghost use Rattle.tc_io.specs.Images.{now};
ghost use Rattle.ud_log.specs.Undo.{data_of};
ghost use Rattle.ud_state.specs.Since.{AllLeft, Since};
ghost use Rattle.ud_state.specs.State.{EitherOf, Idle};
ghost use Rattle.tc_undo.specs.Volumes.{StaysBound};
ghost use Rattle.tc_undo.specs.Changes.{LogIsOpen};

use crate::room::Log;
use crate::syncs::sync_marked;
use tc_base::Fault;
use tc_io::Volume;

/// Makes the files as they read the kept ones. As many syncs as data files changed, and one.
pub fn finish<V: Volume>(vol: &mut V, log: &Log) -> Result<(), Fault>
    requires bound { V.bound vol.old ≡ true }
    requires open { LogIsOpen V.tells (V.calls vol.old) log.now }
    ensures moments { V.tells → Since (AllLeft (EitherOf (V.calls vol.old))) (V.calls vol.old) (V.calls vol.new) }
    ensures idle { OnOk result (V.tells → Idle (V.calls vol.new) (data_of (now (V.calls vol.old)))) }
    ensures stays { StaysBound V.Volume vol.old vol.new }
    ensures cause { HasCause (V.faults vol.old) (V.faults vol.new) result }
{
    sync_marked(vol, &log.changed)?;
    vol.cut(1, 0)?;
    vol.sync(1)?;
    Ok(())
}
