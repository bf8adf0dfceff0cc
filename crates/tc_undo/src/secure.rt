//! The old bytes of a range are brought to the disk, with one sync for all of them and for the header.
ghost use Rattle.std.specs.Prelude.{◌≡◌, true, OnOk};
ghost use Rattle.tc_io.specs.Causes.{HasCause};
ghost use Rattle.tc_io.specs.Images.{now};
ghost use Rattle.ud_log.specs.Undo.{data_of};
ghost use Rattle.ud_state.specs.State.{AreLens, Idle};
ghost use Rattle.tc_undo.specs.Changes.{MayLog, Secures, LogIsOpen, LogIsValid, records};
ghost use Rattle.tc_undo.specs.Room.{log_end};
ghost use Rattle.tc_undo.specs.Volumes.{StaysQuiet};

use crate::changes::{begin, log_range};
use crate::gather::bring;
use crate::room::Log;
use crate::waiting::Waiting;
use tc_base::Fault;
use tc_io::Volume;

/// Opens a transaction whose log begins with the old bytes of a range. One sync.
fn secure_first<V: Volume>(
    vol: &mut V,
    log: &mut Log,
    lens: &[u64; 18],
    file: u32,
    at: u64,
    stop: u64,
) -> Result<(), Fault>
    requires bound { V.bound vol.old ≡ true }
    requires idle { V.tells → Idle (V.calls vol.old) (data_of (now (V.calls vol.old))) }
    requires lens { V.tells → AreLens lens.now (now (V.calls vol.old)) }
    requires may { MayLog V.tells (V.calls vol.old) lens.now 152 file at stop }
    ensures quiet { StaysQuiet V.Volume vol.old vol.new }
    ensures secures { OnOk result (Secures V.tells (V.calls vol.old) (V.calls vol.new) lens.now log.new file at stop) }
    ensures active { OnOk result (log.new.active ≡ true) }
    ensures cause { HasCause (V.faults vol.old) (V.faults vol.new) result }
{
    let mut waiting = begin(lens);
    let end = log_range(vol, &mut waiting, 152, lens, file, at, stop)?;
    bring(vol, &mut waiting, end)?;
    *log = Log {
        active: true,
        end,
        recorded: *lens,
        changed: [false; 18],
    };
    Ok(())
}

/// Adds the old bytes of a range to the log of the open transaction. One sync, or none where the range is empty.
fn secure_more<V: Volume>(
    vol: &mut V,
    log: &mut Log,
    file: u32,
    at: u64,
    stop: u64,
) -> Result<(), Fault>
    requires bound { V.bound vol.old ≡ true }
    requires open { LogIsOpen V.tells (V.calls vol.old) log.old }
    requires may { MayLog V.tells (V.calls vol.old) log.old.recorded log.old.end file at stop }
    ensures quiet { StaysQuiet V.Volume vol.old vol.new }
    ensures secures { OnOk result (Secures V.tells (V.calls vol.old) (V.calls vol.new) log.old.recorded log.new file at stop) }
    ensures active { log.new.active ≡ log.old.active }
    ensures recorded { log.new.recorded ≡ log.old.recorded }
    ensures cause { HasCause (V.faults vol.old) (V.faults vol.new) result }
{
    if stop <= at {
        return Ok(());
    }
    let mut waiting = Waiting::new();
    let end = log_range(vol, &mut waiting, log.end, &log.recorded, file, at, stop)?;
    bring(vol, &mut waiting, end)?;
    log.end = end;
    Ok(())
}

/// Brings the old bytes of a range to the disk, in a transaction that is opened if none is.
pub fn secure<V: Volume>(
    vol: &mut V,
    log: &mut Log,
    lens: &[u64; 18],
    file: u32,
    at: u64,
    stop: u64,
) -> Result<(), Fault>
    requires bound { V.bound vol.old ≡ true }
    requires valid { LogIsValid V.tells (V.calls vol.old) log.old }
    requires lens { V.tells → AreLens lens.now (now (V.calls vol.old)) }
    requires may { MayLog V.tells (V.calls vol.old) (records log.old lens.now) (log_end log.old.active log.old.end) file at stop }
    ensures quiet { StaysQuiet V.Volume vol.old vol.new }
    ensures secures { OnOk result (Secures V.tells (V.calls vol.old) (V.calls vol.new) (records log.old lens.now) log.new file at stop) }
    ensures active { OnOk result (log.new.active ≡ true) }
    ensures cause { HasCause (V.faults vol.old) (V.faults vol.new) result }
{
    if log.active {
        secure_more(vol, log, file, at, stop)?;
        return Ok(());
    }
    secure_first(vol, log, lens, file, at, stop)?;
    Ok(())
}
