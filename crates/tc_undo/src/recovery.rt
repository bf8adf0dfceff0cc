//! Recovery: what an unfinished transaction did is undone.
ghost use Rattle.std.specs.Prelude.{◌≡◌, ◌≤◌, true, length, OnOk, IfErr, IfOk, Ok};
ghost use Rattle.tc_base.specs.Files.{Files};
ghost use Rattle.tc_io.specs.Causes.{HasCause};
ghost use Rattle.tc_io.specs.Images.{now, of};
ghost use Rattle.ud_log.specs.Log.{entries};
ghost use Rattle.ud_log.specs.Undo.{all_short, data_of, undone_all};
ghost use Rattle.ud_state.specs.Recovery.{Ready, Recovers};
ghost use Rattle.ud_state.specs.Since.{Quiet};
ghost use Rattle.ud_state.specs.State.{Durable, Idle, IsSettled};
ghost use Rattle.tc_undo.specs.Changes.{KnowsLens};
ghost use Rattle.tc_undo.specs.Errors.{NotBroken};
ghost use Rattle.tc_undo.specs.Found.{FindsUndo, IsFound, OnDisk, RefusesAs, undone};
ghost use Rattle.tc_undo.specs.Volumes.{StaysBound, StaysQuiet, Blames, StaysCalm};
ghost use Rattle.tc_undo.specs.Opening.{SparesBroken};

use crate::errors::RecoverErr;
use crate::put_back::put_back_all;
use crate::refill::set_lengths;
use crate::scan::{Found, look};
use crate::syncs::sync_marked;
use tc_base::Fault;
use tc_io::Volume;

/// Gives the data files their lengths and their old bytes, and brings them to the disk. 18 syncs.
fn redo<V: Volume>(vol: &mut V, found: &Found) -> Result<(), RecoverErr>
    requires bound { V.bound vol.old ≡ true }
    requires finds { V.tells → FindsUndo (now (V.calls vol.old)) found.now.lens found.now.end }
    requires short { all_short found.now.lens ≡ true }
    requires disk { V.tells → OnDisk (V.calls vol.old) }
    ensures quiet { StaysQuiet V.Volume vol.old vol.new }
    ensures ready { OnOk result (V.tells → Ready (V.calls vol.new) (undone_all found.now.lens (entries (now (V.calls vol.old) 1)) (now (V.calls vol.old)))) }
    ensures same { OnOk result (V.tells → of 1 (V.calls vol.new) ≡ of 1 (V.calls vol.old)) }
    ensures whole { IfErr result (NotBroken V.tells) }
    ensures cause { Blames V.Volume result vol.old vol.new }
{
    set_lengths(vol, &found.lens)?;
    put_back_all(vol, found.end)?;
    sync_marked(vol, &[true; 18])?; // before the log is cut
    Ok(())
}

/// Cuts the log of so many bytes to nothing, if it isn't empty. One sync.
fn drop_log<V: Volume>(vol: &mut V, len: u64) -> Result<(), Fault>
    requires bound { V.bound vol.old ≡ true }
    requires len { V.tells → len ≡ length (now (V.calls vol.old) 1) }
    ensures quiet { V.tells → (files : Files) → Ready (V.calls vol.old) files → Quiet (V.calls vol.old) (V.calls vol.new) }
    ensures idle { OnOk result (V.tells → (files : Files) → Ready (V.calls vol.old) files → Idle (V.calls vol.new) files) }
    ensures stays { StaysBound V.Volume vol.old vol.new }
    ensures cause { HasCause (V.faults vol.old) (V.faults vol.new) result }
{
    if len == 0 {
        return Ok(());
    }
    vol.cut(1, 0)?;
    vol.sync(1)?;
    Ok(())
}

/// Brings the data files to the disk, and undoes what the log found says. 18 syncs, and 18 more where it undoes something.
fn settle<V: Volume>(vol: &mut V, found: &Found) -> Result<(), RecoverErr>
    requires bound { V.bound vol.old ≡ true }
    requires found { IsFound V.tells (now (V.calls vol.old)) found.now }
    requires log { V.tells → Durable (V.calls vol.old) 1 }
    ensures quiet { StaysCalm V.Volume vol.old vol.new }
    ensures ready { OnOk result (V.tells → (files : Files) → undone (V.calls vol.old) ≡ Ok files → Ready (V.calls vol.new) files) }
    ensures grows { OnOk result (V.tells → length (V.calls vol.old) ≤ length (V.calls vol.new)) }
    ensures same { OnOk result (V.tells → of 1 (V.calls vol.new) ≡ of 1 (V.calls vol.old)) }
    ensures whole { IfErr result (NotBroken V.tells) }
    ensures stays { StaysBound V.Volume vol.old vol.new }
    ensures cause { Blames V.Volume result vol.old vol.new }
{
    sync_marked(vol, &[true; 18])?; // before a data file is written
    if !found.undoes {
        return Ok(());
    }
    redo(vol, found)
}

/// Recovers, and answers the lengths of the data files.
pub fn restore<V: Volume>(vol: &mut V) -> Result<[u64; 18], RecoverErr>
    requires { V.bound vol.old ≡ true }
    ensures recovers { V.tells → IsSettled (V.calls vol.old) → Recovers (V.calls vol.old) (V.calls vol.new) }
    ensures idle { OnOk result (V.tells → Idle (V.calls vol.new) (data_of (now (V.calls vol.new)))) }
    ensures undone { OnOk result (V.tells → undone (V.calls vol.old) ≡ Ok (data_of (now (V.calls vol.new)))) }
    ensures grows { OnOk result (V.tells → length (V.calls vol.old) ≤ length (V.calls vol.new)) }
    ensures lens { IfOk result (λ lens. KnowsLens V.tells (now (V.calls vol.new)) lens) }
    ensures broken { IfErr result (RefusesAs V.tells (V.calls vol.old) (V.calls vol.new)) }
    ensures spares { V.tells → SparesBroken (V.calls vol.old) (V.calls vol.new) }
    ensures stays { StaysBound V.Volume vol.old vol.new }
    ensures cause { Blames V.Volume result vol.old vol.new }
{
    vol.sync(1)?; // first of all
    let len = vol.len(1)?;
    let found = look(vol, len)?;
    settle(vol, &found)?;
    drop_log(vol, len)?;
    Ok(found.lens)
}

/// Undoes what an unfinished transaction did. It may be stopped at any moment and run again.
///
/// First of all it brings the log to the disk, and reads and checks it; then it brings every data file to the disk. Where the
/// log undoes something, each data file gets its recorded length, the old bytes are put back from the last entry to the
/// first, and every data file is brought to the disk again. Last the log is cut to nothing, if it isn't empty. Syncs: 19
/// where the log is empty, 20 where it undoes nothing, 38 where it undoes something. It takes no memory.
pub fn recover<V: Volume>(vol: &mut V) -> Result<(), RecoverErr>
    requires { V.bound vol.old ≡ true }
    ensures recovers { V.tells → IsSettled (V.calls vol.old) → Recovers (V.calls vol.old) (V.calls vol.new) }
    ensures idle { OnOk result (V.tells → Idle (V.calls vol.new) (data_of (now (V.calls vol.new)))) }
    ensures undone { OnOk result (V.tells → undone (V.calls vol.old) ≡ Ok (data_of (now (V.calls vol.new)))) }
    ensures broken { IfErr result (RefusesAs V.tells (V.calls vol.old) (V.calls vol.new)) }
    ensures spares { V.tells → SparesBroken (V.calls vol.old) (V.calls vol.new) }
    ensures bound { V.bound vol.new ≡ true }
    ensures names { V.names vol.new ≡ V.names vol.old }
    ensures later { V.faults vol.old ≤ V.faults vol.new }
    ensures cause { Blames V.Volume result vol.old vol.new }
{
    restore(vol)?;
    Ok(())
}
