//! A write or a cut, its old bytes first.
ghost use Rattle.std.specs.Prelude.{◌≡◌, ◌+◌, ◌^◌, ◌≤◌, true, length, take, min, max, OnOk};
ghost use Rattle.tc_base.specs.Files.{wrote};
ghost use Rattle.tc_io.specs.Causes.{HasCause};
ghost use Rattle.tc_io.specs.Images.{now};
ghost use Rattle.ud_log.specs.Undo.{length_of};
ghost use Rattle.tc_undo.specs.Changes.{Changes, KnowsLens, MayChange, LogIsValid};
ghost use Rattle.tc_undo.specs.Volumes.{StaysQuiet};

use crate::room::Log;
use crate::secure::secure;
use tc_base::Fault;
use tc_io::Volume;
use ud_log::place;

/// Writes bytes over a data file. `stop` is where those that need entries end.
pub fn write_through<V: Volume>(
    vol: &mut V,
    log: &mut Log,
    lens: &mut [u64; 18],
    file: u32,
    at: u64,
    bytes: &[u8],
    stop: u64,
) -> Result<(), Fault>
    requires bound { V.bound vol.old ≡ true }
    requires valid { LogIsValid V.tells (V.calls vol.old) log.old }
    requires lens { KnowsLens V.tells (now (V.calls vol.old)) lens.old }
    requires may { MayChange V.tells (V.calls vol.old) log.old lens.old file at (at + length bytes.now) stop }
    requires small { at + length bytes.now ≤ 2 ^ 40 }
    ensures quiet { StaysQuiet V.Volume vol.old vol.new }
    ensures changes { OnOk result (Changes V.tells (V.calls vol.old) (V.calls vol.new) log.new lens.old lens.new file (λ n. max n (at + length bytes.now)) (wrote at bytes.now)) }
    ensures cause { HasCause (V.faults vol.old) (V.faults vol.new) result }
{
    secure(vol, log, lens, file, at, stop)?;
    vol.write(file, at, bytes)?;
    let i = place(file);
    log.changed[i] = true;
    lens[i] = lens[i].max(at + bytes.len() as u64);
    Ok(())
}

/// Shortens a data file. `stop` is where the bytes that need entries end.
pub fn cut_through<V: Volume>(
    vol: &mut V,
    log: &mut Log,
    lens: &mut [u64; 18],
    file: u32,
    len: u64,
    stop: u64,
) -> Result<(), Fault>
    requires bound { V.bound vol.old ≡ true }
    requires valid { LogIsValid V.tells (V.calls vol.old) log.old }
    requires lens { KnowsLens V.tells (now (V.calls vol.old)) lens.old }
    requires may { MayChange V.tells (V.calls vol.old) log.old lens.old file len (length_of lens.old file) stop }
    ensures quiet { StaysQuiet V.Volume vol.old vol.new }
    ensures changes { OnOk result (Changes V.tells (V.calls vol.old) (V.calls vol.new) log.new lens.old lens.new file (λ n. min n len) (take len)) }
    ensures cause { HasCause (V.faults vol.old) (V.faults vol.new) result }
{
    secure(vol, log, lens, file, len, stop)?;
    vol.cut(file, len)?;
    let i = place(file);
    log.changed[i] = true;
    lens[i] = lens[i].min(len);
    Ok(())
}
