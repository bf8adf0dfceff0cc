//! A write or a cut in a transaction: the old bytes go behind the log and to the disk, then the file changes.
ghost use Rattle.std.specs.Prelude.{◌≡◌, ◌+◌, ◌-◌, ◌^◌, ◌≤◌, ◌++◌, true, OnOk, IfOk};
ghost use Rattle.tc_io.specs.Causes.{HasCause};
ghost use Rattle.ud_log.specs.Log.{magic, numbers_bytes};
ghost use Rattle.ud_state.specs.State.{Logging};
ghost use Rattle.tc_undo.specs.Ahead.{Waits, ahead, text};
ghost use Rattle.tc_undo.specs.Changes.{Logs, MakesEntry, MayLog};
ghost use Rattle.tc_undo.specs.Guards.{Grows};
ghost use Rattle.tc_undo.specs.Room.{needs};
ghost use Rattle.tc_undo.specs.Volumes.{StaysQuiet};

use crate::gather::push;
use crate::waiting::Waiting;
use tc_base::Fault;
use tc_io::Volume;
use ud_log::{frame, header_of};

/// The front of the log of a transaction that records these lengths, which waits.
pub fn begin(lens: &[u64; 18]) -> Waiting
    ensures { text result ≡ magic ++ numbers_bytes lens.now }
{
    let mut waiting = Waiting::new();
    waiting.add(&header_of(lens));
    waiting
}

/// Puts some old bytes of a file behind the log.
fn log_old<V: Volume>(
    vol: &mut V,
    waiting: &mut Waiting,
    end: u64,
    recorded: &[u64; 18],
    file: u32,
    from: u64,
    at: u64,
    n: u32,
) -> Result<(), Fault>
    requires bound { V.bound vol.old ≡ true }
    requires logging { V.tells → Logging (ahead (V.calls vol.old) waiting.old) recorded.now file from at }
    requires waits { V.tells → Waits (V.calls vol.old) waiting.old end }
    requires entry { MakesEntry V.tells (ahead (V.calls vol.old) waiting.old) recorded.now file at n }
    ensures quiet { StaysQuiet V.Volume vol.old vol.new }
    ensures logs { OnOk result (V.tells → Logs (ahead (V.calls vol.old) waiting.old) (ahead (V.calls vol.new) waiting.new) recorded.now file from (at + n) (end + 20 + n)) }
    ensures grows { OnOk result (V.tells → Grows (ahead (V.calls vol.old) waiting.old) (ahead (V.calls vol.new) waiting.new) recorded.now file at (at + n)) }
    ensures waits { OnOk result (V.tells → Waits (V.calls vol.new) waiting.new (end + 20 + n)) }
    ensures cause { HasCause (V.faults vol.old) (V.faults vol.new) result }
{
    let mut entry = [0u8; 4116];
    let len = n as usize;
    vol.read(file, at, &mut entry[16..16 + len])?;
    frame(&mut entry, file, at, n);
    push(vol, waiting, end, &entry[..20 + len])?;
    Ok(())
}

/// Puts the old bytes of a range of a file behind the log, in entries of at most 4096 bytes. Answers the log's new length.
pub fn log_range<V: Volume>(
    vol: &mut V,
    waiting: &mut Waiting,
    end: u64,
    recorded: &[u64; 18],
    file: u32,
    at: u64,
    stop: u64,
) -> Result<u64, Fault>
    requires bound { V.bound vol.old ≡ true }
    requires logging { V.tells → Logging (ahead (V.calls vol.old) waiting.old) recorded.now file at at }
    requires waits { V.tells → Waits (V.calls vol.old) waiting.old end }
    requires may { MayLog V.tells (ahead (V.calls vol.old) waiting.old) recorded.now end file at stop }
    ensures quiet { StaysQuiet V.Volume vol.old vol.new }
    ensures logs { IfOk result (λ size. V.tells → Logs (ahead (V.calls vol.old) waiting.old) (ahead (V.calls vol.new) waiting.new) recorded.now file at stop size) }
    ensures grows { IfOk result (λ size. V.tells → Grows (ahead (V.calls vol.old) waiting.old) (ahead (V.calls vol.new) waiting.new) recorded.now file at stop) }
    ensures waits { IfOk result (λ size. V.tells → Waits (V.calls vol.new) waiting.new size) }
    ensures low { IfOk result (λ size. size ≤ 2 ^ 62) }
    ensures spent { IfOk result (λ size. size ≤ end + needs (stop - at)) }
    ensures cause { HasCause (V.faults vol.old) (V.faults vol.new) result }
{
    let mut place = at;
    let mut size = end;
    while place < stop {
        let n = (stop - place).min(4096) as u32;
        log_old(vol, waiting, size, recorded, file, at, place, n)?;
        place += n as u64;
        size += 20 + n as u64;
    }
    Ok(size)
}
