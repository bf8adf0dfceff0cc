//! Bytes for the log that wait until many of them are written by one call.
ghost use Rattle.std.specs.Prelude.{◌≡◌, ◌+◌, ◌≤◌, ◌∷◌, ◌++◌, [], true, length, OnOk};
ghost use Rattle.tc_base.specs.Files.{wrote};
ghost use Rattle.tc_io.specs.Causes.{HasCause};
ghost use Rattle.tc_io.specs.Images.{synced, written};
ghost use Rattle.tc_undo.specs.Ahead.{IsPending, Joins, Waits, ahead, text};
ghost use Rattle.tc_undo.specs.Volumes.{StaysQuiet};

use crate::waiting::{ROOM, Waiting};
use tc_base::Fault;
use tc_io::Volume;

/// Puts bytes over others from a place on.
pub fn put_at(into: &mut [u8], at: usize, bytes: &[u8])
    requires { at + length bytes.now ≤ length into.old }
    ensures { into.new ≡ wrote at bytes.now into.old }
{
    into[at..at + bytes.len()].copy_from_slice(bytes);
}

impl Waiting {
    /// No bytes, which takes no memory.
    pub fn new() -> Waiting
        ensures { text result ≡ [] }
    {
        Waiting {
            size: 0,
            room: [0; ROOM],
        }
    }

    /// Adds bytes, for which there is room.
    pub fn add(&mut self, bytes: &[u8])
        requires { self.old.size + length bytes.now ≤ 16384 }
        ensures { text self.new ≡ text self.old ++ bytes.now }
    {
        put_at(&mut self.room, self.size, bytes);
        self.size += bytes.len();
    }

    // There is room for so many bytes more.
    fn has_room(&self, size: usize) -> bool
        ensures { result ≡ true → self.now.size + size ≤ 16384 }
    {
        size <= ROOM - self.size
    }
}

// Writes what waits behind the log, which has so many bytes then.
fn flush<V: Volume>(vol: &mut V, waiting: &mut Waiting, end: u64) -> Result<(), Fault>
    requires bound { V.bound vol.old ≡ true }
    requires pending { V.tells → IsPending (ahead (V.calls vol.old) waiting.old) }
    requires waits { V.tells → Waits (V.calls vol.old) waiting.old end }
    ensures quiet { StaysQuiet V.Volume vol.old vol.new }
    ensures made { OnOk result (V.tells → V.calls vol.new ≡ ahead (V.calls vol.old) waiting.old) }
    ensures none { OnOk result (waiting.new.size ≡ 0) }
    ensures cause { HasCause (V.faults vol.old) (V.faults vol.new) result }
{
    let size = waiting.size;
    let at = end.saturating_sub(size as u64);
    vol.write(1, at, &waiting.room[..size])?;
    waiting.size = 0;
    Ok(())
}

// Writes what waits where there is no room for so many bytes more.
fn make_room<V: Volume>(
    vol: &mut V,
    waiting: &mut Waiting,
    end: u64,
    size: usize,
) -> Result<(), Fault>
    requires bound { V.bound vol.old ≡ true }
    requires few { size ≤ 4116 }
    requires pending { V.tells → IsPending (ahead (V.calls vol.old) waiting.old) }
    requires waits { V.tells → Waits (V.calls vol.old) waiting.old end }
    ensures quiet { StaysQuiet V.Volume vol.old vol.new }
    ensures room { OnOk result (waiting.new.size + size ≤ 16384) }
    ensures joins { OnOk result (V.tells → Joins (ahead (V.calls vol.old) waiting.old) (ahead (V.calls vol.new) waiting.new)) }
    ensures waits { OnOk result (V.tells → Waits (V.calls vol.new) waiting.new end) }
    ensures cause { HasCause (V.faults vol.old) (V.faults vol.new) result }
{
    if waiting.has_room(size) {
        return Ok(());
    }
    flush(vol, waiting, end)?;
    Ok(())
}

/// Puts bytes behind the log of so many bytes, as a write would. They wait.
pub fn push<V: Volume>(
    vol: &mut V,
    waiting: &mut Waiting,
    end: u64,
    bytes: &[u8],
) -> Result<(), Fault>
    requires bound { V.bound vol.old ≡ true }
    requires few { length bytes.now ≤ 4116 }
    requires pending { V.tells → IsPending (ahead (V.calls vol.old) waiting.old) }
    requires waits { V.tells → Waits (V.calls vol.old) waiting.old end }
    ensures quiet { StaysQuiet V.Volume vol.old vol.new }
    ensures joins { OnOk result (V.tells → Joins ((1, written end bytes.now) ∷ ahead (V.calls vol.old) waiting.old) (ahead (V.calls vol.new) waiting.new)) }
    ensures waits { OnOk result (V.tells → Waits (V.calls vol.new) waiting.new (end + length bytes.now)) }
    ensures cause { HasCause (V.faults vol.old) (V.faults vol.new) result }
{
    make_room(vol, waiting, end, bytes.len())?;
    waiting.add(bytes);
    Ok(())
}

/// Writes what waits behind the log, which has so many bytes then, and brings the log to the disk. One sync.
pub fn bring<V: Volume>(vol: &mut V, waiting: &mut Waiting, end: u64) -> Result<(), Fault>
    requires bound { V.bound vol.old ≡ true }
    requires pending { V.tells → IsPending (ahead (V.calls vol.old) waiting.old) }
    requires waits { V.tells → Waits (V.calls vol.old) waiting.old end }
    ensures quiet { StaysQuiet V.Volume vol.old vol.new }
    ensures made { OnOk result (V.tells → V.calls vol.new ≡ (1, synced) ∷ ahead (V.calls vol.old) waiting.old) }
    ensures cause { HasCause (V.faults vol.old) (V.faults vol.new) result }
{
    flush(vol, waiting, end)?;
    vol.sync(1)?; // the header and the entries
    Ok(())
}
