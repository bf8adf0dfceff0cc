//! Recovery puts the old bytes back, from the last entry to the first.
ghost use Rattle.std.specs.Prelude.{◌≡◌, ◌+◌, ◌≤◌, true, OnOk, OnErr, IfOk, IfErr};
ghost use Rattle.tc_io.specs.Images.{now};
ghost use Rattle.ud_log.specs.Log.{entries};
ghost use Rattle.ud_state.specs.Recovery.{CanPutBack, Restored};
ghost use Rattle.tc_undo.specs.Errors.{NotBroken};
ghost use Rattle.tc_undo.specs.Found.{EndsAt, FindsBack, PutBack, PutBackLost, QuietOverLog};
ghost use Rattle.tc_undo.specs.Volumes.{OnlyReads, StaysBound, Blames};

use crate::errors::{RecoverErr, rule};
use tc_io::Volume;
use ud_log::{is_formed, read_again, read_head};

/// The numbers of an entry, and where it begins.
#[derive(Clone, Copy)]
pub struct Back {
    file: u32,
    at: u64,
    size: u32,
    start: u64,
}

/// Finds the entry that ends at a place of the log, by the size at its end.
fn find_back<V: Volume>(vol: &mut V, end: u64) -> Result<Back, RecoverErr>
    requires bound { V.bound vol.old ≡ true }
    requires ends { V.tells → EndsAt (V.calls vol.old) end }
    ensures finds { IfOk result (λ b. FindsBack V.tells (V.calls vol.old) end b) }
    ensures reads { OnlyReads V.Volume vol.old vol.new }
    ensures whole { IfErr result (NotBroken V.tells) }
    ensures cause { Blames V.Volume result vol.old vol.new }
{
    if end < 20 {
        return Err(RecoverErr::Broken(rule(3)));
    }
    let mut back = [0u8; 4];
    vol.read(1, end - 4, &mut back)?;
    let size = read_again(&back);
    if size as u64 > end - 20 {
        return Err(RecoverErr::Broken(rule(3)));
    }
    let start = end - 20 - size as u64;
    let mut front = [0u8; 16];
    vol.read(1, start, &mut front)?;
    let head = read_head(&front);
    if !is_formed(head.file, size, size) {
        return Err(RecoverErr::Broken(rule(3)));
    }
    Ok(Back {
        file: head.file,
        at: head.at,
        size,
        start,
    })
}

/// Puts the entry that ends at a place of the log back. Answers where it begins.
pub fn put_back_one<V: Volume>(vol: &mut V, end: u64) -> Result<u64, RecoverErr>
    requires bound { V.bound vol.old ≡ true }
    requires ends { V.tells → EndsAt (V.calls vol.old) end }
    ensures put { IfOk result (λ start. V.tells → PutBack (V.calls vol.old) (V.calls vol.new) end start) }
    ensures lost { OnErr result (V.tells → PutBackLost (V.calls vol.old) (V.calls vol.new) end) }
    ensures order { IfOk result (λ start. start + 20 ≤ end) }
    ensures stays { StaysBound V.Volume vol.old vol.new }
    ensures whole { IfErr result (NotBroken V.tells) }
    ensures cause { Blames V.Volume result vol.old vol.new }
{
    let found = find_back(vol, end)?;
    let mut bytes = [0u8; 4096];
    let n = found.size as usize;
    vol.read(1, found.start + 16, &mut bytes[..n])?;
    vol.write(found.file, found.at, &bytes[..n])?;
    Ok(found.start)
}

/// Puts the entries of the log back that end at a place, from the last to the first.
pub fn put_back_all<V: Volume>(vol: &mut V, end: u64) -> Result<(), RecoverErr>
    requires bound { V.bound vol.old ≡ true }
    requires can { V.tells → CanPutBack (V.calls vol.old) end }
    ensures quiet { V.tells → QuietOverLog (V.calls vol.old) (V.calls vol.new) }
    ensures restored { OnOk result (V.tells → Restored (V.calls vol.old) (V.calls vol.new) (entries (now (V.calls vol.old) 1))) }
    ensures stays { StaysBound V.Volume vol.old vol.new }
    ensures whole { IfErr result (NotBroken V.tells) }
    ensures cause { Blames V.Volume result vol.old vol.new }
{
    let mut at = end;
    while at > 152 {
        at = put_back_one(vol, at)?;
    }
    Ok(())
}
