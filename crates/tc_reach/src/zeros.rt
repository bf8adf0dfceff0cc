//! Zeros written over bytes of a file, or added behind bytes.
ghost use Rattle.std.specs.Prelude.{◌≡◌, ◌-◌, ◌⊎◌, ◌++◌, replicate, OnOk, OnErr, IsErrOf, false};
ghost use Rattle.tc_base.specs.Files.{wrote};
ghost use Rattle.tc_space.specs.Effects.{Changes, Outcome};
ghost use Rattle.tc_space.specs.Frames.{OnlyReads, OnlyWrites};
ghost use Rattle.tc_space.specs.Ranges.{Reaches};
ghost use Rattle.tc_space.specs.Refusals.{OnFault};
ghost use Rattle.tc_reach.specs.Limits.{AddsSome, AreZeros, HasNoRoom};

use crate::writing::write_at;
use std::alloc::{AllocError, Global};
use tc_base::Blob;
use tc_space::{RecErr, Space};

// The greatest number of zeros in one write.
const PIECE: u64 = 65_536;

/// Writes zeros from a place up to another, as many at a time as are given. After a refusal the space isn't sound.
pub fn write_zeros<S: Space>(
    space: &mut S,
    file: u32,
    from: u64,
    to: u64,
    zeros: &[u8],
) -> Result<(), RecErr>
    requires sound { S.sound space.old }
    requires reaches { Reaches S.tells (S.now space.old) file from }
    requires zeros { AreZeros zeros.now }
    ensures wrote { OnOk result (S.tells → Changes S.now file (wrote from (replicate (to - from) 0) (S.now space.old file)) space.old space.new) }
    ensures outcome { Outcome S.sound S.flag result space.new }
    ensures writes { OnlyWrites S.Space space.old space.new }
    ensures full { IsErrOf result RecErr.Full → HasNoRoom (S.limit space.old file) (S.log_full space.new) to }
    ensures cause { OnFault S.Space result space.old space.new }
{
    let mut at = from;
    while at < to {
        let n = (to - at).min(zeros.len() as u64) as usize;
        write_at(space, file, at, &zeros[..n])?;
        at += n as u64;
    }
    Ok(())
}

/// Writes zeros from a place up to another. After a refusal the space isn't sound, or nothing has changed.
pub fn clear_up_to<S: Space>(
    alloc: Global,
    space: &mut S,
    file: u32,
    from: u64,
    to: u64,
) -> Result<(), RecErr>
    requires sound { S.sound space.old }
    requires reaches { Reaches S.tells (S.now space.old) file from }
    ensures wrote { OnOk result (S.tells → Changes S.now file (wrote from (replicate (to - from) 0) (S.now space.old file)) space.old space.new) }
    ensures sound { OnOk result (S.sound space.new) }
    ensures refused { OnErr result ((S.flag space.new ≡ false) ⊎ OnlyReads S.Space space.old space.new) }
    ensures writes { OnlyWrites S.Space space.old space.new }
    ensures full { IsErrOf result RecErr.Full → (S.flag space.new ≡ false) × HasNoRoom (S.limit space.old file) (S.log_full space.new) to }
    ensures cause { OnFault S.Space result space.old space.new }
{
    if to <= from {
        return Ok(());
    }
    let zeros = vec![in alloc; 0; (to - from).min(PIECE) as usize]?;
    write_zeros(space, file, from, to, &zeros)
}

/// Adds zeros behind bytes. An `Err` may have added some.
pub fn append_zeros(count: usize, into: &mut Blob) -> Result<(), AllocError>
    ensures ok { OnOk result (into.new ≡ into.old ++ replicate count 0) }
    ensures err { OnErr result (AddsSome into.old into.new) }
{
    let zeros = [0; 256];
    let mut rest = count;
    while rest > 0 {
        let n = rest.min(zeros.len());
        into.append(&zeros[..n])?;
        rest -= n;
    }
    Ok(())
}
