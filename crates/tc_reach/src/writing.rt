//! Bytes of a file, written and cut.
ghost use Rattle.std.specs.Prelude.{◌≡◌, ◌⊎◌, ◌<◌, ℕ, ◌+◌, length, take, false, OnOk, IsErrOf};
ghost use Rattle.tc_base.specs.Files.{wrote};
ghost use Rattle.tc_io.specs.Causes.{Rose};
ghost use Rattle.tc_space.specs.Effects.{Changes, Outcome};
ghost use Rattle.tc_space.specs.Frames.{Brought, OnlyWrites};
ghost use Rattle.tc_space.specs.Ranges.{IsDataFile, Passes, Reaches};
ghost use Rattle.tc_space.specs.Refusals.{OnFault, OnlyLogIsFull};

use tc_space::{RecErr, Space};

/// Writes bytes over those of a file from a place on, which may make it longer. After a refusal the space isn't sound; where it was for want of
/// room nothing was written.
pub fn write_at<S: Space>(space: &mut S, file: u32, at: u64, bytes: &[u8]) -> Result<(), RecErr>
    requires sound { S.sound space.old }
    requires reaches { Reaches S.tells (S.now space.old) file at }
    ensures wrote { OnOk result (S.tells → Changes S.now file (wrote at bytes.now (S.now space.old file)) space.old space.new) }
    ensures outcome { Outcome S.sound S.flag result space.new }
    ensures writes { OnlyWrites S.Space space.old space.new }
    ensures full { IsErrOf result RecErr.Full → Passes (S.limit space.old file) (S.log_full space.new) at (length bytes.now) }
    ensures brought { IsErrOf result RecErr.Full → S.limit space.old file < at + length bytes.now → S.brought space.new }
    ensures same { IsErrOf result RecErr.Full → S.tells → (g : ℕ) → S.now space.new g ≡ S.now space.old g }
    ensures cause { OnFault S.Space result space.old space.new }
{
    space.write(file, at, bytes)?;
    Ok(())
}

/// Writes bytes over others of a file. After a refusal the space isn't sound; where it was for want of room nothing was written.
pub fn write_over<S: Space>(space: &mut S, file: u32, at: u64, bytes: &[u8]) -> Result<(), RecErr>
    requires sound { S.sound space.old }
    requires reaches { Reaches S.tells (S.now space.old) file (at + length bytes.now) }
    ensures wrote { OnOk result (S.tells → Changes S.now file (wrote at bytes.now (S.now space.old file)) space.old space.new) }
    ensures outcome { Outcome S.sound S.flag result space.new }
    ensures writes { OnlyWrites S.Space space.old space.new }
    ensures full { OnlyLogIsFull S.Space result space.new }
    ensures same { IsErrOf result RecErr.Full → S.tells → (g : ℕ) → S.now space.new g ≡ S.now space.old g }
    ensures cause { OnFault S.Space result space.old space.new }
{
    space.write(file, at, bytes)?;
    Ok(())
}

/// Cuts a file to a length, if it is longer. After a refusal the space isn't sound; where it was for want of room nothing was cut.
pub fn cut_to<S: Space>(space: &mut S, file: u32, len: u64) -> Result<(), RecErr>
    requires sound { S.sound space.old }
    requires file { IsDataFile file }
    ensures cut { OnOk result (S.tells → Changes S.now file (take len (S.now space.old file)) space.old space.new) }
    ensures outcome { Outcome S.sound S.flag result space.new }
    ensures writes { OnlyWrites S.Space space.old space.new }
    ensures full { OnlyLogIsFull S.Space result space.new }
    ensures same { IsErrOf result RecErr.Full → S.tells → (g : ℕ) → S.now space.new g ≡ S.now space.old g }
    ensures cause { OnFault S.Space result space.old space.new }
{
    if space.len(file) <= len {
        return Ok(());
    }
    space.cut(file, len)?;
    Ok(())
}

/// Gives the space up: it isn't sound any more, and nothing is written.
pub fn give_up<S: Space>(space: &mut S)
    ensures spoiled { S.flag space.new ≡ false }
    ensures same { S.tells → (g : ℕ) → S.now space.new g ≡ S.now space.old g }
    ensures writes { OnlyWrites S.Space space.old space.new }
    ensures faults { S.faults space.new ≡ S.faults space.old }
{
    space.spoil();
}

/// Gives up a space that has no room, with what it holds brought to its files. The answer: that it is full, or a fault where they couldn't be brought there.
pub fn full_in<S: Space>(space: &mut S) -> RecErr
    requires sound { S.sound space.old }
    ensures spoiled { S.flag space.new ≡ false }
    ensures full { result ≡ RecErr.Full → (file : ℕ) → Brought S.Space file space.old space.new }
    ensures fault { result ≡ RecErr.Fault → Rose (S.faults space.old) (S.faults space.new) }
    ensures writes { OnlyWrites S.Space space.old space.new }
{
    match space.give_up() {
        Ok(()) => RecErr::Full,
        Err(_) => RecErr::Fault,
    }
}

/// Gives up a space for a cause, which is the answer; where it has no room, as `full_in` does.
pub fn refused_for<S: Space>(space: &mut S, cause: RecErr) -> RecErr
    requires sound { S.sound space.old }
    ensures spoiled { S.flag space.new ≡ false }
    ensures full { result ≡ RecErr.Full → (cause ≡ RecErr.Full) × ((file : ℕ) → Brought S.Space file space.old space.new) }
    ensures fault { result ≡ RecErr.Fault → (cause ≡ RecErr.Fault) ⊎ Rose (S.faults space.old) (S.faults space.new) }
    ensures writes { OnlyWrites S.Space space.old space.new }
{
    match cause {
        RecErr::Full => full_in(space),
        _ => {
            give_up(space);
            cause
        }
    }
}
