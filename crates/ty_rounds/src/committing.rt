//! What was done is brought to the files and kept.
ghost use Rattle.std.specs.Prelude.{◌≡◌, false, true, OnOk, IfErr, IsErrOf, Option};
ghost use Rattle.tc_io.specs.Causes.{Rose};
ghost use Rattle.tc_space.specs.Frames.{Follows, OnlyReads};
ghost use Rattle.tc_space.specs.Refusals.{OnFault};
ghost use Rattle.ty_base.specs.Holding.{PacksHeld};
ghost use Rattle.ty_world.specs.World.{Mark};
ghost use Rattle.ty_rounds.specs.declared.outcome.TurnErr.TheVariants.{Wire as wire_err};
ghost use Rattle.ty_rounds.specs.Kept.{HasMark, MovesTo};
ghost use Rattle.ty_rounds.specs.Keeping.{IsKept, IsKeptLaid, KeepsRound, KeepsLaid, MayKeep, MayKeepRound, MovesLaid};
ghost use Rattle.ty_rounds.specs.Works.{IsFit, work};
ghost use Rattle.ty_rounds.specs.Writing.{Writes, WritesAll};

use crate::batch::Batch;
use crate::logging::Logged;
use crate::outcome::TurnErr;
use tc_io::Clock;
use tc_space::{RecErr, Space};
use ty_base::Base;

/// Settles and commits, where there is anything to commit. The numbers of the files stay, and those beside them; what is committed has nothing behind what the heads say. It is full only where the undo log is.
///
/// On an `Err`, which is never `Wire`, a stop leaves what was kept before or what stands for what was held; the space is to be opened again.
pub fn keep<B: Base>(base: &mut B, space: &mut B::S, commits: bool) -> Result<(), TurnErr>
    requires may { MayKeep B.S.Space B.holds commits base.old space.old }
    ensures kept { OnOk result (IsKept B.S.Space B.holds B.reopens commits base.old base.new space.old space.new) }
    ensures packs { OnOk result (commits ≡ true → PacksHeld B.S.Space B.holds B.tight B.packed base.old space.old space.new) }
    ensures moments { (m : Mark) → HasMark B.S.Space B.holds base.old space.old m → MovesTo B.S.Space B.reopens space.old space.new m }
    ensures laid { OnOk result (IsKeptLaid B.S.Space B.holds B.reopens B.own B.layout commits base.old base.new space.old space.new) }
    ensures moved { MovesLaid B.S.Space B.holds B.reopens B.own B.layout commits base.old space.old space.new }
    ensures idle { commits ≡ false → OnlyReads B.S.Space space.old space.new }
    ensures not_wire { IfErr result (λ e. e ≡ wire_err → ⊥) }
    ensures full { IsErrOf result TurnErr.Full → (commits ≡ true) × (B.S.tells → B.S.log_full space.new) }
    ensures follows { Follows B.S.Space space.old space.new }
    ensures cause { IsErrOf result TurnErr.Volume → Rose (B.S.faults space.old) (B.S.faults space.new) }
{
    if !commits {
        return Ok(());
    }
    base.settle(space)?;
    match space.commit() {
        Ok(()) => Ok(()), // it is kept
        Err(_) => Err(TurnErr::Volume),
    }
}

// Writes the records of a round: one of each request that updated, then the one that was taken, byte for byte. It takes the space's soundness
// with it where it fails behind the first.
fn write_records<S: Space, K: Clock>(
    logged: &mut Logged,
    space: &mut S,
    clock: &mut K,
    batch: &Batch,
) -> Result<(), RecErr>
    requires sound { S.sound space.old }
    requires fit { IsFit (Some logged.old) (work batch.now) }
    ensures writes { Writes S.Space (work batch.now) (K.answers clock.old) (K.answers clock.new) logged.old logged.new space.old space.new result }
    ensures frame { OnlyWrites S.Space space.old space.new }
    ensures cause { OnFault S.Space result space.old space.new }
{
    logged
        .ulog
        .append_updates(space, clock, logged.own, batch.updates.as_slice())?;
    let Some(record) = &batch.taken else {
        return Ok(());
    };
    logged.ulog.append(space, record)
}

ghost use Rattle.std.specs.Prelude.{Some};
ghost use Rattle.tc_space.specs.Frames.{OnlyWrites};

// Writes the records of a round, where an update log is kept.
fn write_all<S: Space, K: Clock>(
    logged: &mut Option<Logged>,
    space: &mut S,
    clock: &mut K,
    batch: &Batch,
) -> Result<(), RecErr>
    requires sound { S.sound space.old }
    requires fit { IsFit logged.old (work batch.now) }
    ensures writes { WritesAll S.Space (work batch.now) (K.answers clock.old) (K.answers clock.new) logged.old logged.new space.old space.new result }
    ensures sound { OnOk result (S.sound space.new) }
    ensures frame { OnlyWrites S.Space space.old space.new }
    ensures cause { OnFault S.Space result space.old space.new }
{
    match logged {
        Some(logged) => write_records(logged, space, clock, batch),
        None => Ok(()),
    }
}

/// Settles, writes the records of a round where an update log is kept, and commits, where there is anything to commit. The numbers of the files
/// stay, and those beside them but for the update log; what is committed has nothing behind what the heads say. It is full only where the undo
/// log is, or a record has no room.
///
/// On an `Err`, which is never `Wire`, a stop leaves what was kept before or what stands for the mark behind the round; the space is to be opened again.
pub fn keep_round<B: Base, K: Clock>(
    base: &mut B,
    space: &mut B::S,
    logged: &mut Option<Logged>,
    clock: &mut K,
    batch: &Batch,
) -> Result<(), TurnErr>
    requires may { MayKeepRound B.S.Space B.holds B.reopens logged.old (work batch.now) base.old space.old }
    ensures keeps { KeepsRound B.S.Space B.holds B.reopens (work batch.now) (K.answers clock.old) (K.answers clock.new) logged.old logged.new base.old base.new space.old space.new result }
    ensures laid { KeepsLaid B.S.Space B.holds B.reopens B.own B.layout (work batch.now) (K.answers clock.old) (K.answers clock.new) logged.old logged.new base.old base.new space.old space.new result }
    ensures idle { batch.now.commits ≡ false → OnlyReads B.S.Space space.old space.new }
    ensures not_wire { IfErr result (λ e. e ≡ wire_err → ⊥) }
    ensures same { OnOk result (SameTerms logged.old logged.new) }
    ensures still { batch.now.commits ≡ false → logged.new ≡ logged.old }
    ensures follows { Follows B.S.Space space.old space.new }
    ensures cause { IsErrOf result TurnErr.Volume → Rose (B.S.faults space.old) (B.S.faults space.new) }
{
    if !batch.commits {
        return Ok(());
    }
    base.settle(space)?; // in front of its records
    write_all(logged, space, clock, batch)?;
    match space.commit() {
        Ok(()) => Ok(()), // they are kept
        Err(_) => Err(TurnErr::Volume),
    }
}

ghost use Rattle.ty_rounds.specs.Books.{SameTerms};
