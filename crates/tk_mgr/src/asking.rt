//! Requests of a task, and the keeping of what they changed.
ghost use Rattle.std.specs.Prelude.{◌≡◌, false, true, Some, OnOk, IfOk, IsErrOf};
ghost use Rattle.tc_space.specs.Frames.{Follows, Keeps};
ghost use Rattle.tc_model.specs.Packing.{is_optimize};
ghost use Rattle.ty_base.specs.Holding.{FillsBy, Frame, IsReady, Laid, Leaves, OfHeld, PacksHeld, is_idle};
ghost use Rattle.ty_world.specs.World.{Mark};
ghost use Rattle.ty_rounds.specs.Kept.{HasMark, MovesTo};
ghost use Rattle.ty_rounds.specs.Keeping.{IsKept, IsKeptLaid, MovesLaid};
ghost use Rattle.tk_mgr.specs.Asking.{AnswersOf, CarriesOf, FillsRequest, IsIdle, IsTold, Looks, OnMgrFault};
ghost use Rattle.tk_mgr.specs.Managing.{MayManage};
ghost use Rattle.tk_mgr.specs.Tasks.{asked};

use crate::errors::MgrErr;
use tc_base::{Blob, Request};
use tc_model::{Applied, Walk};
use tc_space::Space;
use ty_base::Base;
use ty_rounds::{TurnErr, keep};

/// Makes a request. Its reply takes the place of the bytes that were there.
pub fn ask<B: Base>(
    base: &mut B,
    space: &mut B::S,
    request: Request,
    reply: &mut Blob,
) -> Result<Applied, MgrErr>
    requires ready { IsReady B.S.Space B.holds base.old space.old }
    ensures answers { IfOk result (λ a. AnswersOf B.S.Space B.holds request a base.old base.new space.old space.new reply.new) }
    ensures leaves { IfOk result (λ a. Leaves B.S.Space B.own B.layout (is_idle request a) space.old space.new) }
    ensures full { IsErrOf result MgrErr.Full → FillsBy B.S.Space B.holds (B.fills base.old space.old space.new) request base.old space.old (asked (Some request)) }
    ensures not_sink { IsErrOf result MgrErr.Sink → ⊥ }
    ensures keeps { Keeps B.S.Space space.old space.new }
    ensures cause { OnMgrFault B.S.Space result space.old space.new }
{
    let mut walk = Walk::new();
    reply.clear();
    Ok(base.apply(space, request, &mut walk, reply)?)
}

/// Makes a request that updates nothing and answers whether it succeeded. Its reply takes the place of the bytes that were there.
pub fn look<B: Base>(
    base: &mut B,
    space: &mut B::S,
    request: Request,
    reply: &mut Blob,
) -> Result<bool, MgrErr>
    requires ready { IsReady B.S.Space B.holds base.old space.old }
    requires idle { IsIdle request }
    ensures looks { OnOk result (Looks B.S.Space B.holds base.old base.new space.old space.new) }
    ensures told { IfOk result (λ ok. OfHeld B.S.Space B.holds base.old space.old (λ c. IsTold request ok c reply.new)) }
    ensures not_full { IsErrOf result MgrErr.Full → ⊥ }
    ensures not_sink { IsErrOf result MgrErr.Sink → ⊥ }
    ensures keeps { Keeps B.S.Space space.old space.new }
    ensures cause { OnMgrFault B.S.Space result space.old space.new }
{
    let applied = ask(base, space, request, reply)?;
    Ok(applied.ok)
}

/// Settles and commits, where there is anything to commit.
pub fn save<B: Base>(base: &mut B, space: &mut B::S, commits: bool) -> Result<(), MgrErr>
    requires ready { IsReady B.S.Space B.holds base.old space.old }
    requires untouched { commits ≡ false → B.S.touched space.old ≡ false }
    ensures kept { OnOk result (IsKept B.S.Space B.holds B.reopens commits base.old base.new space.old space.new) }
    ensures laid { OnOk result (IsKeptLaid B.S.Space B.holds B.reopens B.own B.layout commits base.old base.new space.old space.new) }
    ensures moved { MovesLaid B.S.Space B.holds B.reopens B.own B.layout commits base.old space.old space.new }
    ensures packs { OnOk result (commits ≡ true → PacksHeld B.S.Space B.holds B.tight B.packed base.old space.old space.new) }
    ensures moments { (m : Mark) → HasMark B.S.Space B.holds base.old space.old m → MovesTo B.S.Space B.reopens space.old space.new m }
    ensures full { IsErrOf result MgrErr.Full → B.S.tells → B.S.log_full space.new }
    ensures not_sink { IsErrOf result MgrErr.Sink → ⊥ }
    ensures follows { Follows B.S.Space space.old space.new }
    ensures cause { OnMgrFault B.S.Space result space.old space.new }
{
    match keep(base, space, commits) {
        Ok(()) => Ok(()),
        Err(TurnErr::Volume) => Err(MgrErr::Fault),
        Err(TurnErr::Full) => Err(MgrErr::Full),
        Err(TurnErr::Wire) => Err(MgrErr::Memory), // never: no wire was called
        Err(TurnErr::Memory) => Err(MgrErr::Memory),
    }
}

/// Makes a request that packs nothing, keeps what it changed, and answers whether it succeeded. Whatever the files are laid out like, so is what a stop leaves.
pub fn change<B: Base>(
    base: &mut B,
    space: &mut B::S,
    request: Request,
    reply: &mut Blob,
) -> Result<bool, MgrErr>
    requires may { MayManage B.S.Space B.holds B.reopens base.old space.old }
    requires packs_none { is_optimize request ≡ false }
    ensures carries { CarriesOf B.S.Space B.holds B.reopens (Some request) result base.old space.old space.new }
    ensures laid { (l : Frame) → CarriesOf B.S.Space B.holds (Laid B.own B.layout l B.reopens) (Some request) result base.old space.old space.new }
    ensures full { FillsRequest B.S.Space B.holds B.fills_since (Some request) result base.old space.old space.new }
    ensures not_sink { IsErrOf result MgrErr.Sink → ⊥ }
    ensures follows { Follows B.S.Space space.old space.new }
    ensures cause { OnMgrFault B.S.Space result space.old space.new }
{
    let applied = ask(base, space, request, reply)?;
    save(base, space, applied.updated)?;
    Ok(applied.ok)
}
