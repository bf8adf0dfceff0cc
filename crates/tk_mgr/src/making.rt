//! Requests of a drill, and commits behind them.
ghost use Rattle.std.specs.Prelude.{◌≡◌, ◌≤◌, ◌<◌, ◌+◌, ◌*◌, OnOk, IfOk, IsErrOf};
ghost use Rattle.tc_space.specs.Frames.{Follows, Keeps};
ghost use Rattle.ty_base.specs.Holding.{Frame, IsReady, Laid, Leaves};
ghost use Rattle.tk_mgr.specs.Drilling.{FillsMore, FillsUpTo, LeavesBy, Makes, MovesBy, Secures, StandsOn, Tells};
ghost use Rattle.tk_mgr.specs.Managing.{MayManage};
ghost use Rattle.tk_mgr.specs.Asking.{OnMgrFault};

use crate::asking::{ask, save};
use crate::drawing::{draw, drawn_request, has_rows};
use crate::errors::MgrErr;
use crate::report::report;
use crate::run::Run;
use tc_base::Blob;
use tc_space::Space;
use ty_base::Base;

// Makes the next request.
fn make_one<B: Base>(run: &mut Run, base: &mut B, space: &mut B::S) -> Result<(), MgrErr>
    requires ready { IsReady B.S.Space B.holds base.old space.old }
    requires room { run.old.made < u32.MAX }
    ensures makes { OnOk result (Makes B.S.Space B.holds 1 run.old run.new base.old base.new space.old space.new) }
    ensures leaves { OnOk result (Leaves B.S.Space B.own B.layout ⊥ space.old space.new) }
    ensures full { FillsMore B.S.Space B.holds B.fills_since B.lacks_large result 1 run.old base.old space.old space.new }
    ensures not_sink { IsErrOf result MgrErr.Sink → ⊥ }
    ensures keeps { Keeps B.S.Space space.old space.new }
    ensures cause { OnMgrFault B.S.Space result space.old space.new }
{
    let x = draw(run.drawn);
    let rows = has_rows(base.kind());
    let request = drawn_request(run.alloc, rows, x)?;
    let applied = ask(base, space, request, &mut run.reply)?;
    run.note(x, applied.ok);
    Ok(())
}

// Makes so many more.
fn make_some<B: Base>(
    run: &mut Run,
    more: u32,
    base: &mut B,
    space: &mut B::S,
) -> Result<(), MgrErr>
    requires ready { IsReady B.S.Space B.holds base.old space.old }
    requires room { run.old.made + more ≤ u32.MAX }
    ensures makes { OnOk result (Makes B.S.Space B.holds more run.old run.new base.old base.new space.old space.new) }
    ensures leaves { OnOk result (Leaves B.S.Space B.own B.layout ⊥ space.old space.new) }
    ensures full { FillsMore B.S.Space B.holds B.fills_since B.lacks_large result more run.old base.old space.old space.new }
    ensures not_sink { IsErrOf result MgrErr.Sink → ⊥ }
    ensures keeps { Keeps B.S.Space space.old space.new }
    ensures cause { OnMgrFault B.S.Space result space.old space.new }
{
    for _done in 0..more {
        make_one(run, base, space)?;
    }
    Ok(())
}

// Makes so many more, and commits.
fn keep_some<B: Base>(
    run: &mut Run,
    more: u32,
    base: &mut B,
    space: &mut B::S,
) -> Result<(), MgrErr>
    requires may { MayManage B.S.Space B.holds B.reopens base.old space.old }
    requires room { run.old.made + more ≤ u32.MAX }
    ensures secures { OnOk result (Secures B.S.Space B.holds B.reopens more run.old run.new base.old base.new space.old space.new) }
    ensures moments { MovesBy B.S.Space B.holds B.reopens more run.old base.old space.old space.new }
    ensures laid { OnOk result ((l : Frame) → StandsOn B.S.Space B.holds (Laid B.own B.layout l B.reopens) run.old run.new base.old base.new space.old space.new) }
    ensures moved { (l : Frame) → MovesBy B.S.Space B.holds (Laid B.own B.layout l B.reopens) more run.old base.old space.old space.new }
    ensures full { FillsUpTo B.S.Space B.holds B.fills_since B.lacks_large result B.reopens (run.old.made + more) run.old base.old space.old space.new }
    ensures not_sink { IsErrOf result MgrErr.Sink → ⊥ }
    ensures follows { Follows B.S.Space space.old space.new }
    ensures cause { OnMgrFault B.S.Space result space.old space.new }
{
    make_some(run, more, base, space)?;
    save(base, space, true)?;
    Ok(())
}

/// Makes so many hundreds of requests, with a commit behind each.
///
/// On an `Err` a stop leaves what was kept at one of the commits; the space is to be opened again.
pub fn keep_hundreds<B: Base>(
    run: &mut Run,
    most: u32,
    base: &mut B,
    space: &mut B::S,
) -> Result<(), MgrErr>
    requires may { MayManage B.S.Space B.holds B.reopens base.old space.old }
    requires none { run.old.made ≡ 0 }
    requires room { 100 * most ≤ u32.MAX }
    ensures secures { OnOk result (Secures B.S.Space B.holds B.reopens (100 * most) run.old run.new base.old base.new space.old space.new) }
    ensures moments { LeavesBy B.S.Space B.holds B.reopens most run.old base.old space.old space.new }
    ensures laid { OnOk result ((l : Frame) → StandsOn B.S.Space B.holds (Laid B.own B.layout l B.reopens) run.old run.new base.old base.new space.old space.new) }
    ensures moved { (l : Frame) → LeavesBy B.S.Space B.holds (Laid B.own B.layout l B.reopens) most run.old base.old space.old space.new }
    ensures full { FillsUpTo B.S.Space B.holds B.fills_since B.lacks_large result B.reopens (100 * most) run.old base.old space.old space.new }
    ensures not_sink { IsErrOf result MgrErr.Sink → ⊥ }
    ensures follows { Follows B.S.Space space.old space.new }
    ensures cause { OnMgrFault B.S.Space result space.old space.new }
{
    for _done in 0..most {
        keep_some(run, 100, base, space)?;
    }
    Ok(())
}

// Makes so many more, and gives what is to be printed behind them.
fn tell_some<B: Base>(
    run: &mut Run,
    more: u32,
    base: &mut B,
    space: &mut B::S,
) -> Result<Blob, MgrErr>
    requires ready { IsReady B.S.Space B.holds base.old space.old }
    requires room { run.old.made + more ≤ u32.MAX }
    ensures text { IfOk result (λ text. Tells B.S.Space B.holds run.old (run.old.made + more) base.old space.old text) }
    ensures makes { OnOk result (Makes B.S.Space B.holds more run.old run.new base.old base.new space.old space.new) }
    ensures leaves { OnOk result (Leaves B.S.Space B.own B.layout ⊥ space.old space.new) }
    ensures full { FillsMore B.S.Space B.holds B.fills_since B.lacks_large result more run.old base.old space.old space.new }
    ensures not_sink { IsErrOf result MgrErr.Sink → ⊥ }
    ensures keeps { Keeps B.S.Space space.old space.new }
    ensures cause { OnMgrFault B.S.Space result space.old space.new }
{
    make_some(run, more, base, space)?;
    report(run, base, space)
}

/// Makes so many more, commits, and gives what is to be printed.
///
/// On an `Err` a stop leaves what was kept before or after; the space is to be opened again.
pub fn keep_rest<B: Base>(
    run: &mut Run,
    more: u32,
    base: &mut B,
    space: &mut B::S,
) -> Result<Blob, MgrErr>
    requires may { MayManage B.S.Space B.holds B.reopens base.old space.old }
    requires room { run.old.made + more ≤ u32.MAX }
    ensures text { IfOk result (λ text. Tells B.S.Space B.holds run.old (run.old.made + more) base.old space.old text) }
    ensures secures { OnOk result (Secures B.S.Space B.holds B.reopens more run.old run.new base.old base.new space.old space.new) }
    ensures moments { MovesBy B.S.Space B.holds B.reopens more run.old base.old space.old space.new }
    ensures laid { OnOk result ((l : Frame) → StandsOn B.S.Space B.holds (Laid B.own B.layout l B.reopens) run.old run.new base.old base.new space.old space.new) }
    ensures moved { (l : Frame) → MovesBy B.S.Space B.holds (Laid B.own B.layout l B.reopens) more run.old base.old space.old space.new }
    ensures full { FillsUpTo B.S.Space B.holds B.fills_since B.lacks_large result B.reopens (run.old.made + more) run.old base.old space.old space.new }
    ensures not_sink { IsErrOf result MgrErr.Sink → ⊥ }
    ensures follows { Follows B.S.Space space.old space.new }
    ensures cause { OnMgrFault B.S.Space result space.old space.new }
{
    let text = tell_some(run, more, base, space)?;
    save(base, space, true)?;
    Ok(text)
}
