//! A drill: requests that a seed determines, and what came of them.
ghost use Rattle.std.specs.Prelude.{◌≡◌, ◌≤◌, IfOk, OnOk, IsErrOf};
ghost use Rattle.tc_io.specs.Causes.{Rose};
ghost use Rattle.ty_base.specs.Holding.{Frame, Laid};
ghost use Rattle.tk_mgr.specs.Managing.{FillsTaskOf, Manages, MayManage};
ghost use Rattle.tk_mgr.specs.Tasks.{text_of};
ghost use Rattle.tk_mgr.specs.declared.task.Task.TheVariants.{Drill};
ghost use Rattle.tc_space.specs.Frames.{Follows};
ghost use Rattle.tk_mgr.specs.Asking.{LeavesAll, LeavesLast, OfMark, OnMgrFault};

use crate::errors::MgrErr;
use crate::making::{keep_hundreds, keep_rest};
use crate::run::Run;
use std::alloc::Global;
use tc_base::Blob;
use tc_io::Sink;
use tc_space::Space;
use ty_base::Base;

// Makes the requests, commits, and gives what is to be printed.
fn make<B: Base>(
    alloc: Global,
    seed: u64,
    count: u32,
    base: &mut B,
    space: &mut B::S,
) -> Result<Blob, MgrErr>
    requires may { MayManage B.S.Space B.holds B.reopens base.old space.old }
    ensures text { IfOk result (λ text. OfMark B.S.Space B.holds B.reopens base.old space.old (λ m. text ≡ text_of (Drill seed count) m.contents)) }
    ensures moments { LeavesAll B.S.Space B.holds B.reopens (Drill seed count) base.old space.old space.new }
    ensures moved { (l : Frame) → LeavesAll B.S.Space B.holds (Laid B.own B.layout l B.reopens) (Drill seed count) base.old space.old space.new }
    ensures last { OnOk result (LeavesLast B.S.Space B.holds B.reopens (Drill seed count) base.old space.old space.new) }
    ensures laid { OnOk result ((l : Frame) → LeavesLast B.S.Space B.holds (Laid B.own B.layout l B.reopens) (Drill seed count) base.old space.old space.new) }
    ensures full { FillsTaskOf B.S.Space B.holds B.reopens B.fills_since B.lacks_large (Drill seed count) result base.old space.old space.new }
    ensures not_sink { IsErrOf result MgrErr.Sink → ⊥ }
    ensures follows { Follows B.S.Space space.old space.new }
    ensures cause { OnMgrFault B.S.Space result space.old space.new }
{
    let mut run = Run::new(alloc, seed);
    keep_hundreds(&mut run, count / 100, base, space)?;
    keep_rest(&mut run, count % 100, base, space)
}

/// Makes so many requests that the seed determines, commits behind each hundred of them and in the end, and then prints what came of
/// them. A request that fails is counted, and the answer is always true.
///
/// On an `Err` a stop leaves what was kept at one of the commits; the space is to be opened again.
pub fn drill<B: Base, O: Sink>(
    alloc: Global,
    seed: u64,
    count: u32,
    base: &mut B,
    space: &mut B::S,
    out: &mut O,
) -> Result<bool, MgrErr>
    requires may { MayManage B.S.Space B.holds B.reopens base.old space.old }
    ensures managed { Manages B.S.Space O.Sink B.holds B.reopens B.lines (Drill seed count) result base.old space.old space.new out.old out.new }
    ensures laid { (l : Frame) → Manages B.S.Space O.Sink B.holds (Laid B.own B.layout l B.reopens) B.lines (Drill seed count) result base.old space.old space.new out.old out.new }
    ensures full { FillsTaskOf B.S.Space B.holds B.reopens B.fills_since B.lacks_large (Drill seed count) result base.old space.old space.new }
    ensures follows { Follows B.S.Space space.old space.new }
    ensures later { O.faults out.old ≤ O.faults out.new }
    ensures cause { OnMgrFault B.S.Space result space.old space.new }
    ensures cause_sink { IsErrOf result MgrErr.Sink → Rose (O.faults out.old) (O.faults out.new) }
{
    let text = make(alloc, seed, count, base, space)?;
    match out.put(text.as_slice()) {
        Ok(()) => Ok(true),
        Err(_) => Err(MgrErr::Sink),
    }
}
