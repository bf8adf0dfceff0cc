//! What a drill prints.
ghost use Rattle.std.specs.Prelude.{◌≡◌, ◌≤◌, ◌-◌, ◌++◌, true, codes, IfOk, OnOk, IsErrOf};
ghost use Rattle.std.specs.Fmt.{decimal};
ghost use Rattle.tc_base.specs.declared.request.Request.TheVariants.{Stat};
ghost use Rattle.tc_space.specs.Frames.{Keeps};
ghost use Rattle.tc_model.specs.Contents.{kind_of};
ghost use Rattle.ty_base.specs.Holding.{IsReady, Leaves};
ghost use Rattle.tk_mgr.specs.Asking.{IsTold, OnMgrFault};
ghost use Rattle.tk_mgr.specs.Drilling.{Makes, Tells};
ghost use Rattle.tk_mgr.specs.Drills.{Drilled, summary};

use crate::asking::look;
use crate::errors::MgrErr;
use crate::informing::counts;
use crate::run::Run;
use itoa::Buffer;
use std::alloc::{AllocError, Global};
use tc_base::{Blob, Kind, Request};
use tc_space::Space;
use ty_base::Base;

// Adds a name and a number.
fn add_number(name: &[u8], n: u32, into: &mut Blob) -> Result<(), AllocError>
    ensures { OnOk result (into.new ≡ into.old ++ (name.now ++ decimal n)) }
{
    let mut buffer = Buffer::new();
    into.append(name)?;
    into.append(buffer.format(n).as_bytes())?;
    Ok(())
}

// Adds how many requests were made, and how many of them succeeded and failed.
fn add_counts(made: u32, accepted: u32, into: &mut Blob) -> Result<(), AllocError>
    requires few { accepted ≤ made }
    ensures { OnOk result (into.new ≡ into.old ++ (codes "requests " ++ (decimal made ++ (codes " ok " ++ (decimal accepted ++ (codes " refused " ++ decimal (made - accepted))))))) }
{
    add_number(b"requests ", made, into)?;
    add_number(b" ok ", accepted, into)?;
    add_number(b" refused ", made - accepted, into)?;
    Ok(())
}

// The text, from a run and the reply to `Stat` behind it.
fn summary_text(alloc: Global, kind: Kind, run: &Run, reply: &[u8]) -> Result<Blob, AllocError>
    ensures { IfOk result (λ text. (d : Drilled) → run.now.accepted ≡ d.accepted → kind ≡ kind_of d.contents → IsTold Stat true d.contents reply.now → text ≡ summary run.now.made d) }
{
    let (records, size) = counts(kind, reply);
    let mut text = Blob::new(alloc);
    add_counts(run.made, run.accepted, &mut text)?;
    text.append(b" records ")?;
    text.append(records)?;
    text.append(b" size ")?;
    text.append(size)?;
    text.push(b'\n')?;
    Ok(text)
}

/// What is printed of a run. `Stat` is never refused.
pub fn report<B: Base>(run: &mut Run, base: &mut B, space: &mut B::S) -> Result<Blob, MgrErr>
    requires ready { IsReady B.S.Space B.holds base.old space.old }
    ensures text { IfOk result (λ text. Tells B.S.Space B.holds run.old run.old.made base.old space.old text) }
    ensures makes { OnOk result (Makes B.S.Space B.holds 0 run.old run.new base.old base.new space.old space.new) }
    ensures leaves { OnOk result (Leaves B.S.Space B.own B.layout ⊥ space.old space.new) }
    ensures not_full { IsErrOf result MgrErr.Full → ⊥ }
    ensures not_sink { IsErrOf result MgrErr.Sink → ⊥ }
    ensures keeps { Keeps B.S.Space space.old space.new }
    ensures cause { OnMgrFault B.S.Space result space.old space.new }
{
    let kind = base.kind();
    let ok = look(base, space, Request::Stat, &mut run.reply)?;
    if !ok {
        return Err(MgrErr::Memory);
    }
    Ok(summary_text(run.alloc, kind, run, run.reply.as_slice())?)
}
