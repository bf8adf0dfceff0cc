//! The value of a key.
ghost use Rattle.std.specs.Prelude.{◌≤◌, OnOk, IfOk, IsErrOf};
ghost use Rattle.tc_io.specs.Causes.{Rose};
ghost use Rattle.tc_space.specs.Frames.{Keeps};
ghost use Rattle.ty_base.specs.Holding.{IsReady, OfHeld};
ghost use Rattle.tk_mgr.specs.declared.task.Task.TheVariants as task;
ghost use Rattle.tk_mgr.specs.Asking.{Looks, OnMgrFault};
ghost use Rattle.tk_mgr.specs.Showing.{IsValue, Shows};

use crate::asking::look;
use crate::errors::MgrErr;
use crate::showing::{add_shown, behind, is_table, show};
use std::alloc::Global;
use tc_base::{Blob, Key, Request};
use tc_io::Sink;
use tc_space::Space;
use ty_base::Base;

/// Adds the value of a key as it is printed, and answers whether it is held. What `reply` holds is of no account.
pub fn add_value<B: Base>(
    key: Key,
    base: &mut B,
    space: &mut B::S,
    reply: &mut Blob,
    into: &mut Blob,
) -> Result<bool, MgrErr>
    requires ready { IsReady B.S.Space B.holds base.old space.old }
    ensures looks { OnOk result (Looks B.S.Space B.holds base.old base.new space.old space.new) }
    ensures value { IfOk result (λ ok. OfHeld B.S.Space B.holds base.old space.old (λ c. IsValue key ok c into.old into.new)) }
    ensures not_full { IsErrOf result MgrErr.Full → ⊥ }
    ensures not_sink { IsErrOf result MgrErr.Sink → ⊥ }
    ensures keeps { Keeps B.S.Space space.old space.new }
    ensures cause { OnMgrFault B.S.Space result space.old space.new }
{
    let table = is_table(base.kind());
    let ok = look(base, space, Request::Get { key }, reply)?;
    if !ok {
        return Ok(false);
    }
    add_shown(table, behind(reply.as_slice(), 5), into)?;
    Ok(true)
}

/// Prints the value of a key and a newline.
pub fn get<B: Base, O: Sink>(
    alloc: Global,
    key: Blob,
    base: &mut B,
    space: &mut B::S,
    out: &mut O,
) -> Result<bool, MgrErr>
    requires ready { IsReady B.S.Space B.holds base.old space.old }
    ensures shows { Shows B.S.Space B.holds B.lines (task.Get key) result base.old space.old (O.taken out.old) (O.taken out.new) }
    ensures not_full { IsErrOf result MgrErr.Full → ⊥ }
    ensures keeps { Keeps B.S.Space space.old space.new }
    ensures later { O.faults out.old ≤ O.faults out.new }
    ensures cause { OnMgrFault B.S.Space result space.old space.new }
    ensures cause_sink { IsErrOf result MgrErr.Sink → Rose (O.faults out.old) (O.faults out.new) }
{
    let mut reply = Blob::new(alloc);
    let mut text = Blob::new(alloc);
    let ok = add_value(Key::new(key), base, space, &mut reply, &mut text)?;
    text.push(b'\n')?;
    show(ok, text.as_slice(), out)
}
