//! Steps on any list of pairs.
ghost use Rattle.std.specs.Prelude.{OnOk};
ghost use Rattle.tc_space.specs.Frames.{In};
ghost use Rattle.tc_space.specs.Stores.{IsReady};

use crate::answers::{add_flag, add_number, add_pairs, add_texts};
use crate::script::{Script, Step};
use bt_order::Stretch;
use tc_base::{Blob, Mode, Steps};
use tc_space::{Multi, PutErr, RecErr};

// A pair put, by the mode; false where its key is held and was to be kept.
fn put<M: Multi>(
    list: &mut M,
    space: &mut M::S,
    step: &Step<'_>,
    mode: Mode,
) -> Result<bool, RecErr>
    requires { IsReady M.S.Space (In M.S.Space M.file_of M.holds) list.old space.old }
    ensures { OnOk result (IsReady M.S.Space (In M.S.Space M.file_of M.holds) list.new space.new) }
{
    match list.put(space, step.key, step.value, mode) {
        Ok(()) => Ok(true),
        Err(PutErr::Exists) => Ok(false),
        Err(PutErr::Full) => Err(RecErr::Full),
        Err(PutErr::Fault) => Err(RecErr::Fault),
        Err(PutErr::Memory) => Err(RecErr::Memory),
    }
}

// A pair added behind those of its key.
fn putdup<M: Multi>(list: &mut M, space: &mut M::S, step: &Step<'_>) -> Result<bool, RecErr>
    requires { IsReady M.S.Space (In M.S.Space M.file_of M.holds) list.old space.old }
    ensures { OnOk result (IsReady M.S.Space (In M.S.Space M.file_of M.holds) list.new space.new) }
{
    list.putdup(space, step.key, step.value)?;
    Ok(true)
}

// The first pair of a key taken out, or all of them; false where there is none.
fn out<M: Multi>(list: &mut M, space: &mut M::S, step: &Step<'_>, all: bool) -> Result<bool, RecErr>
    requires { IsReady M.S.Space (In M.S.Space M.file_of M.holds) list.old space.old }
    ensures { OnOk result (IsReady M.S.Space (In M.S.Space M.file_of M.holds) list.new space.new) }
{
    if all {
        return Ok(list.out_all(space, step.key)?);
    }
    Ok(list.out(space, step.key)?)
}

// The values of a key.
fn find<M: Multi>(
    list: &mut M,
    space: &mut M::S,
    step: &Step<'_>,
    into: &mut Blob,
) -> Result<(), RecErr>
    requires { IsReady M.S.Space (In M.S.Space M.file_of M.holds) list.old space.old }
    ensures { OnOk result (IsReady M.S.Space (In M.S.Space M.file_of M.holds) list.new space.new) }
{
    let values = list.all(space, step.key)?;
    Ok(add_texts(&values, into)?)
}

// The first pairs of a stretch of keys.
fn range<M: Multi>(
    list: &mut M,
    space: &mut M::S,
    step: &Step<'_>,
    into: &mut Blob,
) -> Result<(), RecErr>
    requires { IsReady M.S.Space (In M.S.Space M.file_of M.holds) list.old space.old }
    ensures { OnOk result (IsReady M.S.Space (In M.S.Space M.file_of M.holds) list.new space.new) }
{
    let mut steps: Steps<()> = Steps::new();
    let stretch = Stretch {
        first: step.key,
        end: Some(step.value),
    };
    let pairs = list.range(space, &stretch, step.number, &mut steps)?;
    Ok(add_pairs(&pairs, into)?)
}

// Whether a step that changes the list did so.
fn changed<M: Multi>(list: &mut M, space: &mut M::S, step: &Step<'_>) -> Result<bool, RecErr>
    requires { IsReady M.S.Space (In M.S.Space M.file_of M.holds) list.old space.old }
    ensures { OnOk result (IsReady M.S.Space (In M.S.Space M.file_of M.holds) list.new space.new) }
{
    match step.kind {
        b'p' => put(list, space, step, Mode::Over),
        b'k' => put(list, space, step, Mode::Keep),
        b'+' => put(list, space, step, Mode::Cat),
        b'o' => out(list, space, step, false),
        b'a' => out(list, space, step, true),
        _ => putdup(list, space, step),
    }
}

// Makes a step on the list, and adds its answer.
fn play<M: Multi>(
    list: &mut M,
    space: &mut M::S,
    step: &Step<'_>,
    into: &mut Blob,
) -> Result<(), RecErr>
    requires { IsReady M.S.Space (In M.S.Space M.file_of M.holds) list.old space.old }
    ensures { OnOk result (IsReady M.S.Space (In M.S.Space M.file_of M.holds) list.new space.new) }
{
    if step.kind == b'f' {
        return find(list, space, step, into);
    }
    if step.kind == b'r' {
        return range(list, space, step, into);
    }
    let changed = changed(list, space, step)?;
    Ok(add_flag(changed, into)?)
}

/// Makes the steps up to the next `c`, and answers whether there is one. It adds the texts of `f` (all values of a key) and `r` (pairs from a key on, before another, at most so many), else a byte, 1
/// for true. `p`, `k` and `+` put a pair over the first of its key, or where there is none, or join its value to the first; `d` adds one behind those of its key; `o` and `a` take the first or all out.
pub fn play_on<M: Multi>(
    list: &mut M,
    space: &mut M::S,
    script: &mut Script<'_>,
    into: &mut Blob,
) -> Result<bool, RecErr>
    requires { IsReady M.S.Space (In M.S.Space M.file_of M.holds) list.old space.old }
    ensures { OnOk result (IsReady M.S.Space (In M.S.Space M.file_of M.holds) list.new space.new) }
{
    for _ in 0..script.left() {
        let Some(step) = script.step() else {
            return Ok(false);
        };
        if step.kind == b'c' {
            return Ok(true);
        }
        play(list, space, &step, into)?;
    }
    Ok(false)
}

/// Makes all steps; of a `c` it adds how many pairs there are.
pub fn play_all<M: Multi>(
    list: &mut M,
    space: &mut M::S,
    script: &mut Script<'_>,
    into: &mut Blob,
) -> Result<(), RecErr>
    requires { IsReady M.S.Space (In M.S.Space M.file_of M.holds) list.old space.old }
    ensures { OnOk result (IsReady M.S.Space (In M.S.Space M.file_of M.holds) list.new space.new) }
{
    for _ in 0..script.left() {
        if !play_on(list, space, script, into)? {
            return Ok(());
        }
        add_number(list.count(), into)?;
    }
    Ok(())
}
