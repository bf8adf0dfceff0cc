//! Searches of tables.
ghost use Rattle.std.specs.Prelude.{◌≡◌, ◌≤◌, ◌++◌, ◌∷◌, [], Some, OnOk, IfOk, IsErrOf};
ghost use Rattle.std.specs.List.{join_with_byte};
ghost use Rattle.tc_io.specs.Causes.{Rose};
ghost use Rattle.tc_space.specs.Frames.{Follows, Keeps};
ghost use Rattle.ty_base.specs.Holding.{Frame, IsReady, Laid};
ghost use Rattle.tk_mgr.specs.declared.task.Task.TheVariants as task;
ghost use Rattle.tk_mgr.specs.Asking.{CarriesOf, FillsRequest, OnMgrFault};
ghost use Rattle.tk_mgr.specs.Managing.{MayManage};
ghost use Rattle.tk_mgr.specs.Showing.{Shows};
ghost use Rattle.tk_mgr.specs.Tasks.{condition_arg, condition_args, find_request, limit_arg, out_request, search_args, sort_args};

use crate::asking::{change, look};
use crate::errors::MgrErr;
use crate::listing::print_lines;
use crate::showing::behind;
use crate::task::Wanted;
use itoa::Buffer;
use std::alloc::{AllocError, Global};
use tc_base::{Blob, Blobs, Pair, Request};
use tc_io::Sink;
use tc_space::Space;
use ty_base::Base;

// A word, and two parts behind it.
fn two_behind(alloc: Global, word: &[u8], first: &[u8], second: &[u8]) -> Result<Blob, AllocError>
    ensures { IfOk result (λ text. text ≡ join_with_byte 0 (word.now ∷ first.now ∷ second.now ∷ [])) }
{
    let mut all = Blob::from_slice(alloc, word)?;
    all.push(0)?;
    all.append(first)?;
    all.push(0)?;
    all.append(second)?;
    Ok(all)
}

// The argument that is a condition.
fn condition_arg(
    alloc: Global,
    column: &[u8],
    operator: &[u8],
    expression: &[u8],
) -> Result<Blob, AllocError>
    ensures { IfOk result (λ text. text ≡ condition_arg column.now operator.now expression.now) }
{
    let mut all = two_behind(alloc, b"addcond", column, operator)?;
    all.push(0)?;
    all.append(expression)?;
    Ok(all)
}

// Adds the arguments that are conditions. Fewer than three texts at the end are none.
fn add_conditions(alloc: Global, conditions: &[Blob], args: &mut Blobs) -> Result<(), AllocError>
    ensures { OnOk result (args.new ≡ args.old ++ condition_args conditions.now) }
{
    let mut rest = conditions;
    while let [column, operator, expression, more @ ..] = rest {
        args.push(condition_arg(
            alloc,
            column.as_slice(),
            operator.as_slice(),
            expression.as_slice(),
        )?)?;
        rest = more;
    }
    Ok(())
}

// Adds the argument that is an order, if there is one.
fn add_sort(alloc: Global, sort: &Option<Pair>, args: &mut Blobs) -> Result<(), AllocError>
    ensures { OnOk result (args.new ≡ args.old ++ sort_args sort.now) }
{
    let Some(pair) = sort else {
        return Ok(());
    };
    args.push(two_behind(
        alloc,
        b"setorder",
        pair.key.as_slice(),
        pair.value.as_slice(),
    )?)?;
    Ok(())
}

// The argument that is a limit.
fn limit_arg(alloc: Global, maximum: Option<u32>, skip: u32) -> Result<Blob, AllocError>
    ensures { IfOk result (λ text. text ≡ limit_arg maximum skip) }
{
    let mut skipped = Buffer::new();
    let skipped = skipped.format(skip).as_bytes();
    let Some(most) = maximum else {
        return two_behind(alloc, b"setlimit", b"-1", skipped);
    };
    let mut buffer = Buffer::new();
    two_behind(alloc, b"setlimit", buffer.format(most).as_bytes(), skipped)
}

// The arguments of a search.
fn search_args(alloc: Global, wanted: &Wanted) -> Result<Blobs, AllocError>
    ensures { IfOk result (λ args. args ≡ search_args wanted.now) }
{
    let mut args = Blobs::new(alloc);
    add_conditions(alloc, wanted.conditions.as_slice(), &mut args)?;
    add_sort(alloc, &wanted.sort, &mut args)?;
    args.push(limit_arg(alloc, wanted.maximum, wanted.skip)?)?;
    Ok(args)
}

// The call that finds keys.
fn find_call(alloc: Global, wanted: &Wanted) -> Result<Request, AllocError>
    ensures { IfOk result (λ r. r ≡ find_request wanted.now) }
{
    let name = Blob::from_slice(alloc, b"search")?;
    let args = search_args(alloc, wanted)?;
    Ok(Request::Misc {
        name,
        options: 0,
        args,
    })
}

// The call that takes the rows that it finds out.
fn out_call(alloc: Global, wanted: &Wanted) -> Result<Request, AllocError>
    ensures { IfOk result (λ r. r ≡ out_request wanted.now) }
{
    let name = Blob::from_slice(alloc, b"search")?;
    let mut args = search_args(alloc, wanted)?;
    args.push(Blob::from_slice(alloc, b"out")?)?;
    Ok(Request::Misc {
        name,
        options: 0,
        args,
    })
}

/// Prints the keys of the rows that are wanted, a line each, with a tab and its row behind a key where `values` says so. A key whose row is too long for
/// a reply is answered as want of memory, behind the lines of the keys before it.
pub fn search<B: Base, O: Sink>(
    alloc: Global,
    wanted: &Wanted,
    values: bool,
    base: &mut B,
    space: &mut B::S,
    out: &mut O,
) -> Result<bool, MgrErr>
    requires ready { IsReady B.S.Space B.holds base.old space.old }
    ensures shows { Shows B.S.Space B.holds B.lines (task.Search wanted.now values) result base.old space.old (O.taken out.old) (O.taken out.new) }
    ensures not_full { IsErrOf result MgrErr.Full → ⊥ }
    ensures keeps { Keeps B.S.Space space.old space.new }
    ensures later { O.faults out.old ≤ O.faults out.new }
    ensures cause { OnMgrFault B.S.Space result space.old space.new }
    ensures cause_sink { IsErrOf result MgrErr.Sink → Rose (O.faults out.old) (O.faults out.new) }
{
    let mut reply = Blob::new(alloc);
    let request = find_call(alloc, wanted)?;
    let ok = look(base, space, request, &mut reply)?;
    if !ok {
        return Ok(false);
    }
    print_lines(alloc, values, behind(reply.as_slice(), 5), base, space, out)?;
    Ok(true)
}

/// Takes the rows that are wanted out.
pub fn search_out<B: Base>(
    alloc: Global,
    wanted: &Wanted,
    base: &mut B,
    space: &mut B::S,
) -> Result<bool, MgrErr>
    requires may { MayManage B.S.Space B.holds B.reopens base.old space.old }
    ensures carries { CarriesOf B.S.Space B.holds B.reopens (Some (out_request wanted.now)) result base.old space.old space.new }
    ensures laid { (l : Frame) → CarriesOf B.S.Space B.holds (Laid B.own B.layout l B.reopens) (Some (out_request wanted.now)) result base.old space.old space.new }
    ensures full { FillsRequest B.S.Space B.holds B.fills_since (Some (out_request wanted.now)) result base.old space.old space.new }
    ensures not_sink { IsErrOf result MgrErr.Sink → ⊥ }
    ensures follows { Follows B.S.Space space.old space.new }
    ensures cause { OnMgrFault B.S.Space result space.old space.new }
{
    let mut reply = Blob::new(alloc);
    let request = out_call(alloc, wanted)?;
    change(base, space, request, &mut reply)
}
