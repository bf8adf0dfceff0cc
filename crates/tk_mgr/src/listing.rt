//! The keys of a database, a line each.
ghost use Rattle.std.specs.Prelude.{◌≡◌, ◌≤◌, ◌<◌, ◌++◌, true, [], length, OnOk, OnErr, IfOk, IfErr, IsErrOf};
ghost use Rattle.tc_base.specs.Reading.{Gives};
ghost use Rattle.tc_io.specs.Causes.{Rose};
ghost use Rattle.tc_io.specs.Told.{Adds, AddsFront};
ghost use Rattle.tc_space.specs.Frames.{Keeps};
ghost use Rattle.ty_wire.specs.Items.{item_at};
ghost use Rattle.ty_base.specs.Holding.{IsReady, OfHeld};
ghost use Rattle.tk_mgr.specs.declared.errors.MgrErr.TheVariants.{Sink as sink_err};
ghost use Rattle.tk_mgr.specs.declared.task.Task.TheVariants as task;
ghost use Rattle.tk_mgr.specs.Asking.{Looks, OnMgrFault};
ghost use Rattle.tk_mgr.specs.Showing.{Listed, PrintsLine, Shows, StopsLine, Waits, line_of};
ghost use Rattle.tk_mgr.specs.Tasks.{maximum_of};

use crate::asking::look;
use crate::errors::MgrErr;
use crate::reading::add_value;
use crate::showing::behind;
use std::alloc::Global;
use tc_base::{Blob, Key, NotWhole, Request, read_bytes, read_size};
use tc_io::Sink;
use tc_space::Space;
use ty_base::Base;

// So many bytes wait before they are printed.
const ROOM: usize = 65536;

// How many keys are asked for.
fn limit_of(maximum: Option<u32>) -> i32
    ensures { result ≡ maximum_of maximum }
{
    match maximum {
        None => -1,
        Some(n) => n.min(2_147_483_647) as i32,
    }
}

// A key with its size in front, and the bytes behind it.
fn read_item(bytes: &[u8]) -> Result<(&[u8], &[u8]), NotWhole>
    ensures item { Gives (λ x. (x.0.now, x.1.now)) result (item_at 4294967295 bytes.now) }
    ensures shorter { IfOk result (λ x. length x.1.now < length bytes.now) }
{
    let (size, rest) = read_size(4_294_967_295, bytes)?;
    read_bytes(size, rest)
}

// Adds a key, a tab and its value. A value that has no reply, since that were too long, is answered as want of memory.
fn add_pair<B: Base>(
    alloc: Global,
    key: &[u8],
    base: &mut B,
    space: &mut B::S,
    reply: &mut Blob,
    waiting: &mut Blob,
) -> Result<(), MgrErr>
    requires ready { IsReady B.S.Space B.holds base.old space.old }
    ensures looks { OnOk result (Looks B.S.Space B.holds base.old base.new space.old space.new) }
    ensures line { OnOk result (OfHeld B.S.Space B.holds base.old space.old (λ c. waiting.new ≡ waiting.old ++ line_of true c key.now)) }
    ensures not_full { IsErrOf result MgrErr.Full → ⊥ }
    ensures not_sink { IsErrOf result MgrErr.Sink → ⊥ }
    ensures keeps { Keeps B.S.Space space.old space.new }
    ensures cause { OnMgrFault B.S.Space result space.old space.new }
{
    waiting.append(key)?;
    waiting.push(b'\t')?;
    let wanted = Key::from_slice(alloc, key)?;
    let held = add_value(wanted, base, space, reply, waiting)?;
    if !held {
        return Err(MgrErr::Memory);
    }
    waiting.push(b'\n')?;
    Ok(())
}

// Adds the line of a key, with its value where `values` says so.
fn add_line<B: Base>(
    alloc: Global,
    values: bool,
    key: &[u8],
    base: &mut B,
    space: &mut B::S,
    reply: &mut Blob,
    waiting: &mut Blob,
) -> Result<(), MgrErr>
    requires ready { IsReady B.S.Space B.holds base.old space.old }
    ensures looks { OnOk result (Looks B.S.Space B.holds base.old base.new space.old space.new) }
    ensures line { OnOk result (OfHeld B.S.Space B.holds base.old space.old (λ c. waiting.new ≡ waiting.old ++ line_of values c key.now)) }
    ensures not_full { IsErrOf result MgrErr.Full → ⊥ }
    ensures not_sink { IsErrOf result MgrErr.Sink → ⊥ }
    ensures keeps { Keeps B.S.Space space.old space.new }
    ensures cause { OnMgrFault B.S.Space result space.old space.new }
{
    if values {
        return add_pair(alloc, key, base, space, reply, waiting);
    }
    waiting.append(key)?;
    waiting.push(b'\n')?;
    Ok(())
}

// Prints what waits.
fn flush<O: Sink>(waiting: &mut Blob, out: &mut O) -> Result<(), MgrErr>
    ensures ok { OnOk result (Adds (O.taken out.old) (O.taken out.new) waiting.old × (waiting.new ≡ [])) }
    ensures err { OnErr result (AddsFront (O.taken out.old) (O.taken out.new) waiting.old) }
    ensures only_sink { IfErr result (λ e. e ≡ sink_err) }
    ensures later { O.faults out.old ≤ O.faults out.new }
    ensures cause_sink { IsErrOf result MgrErr.Sink → Rose (O.faults out.old) (O.faults out.new) }
{
    let Ok(()) = out.put(waiting.as_slice()) else {
        return Err(MgrErr::Sink);
    };
    waiting.clear();
    Ok(())
}

// Prints what waits where it is enough to be worth a call.
fn pass<O: Sink>(waiting: &mut Blob, out: &mut O) -> Result<(), MgrErr>
    ensures ok { OnOk result (Waits (O.taken out.old) (O.taken out.new) waiting.new waiting.old) }
    ensures err { OnErr result (AddsFront (O.taken out.old) (O.taken out.new) waiting.old) }
    ensures only_sink { IfErr result (λ e. e ≡ sink_err) }
    ensures later { O.faults out.old ≤ O.faults out.new }
    ensures cause_sink { IsErrOf result MgrErr.Sink → Rose (O.faults out.old) (O.faults out.new) }
{
    if waiting.len() < ROOM {
        return Ok(());
    }
    flush(waiting, out)?;
    Ok(())
}

// Adds the line of a key to what waits, and prints that where it is enough.
fn print_line<B: Base, O: Sink>(
    alloc: Global,
    values: bool,
    key: &[u8],
    base: &mut B,
    space: &mut B::S,
    reply: &mut Blob,
    waiting: &mut Blob,
    out: &mut O,
) -> Result<(), MgrErr>
    requires ready { IsReady B.S.Space B.holds base.old space.old }
    ensures printed { OnOk result (PrintsLine B.S.Space B.holds values key.now base.old base.new space.old space.new (O.taken out.old) (O.taken out.new) waiting.old waiting.new) }
    ensures stops { OnErr result (StopsLine B.S.Space B.holds values key.now base.old space.old (O.taken out.old) (O.taken out.new) waiting.old) }
    ensures not_full { IsErrOf result MgrErr.Full → ⊥ }
    ensures keeps { Keeps B.S.Space space.old space.new }
    ensures later { O.faults out.old ≤ O.faults out.new }
    ensures cause { OnMgrFault B.S.Space result space.old space.new }
    ensures cause_sink { IsErrOf result MgrErr.Sink → Rose (O.faults out.old) (O.faults out.new) }
{
    add_line(alloc, values, key, base, space, reply, waiting)?;
    pass(waiting, out)?;
    Ok(())
}

/// Prints a line for each of the keys that these bytes hold. Bytes that hold none are answered as want of memory.
pub fn print_lines<B: Base, O: Sink>(
    alloc: Global,
    values: bool,
    items: &[u8],
    base: &mut B,
    space: &mut B::S,
    out: &mut O,
) -> Result<(), MgrErr>
    requires ready { IsReady B.S.Space B.holds base.old space.old }
    ensures listed { Listed B.S.Space B.holds values result items.now base.old space.old (O.taken out.old) (O.taken out.new) }
    ensures not_full { IsErrOf result MgrErr.Full → ⊥ }
    ensures keeps { Keeps B.S.Space space.old space.new }
    ensures later { O.faults out.old ≤ O.faults out.new }
    ensures cause { OnMgrFault B.S.Space result space.old space.new }
    ensures cause_sink { IsErrOf result MgrErr.Sink → Rose (O.faults out.old) (O.faults out.new) }
{
    let mut reply = Blob::new(alloc);
    let mut waiting = Blob::new(alloc);
    let mut rest = items;
    while !rest.is_empty() {
        let Ok((key, more)) = read_item(rest) else {
            return Err(MgrErr::Memory);
        };
        print_line(
            alloc,
            values,
            key,
            base,
            space,
            &mut reply,
            &mut waiting,
            out,
        )?;
        rest = more;
    }
    flush(&mut waiting, out)?;
    Ok(())
}

/// Prints the keys in the database's order, at most so many, a line each, with a tab and its value behind a key where `values` says so. A key whose
/// value is too long for a reply is answered as want of memory, behind the lines of the keys before it.
pub fn list<B: Base, O: Sink>(
    alloc: Global,
    maximum: Option<u32>,
    values: bool,
    base: &mut B,
    space: &mut B::S,
    out: &mut O,
) -> Result<bool, MgrErr>
    requires ready { IsReady B.S.Space B.holds base.old space.old }
    ensures shows { Shows B.S.Space B.holds B.lines (task.List maximum values) result base.old space.old (O.taken out.old) (O.taken out.new) }
    ensures not_full { IsErrOf result MgrErr.Full → ⊥ }
    ensures keeps { Keeps B.S.Space space.old space.new }
    ensures later { O.faults out.old ≤ O.faults out.new }
    ensures cause { OnMgrFault B.S.Space result space.old space.new }
    ensures cause_sink { IsErrOf result MgrErr.Sink → Rose (O.faults out.old) (O.faults out.new) }
{
    let mut reply = Blob::new(alloc);
    let request = Request::FwmKeys {
        prefix: Key::new(Blob::new(alloc)),
        maximum: limit_of(maximum),
    };
    let ok = look(base, space, request, &mut reply)?;
    if !ok {
        return Ok(false);
    }
    print_lines(alloc, values, behind(reply.as_slice(), 5), base, space, out)?;
    Ok(true)
}
