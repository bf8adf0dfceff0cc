//! What a database and its files are.
ghost use Rattle.std.specs.Prelude.{◌≡◌, ◌≤◌, ◌++◌, true, ◌+◌, take, OnOk, IsErrOf};
ghost use Rattle.std.specs.List.{position_or_len};
ghost use Rattle.tc_base.specs.declared.request.Request.TheVariants as request;
ghost use Rattle.tc_io.specs.Causes.{Rose};
ghost use Rattle.tc_space.specs.Frames.{Keeps};
ghost use Rattle.tc_model.specs.Contents.{Contents, kind_of};
ghost use Rattle.tc_model.specs.Stats as stats;
ghost use Rattle.ty_base.specs.Holding.{IsReady, OfHeld};
ghost use Rattle.tk_mgr.specs.declared.task.Task.TheVariants as task;
ghost use Rattle.tk_mgr.specs.Asking.{IsTold, Looks, OnMgrFault};
ghost use Rattle.tk_mgr.specs.Managing.{MayManage};
ghost use Rattle.tk_mgr.specs.Showing.{AreCounts, Inspects, Shows, is_break};
ghost use Rattle.tk_mgr.specs.Tasks.{told_line, told_of};

use crate::asking::look;
use crate::errors::MgrErr;
use crate::showing::{behind, show};
use std::alloc::{AllocError, Global};
use tc_base::{Blob, Kind, Request};
use tc_io::Sink;
use tc_space::Space;
use ty_base::Base;

// The word that stat gives for a kind.
fn kind_text(kind: Kind) -> &'static [u8]
    ensures { result.now ≡ stats.kind_text kind }
{
    match kind {
        Kind::Hash => b"hash",
        Kind::Tree => b"B+ tree",
        Kind::Fixed => b"fixed-length",
        Kind::Table => b"table",
        Kind::MemHash => b"on-memory hash",
        Kind::MemTree => b"on-memory tree",
    }
}

// The bytes before the first newline.
fn first_line(bytes: &[u8]) -> &[u8]
    ensures { result.now ≡ take (position_or_len is_break bytes.now) bytes.now }
{
    for (i, b) in bytes.iter().enumerate() {
        if *b == b'\n' {
            return &bytes[..i];
        }
    }
    bytes
}

/// The number of records and the size as the reply to `Stat` of a database of a kind has them: eight bytes, as `Rnum` and `Size` are answered, tell no
/// number of 2^64 or more.
pub fn counts(kind: Kind, reply: &[u8]) -> (&[u8], &[u8])
    ensures { (c : Contents) → kind ≡ kind_of c → IsTold request.Stat true c reply.now → AreCounts c result.0.now result.1.now }
{
    let numbers = behind(reply, 16 + kind_text(kind).len());
    let records = first_line(numbers);
    let size = first_line(behind(numbers, records.len() + 6));
    (records, size)
}

// Adds a line of a name and a value.
fn add_told(name: &[u8], value: &[u8], into: &mut Blob) -> Result<(), AllocError>
    ensures { OnOk result (into.new ≡ into.old ++ told_line name.now value.now) }
{
    into.append(name)?;
    into.append(b": ")?;
    into.append(value)?;
    into.push(b'\n')
}

// Adds the lines that contents determine, of a database of a kind with this reply to `Stat`.
fn add_lines(kind: Kind, reply: &[u8], into: &mut Blob) -> Result<(), AllocError>
    ensures { OnOk result ((c : Contents) → kind ≡ kind_of c → IsTold request.Stat true c reply.now → into.new ≡ into.old ++ told_of c) }
{
    let (records, size) = counts(kind, reply);
    add_told(b"type", kind_text(kind), into)?;
    add_told(b"record number", records, into)?;
    add_told(b"size", size, into)
}

// Adds the lines that contents determine. `Stat` is never refused.
fn add_contents<B: Base>(
    alloc: Global,
    base: &mut B,
    space: &mut B::S,
    into: &mut Blob,
) -> Result<(), MgrErr>
    requires ready { IsReady B.S.Space B.holds base.old space.old }
    ensures looks { OnOk result (Looks B.S.Space B.holds base.old base.new space.old space.new) }
    ensures told { OnOk result (OfHeld B.S.Space B.holds base.old space.old (λ c. into.new ≡ into.old ++ told_of c)) }
    ensures not_full { IsErrOf result MgrErr.Full → ⊥ }
    ensures not_sink { IsErrOf result MgrErr.Sink → ⊥ }
    ensures keeps { Keeps B.S.Space space.old space.new }
    ensures cause { OnMgrFault B.S.Space result space.old space.new }
{
    let mut reply = Blob::new(alloc);
    let kind = base.kind();
    let ok = look(base, space, Request::Stat, &mut reply)?;
    if !ok {
        return Err(MgrErr::Memory);
    }
    add_lines(kind, reply.as_slice(), into)?;
    Ok(())
}

// Makes the text of an inspection.
fn inspect<B: Base>(
    alloc: Global,
    base: &mut B,
    space: &mut B::S,
    text: &mut Blob,
) -> Result<(), MgrErr>
    requires may { MayManage B.S.Space B.holds B.reopens base.old space.old }
    ensures told { OnOk result (OfHeld B.S.Space B.holds base.old space.old (λ c. Inspects B.S.Space B.lines c space.old text.old text.new)) }
    ensures not_full { IsErrOf result MgrErr.Full → ⊥ }
    ensures not_sink { IsErrOf result MgrErr.Sink → ⊥ }
    ensures keeps { Keeps B.S.Space space.old space.new }
    ensures cause { OnMgrFault B.S.Space result space.old space.new }
{
    add_contents(alloc, base, space, text)?;
    base.inform(space, text)?;
    Ok(())
}

/// Prints what the database and its files are.
pub fn inform<B: Base, O: Sink>(
    alloc: Global,
    base: &mut B,
    space: &mut B::S,
    out: &mut O,
) -> Result<bool, MgrErr>
    requires may { MayManage B.S.Space B.holds B.reopens base.old space.old }
    ensures shows { Shows B.S.Space B.holds B.lines task.Inform result base.old space.old (O.taken out.old) (O.taken out.new) }
    ensures not_full { IsErrOf result MgrErr.Full → ⊥ }
    ensures keeps { Keeps B.S.Space space.old space.new }
    ensures later { O.faults out.old ≤ O.faults out.new }
    ensures cause { OnMgrFault B.S.Space result space.old space.new }
    ensures cause_sink { IsErrOf result MgrErr.Sink → Rose (O.faults out.old) (O.faults out.new) }
{
    let mut text = Blob::new(alloc);
    inspect(alloc, base, space, &mut text)?;
    show(true, text.as_slice(), out)
}
