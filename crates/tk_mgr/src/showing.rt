//! Values as they are printed, and texts that are printed whole.
ghost use Rattle.std.specs.Prelude.{◌≡◌, ◌≤◌, ◌++◌, true, drop, OnOk, IfErr, IsErrOf};
ghost use Rattle.tc_io.specs.Causes.{Rose};
ghost use Rattle.tk_mgr.specs.declared.errors.MgrErr.TheVariants.{Sink as sink_err};
ghost use Rattle.tk_mgr.specs.Showing.{IsShown, is_table_kind, shown_as};

use crate::errors::MgrErr;
use std::alloc::AllocError;
use tc_base::{Blob, Kind};
use tc_io::Sink;

/// Whether values are rows.
pub fn is_table(kind: Kind) -> bool
    ensures { result ≡ is_table_kind kind }
{
    match kind {
        Kind::Table => true,
        _ => false,
    }
}

/// The bytes from a place on, none where there are no more.
pub fn behind(bytes: &[u8], at: usize) -> &[u8]
    ensures { result.now ≡ drop at bytes.now }
{
    if at > bytes.len() {
        return &[];
    }
    &bytes[at..]
}

// Adds a row, its zero bytes as tabs.
fn add_row(row: &[u8], into: &mut Blob) -> Result<(), AllocError>
    ensures { OnOk result (into.new ≡ into.old ++ shown_as true row.now) }
{
    for b in row {
        into.push(if *b == 0 { b'\t' } else { *b })?;
    }
    Ok(())
}

/// Adds a value as it is printed.
pub fn add_shown(table: bool, value: &[u8], into: &mut Blob) -> Result<(), AllocError>
    ensures { OnOk result (into.new ≡ into.old ++ shown_as table value.now) }
{
    if table {
        return add_row(value, into);
    }
    into.append(value)
}

/// Prints a text where a request had succeeded, and answers whether it had.
pub fn show<O: Sink>(ok: bool, text: &[u8], out: &mut O) -> Result<bool, MgrErr>
    ensures shown { IsShown ok text.now result (O.taken out.old) (O.taken out.new) }
    ensures only_sink { IfErr result (λ e. e ≡ sink_err) }
    ensures later { O.faults out.old ≤ O.faults out.new }
    ensures cause_sink { IsErrOf result MgrErr.Sink → Rose (O.faults out.old) (O.faults out.new) }
{
    if !ok {
        return Ok(false);
    }
    match out.put(text) {
        Ok(()) => Ok(true),
        Err(_) => Err(MgrErr::Sink),
    }
}
