//! The cells of the file.
ghost use Rattle.std.specs.Prelude.{◌≡◌, ℕ, ◌+◌, ◌^◌, ◌<◌, ◌≤◌, List, length, take, OnOk};
ghost use Rattle.tc_base.specs.Files.{wrote};
ghost use Rattle.hf_head.specs.FixedHeads.{cell};
ghost use Rattle.tc_fixed.specs.declared.cells.Look.TheVariants.{Value};
ghost use Rattle.tc_fixed.specs.Cells.{blank, marked, place, size_len, spelled};
ghost use Rattle.tc_fixed.specs.Looks.{Sees};

use std::alloc::AllocError;
use tc_base::{get_le, set_le};

/// What the front of a cell tells.
#[derive(Clone, Copy, PartialEq, Eq)]
pub enum Look {
    /// It has no value.
    Absent,
    /// It has a value of so many bytes.
    Value(u64),
    /// Its size is more than the width, or it has none and no mark.
    Bad,
}

/// The bytes of the size field.
pub fn size_len(width: u32) -> usize
    ensures value { result ≡ size_len width }
    ensures some { 1 ≤ result }
    ensures few { result ≤ 4 }
{
    if width <= 255 {
        1
    } else if width <= 65_535 {
        2
    } else {
        4
    }
}

/// The bytes of a cell.
pub fn cell_len(width: u32) -> u64
    ensures value { result ≡ cell width }
    ensures most { result ≤ width + 4 }
{
    u64::from(width) + size_len(width) as u64
}

/// Where the cell of an id stands.
pub fn place(width: u32, id: u64) -> u64
    requires id { 1 ≤ id }
    requires id_most { id ≤ 2 ^ 41 }
    requires width { width ≤ 1048576 }
    ensures value { result ≡ place width id }
    ensures most { result < 2 ^ 63 }
{
    256 + (id - 1) * cell_len(width)
}

/// What the front of a cell tells: its size field and the byte behind it.
pub fn look_in(width: u32, front: &[u8]) -> Look
    requires some { 1 ≤ width }
    requires front { length front.now ≡ size_len width + 1 }
    ensures sees { (c : List ℕ) → length c ≡ cell width → front.now ≡ take (size_len width + 1) c → Sees width result c }
    ensures few { (n : ℕ) → result ≡ Value n → n ≤ width }
{
    let n = size_len(width);
    let size = get_le(front, 0, n);
    if size > u64::from(width) {
        return Look::Bad;
    }
    if size > 0 {
        return Look::Value(size);
    }
    match front[n] {
        0 => Look::Absent,
        1 => Look::Value(0),
        _ => Look::Bad,
    }
}

/// Makes bytes those of a cell without a value.
pub fn blank(width: u32, into: &mut Vec<u8>) -> Result<(), AllocError>
    requires width { width ≤ 1048576 }
    ensures { OnOk result (into.new.items ≡ blank width) }
{
    into.clear();
    into.resize(cell_len(width) as usize, 0)?;
    Ok(())
}

// A value, or the mark of one without bytes.
fn marked(value: &[u8]) -> &[u8]
    ensures { result.now ≡ marked value.now }
{
    if value.is_empty() { &[1] } else { value }
}

// Writes bytes over others from a place on.
fn put_at(bytes: &mut [u8], at: usize, new: &[u8])
    requires inside { at + length new.now ≤ length bytes.old }
    ensures { bytes.new ≡ wrote at new.now bytes.old }
{
    bytes[at..at + new.len()].copy_from_slice(new);
}

// Writes a size and a value into a cell without one.
fn fill(width: u32, value: &[u8], bytes: &mut [u8])
    requires some { 1 ≤ width }
    requires width { width ≤ 1048576 }
    requires fits { length value.now ≤ width }
    requires blank { bytes.old ≡ blank width }
    ensures { bytes.new ≡ spelled width value.now }
{
    set_le(bytes, 0, size_len(width), value.len() as u64);
    put_at(bytes, size_len(width), marked(value));
}

/// Makes bytes those of the cell of a value: its size, itself or the mark of one without bytes, and zeros.
pub fn spell(width: u32, value: &[u8], into: &mut Vec<u8>) -> Result<(), AllocError>
    requires some { 1 ≤ width }
    requires width { width ≤ 1048576 }
    requires fits { length value.now ≤ width }
    ensures { OnOk result (into.new.items ≡ spelled width value.now) }
{
    blank(width, into)?;
    fill(width, value, into);
    Ok(())
}
