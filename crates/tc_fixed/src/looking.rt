//! Cells looked at.
ghost use Rattle.std.specs.Prelude.{◌≡◌, ℕ, ◌+◌, ◌≤◌, length, drop, take, IfOk, OnOk, IsErrOf};
ghost use Rattle.tc_base.specs.Endian.{field};
ghost use Rattle.tc_io.specs.Causes.{HasCause};
ghost use Rattle.tc_space.specs.Frames.{OnlyReads};
ghost use Rattle.tc_space.specs.Refusals.{Blamed};
ghost use Rattle.tc_reach.specs.Windows.{Shows};
ghost use Rattle.tc_fixed.specs.declared.cells.Look.TheVariants.{Value};
ghost use Rattle.tc_fixed.specs.Cells.{cell_at, size_len};
ghost use Rattle.tc_fixed.specs.Holding.{HasCellsTo};
ghost use Rattle.tc_fixed.specs.Looks.{Sees};

use crate::cells::{Look, cell_len, look_in, place, size_len};
use crate::fixed::FILE;
use tc_base::Fault;
use tc_reach::{ReadErr, Window, read_into};
use tc_space::Space;

// How many bytes a window reads at once.
const PIECE: u64 = 4096;

// What the front of the cell of an id tells, read into bytes that are as many.
fn read_look<S: Space>(space: &mut S, width: u32, id: u64, into: &mut [u8]) -> Result<Look, Fault>
    requires cells { HasCellsTo S.Space space.old width id }
    requires some { 1 ≤ id }
    requires front { length into.old ≡ size_len width + 1 }
    ensures sees { IfOk result (λ look. S.tells → Sees width look (cell_at width id (S.now space.old 0))) }
    ensures few { IfOk result (λ look. (n : ℕ) → look ≡ Value n → n ≤ width) }
    ensures reads { OnlyReads S.Space space.old space.new }
    ensures cause { HasCause (S.faults space.old) (S.faults space.new) result }
{
    read_into(space, FILE, place(width, id), into)?;
    Ok(look_in(width, into))
}

/// What the front of the cell of an id tells, by one small read.
pub fn look_at<S: Space>(space: &mut S, width: u32, id: u64) -> Result<Look, Fault>
    requires cells { HasCellsTo S.Space space.old width id }
    requires some { 1 ≤ id }
    ensures sees { IfOk result (λ look. S.tells → Sees width look (cell_at width id (S.now space.old 0))) }
    ensures few { IfOk result (λ look. (n : ℕ) → look ≡ Value n → n ≤ width) }
    ensures reads { OnlyReads S.Space space.old space.new }
    ensures cause { HasCause (S.faults space.old) (S.faults space.new) result }
{
    let mut front = [0; 5];
    read_look(space, width, id, &mut front[..size_len(width) + 1])
}

// Fills the front with the bytes of the file from a place on.
fn read_front<S: Space>(space: &mut S, at: u64, long: usize, into: &mut [u8]) -> Result<(), Fault>
    requires sound { S.sound space.old }
    requires room { long ≤ length into.old }
    requires inside { S.tells → at + long ≤ length (S.now space.old 0) }
    ensures bytes { OnOk result (S.tells → take long into.new ≡ take long (drop at (S.now space.old 0))) }
    ensures reads { OnlyReads S.Space space.old space.new }
    ensures cause { HasCause (S.faults space.old) (S.faults space.new) result }
{
    read_into(space, FILE, at, &mut into[..long])
}

/// So many bytes behind the size in the cell of an id, read to the front of others.
pub fn read_value<S: Space>(
    space: &mut S,
    width: u32,
    id: u64,
    long: usize,
    into: &mut [u8],
) -> Result<(), Fault>
    requires cells { HasCellsTo S.Space space.old width id }
    requires some { 1 ≤ id }
    requires fits { long ≤ width }
    requires room { long ≤ length into.old }
    ensures bytes { OnOk result (S.tells → take long into.new ≡ field (size_len width) long (cell_at width id (S.now space.old 0))) }
    ensures reads { OnlyReads S.Space space.old space.new }
    ensures cause { HasCause (S.faults space.old) (S.faults space.new) result }
{
    let at = place(width, id) + size_len(width) as u64;
    read_front(space, at, long, into)?;
    Ok(())
}

// The first of the cells that are read with that of an id: as many as fit into a piece are read at once, always the same ones.
fn first_beside(width: u32, id: u64) -> u64
    requires id { 1 ≤ id }
    ensures some { 1 ≤ result }
    ensures low { result ≤ id }
{
    let together = (PIECE / cell_len(width)).max(1);
    id - (id - 1) % together
}

/// What the front of the cell of an id tells, through a window that reads cells a piece at a time.
pub fn look<S: Space>(
    window: &mut Window,
    space: &mut S,
    width: u32,
    id: u64,
) -> Result<Look, ReadErr>
    requires cells { HasCellsTo S.Space space.old width id }
    requires some { 1 ≤ id }
    requires shows { S.tells → Shows window.old (S.now space.old 0) }
    ensures sees { IfOk result (λ look. S.tells → Sees width look (cell_at width id (S.now space.old 0))) }
    ensures shows { OnOk result (S.tells → Shows window.new (S.now space.old 0)) }
    ensures reads { OnlyReads S.Space space.old space.new }
    ensures cause { Blamed S.Space (IsErrOf result ReadErr.Fault) space.old space.new }
{
    let len = size_len(width) + 1;
    let at = place(width, id);
    let from = place(width, first_beside(width, id));
    window.fill(space, FILE, from, (at - from) as usize + len)?;
    Ok(look_in(width, window.get(at, len)))
}
