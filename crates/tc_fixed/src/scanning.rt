//! The first and the last id of a range that are held.
ghost use Rattle.std.specs.Prelude.{◌^◌, ◌≤◌, ℕ, length, IfOk, IsErrOf};
ghost use Rattle.tc_model.specs.Arrays.{Array};
ghost use Rattle.tc_space.specs.Frames.{OnlyReads};
ghost use Rattle.tc_space.specs.Refusals.{Blamed};
ghost use Rattle.tc_fixed.specs.Cells.{HasCellsOf, end_of};
ghost use Rattle.tc_fixed.specs.Ends.{IsFirstOrNone, IsLastOrNone};

use crate::cells::Look;
use crate::looking::look;
use std::alloc::Global;
use tc_reach::{ReadErr, Window};
use tc_space::Space;

/// The first id from one up to another that is held, 0 where none is.
pub fn first_held<S: Space>(
    alloc: Global,
    space: &mut S,
    width: u32,
    from: u64,
    to: u64,
) -> Result<u64, ReadErr>
    requires sound { S.sound space.old }
    requires width { (1 ≤ width) × (width ≤ 1048576) }
    requires ids { (1 ≤ from) × (to ≤ 2 ^ 40) }
    requires inside { S.tells → end_of width to ≤ length (S.now space.old 0) }
    ensures first { IfOk result (λ id. S.tells → (m : Array) → HasCellsOf width to m (S.now space.old 0) → IsFirstOrNone m from to id) }
    ensures high { IfOk result (λ id. id ≤ to) }
    ensures reads { OnlyReads S.Space space.old space.new }
    ensures cause { Blamed S.Space (IsErrOf result ReadErr.Fault) space.old space.new }
{
    let mut window = Window::new(alloc);
    let mut id = from;
    while id <= to {
        if let Look::Value(_) = look(&mut window, space, width, id)? {
            return Ok(id);
        }
        id += 1;
    }
    Ok(0)
}

/// The last id from one up to another that is held, 0 where none is.
pub fn last_held<S: Space>(
    alloc: Global,
    space: &mut S,
    width: u32,
    from: u64,
    to: u64,
) -> Result<u64, ReadErr>
    requires sound { S.sound space.old }
    requires width { (1 ≤ width) × (width ≤ 1048576) }
    requires ids { (1 ≤ from) × (to ≤ 2 ^ 40) }
    requires inside { S.tells → end_of width to ≤ length (S.now space.old 0) }
    ensures last { IfOk result (λ id. S.tells → (m : Array) → HasCellsOf width to m (S.now space.old 0) → IsLastOrNone m from to id) }
    ensures high { IfOk result (λ id. id ≤ to) }
    ensures reads { OnlyReads S.Space space.old space.new }
    ensures cause { Blamed S.Space (IsErrOf result ReadErr.Fault) space.old space.new }
{
    let mut window = Window::new(alloc);
    let mut id = to;
    while id >= from {
        if let Look::Value(_) = look(&mut window, space, width, id)? {
            return Ok(id);
        }
        id -= 1;
    }
    Ok(0)
}
