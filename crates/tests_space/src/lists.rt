//! A client of any list of pairs.
ghost use Rattle.std.specs.Prelude.{◌≡◌, true, OnOk, IfOk};
ghost use Rattle.tc_space.specs.Frames.{In, Keeps};
ghost use Rattle.tc_space.specs.Stores.{IsReady};

use tc_space::{Multi, RecErr, Space};

/// Adds a pair twice, and takes all pairs of its key out.
pub fn add_and_take<M: Multi>(
    list: &mut M,
    space: &mut M::S,
    key: &[u8],
    value: &[u8],
) -> Result<bool, RecErr>
    requires { IsReady M.S.Space (In M.S.Space M.file_of M.holds) list.old space.old }
    ensures ready { OnOk result (IsReady M.S.Space (In M.S.Space M.file_of M.holds) list.new space.new) }
    ensures keeps { Keeps M.S.Space space.old space.new }
{
    list.putdup(space, key, value)?;
    list.putdup(space, key, value)?;
    let taken = list.out_all(space, key)?;
    Ok(taken)
}
