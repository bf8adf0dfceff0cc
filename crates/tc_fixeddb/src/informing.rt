//! What an inspection tells of the file.
ghost use Rattle.std.specs.Prelude.{◌≡◌, ◌++◌, take, IfOk, OnOk};
ghost use Rattle.hf_head.specs.FixedHeads.{fixed_in};
ghost use Rattle.tc_space.specs.Frames.{OnlyReads};
ghost use Rattle.tc_space.specs.Refusals.{Blames};
ghost use Rattle.tc_fixed.specs.Standing.{HasHead};
ghost use Rattle.ty_wire.specs.Prefixes.{IsPrefix};
ghost use Rattle.tc_fixeddb.specs.Holding.{lines_of};

use hf_head::FixedHead;
use std::alloc::AllocError;
use tc_base::Blob;
use tc_engine::add_line;
use tc_space::{RecErr, Space};

/// Adds the width, the greatest id held and the file size, a line each.
pub(crate) fn add_lines(head: &FixedHead, into: &mut Blob) -> Result<(), AllocError>
    ensures added { OnOk result (into.new ≡ into.old ++ lines_of head.now) }
    ensures front { IsPrefix into.old into.new }
{
    add_line(b"width: ", u64::from(head.width), into)?;
    add_line(b"greatest id: ", head.greatest, into)?;
    add_line(b"file size: ", head.size, into)?;
    Ok(())
}

/// The head of the file, which must have one.
pub(crate) fn read_head<S: Space>(space: &mut S) -> Result<Option<FixedHead>, RecErr>
    requires sound { S.sound space.old }
    requires head { S.tells → (h : FixedHead) × HasHead (S.now space.old 0) h }
    ensures head { IfOk result (λ found. S.tells → (h : FixedHead) × (found ≡ Some h) × (fixed_in (take 256 (S.now space.old 0)) ≡ h)) }
    ensures reads { OnlyReads S.Space space.old space.new }
    ensures cause { Blames S.Space result space.old space.new }
{
    let mut bytes = [0; 256];
    space.read(0, 0, &mut bytes)?;
    match FixedHead::read(&bytes) {
        Ok(head) => Ok(Some(head)),
        Err(_) => Ok(None),
    }
}
