//! What an inspection tells of the file.
ghost use Rattle.std.specs.Prelude.{◌≡◌, ◌≤◌, ◌++◌, take, Some, IfOk, OnOk};
ghost use Rattle.hf_head.specs.Heads.{IsValid, head_in};
ghost use Rattle.tc_space.specs.Frames.{OnlyReads};
ghost use Rattle.tc_space.specs.Refusals.{Blames};
ghost use Rattle.tc_hash.specs.Opening.{HasHead};
ghost use Rattle.ty_wire.specs.Prefixes.{IsPrefix};
ghost use Rattle.tc_treedb.specs.Informing.{form_line, head_lines, lines_of, tree_lines};

use bt_rows::TreeHead;
use hf_head::Head;
use std::alloc::AllocError;
use tc_base::Blob;
use tc_engine::add_line;
use tc_space::{RecErr, Space};

// Adds a line for the large form.
fn add_form(large: bool, into: &mut Blob) -> Result<(), AllocError>
    ensures added { OnOk result (into.new ≡ into.old ++ form_line large) }
    ensures front { IsPrefix into.old into.new }
{
    if large {
        into.append(b"option: large\n")?;
    }
    Ok(())
}

// Adds the number of buckets, the unit, the power of the free block pool, the file size and the place of the first block, a line each.
fn add_head(head: &Head, into: &mut Blob) -> Result<(), AllocError>
    requires { head.now.apow ≤ 16 }
    ensures added { OnOk result (into.new ≡ into.old ++ head_lines head.now) }
    ensures front { IsPrefix into.old into.new }
{
    add_line(b"bucket number: ", head.buckets, into)?;
    add_line(b"alignment: ", head.unit(), into)?;
    add_line(b"free pool power: ", u64::from(head.fpow), into)?;
    add_line(b"file size: ", head.size, into)?;
    add_line(b"first record: ", head.first, into)
}

// Adds the limits of leaves and nodes, and how many rows of pages there are.
fn add_tree(tree: &TreeHead, height: u64, into: &mut Blob) -> Result<(), AllocError>
    ensures added { OnOk result (into.new ≡ into.old ++ tree_lines tree.now height) }
    ensures front { IsPrefix into.old into.new }
{
    add_line(b"leaf limit: ", u64::from(tree.leaf_limit), into)?;
    add_line(b"node limit: ", u64::from(tree.node_limit), into)?;
    add_line(b"height: ", height, into)
}

/// Adds the lines of a hash file, those of its tree, and one more for the large form.
pub(crate) fn add_lines(head: &Head, height: u64, into: &mut Blob) -> Result<(), AllocError>
    requires { head.now.apow ≤ 16 }
    ensures added { OnOk result (into.new ≡ into.old ++ lines_of head.now height) }
    ensures front { IsPrefix into.old into.new }
{
    add_head(head, into)?;
    add_tree(&TreeHead::read(&head.opaque), height, into)?;
    add_form(head.is_large(), into)
}

/// The head of the file, which must have one.
pub(crate) fn read_head<S: Space>(space: &mut S) -> Result<Option<Head>, RecErr>
    requires sound { S.sound space.old }
    requires head { S.tells → (h : Head) × HasHead 1 (S.now space.old 0) h }
    ensures head { IfOk result (λ found. S.tells → (h : Head) × (found ≡ Some h) × (head_in (take 256 (S.now space.old 0)) ≡ h)) }
    ensures valid { IfOk result (λ found. (h : Head) → found ≡ Some h → IsValid h) }
    ensures reads { OnlyReads S.Space space.old space.new }
    ensures cause { Blames S.Space result space.old space.new }
{
    let mut bytes = [0; 256];
    space.read(0, 0, &mut bytes)?;
    match Head::read(&bytes) {
        Ok(head) => Ok(Some(head)),
        Err(_) => Ok(None),
    }
}
