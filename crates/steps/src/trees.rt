//! Steps on trees.
ghost use Rattle.std.specs.Prelude.{◌≡◌, ◌≤◌, true, OnOk};

use crate::answers::{add_number, add_text};
use crate::playing::{play_all, play_on};
use crate::script::Script;
use std::alloc::Global;
use tc_base::{Blob, Order};
use tc_btree::Btree;
use tc_hash::Hash;
use tc_memstores::{MemRecords, OneFile};
use tc_space::{Multi, RecErr, Records};

/// Settles the tree, and adds how many pairs and rows it has, and its file.
pub fn look<R: Records<S = OneFile>, O: Order>(
    tree: &mut Btree<R, O>,
    space: &mut OneFile,
    into: &mut Blob,
) -> Result<(), RecErr>
    requires { space.old.sound ≡ true }
    ensures { OnOk result (space.new.sound ≡ true) }
{
    tree.settle(space)?;
    add_number(tree.count(), into)?;
    add_number(tree.tree().height(), into)?;
    Ok(add_text(space.bytes(), into)?)
}

/// Makes the steps that are left on a tree; of a `c` it adds what `look` does.
pub fn play_looking<R: Records<S = OneFile>, O: Order>(
    tree: &mut Btree<R, O>,
    space: &mut OneFile,
    script: &mut Script<'_>,
    into: &mut Blob,
) -> Result<(), RecErr>
    requires { space.old.sound ≡ true }
{
    for _ in 0..script.left() {
        if !play_on(tree, space, script, into)? {
            return Ok(());
        }
        look(tree, space, into)?;
    }
    Ok(())
}

// Makes steps on a tree of no pairs in a file in memory, with at most four keys a leaf and four entries a node.
fn play_small<R: Records<S = OneFile> + Drop, O: Order>(
    alloc: Global,
    store: R,
    space: &mut OneFile,
    bytes: &[u8],
    into: &mut Blob,
) -> Result<(), RecErr>
    requires sound { space.old.sound ≡ true }
    requires order { O.CODE ≤ 1 }
{
    let mut tree = Btree::<R, O>::create(alloc, store, space, 4, 4)?;
    let mut script = Script::new(bytes);
    play_looking(&mut tree, space, &mut script, into)
}

/// Makes steps on a tree in a new file in memory of 1031 buckets; of a `c` it adds what `look` does.
pub fn play_hash<O: Order>(alloc: Global, bytes: &[u8], into: &mut Blob) -> Result<(), RecErr>
    requires { O.CODE ≤ 1 }
{
    let mut space = OneFile::of(Vec::new(alloc));
    let store: Hash<OneFile> = Hash::create(alloc, &mut space, 0, 1, 4, 10, 1031, false)?;
    play_small::<Hash<OneFile>, O>(alloc, store, &mut space, bytes, into)
}

// Makes steps on a tree of no pairs, with at most 128 keys a leaf and 256 entries a node.
fn play_large<R: Records<S = OneFile> + Drop, O: Order>(
    alloc: Global,
    store: R,
    space: &mut OneFile,
    bytes: &[u8],
    into: &mut Blob,
) -> Result<(), RecErr>
    requires sound { space.old.sound ≡ true }
    requires order { O.CODE ≤ 1 }
{
    let mut tree = Btree::<R, O>::create(alloc, store, space, 128, 256)?;
    let mut script = Script::new(bytes);
    play_all(&mut tree, space, &mut script, into)
}

/// Makes steps on a tree over a map in memory.
pub fn play_tree<O: Order>(alloc: Global, bytes: &[u8], into: &mut Blob) -> Result<(), RecErr>
    requires { O.CODE ≤ 1 }
{
    let mut space = OneFile::of(Vec::new(alloc));
    let store: MemRecords<OneFile> = MemRecords::new(alloc, 0);
    play_large::<MemRecords<OneFile>, O>(alloc, store, &mut space, bytes, into)
}
