//! Steps on a tree in a file whose records are given.
ghost use Rattle.std.specs.Prelude.{◌≡◌, true, OnOk};

use crate::script::Script;
use crate::trees::play_looking;
use anyhow::{Error, anyhow};
use std::alloc::Global;
use tc_base::{Blob, Mode, Order, Steps};
use tc_btree::Btree;
use tc_hash::Hash;
use tc_memstores::OneFile;
use tc_space::{Records, Space};

// The file may be used.
fn usable(space: &OneFile) -> Result<(), Error>
    ensures { OnOk result (space.now.sound ≡ true) }
{
    if space.is_sound() {
        Ok(())
    } else {
        Err(anyhow!("the file is spoiled"))
    }
}

// A file of trees without records.
fn bare(alloc: Global, space: &mut OneFile) -> Result<Hash<OneFile>, Error> {
    usable(space)?;
    match Hash::create(alloc, space, 0, 1, 4, 10, 16_381, false) {
        Ok(store) => Ok(store),
        Err(e) => Err(Error::from(e)),
    }
}

// The value of a key.
fn put<R: Records<S = OneFile>>(
    store: &mut R,
    space: &mut OneFile,
    key: &[u8],
    value: &[u8],
) -> Result<(), Error> {
    usable(space)?;
    let mut steps: Steps<()> = Steps::new();
    match store.put(space, key, value, Mode::Over, &mut steps) {
        Ok(()) => Ok(()),
        Err(e) => Err(Error::from(e)),
    }
}

// The region.
fn set_region<R: Records<S = OneFile>>(store: &mut R, bytes: &[u8]) -> Result<(), Error> {
    if bytes.len() != 128 {
        return Err(anyhow!("a region has 128 bytes"));
    }
    let mut region = [0; 128];
    region.copy_from_slice(bytes);
    store.set_opaque(&region);
    Ok(())
}

// The records of a file, and its region, which ends them.
fn fill<R: Records<S = OneFile>>(
    store: &mut R,
    space: &mut OneFile,
    script: &mut Script<'_>,
) -> Result<(), Error> {
    for _ in 0..script.left() {
        let Some(step) = script.step() else {
            return Ok(());
        };
        if step.kind == b'h' {
            return set_region(store, step.value);
        }
        put(store, space, step.key, step.value)?;
    }
    Ok(())
}

// The tree that the records are, where its order is the one that was asked for.
fn opened<R: Records<S = OneFile> + Drop, O: Order>(
    alloc: Global,
    store: R,
    space: &mut OneFile,
) -> Result<Btree<R, O>, Error> {
    let opaque = store.opaque();
    if opaque[0] != O::CODE {
        return Err(anyhow!("another order"));
    }
    usable(space)?;
    match Btree::open(alloc, store, space) {
        Ok(tree) => Ok(tree),
        Err(e) => Err(Error::from(e)),
    }
}

// Makes the steps that are left on a tree that was opened.
fn play_left<R: Records<S = OneFile>, O: Order>(
    tree: &mut Btree<R, O>,
    space: &mut OneFile,
    script: &mut Script<'_>,
    into: &mut Blob,
) -> Result<(), Error> {
    usable(space)?;
    Ok(play_looking(tree, space, script, into)?)
}

// Puts the records of a script into a store, gives it its region, opens the tree that it then has, and makes the steps that are left.
fn play_store<R: Records<S = OneFile> + Drop, O: Order>(
    alloc: Global,
    store: R,
    space: &mut OneFile,
    bytes: &[u8],
    into: &mut Blob,
) -> Result<(), Error> {
    let mut store = store;
    let mut script = Script::new(bytes);
    fill(&mut store, space, &mut script)?;
    let mut tree = opened::<R, O>(alloc, store, space)?;
    let played = play_left(&mut tree, space, &mut script, into);
    drop(tree);
    played
}

/// Puts records into a file in memory, `w`, gives it a region, `h`, and opens the tree that it then has, which must keep all rules. The steps that are left are made on the tree as `play_hash` makes them.
pub fn play_rows<O: Order>(alloc: Global, bytes: &[u8], into: &mut Blob) -> Result<(), Error> {
    let mut space = OneFile::of(Vec::new(alloc));
    let store = bare(alloc, &mut space)?;
    play_store::<Hash<OneFile>, O>(alloc, store, &mut space, bytes, into)
}
