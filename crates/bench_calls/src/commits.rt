//! Commits of writes to a file of a folder, each made at once or held until the commit: what `bench/waits` times.

ghost use Rattle.std.specs.Prelude.{◌<◌, ◌≡◌, true, false, OnOk};

use anyhow::{Error, anyhow};
use std::alloc::Global;
use tc_held::{Held, HeldSpace};
use tc_io::Volume;
use tc_space::Space;
use tc_undo::{Batched, Undo};

// How many places the file has. It is prime to what is added to one of them, so all come in turn.
const PLACES: u64 = 16_384;

// Writes at a place, in the file or at its end.
fn put<S: Space>(space: &mut S, place: u64) -> Result<(), Error>
    requires sound { S.sound space.old }
    requires place { place < 16384 }
    ensures { OnOk result (S.sound space.new) }
{
    let at = place * 64;
    if at > space.len(0) {
        return Err(anyhow!("the file is shorter"));
    }
    match space.write(0, at, &[7; 64]) {
        Ok(()) => Ok(()),
        Err(_) => Err(anyhow!("a write failed")),
    }
}

// Makes so many writes, at places that lie apart, and commits them. Answers the place of the last.
fn commit_one<S: Space>(space: &mut S, from: u64, step: u64, writes: u64) -> Result<u64, Error>
    requires { S.sound space.old }
    ensures { OnOk result (S.sound space.new) }
{
    let mut place = from;
    for _ in 0..writes {
        place = place.wrapping_add(step) % PLACES;
        put(space, place)?;
    }
    match space.commit() {
        Ok(()) => Ok(place),
        Err(_) => Err(anyhow!("a commit failed")),
    }
}

// Makes the file, and so many commits.
fn commit_all<S: Space>(space: &mut S, commits: u64, writes: u64) -> Result<(), Error>
    requires { S.sound space.old }
{
    let last = PLACES - 1;
    let mut place = commit_one(space, last, 1, PLACES)?;
    for _ in 0..commits {
        place = commit_one(space, place, 5_001, writes)?;
    }
    Ok(())
}

// The same of a space that is let go behind it.
fn commit_through<S: Space + Drop>(space: S, commits: u64, writes: u64) -> Result<(), Error>
    requires { S.sound space }
{
    let mut space = space;
    let made = commit_all(&mut space, commits, writes);
    drop(space);
    made
}

// The same with writes that are held until a commit.
fn commit_held<S: Batched + Drop>(
    space: S,
    held: Held,
    commits: u64,
    writes: u64,
) -> Result<(), Error>
    requires sound { S.sound space }
    requires untouched { S.touched space ≡ false }
{
    commit_through(HeldSpace::new(space, held), commits, writes)
}

/// Makes so many commits of so many writes of 64 bytes.
pub fn keep<V: Volume + Drop>(alloc: Global, vol: V, words: &[String]) -> Result<(), Error>
    requires { V.bound vol ≡ true }
{
    let [how, commits, writes] = words else {
        return Err(anyhow!("commits NAME through|held COMMITS WRITES"));
    };
    let (commits, writes) = (commits.parse()?, writes.parse()?);
    let held = match how.as_str() {
        "held" => Some(Held::new(alloc)?),
        _ => None,
    };
    let Ok(space) = Undo::open(vol, 1 << 20) else {
        return Err(anyhow!("the file can't be opened"));
    };
    match held {
        Some(held) => commit_held(space, held, commits, writes),
        None => commit_through(space, commits, writes),
    }
}
