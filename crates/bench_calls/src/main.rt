//! What the scripts in `bench/` time of the calls below a database. Its words are `make COUNT`, `list COUNT` or `turn COUNT TIMES` (free blocks of a file in memory), `copy NAME LABEL`, or
//! `commits NAME through|held COMMITS WRITES`.
#![tactic(auto)]

ghost use Rattle.std.specs.Prelude.{◌≡◌, true};

mod blocks;
mod commits;
mod copying;
mod pools;
mod turns;

use anyhow::{Error, anyhow};
use commits::keep;
use copying::copy;
use pools::make;
use std::alloc::Global;
use std::env;
use tc_io::Volume;
use tc_realfs::FolderVolume;

// What is done with a volume that is bound.
fn run_on<V: Volume + Drop>(
    alloc: Global,
    vol: V,
    what: &str,
    words: &[String],
) -> Result<(), Error>
    requires { V.bound vol ≡ true }
{
    match what {
        "copy" => copy(vol, words),
        "commits" => keep(alloc, vol, words),
        _ => {
            drop(vol);
            Err(anyhow!("make, list, turn, copy or commits"))
        }
    }
}

fn main(rt: HostRuntime) -> Result<(), Error> {
    let alloc = rt.alloc();
    let words: Vec<String> = env::args(&rt)?.skip(1).collect(alloc)?;
    let [what, first, rest @ ..] = words.as_slice() else {
        return Err(anyhow!("make, list, turn, copy or commits, and its words"));
    };
    if matches!(what.as_str(), "make" | "list" | "turn") {
        let (bytes, size) = make(alloc, what, first, rest)?;
        println!(rt; "{bytes} bytes, a pool of {size}")?;
        return Ok(());
    }
    let mut vol = FolderVolume::new(&rt, alloc);
    let Ok(()) = vol.bind(first) else {
        return Err(anyhow!("no database of this name"));
    };
    run_on(alloc, vol, what.as_str(), rest)?;
    println!(rt; "done")?;
    Ok(())
}
