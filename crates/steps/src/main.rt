//! Makes the steps that its standard input has on a list of pairs, and writes what they are answered: what `tests/trees` draws, and `bench/trees` times. Its words are what keeps the list, and its
//! order: `list` is a list in memory, `tree` a tree over a map in memory, `hash` a tree in a hash file in memory, `rows` one in a file whose records come first; `lexical` or `decimal`.
#![tactic(auto)]

ghost use Rattle.std.specs.Prelude.{◌≤◌};

mod answers;
mod playing;
mod rows;
mod script;
mod trees;

use anyhow::{Error, anyhow};
use playing::play_all;
use rows::play_rows;
use script::Script;
use std::alloc::Global;
use std::env;
use std::io::{Read, Write};
use tc_base::{Blob, Decimal, Lexical, Order};
use tc_memstores::MemMulti;
use tc_space::{NoSpace, RecErr};
use trees::{play_hash, play_tree};

fn play_list<O: Order>(alloc: Global, bytes: &[u8], into: &mut Blob) -> Result<(), RecErr> {
    let mut space = NoSpace::new();
    let mut list = MemMulti::<NoSpace, O>::new(alloc, 0);
    let mut script = Script::new(bytes);
    play_all(&mut list, &mut space, &mut script, into)
}

fn played<O: Order>(alloc: Global, kept: &str, bytes: &[u8]) -> Result<Blob, Error>
    requires { O.CODE ≤ 1 }
{
    let mut out = Blob::new(alloc);
    match kept {
        "list" => play_list::<O>(alloc, bytes, &mut out)?,
        "tree" => play_tree::<O>(alloc, bytes, &mut out)?,
        "hash" => play_hash::<O>(alloc, bytes, &mut out)?,
        "rows" => play_rows::<O>(alloc, bytes, &mut out)?,
        _ => return Err(anyhow!("list, tree, hash or rows")),
    }
    Ok(out)
}

fn main(rt: HostRuntime) -> Result<(), Error> {
    let alloc = rt.alloc();
    let words: Vec<String> = env::args(&rt)?.skip(1).collect(alloc)?;
    let mut bytes = Vec::new(alloc);
    rt.stdin().read_to_end(&mut bytes)?;
    let (Some(kept), Some(order)) = (words.first(), words.get(1)) else {
        return Err(anyhow!("list, tree, hash or rows, and lexical or decimal"));
    };
    let out = match order.as_str() {
        "lexical" => played::<Lexical>(alloc, kept.as_str(), &bytes)?,
        "decimal" => played::<Decimal>(alloc, kept.as_str(), &bytes)?,
        _ => return Err(anyhow!("lexical or decimal")),
    };
    rt.stdout().write_all(out.as_slice())?;
    Ok(())
}
