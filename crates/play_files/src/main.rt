//! Plays cases of what is kept in files, over files in memory: maps, lists of pairs and trees, arrays, free blocks, pages in a cache, and files with commits. The first line of a case says what it
//! is of, each further one what is called and what comes of it. Its words are files of cases; without words its standard input is one.
#![tactic(auto)]

mod arrays;
mod caches;
mod commits;
mod counted;
mod cursors;
mod hashes;
mod kept;
mod lists;
mod looks;
mod maps;
mod memory;
mod objects;
mod playing;
mod pools;
mod refusals;
mod stopped;
mod stores;
mod trees;

use objects::Objects;
use play_text::play_inputs;
use std::io;
use std::process::ExitCode;

fn main(rt: HostRuntime) -> io::Result<ExitCode> {
    play_inputs(&rt, &mut Objects::new(rt.alloc()))
}
