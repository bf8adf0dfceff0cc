//! What a case is of.

use crate::arrays::play_array;
use crate::commits::Files;
use crate::hashes::play_hash;
use crate::pools::{are_blocks, play_pool};
use crate::stopped::play_trial;
use crate::stores::{play_pairs, play_records};
use crate::trees::play_tree;
use play_text::{Line, Player, Script, Wrong};
use std::alloc::Global;

/// What plays cases.
#[derive(Drop)]
pub struct Objects {
    alloc: Global,
}

// Plays a case of files with commits.
fn play_commits(alloc: Global, script: &mut Script<'_>) -> Result<(), Wrong> {
    let mut files = Files::new(alloc)?;
    for _ in 0..script.len() {
        let Some((what, mut line)) = script.next_line()? else {
            return Ok(());
        };
        files.play(what, &mut line, script)?;
        script.end(line)?;
    }
    Ok(())
}

// Plays a case of what its first line names.
fn play_of(
    alloc: Global,
    what: &str,
    line: &mut Line,
    script: &mut Script<'_>,
) -> Result<(), Wrong> {
    match what {
        "map" => play_records(alloc, true, line, script),
        "list" => play_pairs(alloc, line, script),
        "hash" => play_hash(alloc, line, script),
        "tree" => play_tree(alloc, line, script),
        "array" => play_array(alloc, line, script),
        "blocks" => are_blocks(alloc, line),
        "pool" => play_pool(alloc, line, script),
        "cache" => play_records(alloc, false, line, script),
        "commits" => play_commits(alloc, script),
        "transactions" => play_trial(alloc, line, script),
        _ => Err(Wrong::Unread),
    }
}

impl Objects {
    pub fn new(alloc: Global) -> Objects {
        Objects { alloc }
    }
}

impl Player for Objects {
    fn play(&mut self, script: &mut Script<'_>) -> Result<(), Wrong> {
        let Some((what, mut line)) = script.next_line()? else {
            return Ok(());
        };
        play_of(self.alloc, what, &mut line, script)?;
        script.end(line)
    }
}
