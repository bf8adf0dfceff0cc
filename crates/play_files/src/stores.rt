//! Cases of records in memory, and of the trees that they may be.

use crate::caches::play_pages;
use crate::lists::{ListOf, list_line};
use crate::looks::is_rule;
use crate::maps::{MapOf, map_line};
use crate::playing::{Object, play_lines};
use crate::trees::{breaks, is_index, tree_line};
use play_text::{Line, Script, Wrong};
use std::alloc::Global;
use tc_base::{Lexical, set_le};
use tc_btree::Btree;
use tc_memstores::{MemMulti, MemRecords, OneFile};
use tc_space::{OpenErr, Records, Space};

// A region of other bytes: `region BYTES`.
fn given_region(line: &mut Line) -> Result<[u8; 128], Wrong> {
    let bytes = line.bytes()?;
    let all = bytes.as_slice();
    let mut region = [0; 128];
    if all.len() != 128 {
        return Err(Wrong::Unread);
    }
    region.copy_from_slice(all);
    Ok(region)
}

// The region of a tree with limits 4 and 4: `tree ORDER ROOT LAST LEAVES NODES PAIRS`.
fn tree_region(line: &mut Line) -> Result<[u8; 128], Wrong> {
    let mut region = [0; 128];
    region[0] = line.within(0, 255)? as u8;
    set_le(&mut region, 8, 4, 4);
    set_le(&mut region, 12, 4, 4);
    set_le(&mut region, 16, 8, line.number()?);
    set_le(&mut region, 24, 8, 1);
    for place in [32, 40, 48, 56] {
        set_le(&mut region, place, 8, line.number()?);
    }
    Ok(region)
}

// A line on records in memory.
fn look<R: Records<S = OneFile>>(
    alloc: Global,
    held: &mut MapOf<R>,
    what: &str,
    line: &mut Line,
) -> Result<(), Wrong> {
    match what {
        "tree" => {
            held.map.set_opaque(&tree_region(line)?);
            Ok(())
        }
        "region" => {
            held.map.set_opaque(&given_region(line)?);
            Ok(())
        }
        "has_region" => line.is_bytes(&held.map.opaque()),
        "rule" => breaks(alloc, &mut held.map, &mut held.space, line),
        _ => map_line(alloc, held, what, line),
    }
}

// The tree that the records are; an order other than that of bytes is a fault.
fn opened<R: Records<S = OneFile> + Drop>(
    alloc: Global,
    store: R,
    space: &mut OneFile,
    index: bool,
) -> Result<Btree<R, Lexical>, OpenErr> {
    let opaque = store.opaque();
    if opaque[0] != 0 || !space.is_sound() {
        return Err(OpenErr::Fault);
    }
    if index {
        return Btree::open_index(alloc, store, space);
    }
    Btree::open(alloc, store, space)
}

// A list in memory.
#[derive(Drop)]
struct ListCase {
    alloc: Global,
    held: ListOf<MemMulti<OneFile, Lexical>>,
}

impl Object for ListCase {
    fn play(&mut self, what: &str, line: &mut Line) -> Result<(), Wrong> {
        self.held.begin(what);
        list_line(self.alloc, &mut self.held, what, line)
    }
}

// A tree that records are.
#[derive(Drop)]
struct TreeCase<R> {
    alloc: Global,
    held: ListOf<Btree<R, Lexical>>,
}

impl<R: Records<S = OneFile>> Object for TreeCase<R> {
    fn play(&mut self, what: &str, line: &mut Line) -> Result<(), Wrong> {
        self.held.begin(what);
        tree_line(self.alloc, &mut self.held, what, line)
    }
}

// Opens the tree, `opens plain|index RULE`, and plays what is left of the case on it.
fn play_opened<R: Records<S = OneFile> + Drop>(
    alloc: Global,
    store: R,
    mut space: OneFile,
    line: &mut Line,
    script: &mut Script<'_>,
) -> Result<(), Wrong> {
    let index = is_index(line)?;
    match opened(alloc, store, &mut space, index) {
        Ok(tree) => {
            is_rule(alloc, line, None)?;
            let held = ListOf::new(tree, space);
            play_lines(&mut TreeCase { alloc, held }, script)
        }
        Err(e) => is_rule(alloc, line, Some(e)),
    }
}

// Plays lines on a map, up to one that opens the tree that it is.
fn play_map<R: Records<S = OneFile> + Drop>(
    alloc: Global,
    map: R,
    script: &mut Script<'_>,
) -> Result<(), Wrong> {
    let mut held = MapOf::new(map, OneFile::of(Vec::new(alloc)));
    for _ in 0..script.len() {
        let Some((what, mut line)) = script.next_line()? else {
            return Ok(());
        };
        if matches!(what, "opens") {
            play_opened(alloc, held.map, held.space, &mut line, script)?;
            return script.end(line);
        }
        held.begin(what);
        look(alloc, &mut held, what, &mut line)?;
        script.end(line)?;
    }
    Ok(())
}

// Plays a case over a store: of the map that it is, or of pages of it in a cache.
fn play_over<R: Records<S = OneFile> + Drop>(
    alloc: Global,
    store: R,
    is_map: bool,
    line: &mut Line,
    script: &mut Script<'_>,
) -> Result<(), Wrong> {
    if is_map {
        return play_map(alloc, store, script);
    }
    play_pages(alloc, store, line, script)
}

/// Plays a case over records in memory: of a map, `map FILE`, or of a cache, `cache ROOM`.
pub fn play_records(
    alloc: Global,
    is_map: bool,
    line: &mut Line,
    script: &mut Script<'_>,
) -> Result<(), Wrong> {
    let file = if is_map { line.small()? } else { 0 };
    let store: MemRecords<OneFile> = MemRecords::new(alloc, file);
    play_over(alloc, store, is_map, line, script)
}

/// Plays a case of a list of pairs in memory: `list FILE`.
pub fn play_pairs(alloc: Global, line: &mut Line, script: &mut Script<'_>) -> Result<(), Wrong> {
    let list = MemMulti::new(alloc, line.small()?);
    let held = ListOf::new(list, OneFile::of(Vec::new(alloc)));
    play_lines(&mut ListCase { alloc, held }, script)
}
