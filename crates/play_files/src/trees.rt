//! Cases of trees in hash files.
ghost use Rattle.std.specs.Prelude.{◌≤◌, IfOk};

use crate::cursors::{is_of_cursors, play_cursor};
use crate::lists::{ListOf, list_line};
use crate::looks::{is_number, is_rule, is_value, marked_line, usable};
use crate::maps::is_put;
use crate::playing::{Object, play_lines};
use crate::refusals::{refused, unopened};
use bt_check::check_tree;
use bt_cursor::Cursor;
use play_text::{Line, Script, Wrong};
use std::alloc::Global;
use tc_base::{Blob, Lexical, Mode, Order, Steps};
use tc_btree::Btree;
use tc_hash::Hash;
use tc_memstores::OneFile;
use tc_space::Records;

type Store = Hash<OneFile>;

/// Plays a line on a tree: its `height`, or one on lists.
pub fn tree_line<R: Records<S = OneFile>, O: Order>(
    alloc: Global,
    held: &mut ListOf<Btree<R, O>>,
    what: &str,
    line: &mut Line,
) -> Result<(), Wrong> {
    match what {
        "height" => is_number(alloc, line, held.list.tree().height()),
        _ => list_line(alloc, held, what, line),
    }
}

/// Whether a tree is an index: `plain|index`.
pub fn is_index(line: &mut Line) -> Result<bool, Wrong> {
    line.is_second("plain", "index")
}

/// The first rule of trees that records break: `plain|index FILE RULE`.
pub fn breaks<R: Records<S = OneFile>>(
    alloc: Global,
    store: &mut R,
    space: &mut OneFile,
    line: &mut Line,
) -> Result<(), Wrong> {
    let index = is_index(line)?;
    usable(space)?;
    let broken = check_tree::<R, Lexical>(alloc, store, space, index).err();
    is_rule(alloc, line, broken)
}

// A limit on keys or entries, from 4 to 256.
fn limit(line: &mut Line) -> Result<u32, Wrong>
    ensures { IfOk result (λ n. (4 ≤ n) × (n ≤ 256)) }
{
    let limit = line.within(4, 256)?;
    Ok(limit as u32)
}

// Puts the record `column`.
fn put_column(store: &mut Store, space: &mut OneFile) -> Result<bool, Wrong> {
    usable(space)?;
    let mut steps: Steps<()> = Steps::new();
    is_put(store.put(space, b"column", b"x", Mode::Over, &mut steps))
}

// A new file of type 1 of three buckets, with the record `column` or without records.
fn file(alloc: Global, space: &mut OneFile, column: bool) -> Result<Store, Wrong> {
    usable(space)?;
    let mut store = Hash::create(alloc, space, 0, 1, 4, 0, 3, false).map_err(refused)?;
    if column {
        put_column(&mut store, space)?;
    }
    Ok(store)
}

// A tree of no pairs in a store, with such limits.
fn planted<R: Records<S = OneFile> + Drop>(
    alloc: Global,
    store: R,
    space: &mut OneFile,
    leaf: u32,
    node: u32,
) -> Result<Btree<R, Lexical>, Wrong>
    requires leaf { (4 ≤ leaf) × (leaf ≤ 256) }
    requires node { (4 ≤ node) × (node ≤ 256) }
{
    usable(space)?;
    Btree::create(alloc, store, space, leaf, node).map_err(refused)
}

// A record of a file.
fn record<R: Records<S = OneFile>>(
    store: &mut R,
    space: &mut OneFile,
    key: &[u8],
) -> Result<Option<Blob>, Wrong> {
    usable(space)?;
    let mut steps: Steps<()> = Steps::new();
    store.get(space, key, &mut steps).map_err(refused)
}

// A record of a file: `record KEY = VALUE`.
fn is_record<R: Records<S = OneFile>>(
    store: &mut R,
    space: &mut OneFile,
    line: &mut Line,
) -> Result<(), Wrong> {
    let key = line.key()?;
    let value = line.bytes()?;
    let found = record(store, space, key.as_slice())?;
    is_value(line, Some(&value), &found)
}

// A file opened anew.
fn opened(alloc: Global, space: &mut OneFile) -> Result<Store, Wrong> {
    usable(space)?;
    Hash::open(alloc, space, 0, 1).map_err(unopened)
}

// A line on the records of a file that was opened anew: how many `records` it has, a `record`, its region, `has_region BYTES`, or the `rule` of trees that it breaks.
fn look_in<R: Records<S = OneFile>>(
    alloc: Global,
    store: &mut R,
    space: &mut OneFile,
    what: &str,
    line: &mut Line,
) -> Result<(), Wrong> {
    match what {
        "records" => is_number(alloc, line, store.count()),
        "has_region" => line.is_bytes(&store.opaque()),
        "record" => is_record(store, space, line),
        _ => breaks(alloc, store, space, line),
    }
}

// Such a line, on a file of these bytes.
fn look_anew(alloc: Global, bytes: &[u8], what: &str, line: &mut Line) -> Result<(), Wrong> {
    let mut space = OneFile::new(alloc, bytes)?;
    let mut store = opened(alloc, &mut space)?;
    look_in(alloc, &mut store, &mut space, what, line)
}

// A tree in a file, a cursor in it, and the bytes that a line kept.
#[derive(Drop)]
struct Case<R, O> {
    alloc: Global,
    held: ListOf<Btree<R, O>>,
    cursor: Cursor,
    marked: Blob,
}

// A line: those on the file's bytes, on what the file is once it is opened anew, and on lists.
impl<R: Records<S = OneFile>, O: Order> Object for Case<R, O> {
    fn play(&mut self, what: &str, line: &mut Line) -> Result<(), Wrong> {
        self.held.begin(what);
        match what {
            "bytes" | "mark" | "same" => {
                let file = self.held.space.bytes();
                marked_line(self.alloc, file, &mut self.marked, what, line)
            }
            "records" | "has_region" | "record" | "rule" => {
                look_anew(self.alloc, self.held.space.bytes(), what, line)
            }
            _ if is_of_cursors(what) => play_cursor(
                self.alloc,
                self.held.list.tree(),
                &mut self.held.space,
                &mut self.cursor,
                what,
                line,
            ),
            _ => tree_line(self.alloc, &mut self.held, what, line),
        }
    }
}

// Plays lines on a tree of no pairs in a store, with such limits.
fn play_planted<R: Records<S = OneFile> + Drop>(
    alloc: Global,
    store: R,
    space: OneFile,
    leaf: u32,
    node: u32,
    script: &mut Script<'_>,
) -> Result<(), Wrong>
    requires leaf { (4 ≤ leaf) × (leaf ≤ 256) }
    requires node { (4 ≤ node) × (node ≤ 256) }
{
    let mut space = space;
    let tree = planted(alloc, store, &mut space, leaf, node)?;
    let mut case = Case {
        alloc,
        held: ListOf::new(tree, space),
        cursor: Cursor::new(alloc),
        marked: Blob::new(alloc),
    };
    play_lines(&mut case, script)
}

/// Plays a case of a tree of no pairs in such a file: `tree LEAF NODE`, with `column` behind it where the record is there.
pub fn play_tree(alloc: Global, line: &mut Line, script: &mut Script<'_>) -> Result<(), Wrong> {
    let leaf = limit(line)?;
    let node = limit(line)?;
    let column = line.is_second("", "column")?;
    let mut space = OneFile::of(Vec::new(alloc));
    let store = file(alloc, &mut space, column)?;
    play_planted(alloc, store, space, leaf, node, script)
}
