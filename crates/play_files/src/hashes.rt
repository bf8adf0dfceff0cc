//! Cases of hash files.

use crate::looks::{is_number, marked_line, usable};
use crate::maps::{MapOf, map_line};
use crate::playing::{Object, play_lines};
use crate::refusals::{refused, unopened};
use play_text::{Line, Script, Wrong};
use std::alloc::Global;
use tc_base::{Blob, Steps};
use tc_hash::Hash;
use tc_memstores::OneFile;

type Held = MapOf<Hash<OneFile>>;

// How long the value of a key is.
fn long(held: &mut Held, key: &[u8]) -> Result<Option<u64>, Wrong> {
    usable(&held.space)?;
    let mut steps: Steps<()> = Steps::new();
    let found = held.map.get_len(&mut held.space, key, &mut steps);
    held.steps = Some(steps.count());
    found.map_err(refused)
}

// A line that asks for the length of a value: `length KEY = N`.
fn length_line(held: &mut Held, line: &mut Line) -> Result<(), Wrong> {
    let key = line.key()?;
    let wanted = line.number()?;
    let found = long(held, key.as_slice())?;
    line.is_so(found == Some(wanted))
}

// A line that asks for the length of none: `no_length KEY`.
fn no_length_line(held: &mut Held, line: &mut Line) -> Result<(), Wrong> {
    let key = line.bytes()?;
    let found = long(held, key.as_slice())?;
    line.is_so(found.is_none())
}

// The file opens.
fn opens(alloc: Global, bytes: &[u8]) -> Result<(), Wrong> {
    let mut again = OneFile::new(alloc, bytes)?;
    let opened: Result<Hash<OneFile>, _> = Hash::open(alloc, &mut again, 0, 0);
    match opened {
        Ok(_) => Ok(()),
        Err(e) => Err(unopened(e)),
    }
}

// A hash file, and the bytes that a line kept.
#[derive(Drop)]
struct Case {
    alloc: Global,
    held: Held,
    marked: Blob,
}

// A line: `length KEY = N`, `no_length KEY`, `size N` for the length of its blocks, `opens`; those on its bytes, and on maps.
impl Object for Case {
    fn play(&mut self, what: &str, line: &mut Line) -> Result<(), Wrong> {
        self.held.begin(what);
        match what {
            "length" => length_line(&mut self.held, line),
            "no_length" => no_length_line(&mut self.held, line),
            "size" => is_number(self.alloc, line, self.held.map.size()),
            "opens" => opens(self.alloc, self.held.space.bytes()),
            "bytes" | "ends" | "mark" | "same" => {
                let file = self.held.space.bytes();
                marked_line(self.alloc, file, &mut self.marked, what, line)
            }
            _ => map_line(self.alloc, &mut self.held, what, line),
        }
    }
}

// A new file of no records, with a unit of 16 and a pool of 68 bytes: `hash BUCKETS small|large`.
fn created(alloc: Global, space: &mut OneFile, line: &mut Line) -> Result<Hash<OneFile>, Wrong> {
    let buckets = line.within(1, 1 << 38)?;
    let large = line.is_second("small", "large")?;
    usable(space)?;
    Hash::create(alloc, space, 0, 0, 4, 0, buckets, large).map_err(refused)
}

/// Plays a case of a hash file.
pub fn play_hash(alloc: Global, line: &mut Line, script: &mut Script<'_>) -> Result<(), Wrong> {
    let mut space = OneFile::of(Vec::new(alloc));
    let hash = created(alloc, &mut space, line)?;
    let mut case = Case {
        alloc,
        held: MapOf::new(hash, space),
        marked: Blob::new(alloc),
    };
    play_lines(&mut case, script)
}
