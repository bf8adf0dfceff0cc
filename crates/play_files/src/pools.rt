//! Cases of blocks that are listed, and of a pool of free ones.

use crate::looks::{bytes_line, is_number, name_of, usable};
use crate::playing::{Object, play_lines};
use crate::refusals::{refused, unlisted, unwritten};
use hf_block::{Blocks, WalkErr, walk};
use hf_head::Head;
use hf_pool::Pool;
use play_text::{Line, Script, Why, Wrong};
use std::alloc::{AllocError, Global};
use tc_base::Blob;
use tc_memstores::OneFile;
use tc_space::Space;

// A hash file of three buckets whose blocks stand from 336 up to a size.
fn head(size: u64) -> Head {
    Head {
        kind: 0,
        apow: 4,
        fpow: 0,
        options: 0,
        buckets: 3,
        records: 1,
        size,
        first: 336,
        opaque: [0; 128],
    }
}

// The pool that a walk up to a size finds in a file.
fn found(alloc: Global, bytes: &[u8], size: u64) -> Result<Pool, WalkErr> {
    let mut space = OneFile::new(alloc, bytes)?;
    let Ok(head) = Head::read(&head(size).write()) else {
        return Err(WalkErr::Fault);
    };
    let blocks = walk(alloc, &mut space, 0, &head)?;
    Ok(Pool::build(alloc, &blocks, head.unit(), head.first, head.size)?)
}

// The file of these blocks: 336 bytes stand in front of them.
fn file_of(alloc: Global, blocks: &[u8]) -> Result<Vec<u8>, AllocError> {
    let mut bytes = vec![in alloc; 0; 336]?;
    bytes.extend_from_slice(blocks)?;
    Ok(bytes)
}

// The blocks of a file, as they are walked.
fn listed(alloc: Global, bytes: &[u8]) -> Result<Blocks, WalkErr> {
    let mut space = OneFile::new(alloc, bytes)?;
    match Head::read(&head(bytes.len() as u64).write()) {
        Ok(head) => walk(alloc, &mut space, 0, &head),
        Err(_) => Err(WalkErr::Fault),
    }
}

// Blocks as text: the place and the size of each, and whether it is free.
fn text_of(alloc: Global, blocks: &Blocks) -> Result<String, AllocError> {
    let mut text = String::new(alloc);
    for block in blocks.as_slice() {
        let kind = if block.free { " free" } else { " used" };
        let gap = if text.is_empty() { "" } else { " " };
        text.push_str(format!(in alloc; "{gap}{} {}{kind}", block.place, block.size)?.as_str())?;
    }
    Ok(text)
}

// The blocks of a file as text, or the rule that they break.
fn blocks_text(alloc: Global, bytes: &[u8]) -> Result<String, Wrong> {
    match listed(alloc, bytes) {
        Ok(blocks) => Ok(text_of(alloc, &blocks)?),
        Err(WalkErr::Broken(rule)) => Ok(name_of(alloc, rule)?),
        Err(e) => Err(unlisted(e)),
    }
}

/// Looks at blocks: `blocks BYTES => PLACE SIZE used|free ..`, or the rule that they break.
pub fn are_blocks(alloc: Global, line: &mut Line) -> Result<(), Wrong> {
    let given = line.given()?;
    let bytes = file_of(alloc, given.as_slice())?;
    line.is_text(blocks_text(alloc, &bytes)?)
}

// A pool and its file.
#[derive(Drop)]
struct Held {
    alloc: Global,
    pool: Pool,
    space: OneFile,
}

impl Held {
    // Takes a block of a size that begins below a place, or one at the end, where the sum still fits.
    fn take(&mut self, size: u64, most: u64) -> Result<u64, Wrong> {
        usable(&self.space)?;
        let pool = &mut self.pool;
        if size == 0 || size % pool.unit() != 0 || pool.size() > u64::MAX - size {
            return Err(Wrong::Not(Why::Limit));
        }
        pool.take(&mut self.space, 0, size, most).map_err(refused)
    }

    // Gives a block back, where it meets no free one.
    fn give(&mut self, at: u64, size: u64) -> Result<(), Wrong> {
        usable(&self.space)?;
        let pool = &mut self.pool;
        if size == 0 || size >= 1 << 32 || at > pool.size() || size > pool.size() - at {
            return Err(Wrong::Not(Why::Limit));
        }
        if at % pool.unit() != 0 || size % pool.unit() != 0 || !pool.meets_none(at, size) {
            return Err(Wrong::Not(Why::Limit));
        }
        pool.give(&mut self.space, 0, at, size).map_err(refused)
    }

    // Writes a record into the file.
    fn write(&mut self, at: u64, bytes: &[u8]) -> Result<(), Wrong> {
        usable(&self.space)?;
        self.space.write(0, at, bytes).map_err(unwritten)
    }
}

// A block taken at a place, and a record written into it: `SIZE PLACE RECORD`.
fn take_line(held: &mut Held, most: u64, line: &mut Line) -> Result<(), Wrong> {
    let size = line.number()?;
    let wanted = line.number()?;
    line.compares();
    let place = held.take(size, most)?;
    if place != wanted {
        return Err(Wrong::Differs(format!(in held.alloc; "{place}")?));
    }
    let record = line.bytes()?;
    held.write(place, record.as_slice())
}

// A block taken so, which begins below a place: `PLACE SIZE PLACE RECORD`.
fn below_line(held: &mut Held, line: &mut Line) -> Result<(), Wrong> {
    let most = line.number()?;
    take_line(held, most, line)
}

// A block given back: `PLACE SIZE`.
fn give_line(held: &mut Held, line: &mut Line) -> Result<(), Wrong> {
    let at = line.number()?;
    let size = line.number()?;
    held.give(at, size)
}

// A line that changes the pool: `take SIZE PLACE RECORD`, `below PLACE SIZE PLACE RECORD`, `give PLACE SIZE`, `trim`; or `written`, that the file has its section.
fn change(held: &mut Held, what: &str, line: &mut Line) -> Result<(), Wrong> {
    match what {
        "take" => take_line(held, u64::MAX, line),
        "below" => below_line(held, line),
        "give" => give_line(held, line),
        "trim" => {
            held.pool.trim();
            Ok(())
        }
        "written" => {
            held.pool.mark_written();
            Ok(())
        }
        _ => Err(Wrong::Unread),
    }
}

// What a pool tells a file of itself.
fn section(alloc: Global, pool: &Pool) -> Result<Blob, AllocError> {
    let mut into = Blob::new(alloc);
    pool.section(68, &mut into)?;
    Ok(into)
}

// The section without the zeros behind it.
fn pairs(alloc: Global, pool: &Pool) -> Result<Blob, AllocError> {
    let mut into = Blob::new(alloc);
    pool.pairs(68, &mut into)?;
    Ok(into)
}

// Whether a pool has the same section and size as another.
fn is_same(alloc: Global, pool: &Pool, other: &Pool) -> Result<bool, AllocError> {
    let (one, another) = (section(alloc, pool)?, section(alloc, other)?);
    Ok(one.as_slice() == another.as_slice() && pool.size() == other.size())
}

// Looks whether a walk finds the pool again.
fn is_found(alloc: Global, pool: &Pool, bytes: &[u8], line: &mut Line) -> Result<(), Wrong> {
    match found(alloc, bytes, pool.size()) {
        Ok(again) => line.is_so(is_same(alloc, pool, &again)?),
        Err(e) => Err(unlisted(e)),
    }
}

// A line: `section BYTES` is what the pool lists, `pairs BYTES` the same without zeros, `changed` or `unchanged` whether that may differ from what was written, `size N` where the blocks end, `bytes PLACE BYTES` what stands in the file, `walked` that a walk finds the pool again.
impl Object for Held {
    fn play(&mut self, what: &str, line: &mut Line) -> Result<(), Wrong> {
        match what {
            "changed" => line.is_so(self.pool.has_changed()),
            "unchanged" => line.is_so(!self.pool.has_changed()),
            "pairs" => line.is_bytes(pairs(self.alloc, &self.pool)?.as_slice()),
            "section" => line.is_bytes(section(self.alloc, &self.pool)?.as_slice()),
            "size" => is_number(self.alloc, line, self.pool.size()),
            "bytes" => bytes_line(self.alloc, self.space.bytes(), what, line),
            "walked" => is_found(self.alloc, &self.pool, self.space.bytes(), line),
            _ => change(self, what, line),
        }
    }
}

// The pool of a file: `pool BYTES`, its blocks.
fn opened(alloc: Global, line: &mut Line) -> Result<Held, Wrong> {
    let blocks = line.bytes()?;
    let bytes = file_of(alloc, blocks.as_slice())?;
    match found(alloc, &bytes, bytes.len() as u64) {
        Ok(pool) => Ok(Held {
            alloc,
            pool,
            space: OneFile::of(bytes),
        }),
        Err(e) => Err(unlisted(e)),
    }
}

/// Plays a case of a pool.
pub fn play_pool(alloc: Global, line: &mut Line, script: &mut Script<'_>) -> Result<(), Wrong> {
    play_lines(&mut opened(alloc, line)?, script)
}
