//! Cases of pages in a cache over records in memory.
ghost use Rattle.std.specs.Prelude.{◌<◌, ◌≤◌, ◌^◌};

use crate::looks::{is_number, usable};
use crate::maps::is_put;
use crate::playing::{Object, play_lines};
use crate::refusals::refused;
use bt_cache::Cache;
use bt_slots::{SlottedLeaf, SlottedNode};
use play_text::{Line, Script, Wrong};
use std::alloc::Global;
use tc_base::{Blob, Mode, PAGE_END, Steps};
use tc_memstores::OneFile;
use tc_space::Records;

// A cache and its records.
#[derive(Drop)]
struct Held<R> {
    alloc: Global,
    cache: Cache<R>,
    store: R,
    space: OneFile,
}

// What was found of a page, and the steps to it.
#[derive(Clone, Copy)]
struct Found {
    number: u64,
    steps: u64,
}

impl<R: Records<S = OneFile>> Held<R> {
    // Puts a record past the cache.
    fn put(&mut self, key: &[u8], bytes: &[u8]) -> Result<bool, Wrong> {
        usable(&self.space)?;
        let mut steps: Steps<()> = Steps::new();
        is_put(
            self.store
                .put(&mut self.space, key, bytes, Mode::Over, &mut steps),
        )
    }

    // The leaf before a leaf.
    fn leaf(&mut self, id: u64) -> Result<Found, Wrong> {
        usable(&self.space)?;
        let mut steps: Steps<()> = Steps::new();
        let found = self
            .cache
            .leaf(&mut self.store, &mut self.space, id, &mut steps);
        match found {
            Ok(leaf) => {
                let number = leaf.prev();
                Ok(Found {
                    number,
                    steps: steps.count(),
                })
            }
            Err(e) => Err(refused(e)),
        }
    }

    // The same of a leaf that is taken out of the cache.
    fn taken(&mut self, id: u64) -> Result<Found, Wrong> {
        usable(&self.space)?;
        let mut steps: Steps<()> = Steps::new();
        let found = self
            .cache
            .take_leaf(&mut self.store, &mut self.space, id, &mut steps);
        match found {
            Ok(leaf) => Ok(Found {
                number: leaf.prev(),
                steps: steps.count(),
            }),
            Err(e) => Err(refused(e)),
        }
    }

    // The heir of a node.
    fn node(&mut self, id: u64) -> Result<Found, Wrong> {
        usable(&self.space)?;
        let mut steps: Steps<()> = Steps::new();
        let found = self
            .cache
            .node(&mut self.store, &mut self.space, id, &mut steps);
        match found {
            Ok(node) => {
                let number = node.heir();
                Ok(Found {
                    number,
                    steps: steps.count(),
                })
            }
            Err(e) => Err(refused(e)),
        }
    }

    // Puts a leaf.
    fn put_leaf(&mut self, id: u64, leaf: SlottedLeaf) -> Result<(), Wrong>
        requires { id < 2 ^ 48 }
    {
        usable(&self.space)?;
        self.cache
            .put_leaf(&mut self.store, &mut self.space, id, leaf)
            .map_err(refused)
    }

    // Puts a node.
    fn put_node(&mut self, id: u64, node: SlottedNode) -> Result<(), Wrong>
        requires { 2 ^ 48 ≤ id }
    {
        usable(&self.space)?;
        self.cache
            .put_node(&mut self.store, &mut self.space, id, node)
            .map_err(refused)
    }

    // Drops a page, from its record too.
    fn drop_page(&mut self, id: u64) -> Result<(), Wrong> {
        usable(&self.space)?;
        self.cache
            .drop_page(&mut self.store, &mut self.space, id)
            .map_err(refused)
    }
}

// A page put: a leaf below 2^48, else a node.
fn put_page<R: Records<S = OneFile>>(
    held: &mut Held<R>,
    id: u64,
    bytes: Blob,
) -> Result<(), Wrong> {
    if id < PAGE_END {
        return match SlottedLeaf::read(held.alloc, bytes) {
            Ok(leaf) => held.put_leaf(id, leaf),
            Err(_) => Err(Wrong::Unread),
        };
    }
    match SlottedNode::read(held.alloc, bytes) {
        Ok(node) => held.put_node(id, node),
        Err(_) => Err(Wrong::Unread),
    }
}

// A line that puts a page: `page ID BYTES`.
fn page_line<R: Records<S = OneFile>>(held: &mut Held<R>, line: &mut Line) -> Result<(), Wrong> {
    let id = line.number()?;
    let bytes = line.bytes()?;
    let bytes = Blob::from_slice(held.alloc, bytes.as_slice())?;
    put_page(held, id, bytes)
}

// A line that puts a record past the cache: `record KEY = BYTES`.
fn record_line<R: Records<S = OneFile>>(held: &mut Held<R>, line: &mut Line) -> Result<(), Wrong> {
    let key = line.key()?;
    let bytes = line.bytes()?;
    held.put(key.as_slice(), bytes.as_slice())?;
    Ok(())
}

// A line that asks for a page: `leaf ID FOUND STEPS` and `taken` for the leaf before it, `node` for its heir, each with the steps to it.
fn ask<R: Records<S = OneFile>>(
    held: &mut Held<R>,
    what: &str,
    line: &mut Line,
) -> Result<(), Wrong> {
    let id = line.number()?;
    let found = match what {
        "leaf" => held.leaf(id),
        "taken" => held.taken(id),
        "node" => held.node(id),
        _ => Err(Wrong::Unread),
    };
    let Found { number, steps } = found?;
    line.is_text(format!(in held.alloc; "{number} {steps}")?)
}

impl<R: Records<S = OneFile>> Object for Held<R> {
    fn play(&mut self, what: &str, line: &mut Line) -> Result<(), Wrong> {
        match what {
            "record" => record_line(self, line),
            "page" => page_line(self, line),
            "count" => is_number(self.alloc, line, self.store.count()),
            "forget" => {
                self.cache.forget(line.number()?);
                Ok(())
            }
            "drop" => self.drop_page(line.number()?),
            _ => ask(self, what, line),
        }
    }
}

// No pages over a store: `cache ROOM`, for so many of them.
fn created<R: Records<S = OneFile> + Drop>(
    alloc: Global,
    store: R,
    line: &mut Line,
) -> Result<Held<R>, Wrong> {
    let room = line.within(1, u64::from(u32::MAX))?;
    let cache = Cache::new(alloc, room as usize)?;
    Ok(Held {
        alloc,
        cache,
        store,
        space: OneFile::of(Vec::new(alloc)),
    })
}

/// Plays a case of a cache over a store.
pub fn play_pages<R: Records<S = OneFile> + Drop>(
    alloc: Global,
    store: R,
    line: &mut Line,
    script: &mut Script<'_>,
) -> Result<(), Wrong> {
    play_lines(&mut created(alloc, store, line)?, script)
}
