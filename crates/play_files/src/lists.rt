//! Lines on any list of pairs in a file in memory.

use crate::kept::{Kept, kept_line};
use crate::looks::{are_pairs, are_texts, usable};
use crate::maps::is_put;
use crate::refusals::refused;
use bt_order::Stretch;
use play_text::{Line, Wrong};
use std::alloc::Global;
use tc_base::{Blob, Blobs, Form, Mode, Pairs, Steps};
use tc_memstores::OneFile;
use tc_space::Multi;

/// A list and its file, and the steps of a search in it, if that was the last that was done.
#[derive(Drop)]
pub struct ListOf<M> {
    pub list: M,
    pub space: OneFile,
    pub steps: Option<u64>,
}

impl<M> ListOf<M> {
    pub fn new(list: M, space: OneFile) -> ListOf<M> {
        ListOf {
            list,
            space,
            steps: None,
        }
    }

    /// Before a line: the steps of the search before are told by a line that asks for them at once, and by no later one.
    pub fn begin(&mut self, what: &str) {
        if !matches!(what, "steps") {
            self.steps = None;
        }
    }
}

impl<M: Multi<S = OneFile>> Kept for ListOf<M> {
    fn file(&self) -> u32 {
        self.list.file()
    }

    fn count(&self) -> u64 {
        self.list.count()
    }

    fn steps(&self) -> Option<u64> {
        self.steps
    }

    fn put(&mut self, key: &[u8], value: &[u8], mode: Mode) -> Result<bool, Wrong> {
        usable(&self.space)?;
        is_put(self.list.put(&mut self.space, key, value, mode))
    }

    fn get(&mut self, key: &[u8]) -> Result<Option<Blob>, Wrong> {
        usable(&self.space)?;
        let mut steps: Steps<()> = Steps::new();
        let found = self.list.get(&mut self.space, key, &mut steps);
        self.steps = Some(steps.count());
        found.map_err(refused)
    }

    fn out(&mut self, key: &[u8]) -> Result<bool, Wrong> {
        usable(&self.space)?;
        self.list.out(&mut self.space, key).map_err(refused)
    }

    fn settle(&mut self) -> Result<(), Wrong> {
        usable(&self.space)?;
        self.list.settle(&mut self.space).map_err(refused)
    }

    fn pack(&mut self, form: Form) -> Result<(), Wrong> {
        usable(&self.space)?;
        self.list.pack(&mut self.space, form).map_err(refused)
    }
}

// A pair put as the last of its key.
fn add<M: Multi<S = OneFile>>(held: &mut ListOf<M>, key: &[u8], value: &[u8]) -> Result<(), Wrong> {
    usable(&held.space)?;
    held.list
        .putdup(&mut held.space, key, value)
        .map_err(refused)
}

// All values of a key.
fn all<M: Multi<S = OneFile>>(held: &mut ListOf<M>, key: &[u8]) -> Result<Blobs, Wrong> {
    usable(&held.space)?;
    held.list.all(&mut held.space, key).map_err(refused)
}

// All pairs of a key taken out; false where there is none.
fn out_all<M: Multi<S = OneFile>>(held: &mut ListOf<M>, key: &[u8]) -> Result<bool, Wrong> {
    usable(&held.space)?;
    held.list.out_all(&mut held.space, key).map_err(refused)
}

// The first pairs of a stretch of keys, up to one or to the end where that is empty.
fn range<M: Multi<S = OneFile>>(
    held: &mut ListOf<M>,
    first: &[u8],
    end: &[u8],
    most: u64,
) -> Result<Pairs, Wrong> {
    usable(&held.space)?;
    let end = if end.is_empty() { None } else { Some(end) };
    let mut steps: Steps<()> = Steps::new();
    let found = held
        .list
        .range(&mut held.space, &Stretch { first, end }, most, &mut steps);
    held.steps = Some(steps.count());
    found.map_err(refused)
}

// A line that asks for a stretch, `range MOST FIRST .. END = #KEY #VALUE ..`, from one key up to another, or to the end where that is empty.
fn range_line<M: Multi<S = OneFile>>(
    alloc: Global,
    held: &mut ListOf<M>,
    line: &mut Line,
) -> Result<(), Wrong> {
    let most = line.number()?;
    let first = line.bytes_up_to(" .. ")?;
    let end = line.key()?;
    let found = range(held, first.as_slice(), end.as_slice(), most)?;
    are_pairs(alloc, line, &found)
}

// A line that puts a pair as the last of its key: `add KEY = VALUE`.
fn add_line<M: Multi<S = OneFile>>(held: &mut ListOf<M>, line: &mut Line) -> Result<(), Wrong> {
    let key = line.key()?;
    let value = line.bytes()?;
    add(held, key.as_slice(), value.as_slice())
}

// A line that asks for all values of a key: `all KEY = #VALUE ..`.
fn all_line<M: Multi<S = OneFile>>(
    alloc: Global,
    held: &mut ListOf<M>,
    line: &mut Line,
) -> Result<(), Wrong> {
    let key = line.key()?;
    let found = all(held, key.as_slice())?;
    are_texts(alloc, line, &found)
}

// A line that takes all pairs of a key out: `out_all KEY`, or `no_out_all KEY` where there is none.
fn out_line<M: Multi<S = OneFile>>(
    held: &mut ListOf<M>,
    what: &str,
    line: &mut Line,
) -> Result<(), Wrong> {
    let key = line.bytes()?;
    let taken = out_all(held, key.as_slice())?;
    line.is_so(taken == matches!(what, "out_all"))
}

/// Plays a line on a list of pairs.
pub fn list_line<M: Multi<S = OneFile>>(
    alloc: Global,
    held: &mut ListOf<M>,
    what: &str,
    line: &mut Line,
) -> Result<(), Wrong> {
    match what {
        "add" => add_line(held, line),
        "all" => all_line(alloc, held, line),
        "range" => range_line(alloc, held, line),
        "out_all" | "no_out_all" => out_line(held, what, line),
        _ => kept_line(alloc, held, what, line),
    }
}
