//! Lines on any map and any list of pairs in a file in memory.

use crate::looks::{is_number, is_value};
use play_text::{Line, Why, Wrong};
use std::alloc::Global;
use tc_base::{Blob, Form, Mode};

/// A map or a list of pairs, and the steps of the last search in it, if there was one.
pub trait Kept {
    fn file(&self) -> u32;

    fn count(&self) -> u64;

    fn steps(&self) -> Option<u64>;

    /// Puts a pair, by the mode; false where its key is held and was to be kept.
    fn put(&mut self, key: &[u8], value: &[u8], mode: Mode) -> Result<bool, Wrong>;

    /// The value of a key; of a list the first.
    fn get(&mut self, key: &[u8]) -> Result<Option<Blob>, Wrong>;

    /// Takes a key out; of a list its first pair. False where it isn't held.
    fn out(&mut self, key: &[u8]) -> Result<bool, Wrong>;

    /// Brings what is held in memory to the file.
    fn settle(&mut self) -> Result<(), Wrong>;

    /// Packs the file in a form.
    fn pack(&mut self, form: Form) -> Result<(), Wrong>;
}

// A line that puts: `put KEY = VALUE` over what is there, `keep` where nothing is, `held` where something is, `cat` behind it.
fn put_line<K: Kept>(kept: &mut K, what: &str, line: &mut Line) -> Result<(), Wrong> {
    let mode = match what {
        "put" => Mode::Over,
        "cat" => Mode::Cat,
        _ => Mode::Keep,
    };
    let key = line.key()?;
    let value = line.bytes()?;
    let done = kept.put(key.as_slice(), value.as_slice(), mode)?;
    if mode != Mode::Keep {
        return Ok(());
    }
    line.is_so(done == matches!(what, "keep"))
}

// A line that asks for a key: `get KEY = VALUE`.
fn get_line<K: Kept>(kept: &mut K, line: &mut Line) -> Result<(), Wrong> {
    let key = line.key()?;
    let value = line.bytes()?;
    let found = kept.get(key.as_slice())?;
    is_value(line, Some(&value), &found)
}

// A line that asks for a key which isn't held: `none KEY`.
fn none_line<K: Kept>(kept: &mut K, line: &mut Line) -> Result<(), Wrong> {
    let key = line.bytes()?;
    let found = kept.get(key.as_slice())?;
    is_value(line, None, &found)
}

// A line that takes a key out: `out KEY`, or `no_out KEY` where it isn't held.
fn out_line<K: Kept>(kept: &mut K, what: &str, line: &mut Line) -> Result<(), Wrong> {
    let key = line.bytes()?;
    let taken = kept.out(key.as_slice())?;
    line.is_so(taken == matches!(what, "out"))
}

// The file packed in this form, and what is held in memory brought to it.
fn pack<K: Kept>(kept: &mut K, form: Form) -> Result<(), Wrong> {
    kept.pack(form)?;
    kept.settle()
}

// The steps of the last search are those of a line; there was a search.
fn are_steps(alloc: Global, line: &mut Line, steps: Option<u64>) -> Result<(), Wrong> {
    match steps {
        Some(steps) => is_number(alloc, line, steps),
        None => Err(Wrong::Not(Why::NoSearch)),
    }
}

// A line on the whole.
fn whole_line<K: Kept>(
    alloc: Global,
    kept: &mut K,
    what: &str,
    line: &mut Line,
) -> Result<(), Wrong> {
    match what {
        "steps" => are_steps(alloc, line, kept.steps()),
        "count" => is_number(alloc, line, kept.count()),
        "file" => is_number(alloc, line, u64::from(kept.file())),
        "settle" => kept.settle(),
        "pack" => pack(kept, Form::Keep),
        "enlarge" => pack(kept, Form::Large),
        _ => Err(Wrong::Unread),
    }
}

/// Plays a line on a map or a list of pairs.
pub fn kept_line<K: Kept>(
    alloc: Global,
    kept: &mut K,
    what: &str,
    line: &mut Line,
) -> Result<(), Wrong> {
    match what {
        "put" | "keep" | "held" | "cat" => put_line(kept, what, line),
        "get" => get_line(kept, line),
        "none" => none_line(kept, line),
        "out" | "no_out" => out_line(kept, what, line),
        _ => whole_line(alloc, kept, what, line),
    }
}
