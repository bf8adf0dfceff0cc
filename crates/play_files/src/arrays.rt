//! Cases of fixed-length files.

use crate::looks::{bytes_line, is_number, is_value, usable};
use crate::playing::{Object, play_lines};
use crate::refusals::{faulted, refused};
use play_text::{Line, Script, Why, Wrong, number_of};
use std::alloc::{AllocError, Global};
use tc_base::Blob;
use tc_fixed::Fixed;
use tc_memstores::OneFile;

// A file of an array in memory.
#[derive(Drop)]
struct Held {
    alloc: Global,
    fixed: Fixed<OneFile>,
    space: OneFile,
}

impl Held {
    // Puts a value where it may be.
    fn put(&mut self, id: u64, value: &[u8]) -> Result<(), Wrong> {
        usable(&self.space)?;
        if id == 0 || id > self.fixed.max_id() || value.len() > self.fixed.width() as usize {
            return Err(Wrong::Not(Why::Limit));
        }
        self.fixed.put(&mut self.space, id, value).map_err(refused)
    }

    // A value.
    fn value(&mut self, id: u64) -> Result<Option<Blob>, Wrong> {
        usable(&self.space)?;
        let mut bytes = Vec::new(self.alloc);
        bytes.resize(self.fixed.width() as usize, 0)?;
        match self.fixed.get(&mut self.space, id, &mut bytes) {
            Ok(Some(long)) => {
                bytes.truncate(long);
                Ok(Some(Blob::from_vec(bytes)))
            }
            Ok(None) => Ok(None),
            Err(_) => Err(Wrong::Not(Why::Fault)),
        }
    }

    // How long a value is.
    fn long(&mut self, id: u64) -> Result<Option<u64>, Wrong> {
        usable(&self.space)?;
        self.fixed.value_len(&mut self.space, id).map_err(faulted)
    }

    // Takes an id out; false where it isn't held.
    fn out(&mut self, id: u64) -> Result<bool, Wrong> {
        usable(&self.space)?;
        self.fixed.out(&mut self.space, id).map_err(refused)
    }

    // Takes all values out.
    fn clear(&mut self) -> Result<(), Wrong> {
        usable(&self.space)?;
        self.fixed.clear(&mut self.space).map_err(refused)
    }

    // Brings what is held in memory to the file.
    fn settle(&mut self) -> Result<(), Wrong> {
        usable(&self.space)?;
        self.fixed.settle(&mut self.space).map_err(refused)
    }
}

// A line that asks for the value of an id: `get ID = VALUE`.
fn get_line(held: &mut Held, line: &mut Line) -> Result<(), Wrong> {
    let id = line.number()?;
    let found = held.value(id)?;
    let wanted = line.wanted()?;
    is_value(line, Some(&wanted), &found)
}

// A line that asks for an id which isn't held: `none ID`.
fn none_line(held: &mut Held, line: &mut Line) -> Result<(), Wrong> {
    let id = line.number()?;
    let length = held.long(id)?;
    line.is_so(length.is_none())?;
    let found = held.value(id)?;
    is_value(line, None, &found)
}

// A line that asks for the length of a value: `length ID N`.
fn length_line(held: &mut Held, line: &mut Line) -> Result<(), Wrong> {
    let id = line.number()?;
    let wanted = line.number()?;
    let found = held.long(id)?;
    line.is_so(found == Some(wanted))
}

// A line that puts: `put ID => VALUE`.
fn put_line(held: &mut Held, line: &mut Line) -> Result<(), Wrong> {
    let id = line.number()?;
    let value = line.wanted()?;
    held.put(id, value.as_slice())
}

// A line that takes an id out: `out ID`, or `no_out ID` where it isn't held.
fn out_line(held: &mut Held, what: &str, line: &mut Line) -> Result<(), Wrong> {
    let taken = held.out(line.number()?)?;
    line.is_so(taken == matches!(what, "out"))
}

// A number at most, or `all` for any.
fn most_of(line: &mut Line) -> Result<Option<u64>, Wrong> {
    match line.word() {
        "all" => Ok(None),
        word => match number_of(word) {
            Some(most) => Ok(Some(most)),
            None => Err(Wrong::Unread),
        },
    }
}

// The ids from one to another, at most so many, as text.
fn ids_text(held: &mut Held, first: u64, last: u64, most: Option<u64>) -> Result<String, Wrong> {
    let mut ids = Vec::new(held.alloc);
    usable(&held.space)?;
    held.fixed
        .ids_in(&mut held.space, first, last, most, &mut ids)
        .map_err(refused)?;
    Ok(format!(in held.alloc; "{ids:?}")?)
}

// A line that lists ids: `ids FIRST LAST MOST ID ID ..`, from one id to another, at most so many; `all` for any number.
fn ids_line(held: &mut Held, line: &mut Line) -> Result<(), Wrong> {
    let first = line.number()?;
    let last = line.number()?;
    let most = most_of(line)?;
    line.is_text(ids_text(held, first, last, most)?)
}

// The numbers of a file as text.
fn numbers(alloc: Global, fixed: &Fixed<OneFile>) -> Result<String, AllocError> {
    format!(in alloc;
        "{} {} {} {}",
        fixed.least(),
        fixed.greatest(),
        fixed.count(),
        fixed.size()
    )
}

// A line on the whole: `numbers LEAST GREATEST COUNT SIZE`, `most_id N`, `clear`, `settle`; and those on its bytes.
fn whole_line(held: &mut Held, what: &str, line: &mut Line) -> Result<(), Wrong> {
    match what {
        "numbers" => line.is_text(numbers(held.alloc, &held.fixed)?),
        "most_id" => is_number(held.alloc, line, held.fixed.max_id()),
        "settle" => held.settle(),
        "clear" => held.clear(),
        _ => bytes_line(held.alloc, held.space.bytes(), what, line),
    }
}

impl Object for Held {
    fn play(&mut self, what: &str, line: &mut Line) -> Result<(), Wrong> {
        match what {
            "get" => get_line(self, line),
            "none" => none_line(self, line),
            "length" => length_line(self, line),
            "put" => put_line(self, line),
            "out" | "no_out" => out_line(self, what, line),
            "ids" => ids_line(self, line),
            _ => whole_line(self, what, line),
        }
    }
}

// A new file of no values: `array WIDTH LIMIT`.
fn created(alloc: Global, line: &mut Line) -> Result<Held, Wrong> {
    let width = line.within(1, 1_048_576)?;
    let limit = line.within(512, 1 << 40)?;
    let mut space = OneFile::of(Vec::new(alloc));
    let fixed = Fixed::create(alloc, &mut space, width as u32, limit).map_err(refused)?;
    Ok(Held {
        alloc,
        fixed,
        space,
    })
}

/// Plays a case of a fixed-length file.
pub fn play_array(alloc: Global, line: &mut Line, script: &mut Script<'_>) -> Result<(), Wrong> {
    play_lines(&mut created(alloc, line)?, script)
}
