//! Lines on any map in a file in memory.

use crate::kept::{Kept, kept_line};
use crate::looks::{are_texts, usable};
use crate::refusals::refused;
use play_text::{Line, Wrong};
use std::alloc::Global;
use tc_base::{Blob, Blobs, Form, Mode, Steps};
use tc_memstores::OneFile;
use tc_space::{PutErr, RecErr, Records};

/// A map and its file, and the steps of a search in it, if that was the last that was done.
#[derive(Drop)]
pub struct MapOf<R> {
    pub map: R,
    pub space: OneFile,
    pub steps: Option<u64>,
}

impl<R> MapOf<R> {
    pub fn new(map: R, space: OneFile) -> MapOf<R> {
        MapOf {
            map,
            space,
            steps: None,
        }
    }

    /// Before a line: the steps of the search before are told by a line that asks for them at once, and by no later one.
    pub fn begin(&mut self, what: &str) {
        if !matches!(what, "steps") {
            self.steps = None;
        }
    }
}

/// Whether a pair was put; false where its key is held and was to be kept.
pub fn is_put(answer: Result<(), PutErr>) -> Result<bool, Wrong> {
    match answer {
        Ok(()) => Ok(true),
        Err(PutErr::Exists) => Ok(false),
        Err(PutErr::Full) => Err(refused(RecErr::Full)),
        Err(PutErr::Fault) => Err(refused(RecErr::Fault)),
        Err(PutErr::Memory) => Err(refused(RecErr::Memory)),
    }
}

impl<R: Records<S = OneFile>> Kept for MapOf<R> {
    fn file(&self) -> u32 {
        self.map.file()
    }

    fn count(&self) -> u64 {
        self.map.count()
    }

    fn steps(&self) -> Option<u64> {
        self.steps
    }

    fn put(&mut self, key: &[u8], value: &[u8], mode: Mode) -> Result<bool, Wrong> {
        usable(&self.space)?;
        let mut steps: Steps<()> = Steps::new();
        is_put(self.map.put(&mut self.space, key, value, mode, &mut steps))
    }

    fn get(&mut self, key: &[u8]) -> Result<Option<Blob>, Wrong> {
        usable(&self.space)?;
        let mut steps: Steps<()> = Steps::new();
        let found = self.map.get(&mut self.space, key, &mut steps);
        self.steps = Some(steps.count());
        found.map_err(refused)
    }

    fn out(&mut self, key: &[u8]) -> Result<bool, Wrong> {
        usable(&self.space)?;
        let mut steps: Steps<()> = Steps::new();
        self.map
            .out(&mut self.space, key, &mut steps)
            .map_err(refused)
    }

    fn settle(&mut self) -> Result<(), Wrong> {
        usable(&self.space)?;
        self.map.settle(&mut self.space).map_err(refused)
    }

    fn pack(&mut self, form: Form) -> Result<(), Wrong> {
        usable(&self.space)?;
        self.map.pack(&mut self.space, form).map_err(refused)
    }
}

// All keys.
fn keys<R: Records<S = OneFile>>(held: &mut MapOf<R>) -> Result<Blobs, Wrong> {
    usable(&held.space)?;
    let mut steps: Steps<()> = Steps::new();
    held.map.keys(&mut held.space, &mut steps).map_err(refused)
}

/// Plays a line on a map; `keys #KEY ..` lists it.
pub fn map_line<R: Records<S = OneFile>>(
    alloc: Global,
    held: &mut MapOf<R>,
    what: &str,
    line: &mut Line,
) -> Result<(), Wrong> {
    match what {
        "keys" => {
            let all = keys(held)?;
            are_texts(alloc, line, &all)
        }
        _ => kept_line(alloc, held, what, line),
    }
}
