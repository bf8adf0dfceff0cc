//! The memory in which a case holds writes until a commit.

use play_text::{Line, Wrong};
use std::alloc::{AllocError, Global};
use tc_held::Held;

/// How many pieces it has room for, and how many bytes.
#[derive(Clone, Copy)]
pub struct Memory {
    pieces: usize,
    bytes: usize,
}

impl Memory {
    /// What the rest of a line asks for where it begins with `held`: `held PIECES BYTES`.
    pub fn of(line: &mut Line) -> Result<Option<Memory>, Wrong> {
        if !line.rest().trim_start().starts_with("held ") {
            return Ok(None);
        }
        let _ = line.word();
        let pieces = line.within(0, 1 << 13)? as usize;
        let bytes = line.within(0, 1 << 23)? as usize;
        Ok(Some(Memory { pieces, bytes }))
    }

    /// The memory, with nothing in it.
    pub fn take(self, alloc: Global) -> Result<Held, AllocError> {
        Held::with_room(alloc, self.pieces, self.bytes)
    }
}
