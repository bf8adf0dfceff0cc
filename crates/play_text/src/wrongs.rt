//! Why a line of a case fails.

use crate::patterns::Pattern;
use crate::whys::Why;
use std::alloc::{AllocError, AllocFailed, Global};

/// Why a line fails.
#[derive(Drop)]
pub enum Wrong {
    /// Something else came than stands there, or words are left behind what was read.
    Differs(String),
    /// It isn't as it is to be.
    Not(Why),
    /// It can't be read.
    Unread,
    /// There is no memory.
    Memory,
}

impl Wrong {
    /// What is printed of it.
    pub fn text(&self) -> &str {
        match self {
            Wrong::Differs(text) => text.as_str(),
            Wrong::Not(why) => (*why).text(),
            Wrong::Unread => "it can't be read",
            Wrong::Memory => "no memory",
        }
    }
}

impl From<AllocError> for Wrong {
    fn from(_e: AllocError) -> Wrong {
        Wrong::Memory
    }
}

impl<T: Drop> From<AllocFailed<T>> for Wrong {
    fn from(_e: AllocFailed<T>) -> Wrong {
        Wrong::Memory
    }
}

// How many bytes are shown.
const SHOWN: usize = 64;

/// Bytes as text: the first 64 of them, and how many there are.
pub fn shown(alloc: Global, bytes: &[u8]) -> Result<String, AllocError> {
    let text = hex::encode(alloc, &bytes[..bytes.len().min(SHOWN)])?;
    format!(in alloc; "{} bytes {}", bytes.len(), text.as_str())
}

/// Bytes are as they are to be.
pub fn told(alloc: Global, wanted: &Pattern, found: &[u8]) -> Result<(), Wrong> {
    if wanted.fits(found) {
        return Ok(());
    }
    let place = wanted.fitting(found);
    let found = shown(alloc, found)?;
    let text = format!(in alloc; "{} from place {place} on", found.as_str())?;
    Err(Wrong::Differs(text))
}

/// Whether two texts are the same.
pub fn are_same(one: &str, other: &str) -> bool {
    one.len() == other.len() && one.starts_with(other)
}

/// A text is as it is to be.
pub fn is_same(wanted: &str, found: String) -> Result<(), Wrong> {
    if are_same(found.as_str(), wanted) {
        Ok(())
    } else {
        Err(Wrong::Differs(found))
    }
}
