//! Tests, and bytes that are written behind others.

use play_text::{Line, Why, Wrong};
use std::alloc::{AllocError, Global};
use tc_base::Blob;

/// Bytes to write behind.
pub fn begun(alloc: Global) -> Result<Blob, AllocError> {
    Blob::from_slice(alloc, b"..")
}

/// Nothing stands in front of what is wanted.
pub fn is_bare(line: &mut Line) -> Result<(), Wrong> {
    if line.given()?.is_empty() {
        Ok(())
    } else {
        Err(Wrong::Unread)
    }
}

/// What was written behind them is all that is left.
pub fn is_behind(line: &mut Line, all: &Blob) -> Result<(), Wrong> {
    match all.as_slice().strip_prefix(b"..") {
        Some(found) => line.is_bytes(found),
        None => Err(Wrong::Not(Why::Gone)),
    }
}

/// What was written behind them has this length.
pub fn has_len(all: &Blob, length: u64) -> Result<(), Wrong> {
    if all.len().saturating_sub(2) as u64 == length {
        Ok(())
    } else {
        Err(Wrong::Not(Why::AnotherLength))
    }
}
