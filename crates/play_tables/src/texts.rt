//! Texts that are lists.

use std::alloc::AllocError;
use tc_base::Blob;

/// Puts a text behind others, with a mark in front of it where there are some.
pub fn add_text(all: &mut Blob, mark: u8, text: &[u8]) -> Result<(), AllocError> {
    if !all.is_empty() {
        all.push(mark)?;
    }
    all.append(text)
}
