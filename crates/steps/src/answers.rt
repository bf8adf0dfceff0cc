//! What steps are answered, as bytes: numbers have their greatest byte first.

use std::alloc::AllocError;
use tc_base::{Blob, Blobs, Pairs, set_be};

pub fn add_number(number: u64, into: &mut Blob) -> Result<(), AllocError> {
    let mut bytes = [0; 8];
    set_be(&mut bytes, 0, 8, number);
    into.append(&bytes)
}

fn add_size(size: usize, into: &mut Blob) -> Result<(), AllocError> {
    let mut bytes = [0; 8];
    set_be(&mut bytes, 0, 8, size as u64);
    into.append(&bytes[4..])
}

/// Four bytes of its size, and a text.
pub fn add_text(text: &[u8], into: &mut Blob) -> Result<(), AllocError> {
    add_size(text.len(), into)?;
    into.append(text)
}

/// How many they are, and each text.
pub fn add_texts(texts: &Blobs, into: &mut Blob) -> Result<(), AllocError> {
    add_size(texts.len(), into)?;
    for text in texts.as_slice() {
        add_text(text.as_slice(), into)?;
    }
    Ok(())
}

/// Keys and values in turn, as `add_texts` adds texts.
pub fn add_pairs(pairs: &Pairs, into: &mut Blob) -> Result<(), AllocError> {
    add_size(pairs.len().wrapping_mul(2), into)?;
    for pair in pairs.as_slice() {
        add_text(pair.key.as_slice(), into)?;
        add_text(pair.value.as_slice(), into)?;
    }
    Ok(())
}

/// A byte: 1 for true.
pub fn add_flag(flag: bool, into: &mut Blob) -> Result<(), AllocError> {
    into.append(&[u8::from(flag)])
}
