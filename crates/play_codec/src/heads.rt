//! Heads of files.

use crate::told::Told;
use bt_rows::TreeHead;
use hf_head::{FixedHead, Head};
use std::alloc::{AllocError, Global};
use tc_base::Blob;

// The 256 bytes of a head, if they are so many.
fn head_bytes(all: &[u8]) -> Option<[u8; 256]> {
    let mut bytes = [0; 256];
    if all.len() != 256 {
        return None;
    }
    bytes.copy_from_slice(all);
    Some(bytes)
}

// What is told of other bytes.
fn other_length(alloc: Global) -> Result<String, AllocError> {
    String::from_str(alloc, "another length")
}

fn text_of(alloc: Global, head: &Head) -> Result<String, AllocError> {
    let mut told = Told::new(alloc);
    told.named("kind", u64::from(head.kind));
    told.named("apow", u64::from(head.apow));
    told.named("fpow", u64::from(head.fpow));
    told.named("options", u64::from(head.options));
    told.named("buckets", head.buckets);
    told.named("records", head.records);
    told.named("size", head.size);
    told.named("first", head.first);
    told.end()
}

/// `head_read BYTES => READ`: a head as it is read.
pub fn head_text(alloc: Global, bytes: &[u8]) -> Result<String, AllocError> {
    match head_bytes(bytes) {
        Some(bytes) => match Head::read(&bytes) {
            Ok(head) => text_of(alloc, &head),
            Err(e) => format!(in alloc; "{e:?}"),
        },
        None => other_length(alloc),
    }
}

/// A head as it is read and written again; what isn't one stays.
pub fn head_again(alloc: Global, bytes: &[u8]) -> Result<Blob, AllocError> {
    if let Some(all) = head_bytes(bytes) {
        if let Ok(head) = Head::read(&all) {
            return Blob::from_slice(alloc, &head.write());
        }
    }
    Blob::from_slice(alloc, bytes)
}

// A head of a fixed-length file as text, with the bytes of a cell and the greatest id that may be.
fn fixed_of(alloc: Global, h: &FixedHead) -> Result<String, AllocError> {
    let ids = if h.limit < 256 { 0 } else { h.max_id() };
    let mut told = Told::new(alloc);
    told.named("records", h.records);
    told.named("size", h.size);
    told.named("width", u64::from(h.width));
    told.named("limit", h.limit);
    told.named("least", h.least);
    told.named("greatest", h.greatest);
    told.named("cell", h.cell());
    told.named("ids", ids);
    told.end()
}

/// `fixed BYTES => READ`: a head of a fixed-length file as it is read. It is told with the bytes of a cell and the greatest id that may be.
pub fn fixed_text(alloc: Global, bytes: &[u8]) -> Result<String, AllocError> {
    match head_bytes(bytes) {
        Some(bytes) => match FixedHead::read(&bytes) {
            Ok(head) => fixed_of(alloc, &head),
            Err(e) => format!(in alloc; "{e:?}"),
        },
        None => other_length(alloc),
    }
}

/// The same written again; what isn't one stays.
pub fn fixed_again(alloc: Global, bytes: &[u8]) -> Result<Blob, AllocError> {
    if let Some(all) = head_bytes(bytes) {
        if let Ok(head) = FixedHead::read(&all) {
            return Blob::from_slice(alloc, &head.write());
        }
    }
    Blob::from_slice(alloc, bytes)
}

/// `tree_head BYTES => READ`: the numbers of a tree in the 128 bytes of its owner.
pub fn tree_text(alloc: Global, all: &[u8]) -> Result<String, AllocError> {
    let mut bytes = [0; 128];
    if all.len() != 128 {
        return other_length(alloc);
    }
    bytes.copy_from_slice(all);
    format!(in alloc; "{:?}", TreeHead::read(&bytes))
}
