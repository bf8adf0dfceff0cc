//! What an index has of the bytes of rows.
use crate::records::row_of;
use crate::side::{parts_of_value, value_of};
use std::alloc::{AllocError, Global};
use tc_base::{Blob, Blobs};
use tc_model::IndexKind;
use td_index::Picks;

/// The column of an index, and its type.
#[derive(Drop)]
pub(crate) struct Column {
    pub(crate) name: Blob,
    pub(crate) kind: IndexKind,
}

impl Picks for Column {
    ghost use Rattle.tc_table.specs.Parts.{parts_in};
    ghost use Rattle.tc_table.specs.Wholes.{parts_once, parts_whole};

    ghost parts_of = { λ c bytes. parts_in c.kind c.name bytes };

    fn parts(&self, alloc: Global, bytes: &[u8]) -> Result<Blobs, AllocError> {
        let row = row_of(alloc, bytes)?;
        let value = value_of(self.name.as_slice(), Some(&row));
        let found = parts_of_value(alloc, self.kind, value)?;
        Ok(found)
    }

    ghost whole = { λ c bytes part some. parts_whole c.kind c.name bytes part some };

    ghost once = { λ c bytes part. parts_once c.kind c.name bytes part };
}
