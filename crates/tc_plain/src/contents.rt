//! The contents of a database.
ghost use Rattle.std.specs.Prelude.{◌≡◌};
ghost use Rattle.tc_model.specs.Contents.{no_data, kind_of};
ghost use Rattle.tc_plain.specs.Views.{contents_of};

use crate::maps::{Copied, IdMap, KeyMap};
use std::alloc::{AllocError, Global};
use std::marker::Model;
use tc_base::{Blob, Kind, Pairs};
use tc_model::IndexKind;

/// The data of each kind, with its shape.
#[derive(Drop)]
pub(crate) enum Data {
    Hash {
        memory: bool,
        map: KeyMap<Blob>,
    },
    Tree {
        memory: bool,
        decimal: bool,
        pairs: Pairs,
    },
    Fixed {
        width: u32,
        most: u64,
        ids: IdMap,
    },
    Table {
        rows: KeyMap<Pairs>,
        indexes: KeyMap<IndexKind>,
    },
}

impl Copied for Data {
    fn copied(&self, alloc: Global) -> Result<Data, AllocError> {
        match self {
            Data::Hash { memory, map } => Ok(Data::Hash {
                memory: *memory,
                map: map.copied(alloc)?,
            }),
            Data::Tree {
                memory,
                decimal,
                pairs,
            } => Ok(Data::Tree {
                memory: *memory,
                decimal: *decimal,
                pairs: pairs.copied(alloc)?,
            }),
            Data::Fixed { width, most, ids } => Ok(Data::Fixed {
                width: *width,
                most: *most,
                ids: ids.copied(alloc)?,
            }),
            Data::Table { rows, indexes } => Ok(Data::Table {
                rows: rows.copied(alloc)?,
                indexes: indexes.copied(alloc)?,
            }),
        }
    }
}

/// A shape and the data in it.
#[derive(Drop)]
pub struct Contents {
    pub(crate) data: Data,
}

impl Model for Contents {
    ghost use Rattle.tc_model.specs.Contents.{Contents};
    ghost use Rattle.tc_plain.specs.Codes.{contents_code};
    ghost use Rattle.tc_plain.specs.Views.{contents_of};

    ghost Value = { Contents };

    ghost coded = { contents_code };

    ghost view = { λ c. contents_of c.data };
}

impl Contents {
    /// No data, in a shape: `decimal` counts for trees alone, `width` and `max_id` for fixed alone.
    pub fn new(alloc: Global, kind: Kind, decimal: bool, width: u32, max_id: u64) -> Contents
        ensures { result ≡ no_data kind decimal width max_id }
    {
        let data = match kind {
            Kind::Hash => Data::Hash {
                memory: false,
                map: KeyMap::new(alloc),
            },
            Kind::MemHash => Data::Hash {
                memory: true,
                map: KeyMap::new(alloc),
            },
            Kind::Tree => Data::Tree {
                memory: false,
                decimal,
                pairs: Pairs::new(alloc),
            },
            Kind::MemTree => Data::Tree {
                memory: true,
                decimal,
                pairs: Pairs::new(alloc),
            },
            Kind::Fixed => Data::Fixed {
                width,
                most: max_id,
                ids: IdMap::new(alloc),
            },
            Kind::Table => Data::Table {
                rows: KeyMap::new(alloc),
                indexes: KeyMap::new(alloc),
            },
        };
        Contents { data }
    }

    pub fn kind(&self) -> Kind
        ensures { result ≡ kind_of self.now }
    {
        kind_of(&self.data)
    }
}

/// The kind of data.
pub(crate) fn kind_of(stored: &Data) -> Kind
    ensures { result ≡ kind_of (contents_of stored.now) }
{
    match stored {
        Data::Hash { memory, .. } => { if *memory { Kind::MemHash } else { Kind::Hash } }
        Data::Tree { memory, .. } => { if *memory { Kind::MemTree } else { Kind::Tree } }
        Data::Fixed { .. } => Kind::Fixed,
        Data::Table { .. } => Kind::Table,
    }
}
