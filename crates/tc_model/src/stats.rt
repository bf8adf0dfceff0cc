//! What `stat` tells.
ghost use Rattle.std.specs.Prelude.{◌≡◌, IfOk};
ghost use Rattle.tc_model.specs.Stats.{kind_text, text_of};

use std::alloc::{AllocError, Global};
use tc_base::{Blob, Kind};

fn kind_text(kind: Kind) -> &'static str
    ensures { result.now ≡ kind_text kind }
{
    match kind {
        Kind::Hash => "hash",
        Kind::Tree => "B+ tree",
        Kind::Fixed => "fixed-length",
        Kind::Table => "table",
        Kind::MemHash => "on-memory hash",
        Kind::MemTree => "on-memory tree",
    }
}

/// The lines of `stat` on a database of a kind with so many records and bytes.
pub fn stat_lines(alloc: Global, kind: Kind, rnum: u64, size: u64) -> Result<Blob, AllocError>
    ensures { IfOk result (λ text. text ≡ text_of kind rnum size) }
{
    let text = format!(in alloc; "type\t{}\nrnum\t{rnum}\nsize\t{size}\n", kind_text(kind))?;
    Blob::from_slice(alloc, text.as_bytes())
}
