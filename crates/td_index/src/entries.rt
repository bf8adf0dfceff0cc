//! The keys of an index's tree.
ghost use Rattle.std.specs.Prelude.{◌≡◌, IfOk};
ghost use Rattle.td_index.specs.Entries.{entry};

use std::alloc::{AllocError, Global};
use tc_base::Blob;

/// The tree's key of a first part and a primary key.
pub fn entry_of(alloc: Global, first: &[u8], key: &[u8]) -> Result<Blob, AllocError>
    ensures { IfOk result (λ e. e ≡ entry first.now key.now) }
{
    let mut entry = Blob::from_slice(alloc, first)?;
    entry.push(0)?;
    entry.append(key)?;
    Ok(entry)
}
