//! What an index of a type has of a column's value.
ghost use Rattle.std.specs.Prelude.{◌≡◌, ◌∷◌, [], IfOk};
ghost use Rattle.tc_model.specs.Indexes as spec;

use crate::splitting::tokens;
use std::alloc::{AllocError, Global};
use tc_base::{Blob, Blobs};
use tc_model::IndexKind;

// The value alone.
fn alone(alloc: Global, value: &[u8]) -> Result<Blobs, AllocError>
    ensures { IfOk result (λ fs. fs ≡ value.now ∷ []) }
{
    let mut found = Blobs::new(alloc);
    found.push(Blob::from_slice(alloc, value)?)?;
    Ok(found)
}

/// The first parts of the pairs that an index of that type has of a column's value: the value, or its distinct tokens in order of first place.
pub fn firsts(alloc: Global, kind: IndexKind, value: &[u8]) -> Result<Blobs, AllocError>
    ensures { IfOk result (λ fs. fs ≡ spec.firsts kind value.now) }
{
    match kind {
        IndexKind::Lexical => alone(alloc, value),
        IndexKind::Decimal => alone(alloc, value),
        IndexKind::Token => tokens(alloc, value),
    }
}
