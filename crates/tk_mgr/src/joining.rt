//! Texts with zero bytes between.
ghost use Rattle.std.specs.Prelude.{◌≡◌, ◌∷◌, IfOk};
ghost use Rattle.std.specs.List.{join_with_byte};

use std::alloc::{AllocError, Global};
use tc_base::Blob;

/// A text and others, with zero bytes between.
pub fn joined_behind(alloc: Global, first: &[u8], rest: &[Blob]) -> Result<Blob, AllocError>
    ensures { IfOk result (λ text. text ≡ join_with_byte 0 (first.now ∷ rest.now)) }
{
    let mut all = Blob::from_slice(alloc, first)?;
    for text in rest {
        all.push(0)?;
        all.append(text.as_slice())?;
    }
    Ok(all)
}

/// Texts with zero bytes between.
pub fn joined(alloc: Global, texts: &[Blob]) -> Result<Blob, AllocError>
    ensures { IfOk result (λ text. text ≡ join_with_byte 0 texts.now) }
{
    let [first, rest @ ..] = texts else {
        return Ok(Blob::new(alloc));
    };
    joined_behind(alloc, first.as_slice(), rest)
}
