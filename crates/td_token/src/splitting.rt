//! The tokens of a text, each once.
ghost use Rattle.std.specs.Prelude.{◌≡◌, IfOk};
ghost use Rattle.tc_model.specs.Texts as texts;
ghost use Rattle.tc_model.specs.Texts.{distinct};

use crate::seen::Seen;
use std::alloc::{AllocError, Global};
use tc_base::{Blob, Blobs};
use td_query::token_of;

/// The distinct tokens of a text, in order of first place.
pub fn tokens(alloc: Global, text: &[u8]) -> Result<Blobs, AllocError>
    ensures { IfOk result (λ ts. ts ≡ distinct (texts.tokens text.now)) }
{
    let mut seen = Seen::new(alloc);
    let mut found = Blobs::new(alloc);
    let mut rest = text;
    while let Some((token, more)) = token_of(rest) {
        if seen.add(token)? {
            found.push(Blob::from_slice(alloc, token)?)?;
        }
        rest = more;
    }
    Ok(found)
}
