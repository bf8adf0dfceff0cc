//! Lists of texts as sets.
ghost use Rattle.std.specs.Prelude.{◌≡◌, filter, IfOk};
ghost use Rattle.tc_model.specs.Texts as spec;
ghost use Rattle.tc_model.specs.Texts.{is_among};

use crate::seen::Seen;
use std::alloc::{AllocError, Global};
use tc_base::{Blob, Blobs};

/// Each text once, in order of first place.
pub fn distinct(alloc: Global, texts: &[Blob]) -> Result<Blobs, AllocError>
    ensures { IfOk result (λ ts. ts ≡ spec.distinct texts.now) }
{
    let mut seen = Seen::new(alloc);
    let mut found = Blobs::new(alloc);
    for text in texts {
        if seen.add(text.as_slice())? {
            found.push(Blob::from_slice(alloc, text.as_slice())?)?;
        }
    }
    Ok(found)
}

// The texts as a set.
fn set_of(alloc: Global, texts: &[Blob]) -> Result<Seen, AllocError>
    ensures { IfOk result (λ seen. seen ≡ spec.distinct texts.now) }
{
    let mut seen = Seen::new(alloc);
    for text in texts {
        seen.add(text.as_slice())?;
    }
    Ok(seen)
}

// Those of some texts that are in a set.
fn kept(alloc: Global, texts: Blobs, set: &Seen) -> Result<Blobs, AllocError>
    ensures { IfOk result (λ ts. ts ≡ filter (λ t. is_among t set.now) texts) }
{
    let mut found = Blobs::new(alloc);
    for text in texts.into_vec() {
        if set.has(text.as_slice()) {
            found.push(text)?;
        }
    }
    Ok(found)
}

/// Those of some texts that are among others.
pub fn common(alloc: Global, texts: Blobs, others: &[Blob]) -> Result<Blobs, AllocError>
    ensures { IfOk result (λ ts. ts ≡ filter (λ t. is_among t others.now) texts) }
{
    let set = set_of(alloc, others)?;
    let found = kept(alloc, texts, &set)?;
    Ok(found)
}
