//! The values of a key, and what a put gives.
ghost use Rattle.std.specs.Prelude.{◌≡◌, ◌++◌, ◌∷◌, [], ℕ, List, drop, slice_get, OnOk, IfOk};
ghost use Rattle.std.specs.Option.{option_copied};
ghost use Rattle.tc_space.specs.Changes.{put_value};

use std::alloc::{AllocError, Global};
use tc_base::{Blob, Blobs, Mode};

/// The value that a put gives, where this is the old one.
pub fn given(
    alloc: Global,
    old: Option<&Blob>,
    value: &[u8],
    mode: Mode,
) -> Result<Blob, AllocError>
    ensures { IfOk result (λ b. b ≡ put_value mode (option_copied old.entry) value.now) }
{
    match mode {
        Mode::Over => Ok(Blob::from_slice(alloc, value)?),
        Mode::Keep => Ok(Blob::from_slice(alloc, value)?),
        Mode::Cat => {
            let mut all = Blob::new(alloc);
            if let Some(front) = old {
                all.append(front.as_slice())?;
            }
            all.append(value)?;
            Ok(all)
        }
    }
}

// Adds the values from a place on.
fn add_from(alloc: Global, into: &mut Blobs, values: &Blobs, from: usize) -> Result<(), AllocError>
    ensures { OnOk result (into.new ≡ into.old ++ drop from values.now) }
{
    for i in from..values.len() {
        into.push(Blob::from_slice(alloc, values.at(i).as_slice())?)?;
    }
    Ok(())
}

/// The values behind the first.
pub fn behind_first(alloc: Global, values: &Blobs) -> Result<Blobs, AllocError>
    ensures { IfOk result (λ all. all ≡ drop 1 values.now) }
{
    let mut all = Blobs::new(alloc);
    add_from(alloc, &mut all, values, 1)?;
    Ok(all)
}

/// The values with what a put gives in place of the first.
pub fn put_front(
    alloc: Global,
    values: &Blobs,
    value: &[u8],
    mode: Mode,
) -> Result<Blobs, AllocError>
    ensures { IfOk result (λ all. all ≡ put_value mode (slice_get values.now 0) value.now ∷ drop 1 values.now) }
{
    let old = values.as_slice().first();
    let mut all = Blobs::new(alloc);
    all.push(given(alloc, old, value, mode)?)?;
    add_from(alloc, &mut all, values, 1)?;
    Ok(all)
}
