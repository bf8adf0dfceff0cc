//! What a put gives.
ghost use Rattle.std.specs.Prelude.{◌≡◌, ◌++◌, [], unwrap_or, IfOk};
ghost use Rattle.bt_tree.specs.Meaning.{IsOpen};
ghost use Rattle.tc_btree.specs.Putting.{BlamesLook, Looked, TellsPut};

use crate::btree::Btree;
use std::alloc::{AllocError, Global};
use tc_base::{Blob, Mode, Order, Steps};
use tc_space::{PutErr, Records};

// The value that was found, or no bytes.
fn or_empty(alloc: Global, found: Option<Blob>) -> Blob
    ensures { result ≡ unwrap_or found [] }
{
    match found {
        Some(value) => value,
        None => Blob::new(alloc),
    }
}

// A value joined behind the one that was found.
fn joined(alloc: Global, found: Option<Blob>, value: &[u8]) -> Result<Blob, AllocError>
    ensures { IfOk result (λ joined. joined ≡ unwrap_or found [] ++ value.now) }
{
    let mut joined = or_empty(alloc, found);
    joined.append(value)?;
    Ok(joined)
}

/// What was joined, or else the value itself.
pub(crate) fn chosen<'a>(joined: &'a Option<Blob>, value: &'a [u8]) -> &'a [u8]
    ensures { result.now ≡ unwrap_or joined.now value.now }
{
    match joined {
        Some(joined) => joined.as_slice(),
        None => value,
    }
}

impl<R: Records, O: Order> Btree<R, O> {
    /// What a put is to give in place of the value, where it isn't the value itself. Exists comes exactly with `Keep` on a held key. Nothing is written.
    pub(crate) fn look(
        &mut self,
        space: &mut R::S,
        key: &[u8],
        value: &[u8],
        mode: Mode,
    ) -> Result<Option<Blob>, PutErr>
        requires { IsOpen R.S.Space R.Records O.Order self.old.tree space.old }
        ensures tells { TellsPut R.S.Space R.Records O.Order mode key.now value.now result self.old space.old }
        ensures looks { Looked R.S.Space R.Records O.Order self.old self.new space.old space.new }
        ensures cause { BlamesLook R.S.Space result space.old space.new }
    {
        let mut steps: Steps<R> = Steps::new();
        match mode {
            Mode::Over => Ok(None),
            Mode::Keep => {
                if self.tree.holds(space, key, &mut steps)? {
                    return Err(PutErr::Exists);
                }
                Ok(None)
            }
            Mode::Cat => {
                let found = self.tree.first_value(space, key, &mut steps)?;
                let Ok(joined) = joined(self.alloc, found, value) else {
                    return Err(PutErr::Memory);
                };
                Ok(Some(joined))
            }
        }
    }
}
