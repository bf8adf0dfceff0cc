//! A client of any map.
ghost use Rattle.std.specs.Prelude.{◌≡◌, Some, OnOk, IfOk};
ghost use Rattle.tc_space.specs.Frames.{In, Keeps};
ghost use Rattle.tc_space.specs.Stores.{IsReady};

use tc_base::{Blob, Mode, Steps};
use tc_space::{PutErr, Records, Space};

/// Puts a key, and gets it.
pub fn put_and_get<R: Records>(
    map: &mut R,
    space: &mut R::S,
    key: &[u8],
    value: &[u8],
) -> Result<Option<Blob>, PutErr>
    requires { IsReady R.S.Space (In R.S.Space R.file_of R.holds) map.old space.old }
    ensures found { IfOk result (λ found. R.S.tells → found ≡ Some value.now) }
    ensures ready { OnOk result (IsReady R.S.Space (In R.S.Space R.file_of R.holds) map.new space.new) }
    ensures keeps { Keeps R.S.Space space.old space.new }
{
    let mut steps: Steps<u8> = Steps::new();
    map.put(space, key, value, Mode::Over, &mut steps)?;
    let found = map.get(space, key, &mut steps)?;
    Ok(found)
}
