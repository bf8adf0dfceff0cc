//! Which bytes are one update.
ghost use Rattle.std.specs.Prelude.{◌≡◌, [], true, false, IfOk, MatchOption};
ghost use Rattle.ty_ulog.specs.declared.record.Record.{Record};
ghost use Rattle.ty_ulog.specs.Records.{record_bytes, Fits, IsReadAs};
ghost use Rattle.ty_ulog.specs.Log.{IsUpdate};
ghost use Rattle.ty_ulog.specs.Pieces.{AreUpdate};

use crate::reading::{Head, RecTake, look_record, take_record};
use crate::updates::is_update;
use std::alloc::{AllocError, Global};

// Whether bytes are one whole record, and no more.
fn is_one(bytes: &[u8]) -> bool
    ensures yes { result ≡ true → (r : Record) × IsReadAs bytes.now r [] }
    ensures no { result ≡ false → (r : Record) → Fits r → bytes.now ≡ record_bytes r → ⊥ }
{
    match take_record(bytes) {
        RecTake::Whole(n) => n == bytes.len(),
        RecTake::Part => false,
        RecTake::Bad => false,
    }
}

/// The head of the update that these bytes are, if they are one, and no more.
pub fn update_of(alloc: Global, bytes: &[u8]) -> Result<Option<Head>, AllocError>
    ensures { IfOk result (λ o. MatchOption o ((r : Record) → IsUpdate r → bytes.now ≡ record_bytes r → ⊥) (AreUpdate bytes.now)) }
{
    if !is_one(bytes) {
        return Ok(None);
    }
    let r = look_record(bytes);
    if !is_update(alloc, r.request)? {
        return Ok(None);
    }
    Ok(Some(Head {
        stamp: r.stamp,
        before: r.before,
        size: bytes.len(),
    }))
}
