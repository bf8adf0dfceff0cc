//! Ids of a fixed-length database.
ghost use Rattle.std.specs.Prelude.{◌≡◌, IfOk};
ghost use Rattle.std.specs.Option.{option_copied};
ghost use Rattle.std.specs.Fmt.{decimal};
ghost use Rattle.tc_model.specs.Arrays.{id_of, number_named, named, key_texts, value_at};

use crate::maps::IdMap;
use std::alloc::{AllocError, Global};
use tc_base::{Blob, Key, Keys};
use tc_model::long_number;

// The number that a key names, 0 where it names none.
fn number_named(ids: &IdMap, key: &[u8]) -> u128
    ensures { result ≡ number_named ids.now key.now }
{
    if key == b"min".as_slice() {
        return u128::from(ids.least());
    }
    if key == b"max".as_slice() {
        return u128::from(ids.greatest());
    }
    if key == b"prev".as_slice() {
        return u128::from(ids.least().saturating_sub(1));
    }
    if key == b"next".as_slice() {
        return u128::from(ids.greatest()) + 1;
    }
    match long_number(key) {
        Some(n) => n,
        None => 0,
    }
}

/// The id that a key names: from 1 to the greatest allowed.
pub fn id_of(ids: &IdMap, most: u64, key: &[u8]) -> Option<u64>
    ensures { result ≡ id_of most ids.now key.now }
{
    let n = number_named(ids, key);
    if 1 <= n && n <= u128::from(most) {
        Some(n as u64)
    } else {
        None
    }
}

/// The value of the id that a key names, where it is held.
pub fn value_at<'a>(ids: &'a IdMap, most: u64, key: &[u8]) -> Option<&'a Blob>
    ensures { option_copied result ≡ value_at most ids.now key.now }
{
    match id_of(ids, most, key) {
        Some(id) => ids.get(id),
        None => None,
    }
}

// A number in decimal.
fn decimal(alloc: Global, n: u128) -> Result<Blob, AllocError>
    ensures { IfOk result (λ text. text ≡ decimal n) }
{
    let text = format!(in alloc; "{n}")?;
    Blob::from_slice(alloc, text.as_bytes())
}

/// A key as replies have it: the number that it names.
pub fn named(alloc: Global, ids: &IdMap, key: &[u8]) -> Result<Blob, AllocError>
    ensures { IfOk result (λ text. text ≡ named ids.now key.now) }
{
    decimal(alloc, number_named(ids, key))
}

/// The ids in decimal, in order.
pub fn key_texts(alloc: Global, ids: &IdMap) -> Result<Keys, AllocError>
    ensures { IfOk result (λ keys. keys ≡ key_texts ids.now) }
{
    let mut keys = Keys::new(alloc);
    for (id, _) in ids.iter() {
        keys.push(Key::new(decimal(alloc, u128::from(*id))?))?;
    }
    Ok(keys)
}
