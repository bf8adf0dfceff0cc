//! The bytes of a leaf of which some are others.
ghost use Rattle.std.specs.Prelude.{◌≡◌, ◌≤◌, ◌++◌, [], length, IfOk, OnOk};
ghost use Rattle.bt_page.specs.Pages.{value_bytes, SizeFits};
ghost use Rattle.bt_slots.specs.Changes.{spliced};
ghost use Rattle.bt_slots.specs.Slots.{parts_bytes};

use crate::parts::{Parts, put_parts};
use std::alloc::{AllocError, Global};
use tc_base::{Blob, put_vnum};

/// No bytes, with room for so many.
pub(crate) fn with_room(alloc: Global, len: usize) -> Result<Blob, AllocError>
    ensures { IfOk result (λ b. b ≡ []) }
{
    Ok(Blob::from_vec(Vec::with_capacity(alloc, len)?))
}

/// Adds the bytes of an item of one value. An `Err` may have added some.
pub(crate) fn put_item(key: &[u8], value: &[u8], into: &mut Blob) -> Result<(), AllocError>
    ensures bytes { OnOk result (into.new ≡ into.old ++ parts_bytes key.now value.now 0 []) }
    ensures key { SizeFits key.now }
    ensures first { SizeFits value.now }
{
    let _sizes = (key.len(), value.len());
    let parts = Parts {
        key,
        first: value,
        more: 0,
        further: &key[..0],
    };
    put_parts(parts, into)
}

/// The bytes with an item in the place of those from one place to another.
pub(crate) fn with_item(
    alloc: Global,
    bytes: &[u8],
    from: usize,
    to: usize,
    parts: Parts<'_>,
) -> Result<Blob, AllocError>
    requires from { from ≤ length bytes.now }
    requires to { to ≤ length bytes.now }
    ensures bytes { IfOk result (λ b. b ≡ spliced from to (parts_bytes parts.entry.key.now parts.entry.first.now parts.entry.more parts.entry.further.now) bytes.now) }
    ensures key { SizeFits parts.entry.key.now }
    ensures first { SizeFits parts.entry.first.now }
{
    let room = bytes
        .len()
        .saturating_add(parts.first.len())
        .saturating_add(parts.key.len())
        .saturating_add(30);
    let mut all = with_room(alloc, room)?;
    all.append(&bytes[..from])?;
    put_parts(parts, &mut all)?;
    all.append(&bytes[to..])?;
    Ok(all)
}

// Adds the bytes of an item with a value behind its others. An `Err` may have added some.
fn put_with_value(parts: Parts<'_>, value: &[u8], into: &mut Blob) -> Result<(), AllocError>
    ensures bytes { OnOk result (into.new ≡ into.old ++ parts_bytes parts.entry.key.now parts.entry.first.now parts.entry.more (parts.entry.further.now ++ value_bytes value.now)) }
    ensures value { SizeFits value.now }
{
    let size = value.len() as u64;
    put_parts(parts, into)?;
    put_vnum(size, into)?;
    into.append(value)?;
    Ok(())
}

/// The bytes with an item in the place of those from one place to another, which has a value behind the others.
pub(crate) fn with_value(
    alloc: Global,
    bytes: &[u8],
    from: usize,
    to: usize,
    parts: Parts<'_>,
    value: &[u8],
) -> Result<Blob, AllocError>
    requires from { from ≤ length bytes.now }
    requires to { to ≤ length bytes.now }
    ensures bytes { IfOk result (λ b. b ≡ spliced from to (parts_bytes parts.entry.key.now parts.entry.first.now parts.entry.more (parts.entry.further.now ++ value_bytes value.now)) bytes.now) }
    ensures value { SizeFits value.now }
{
    let room = bytes.len().saturating_add(value.len()).saturating_add(30);
    let mut all = with_room(alloc, room)?;
    all.append(&bytes[..from])?;
    put_with_value(parts, value, &mut all)?;
    all.append(&bytes[to..])?;
    Ok(all)
}

/// The bytes without those from one place to another.
pub(crate) fn without(
    alloc: Global,
    bytes: &[u8],
    from: usize,
    to: usize,
) -> Result<Blob, AllocError>
    requires from { from ≤ length bytes.now }
    requires to { to ≤ length bytes.now }
    ensures bytes { IfOk result (λ b. b ≡ spliced from to [] bytes.now) }
    ensures size { SizeFits bytes.now }
{
    let mut all = with_room(alloc, bytes.len())?;
    all.append(&bytes[..from])?;
    all.append(&bytes[to..])?;
    Ok(all)
}
