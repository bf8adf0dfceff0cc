//! An item where it lies.
ghost use Rattle.std.specs.Prelude.{◌≡◌, ◌++◌, OnOk};
ghost use Rattle.bt_page.specs.Pages.{item_bytes, ItemFits};
ghost use Rattle.bt_page.specs.declared.page.Item.{Item as the_item};
ghost use Rattle.bt_slots.specs.Reads.{values_in};
ghost use Rattle.bt_slots.specs.Slots.{ArePartsOf, PartsBehindFirst, parts_bytes};

use crate::fronts::{cut, item_head, number};
use std::alloc::{AllocError, Global};
use tc_base::{Blob, Blobs, put_vnum};

/// The parts of an item: its key, its first value, how many further values it has, and their bytes.
#[derive(Clone, Copy)]
pub(crate) struct Parts<'a> {
    pub(crate) key: &'a [u8],
    pub(crate) first: &'a [u8],
    pub(crate) more: u64,
    pub(crate) further: &'a [u8],
}

/// The parts of the item whose bytes these are.
pub(crate) fn parts_of(item: &[u8]) -> Parts<'_>
    ensures { (i : the_item) → ItemFits i → item.now ≡ item_bytes i → ArePartsOf i result.key.now result.first.now result.more result.further.now }
{
    let (key, first, more, rest) = item_head(item);
    let (key, rest) = cut(key, rest);
    let (first, further) = cut(first, rest);
    Parts {
        key,
        first,
        more,
        further,
    }
}

/// Adds the bytes of an item. An `Err` may have added some.
pub(crate) fn put_parts(parts: Parts<'_>, into: &mut Blob) -> Result<(), AllocError>
    ensures { OnOk result (into.new ≡ into.old ++ parts_bytes parts.entry.key.now parts.entry.first.now parts.entry.more parts.entry.further.now) }
{
    put_vnum(parts.key.len() as u64, into)?;
    put_vnum(parts.first.len() as u64, into)?;
    put_vnum(parts.more, into)?;
    into.append(parts.key)?;
    into.append(parts.first)?;
    into.append(parts.further)?;
    Ok(())
}

/// The item without its first value, where it has further ones.
pub(crate) fn without_first(parts: Parts<'_>) -> Parts<'_>
    ensures { PartsBehindFirst parts.entry.key.now parts.entry.first.now parts.entry.more parts.entry.further.now result.key.now result.first.now result.more result.further.now }
{
    let (size, rest) = number(parts.further);
    let (first, further) = cut(size, rest);
    Parts {
        key: parts.key,
        first,
        more: parts.more.saturating_sub(1),
        further,
    }
}

/// Adds copies of so many values behind those that are there.
pub(crate) fn put_values(
    alloc: Global,
    n: u64,
    bytes: &[u8],
    values: &mut Blobs,
) -> Result<(), AllocError>
    ensures { OnOk result (values.new ≡ values.old ++ (values_in n bytes.now).0) }
{
    let mut rest = bytes;
    for i in 0..n {
        let (size, behind) = number(rest);
        let (value, behind) = cut(size, behind);
        values.push(Blob::from_slice(alloc, value)?)?;
        rest = behind;
    }
    Ok(())
}
