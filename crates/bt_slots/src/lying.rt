//! Items of a leaf read where they lie, and a value among several of one key that is another or goes.
ghost use Rattle.std.specs.Prelude.{◌≡◌, ◌+◌, ◌<◌, ◌≤◌, ◌++◌, Some, None, option_map, slice_get, length, IfOk, IfSome, OnOk};
ghost use Rattle.bt_page.specs.Pages.{SizeFits, value_bytes};
ghost use Rattle.bt_page.specs.declared.page.Item.{Item as the_item};
ghost use Rattle.bt_slots.specs.Lying.{IsSpanOf, bytes_or_none, more_with, seen, values_with_nth, with_further};
ghost use Rattle.bt_slots.specs.Reads.{value_in};
ghost use Rattle.bt_slots.specs.Slots.{HasValuesAt, OfItem};

use crate::building::with_room;
use crate::fronts::{cut, number};
use crate::leaf::SlottedLeaf;
use crate::parts::{Parts, put_values};
use bt_page::Item;
use std::alloc::{AllocError, Global};
use tc_base::{Blob, Blobs, put_vnum};

/// An item where it lies: its key, its first value, how many further values it has, and their bytes, which `next_value` reads.
#[derive(Clone, Copy)]
pub struct Lying<'a> {
    pub key: &'a [u8],
    pub first: &'a [u8],
    pub more: u64,
    pub further: &'a [u8],
}

/// The value at the front of the bytes of further values, and what is behind it.
pub fn next_value(bytes: &[u8]) -> (&[u8], &[u8])
    ensures { (result.0.now, result.1.now) ≡ value_in bytes.now }
{
    let (size, rest) = number(bytes);
    cut(size, rest)
}

impl<'a> Lying<'a> {
    /// The item, as a copy.
    pub fn to_item(&self, alloc: Global) -> Result<Item, AllocError>
        ensures { IfOk result (λ x. x ≡ seen self.now.key.now self.now.first.now self.now.more self.now.further.now) }
    {
        let mut values = Blobs::new(alloc);
        values.push(Blob::from_slice(alloc, self.first)?)?;
        put_values(alloc, self.more, self.further, &mut values)?;
        Ok(Item {
            key: Blob::from_slice(alloc, self.key)?,
            values,
        })
    }
}

// Behind how many bytes the value of a number stands, and behind how many it ends, its size among them.
fn span_of(further: &[u8], n: u64) -> (usize, usize)
    ensures span { IsSpanOf n further.now result.0 result.1 }
    ensures order { result.0 ≤ result.1 }
    ensures within { result.1 ≤ length further.now }
{
    let mut rest = further;
    for i in 0..n {
        let (_, behind) = next_value(rest);
        rest = behind;
    }
    let (_, behind) = next_value(rest);
    (further.len() - rest.len(), further.len() - behind.len())
}

// Adds a value behind its size. An `Err` may have added some.
fn put_value(value: &[u8], into: &mut Blob) -> Result<(), AllocError>
    ensures bytes { OnOk result (into.new ≡ into.old ++ value_bytes value.now) }
    ensures size { SizeFits value.now }
{
    let size = value.len() as u64;
    put_vnum(size, into)?;
    into.append(value)?;
    Ok(())
}

// Adds a value behind its size, where there is one. An `Err` may have added some.
fn put_or_none(value: Option<&[u8]>, into: &mut Blob) -> Result<(), AllocError>
    ensures bytes { OnOk result (into.new ≡ into.old ++ bytes_or_none (option_map (λ v. v.now) value.entry)) }
    ensures size { IfSome (option_map (λ v. v.now) value.entry) (λ v. SizeFits v) }
{
    match value {
        Some(value) => put_value(value, into),
        None => Ok(()),
    }
}

// The bytes of further values of which those from one place to another are a value, or go.
fn further_with(
    alloc: Global,
    further: &[u8],
    from: usize,
    to: usize,
    value: Option<&[u8]>,
) -> Result<Blob, AllocError>
    requires from { from ≤ to }
    requires to { to ≤ length further.now }
    ensures is { IfOk result (λ b. b ≡ with_further from to (option_map (λ v. v.now) value.entry) further.now) }
    ensures size { OnOk result (IfSome (option_map (λ v. v.now) value.entry) (λ v. SizeFits v)) }
{
    let mut all = with_room(alloc, further.len())?;
    all.append(&further[..from])?;
    put_or_none(value, &mut all)?;
    all.append(&further[to..])?;
    Ok(all)
}

// How many further values there are, where one of them is another or goes.
fn more_with(more: u64, value: Option<&[u8]>) -> u64
    ensures { result ≡ more_with more (option_map (λ v. v.now) value.entry) }
{
    match value {
        Some(_) => more,
        None => more.saturating_sub(1),
    }
}

impl SlottedLeaf {
    /// The item at a place, where it lies.
    pub fn lying(&self, place: usize) -> Lying<'_>
        requires { place < length self.now.items }
        ensures { OfItem (λ x. x) self.now.items place (seen result.key.now result.first.now result.more result.further.now) }
    {
        let parts = self.parts(place);
        Lying {
            key: parts.key,
            first: parts.first,
            more: parts.more,
            further: parts.further,
        }
    }

    // The leaf with another of the further values of an item, counted from 0, or without it.
    fn with_further_at(
        self,
        alloc: Global,
        place: usize,
        n: u64,
        value: Option<&[u8]>,
    ) -> Result<SlottedLeaf, AllocError>
        requires inside { place < length self.items }
        requires there { (x : the_item) → slice_get self.items place ≡ Some x → n + 1 < length x.values }
        ensures { IfOk result (λ l. HasValuesAt (values_with_nth (n + 1) (option_map (λ v. v.now) value.entry)) place self l) }
    {
        let parts = self.parts(place);
        let (from, to) = span_of(parts.further, n);
        let further = further_with(alloc, parts.further, from, to, value)?;
        let parts = Parts {
            key: parts.key,
            first: parts.first,
            more: more_with(parts.more, value),
            further: further.as_slice(),
        };
        let bytes = crate::building::with_item(
            alloc,
            self.bytes.as_slice(),
            self.start(place),
            self.end(place),
            parts,
        )?;
        Ok(self.changed(place, bytes))
    }

    /// The leaf with another value at a place among those of an item, counted from 0, or without it, where the item has others.
    pub fn with_value_at(
        self,
        alloc: Global,
        place: usize,
        n: u64,
        value: Option<&[u8]>,
    ) -> Result<SlottedLeaf, AllocError>
        requires inside { place < length self.items }
        requires there { (x : the_item) → slice_get self.items place ≡ Some x → n < length x.values }
        requires others { option_map (λ v. v.now) value ≡ None → (x : the_item) → slice_get self.items place ≡ Some x → 1 < length x.values }
        ensures { IfOk result (λ l. HasValuesAt (values_with_nth n (option_map (λ v. v.now) value.entry)) place self l) }
    {
        if n > 0 {
            return self.with_further_at(alloc, place, n - 1, value);
        }
        match value {
            Some(value) => self.with_first(alloc, place, value),
            None => self.without_first(alloc, place),
        }
    }
}
