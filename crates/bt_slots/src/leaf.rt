//! Leaves.
ghost use Rattle.std.specs.Prelude.{◌≡◌, ◌+◌, ◌<◌, ◌≤◌, ◌^◌, ◌++◌, Some, slice_get, drop, length, IfOk, IsErrOf};
ghost use Rattle.std.specs.List.{AllByRecursion, flat_map};
ghost use Rattle.bt_page.specs.Pages.{HasValue, LeafFits, item_bytes, leaf_bytes};
ghost use Rattle.bt_page.specs.Spelled.{Spells};
ghost use Rattle.bt_page.specs.declared.page.Item.{Item as the_item};
ghost use Rattle.bt_page.specs.declared.page.Leaf.{Leaf as the_leaf};
ghost use Rattle.bt_slots.specs.Slots.{ArePartsOf, OfItem, bytes_before};

use crate::fronts::{between, item_head, item_key, number, rest_from};
use crate::parts::{Parts, parts_of, put_values};
use crate::scanning::item_starts;
use bt_page::{Item, Leaf, PageErr, read_leaf, write_leaf};
use std::alloc::{AllocError, Global};
use std::marker::Model;
use tc_base::{Blob, Blobs};

/// A leaf as its bytes, with the places where its items begin. A contract sees the leaf.
#[derive(Drop)]
pub struct SlottedLeaf {
    pub(crate) bytes: Blob,
    pub(crate) starts: Vec<usize>,
}

impl Model for SlottedLeaf {
    ghost use Rattle.std.specs.Prelude.{length};
    ghost use Rattle.bt_page.specs.declared.page.Leaf.{Leaf};
    ghost use Rattle.bt_slots.specs.Reads.{leaf_in};
    ghost use Rattle.bt_slots.specs.Slots.{IsLeafIn};

    ghost Value = { Leaf };

    ghost view = { λ p. leaf_in (length p.starts.items) p.bytes };

    ghost invariant = { λ p. IsLeafIn p.bytes p.starts.items (leaf_in (length p.starts.items) p.bytes) };
}

impl SlottedLeaf {
    /// The leaf that the bytes are, the last byte included. Bad exactly where they are no leaf's; Memory where the places found no room. The bytes aren't copied.
    pub fn read(alloc: Global, bytes: Blob) -> Result<SlottedLeaf, PageErr>
        ensures found { IfOk result (λ l. Spells LeafFits leaf_bytes bytes l) }
        ensures bad { IsErrOf result PageErr.Bad → (l : the_leaf) → Spells LeafFits leaf_bytes bytes l → ⊥ }
    {
        let starts = item_starts(alloc, bytes.as_slice())?;
        Ok(SlottedLeaf { bytes, starts })
    }

    /// A leaf, each of whose items has a value, as its bytes.
    pub fn of(alloc: Global, leaf: &Leaf) -> Result<SlottedLeaf, AllocError>
        requires { AllByRecursion HasValue leaf.now.items }
        ensures { IfOk result (λ l. l ≡ leaf.now) }
    {
        let mut bytes = Blob::new(alloc);
        write_leaf(leaf, &mut bytes)?;
        match SlottedLeaf::read(alloc, bytes) {
            Ok(leaf) => Ok(leaf),
            Err(_) => Err(AllocError),
        }
    }

    /// The leaf by its items.
    pub fn to_leaf(&self, alloc: Global) -> Result<Leaf, AllocError>
        ensures { IfOk result (λ l. l ≡ self.now) }
    {
        match read_leaf(alloc, self.bytes.as_slice()) {
            Ok(leaf) => Ok(leaf),
            Err(_) => Err(AllocError),
        }
    }

    pub fn copy(&self, alloc: Global) -> Result<SlottedLeaf, AllocError>
        ensures { IfOk result (λ l. l ≡ self.now) }
    {
        Ok(SlottedLeaf {
            bytes: Blob::from_slice(alloc, self.bytes.as_slice())?,
            starts: Vec::from_slice(alloc, self.starts.as_slice())?,
        })
    }

    /// Its bytes.
    pub fn as_slice(&self) -> &[u8]
        ensures bytes { result.now ≡ leaf_bytes self.now }
        ensures fits { LeafFits self.now }
    {
        self.bytes.as_slice()
    }

    /// The id of the leaf before it, 0 for none.
    pub fn prev(&self) -> u64
        ensures { result ≡ self.now.prev }
    {
        number(self.bytes.as_slice()).0
    }

    /// The id of the leaf behind it, 0 for none.
    pub fn next(&self) -> u64
        ensures { result ≡ self.now.next }
    {
        number(number(self.bytes.as_slice()).1).0
    }

    /// How many items there are.
    pub fn len(&self) -> usize
        ensures { result ≡ length self.now.items }
    {
        self.starts.len()
    }

    /// How many bytes all items have.
    pub fn items_len(&self) -> usize
        ensures { result ≡ length (flat_map item_bytes self.now.items) }
    {
        number(number(self.bytes.as_slice()).1).1.len()
    }

    // The bytes from an item on.
    fn from_item(&self, place: usize) -> &[u8]
        requires { place < length self.now.items }
        ensures is { (x : the_item) → slice_get self.now.items place ≡ Some x → result.now ≡ item_bytes x ++ flat_map item_bytes (drop (place + 1) self.now.items) }
        ensures short { length result.now < 2 ^ 64 }
        ensures fits { LeafFits self.now }
    {
        rest_from(self.bytes.as_slice(), self.start(place))
    }

    // Where an item ends.
    pub(crate) fn end(&self, place: usize) -> usize
        requires { place < length self.now.items }
        ensures { result ≡ bytes_before self.now (place + 1) }
    {
        let last = self.len() - 1;
        if place == last {
            return self.bytes.len();
        }
        self.starts[place + 1]
    }

    // Where an item begins, or would come.
    pub(crate) fn start(&self, place: usize) -> usize
        requires { place ≤ length self.now.items }
        ensures { result ≡ bytes_before self.now place }
    {
        if place == self.starts.len() {
            return self.bytes.len();
        }
        self.starts[place]
    }

    // The parts of the item at a place.
    pub(crate) fn parts(&self, place: usize) -> Parts<'_>
        requires { place < length self.now.items }
        ensures are { (x : the_item) → slice_get self.now.items place ≡ Some x → ArePartsOf x result.key.now result.first.now result.more result.further.now }
        ensures fits { LeafFits self.now }
    {
        parts_of(between(self.bytes.as_slice(), self.start(place), self.end(place)))
    }

    /// The key of the item at a place.
    pub fn key(&self, place: usize) -> &[u8]
        requires { place < length self.now.items }
        ensures { OfItem (λ x. x.key) self.now.items place result.now }
    {
        item_key(self.from_item(place))
    }

    /// How many values the item at a place has.
    pub fn count(&self, place: usize) -> u64
        requires { place < length self.now.items }
        ensures { OfItem (λ x. length x.values) self.now.items place result }
    {
        item_head(self.from_item(place)).2.saturating_add(1)
    }

    /// The first value of the item at a place.
    pub fn first_value(&self, place: usize) -> &[u8]
        requires { place < length self.now.items }
        ensures { OfItem (λ x. slice_get x.values 0) self.now.items place (Some result.now) }
    {
        self.parts(place).first
    }

    /// The item at a place with all its values, as a copy.
    pub fn item(&self, alloc: Global, place: usize) -> Result<Item, AllocError>
        requires { place < length self.now.items }
        ensures { IfOk result (λ x. slice_get self.now.items place ≡ Some x) }
    {
        let parts = self.parts(place);
        let mut values = Blobs::new(alloc);
        values.push(Blob::from_slice(alloc, parts.first)?)?;
        put_values(alloc, parts.more, parts.further, &mut values)?;
        Ok(Item {
            key: Blob::from_slice(alloc, parts.key)?,
            values,
        })
    }
}
