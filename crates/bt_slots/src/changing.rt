//! Changes of a leaf. An `Err`, for want of memory, drops it.
ghost use Rattle.std.specs.Prelude.{◌≡◌, ◌<◌, ◌≤◌, ◌++◌, ◌∷◌, [], Some, slice_get, take, drop, set, length, IfOk};
ghost use Rattle.std.specs.List.{remove};
ghost use Rattle.bt_page.specs.declared.page.Item.{Item as the_item};
ghost use Rattle.bt_slots.specs.Changes.{HasItemAt};
ghost use Rattle.bt_slots.specs.Slots.{HasValuesAt, with_items};

use crate::building::{put_item, with_item, with_value, without};
use crate::leaf::SlottedLeaf;
use crate::parts::{Parts, without_first};
use crate::shifting::{inserted, removed, shift_behind};
use std::alloc::{AllocError, Global};
use tc_base::Blob;

impl SlottedLeaf {
    // The leaf with an item more at a place, as a copy.
    fn with_item_within(
        self,
        alloc: Global,
        place: usize,
        key: &[u8],
        value: &[u8],
    ) -> Result<SlottedLeaf, AllocError>
        requires { place ≤ length self.items }
        ensures { IfOk result (λ l. l ≡ with_items self (take place self.items ++ record { key = key.now; values = value.now ∷ [] } ∷ drop place self.items)) }
    {
        let from = self.start(place);
        let parts = Parts {
            key,
            first: value,
            more: 0,
            further: &key[..0],
        };
        let bytes = with_item(alloc, self.bytes.as_slice(), from, from, parts)?;
        let to = bytes.len() - (self.bytes.len() - from);
        let starts = inserted(self.starts, place, from, to)?;
        Ok(SlottedLeaf { bytes, starts })
    }

    // The leaf with an item more behind the others, which stay where they are.
    fn with_last(self, key: &[u8], value: &[u8]) -> Result<SlottedLeaf, AllocError>
        ensures { IfOk result (λ l. l ≡ with_items self (self.items ++ record { key = key.now; values = value.now ∷ [] } ∷ [])) }
    {
        let SlottedLeaf {
            mut bytes,
            mut starts,
        } = self;
        let start = bytes.len();
        put_item(key, value, &mut bytes)?;
        starts.push(start)?;
        Ok(SlottedLeaf { bytes, starts })
    }

    /// The leaf with a key and a value more at a place.
    pub fn with_item(
        self,
        alloc: Global,
        place: usize,
        key: &[u8],
        value: &[u8],
    ) -> Result<SlottedLeaf, AllocError>
        requires { place ≤ length self.items }
        ensures { IfOk result (λ l. l ≡ with_items self (take place self.items ++ record { key = key.now; values = value.now ∷ [] } ∷ drop place self.items)) }
    {
        if place == self.len() {
            return self.with_last(key, value);
        }
        self.with_item_within(alloc, place, key, value)
    }

    // The leaf with the bytes of one whose item at a place is another.
    pub(crate) fn changed(self, place: usize, bytes: Blob) -> SlottedLeaf
        requires inside { place < length self.items }
        requires is { (y : the_item) × HasItemAt place self bytes y }
        ensures { (y : the_item) → HasItemAt place self bytes y → result ≡ with_items self (set self.items place y) }
    {
        let from = self.end(place);
        let to = bytes.len() - (self.bytes.len() - from);
        let mut starts = self.starts;
        shift_behind(&mut starts, place + 1, from, to);
        SlottedLeaf { bytes, starts }
    }

    /// The leaf with another first value of an item.
    pub fn with_first(
        self,
        alloc: Global,
        place: usize,
        value: &[u8],
    ) -> Result<SlottedLeaf, AllocError>
        requires { place < length self.items }
        ensures { IfOk result (λ l. HasValuesAt (λ vs. value.now ∷ drop 1 vs) place self l) }
    {
        let parts = self.parts(place);
        let parts = Parts {
            key: parts.key,
            first: value,
            more: parts.more,
            further: parts.further,
        };
        let bytes = with_item(
            alloc,
            self.bytes.as_slice(),
            self.start(place),
            self.end(place),
            parts,
        )?;
        Ok(self.changed(place, bytes))
    }

    /// The leaf with a value behind those of an item.
    pub fn with_value(
        self,
        alloc: Global,
        place: usize,
        value: &[u8],
    ) -> Result<SlottedLeaf, AllocError>
        requires { place < length self.items }
        ensures { IfOk result (λ l. HasValuesAt (λ vs. vs ++ value.now ∷ []) place self l) }
    {
        let parts = self.parts(place);
        if parts.more == u64::MAX {
            return Err(AllocError);
        }
        let parts = Parts {
            key: parts.key,
            first: parts.first,
            more: parts.more + 1,
            further: parts.further,
        };
        let bytes = with_value(
            alloc,
            self.bytes.as_slice(),
            self.start(place),
            self.end(place),
            parts,
            value,
        )?;
        Ok(self.changed(place, bytes))
    }

    /// The leaf without the first value of an item, which has others.
    pub fn without_first(self, alloc: Global, place: usize) -> Result<SlottedLeaf, AllocError>
        requires inside { place < length self.items }
        requires more { (x : the_item) → slice_get self.items place ≡ Some x → 1 < length x.values }
        ensures { IfOk result (λ l. HasValuesAt (drop 1) place self l) }
    {
        let parts = without_first(self.parts(place));
        let bytes = with_item(
            alloc,
            self.bytes.as_slice(),
            self.start(place),
            self.end(place),
            parts,
        )?;
        Ok(self.changed(place, bytes))
    }

    /// The leaf without an item.
    pub fn without_item(self, alloc: Global, place: usize) -> Result<SlottedLeaf, AllocError>
        requires { place < length self.items }
        ensures { IfOk result (λ l. l ≡ with_items self (remove self.items place)) }
    {
        let from = self.end(place);
        let to = self.start(place);
        let bytes = without(alloc, self.bytes.as_slice(), to, from)?;
        let starts = removed(self.starts, place, from, to);
        Ok(SlottedLeaf { bytes, starts })
    }
}
