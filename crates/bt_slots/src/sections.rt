//! Leaves of some of a leaf's items, whose bytes are copied as they are.
ghost use Rattle.std.specs.Prelude.{◌≡◌, ◌-◌, ◌≤◌, ◌++◌, length, take, drop, IfOk};
ghost use Rattle.std.specs.List.{flat_map};
ghost use Rattle.bt_page.specs.Pages.{item_bytes, two};

use crate::building::with_room;
use crate::fronts::between;
use crate::leaf::SlottedLeaf;
use crate::shifting::copied;
use std::alloc::{AllocError, Global};
use tc_base::{Blob, put_vnum};

// The bytes of a leaf with these links, whose items have these bytes.
fn linked(alloc: Global, prev: u64, next: u64, items: &[u8]) -> Result<Blob, AllocError>
    ensures { IfOk result (λ b. b ≡ two prev next ++ items.now) }
{
    let mut all = with_room(alloc, items.len().saturating_add(20))?;
    put_vnum(prev, &mut all)?;
    put_vnum(next, &mut all)?;
    all.append(items)?;
    Ok(all)
}

impl SlottedLeaf {
    /// How many bytes the items from one place to another have.
    pub fn section_len(&self, from: usize, to: usize) -> usize
        requires { (from ≤ to) × (to ≤ length self.now.items) }
        ensures { result ≡ length (flat_map item_bytes (take (to - from) (drop from self.now.items))) }
    {
        self.start(to) - self.start(from)
    }

    /// A leaf of the items from one place to another, with these links.
    pub fn section(
        &self,
        alloc: Global,
        from: usize,
        to: usize,
        prev: u64,
        next: u64,
    ) -> Result<SlottedLeaf, AllocError>
        requires { (from ≤ to) × (to ≤ length self.now.items) }
        ensures { IfOk result (λ l. l ≡ record { prev = prev; next = next; items = take (to - from) (drop from self.now.items) }) }
    {
        let start = self.start(from);
        let items = between(self.bytes.as_slice(), start, self.start(to));
        let bytes = linked(alloc, prev, next, items)?;
        let at = bytes.len() - items.len();
        let starts = copied(alloc, self.starts.as_slice(), from, to, start, at)?;
        Ok(SlottedLeaf { bytes, starts })
    }

    /// The leaf with another before it.
    pub fn with_prev(&self, alloc: Global, prev: u64) -> Result<SlottedLeaf, AllocError>
        ensures { IfOk result (λ l. l ≡ record { prev = prev; next = self.now.next; items = self.now.items }) }
    {
        self.section(alloc, 0, self.len(), prev, self.next())
    }

    /// The leaf with another behind it.
    pub fn with_next(&self, alloc: Global, next: u64) -> Result<SlottedLeaf, AllocError>
        ensures { IfOk result (λ l. l ≡ record { prev = self.now.prev; next = next; items = self.now.items }) }
    {
        self.section(alloc, 0, self.len(), self.prev(), next)
    }
}
