//! Nodes with an entry more, and nodes of some of a node's entries, whose bytes are copied as they are. An `Err` is for want of memory.
ghost use Rattle.std.specs.Prelude.{◌≡◌, ◌+◌, ◌-◌, ◌≤◌, ◌<◌, ◌^◌, ◌++◌, ◌∷◌, length, take, drop, IfOk, OnOk};
ghost use Rattle.std.specs.List.{flat_map};
ghost use Rattle.tc_base.specs.Vnum.{vnum};
ghost use Rattle.bt_page.specs.Pages.{entry_bytes, two, SizeFits};
ghost use Rattle.bt_slots.specs.Changes.{spliced};
ghost use Rattle.bt_slots.specs.Slots.{entries_before};

use crate::building::with_room;
use crate::fronts::between;
use crate::node::SlottedNode;
use crate::shifting::{copied, inserted};
use std::alloc::{AllocError, Global};
use tc_base::{Blob, put_vnum};

// Adds the bytes of an entry. An `Err` may have added some.
fn put_entry(child: u64, key: &[u8], into: &mut Blob) -> Result<(), AllocError>
    ensures bytes { OnOk result (into.new ≡ into.old ++ (two child (length key.now) ++ key.now)) }
    ensures key { SizeFits key.now }
{
    put_vnum(child, into)?;
    put_vnum(key.len() as u64, into)?;
    into.append(key)?;
    Ok(())
}

// The bytes with those of an entry at a place.
fn with_put(
    alloc: Global,
    bytes: &[u8],
    at: usize,
    child: u64,
    key: &[u8],
) -> Result<Blob, AllocError>
    requires { at ≤ length bytes.now }
    ensures bytes { IfOk result (λ b. b ≡ spliced at at (two child (length key.now) ++ key.now) bytes.now) }
    ensures key { SizeFits key.now }
{
    let room = bytes.len().saturating_add(key.len()).saturating_add(20);
    let mut all = with_room(alloc, room)?;
    all.append(&bytes[..at])?;
    put_entry(child, key, &mut all)?;
    all.append(&bytes[at..])?;
    Ok(all)
}

// The bytes of a node with this heir, whose entries have these bytes.
fn headed(alloc: Global, heir: u64, entries: &[u8]) -> Result<Blob, AllocError>
    ensures { IfOk result (λ b. b ≡ vnum heir ++ entries.now) }
{
    let mut all = with_room(alloc, entries.len().saturating_add(10))?;
    put_vnum(heir, &mut all)?;
    all.append(entries)?;
    Ok(all)
}

impl SlottedNode {
    // Where an entry begins, or would come.
    fn start(&self, place: usize) -> usize
        requires { place ≤ length self.now.entries }
        ensures { result ≡ entries_before self.now place }
    {
        if place == self.starts.len() {
            return self.bytes.len();
        }
        self.starts[place]
    }

    /// The node with an entry more at a place.
    pub fn with_entry(
        self,
        alloc: Global,
        place: usize,
        child: u64,
        key: &[u8],
    ) -> Result<SlottedNode, AllocError>
        requires { place ≤ length self.entries }
        ensures { IfOk result (λ n. n ≡ record { heir = self.heir; entries = take place self.entries ++ record { child = child; key = key.now } ∷ drop place self.entries }) }
    {
        let from = self.start(place);
        let bytes = with_put(alloc, self.bytes.as_slice(), from, child, key)?;
        let to = bytes.len() - (self.bytes.len() - from);
        let starts = inserted(self.starts, place, from, to)?;
        Ok(SlottedNode { bytes, starts })
    }

    /// A node of the entries from one place to another, with this heir.
    pub fn section(
        &self,
        alloc: Global,
        from: usize,
        to: usize,
        heir: u64,
    ) -> Result<SlottedNode, AllocError>
        requires { (from ≤ to) × (to ≤ length self.now.entries) }
        ensures { IfOk result (λ n. n ≡ record { heir = heir; entries = take (to - from) (drop from self.now.entries) }) }
    {
        let start = self.start(from);
        let entries = between(self.bytes.as_slice(), start, self.start(to));
        let bytes = headed(alloc, heir, entries)?;
        let at = bytes.len() - entries.len();
        let starts = copied(alloc, self.starts.as_slice(), from, to, start, at)?;
        Ok(SlottedNode { bytes, starts })
    }
}
