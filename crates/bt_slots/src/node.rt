//! Nodes.
ghost use Rattle.std.specs.Prelude.{◌≡◌, ◌+◌, ◌<◌, ◌++◌, Some, slice_get, drop, length, IfOk, IsErrOf};
ghost use Rattle.std.specs.List.{flat_map};
ghost use Rattle.bt_page.specs.Pages.{NodeFits, entry_bytes, node_bytes};
ghost use Rattle.bt_page.specs.Spelled.{Spells};
ghost use Rattle.bt_page.specs.declared.page.NodeEntry.{NodeEntry as the_entry};
ghost use Rattle.bt_page.specs.declared.page.Node.{Node as the_node};
ghost use Rattle.bt_slots.specs.Slots.{OfEntry};

use crate::fronts::{entry_key, number, rest_from};
use crate::scanning::entry_starts;
use bt_page::{Node, PageErr, read_node, write_node};
use std::alloc::{AllocError, Global};
use std::marker::Model;
use tc_base::Blob;

/// A node as its bytes, with the places where its entries begin. A contract sees the node.
#[derive(Drop)]
pub struct SlottedNode {
    pub(crate) bytes: Blob,
    pub(crate) starts: Vec<usize>,
}

impl Model for SlottedNode {
    ghost use Rattle.std.specs.Prelude.{length};
    ghost use Rattle.bt_page.specs.declared.page.Node.{Node};
    ghost use Rattle.bt_slots.specs.Reads.{node_in};
    ghost use Rattle.bt_slots.specs.Slots.{IsNodeIn};

    ghost Value = { Node };

    ghost view = { λ p. node_in (length p.starts.items) p.bytes };

    ghost invariant = { λ p. IsNodeIn p.bytes p.starts.items (node_in (length p.starts.items) p.bytes) };
}

impl SlottedNode {
    /// The node that the bytes are, the last byte included. Bad exactly where they are no node's; Memory where the places found no room. The bytes aren't copied.
    pub fn read(alloc: Global, bytes: Blob) -> Result<SlottedNode, PageErr>
        ensures found { IfOk result (λ n. Spells NodeFits node_bytes bytes n) }
        ensures bad { IsErrOf result PageErr.Bad → (n : the_node) → Spells NodeFits node_bytes bytes n → ⊥ }
    {
        let starts = entry_starts(alloc, bytes.as_slice())?;
        Ok(SlottedNode { bytes, starts })
    }

    /// A node as its bytes.
    pub fn of(alloc: Global, node: &Node) -> Result<SlottedNode, AllocError>
        ensures { IfOk result (λ n. n ≡ node.now) }
    {
        let mut bytes = Blob::new(alloc);
        write_node(node, &mut bytes)?;
        match SlottedNode::read(alloc, bytes) {
            Ok(node) => Ok(node),
            Err(_) => Err(AllocError),
        }
    }

    /// The node by its entries.
    pub fn to_node(&self, alloc: Global) -> Result<Node, AllocError>
        ensures { IfOk result (λ n. n ≡ self.now) }
    {
        match read_node(alloc, self.bytes.as_slice()) {
            Ok(node) => Ok(node),
            Err(_) => Err(AllocError),
        }
    }

    pub fn copy(&self, alloc: Global) -> Result<SlottedNode, AllocError>
        ensures { IfOk result (λ n. n ≡ self.now) }
    {
        Ok(SlottedNode {
            bytes: Blob::from_slice(alloc, self.bytes.as_slice())?,
            starts: Vec::from_slice(alloc, self.starts.as_slice())?,
        })
    }

    /// Its bytes.
    pub fn as_slice(&self) -> &[u8]
        ensures bytes { result.now ≡ node_bytes self.now }
        ensures fits { NodeFits self.now }
    {
        self.bytes.as_slice()
    }

    /// The id of the page under which the keys below the first entry's stand.
    pub fn heir(&self) -> u64
        ensures { result ≡ self.now.heir }
    {
        number(self.bytes.as_slice()).0
    }

    /// How many entries there are.
    pub fn len(&self) -> usize
        ensures { result ≡ length self.now.entries }
    {
        self.starts.len()
    }

    // The bytes from an entry on.
    fn from_entry(&self, place: usize) -> &[u8]
        requires { place < length self.now.entries }
        ensures is { (e : the_entry) → slice_get self.now.entries place ≡ Some e → result.now ≡ entry_bytes e ++ flat_map entry_bytes (drop (place + 1) self.now.entries) }
        ensures fits { NodeFits self.now }
    {
        rest_from(self.bytes.as_slice(), self.starts[place])
    }

    /// The key of the entry at a place.
    pub fn key(&self, place: usize) -> &[u8]
        requires { place < length self.now.entries }
        ensures { OfEntry (λ e. e.key) self.now.entries place result.now }
    {
        entry_key(self.from_entry(place))
    }

    /// The page of the entry at a place.
    pub fn child(&self, place: usize) -> u64
        requires { place < length self.now.entries }
        ensures { OfEntry (λ e. e.child) self.now.entries place result }
    {
        number(self.from_entry(place)).0
    }
}
