//! Pages as their bytes alone, whose items or entries are read one behind the other where they lie.
ghost use Rattle.std.specs.Prelude.{◌≡◌, length, IfSome, IfNone};
ghost use Rattle.std.specs.List.{flat_map};
ghost use Rattle.bt_page.specs.Pages.{item_bytes, leaf_bytes, node_bytes, LeafFits, NodeFits};
ghost use Rattle.bt_page.specs.Spelled.{Spells};
ghost use Rattle.bt_page.specs.declared.page.Leaf.{Leaf as the_leaf};
ghost use Rattle.bt_page.specs.declared.page.Node.{Node as the_node};
ghost use Rattle.bt_slots.specs.Lying.{behind_values, entry_of, seen};
ghost use Rattle.bt_slots.specs.Reads.{entries_in, entry_in, item_in, items_in};

use crate::fronts::{cut, item_head, number};
use crate::lying::{Lying, next_value};
use crate::scanning::{leaf_count, node_count};
use std::marker::Model;
use tc_base::Blob;

/// A leaf as its bytes alone. A contract sees the leaf.
#[derive(Drop)]
pub struct BareLeaf {
    bytes: Blob,
    count: usize,
}

impl Model for BareLeaf {
    ghost use Rattle.bt_page.specs.Pages.{leaf_bytes, LeafFits};
    ghost use Rattle.bt_page.specs.Spelled.{Spells};
    ghost use Rattle.bt_page.specs.declared.page.Leaf.{Leaf};
    ghost use Rattle.bt_slots.specs.Reads.{leaf_in};

    ghost Value = { Leaf };

    ghost view = { λ p. leaf_in p.count p.bytes };

    ghost invariant = { λ p. Spells LeafFits leaf_bytes p.bytes (leaf_in p.count p.bytes) };
}

/// A node as its bytes alone. A contract sees the node.
#[derive(Drop)]
pub struct BareNode {
    bytes: Blob,
    count: usize,
}

impl Model for BareNode {
    ghost use Rattle.bt_page.specs.Pages.{node_bytes, NodeFits};
    ghost use Rattle.bt_page.specs.Spelled.{Spells};
    ghost use Rattle.bt_page.specs.declared.page.Node.{Node};
    ghost use Rattle.bt_slots.specs.Reads.{node_in};

    ghost Value = { Node };

    ghost view = { λ p. node_in p.count p.bytes };

    ghost invariant = { λ p. Spells NodeFits node_bytes p.bytes (node_in p.count p.bytes) };
}

// What is behind so many further values.
fn behind_further(n: u64, bytes: &[u8]) -> &[u8]
    ensures { result.now ≡ behind_values n bytes.now }
{
    let mut rest = bytes;
    for i in 0..n {
        rest = next_value(rest).1;
    }
    rest
}

/// The item at the front of a leaf's items, and what is behind it. The bytes of its further values are told with all that is behind them.
pub fn next_item(bytes: &[u8]) -> (Lying<'_>, &[u8])
    ensures { (seen result.0.key.now result.0.first.now result.0.more result.0.further.now, result.1.now) ≡ item_in bytes.now }
{
    let (size, first, more, rest) = item_head(bytes);
    let (key, rest) = cut(size, rest);
    let (first, further) = cut(first, rest);
    let behind = behind_further(more, further);
    (
        Lying {
            key,
            first,
            more,
            further,
        },
        behind,
    )
}

/// The page and the key of the entry at the front of a node's entries, and what is behind it.
pub fn next_entry(bytes: &[u8]) -> (u64, &[u8], &[u8])
    ensures { (entry_of result.0 result.1.now, result.2.now) ≡ entry_in bytes.now }
{
    let (child, rest) = number(bytes);
    let (size, rest) = number(rest);
    let (key, behind) = cut(size, rest);
    (child, key, behind)
}

impl BareLeaf {
    /// The leaf that the bytes are, the last byte included; None exactly where they are no leaf's. The bytes aren't copied, and no memory is taken.
    pub fn read(bytes: Blob) -> Option<BareLeaf>
        ensures found { IfSome result (λ l. Spells LeafFits leaf_bytes bytes l) }
        ensures none { IfNone result ((l : the_leaf) → Spells LeafFits leaf_bytes bytes l → ⊥) }
    {
        let Ok(count) = leaf_count(bytes.as_slice()) else {
            return None;
        };
        Some(BareLeaf { bytes, count })
    }

    /// The id of the leaf before it, 0 for none.
    pub fn prev(&self) -> u64
        ensures { result ≡ self.now.prev }
    {
        number(self.bytes.as_slice()).0
    }

    /// The id of the leaf behind it, 0 for none.
    pub fn next(&self) -> u64
        ensures { result ≡ self.now.next }
    {
        number(number(self.bytes.as_slice()).1).0
    }

    /// How many items there are.
    pub fn len(&self) -> usize
        ensures { result ≡ length self.now.items }
    {
        self.count
    }

    /// The bytes of its items, which `next_item` reads.
    pub fn items(&self) -> &[u8]
        ensures bytes { result.now ≡ flat_map item_bytes self.now.items }
        ensures read { items_in (length self.now.items) result.now ≡ self.now.items }
    {
        number(number(self.bytes.as_slice()).1).1
    }
}

impl BareNode {
    /// The node that the bytes are, the last byte included; None exactly where they are no node's. The bytes aren't copied, and no memory is taken.
    pub fn read(bytes: Blob) -> Option<BareNode>
        ensures found { IfSome result (λ n. Spells NodeFits node_bytes bytes n) }
        ensures none { IfNone result ((n : the_node) → Spells NodeFits node_bytes bytes n → ⊥) }
    {
        let Ok(count) = node_count(bytes.as_slice()) else {
            return None;
        };
        Some(BareNode { bytes, count })
    }

    /// The id of the page under which the keys below the first entry's stand.
    pub fn heir(&self) -> u64
        ensures { result ≡ self.now.heir }
    {
        number(self.bytes.as_slice()).0
    }

    /// How many entries there are.
    pub fn len(&self) -> usize
        ensures { result ≡ length self.now.entries }
    {
        self.count
    }

    /// The bytes of its entries, which `next_entry` reads.
    pub fn entries(&self) -> &[u8]
        ensures { entries_in (length self.now.entries) result.now ≡ self.now.entries }
    {
        number(self.bytes.as_slice()).1
    }
}
