//! Pages as bytes.
ghost use Rattle.std.specs.Prelude.{◌≡◌, ◌++◌, ◌<◌, ◌^◌, OnOk, OnErr, length};
ghost use Rattle.std.specs.List.{AllByRecursion, flat_map};
ghost use Rattle.bt_page.specs.Pages.{two, value_bytes, item_bytes, entry_bytes, leaf_bytes, node_bytes, SizeFits, HasValue, ItemFits, EntryFits, LeafFits, NodeFits};
ghost use Rattle.bt_page.specs.Spelled.{IsPrefix};

use crate::page::{Item, Leaf, Node, NodeEntry};
use std::alloc::AllocError;
use tc_base::{Blob, put_vnum};

// Adds values, each behind its size. An `Err` may have added some.
fn put_values(values: &[Blob], into: &mut Blob) -> Result<(), AllocError>
    ensures ok { OnOk result (into.new ≡ into.old ++ flat_map value_bytes values.now) }
    ensures fits { OnOk result (AllByRecursion SizeFits values.now) }
    ensures err { OnErr result (IsPrefix into.old into.new) }
{
    for value in values {
        let bytes = value.as_slice();
        put_vnum(bytes.len() as u64, into)?;
        into.append(bytes)?;
    }
    Ok(())
}

fn put_item(item: &Item, into: &mut Blob) -> Result<(), AllocError>
    requires held { HasValue item.now }
    ensures ok { OnOk result (into.new ≡ into.old ++ item_bytes item.now) }
    ensures fits { OnOk result (ItemFits item.now) }
    ensures err { OnErr result (IsPrefix into.old into.new) }
{
    let key = item.key.as_slice();
    let values = item.values.as_slice();
    let first = values[0].as_slice();
    put_vnum(key.len() as u64, into)?;
    put_vnum(first.len() as u64, into)?;
    put_vnum((values.len() - 1) as u64, into)?;
    into.append(key)?;
    into.append(first)?;
    put_values(&values[1..], into)?;
    Ok(())
}

fn put_items(items: &[Item], into: &mut Blob) -> Result<(), AllocError>
    requires held { AllByRecursion HasValue items.now }
    ensures ok { OnOk result (into.new ≡ into.old ++ flat_map item_bytes items.now) }
    ensures fits { OnOk result (AllByRecursion ItemFits items.now) }
    ensures err { OnErr result (IsPrefix into.old into.new) }
{
    for item in items {
        put_item(item, into)?;
    }
    Ok(())
}

fn put_leaf(leaf: &Leaf, into: &mut Blob) -> Result<(), AllocError>
    requires held { AllByRecursion HasValue leaf.now.items }
    ensures ok { OnOk result (into.new ≡ into.old ++ leaf_bytes leaf.now) }
    ensures fits { OnOk result (LeafFits leaf.now) }
    ensures err { OnErr result (IsPrefix into.old into.new) }
{
    put_vnum(leaf.prev, into)?;
    put_vnum(leaf.next, into)?;
    put_items(leaf.items.as_slice(), into)?;
    Ok(())
}

/// Adds a leaf's bytes behind those that are there. Each of its items has to have a value. An `Err` changes nothing.
pub fn write_leaf(leaf: &Leaf, into: &mut Blob) -> Result<(), AllocError>
    requires held { AllByRecursion HasValue leaf.now.items }
    ensures ok { OnOk result (into.new ≡ into.old ++ leaf_bytes leaf.now) }
    ensures fits { OnOk result (LeafFits leaf.now) }
    ensures err { OnErr result (into.new ≡ into.old) }
{
    let len = into.len();
    if let Err(e) = put_leaf(leaf, into) {
        into.truncate(len);
        return Err(e);
    }
    Ok(())
}

fn put_entries(entries: &[NodeEntry], into: &mut Blob) -> Result<(), AllocError>
    ensures ok { OnOk result (into.new ≡ into.old ++ flat_map entry_bytes entries.now) }
    ensures fits { OnOk result (AllByRecursion EntryFits entries.now) }
    ensures err { OnErr result (IsPrefix into.old into.new) }
{
    for entry in entries {
        put_entry(entry, into)?;
    }
    Ok(())
}

fn put_entry(entry: &NodeEntry, into: &mut Blob) -> Result<(), AllocError>
    ensures ok { OnOk result (into.new ≡ into.old ++ entry_bytes entry.now) }
    ensures fits { OnOk result (EntryFits entry.now) }
    ensures err { OnErr result (IsPrefix into.old into.new) }
{
    let key = entry.key.as_slice();
    put_vnum(entry.child, into)?;
    put_vnum(key.len() as u64, into)?;
    into.append(key)?;
    Ok(())
}

fn put_node(node: &Node, into: &mut Blob) -> Result<(), AllocError>
    ensures ok { OnOk result (into.new ≡ into.old ++ node_bytes node.now) }
    ensures fits { OnOk result (NodeFits node.now) }
    ensures err { OnErr result (IsPrefix into.old into.new) }
{
    put_vnum(node.heir, into)?;
    put_entries(node.entries.as_slice(), into)?;
    Ok(())
}

/// Adds a node's bytes behind those that are there. An `Err` changes nothing.
pub fn write_node(node: &Node, into: &mut Blob) -> Result<(), AllocError>
    ensures ok { OnOk result (into.new ≡ into.old ++ node_bytes node.now) }
    ensures fits { OnOk result (NodeFits node.now) }
    ensures err { OnErr result (into.new ≡ into.old) }
{
    let len = into.len();
    if let Err(e) = put_node(node, into) {
        into.truncate(len);
        return Err(e);
    }
    Ok(())
}
