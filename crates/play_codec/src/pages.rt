//! Pages of trees, and the keys of their records.

use bt_page::{Item, Leaf, Node, page_id, page_key, read_leaf, read_node, write_leaf, write_node};
use play_text::{Line, Why, Wrong};
use std::alloc::{AllocError, Global};
use tc_base::Blob;

// An item as text: its key, then each value behind a colon.
fn add_item(item: &Item, into: &mut Blob) -> Result<(), AllocError> {
    into.append(item.key.as_slice())?;
    for value in item.values.as_slice() {
        into.push(b':')?;
        into.append(value.as_slice())?;
    }
    into.push(b' ')
}

// The items of a leaf as text.
fn items_of(alloc: Global, leaf: &Leaf) -> Result<Blob, AllocError> {
    let mut text = Blob::new(alloc);
    for item in leaf.items.as_slice() {
        add_item(item, &mut text)?;
    }
    Ok(text)
}

// A leaf, as it is read.
fn leaf_of(alloc: Global, bytes: &[u8]) -> Result<Leaf, Wrong> {
    match read_leaf(alloc, bytes) {
        Ok(leaf) => Ok(leaf),
        Err(_) => Err(Wrong::Not(Why::NoLeaf)),
    }
}

/// A leaf as it is read and written again; what isn't one stays.
pub fn leaf_again(alloc: Global, bytes: &[u8]) -> Result<Blob, AllocError> {
    let Ok(leaf) = read_leaf(alloc, bytes) else {
        return Blob::from_slice(alloc, bytes);
    };
    let mut into = Blob::new(alloc);
    write_leaf(&leaf, &mut into)?;
    Ok(into)
}

// The links and the items of a leaf.
fn is_leaf_of(alloc: Global, line: &mut Line, leaf: &Leaf) -> Result<(), Wrong> {
    if line.number()? != leaf.prev || line.number()? != leaf.next {
        return Err(Wrong::Not(Why::OtherLinks));
    }
    line.is_bytes(items_of(alloc, leaf)?.as_slice())
}

/// `leaf BYTES => PREV NEXT ITEMS`: a leaf as it is read, and written again; its items are `key:value:value `, one behind the other.
pub fn is_leaf(alloc: Global, line: &mut Line) -> Result<(), Wrong> {
    let bytes = line.given()?;
    line.told(&bytes, leaf_again(alloc, bytes.as_slice())?.as_slice())?;
    is_leaf_of(alloc, line, &leaf_of(alloc, bytes.as_slice())?)
}

// The heir and the entries of a node as text.
fn entries_of(alloc: Global, node: &Node) -> Result<String, AllocError> {
    let mut text = format!(in alloc; "{}", node.heir)?;
    for entry in node.entries.as_slice() {
        let key = hex::encode(alloc, entry.key.as_slice())?;
        text.push_str(format!(in alloc; " {}:{}", entry.child, key.as_str())?.as_str())?;
    }
    Ok(text)
}

/// `node BYTES => HEIR CHILD:KEY CHILD:KEY ..`: a node as it is read; keys are in digits of sixteen.
pub fn node_text(alloc: Global, bytes: &[u8]) -> Result<String, AllocError> {
    match read_node(alloc, bytes) {
        Ok(node) => entries_of(alloc, &node),
        Err(e) => format!(in alloc; "{e:?}"),
    }
}

/// The same written again; what isn't one stays.
pub fn node_again(alloc: Global, bytes: &[u8]) -> Result<Blob, AllocError> {
    let Ok(node) = read_node(alloc, bytes) else {
        return Blob::from_slice(alloc, bytes);
    };
    let mut into = Blob::new(alloc);
    write_node(&node, &mut into)?;
    Ok(into)
}

// Why bytes are no such page.
fn refusal(alloc: Global, node: bool, bytes: &[u8]) -> Result<String, AllocError> {
    let read = if node {
        read_node(alloc, bytes).err()
    } else {
        read_leaf(alloc, bytes).err()
    };
    format!(in alloc; "{read:?}")
}

/// `no_page leaf|node BYTES`: bytes that are no such page.
pub fn is_page(alloc: Global, line: &mut Line) -> Result<(), Wrong> {
    let node = line.is_second("leaf", "node")?;
    let bytes = line.bytes()?;
    line.is_same("Some(Bad)", refusal(alloc, node, bytes.as_slice())?)
}

// The key of a page's record.
fn key_of(alloc: Global, id: u64) -> Result<Blob, AllocError> {
    let mut into = Blob::new(alloc);
    page_key(id, &mut into)?;
    Ok(into)
}

/// `page_key ID => BYTES`: the key of a page's record.
pub fn is_key(alloc: Global, line: &mut Line) -> Result<(), Wrong> {
    let id = line.number()?;
    let wanted = line.wanted()?;
    line.told(&wanted, key_of(alloc, id)?.as_slice())
}

/// `page_id BYTES => ID`: the page that a key names.
pub fn id_text(alloc: Global, key: &[u8]) -> Result<String, AllocError> {
    format!(in alloc; "{:?}", page_id(key))
}
