//! Pages read from bytes.
ghost use Rattle.std.specs.Prelude.{◌≡◌, ◌<◌, ◌++◌, List, length, IfOk, IsErrOf};
ghost use Rattle.std.specs.List.{AllByRecursion, flat_map};
ghost use Rattle.bt_page.specs.Pages.{value_bytes, item_bytes, entry_bytes, leaf_bytes, node_bytes, SizeFits, ItemFits, EntryFits, LeafFits, NodeFits};
ghost use Rattle.bt_page.specs.Spelled.{AtFront, NoValuesAt, NoneAt, Spells, ValuesAt};
ghost use Rattle.bt_page.specs.declared.page.NodeEntry.{NodeEntry as the_entry};
ghost use Rattle.bt_page.specs.declared.page.Item.{Item as the_item};
ghost use Rattle.bt_page.specs.declared.page.Leaf.{Leaf as the_leaf};
ghost use Rattle.bt_page.specs.declared.page.Node.{Node as the_node};

use crate::page::{Item, Leaf, Node, NodeEntry};
use std::alloc::{AllocError, Global};
use tc_base::{Blob, Blobs, Seq, read_number, read_three, read_two};
use thiserror::Error;

/// Why no page is read.
#[derive(Clone, Copy, Debug, PartialEq, Eq, Error)]
pub enum PageErr {
    /// They are the bytes of no such page.
    #[error("not a page")]
    Bad,
    /// There was no memory for what the page holds.
    #[error("out of memory")]
    Memory,
}

impl From<AllocError> for PageErr {
    ghost use Rattle.bt_page.specs.declared.reading.PageErr.TheVariants.{Memory as is_memory};

    ghost from_gives = { λ _ e. e ≡ is_memory };

    fn from(_: AllocError) -> Self {
        PageErr::Memory
    }
}

// A copy of so many bytes, and those behind them.
fn text_of(alloc: Global, n: u64, bytes: &[u8]) -> Result<(Blob, &[u8]), PageErr>
    ensures long { IfOk result (λ x. length x.0 ≡ n) }
    ensures found { IfOk result (λ x. bytes.now ≡ x.0 ++ x.1.now) }
    ensures bad { IsErrOf result PageErr.Bad → length bytes.now < n }
{
    if (bytes.len() as u64) < n {
        return Err(PageErr::Bad);
    }
    let (front, rest) = bytes.split_at(n as usize);
    Ok((Blob::from_slice(alloc, front)?, rest))
}

fn value_of(alloc: Global, bytes: &[u8]) -> Result<(Blob, &[u8]), PageErr>
    ensures found { IfOk result (λ x. AtFront SizeFits value_bytes bytes.now x.0 x.1.now) }
    ensures bad { IsErrOf result PageErr.Bad → NoneAt SizeFits value_bytes bytes.now }
{
    let Ok((size, rest)) = read_number(bytes) else {
        return Err(PageErr::Bad);
    };
    text_of(alloc, size, rest)
}

// So many values, behind those that are there, and the bytes behind them.
fn values_of<'a>(
    alloc: Global,
    n: u64,
    bytes: &'a [u8],
    values: &mut Blobs,
) -> Result<&'a [u8], PageErr>
    ensures found { IfOk result (λ rest. ValuesAt n bytes.now values.old values.new rest.now) }
    ensures bad { IsErrOf result PageErr.Bad → NoValuesAt n bytes.now }
{
    let mut rest = bytes;
    for i in 0..n {
        let (value, behind) = value_of(alloc, rest)?;
        values.push(value)?;
        rest = behind;
    }
    Ok(rest)
}

fn item_of(alloc: Global, bytes: &[u8]) -> Result<(Item, &[u8]), PageErr>
    ensures found { IfOk result (λ x. AtFront ItemFits item_bytes bytes.now x.0 x.1.now) }
    ensures bad { IsErrOf result PageErr.Bad → NoneAt ItemFits item_bytes bytes.now }
{
    let Ok((key_size, size, more, rest)) = read_three(bytes) else {
        return Err(PageErr::Bad);
    };
    let (key, rest) = text_of(alloc, key_size, rest)?;
    let (first, rest) = text_of(alloc, size, rest)?;
    let mut values = Blobs::new(alloc);
    values.push(first)?;
    let rest = values_of(alloc, more, rest, &mut values)?;
    Ok((Item { key, values }, rest))
}

// Items up to the end of the bytes.
fn items_of(alloc: Global, bytes: &[u8]) -> Result<Seq<Item>, PageErr>
    ensures found { IfOk result (λ items. AllByRecursion ItemFits items × (bytes.now ≡ flat_map item_bytes items)) }
    ensures bad { IsErrOf result PageErr.Bad → (items : List the_item) → AllByRecursion ItemFits items → bytes.now ≡ flat_map item_bytes items → ⊥ }
{
    let mut items = Seq::new(alloc);
    let mut rest = bytes;
    while !rest.is_empty() {
        let (item, behind) = item_of(alloc, rest)?;
        items.push(item)?;
        rest = behind;
    }
    Ok(items)
}

/// The leaf that the bytes are, the last byte included. Bad exactly where they are no leaf's; Memory where its keys and values found no room. Whether its links
/// name leaves, and how its keys stand to one another, isn't looked at.
pub fn read_leaf(alloc: Global, bytes: &[u8]) -> Result<Leaf, PageErr>
    ensures found { IfOk result (λ l. Spells LeafFits leaf_bytes bytes.now l) }
    ensures bad { IsErrOf result PageErr.Bad → (l : the_leaf) → Spells LeafFits leaf_bytes bytes.now l → ⊥ }
    ensures only { IfOk result (λ l. (m : the_leaf) → Spells LeafFits leaf_bytes bytes.now m → m ≡ l) }
{
    let Ok((prev, next, rest)) = read_two(bytes) else {
        return Err(PageErr::Bad);
    };
    let items = items_of(alloc, rest)?;
    Ok(Leaf { prev, next, items })
}

fn entry_of(alloc: Global, bytes: &[u8]) -> Result<(NodeEntry, &[u8]), PageErr>
    ensures found { IfOk result (λ x. AtFront EntryFits entry_bytes bytes.now x.0 x.1.now) }
    ensures bad { IsErrOf result PageErr.Bad → NoneAt EntryFits entry_bytes bytes.now }
{
    let Ok((child, size, rest)) = read_two(bytes) else {
        return Err(PageErr::Bad);
    };
    let (key, rest) = text_of(alloc, size, rest)?;
    Ok((NodeEntry { child, key }, rest))
}

// Entries up to the end of the bytes.
fn entries_of(alloc: Global, bytes: &[u8]) -> Result<Seq<NodeEntry>, PageErr>
    ensures found { IfOk result (λ entries. AllByRecursion EntryFits entries × (bytes.now ≡ flat_map entry_bytes entries)) }
    ensures bad { IsErrOf result PageErr.Bad → (entries : List the_entry) → AllByRecursion EntryFits entries → bytes.now ≡ flat_map entry_bytes entries → ⊥ }
{
    let mut entries = Seq::new(alloc);
    let mut rest = bytes;
    while !rest.is_empty() {
        let (entry, behind) = entry_of(alloc, rest)?;
        entries.push(entry)?;
        rest = behind;
    }
    Ok(entries)
}

/// The node that the bytes are, the last byte included. Bad exactly where they are no node's; Memory where its keys found no room. Whether its ids name
/// pages, and how its keys stand to one another, isn't looked at.
pub fn read_node(alloc: Global, bytes: &[u8]) -> Result<Node, PageErr>
    ensures found { IfOk result (λ n. Spells NodeFits node_bytes bytes.now n) }
    ensures bad { IsErrOf result PageErr.Bad → (n : the_node) → Spells NodeFits node_bytes bytes.now n → ⊥ }
    ensures only { IfOk result (λ n. (m : the_node) → Spells NodeFits node_bytes bytes.now m → m ≡ n) }
{
    let Ok((heir, rest)) = read_number(bytes) else {
        return Err(PageErr::Bad);
    };
    let entries = entries_of(alloc, rest)?;
    Ok(Node { heir, entries })
}
