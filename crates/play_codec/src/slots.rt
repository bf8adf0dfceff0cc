//! Pages that are read and changed as their bytes.
ghost use Rattle.std.specs.Prelude.{◌≡◌};

use bt_page::PageErr;
use bt_slots::{SlottedLeaf, SlottedNode};
use play_text::{Line, Why, Wrong};
use std::alloc::{AllocError, Global};
use tc_base::Blob;

/// The leaf of a case.
#[derive(Drop)]
pub struct SlotsOf {
    alloc: Global,
    leaf: Option<SlottedLeaf>,
    // it was changed, and no line has looked at its bytes since
    is_changed: bool,
}

// The leaf, taken out.
fn taken(held: &mut Option<SlottedLeaf>) -> Result<SlottedLeaf, Wrong> {
    match held.take() {
        Some(leaf) => Ok(leaf),
        None => Err(Wrong::Unread),
    }
}

// A leaf with an item more at a place.
fn item_added(
    alloc: Global,
    leaf: SlottedLeaf,
    place: usize,
    key: &[u8],
    value: &[u8],
) -> Result<SlottedLeaf, Wrong> {
    if place > leaf.len() {
        return Err(Wrong::Unread);
    }
    Ok(leaf.with_item(alloc, place, key, value)?)
}

fn with_item(
    alloc: Global,
    held: &mut Option<SlottedLeaf>,
    line: &mut Line,
) -> Result<SlottedLeaf, Wrong> {
    let place = line.small()? as usize;
    let key = line.key()?;
    let value = line.bytes()?;
    item_added(alloc, taken(held)?, place, key.as_slice(), value.as_slice())
}

// A leaf with another first value of an item, or with one more behind the others.
fn value_added(
    alloc: Global,
    leaf: SlottedLeaf,
    place: usize,
    value: &[u8],
    first: bool,
) -> Result<SlottedLeaf, Wrong> {
    if place >= leaf.len() {
        return Err(Wrong::Unread);
    }
    if first {
        return Ok(leaf.with_first(alloc, place, value)?);
    }
    Ok(leaf.with_value(alloc, place, value)?)
}

fn with_value(
    alloc: Global,
    held: &mut Option<SlottedLeaf>,
    first: bool,
    line: &mut Line,
) -> Result<SlottedLeaf, Wrong> {
    let place = line.small()? as usize;
    let value = line.bytes()?;
    value_added(alloc, taken(held)?, place, value.as_slice(), first)
}

// A leaf without an item.
fn item_cut(alloc: Global, leaf: SlottedLeaf, place: usize) -> Result<SlottedLeaf, Wrong> {
    if place >= leaf.len() {
        return Err(Wrong::Unread);
    }
    Ok(leaf.without_item(alloc, place)?)
}

// A leaf without the first value of an item that has more.
fn value_cut(alloc: Global, leaf: SlottedLeaf, place: usize) -> Result<SlottedLeaf, Wrong> {
    if place >= leaf.len() {
        return Err(Wrong::Unread);
    }
    if leaf.count(place) < 2 {
        return Err(Wrong::Unread);
    }
    Ok(leaf.without_first(alloc, place)?)
}

fn without(
    alloc: Global,
    held: &mut Option<SlottedLeaf>,
    item: bool,
    line: &mut Line,
) -> Result<SlottedLeaf, Wrong> {
    let place = line.small()? as usize;
    let leaf = taken(held)?;
    if item {
        return item_cut(alloc, leaf, place);
    }
    value_cut(alloc, leaf, place)
}

// The items of a leaf from one place to another, linked anew.
fn section(
    alloc: Global,
    held: &Option<SlottedLeaf>,
    line: &mut Line,
) -> Result<SlottedLeaf, Wrong> {
    let Some(leaf) = held else {
        return Err(Wrong::Unread);
    };
    let from = line.small()? as usize;
    let to = line.small()? as usize;
    let prev = line.number()?;
    let next = line.number()?;
    if from > to || to > leaf.len() {
        return Err(Wrong::Unread);
    }
    Ok(leaf.section(alloc, from, to, prev, next)?)
}

// A leaf linked anew.
fn linked(
    alloc: Global,
    held: &Option<SlottedLeaf>,
    prev: bool,
    line: &mut Line,
) -> Result<SlottedLeaf, Wrong> {
    let Some(leaf) = held else {
        return Err(Wrong::Unread);
    };
    let link = line.number()?;
    if prev {
        return Ok(leaf.with_prev(alloc, link)?);
    }
    Ok(leaf.with_next(alloc, link)?)
}

// The leaf changed as a line says.
fn changed(
    alloc: Global,
    held: &mut Option<SlottedLeaf>,
    line: &mut Line,
) -> Result<SlottedLeaf, Wrong> {
    match line.word() {
        "with_item" => with_item(alloc, held, line),
        "with_first" => with_value(alloc, held, true, line),
        "with_value" => with_value(alloc, held, false, line),
        "without_item" => without(alloc, held, true, line),
        "without_first" => without(alloc, held, false, line),
        "section" => section(alloc, held, line),
        "with_prev" => linked(alloc, held, true, line),
        "with_next" => linked(alloc, held, false, line),
        _ => Err(Wrong::Unread),
    }
}

// A leaf that is read has its bytes, also as a copy and once it was read into items.
fn is_itself(alloc: Global, leaf: &SlottedLeaf, bytes: &[u8]) -> Result<bool, AllocError> {
    let own = leaf.as_slice();
    let items = leaf.to_leaf(alloc)?;
    let again = SlottedLeaf::of(alloc, &items)?;
    let copy = leaf.copy(alloc)?;
    Ok(own == bytes && again.as_slice() == bytes && copy.as_slice() == bytes)
}

// Bytes are no leaf.
fn is_none(line: &mut Line, read: Result<SlottedLeaf, PageErr>) -> Result<(), Wrong> {
    line.compares();
    match read {
        Ok(_) => Err(Wrong::Not(Why::Leaf)),
        Err(PageErr::Bad) => Ok(()),
        Err(PageErr::Memory) => Err(Wrong::Memory),
    }
}

// The links of a leaf, how many items it has, and how many bytes they take.
fn links_of(alloc: Global, leaf: &SlottedLeaf) -> Result<String, AllocError> {
    format!(in alloc;
        "{} {} {} {}",
        leaf.prev(),
        leaf.next(),
        leaf.len(),
        leaf.items_len()
    )
}

// Looks at the item at a place: `item PLACE COUNT KEY = FIRST`.
fn is_item(leaf: &SlottedLeaf, line: &mut Line) -> Result<(), Wrong> {
    let place = line.small()? as usize;
    let count = line.number()?;
    let key = line.key()?;
    if place >= leaf.len() {
        return Err(Wrong::Unread);
    }
    if leaf.count(place) != count {
        return Err(Wrong::Not(Why::AnotherCount));
    }
    line.told(&key, leaf.key(place))?;
    line.is_bytes(leaf.first_value(place))
}

impl SlotsOf {
    pub fn new(alloc: Global) -> SlotsOf {
        SlotsOf {
            alloc,
            leaf: None,
            is_changed: false,
        }
    }

    /// Each change was looked at: the leaf's bytes were, since it was changed.
    pub fn is_told(&self) -> Result<(), Wrong> {
        if self.is_changed {
            return Err(Wrong::Not(Why::AnotherChange));
        }
        Ok(())
    }

    // Keeps a leaf that was read from its bytes.
    fn keep(&mut self, read: Result<SlottedLeaf, PageErr>, bytes: &[u8]) -> Result<(), Wrong> {
        let Ok(leaf) = read else {
            return Err(Wrong::Not(Why::NoLeaf));
        };
        if !is_itself(self.alloc, &leaf, bytes)? {
            return Err(Wrong::Not(Why::OtherBytes));
        }
        self.leaf = Some(leaf);
        Ok(())
    }

    // Takes a leaf; `slots none BYTES` are bytes of none.
    fn take(&mut self, line: &mut Line) -> Result<(), Wrong> {
        self.is_told()?;
        let none = line.is_second("leaf", "none")?;
        let bytes = line.bytes()?;
        let read = SlottedLeaf::read(self.alloc, Blob::from_slice(self.alloc, bytes.as_slice())?);
        if none {
            return is_none(line, read);
        }
        self.keep(read, bytes.as_slice())
    }

    // Changes the leaf.
    fn change(&mut self, line: &mut Line) -> Result<(), Wrong> {
        let leaf = changed(self.alloc, &mut self.leaf, line)?;
        self.leaf = Some(leaf);
        self.is_changed = true;
        Ok(())
    }

    // Looks at the leaf.
    fn look(&self, what: &str, line: &mut Line) -> Result<(), Wrong> {
        let Some(leaf) = &self.leaf else {
            return Err(Wrong::Unread);
        };
        match what {
            "now" => line.is_bytes(leaf.as_slice()),
            "links" => line.is_text(links_of(self.alloc, leaf)?),
            _ => is_item(leaf, line),
        }
    }

    /// Plays a line.
    pub fn play(&mut self, what: &str, line: &mut Line) -> Result<(), Wrong> {
        match what {
            "slots" => self.take(line),
            "change" => self.change(line),
            _ => {
                self.look(what, line)?;
                self.is_changed = self.is_changed && !matches!(what, "now");
                Ok(())
            }
        }
    }
}

// A node as text: its heir, then each page with its key in digits of sixteen.
fn text_of(alloc: Global, node: &SlottedNode) -> Result<String, AllocError> {
    let mut text = format!(in alloc; "{}", node.heir())?;
    for place in 0..node.len() {
        let key = hex::encode(alloc, node.key(place))?;
        text.push_str(format!(in alloc; " {}:{}", node.child(place), key.as_str())?.as_str())?;
    }
    Ok(text)
}

/// `slotted_node BYTES => HEIR CHILD:KEY ..`: a node as it is read from its bytes, or `Bad`.
pub fn slotted_text(alloc: Global, bytes: &[u8]) -> Result<String, AllocError> {
    match SlottedNode::read(alloc, Blob::from_slice(alloc, bytes)?) {
        Ok(node) => text_of(alloc, &node),
        Err(e) => format!(in alloc; "{e:?}"),
    }
}

// The bytes of a node that is read into entries.
fn again(alloc: Global, node: &SlottedNode) -> Result<Blob, AllocError> {
    let entries = node.to_node(alloc)?;
    let again = SlottedNode::of(alloc, &entries)?;
    Blob::from_slice(alloc, again.as_slice())
}

/// The same once it was read into entries; what isn't one stays.
pub fn slotted_again(alloc: Global, bytes: &[u8]) -> Result<Blob, AllocError> {
    match SlottedNode::read(alloc, Blob::from_slice(alloc, bytes)?) {
        Ok(node) => again(alloc, &node),
        Err(_) => Blob::from_slice(alloc, bytes),
    }
}
