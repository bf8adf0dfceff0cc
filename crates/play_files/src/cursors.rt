//! Lines on a cursor of a tree, and on items that are sought in it.
ghost use Rattle.std.specs.Prelude.{◌≡◌, true};

use crate::looks::{are_pairs, usable};
use crate::refusals::refused;
use bt_cursor::Cursor;
use bt_order::Stretch;
use bt_page::Item;
use bt_tree::{Items, Tree};
use play_text::{Line, Wrong};
use std::alloc::{AllocError, Global};
use tc_base::{Blob, Order, Pair, Pairs, Steps};
use tc_memstores::OneFile;
use tc_space::{RecErr, Records};

// Whether a line ends in `yes`, else `no`.
fn is_yes(line: &mut Line) -> Result<bool, Wrong> {
    line.is_second("no", "yes")
}

// The pair at the cursor is that of a line, `#KEY #VALUE`, or none; and the call that moved it there said so.
fn stands<R: Records<S = OneFile>, O: Order>(
    alloc: Global,
    tree: &mut Tree<R, O>,
    space: &mut OneFile,
    cursor: &mut Cursor,
    moved: Option<bool>,
    line: &mut Line,
) -> Result<(), Wrong> {
    usable(space)?;
    let mut pairs = Pairs::new(alloc);
    let found = cursor.pair(tree, space).map_err(refused)?;
    let there = found.is_some();
    if let Some(pair) = found {
        pairs.push(pair)?;
    }
    if let Some(moved) = moved {
        line.is_so(moved == there)?;
    }
    are_pairs(alloc, line, &pairs)
}

// A call that moves the cursor: `jump KEY`, `to_first`, `to_last`, `to_next`, `to_prev => #KEY #VALUE`, nothing where it is nowhere then.
fn moves<R: Records<S = OneFile>, O: Order>(
    tree: &mut Tree<R, O>,
    space: &mut OneFile,
    cursor: &mut Cursor,
    what: &str,
    key: &[u8],
) -> Result<bool, RecErr>
    requires { space.old.sound ≡ true }
{
    match what {
        "jump" => cursor.jump(tree, space, key),
        "to_first" => cursor.first(tree, space),
        "to_last" => cursor.last(tree, space),
        "to_next" => cursor.next(tree, space),
        _ => cursor.prev(tree, space),
    }
}

// A call that changes the value at the cursor: `set VALUE => yes|no` and `cut => yes|no`.
fn changes<R: Records<S = OneFile>, O: Order>(
    tree: &mut Tree<R, O>,
    space: &mut OneFile,
    cursor: &mut Cursor,
    what: &str,
    value: &[u8],
) -> Result<bool, RecErr>
    requires { space.old.sound ≡ true }
{
    match what {
        "set" => cursor.put(tree, space, value),
        _ => cursor.out(tree, space),
    }
}

// A line on the cursor. Besides those: `at => #KEY #VALUE`.
fn on_cursor<R: Records<S = OneFile>, O: Order>(
    alloc: Global,
    tree: &mut Tree<R, O>,
    space: &mut OneFile,
    cursor: &mut Cursor,
    what: &str,
    line: &mut Line,
) -> Result<(), Wrong> {
    usable(space)?;
    let given = line.given()?;
    match what {
        "at" => stands(alloc, tree, space, cursor, None, line),
        "set" | "cut" => {
            let yes = is_yes(line)?;
            let done = changes(tree, space, cursor, what, given.as_slice()).map_err(refused)?;
            line.is_so(done == yes)
        }
        _ => {
            let moved = moves(tree, space, cursor, what, given.as_slice()).map_err(refused)?;
            stands(alloc, tree, space, cursor, Some(moved), line)
        }
    }
}

// The pairs of items.
fn add_item(alloc: Global, item: &Item, pairs: &mut Pairs) -> Result<(), AllocError> {
    for value in item.values.as_slice() {
        pairs.push(Pair {
            key: Blob::from_slice(alloc, item.key.as_slice())?,
            value: Blob::from_slice(alloc, value.as_slice())?,
        })?;
    }
    Ok(())
}

fn pairs_of(alloc: Global, items: &Items) -> Result<Pairs, AllocError> {
    let mut pairs = Pairs::new(alloc);
    for item in items.as_slice() {
        add_item(alloc, item, &mut pairs)?;
    }
    Ok(pairs)
}

fn as_items(alloc: Global, item: Option<Item>) -> Result<Items, AllocError> {
    let mut items = Items::new(alloc);
    if let Some(item) = item {
        items.push(item)?;
    }
    Ok(items)
}

// Items that are sought: `seek KEY => #KEY #VALUE ..` from a key on, `behind KEY` from the next one on, those of one leaf.
fn items_sought<R: Records<S = OneFile>, O: Order>(
    tree: &mut Tree<R, O>,
    space: &mut OneFile,
    what: &str,
    key: &[u8],
) -> Result<Items, RecErr>
    requires { space.old.sound ≡ true }
{
    let mut steps: Steps<()> = Steps::new();
    let stretch = Stretch {
        first: key,
        end: None,
    };
    match what {
        "seek" => tree.seek(space, &stretch, &mut steps),
        _ => tree.items_behind(space, key, &mut steps),
    }
}

// An item that is sought: `before KEY => #KEY #VALUE ..` the last one below a key; `first_item`, `last_item`.
fn item_sought<R: Records<S = OneFile>, O: Order>(
    tree: &mut Tree<R, O>,
    space: &mut OneFile,
    what: &str,
    key: &[u8],
) -> Result<Option<Item>, RecErr>
    requires { space.old.sound ≡ true }
{
    let mut steps: Steps<()> = Steps::new();
    match what {
        "before" => tree.before(space, key, &mut steps),
        "first_item" => tree.first(space),
        _ => tree.last(space),
    }
}

// Items that are sought, or the one that is.
fn sought<R: Records<S = OneFile>, O: Order>(
    alloc: Global,
    tree: &mut Tree<R, O>,
    space: &mut OneFile,
    what: &str,
    key: &[u8],
) -> Result<Items, Wrong> {
    usable(space)?;
    match what {
        "seek" | "behind" => items_sought(tree, space, what, key).map_err(refused),
        _ => {
            let item = item_sought(tree, space, what, key).map_err(refused)?;
            Ok(as_items(alloc, item)?)
        }
    }
}

// A value at a place among those of a key: `value_at KEY PLACE VALUE => yes|no`, and `drop_at KEY PLACE => yes|no`.
fn at_place<R: Records<S = OneFile>, O: Order>(
    tree: &mut Tree<R, O>,
    space: &mut OneFile,
    what: &str,
    line: &mut Line,
) -> Result<(), Wrong> {
    usable(space)?;
    let place = line.number()?;
    let key = line.bytes_up_to(" : ")?;
    let value = line.given()?;
    let yes = is_yes(line)?;
    let value = if matches!(what, "value_at") {
        Some(value.as_slice())
    } else {
        None
    };
    let done = tree
        .set_at(space, key.as_slice(), place, value)
        .map_err(refused)?;
    line.is_so(done == yes)
}

/// Whether a line is one on a cursor or on items.
pub fn is_of_cursors(what: &str) -> bool {
    matches!(
        what,
        "to_first"
            | "to_last"
            | "to_next"
            | "to_prev"
            | "jump"
            | "at"
            | "set"
            | "cut"
            | "seek"
            | "behind"
            | "before"
            | "first_item"
            | "last_item"
            | "value_at"
            | "drop_at"
    )
}

/// Plays a line on a cursor or on items.
pub fn play_cursor<R: Records<S = OneFile>, O: Order>(
    alloc: Global,
    tree: &mut Tree<R, O>,
    space: &mut OneFile,
    cursor: &mut Cursor,
    what: &str,
    line: &mut Line,
) -> Result<(), Wrong> {
    match what {
        "seek" | "behind" | "before" | "first_item" | "last_item" => {
            let key = line.given()?;
            let items = sought(alloc, tree, space, what, key.as_slice())?;
            are_pairs(alloc, line, &pairs_of(alloc, &items)?)
        }
        "value_at" | "drop_at" => at_place(tree, space, what, line),
        _ => on_cursor(alloc, tree, space, cursor, what, line),
    }
}
