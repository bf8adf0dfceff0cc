//! Places that are found in a tree.
ghost use Rattle.std.specs.Prelude.{◌≡◌, ◌+◌, None, IfOk, OnOk};
ghost use Rattle.tc_space.specs.Changes.{inside};
ghost use Rattle.tc_space.specs.Refusals.{Blames};
ghost use Rattle.bt_tree.specs.Meaning.{AnswersPairs, IsOpen};
ghost use Rattle.bt_cursor.specs.Places.{AsksFew, Looks, end_first, end_last, ends_above, ends_before, last_number, value_at};

use crate::takers::{End, Ends, Last};
use bt_order::Above;
use bt_tree::Tree;
use std::alloc::Global;
use tc_base::{Blob, Cut, Order, Steps};
use tc_space::{RecErr, Records};

/// The number of the last value of a key, None where it isn't held.
pub(crate) fn last_of<R: Records, O: Order>(
    tree: &mut Tree<R, O>,
    space: &mut R::S,
    key: &[u8],
) -> Result<Option<u64>, RecErr>
    requires { IsOpen R.S.Space R.Records O.Order tree.old space.old }
    ensures value { IfOk result (AnswersPairs R.S.Space R.Records O.Order (last_number key.now) tree.old space.old) }
    ensures looks { Looks R.S.Space R.Records O.Order tree.old.height tree.old tree.new space.old space.new }
    ensures cause { Blames R.S.Space result space.old space.new }
{
    let mut steps: Steps<R> = Steps::new();
    let mut last = Last { number: 0 };
    if !tree.show(space, key, &mut last, &mut steps)? {
        return Ok(None);
    }
    Ok(Some(last.number))
}

/// The value of a number of a key.
pub(crate) fn nth_of<R: Records, O: Order>(
    tree: &mut Tree<R, O>,
    space: &mut R::S,
    key: &[u8],
    number: u64,
) -> Result<Option<Blob>, RecErr>
    requires { IsOpen R.S.Space R.Records O.Order tree.old space.old }
    ensures value { IfOk result (AnswersPairs R.S.Space R.Records O.Order (value_at key.now number) tree.old space.old) }
    ensures looks { Looks R.S.Space R.Records O.Order tree.old.height tree.old tree.new space.old space.new }
    ensures cause { Blames R.S.Space result space.old space.new }
{
    let mut steps: Steps<R> = Steps::new();
    tree.nth_value(space, key, number, &mut steps)
}

fn ends(alloc: Global) -> Ends
    ensures { result.found ≡ None }
{
    Ends { alloc, found: None }
}

/// The first key of a stretch, with the number of its last value.
pub(crate) fn first_in<R: Records, O: Order, C: Cut<O>>(
    alloc: Global,
    tree: &mut Tree<R, O>,
    space: &mut R::S,
    cut: &C,
) -> Result<Option<End>, RecErr>
    requires { IsOpen R.S.Space R.Records O.Order tree.old space.old }
    ensures value { IfOk result (AnswersPairs R.S.Space R.Records O.Order (λ ps. end_first (inside (C.side_of cut.now) ps)) tree.old space.old) }
    ensures looks { Looks R.S.Space R.Records O.Order (tree.old.height + tree.old.head.pairs) tree.old tree.new space.old space.new }
    ensures few { OnOk result (AsksFew R.S.Space R.Records O.Order (tree.old.height + 2) tree.old tree.new space.old) }
    ensures cause { Blames R.S.Space result space.old space.new }
{
    let mut steps: Steps<R> = Steps::new();
    let mut found = ends(alloc);
    tree.visit(space, cut, &mut found, &mut steps)?;
    Ok(found.found)
}

/// The first key above one, with the number of its last value.
pub(crate) fn above<R: Records, O: Order>(
    alloc: Global,
    tree: &mut Tree<R, O>,
    space: &mut R::S,
    key: &[u8],
) -> Result<Option<End>, RecErr>
    requires { IsOpen R.S.Space R.Records O.Order tree.old space.old }
    ensures value { IfOk result (AnswersPairs R.S.Space R.Records O.Order (ends_above O.cmp key.now) tree.old space.old) }
    ensures looks { Looks R.S.Space R.Records O.Order (tree.old.height + tree.old.head.pairs) tree.old tree.new space.old space.new }
    ensures few { OnOk result (AsksFew R.S.Space R.Records O.Order (tree.old.height + 2) tree.old tree.new space.old) }
    ensures cause { Blames R.S.Space result space.old space.new }
{
    first_in(alloc, tree, space, &Above { key })
}

/// The last key below one.
pub(crate) fn below<R: Records, O: Order>(
    alloc: Global,
    tree: &mut Tree<R, O>,
    space: &mut R::S,
    key: &[u8],
) -> Result<Option<End>, RecErr>
    requires { IsOpen R.S.Space R.Records O.Order tree.old space.old }
    ensures value { IfOk result (AnswersPairs R.S.Space R.Records O.Order (ends_before O.cmp key.now) tree.old space.old) }
    ensures looks { Looks R.S.Space R.Records O.Order (tree.old.height + 1) tree.old tree.new space.old space.new }
    ensures cause { Blames R.S.Space result space.old space.new }
{
    let mut steps: Steps<R> = Steps::new();
    let mut found = ends(alloc);
    let _held = tree.show_before(space, key, &mut found, &mut steps)?;
    Ok(found.found)
}

/// The first key of all.
pub(crate) fn first_of<R: Records, O: Order>(
    alloc: Global,
    tree: &mut Tree<R, O>,
    space: &mut R::S,
) -> Result<Option<End>, RecErr>
    requires { IsOpen R.S.Space R.Records O.Order tree.old space.old }
    ensures value { IfOk result (AnswersPairs R.S.Space R.Records O.Order end_first tree.old space.old) }
    ensures looks { Looks R.S.Space R.Records O.Order 1 tree.old tree.new space.old space.new }
    ensures cause { Blames R.S.Space result space.old space.new }
{
    let mut steps: Steps<R> = Steps::new();
    let mut found = ends(alloc);
    let _held = tree.show_first(space, &mut found, &mut steps)?;
    Ok(found.found)
}

/// The last key of all.
pub(crate) fn end_of<R: Records, O: Order>(
    alloc: Global,
    tree: &mut Tree<R, O>,
    space: &mut R::S,
) -> Result<Option<End>, RecErr>
    requires { IsOpen R.S.Space R.Records O.Order tree.old space.old }
    ensures value { IfOk result (AnswersPairs R.S.Space R.Records O.Order end_last tree.old space.old) }
    ensures looks { Looks R.S.Space R.Records O.Order 1 tree.old tree.new space.old space.new }
    ensures cause { Blames R.S.Space result space.old space.new }
{
    let mut steps: Steps<R> = Steps::new();
    let mut found = ends(alloc);
    let _held = tree.show_last(space, &mut found, &mut steps)?;
    Ok(found.found)
}
