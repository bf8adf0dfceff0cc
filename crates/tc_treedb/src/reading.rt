//! What is read of a tree, of either order.
ghost use Rattle.std.specs.Prelude.{length, option_map, map, IfOk, OnOk, IfSome};
ghost use Rattle.tc_base.specs.Lists.{keys, first};
ghost use Rattle.tc_space.specs.Refusals.{Blames};
ghost use Rattle.bt_tree.specs.Meaning.{AnswersPairs, IsOpen};
ghost use Rattle.tc_engine.specs.Changes.{first_of};
ghost use Rattle.tc_engine.specs.Rows.{Extends, item_row, text_rows};
ghost use Rattle.tc_treedb.specs.Reading.{AddsRows, AnswersHeld, LooksAt, bytes_in, keys_beginning, pairs_in, pairs_of};

use crate::listing::{given_back, taken_over};
use crate::takers::{FirstLen, FirstRow, KeyList, KeyRows, Lengths, PairRows};
use bt_order::{All, Stretch};
use bt_tree::Tree;
use std::alloc::Global;
use tc_base::{Cut, Keys, Order, Steps};
use tc_engine::Rows;
use tc_space::{RecErr, Records};

/// The length of the first value of a key.
pub(crate) fn first_len<R: Records, O: Order>(
    tree: &mut Tree<R, O>,
    space: &mut R::S,
    key: &[u8],
) -> Result<Option<u64>, RecErr>
    requires { IsOpen R.S.Space R.Records O.Order tree.old space.old }
    ensures value { IfOk result (AnswersPairs R.S.Space R.Records O.Order (λ ps. option_map length (first ps key.now)) tree.old space.old) }
    ensures looks { LooksAt R.S.Space R.Records O.Order tree.old tree.new space.old space.new }
    ensures cause { Blames R.S.Space result space.old space.new }
{
    let mut steps: Steps<R> = Steps::new();
    let mut found = FirstLen { len: 0 };
    if !tree.show(space, key, &mut found, &mut steps)? {
        return Ok(None);
    }
    Ok(Some(found.len))
}

/// The bytes of the pairs of a key, if they have 64 bits.
pub(crate) fn key_bytes<R: Records, O: Order>(
    tree: &mut Tree<R, O>,
    space: &mut R::S,
    key: &[u8],
) -> Result<Option<u64>, RecErr>
    requires { IsOpen R.S.Space R.Records O.Order tree.old space.old }
    ensures value { IfOk result (λ found. IfSome found (AnswersPairs R.S.Space R.Records O.Order (λ ps. bytes_in (pairs_of key.now ps)) tree.old space.old)) }
    ensures looks { LooksAt R.S.Space R.Records O.Order tree.old tree.new space.old space.new }
    ensures cause { Blames R.S.Space result space.old space.new }
{
    let mut steps: Steps<R> = Steps::new();
    let mut found = Lengths { bytes: Some(0) };
    let _held = tree.show(space, key, &mut found, &mut steps)?;
    Ok(found.bytes)
}

/// The bytes of all keys and values, the key with each value. More than 64 bits tell are answered as want of memory.
pub(crate) fn all_bytes<R: Records, O: Order>(
    tree: &mut Tree<R, O>,
    space: &mut R::S,
) -> Result<u64, RecErr>
    requires { IsOpen R.S.Space R.Records O.Order tree.old space.old }
    ensures value { IfOk result (AnswersPairs R.S.Space R.Records O.Order bytes_in tree.old space.old) }
    ensures looks { LooksAt R.S.Space R.Records O.Order tree.old tree.new space.old space.new }
    ensures cause { Blames R.S.Space result space.old space.new }
{
    let mut steps: Steps<R> = Steps::new();
    let mut found = Lengths { bytes: Some(0) };
    tree.visit(space, &All, &mut found, &mut steps)?;
    match found.bytes {
        Some(bytes) => Ok(bytes),
        None => Err(RecErr::Memory),
    }
}

/// The keys, each once, in order.
pub(crate) fn all_keys<R: Records, O: Order>(
    alloc: Global,
    tree: &mut Tree<R, O>,
    space: &mut R::S,
) -> Result<Keys, RecErr>
    requires { IsOpen R.S.Space R.Records O.Order tree.old space.old }
    ensures value { IfOk result (AnswersPairs R.S.Space R.Records O.Order keys tree.old space.old) }
    ensures looks { LooksAt R.S.Space R.Records O.Order tree.old tree.new space.old space.new }
    ensures cause { Blames R.S.Space result space.old space.new }
{
    let mut steps: Steps<R> = Steps::new();
    let mut found = KeyList {
        alloc,
        keys: Keys::new(alloc),
    };
    tree.visit(space, &All, &mut found, &mut steps)?;
    Ok(found.keys)
}

/// Adds the first value of a key as a row, with the key where that is wanted, and answers whether the key is held.
pub(crate) fn add_first<R: Records, O: Order>(
    alloc: Global,
    tree: &mut Tree<R, O>,
    space: &mut R::S,
    key: &[u8],
    with_key: bool,
    into: &mut Rows,
) -> Result<bool, RecErr>
    requires { IsOpen R.S.Space R.Records O.Order tree.old space.old }
    ensures added { IfOk result (λ held. AnswersHeld R.S.Space R.Records O.Order with_key key.now held tree.old space.old into.old into.new) }
    ensures front { Extends into.old into.new }
    ensures looks { LooksAt R.S.Space R.Records O.Order tree.old tree.new space.old space.new }
    ensures cause { Blames R.S.Space result space.old space.new }
{
    let mut steps: Steps<R> = Steps::new();
    let mut taker = FirstRow {
        rows: taken_over(alloc, into),
        with_key,
    };
    let held = tree.show(space, key, &mut taker, &mut steps);
    given_back(taker.rows, into);
    held
}

/// Adds a row each for a key and its values.
pub(crate) fn add_pairs<R: Records, O: Order>(
    alloc: Global,
    tree: &mut Tree<R, O>,
    space: &mut R::S,
    key: &[u8],
    into: &mut Rows,
) -> Result<(), RecErr>
    requires { IsOpen R.S.Space R.Records O.Order tree.old space.old }
    ensures rows { OnOk result (AddsRows R.S.Space R.Records O.Order (λ ps. text_rows (pairs_of key.now ps)) tree.old space.old into.old into.new) }
    ensures front { Extends into.old into.new }
    ensures looks { LooksAt R.S.Space R.Records O.Order tree.old tree.new space.old space.new }
    ensures cause { Blames R.S.Space result space.old space.new }
{
    let mut steps: Steps<R> = Steps::new();
    let mut taker = PairRows {
        rows: taken_over(alloc, into),
        left: None,
    };
    let held = tree.show(space, key, &mut taker, &mut steps);
    given_back(taker.rows, into);
    held?;
    Ok(())
}

/// Adds a row each for key and value of the pairs from a key on, before another where one is given, at most so many.
pub(crate) fn add_range<R: Records, O: Order>(
    alloc: Global,
    tree: &mut Tree<R, O>,
    space: &mut R::S,
    from: &[u8],
    to: Option<&[u8]>,
    most: Option<u64>,
    into: &mut Rows,
) -> Result<(), RecErr>
    requires { IsOpen R.S.Space R.Records O.Order tree.old space.old }
    ensures rows { OnOk result (AddsRows R.S.Space R.Records O.Order (λ ps. text_rows (pairs_in O.cmp from.now (option_map (λ k. k.now) to.entry) most ps)) tree.old space.old into.old into.new) }
    ensures front { Extends into.old into.new }
    ensures looks { LooksAt R.S.Space R.Records O.Order tree.old tree.new space.old space.new }
    ensures cause { Blames R.S.Space result space.old space.new }
{
    let mut steps: Steps<R> = Steps::new();
    let cut = Stretch {
        first: from,
        end: to,
    };
    let mut taker = PairRows {
        rows: taken_over(alloc, into),
        left: most,
    };
    let done = tree.visit(space, &cut, &mut taker, &mut steps);
    given_back(taker.rows, into);
    done
}

/// Adds the keys of a stretch that begin with a prefix as rows, in order, at most so many. All that begin with it are in the stretch.
pub(crate) fn add_keys<R: Records, O: Order, C: Cut<O>>(
    alloc: Global,
    tree: &mut Tree<R, O>,
    space: &mut R::S,
    cut: &C,
    prefix: &[u8],
    most: Option<u64>,
    into: &mut Rows,
) -> Result<(), RecErr>
    requires ready { IsOpen R.S.Space R.Records O.Order tree.old space.old }
    requires inside { HasAllOf prefix.now (C.side_of cut.now) }
    ensures rows { OnOk result (AddsRows R.S.Space R.Records O.Order (λ ps. map item_row (first_of most (keys_beginning prefix.now ps))) tree.old space.old into.old into.new) }
    ensures front { Extends into.old into.new }
    ensures looks { LooksAt R.S.Space R.Records O.Order tree.old tree.new space.old space.new }
    ensures cause { Blames R.S.Space result space.old space.new }
{
    let mut steps: Steps<R> = Steps::new();
    let mut taker = KeyRows {
        rows: taken_over(alloc, into),
        prefix,
        left: most,
    };
    let done = tree.visit(space, cut, &mut taker, &mut steps);
    given_back(taker.rows, into);
    done
}

ghost use Rattle.tc_treedb.specs.Reading.{HasAllOf};
