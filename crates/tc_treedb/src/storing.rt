//! Values given to keys, and values taken out, in a tree of either order.
#![tactic(auto, using(tc_space::specs::Frames::keeps_refl, tc_space::specs::Frames::keeps_then, tc_space::specs::Frames::reads_refl, tc_space::specs::Stores::ready_reads))]

ghost use Rattle.std.specs.Prelude.{◌≡◌, ◌≤◌, ◌↔◌, ◌++◌, ◌+◌, [], length, unwrap_or, option_map, is_some, IfOk, IfSome, IsTrue};
ghost use Rattle.tc_base.specs.declared.kind.Mode.TheVariants.{Cat, Keep, Over};
ghost use Rattle.tc_base.specs.Lists.{first};
ghost use Rattle.tc_space.specs.Frames.{Keeps};
ghost use Rattle.tc_space.specs.Refusals.{OnFault};
ghost use Rattle.bt_cache.specs.Effects.{OnFull};
ghost use Rattle.bt_tree.specs.Meaning.{AnswersPairs, IsOpen, RefusesPairs};
ghost use Rattle.tc_treedb.specs.Changing.{FillsFor, StaysGrown, StaysLess, Takes, TellsLengths, put_in, pushed_in, stored_in, taken_in};

use crate::reading::first_len;
use bt_tree::Tree;
use std::alloc::{AllocError, Global};
use tc_base::{Blob, Mode, Order, Steps, VALUE_MOST};
use tc_space::{RecErr, Records};

/// The length of the first value that a key had, and of the one that it was given.
#[derive(Drop)]
pub(crate) struct Change {
    pub(crate) old: Option<u64>,
    pub(crate) len: u64,
}

// Gives a key a first value where that isn't too long; what the key had is told.
fn put<R: Records, O: Order>(
    tree: &mut Tree<R, O>,
    space: &mut R::S,
    key: &[u8],
    value: &[u8],
    old: Option<u64>,
) -> Result<Option<Change>, RecErr>
    requires { IsOpen R.S.Space R.Records O.Order tree.old space.old }
    ensures takes { IfOk result (λ c. Takes R.S.Space R.Records O.Order (put_in O.cmp key.now value.now) (is_some c) tree.old tree.new space.old space.new) }
    ensures lengths { IfOk result (λ c. IfSome c (λ l. (l.old ≡ old) × (l.len ≡ length value.now))) }
    ensures refused { RefusesPairs R.S.Space R.Records O.Order result tree.old tree.new space.old space.new }
    ensures full { OnFull result (FillsFor R.S.Space R.Records O.Order (put_in O.cmp key.now value.now) tree.old space.old space.new) }
    ensures keeps { Keeps R.S.Space space.old space.new }
    ensures stays { StaysGrown R.S.Space R.Records O.Order result tree.old tree.new space.old space.new }
    ensures cause { OnFault R.S.Space result space.old space.new }
{
    if value.len() > VALUE_MOST {
        return Ok(None);
    }
    tree.insert(space, key, value, false)?;
    Ok(Some(Change {
        old,
        len: value.len() as u64,
    }))
}

// Whether a value has room for so many bytes behind it.
fn has_room(found: &Option<Blob>, more: usize) -> bool
    ensures { IsTrue result ↔ (length (unwrap_or found.now []) + more ≤ 16777216) }
{
    let len = match found {
        Some(value) => value.len(),
        None => 0,
    };
    more <= VALUE_MOST && len <= VALUE_MOST - more
}

// The length of a value that was found.
fn len_of(found: &Option<Blob>) -> Option<u64>
    ensures { result ≡ option_map length found.now }
{
    match found {
        Some(value) => Some(value.len() as u64),
        None => None,
    }
}

// Bytes joined behind a value, or alone.
fn joined(alloc: Global, found: Option<Blob>, more: &[u8]) -> Result<Blob, AllocError>
    ensures { IfOk result (λ b. b ≡ unwrap_or found [] ++ more.now) }
{
    let Some(mut all) = found else {
        return alone(alloc, more);
    };
    all.append(more)?;
    Ok(all)
}

// Bytes of their own.
fn alone(alloc: Global, bytes: &[u8]) -> Result<Blob, AllocError>
    ensures { IfOk result (λ b. b ≡ bytes.now) }
{
    let mut all = Blob::new(alloc);
    all.append(bytes)?;
    Ok(all)
}

// Joins bytes behind the first value of a key, or gives it these alone.
fn join<R: Records, O: Order>(
    alloc: Global,
    tree: &mut Tree<R, O>,
    space: &mut R::S,
    key: &[u8],
    more: &[u8],
) -> Result<Option<Change>, RecErr>
    requires { IsOpen R.S.Space R.Records O.Order tree.old space.old }
    ensures takes { IfOk result (λ c. Takes R.S.Space R.Records O.Order (stored_in O.cmp Cat key.now more.now) (is_some c) tree.old tree.new space.old space.new) }
    ensures lengths { IfOk result (λ c. IfSome c (λ l. TellsLengths R.S.Space R.Records O.Order Cat key.now more.now l tree.old space.old)) }
    ensures refused { RefusesPairs R.S.Space R.Records O.Order result tree.old tree.new space.old space.new }
    ensures full { OnFull result (FillsFor R.S.Space R.Records O.Order (stored_in O.cmp Cat key.now more.now) tree.old space.old space.new) }
    ensures keeps { Keeps R.S.Space space.old space.new }
    ensures stays { StaysGrown R.S.Space R.Records O.Order result tree.old tree.new space.old space.new }
    ensures cause { OnFault R.S.Space result space.old space.new }
{
    let mut steps: Steps<R> = Steps::new();
    let found = tree.first_value(space, key, &mut steps)?;
    if !has_room(&found, more.len()) {
        return Ok(None);
    }
    let old = len_of(&found);
    let all = joined(alloc, found, more)?;
    put(tree, space, key, all.as_slice(), old)
}

// Gives a key a first value, in the place of the one that it has.
fn over<R: Records, O: Order>(
    tree: &mut Tree<R, O>,
    space: &mut R::S,
    key: &[u8],
    value: &[u8],
) -> Result<Option<Change>, RecErr>
    requires { IsOpen R.S.Space R.Records O.Order tree.old space.old }
    ensures takes { IfOk result (λ c. Takes R.S.Space R.Records O.Order (stored_in O.cmp Over key.now value.now) (is_some c) tree.old tree.new space.old space.new) }
    ensures lengths { IfOk result (λ c. IfSome c (λ l. TellsLengths R.S.Space R.Records O.Order Over key.now value.now l tree.old space.old)) }
    ensures refused { RefusesPairs R.S.Space R.Records O.Order result tree.old tree.new space.old space.new }
    ensures full { OnFull result (FillsFor R.S.Space R.Records O.Order (stored_in O.cmp Over key.now value.now) tree.old space.old space.new) }
    ensures keeps { Keeps R.S.Space space.old space.new }
    ensures stays { StaysGrown R.S.Space R.Records O.Order result tree.old tree.new space.old space.new }
    ensures cause { OnFault R.S.Space result space.old space.new }
{
    let old = first_len(tree, space, key)?;
    put(tree, space, key, value, old)
}

// Gives a key a value where it isn't held.
fn keep<R: Records, O: Order>(
    tree: &mut Tree<R, O>,
    space: &mut R::S,
    key: &[u8],
    value: &[u8],
) -> Result<Option<Change>, RecErr>
    requires { IsOpen R.S.Space R.Records O.Order tree.old space.old }
    ensures takes { IfOk result (λ c. Takes R.S.Space R.Records O.Order (stored_in O.cmp Keep key.now value.now) (is_some c) tree.old tree.new space.old space.new) }
    ensures lengths { IfOk result (λ c. IfSome c (λ l. TellsLengths R.S.Space R.Records O.Order Keep key.now value.now l tree.old space.old)) }
    ensures refused { RefusesPairs R.S.Space R.Records O.Order result tree.old tree.new space.old space.new }
    ensures full { OnFull result (FillsFor R.S.Space R.Records O.Order (stored_in O.cmp Keep key.now value.now) tree.old space.old space.new) }
    ensures keeps { Keeps R.S.Space space.old space.new }
    ensures stays { StaysGrown R.S.Space R.Records O.Order result tree.old tree.new space.old space.new }
    ensures cause { OnFault R.S.Space result space.old space.new }
{
    let old = first_len(tree, space, key)?;
    if old.is_some() {
        return Ok(None);
    }
    put(tree, space, key, value, old)
}

/// Gives a key a first value as a mode says, and answers the lengths where it did. After a refusal the space isn't sound, or nothing has changed.
pub(crate) fn store_first<R: Records, O: Order>(
    alloc: Global,
    tree: &mut Tree<R, O>,
    space: &mut R::S,
    mode: Mode,
    key: &[u8],
    value: &[u8],
) -> Result<Option<Change>, RecErr>
    requires { IsOpen R.S.Space R.Records O.Order tree.old space.old }
    ensures takes { IfOk result (λ c. Takes R.S.Space R.Records O.Order (stored_in O.cmp mode key.now value.now) (is_some c) tree.old tree.new space.old space.new) }
    ensures lengths { IfOk result (λ c. IfSome c (λ l. TellsLengths R.S.Space R.Records O.Order mode key.now value.now l tree.old space.old)) }
    ensures refused { RefusesPairs R.S.Space R.Records O.Order result tree.old tree.new space.old space.new }
    ensures full { OnFull result (FillsFor R.S.Space R.Records O.Order (stored_in O.cmp mode key.now value.now) tree.old space.old space.new) }
    ensures keeps { Keeps R.S.Space space.old space.new }
    ensures stays { StaysGrown R.S.Space R.Records O.Order result tree.old tree.new space.old space.new }
    ensures cause { OnFault R.S.Space result space.old space.new }
{
    match mode {
        Mode::Over => over(tree, space, key, value),
        Mode::Keep => keep(tree, space, key, value),
        Mode::Cat => join(alloc, tree, space, key, value),
    }
}

/// Adds a value behind those of a key where it isn't too long, and answers whether it did. After a refusal the space isn't sound, or nothing has changed.
pub(crate) fn push_last<R: Records, O: Order>(
    tree: &mut Tree<R, O>,
    space: &mut R::S,
    key: &[u8],
    value: &[u8],
) -> Result<bool, RecErr>
    requires { IsOpen R.S.Space R.Records O.Order tree.old space.old }
    ensures takes { IfOk result (λ done. Takes R.S.Space R.Records O.Order (pushed_in O.cmp key.now value.now) done tree.old tree.new space.old space.new) }
    ensures refused { RefusesPairs R.S.Space R.Records O.Order result tree.old tree.new space.old space.new }
    ensures full { OnFull result (FillsFor R.S.Space R.Records O.Order (pushed_in O.cmp key.now value.now) tree.old space.old space.new) }
    ensures keeps { Keeps R.S.Space space.old space.new }
    ensures stays { StaysGrown R.S.Space R.Records O.Order result tree.old tree.new space.old space.new }
    ensures cause { OnFault R.S.Space result space.old space.new }
{
    if value.len() > VALUE_MOST {
        return Ok(false);
    }
    tree.insert(space, key, value, true)?;
    Ok(true)
}

/// Takes the first value of a key out, and answers its length where there was one. After a refusal the space isn't sound, or nothing has changed.
pub(crate) fn take_first<R: Records, O: Order>(
    tree: &mut Tree<R, O>,
    space: &mut R::S,
    key: &[u8],
) -> Result<Option<u64>, RecErr>
    requires { IsOpen R.S.Space R.Records O.Order tree.old space.old }
    ensures takes { IfOk result (λ len. Takes R.S.Space R.Records O.Order (taken_in O.cmp key.now) (is_some len) tree.old tree.new space.old space.new) }
    ensures len { IfOk result (AnswersPairs R.S.Space R.Records O.Order (λ ps. option_map length (first ps key.now)) tree.old space.old) }
    ensures refused { RefusesPairs R.S.Space R.Records O.Order result tree.old tree.new space.old space.new }
    ensures full { OnFull result (FillsFor R.S.Space R.Records O.Order (taken_in O.cmp key.now) tree.old space.old space.new) }
    ensures keeps { Keeps R.S.Space space.old space.new }
    ensures stays { StaysLess R.Records tree.old tree.new }
    ensures cause { OnFault R.S.Space result space.old space.new }
{
    let len = first_len(tree, space, key)?;
    if len.is_none() {
        return Ok(None);
    }
    tree.remove(space, key, false)?;
    Ok(len)
}
