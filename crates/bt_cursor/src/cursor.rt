//! A cursor.
ghost use Rattle.std.specs.Prelude.{◌≡◌, ◌+◌, ◌*◌, None, IfOk, OnErr, OnOk, option_map, is_some, Some};
ghost use Rattle.tc_base.specs.Lists.{from_on};
ghost use Rattle.tc_space.specs.Refusals.{Blames};
ghost use Rattle.bt_tree.specs.Meaning.{AnswersPairs, IsOpen};
ghost use Rattle.bt_cursor.specs.Places.{AsksFew, Looks, first_place, last_place, next_place, pair_at, prev_place, number_behind, number_in_front};
ghost use Rattle.bt_cursor.specs.Moving.{MovesTo};

use crate::looking::{above, below, end_of, first_in, first_of, last_of, nth_of};
use crate::takers::End;
use bt_order::Stretch;
use bt_tree::Tree;
use std::alloc::{AllocError, Global};
use tc_base::{Blob, Order, Pair};
use tc_space::{RecErr, Records};

/// A key, and the number of its values in front of one.
#[derive(Drop)]
pub struct Place {
    pub key: Blob,
    pub number: u64,
}

/// A place in a tree's list of pairs, or nowhere. A step to another value of the same key passes over the values in front of it in its page, and copies none.
///
/// A change of the tree by another call leaves the cursor's key and number. After a refusal the cursor stands where it stood.
///
/// Where pairs are meant and it isn't refused, a call that only moves it asks the store for at most twice as many pages as the tree is high, and two.
#[derive(Drop)]
pub struct Cursor {
    pub(crate) alloc: Global,
    pub(crate) at: Option<Place>,
}

// The first value of a key.
pub(crate) fn first_value(end: Option<End>) -> Option<Place>
    ensures { result ≡ option_map (λ e. record { key = e.key; number = 0 }) end }
{
    match end {
        Some(end) => Some(Place {
            key: end.key,
            number: 0,
        }),
        None => None,
    }
}

// The last value of a key.
fn last_value(end: Option<End>) -> Option<Place>
    ensures { result ≡ option_map (λ e. record { key = e.key; number = e.last }) end }
{
    match end {
        Some(end) => Some(Place {
            key: end.key,
            number: end.last,
        }),
        None => None,
    }
}

// The place of the same key behind a number, if it has one.
fn behind(place: &Place, last: Option<u64>) -> Option<u64>
    ensures { result ≡ number_behind place.now.number last }
{
    let Some(last) = last else {
        return None;
    };
    if place.number < last {
        Some(place.number + 1)
    } else {
        None
    }
}

// The nearest place of the same key in front of a number, if it has one.
fn in_front(place: &Place, last: Option<u64>) -> Option<u64>
    ensures { result ≡ number_in_front place.now.number last }
{
    let Some(last) = last else {
        return None;
    };
    if place.number == 0 {
        return None;
    }
    Some((place.number - 1).min(last))
}

// A place of the same key.
pub(crate) fn same_key(
    alloc: Global,
    place: &Place,
    number: u64,
) -> Result<Option<Place>, AllocError>
    ensures { IfOk result (λ p. p ≡ Some (record { key = place.now.key; number = number })) }
{
    Ok(Some(Place {
        key: Blob::from_slice(alloc, place.key.as_slice())?,
        number,
    }))
}

// The place behind one.
fn next_of<R: Records, O: Order>(
    alloc: Global,
    place: &Place,
    tree: &mut Tree<R, O>,
    space: &mut R::S,
) -> Result<Option<Place>, RecErr>
    requires { IsOpen R.S.Space R.Records O.Order tree.old space.old }
    ensures value { IfOk result (AnswersPairs R.S.Space R.Records O.Order (next_place O.cmp (Some place.now)) tree.old space.old) }
    ensures looks { Looks R.S.Space R.Records O.Order (2 * tree.old.height + tree.old.head.pairs) tree.old tree.new space.old space.new }
    ensures few { OnOk result (AsksFew R.S.Space R.Records O.Order (2 * tree.old.height + 2) tree.old tree.new space.old) }
    ensures cause { Blames R.S.Space result space.old space.new }
{
    let key = place.key.as_slice();
    let last = last_of(tree, space, key)?;
    let Some(number) = behind(place, last) else {
        let end = above(alloc, tree, space, key)?;
        return Ok(first_value(end));
    };
    Ok(same_key(alloc, place, number)?)
}

// The place in front of one.
fn prev_of<R: Records, O: Order>(
    alloc: Global,
    place: &Place,
    tree: &mut Tree<R, O>,
    space: &mut R::S,
) -> Result<Option<Place>, RecErr>
    requires { IsOpen R.S.Space R.Records O.Order tree.old space.old }
    ensures value { IfOk result (AnswersPairs R.S.Space R.Records O.Order (prev_place O.cmp (Some place.now)) tree.old space.old) }
    ensures looks { Looks R.S.Space R.Records O.Order (2 * tree.old.height + 1) tree.old tree.new space.old space.new }
    ensures cause { Blames R.S.Space result space.old space.new }
{
    let key = place.key.as_slice();
    let last = last_of(tree, space, key)?;
    let Some(number) = in_front(place, last) else {
        let end = below(alloc, tree, space, key)?;
        return Ok(last_value(end));
    };
    Ok(same_key(alloc, place, number)?)
}

// The place behind one; nowhere from nowhere.
fn next_from<R: Records, O: Order>(
    alloc: Global,
    at: &Option<Place>,
    tree: &mut Tree<R, O>,
    space: &mut R::S,
) -> Result<Option<Place>, RecErr>
    requires { IsOpen R.S.Space R.Records O.Order tree.old space.old }
    ensures value { IfOk result (AnswersPairs R.S.Space R.Records O.Order (next_place O.cmp at.now) tree.old space.old) }
    ensures looks { Looks R.S.Space R.Records O.Order (2 * tree.old.height + tree.old.head.pairs) tree.old tree.new space.old space.new }
    ensures few { OnOk result (AsksFew R.S.Space R.Records O.Order (2 * tree.old.height + 2) tree.old tree.new space.old) }
    ensures cause { Blames R.S.Space result space.old space.new }
{
    match at {
        Some(place) => next_of(alloc, place, tree, space),
        None => Ok(None),
    }
}

// The place in front of one; nowhere from nowhere.
fn prev_from<R: Records, O: Order>(
    alloc: Global,
    at: &Option<Place>,
    tree: &mut Tree<R, O>,
    space: &mut R::S,
) -> Result<Option<Place>, RecErr>
    requires { IsOpen R.S.Space R.Records O.Order tree.old space.old }
    ensures value { IfOk result (AnswersPairs R.S.Space R.Records O.Order (prev_place O.cmp at.now) tree.old space.old) }
    ensures looks { Looks R.S.Space R.Records O.Order (2 * tree.old.height + 1) tree.old tree.new space.old space.new }
    ensures cause { Blames R.S.Space result space.old space.new }
{
    match at {
        Some(place) => prev_of(alloc, place, tree, space),
        None => Ok(None),
    }
}

// The pair at a place, as a copy, if there is one.
fn pair_of<R: Records, O: Order>(
    alloc: Global,
    place: &Place,
    tree: &mut Tree<R, O>,
    space: &mut R::S,
) -> Result<Option<Pair>, RecErr>
    requires { IsOpen R.S.Space R.Records O.Order tree.old space.old }
    ensures value { IfOk result (AnswersPairs R.S.Space R.Records O.Order (pair_at (Some place.now)) tree.old space.old) }
    ensures looks { Looks R.S.Space R.Records O.Order tree.old.height tree.old tree.new space.old space.new }
    ensures cause { Blames R.S.Space result space.old space.new }
{
    let key = place.key.as_slice();
    let Some(value) = nth_of(tree, space, key, place.number)? else {
        return Ok(None);
    };
    let key = Blob::from_slice(alloc, key)?;
    Ok(Some(Pair { key, value }))
}

// The same, none from nowhere.
fn pair_from<R: Records, O: Order>(
    alloc: Global,
    at: &Option<Place>,
    tree: &mut Tree<R, O>,
    space: &mut R::S,
) -> Result<Option<Pair>, RecErr>
    requires { IsOpen R.S.Space R.Records O.Order tree.old space.old }
    ensures value { IfOk result (AnswersPairs R.S.Space R.Records O.Order (pair_at at.now) tree.old space.old) }
    ensures looks { Looks R.S.Space R.Records O.Order tree.old.height tree.old tree.new space.old space.new }
    ensures cause { Blames R.S.Space result space.old space.new }
{
    match at {
        Some(place) => pair_of(alloc, place, tree, space),
        None => Ok(None),
    }
}

impl Cursor {
    /// A cursor that is nowhere.
    pub fn new(alloc: Global) -> Cursor
        ensures { result.at ≡ None }
    {
        Cursor { alloc, at: None }
    }

    /// Where it stands.
    pub fn place(&self) -> Option<&Place>
        ensures { option_map (λ p. p.now) result ≡ self.now.at }
    {
        match &self.at {
            Some(place) => Some(place),
            None => None,
        }
    }

    // Stands there from here on, and answers whether that is anywhere.
    fn stand(&mut self, place: Option<Place>) -> bool
        ensures { (self.new ≡ record self.old { at = place }) × (result ≡ is_some place) }
    {
        let there = place.is_some();
        self.at = place;
        there
    }

    /// Goes to the first pair. False comes exactly where there is none, and the cursor is then nowhere; so it is of each call that moves it.
    pub fn first<R: Records, O: Order>(
        &mut self,
        tree: &mut Tree<R, O>,
        space: &mut R::S,
    ) -> Result<bool, RecErr>
        requires { IsOpen R.S.Space R.Records O.Order tree.old space.old }
        ensures moved { IfOk result (MovesTo R.S.Space R.Records O.Order first_place tree.old space.old self.new.at) }
        ensures stays { OnErr result (self.new ≡ self.old) }
        ensures looks { Looks R.S.Space R.Records O.Order 1 tree.old tree.new space.old space.new }
        ensures cause { Blames R.S.Space result space.old space.new }
    {
        let end = first_of(self.alloc, tree, space)?;
        Ok(self.stand(first_value(end)))
    }

    /// Goes to the last pair.
    pub fn last<R: Records, O: Order>(
        &mut self,
        tree: &mut Tree<R, O>,
        space: &mut R::S,
    ) -> Result<bool, RecErr>
        requires { IsOpen R.S.Space R.Records O.Order tree.old space.old }
        ensures moved { IfOk result (MovesTo R.S.Space R.Records O.Order last_place tree.old space.old self.new.at) }
        ensures stays { OnErr result (self.new ≡ self.old) }
        ensures looks { Looks R.S.Space R.Records O.Order 1 tree.old tree.new space.old space.new }
        ensures cause { Blames R.S.Space result space.old space.new }
    {
        let end = end_of(self.alloc, tree, space)?;
        Ok(self.stand(last_value(end)))
    }

    /// Goes to the first pair from a key on.
    pub fn jump<R: Records, O: Order>(
        &mut self,
        tree: &mut Tree<R, O>,
        space: &mut R::S,
        key: &[u8],
    ) -> Result<bool, RecErr>
        requires { IsOpen R.S.Space R.Records O.Order tree.old space.old }
        ensures moved { IfOk result (MovesTo R.S.Space R.Records O.Order (λ ps. first_place (from_on O.cmp key.now ps)) tree.old space.old self.new.at) }
        ensures stays { OnErr result (self.new ≡ self.old) }
        ensures looks { Looks R.S.Space R.Records O.Order (tree.old.height + tree.old.head.pairs) tree.old tree.new space.old space.new }
        ensures few { OnOk result (AsksFew R.S.Space R.Records O.Order (tree.old.height + 2) tree.old tree.new space.old) }
        ensures cause { Blames R.S.Space result space.old space.new }
    {
        let cut = Stretch {
            first: key,
            end: None,
        };
        let end = first_in(self.alloc, tree, space, &cut)?;
        Ok(self.stand(first_value(end)))
    }

    /// Goes to the nearest pair behind its place, whether a pair stands there or not; from nowhere to nowhere.
    pub fn next<R: Records, O: Order>(
        &mut self,
        tree: &mut Tree<R, O>,
        space: &mut R::S,
    ) -> Result<bool, RecErr>
        requires { IsOpen R.S.Space R.Records O.Order tree.old space.old }
        ensures moved { IfOk result (MovesTo R.S.Space R.Records O.Order (next_place O.cmp self.old.at) tree.old space.old self.new.at) }
        ensures stays { OnErr result (self.new ≡ self.old) }
        ensures looks { Looks R.S.Space R.Records O.Order (2 * tree.old.height + tree.old.head.pairs) tree.old tree.new space.old space.new }
        ensures few { OnOk result (AsksFew R.S.Space R.Records O.Order (2 * tree.old.height + 2) tree.old tree.new space.old) }
        ensures cause { Blames R.S.Space result space.old space.new }
    {
        let next = next_from(self.alloc, &self.at, tree, space)?;
        Ok(self.stand(next))
    }

    /// Goes to the nearest pair in front of its place.
    pub fn prev<R: Records, O: Order>(
        &mut self,
        tree: &mut Tree<R, O>,
        space: &mut R::S,
    ) -> Result<bool, RecErr>
        requires { IsOpen R.S.Space R.Records O.Order tree.old space.old }
        ensures moved { IfOk result (MovesTo R.S.Space R.Records O.Order (prev_place O.cmp self.old.at) tree.old space.old self.new.at) }
        ensures stays { OnErr result (self.new ≡ self.old) }
        ensures looks { Looks R.S.Space R.Records O.Order (2 * tree.old.height + 1) tree.old tree.new space.old space.new }
        ensures cause { Blames R.S.Space result space.old space.new }
    {
        let prev = prev_from(self.alloc, &self.at, tree, space)?;
        Ok(self.stand(prev))
    }

    /// The pair at its place, as a copy; None where it is nowhere, or no pair stands there any more.
    pub fn pair<R: Records, O: Order>(
        &mut self,
        tree: &mut Tree<R, O>,
        space: &mut R::S,
    ) -> Result<Option<Pair>, RecErr>
        requires { IsOpen R.S.Space R.Records O.Order tree.old space.old }
        ensures value { IfOk result (AnswersPairs R.S.Space R.Records O.Order (pair_at self.old.at) tree.old space.old) }
        ensures stays { self.new ≡ self.old }
        ensures looks { Looks R.S.Space R.Records O.Order tree.old.height tree.old tree.new space.old space.new }
        ensures cause { Blames R.S.Space result space.old space.new }
    {
        pair_from(self.alloc, &self.at, tree, space)
    }
}
