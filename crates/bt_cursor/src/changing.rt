//! A cursor's pair given another value, or taken out.
ghost use Rattle.std.specs.Prelude.{◌≡◌, ◌+◌, ◌*◌, ◌<◌, ◌≤◌, ℕ, None, IfOk, OnErr, Some, true, false};
ghost use Rattle.tc_space.specs.Frames.{Keeps};
ghost use Rattle.tc_space.specs.Refusals.{Blames, OnFault};
ghost use Rattle.bt_cache.specs.Effects.{OnFull};
ghost use Rattle.bt_tree.specs.Inserting.{StaysMade};
ghost use Rattle.bt_tree.specs.Meaning.{AnswersPairs, IsOpen, RefusesPairs};
ghost use Rattle.bt_cursor.specs.Places.{Looks, place_from};
ghost use Rattle.bt_cursor.specs.Setting.{FillsAt, OutsAt, PagesAt, PutsAt, TakesAt};

use crate::cursor::{Cursor, Place, first_value, same_key};
use crate::looking::{above, last_of};
use bt_tree::Tree;
use std::alloc::Global;
use tc_base::Order;
use tc_space::{RecErr, Records, Space};

// Whether a key whose last value has this number has one at a place.
fn is_upto(place: &Place, last: Option<u64>) -> bool
    ensures there { result ≡ true → (n : ℕ) × (last ≡ Some n) × (place.now.number ≤ n) }
    ensures none { result ≡ false → (n : ℕ) → last ≡ Some n → n < place.now.number }
{
    let Some(last) = last else {
        return false;
    };
    place.number <= last
}

// The place itself where a pair stands there, else the first pair of the next key.
fn stays_or_next<R: Records, O: Order>(
    alloc: Global,
    place: &Place,
    tree: &mut Tree<R, O>,
    space: &mut R::S,
) -> Result<Option<Place>, RecErr>
    requires { IsOpen R.S.Space R.Records O.Order tree.old space.old }
    ensures value { IfOk result (AnswersPairs R.S.Space R.Records O.Order (place_from O.cmp place.now) tree.old space.old) }
    ensures looks { Looks R.S.Space R.Records O.Order (2 * tree.old.height + tree.old.head.pairs) tree.old tree.new space.old space.new }
    ensures cause { Blames R.S.Space result space.old space.new }
{
    let key = place.key.as_slice();
    let last = last_of(tree, space, key)?;
    if is_upto(place, last) {
        return Ok(same_key(alloc, place, place.number)?);
    }
    let end = above(alloc, tree, space, key)?;
    Ok(first_value(end))
}

// Takes the pair at a place out, and answers where the next one stands; None where there is none at the place, and then nothing is changed.
// After a refusal behind the change the space isn't sound.
fn out_of<R: Records, O: Order>(
    alloc: Global,
    place: &Place,
    tree: &mut Tree<R, O>,
    space: &mut R::S,
) -> Result<Option<Option<Place>>, RecErr>
    requires { IsOpen R.S.Space R.Records O.Order tree.old space.old }
    ensures out { IfOk result (λ next. TakesAt R.S.Space R.Records O.Order (Some place.now) next tree.old tree.new space.old space.new) }
    ensures refused { RefusesPairs R.S.Space R.Records O.Order result tree.old tree.new space.old space.new }
    ensures pages { PagesAt R.S.Space R.Records O.Order (Some place.now) None result tree.old tree.new space.old space.new }
    ensures full { OnFull result (FillsAt R.S.Space R.Records O.Order (Some place.now) None tree.old space.old space.new) }
    ensures keeps { Keeps R.S.Space space.old space.new }
    ensures made { StaysMade R.Records tree.old tree.new }
    ensures cause { OnFault R.S.Space result space.old space.new }
{
    if !tree.set_at(space, place.key.as_slice(), place.number, None)? {
        return Ok(None);
    }
    match stays_or_next(alloc, place, tree, space) {
        Ok(next) => Ok(Some(next)),
        Err(e) => {
            space.spoil();
            Err(e)
        }
    }
}

// The same, from where a cursor is; None from nowhere.
fn out_from<R: Records, O: Order>(
    alloc: Global,
    at: &Option<Place>,
    tree: &mut Tree<R, O>,
    space: &mut R::S,
) -> Result<Option<Option<Place>>, RecErr>
    requires { IsOpen R.S.Space R.Records O.Order tree.old space.old }
    ensures out { IfOk result (λ next. TakesAt R.S.Space R.Records O.Order (at.now) next tree.old tree.new space.old space.new) }
    ensures refused { RefusesPairs R.S.Space R.Records O.Order result tree.old tree.new space.old space.new }
    ensures pages { PagesAt R.S.Space R.Records O.Order (at.now) None result tree.old tree.new space.old space.new }
    ensures full { OnFull result (FillsAt R.S.Space R.Records O.Order (at.now) None tree.old space.old space.new) }
    ensures keeps { Keeps R.S.Space space.old space.new }
    ensures made { StaysMade R.Records tree.old tree.new }
    ensures cause { OnFault R.S.Space result space.old space.new }
{
    match at {
        Some(place) => out_of(alloc, place, tree, space),
        None => Ok(None),
    }
}

impl Cursor {
    /// Gives the pair at its place another value, and stays. False comes exactly where there is none. `Full` is that of the tree's `set_at`.
    pub fn put<R: Records, O: Order>(
        &mut self,
        tree: &mut Tree<R, O>,
        space: &mut R::S,
        value: &[u8],
    ) -> Result<bool, RecErr>
        requires { IsOpen R.S.Space R.Records O.Order tree.old space.old }
        ensures put { IfOk result (λ there. PutsAt R.S.Space R.Records O.Order self.old.at (Some value.now) there tree.old tree.new space.old space.new) }
        ensures stays { self.new ≡ self.old }
        ensures refused { RefusesPairs R.S.Space R.Records O.Order result tree.old tree.new space.old space.new }
        ensures pages { PagesAt R.S.Space R.Records O.Order self.old.at (Some value.now) result tree.old tree.new space.old space.new }
        ensures full { OnFull result (FillsAt R.S.Space R.Records O.Order self.old.at (Some value.now) tree.old space.old space.new) }
        ensures keeps { Keeps R.S.Space space.old space.new }
        ensures made { StaysMade R.Records tree.old tree.new }
        ensures cause { OnFault R.S.Space result space.old space.new }
    {
        match &self.at {
            Some(place) => tree.set_at(space, place.key.as_slice(), place.number, Some(value)),
            None => Ok(false),
        }
    }

    /// Takes the pair at its place out, and stands on the next one, or nowhere where there is none. False comes exactly where there is no pair at its place, and then it stays.
    /// After a refusal behind the change the space isn't sound. `Full` is that of the tree's `set_at`.
    pub fn out<R: Records, O: Order>(
        &mut self,
        tree: &mut Tree<R, O>,
        space: &mut R::S,
    ) -> Result<bool, RecErr>
        requires { IsOpen R.S.Space R.Records O.Order tree.old space.old }
        ensures out { IfOk result (λ there. OutsAt R.S.Space R.Records O.Order self.old.at there self.new.at tree.old tree.new space.old space.new) }
        ensures stays { OnErr result (self.new ≡ self.old) }
        ensures refused { RefusesPairs R.S.Space R.Records O.Order result tree.old tree.new space.old space.new }
        ensures pages { PagesAt R.S.Space R.Records O.Order self.old.at None result tree.old tree.new space.old space.new }
        ensures full { OnFull result (FillsAt R.S.Space R.Records O.Order self.old.at None tree.old space.old space.new) }
        ensures keeps { Keeps R.S.Space space.old space.new }
        ensures made { StaysMade R.Records tree.old tree.new }
        ensures cause { OnFault R.S.Space result space.old space.new }
    {
        let Some(next) = out_from(self.alloc, &self.at, tree, space)? else {
            return Ok(false);
        };
        self.at = next;
        Ok(true)
    }
}
