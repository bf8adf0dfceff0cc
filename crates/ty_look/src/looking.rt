//! The request at the front of bytes that come in pieces.
ghost use Rattle.std.specs.Prelude.{◌≡◌, ◌+◌, ◌<◌, ◌≤◌, [], ◌∷◌, ℕ, List, length, drop, MatchOption, Err};
ghost use Rattle.tc_base.specs.declared.fields.NotWhole.TheVariants as not_whole;
ghost use Rattle.ty_wire.specs.Reading.{request_at};
ghost use Rattle.ty_wire.specs.Taking.{Takes, IsRead};
ghost use Rattle.ty_look.specs.Seen.{list_at, Lacks, LacksList, GoesOn, ArePart, IsSeen, IsLeast};
ghost use Rattle.ty_wire.specs.Form.{word};
ghost use Rattle.ty_wire.specs.Spelling.{key_text};

use crate::ends::announced;
use tc_base::{KEY_MOST, NotWhole, REQUEST_MOST, VALUE_MOST, read_size};
use ty_wire::{Front, read_item, take, word_of};

/// Where a list of texts goes on.
#[derive(Clone, Copy)]
pub struct Place {
    /// Where the next text stands, from the front of the request.
    at: usize,
    /// How many are to come.
    count: usize,
    /// The most bytes that one of them has.
    most: usize,
    /// The most bytes that they take together.
    left: usize,
}

/// What of a request that isn't whole was looked at already: nothing at first.
#[derive(Clone, Copy)]
pub struct Seen {
    least: usize,
    list: Option<Place>,
}

impl Seen {
    pub fn new() -> Seen
        ensures { (bytes : List ℕ) → IsSeen result bytes }
    {
        Seen {
            least: 0,
            list: None,
        }
    }

    /// The request begun has at least so many bytes, and with fewer there is no more than a part, whatever they are: where its sizes
    /// are there, those that it and its texts so far announce.
    pub fn least(&self) -> usize
        ensures { result ≡ self.now.least }
    {
        self.least
    }
}

// The keys of an mget behind a count that is there.
fn keys_at(bytes: &[u8]) -> Option<Place>
    ensures { MatchOption result (Lacks (list_at [] bytes.now) (2 + length bytes.now)) (λ p. GoesOn p (0xC8 ∷ 0x31 ∷ bytes.now)) }
{
    let left = REQUEST_MOST - 6;
    let Ok((count, _)) = read_size(left / 4, bytes) else {
        return None;
    };
    Some(Place {
        at: 6,
        count,
        most: KEY_MOST,
        left,
    })
}

// The arguments of a misc behind a name that is there.
fn arguments_at(bytes: &[u8]) -> Option<Place>
    ensures { MatchOption result (Lacks (list_at (key_text ∷ word ∷ []) bytes.now) (2 + length bytes.now)) (λ p. GoesOn p (0xC8 ∷ 0x90 ∷ bytes.now)) }
{
    let Ok((n, rest)) = read_size(KEY_MOST, bytes) else {
        return None;
    };
    let Ok((_, rest)) = word_of(rest) else {
        return None;
    };
    let left = REQUEST_MOST - 14 - n;
    let Ok((count, rest)) = read_size(left / 4, rest) else {
        return None;
    };
    if rest.len() < n {
        return None;
    }
    Some(Place {
        at: 14 + n,
        count,
        most: VALUE_MOST,
        left,
    })
}

// The first text of a list whose fields in front are there.
fn list_place(bytes: &[u8]) -> Option<Place>
    ensures { MatchOption result (LacksList bytes.now) (λ p. GoesOn p bytes.now) }
{
    match bytes {
        [0xC8, 0x31, rest @ ..] => keys_at(rest),
        [0xC8, 0x90, rest @ ..] => arguments_at(rest),
        _ => None,
    }
}

// The bytes from a place on.
fn behind(bytes: &[u8], at: usize) -> &[u8]
    requires { at ≤ length bytes.now }
    ensures { result.now ≡ drop at bytes.now }
{
    &bytes[at..]
}

// Passes over the texts that are there, up to the next that isn't.
fn pass_texts(bytes: &[u8], from: Place) -> (Front, Place)
    requires { GoesOn from bytes.now }
    ensures reading { IsRead bytes.now result.0 }
    ensures going { GoesOn result.1 bytes.now }
{
    let mut to = from;
    while to.count > 0 {
        let limit = to.most.min(to.left - 4 * to.count);
        match read_item(limit, behind(bytes, to.at)) {
            Ok((item, _)) => {
                to.at = to.at + 4 + item.len();
                to.left = to.left - 4 - item.len();
                to.count = to.count - 1;
            }
            Err(NotWhole::Part) => return (Front::Part, to),
            Err(NotWhole::Bad) => return (Front::Bad, to),
        }
    }
    (Front::Whole(to.at), to)
}

// How many bytes the next text needs at least.
fn text_end(bytes: &[u8], place: Place) -> usize
    requires going { GoesOn place bytes.now }
    requires part { request_at bytes.now ≡ Err not_whole.Part }
    ensures more { length bytes.now < result }
    ensures part { ArePart result bytes.now }
{
    let next = bytes.len() + 1;
    if place.count == 0 {
        return next;
    }
    let limit = place.most.min(place.left - 4 * place.count);
    match read_size(limit, behind(bytes, place.at)) {
        Ok((size, _)) => next.max(place.at + 4 + size),
        Err(_) => next,
    }
}

// Goes on in a list.
fn look_on(bytes: &[u8], from: Place, seen: &mut Seen) -> Front
    requires going { GoesOn from bytes.now }
    requires part { ArePart seen.old.least bytes.now }
    ensures reading { IsRead bytes.now result }
    ensures seen { IsSeen seen.new bytes.now }
    ensures more { result ≡ Front.Part → length bytes.now < seen.new.least }
{
    let (front, to) = pass_texts(bytes, from);
    seen.list = Some(to);
    if front == Front::Part {
        seen.least = text_end(bytes, to);
    }
    front
}

// Looks from the front.
fn look_anew(bytes: &[u8], seen: &mut Seen) -> Front
    requires { IsSeen seen.old bytes.now }
    ensures reading { IsRead bytes.now result }
    ensures seen { IsSeen seen.new bytes.now }
    ensures more { result ≡ Front.Part → length bytes.now < seen.new.least }
{
    let front = take(bytes);
    if front == Front::Part {
        seen.least = announced(bytes).max(bytes.len() + 1);
    }
    front
}

// Goes on where it stopped, or where a list begins, or from the front.
fn look_further(bytes: &[u8], seen: &mut Seen) -> Front
    requires { IsSeen seen.old bytes.now }
    ensures reading { IsRead bytes.now result }
    ensures seen { IsSeen seen.new bytes.now }
    ensures more { result ≡ Front.Part → length bytes.now < seen.new.least }
{
    if let Some(place) = seen.list {
        return look_on(bytes, place, seen);
    }
    if let Some(place) = list_place(bytes) {
        return look_on(bytes, place, seen);
    }
    look_anew(bytes, seen)
}

/// What stands at the front, by the grammar, as `take` says it. What was looked at of these bytes, when there were fewer of them, isn't
/// looked at again. Of a part, at least `seen.least()` bytes are needed.
pub fn look(bytes: &[u8], seen: &mut Seen) -> Front
    requires { IsSeen seen.old bytes.now }
    ensures grammar { Takes bytes.now result }
    ensures reading { IsRead bytes.now result }
    ensures seen { IsSeen seen.new bytes.now }
    ensures least { IsLeast seen.new.least bytes.now result }
{
    if bytes.len() < seen.least {
        return Front::Part;
    }
    look_further(bytes, seen)
}
