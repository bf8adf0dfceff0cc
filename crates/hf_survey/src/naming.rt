//! The rule that each link names a record or none.
ghost use Rattle.std.specs.Prelude.{◌≡◌, ℕ, ◌+◌, ◌*◌, ◌^◌, ◌<◌, ◌≤◌, IfOk, IfSome, IfNone, OnOk, IsErrOf, Some, true, false, slice_get, length};
ghost use Rattle.tc_base.specs.Endian.{field, le_number};
ghost use Rattle.tc_space.specs.Frames.{OnlyReads};
ghost use Rattle.tc_space.specs.Refusals.{Blamed};
ghost use Rattle.hf_chain.specs.Heads.{capped};
ghost use Rattle.hf_survey.specs.Entries.{AreEntries};
ghost use Rattle.hf_survey.specs.Facts.{AllNamed, Ascend, HasBadChain, HasNamed, IsListedAt, Names, entry_place, AllEntriesName, HasBadEntry, IsSpot, StandsAs};
ghost use Rattle.hf_survey.specs.Passes.{HasBuckets, Looks};

use crate::facts::{Fact, Facts};
use crate::guessing::Guesses;
use hf_chain::place_named;
use hf_head::Head;
use tc_base::get_le;
use tc_reach::{ReadErr, Window};
use tc_space::Space;

// Where a place is looked for next among the records from one number to before another: in the middle, or where its share of what lies between
// their places points, which is near where records have much the same size.
fn probe(facts: &Facts, low: usize, high: usize, place: u64, halves: bool) -> usize
    requires some { low < high }
    requires inside { high ≤ length facts.now }
    ensures { (low ≤ result) × (result < high) }
{
    let most = high - low - 1;
    if halves {
        return low + most / 2;
    }
    let first = facts.at(low).place;
    let span = facts.at(high - 1).place.saturating_sub(first).max(1);
    let share = place.saturating_sub(first).saturating_mul(most as u64) / span;
    low + (share as usize).min(most)
}

// Which record stands at a place, if one does.
fn search(facts: &Facts, place: u64) -> Option<usize>
    ensures found { IfSome result (StandsAs facts.now place) }
    ensures low { IfSome result (λ i. i + 1 < 2 ^ 64) }
    ensures none { IfNone result (Ascend facts.now → IsListedAt facts.now place → ⊥) }
{
    let mut low = 0;
    let mut high = facts.len();
    let mut halves = false;
    while low < high {
        let mid = probe(facts, low, high, place, halves);
        halves = !halves;
        let at = facts.at(mid).place;
        if at == place {
            return Some(mid);
        }
        if at < place {
            low = mid + 1;
        } else {
            high = mid;
        }
    }
    None
}

// Whether the record with that place in the list stands at a place.
fn stands(facts: &Facts, i: usize, place: u64) -> bool
    ensures found { result ≡ true → StandsAs facts.now place i }
    ensures low { result ≡ true → i + 1 < 2 ^ 64 }
{
    if i >= facts.len() {
        return false;
    }
    facts.at(i).place == place
}

// Which record stands at a place, if one does: one record and the one behind it are looked at before the others.
fn position(facts: &Facts, likely: usize, place: u64) -> Option<usize>
    ensures found { IfSome result (StandsAs facts.now place) }
    ensures low { IfSome result (λ i. i + 1 < 2 ^ 64) }
    ensures none { IfNone result (Ascend facts.now → IsListedAt facts.now place → ⊥) }
{
    if stands(facts, likely, place) {
        return Some(likely);
    }
    let next = likely.saturating_add(1);
    if stands(facts, next, place) {
        return Some(next);
    }
    search(facts, place)
}

/// The number of the record that a link names with a place, 0 for none; or nothing where that is no record. Where in the list it is likely
/// to stand is only a guess.
pub fn resolve(facts: &Facts, likely: usize, place: u64) -> Option<u64>
    ensures some { IfSome result (IsSpot facts.now place) }
    ensures none { IfNone result (Ascend facts.now → Names facts.now place → ⊥) }
{
    if place == 0 {
        return Some(0);
    }
    match position(facts, likely, place) {
        Some(i) => Some(i as u64 + 1),
        None => None,
    }
}

// The number of the record that a link names with a place, where no guess was made yet.
fn resolve_alone(facts: &Facts, guesses: &Guesses, place: u64) -> Option<u64>
    ensures some { IfSome result (IsSpot facts.now place) }
    ensures none { IfNone result (Ascend facts.now → Names facts.now place → ⊥) }
{
    resolve(facts, guesses.likely(facts, place), place)
}

// Whether both chains of a record name a record or none.
fn has_named(facts: &Facts, guesses: &Guesses, fact: &Fact) -> bool
    ensures yes { result ≡ true → HasNamed facts.now fact.now }
    ensures no { result ≡ false → Ascend facts.now → HasNamed facts.now fact.now → ⊥ }
{
    match resolve_alone(facts, guesses, fact.left) {
        Some(_) => match resolve_alone(facts, guesses, fact.right) {
            Some(_) => true,
            None => false,
        },
        None => false,
    }
}

/// Whether each chain names a record or none.
pub fn chains_named(facts: &Facts, guesses: &Guesses) -> bool
    ensures yes { result ≡ true → AllNamed facts.now }
    ensures no { result ≡ false → Ascend facts.now → HasBadChain facts.now }
{
    for i in 0..facts.len() {
        let fact = *facts.at(i);
        if !has_named(facts, guesses, &fact) {
            return false;
        }
    }
    true
}

// The places that entries name, which stand one behind the other.
fn decode(unit: u64, width: usize, bytes: &[u8], places: &mut [u64])
    requires unit { unit ≤ 2 ^ 16 }
    requires width { (1 ≤ width) × (width ≤ 8) }
    requires long { length bytes.now ≡ width * length places.old }
    ensures { (i : ℕ) (p : ℕ) → slice_get places.new i ≡ Some p → p ≡ capped (unit * le_number (field (width * i) width bytes.now)) }
{
    for i in 0..places.len() {
        places[i] = place_named(unit, get_le(bytes, width * i, width));
    }
}

/// The places that the entries of buckets name, from one bucket on. They are read at once.
pub fn entries<S: Space>(
    space: &mut S,
    file: u32,
    head: &Head,
    first: u64,
    window: &mut Window,
    places: &mut [u64],
) -> Result<(), ReadErr>
    requires looks { Looks S.Space space.old file window.old }
    requires buckets { HasBuckets S.Space head.now space.old file }
    requires low { first + length places.old ≤ head.now.buckets }
    ensures places { OnOk result (S.tells → AreEntries head.now first places.new (S.now space.old file)) }
    ensures looks { OnOk result (Looks S.Space space.new file window.new) }
    ensures reads { OnlyReads S.Space space.old space.new }
    ensures cause { Blamed S.Space (IsErrOf result ReadErr.Fault) space.old space.new }
{
    let width = head.width();
    let at = 256 + width * first;
    let count = width as usize * places.len();
    window.fill(space, file, at, count)?;
    decode(head.unit(), width as usize, window.get(at, count), places);
    Ok(())
}

// The place that a bucket's entry names.
fn entry<S: Space>(
    space: &mut S,
    file: u32,
    head: &Head,
    bucket: u64,
    window: &mut Window,
) -> Result<u64, ReadErr>
    requires looks { Looks S.Space space.old file window.old }
    requires buckets { HasBuckets S.Space head.now space.old file }
    requires low { bucket < head.now.buckets }
    ensures place { IfOk result (λ p. S.tells → p ≡ entry_place head.now bucket (S.now space.old file)) }
    ensures looks { OnOk result (Looks S.Space space.new file window.new) }
    ensures reads { OnlyReads S.Space space.old space.new }
    ensures cause { Blamed S.Space (IsErrOf result ReadErr.Fault) space.old space.new }
{
    let mut places = [0];
    entries(space, file, head, bucket, window, &mut places)?;
    Ok(places[0])
}

/// Whether each bucket's entry names a record or none.
pub fn entries_named<S: Space>(
    space: &mut S,
    file: u32,
    head: &Head,
    facts: &Facts,
    guesses: &Guesses,
    window: &mut Window,
) -> Result<bool, ReadErr>
    requires looks { Looks S.Space space.old file window.old }
    requires buckets { HasBuckets S.Space head.now space.old file }
    ensures yes { IfOk result (λ is. is ≡ true → S.tells → AllEntriesName head.now facts.now (S.now space.old file)) }
    ensures no { IfOk result (λ is. is ≡ false → S.tells → Ascend facts.now → HasBadEntry head.now facts.now (S.now space.old file)) }
    ensures reads { OnlyReads S.Space space.old space.new }
    ensures cause { Blamed S.Space (IsErrOf result ReadErr.Fault) space.old space.new }
{
    for bucket in 0..head.buckets {
        let place = entry(space, file, head, bucket, window)?;
        match resolve_alone(facts, guesses, place) {
            Some(_) => {}
            None => return Ok(false),
        }
    }
    Ok(true)
}
