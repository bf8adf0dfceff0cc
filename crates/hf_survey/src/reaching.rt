//! The records that the buckets reach, each once.
ghost use Rattle.std.specs.Prelude.{◌≡◌, ℕ, ◌+◌, ◌-◌, ◌*◌, ◌^◌, ◌<◌, ◌≤◌, [], IfOk, IfSome, IfNone, OnOk, IsErrOf, true, false, length, replicate};
ghost use Rattle.tc_space.specs.Frames.{OnlyReads};
ghost use Rattle.tc_space.specs.Refusals.{Blamed};
ghost use Rattle.hf_tree.specs.Rules.{left, right};
ghost use Rattle.hf_survey.specs.Batches.{AreMarked, ChainsOn, ChainsStop, FollowsOn, RootsOn, RootsStop, StayMarked, StopsOn, TreesOn, TreesStop};
ghost use Rattle.hf_survey.specs.Passes.{Surveyed};
ghost use Rattle.hf_survey.specs.Reaching.{AreLow, child_item, AddsFresh, AllSet, HasUnset, WasReached};
ghost use Rattle.hf_survey.specs.Trees.{WereJudged};
ghost use Rattle.hf_survey.specs.Holding.{LacksOnce};

use crate::facts::Facts;
use crate::guessing::Guesses;
use crate::judging::{Verdict, judge};
use crate::naming::{entries, resolve};
use hf_head::Head;
use std::alloc::{AllocError, Global};
use tc_base::Seq;
use tc_reach::{ReadErr, Window};
use tc_space::Space;

/// A record that was reached. Records go by number, from 1; 0 is none.
#[derive(Clone, Copy, Drop, PartialEq, Eq)]
pub struct Item {
    pub number: u64,
    /// The bucket that it was reached from.
    pub bucket: u64,
    /// The last record on the way that it hangs left of, which has to be lesser.
    pub above: u64,
    /// The last record on the way that it hangs right of, which has to be greater.
    pub below: u64,
}

/// Records that were reached, in the order in which they were.
pub type Items = Seq<Item>;

// Adds a record to those reached, and marks it; false where it was reached before, by these buckets or others.
fn add(items: &mut Items, marks: &mut [bool], item: Item) -> Result<bool, AllocError>
    requires number { (0 < item.number) × (item.number ≤ length marks.old) }
    requires above { item.above ≤ length marks.old }
    requires below { item.below ≤ length marks.old }
    requires marked { AreMarked items.old marks.old }
    ensures marked { OnOk result (StayMarked items.old marks.old items.new marks.new) }
    ensures fresh { IfOk result (λ is. is ≡ true → AddsFresh items.old marks.old items.new item) }
    ensures twice { IfOk result (λ is. is ≡ false → WasReached items.old marks.old item) }
{
    let i = (item.number - 1) as usize;
    if marks[i] {
        return Ok(false);
    }
    items.push(item)?;
    marks[i] = true;
    Ok(true)
}

// Follows a link that names a place; what is reached by it hangs like `from`, whose number doesn't count. False where the link names what
// is no record, or one that was reached before.
fn follow(
    facts: &Facts,
    likely: usize,
    place: u64,
    from: &Item,
    items: &mut Items,
    marks: &mut [bool],
) -> Result<bool, AllocError>
    requires long { length marks.old ≡ length facts.now }
    requires low { (from.now.above ≤ length facts.now) × (from.now.below ≤ length facts.now) }
    requires marked { AreMarked items.old marks.old }
    ensures marked { OnOk result (StayMarked items.old marks.old items.new marks.new) }
    ensures follows { IfOk result (λ is. is ≡ true → FollowsOn facts.now place from.now items.old marks.old items.new) }
    ensures stops { IfOk result (λ is. is ≡ false → StopsOn facts.now place items.old marks.old) }
{
    let Some(number) = resolve(facts, likely, place) else {
        return Ok(false);
    };
    if number == 0 {
        return Ok(true);
    }
    let next = Item {
        number,
        bucket: from.bucket,
        above: from.above,
        below: from.below,
    };
    add(items, marks, next)
}

// How what hangs left of a record is reached.
fn left_of(item: &Item) -> Item
    ensures { result ≡ child_item left item.now 0 }
{
    Item {
        number: 0,
        bucket: item.bucket,
        above: item.number,
        below: item.below,
    }
}

// How what hangs right of it is.
fn right_of(item: &Item) -> Item
    ensures { result ≡ child_item right item.now 0 }
{
    Item {
        number: 0,
        bucket: item.bucket,
        above: item.above,
        below: item.number,
    }
}

// Follows both chains of a record that was reached, behind those of the records before it. Where in the list the records that they name are
// likely to stand is only a guess.
fn follow_both(
    facts: &Facts,
    left: usize,
    right: usize,
    k: usize,
    items: &mut Items,
    marks: &mut [bool],
) -> Result<bool, AllocError>
    requires there { k < length items.old }
    requires long { length marks.old ≡ length facts.now }
    requires marked { AreMarked items.old marks.old }
    ensures reached { IfOk result (λ is. is ≡ true → ChainsOn facts.now items.old marks.old items.new marks.new k (k + 1)) }
    ensures stops { IfOk result (λ is. is ≡ false → ChainsStop facts.now items.old marks.old k) }
{
    let item = *items.at(k);
    let fact = *facts.at((item.number - 1) as usize);
    if !follow(facts, left, fact.left, &left_of(&item), items, marks)? {
        return Ok(false);
    }
    follow(facts, right, fact.right, &right_of(&item), items, marks)
}

// How many links are looked for side by side.
const AT_ONCE: usize = 256;

// The places that the chains of records name, from one of them to before another, two for each.
fn chains_of(facts: &Facts, items: &Items, from: usize, to: usize, places: &mut [u64])
    requires there { (from ≤ to) × (to ≤ length items.now) }
    requires long { length places.old ≡ 2 * (to - from) }
    requires low { AreLow (length facts.now) items.now }
{
    for k in from..to {
        let fact = *facts.at((items.at(k).number - 1) as usize);
        places[2 * (k - from)] = fact.left;
        places[2 * (k - from) + 1] = fact.right;
    }
}

// Follows the chains of records, from one of them to before another, behind those of the records before them. For each chain there is a guess.
fn follow_row(
    facts: &Facts,
    likely: &[usize],
    from: usize,
    to: usize,
    items: &mut Items,
    marks: &mut [bool],
) -> Result<bool, AllocError>
    requires there { (from ≤ to) × (to ≤ length items.old) }
    requires guessed { length likely.now ≡ 2 * (to - from) }
    requires long { length marks.old ≡ length facts.now }
    requires marked { AreMarked items.old marks.old }
    ensures reached { IfOk result (λ is. is ≡ true → ChainsOn facts.now items.old marks.old items.new marks.new from to) }
    ensures stops { IfOk result (λ is. is ≡ false → ChainsStop facts.now items.old marks.old from) }
{
    for k in from..to {
        let left = likely[2 * (k - from)];
        let right = likely[2 * (k - from) + 1];
        if !follow_both(facts, left, right, k, items, marks)? {
            return Ok(false);
        }
    }
    Ok(true)
}

// Follows the chains of records, from one of them to before another, behind those of the records before them. The guesses are made first.
fn follow_some(
    facts: &Facts,
    guesses: &Guesses,
    from: usize,
    to: usize,
    items: &mut Items,
    marks: &mut [bool],
) -> Result<bool, AllocError>
    requires few { to - from ≤ 128 }
    requires there { (from ≤ to) × (to ≤ length items.old) }
    requires long { length marks.old ≡ length facts.now }
    requires marked { AreMarked items.old marks.old }
    ensures reached { IfOk result (λ is. is ≡ true → ChainsOn facts.now items.old marks.old items.new marks.new from to) }
    ensures stops { IfOk result (λ is. is ≡ false → ChainsStop facts.now items.old marks.old from) }
{
    let mut places = [0; AT_ONCE];
    let mut likely = [0; AT_ONCE];
    let links = 2 * (to - from);
    chains_of(facts, items, from, to, &mut places[..links]);
    guesses.likely_all(facts, &places[..links], &mut likely[..links]);
    follow_row(facts, &likely[..links], from, to, items, marks)
}

// Follows the chains of all these records, and of those that they reach.
fn follow_all(
    facts: &Facts,
    guesses: &Guesses,
    items: &mut Items,
    marks: &mut [bool],
) -> Result<bool, AllocError>
    requires long { length marks.old ≡ length facts.now }
    requires marked { AreMarked items.old marks.old }
    ensures reached { IfOk result (λ is. is ≡ true → ChainsOn facts.now items.old marks.old items.new marks.new 0 (length items.new)) }
    ensures stops { IfOk result (λ is. is ≡ false → ChainsStop facts.now items.old marks.old 0) }
{
    let mut k = 0;
    while k < items.len() {
        let to = k + (items.len() - k).min(AT_ONCE / 2);
        if !follow_some(facts, guesses, k, to, items, marks)? {
            return Ok(false);
        }
        k = to;
    }
    Ok(true)
}

// Puts the places other than 0 in front, and gives how many these are. It doesn't branch on them.
fn gather(places: &[u64], named: &mut [u64]) -> usize
    requires { length places.now ≤ length named.old }
    ensures { result ≤ length places.now }
{
    let mut count = 0;
    for i in 0..places.len() {
        named[count] = places[i];
        count += (places[i] != 0) as usize;
    }
    count
}

// Follows the entries of buckets from one of them on, which name these places, behind those of the buckets before them. For each that names
// one there is a guess.
fn follow_roots(
    facts: &Facts,
    likely: &[usize],
    first: u64,
    places: &[u64],
    items: &mut Items,
    marks: &mut [bool],
) -> Result<bool, AllocError>
    requires low { first + length places.now < 2 ^ 64 }
    requires guessed { length places.now ≤ length likely.now }
    requires long { length marks.old ≡ length facts.now }
    requires marked { AreMarked items.old marks.old }
    ensures reached { IfOk result (λ is. is ≡ true → RootsOn facts.now first places.now items.old marks.old items.new marks.new (length places.now)) }
    ensures stops { IfOk result (λ is. is ≡ false → RootsStop facts.now first places.now items.old marks.old) }
{
    let mut next = 0;
    for i in 0..places.len() {
        // most buckets of a sparse file are empty
        if places[i] == 0 {
            continue;
        }
        let guess = likely[next];
        next += 1;
        let root = Item {
            number: 0,
            bucket: first + i as u64,
            above: 0,
            below: 0,
        };
        if !follow(facts, guess, places[i], &root, items, marks)? {
            return Ok(false);
        }
    }
    Ok(true)
}

// Follows the entries of some buckets, which name these places, and then all chains of their trees; the list of records is empty before.
fn reach_some(
    facts: &Facts,
    guesses: &Guesses,
    first: u64,
    places: &[u64],
    items: &mut Items,
    marks: &mut [bool],
) -> Result<bool, AllocError>
    requires low { first + length places.now < 2 ^ 64 }
    requires few { length places.now ≤ 256 }
    requires long { length marks.old ≡ length facts.now }
    requires none { items.old ≡ [] }
    requires marked { AreMarked items.old marks.old }
    ensures reached { IfOk result (λ is. is ≡ true → TreesOn facts.now first places.now marks.old items.new marks.new) }
    ensures stops { IfOk result (λ is. is ≡ false → TreesStop facts.now first places.now marks.old) }
{
    let mut named = [0; AT_ONCE];
    let mut likely = [0; AT_ONCE];
    let count = gather(places, &mut named);
    guesses.likely_all(facts, &named[..count], &mut likely[..count]);
    if !follow_roots(facts, &likely, first, places, items, marks)? {
        return Ok(false);
    }
    follow_all(facts, guesses, items, marks)
}

// Whether all are marked.
fn all_marked(marks: &[bool]) -> bool
    ensures yes { result ≡ true → AllSet marks.now }
    ensures no { result ≡ false → HasUnset marks.now }
{
    for i in 0..marks.len() {
        if !marks[i] {
            return false;
        }
    }
    true
}

// The list of no records, in the memory of another.
fn emptied(items: Items) -> Items
    ensures { result ≡ [] }
{
    let mut rest = items.into_vec();
    rest.clear();
    Items::from_vec(rest)
}

// Follows the entries of all buckets, some at a time with their trees, and judges what those reach; nothing where a link names what is no
// record, or not each record is reached once. Only the marks last from some buckets to the next.
fn reach_buckets<S: Space>(
    alloc: Global,
    space: &mut S,
    file: u32,
    head: &Head,
    facts: &Facts,
    guesses: &Guesses,
    marks: &mut [bool],
) -> Result<Option<Verdict>, ReadErr>
    requires surveyed { Surveyed S.Space head.now space.old file facts.now }
    requires unset { marks.old ≡ replicate (length facts.now) false }
    ensures some { IfOk result (λ found. IfSome found (WereJudged S.tells head.now (S.now space.old file) facts.now)) }
    ensures none { IfOk result (λ found. IfNone found (S.tells → LacksOnce head.now (S.now space.old file) facts.now)) }
    ensures reads { OnlyReads S.Space space.old space.new }
    ensures cause { Blamed S.Space (IsErrOf result ReadErr.Fault) space.old space.new }
{
    let mut window = Window::new(alloc);
    let mut items = Items::new(alloc);
    let mut verdict = Verdict::InOrder;
    let mut room = [0; AT_ONCE];
    let mut first = 0;
    while first < head.buckets {
        let count = (head.buckets - first).min(AT_ONCE as u64) as usize;
        let places = &mut room[..count];
        entries(space, file, head, first, &mut window, places)?;
        items = emptied(items);
        if !reach_some(facts, guesses, first, places, &mut items, marks)? {
            return Ok(None);
        }
        verdict = judge(space, file, head, facts, &items, verdict)?;
        first += count as u64;
    }
    if all_marked(marks) {
        return Ok(Some(verdict));
    }
    Ok(None)
}

// A mark for each of so many records, none of them set.
fn unmarked(alloc: Global, count: usize) -> Result<Vec<bool>, AllocError>
    ensures { IfOk result (λ marks. marks.items ≡ replicate count false) }
{
    Ok(vec![in alloc; false; count]?)
}

/// What is found of the records of a file, where each link names one of them or none and the buckets reach each of them once; else nothing.
/// The trees of some buckets are followed and judged before those of the next.
pub fn reach<S: Space>(
    alloc: Global,
    space: &mut S,
    file: u32,
    head: &Head,
    facts: &Facts,
    guesses: &Guesses,
) -> Result<Option<Verdict>, ReadErr>
    requires surveyed { Surveyed S.Space head.now space.old file facts.now }
    ensures some { IfOk result (λ found. IfSome found (WereJudged S.tells head.now (S.now space.old file) facts.now)) }
    ensures none { IfOk result (λ found. IfNone found (S.tells → LacksOnce head.now (S.now space.old file) facts.now)) }
    ensures reads { OnlyReads S.Space space.old space.new }
    ensures cause { Blamed S.Space (IsErrOf result ReadErr.Fault) space.old space.new }
{
    let mut marks = unmarked(alloc, facts.len())?;
    reach_buckets(alloc, space, file, head, facts, guesses, &mut marks)
}
