//! Whether a list has the pairs of rows, and no others.
#![tactic(auto, using(tc_space::specs::Frames::keeps_refl, tc_space::specs::Frames::keeps_then, tc_space::specs::Frames::reads_refl, tc_space::specs::Frames::reads_then, tc_space::specs::Stores::ready_reads, crate::proofs::Keeping::counts_stay, crate::proofs::Keeping::packed_stays, crate::proofs::Keeping::both_stay, crate::proofs::Keeping::both_then, crate::proofs::Listed::stays_refl, crate::proofs::Listed::stays_then))]

ghost use Rattle.std.specs.Prelude.{◌≡◌, ◌<◌, ◌^◌, ℕ, List, IfOk, IfSome, is_some};
ghost use Rattle.tc_base.specs.Lists.{first};
ghost use Rattle.tc_base.specs.Maps.{Map};
ghost use Rattle.tc_base.specs.declared.seq.Pair.{Pair};
ghost use Rattle.tc_space.specs.Frames.{In, Keeps, Reads};
ghost use Rattle.tc_space.specs.Lists.{StaysList};
ghost use Rattle.tc_space.specs.Refusals.{Blames};
ghost use Rattle.tc_space.specs.Stores.{IsReady};
ghost use Rattle.td_index.specs.Checks.{AreBoth, AreHeld, Both, IsExact, IsLooked, StaysBoth, StaysRows, firsts_by};
ghost use Rattle.td_index.specs.Entries.{entry};

use crate::entries::entry_of;
use std::alloc::{AllocError, Global};
use tc_base::{Blob, Blobs, Steps};
use tc_space::{Multi, RecErr, Records};

/// What an index has of a row: parts of its bytes.
pub trait Picks {
    ghost use Rattle.std.specs.Prelude.{◌≤◌, false};
    ghost use Rattle.td_index.specs.Entries.{has_zero, times};

    ghost parts_of: { Self → List ℕ → List (List ℕ) };

    fn parts(&self, alloc: Global, bytes: &[u8]) -> Result<Blobs, AllocError>
        ensures { IfOk result (λ found. found ≡ parts_of self.now bytes.now) };

    /// No part has a zero byte.
    ghost whole: { (p : Self) (bytes part : List ℕ) → 1 ≤ times part (parts_of p bytes) → has_zero part ≡ false };

    /// None comes twice.
    ghost once: { (p : Self) (bytes part : List ℕ) → times part (parts_of p bytes) ≤ 1 };
}

// What the index has of the row of a key.
fn parts_at<R: Records, P: Picks>(
    alloc: Global,
    picks: &P,
    rows: &mut R,
    space: &mut R::S,
    key: &[u8],
) -> Result<Blobs, RecErr>
    requires { IsReady R.S.Space (In R.S.Space R.file_of R.holds) rows.old space.old }
    ensures parts { IfOk result (λ found. (m : Map) → In R.S.Space R.file_of R.holds rows.old space.old m → firsts_by (P.parts_of picks.now) m key.now ≡ found) }
    ensures reads { Reads R.S.Space (In R.S.Space R.file_of R.holds) rows.old rows.new space.old space.new }
    ensures keeps { Keeps R.S.Space space.old space.new }
    ensures stays { StaysRows R.Records rows.old rows.new }
    ensures cause { Blames R.S.Space result space.old space.new }
{
    let mut steps: Steps<R> = Steps::new();
    let Some(bytes) = rows.get(space, key, &mut steps)? else {
        return Ok(Blobs::new(alloc));
    };
    let found = picks.parts(alloc, bytes.as_slice())?;
    Ok(found)
}

// Whether the list has the key of a part.
fn has_entry<M: Multi>(
    alloc: Global,
    tree: &mut M,
    space: &mut M::S,
    part: &[u8],
    key: &[u8],
) -> Result<bool, RecErr>
    requires { IsReady M.S.Space (In M.S.Space M.file_of M.holds) tree.old space.old }
    ensures held { IfOk result (λ has. (ps : List Pair) → In M.S.Space M.file_of M.holds tree.old space.old ps → has ≡ is_some (first ps (entry part.now key.now))) }
    ensures reads { Reads M.S.Space (In M.S.Space M.file_of M.holds) tree.old tree.new space.old space.new }
    ensures keeps { Keeps M.S.Space space.old space.new }
    ensures stays { StaysList M.file_of M.made M.lead tree.old tree.new }
    ensures cause { Blames M.S.Space result space.old space.new }
{
    let entry = entry_of(alloc, part, key)?;
    let mut steps: Steps<M> = Steps::new();
    let found = tree.get(space, entry.as_slice(), &mut steps)?;
    Ok(found.is_some())
}

// Whether it has the keys of all these parts.
fn has_entries<M: Multi>(
    alloc: Global,
    tree: &mut M,
    space: &mut M::S,
    parts: &[Blob],
    key: &[u8],
) -> Result<bool, RecErr>
    requires { IsReady M.S.Space (In M.S.Space M.file_of M.holds) tree.old space.old }
    ensures held { IfOk result (λ has. (ps : List Pair) → In M.S.Space M.file_of M.holds tree.old space.old ps → AreHeld parts.now key.now ps has) }
    ensures reads { Reads M.S.Space (In M.S.Space M.file_of M.holds) tree.old tree.new space.old space.new }
    ensures keeps { Keeps M.S.Space space.old space.new }
    ensures stays { StaysList M.file_of M.made M.lead tree.old tree.new }
    ensures cause { Blames M.S.Space result space.old space.new }
{
    for i in 0..parts.len() {
        if !has_entry(alloc, tree, space, parts[i].as_slice(), key)? {
            return Ok(false);
        }
    }
    Ok(true)
}

// Whether it has the keys of all parts that a row gives: how many it gives, or nothing where the list lacks one.
fn look<R: Records, M: Multi<S = R::S>, P: Picks>(
    alloc: Global,
    picks: &P,
    rows: &mut R,
    tree: &mut M,
    space: &mut R::S,
    key: &[u8],
) -> Result<Option<u64>, RecErr>
    requires rows { IsReady R.S.Space (In R.S.Space R.file_of R.holds) rows.old space.old }
    requires tree { IsReady R.S.Space (In R.S.Space M.file_of M.holds) tree.old space.old }
    ensures looked { IfOk result (λ found. (b : Both) → AreBoth R.S.Space R.Records M.Multi (rows.old, tree.old) space.old b → IsLooked (firsts_by (P.parts_of picks.now) b.0) key.now b.1 found) }
    ensures small { IfOk result (λ found. IfSome found (λ n. n < 2 ^ 64)) }
    ensures reads { Reads R.S.Space (AreBoth R.S.Space R.Records M.Multi) (rows.old, tree.old) (rows.new, tree.new) space.old space.new }
    ensures stays { StaysBoth R.Records M.Multi (rows.old, tree.old) (rows.new, tree.new) }
    ensures rows { IsReady R.S.Space (In R.S.Space R.file_of R.holds) rows.new space.new }
    ensures tree { IsReady R.S.Space (In R.S.Space M.file_of M.holds) tree.new space.new }
    ensures keeps { Keeps R.S.Space space.old space.new }
    ensures cause { Blames R.S.Space result space.old space.new }
{
    let parts = parts_at(alloc, picks, rows, space, key)?;
    if !has_entries(alloc, tree, space, parts.as_slice(), key)? {
        return Ok(None);
    }
    Ok(Some(parts.len() as u64))
}

/// Whether the list's keys are exactly those that are owed for the rows, each held once, where these are the keys of all rows. It takes a search in the map a row, one in the
/// list a part of a row, and no memory but for one row and its parts.
pub fn check_entries<R: Records, M: Multi<S = R::S>, P: Picks>(
    alloc: Global,
    picks: &P,
    rows: &mut R,
    tree: &mut M,
    space: &mut R::S,
    row_keys: &[Blob],
) -> Result<bool, RecErr>
    requires rows { IsReady R.S.Space (In R.S.Space R.file_of R.holds) rows.old space.old }
    requires tree { IsReady R.S.Space (In R.S.Space M.file_of M.holds) tree.old space.old }
    ensures exact { IfOk result (λ all. (b : Both) → AreBoth R.S.Space R.Records M.Multi (rows.old, tree.old) space.old b → IsExact (P.parts_of picks.now) row_keys.now all b) }
    ensures reads { Reads R.S.Space (AreBoth R.S.Space R.Records M.Multi) (rows.old, tree.old) (rows.new, tree.new) space.old space.new }
    ensures keeps { Keeps R.S.Space space.old space.new }
    ensures stays { StaysBoth R.Records M.Multi (rows.old, tree.old) (rows.new, tree.new) }
    ensures cause { Blames R.S.Space result space.old space.new }
{
    let mut found: u128 = 0;
    for i in 0..row_keys.len() {
        let Some(n) = look(alloc, picks, rows, tree, space, row_keys[i].as_slice())? else {
            return Ok(false);
        };
        found += u128::from(n);
    }
    Ok(u128::from(tree.count()) == found)
}
