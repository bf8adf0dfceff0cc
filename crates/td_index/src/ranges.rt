//! What an index holds inside a stretch of keys.
ghost use Rattle.std.specs.Prelude.{◌≡◌, [], map, IfOk};
ghost use Rattle.tc_space.specs.Frames.{In, Keeps};
ghost use Rattle.tc_space.specs.Lists.{StaysPacked};
ghost use Rattle.tc_space.specs.Refusals.{Blames};
ghost use Rattle.tc_space.specs.Stores.{AnswersIn, IsReady, ReadsIn, Ticks};
ghost use Rattle.td_index.specs.Ranges.{candidates, second};

use std::alloc::{AllocError, Global};
use tc_base::{Blob, Blobs, Cut, Pair, Pairs, Steps};
use tc_space::{Multi, RecErr};

// The primary key in a tree's key: what stands behind its first zero byte.
fn second_of(key: &[u8]) -> &[u8]
    ensures { result.now ≡ second key.now }
{
    for i in 0..key.len() {
        if key[i] == 0 {
            return &key[i + 1..];
        }
    }
    &[]
}

// A copy of that of a pair.
fn second_at(alloc: Global, pair: &Pair) -> Result<Blob, AllocError>
    ensures { IfOk result (λ k. k ≡ second pair.now.key) }
{
    let key = Blob::from_slice(alloc, second_of(pair.key.as_slice()))?;
    Ok(key)
}

// Those of pairs.
fn seconds(alloc: Global, pairs: Pairs) -> Result<Blobs, AllocError>
    ensures { IfOk result (λ keys. keys ≡ map (λ p. second p.key) pairs) }
{
    let mut keys = Blobs::new(alloc);
    for pair in pairs.into_vec() {
        keys.push(second_at(alloc, &pair)?)?;
    }
    Ok(keys)
}

/// The primary keys of all pairs whose keys are inside, in the list's order: one for each pair.
pub fn keys_in<M: Multi, C: Cut<M::O>, L>(
    alloc: Global,
    tree: &mut M,
    space: &mut M::S,
    cut: &C,
    steps: &mut Steps<L>,
) -> Result<Blobs, RecErr>
    requires { IsReady M.S.Space (In M.S.Space M.file_of M.holds) tree.old space.old }
    ensures value { AnswersIn M.S.Space M.file_of M.holds result (candidates (C.side_of cut.now)) tree.old space.old }
    ensures reads { ReadsIn M.S.Space M.file_of M.holds tree.old tree.new space.old space.new }
    ensures keeps { Keeps M.S.Space space.old space.new }
    ensures stays { StaysPacked M.file_of M.made M.lead M.tight tree.old tree.new }
    ensures steps { Ticks (M.gets tree.old) (M.gets tree.new) steps.old steps.new }
    ensures cause { Blames M.S.Space result space.old space.new }
{
    let count = tree.count();
    let pairs = tree.range(space, cut, count, steps)?;
    let keys = seconds(alloc, pairs)?;
    Ok(keys)
}
