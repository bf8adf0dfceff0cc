//! Lists of pairs, made anew by each change.
ghost use Rattle.std.specs.Prelude.{◌≡◌, ◌<◌, ◌++◌, ◌∷◌, [], ℕ, List, map, filter, drop, take, OnOk, OnErr, IfOk};
ghost use Rattle.tc_base.specs.Lists.{pair as pair_of, values, with_values};
ghost use Rattle.tc_base.specs.declared.seq.Pair.{Pair};
ghost use Rattle.tc_space.specs.Changes.{inside, is_inside};
ghost use Rattle.tc_memstores.specs.Sides.{is_wanted};

use std::alloc::{AllocError, Global};
use tc_base::{Blob, Blobs, Cut, Order, Pair, Pairs, Side};

// A copy of a pair.
fn copied(alloc: Global, pair: &Pair) -> Result<Pair, AllocError>
    ensures { IfOk result (λ p. p ≡ pair.now) }
{
    let key = Blob::from_slice(alloc, pair.key.as_slice())?;
    let value = Blob::from_slice(alloc, pair.value.as_slice())?;
    Ok(Pair { key, value })
}

// Whether a pair's key is above the key, or else below it.
fn is_beside<O: Order>(pair: &Pair, key: &[u8], above: bool) -> bool
    ensures { result ≡ is_wanted above (O.cmp pair.now.key key.now) }
{
    let order = O::order(pair.key.as_slice(), key);
    if above { order.is_gt() } else { order.is_lt() }
}

// Adds the pairs above a key, or else those below it.
fn add_beside<O: Order>(
    alloc: Global,
    into: &mut Pairs,
    pairs: &[Pair],
    key: &[u8],
    above: bool,
) -> Result<(), AllocError>
    ensures { OnOk result (into.new ≡ into.old ++ filter (λ p. is_wanted above (O.cmp p.key key.now)) pairs.now) }
{
    for pair in pairs {
        if is_beside::<O>(pair, key, above) {
            into.push(copied(alloc, pair)?)?;
        }
    }
    Ok(())
}

// Adds a key with each of these values.
fn add_values(
    alloc: Global,
    into: &mut Pairs,
    key: &[u8],
    values: &[Blob],
) -> Result<(), AllocError>
    ensures { OnOk result (into.new ≡ into.old ++ map (pair_of key.now) values.now) }
{
    for value in values {
        let pair = Pair {
            key: Blob::from_slice(alloc, key)?,
            value: Blob::from_slice(alloc, value.as_slice())?,
        };
        into.push(pair)?;
    }
    Ok(())
}

/// The pairs with these values under a key, in place of those that it has.
pub fn with<O: Order>(
    alloc: Global,
    pairs: &Pairs,
    key: &[u8],
    values: &Blobs,
) -> Result<Pairs, AllocError>
    ensures { IfOk result (λ all. all ≡ with_values O.cmp pairs.now key.now values.now) }
{
    let mut all = Pairs::new(alloc);
    add_beside::<O>(alloc, &mut all, pairs.as_slice(), key, false)?;
    add_values(alloc, &mut all, key, values.as_slice())?;
    add_beside::<O>(alloc, &mut all, pairs.as_slice(), key, true)?;
    Ok(all)
}

/// The values of a key.
pub fn values_of(alloc: Global, pairs: &[Pair], key: &[u8]) -> Result<Blobs, AllocError>
    ensures { IfOk result (λ all. all ≡ values pairs.now key.now) }
{
    let mut all = Blobs::new(alloc);
    for pair in pairs {
        if pair.key.as_slice() == key {
            all.push(Blob::from_slice(alloc, pair.value.as_slice())?)?;
        }
    }
    Ok(all)
}

// Whether a key lies in a stretch.
fn lies_inside<O: Order, C: Cut<O>>(cut: &C, key: &[u8]) -> bool
    ensures { result ≡ is_inside (C.side_of cut.now key.now) }
{
    match cut.side(key) {
        Side::Inside => true,
        Side::Before => false,
        Side::After => false,
    }
}

// Adds a pair to those found where it lies inside, and says how many more are wanted.
fn offer<O: Order, C: Cut<O>>(
    alloc: Global,
    found: &mut Pairs,
    cut: &C,
    pair: &Pair,
    left: u64,
) -> Result<u64, AllocError>
    requires { 0 < left }
    ensures { IfOk result (λ n. (rest : List Pair) → found.new ++ take n (inside (C.side_of cut.now) rest) ≡ found.old ++ take left (inside (C.side_of cut.now) (pair.now ∷ rest))) }
{
    if !lies_inside::<O, C>(cut, pair.key.as_slice()) {
        return Ok(left);
    }
    found.push(copied(alloc, pair)?)?;
    Ok(left - 1)
}

/// The first pairs of a stretch of keys, at most so many.
pub fn pairs_inside<O: Order, C: Cut<O>>(
    alloc: Global,
    pairs: &[Pair],
    cut: &C,
    most: u64,
) -> Result<Pairs, AllocError>
    ensures { IfOk result (λ found. found ≡ take most (inside (C.side_of cut.now) pairs.now)) }
{
    let mut found = Pairs::new(alloc);
    let mut left = most;
    for i in 0..pairs.len() {
        if left == 0 {
            return Ok(found);
        }
        left = offer::<O, C>(alloc, &mut found, cut, &pairs[i], left)?;
    }
    Ok(found)
}
