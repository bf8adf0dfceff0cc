//! The list of pairs of a tree.
ghost use Rattle.std.specs.Prelude.{◌≡◌, ◌++◌, drop, map, IfOk};
ghost use Rattle.std.specs.Option.{option_copied};
ghost use Rattle.tc_base.specs.Orders.{order};
ghost use Rattle.tc_base.specs.Lists.{pair, values, first, with_values, with_first, with_last, without_first, without_all, keys, from_on, before};
ghost use Rattle.tc_plain.specs.Bodies.{is_in, part_of};
ghost use Rattle.tc_model.specs.Meaning.{at_most};

use crate::maps::Copied;
use std::alloc::{AllocError, Global};
use std::cmp::Ordering;
use tc_base::{Blob, Blobs, Decimal, Key, Keys, Lexical, Order, Pair, Pairs};

// How two keys stand.
fn compare(decimal: bool, a: &[u8], b: &[u8]) -> Ordering
    ensures { result ≡ order decimal a.now b.now }
{
    if decimal {
        Decimal::order(a, b)
    } else {
        Lexical::order(a, b)
    }
}

/// The first value of a key.
pub fn first_of<'a>(pairs: &'a [Pair], key: &[u8]) -> Option<&'a Blob>
    ensures { option_copied result ≡ first pairs.now key.now }
{
    for pair in pairs {
        if pair.key.as_slice() == key {
            return Some(&pair.value);
        }
    }
    None
}

/// The values of a key, in order of arrival.
pub fn values_of(alloc: Global, pairs: &[Pair], key: &[u8]) -> Result<Blobs, AllocError>
    ensures { IfOk result (λ vs. vs ≡ values pairs.now key.now) }
{
    let mut found = Blobs::new(alloc);
    for pair in pairs {
        if pair.key.as_slice() == key {
            found.push(pair.value.copied(alloc)?)?;
        }
    }
    Ok(found)
}

/// A part of a tree beside a key.
#[derive(Clone, Copy)]
pub enum Part {
    Below,
    Above,
    /// The key and what is above it.
    From,
}

fn is_in(part: Part, order: Ordering) -> bool
    ensures { result ≡ is_in part order }
{
    match part {
        Part::Below => order.is_lt(),
        Part::Above => order.is_gt(),
        Part::From => order.is_ge(),
    }
}

// The pairs of a part beside a key, behind others.
fn with_part(
    alloc: Global,
    decimal: bool,
    part: Part,
    pairs: &[Pair],
    key: &[u8],
    front: Pairs,
) -> Result<Pairs, AllocError>
    ensures { IfOk result (λ ps. ps ≡ front ++ part_of part (order decimal) pairs.now key.now) }
{
    let mut found = front;
    for pair in pairs {
        if is_in(part, compare(decimal, pair.key.as_slice(), key)) {
            found.push(pair.copied(alloc)?)?;
        }
    }
    Ok(found)
}

/// With these values under a key behind.
pub fn with_under(
    alloc: Global,
    key: &[u8],
    values: &[Blob],
    front: Pairs,
) -> Result<Pairs, AllocError>
    ensures { IfOk result (λ ps. ps ≡ front ++ map (pair key.now) values.now) }
{
    let mut found = front;
    for value in values {
        found.push(Pair {
            key: Blob::from_slice(alloc, key)?,
            value: value.copied(alloc)?,
        })?;
    }
    Ok(found)
}

// The pairs with these values under a key, in place of those that it had.
fn replaced(
    alloc: Global,
    decimal: bool,
    pairs: &[Pair],
    key: &[u8],
    values: &[Blob],
) -> Result<Pairs, AllocError>
    ensures { IfOk result (λ ps. ps ≡ with_values (order decimal) pairs.now key.now values.now) }
{
    let empty = Pairs::new(alloc);
    let front = with_part(alloc, decimal, Part::Below, pairs, key, empty)?;
    let middle = with_under(alloc, key, values, front)?;
    with_part(alloc, decimal, Part::Above, pairs, key, middle)
}

// All but the first.
fn rest_of(texts: Blobs) -> Result<Vec<Blob>, AllocError>
    ensures { IfOk result (λ rest. rest.items ≡ drop 1 texts) }
{
    let mut all = texts.into_vec();
    let first = all.len().min(1);
    all.split_off(first)
}

/// The first value of a key is another one, or the pair comes in.
pub fn with_first(
    alloc: Global,
    decimal: bool,
    pairs: &[Pair],
    key: &[u8],
    value: Blob,
) -> Result<Pairs, AllocError>
    ensures { IfOk result (λ ps. ps ≡ with_first (order decimal) pairs.now key.now value) }
{
    let mut values = rest_of(values_of(alloc, pairs, key)?)?;
    values.insert(0, value)?;
    replaced(alloc, decimal, pairs, key, &values)
}

/// A value comes behind those of its key.
pub fn with_last(
    alloc: Global,
    decimal: bool,
    pairs: &[Pair],
    key: &[u8],
    value: Blob,
) -> Result<Pairs, AllocError>
    ensures { IfOk result (λ ps. ps ≡ with_last (order decimal) pairs.now key.now value) }
{
    let mut values = values_of(alloc, pairs, key)?;
    values.push(value)?;
    replaced(alloc, decimal, pairs, key, values.as_slice())
}

/// Without the first value of a key.
pub fn without_first(
    alloc: Global,
    decimal: bool,
    pairs: &[Pair],
    key: &[u8],
) -> Result<Pairs, AllocError>
    ensures { IfOk result (λ ps. ps ≡ without_first (order decimal) pairs.now key.now) }
{
    let values = rest_of(values_of(alloc, pairs, key)?)?;
    replaced(alloc, decimal, pairs, key, &values)
}

/// Without all values of a key.
pub fn without_all(
    alloc: Global,
    decimal: bool,
    pairs: &[Pair],
    key: &[u8],
) -> Result<Pairs, AllocError>
    ensures { IfOk result (λ ps. ps ≡ without_all (order decimal) pairs.now key.now) }
{
    replaced(alloc, decimal, pairs, key, &[])
}

/// The keys, each once.
pub fn keys_of(alloc: Global, pairs: &[Pair]) -> Result<Keys, AllocError>
    ensures { IfOk result (λ ks. ks ≡ keys pairs.now) }
{
    let mut found = Keys::new(alloc);
    let [first, rest @ ..] = pairs else {
        return Ok(found);
    };
    let mut last = first.key.as_slice();
    for pair in rest {
        if pair.key.as_slice() == last {
            continue;
        }
        found.push(Key::from_slice(alloc, last)?)?;
        last = pair.key.as_slice();
    }
    found.push(Key::from_slice(alloc, last)?)?;
    Ok(found)
}

// At most so many.
fn cut_to(pairs: Pairs, maximum: Option<u64>) -> Pairs
    ensures { result ≡ at_most maximum pairs }
{
    match maximum {
        Some(n) => {
            let mut all = pairs.into_vec();
            all.truncate(n as usize);
            Pairs::from_vec(all)
        }
        None => pairs,
    }
}

/// The pairs from a key on, and before another if there is one, at most so many.
pub fn ranged(
    alloc: Global,
    decimal: bool,
    pairs: &[Pair],
    from: &[u8],
    to: &Option<Blob>,
    maximum: Option<u64>,
) -> Result<Pairs, AllocError>
    ensures { IfOk result (λ ps. ps ≡ at_most maximum (before (order decimal) to.now (from_on (order decimal) from.now pairs.now))) }
{
    let found = with_part(alloc, decimal, Part::From, pairs, from, Pairs::new(alloc))?;
    match to {
        Some(to) => {
            let empty = Pairs::new(alloc);
            let inside = with_part(
                alloc,
                decimal,
                Part::Below,
                found.as_slice(),
                to.as_slice(),
                empty,
            )?;
            Ok(cut_to(inside, maximum))
        }
        None => Ok(cut_to(found, maximum)),
    }
}
