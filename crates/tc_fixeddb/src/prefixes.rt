//! The ids whose texts begin with that of a number.
ghost use Rattle.std.specs.Prelude.{◌≡◌, ◌≤◌, ◌^◌, ◌-◌, option_map, IfOk, OnOk};
ghost use Rattle.tc_space.specs.Frames.{Keeps};
ghost use Rattle.tc_space.specs.Refusals.{Blames};
ghost use Rattle.tc_fixed.specs.Holding.{SameShape};
ghost use Rattle.tc_fixed.specs.Listing.{first_of, ids_in};
ghost use Rattle.tc_fixeddb.specs.Changing.{ListsOn, OfIds, ReadsIds, ReadyIds, ids_begun};

use std::alloc::Global;
use tc_fixed::Fixed;
use tc_space::{RecErr, Space};

// How many more may be listed.
fn rest_of(most: Option<u64>, listed: usize) -> Option<u64>
    ensures { result ≡ option_map (λ n. n - listed) most }
{
    match most {
        Some(n) => Some(n.saturating_sub(listed as u64)),
        None => None,
    }
}

// Adds the ids held from one on and before another to those listed so far, at most so many in all.
fn add_range<S: Space>(
    fixed: &mut Fixed<S>,
    space: &mut S,
    from: u64,
    to: u64,
    most: Option<u64>,
    into: &mut Vec<u64>,
) -> Result<(), RecErr>
    requires ready { ReadyIds S.Space fixed.old space.old }
    ensures listed { OnOk result (ListsOn S.Space most (λ m. ids_in m from to) fixed.old space.old into.old.items into.new.items) }
    ensures reads { ReadsIds S.Space fixed.old fixed.new space.old space.new }
    ensures keeps { Keeps S.Space space.old space.new }
    ensures shape { SameShape fixed.old fixed.new }
    ensures cause { Blames S.Space result space.old space.new }
{
    let rest = rest_of(most, into.len());
    fixed.ids_in(space, from, to, rest, into)
}

/// The ids held whose texts begin with that of a number, in order, at most so many. They are those from n·10^k on and before (n + 1)·10^k, for
/// each k, and only cells of these are read.
pub fn ids_beginning<S: Space>(
    alloc: Global,
    fixed: &mut Fixed<S>,
    space: &mut S,
    n: u64,
    most: Option<u64>,
) -> Result<Vec<u64>, RecErr>
    requires ready { ReadyIds S.Space fixed.old space.old }
    requires n { (1 ≤ n) × (n ≤ 2 ^ 40) }
    ensures value { IfOk result (λ found. OfIds S.Space fixed.old space.old (λ m. found.items ≡ first_of most (ids_begun n m))) }
    ensures reads { ReadsIds S.Space fixed.old fixed.new space.old space.new }
    ensures keeps { Keeps S.Space space.old space.new }
    ensures shape { SameShape fixed.old fixed.new }
    ensures cause { Blames S.Space result space.old space.new }
{
    let mut found = Vec::new(alloc);
    let greatest = fixed.greatest();
    let mut from = n;
    let mut to = n + 1;
    while from <= greatest {
        add_range(fixed, space, from, to, most, &mut found)?;
        from *= 10;
        to *= 10;
    }
    Ok(found)
}
