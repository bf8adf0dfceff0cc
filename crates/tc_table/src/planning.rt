//! The primary keys that an index names.
#![tactic(auto, using(tc_space::specs::Frames::keeps_refl, tc_space::specs::Frames::keeps_then, tc_space::specs::Frames::reads_refl, tc_space::specs::Frames::reads_then, td_index::proofs::Keeping::packed_stays, td_index::proofs::Listed::stays_refl, td_index::proofs::Listed::stays_then))]

ghost use Rattle.std.specs.Prelude.{◌≡◌, ◌++◌, ℕ, List, [], true, false, IfOk};
ghost use Rattle.tc_space.specs.Frames.{Keeps, Reads};
ghost use Rattle.tc_space.specs.Lists.{StaysList};
ghost use Rattle.tc_space.specs.Refusals.{Blames};
ghost use Rattle.tc_space.specs.Stores.{AnswersIn, ReadsIn, ReadyIn};
ghost use Rattle.td_index.specs.Entries.{times};
ghost use Rattle.td_index.specs.Ranges.{candidates};
ghost use Rattle.tc_table.specs.Searching.{AreAsked, AreCounted, AreLeft, AsksTokens, NamesAt, NamesKeys, NamesSide, NamesTree, OfRows, has_asked};
ghost use Rattle.tc_table.specs.Sides.{AllReady, AllStand, AllStay, SideStands, StaysSide, StaysTree, TreeReady, TreeStands};

use crate::side::{Side, Sorted};
use bt_order::ValueCut;
use std::alloc::{AllocError, Global};
use tc_base::{Blob, Blobs, Cut, Decimal, Lexical, Steps};
use tc_model::Cond;
use tc_space::{Multi, RecErr, Space};
use td_index::keys_in;
use td_plan::Span;
use td_token::{common, distinct, tokens};

// The primary keys of the pairs inside a stretch, in the tree's order.
fn keys_inside<M: Multi, C: Cut<M::O>>(
    alloc: Global,
    tree: &mut M,
    space: &mut M::S,
    cut: &C,
) -> Result<Blobs, RecErr>
    requires { ReadyIn M.S.Space M.file_of M.holds tree.old space.old }
    ensures value { AnswersIn M.S.Space M.file_of M.holds result (candidates (C.side_of cut.now)) tree.old space.old }
    ensures reads { ReadsIn M.S.Space M.file_of M.holds tree.old tree.new space.old space.new }
    ensures keeps { Keeps M.S.Space space.old space.new }
    ensures stays { StaysList M.file_of M.made M.lead tree.old tree.new }
    ensures cause { Blames M.S.Space result space.old space.new }
{
    let mut steps: Steps<M> = Steps::new();
    keys_in(alloc, tree, space, cut, &mut steps)
}

// The primary keys of the rows with a token.
fn keys_with<M: Multi<O = Lexical>>(
    alloc: Global,
    tree: &mut M,
    space: &mut M::S,
    token: &Blob,
) -> Result<Blobs, RecErr>
    requires { ReadyIn M.S.Space M.file_of M.holds tree.old space.old }
    ensures named { IfOk result (λ ks. OfRows M.S.Space M.Multi tree.old space.old (λ h. (k : List ℕ) → times k ks ≡ times token.now (h k))) }
    ensures reads { ReadsIn M.S.Space M.file_of M.holds tree.old tree.new space.old space.new }
    ensures keeps { Keeps M.S.Space space.old space.new }
    ensures stays { StaysList M.file_of M.made M.lead tree.old tree.new }
    ensures cause { Blames M.S.Space result space.old space.new }
{
    let value = Blob::from_slice(alloc, token.as_slice())?;
    let cut = ValueCut { value };
    keys_inside(alloc, tree, space, &cut)
}

// Of some keys those of rows that have all these tokens too.
fn keep_all<M: Multi<O = Lexical>>(
    alloc: Global,
    tree: &mut M,
    space: &mut M::S,
    wanted: &[Blob],
    first: Blobs,
) -> Result<Blobs, RecErr>
    requires { ReadyIn M.S.Space M.file_of M.holds tree.old space.old }
    ensures named { IfOk result (λ ks. OfRows M.S.Space M.Multi tree.old space.old (λ h. AreLeft wanted.now first h ks)) }
    ensures reads { ReadsIn M.S.Space M.file_of M.holds tree.old tree.new space.old space.new }
    ensures keeps { Keeps M.S.Space space.old space.new }
    ensures stays { StaysList M.file_of M.made M.lead tree.old tree.new }
    ensures cause { Blames M.S.Space result space.old space.new }
{
    let mut found = first;
    for i in 0..wanted.len() {
        let others = keys_with(alloc, tree, space, &wanted[i])?;
        found = common(alloc, found, others.as_slice())?;
    }
    Ok(found)
}

// The keys of the rows that have all tokens, of which there is one.
fn having_all<M: Multi<O = Lexical>>(
    alloc: Global,
    tree: &mut M,
    space: &mut M::S,
    wanted: &[Blob],
) -> Result<Blobs, RecErr>
    requires { ReadyIn M.S.Space M.file_of M.holds tree.old space.old }
    ensures some { IfOk result (λ ks. has_asked true wanted.now [] ≡ false) }
    ensures named { IfOk result (λ ks. OfRows M.S.Space M.Multi tree.old space.old (λ h. AreAsked true wanted.now h ks)) }
    ensures reads { ReadsIn M.S.Space M.file_of M.holds tree.old tree.new space.old space.new }
    ensures keeps { Keeps M.S.Space space.old space.new }
    ensures stays { StaysList M.file_of M.made M.lead tree.old tree.new }
    ensures cause { Blames M.S.Space result space.old space.new }
{
    let Some((token, more)) = wanted.split_first() else {
        return Err(RecErr::Memory);
    };
    let first = keys_with(alloc, tree, space, token)?;
    keep_all(alloc, tree, space, more, first)
}

// Some keys, and others behind them.
fn joined(first: Blobs, others: Blobs) -> Result<Blobs, AllocError>
    ensures { IfOk result (λ ks. ks ≡ first ++ others) }
{
    let mut keys = first;
    for key in others.into_vec() {
        keys.push(key)?;
    }
    Ok(keys)
}

// The keys of rows with some of these tokens, each as often as its row has one of them.
fn keys_of_each<M: Multi<O = Lexical>>(
    alloc: Global,
    tree: &mut M,
    space: &mut M::S,
    wanted: &[Blob],
) -> Result<Blobs, RecErr>
    requires { ReadyIn M.S.Space M.file_of M.holds tree.old space.old }
    ensures named { IfOk result (λ ks. OfRows M.S.Space M.Multi tree.old space.old (λ h. AreCounted wanted.now h ks)) }
    ensures reads { ReadsIn M.S.Space M.file_of M.holds tree.old tree.new space.old space.new }
    ensures keeps { Keeps M.S.Space space.old space.new }
    ensures stays { StaysList M.file_of M.made M.lead tree.old tree.new }
    ensures cause { Blames M.S.Space result space.old space.new }
{
    let mut found = Blobs::new(alloc);
    for i in 0..wanted.len() {
        let others = keys_with(alloc, tree, space, &wanted[i])?;
        found = joined(found, others)?;
    }
    Ok(found)
}

// The keys of the rows that have some.
fn having_some<M: Multi<O = Lexical>>(
    alloc: Global,
    tree: &mut M,
    space: &mut M::S,
    wanted: &[Blob],
) -> Result<Blobs, RecErr>
    requires { ReadyIn M.S.Space M.file_of M.holds tree.old space.old }
    ensures named { IfOk result (λ ks. OfRows M.S.Space M.Multi tree.old space.old (λ h. AreAsked false wanted.now h ks)) }
    ensures reads { ReadsIn M.S.Space M.file_of M.holds tree.old tree.new space.old space.new }
    ensures keeps { Keeps M.S.Space space.old space.new }
    ensures stays { StaysList M.file_of M.made M.lead tree.old tree.new }
    ensures cause { Blames M.S.Space result space.old space.new }
{
    let found = keys_of_each(alloc, tree, space, wanted)?;
    let keys = distinct(alloc, found.as_slice())?;
    Ok(keys)
}

// The keys of the rows that a condition on tokens names.
fn token_keys<M: Multi<O = Lexical>>(
    alloc: Global,
    tree: &mut M,
    space: &mut M::S,
    cond: &Cond,
    all: bool,
) -> Result<Blobs, RecErr>
    requires { ReadyIn M.S.Space M.file_of M.holds tree.old space.old }
    ensures named { IfOk result (λ ks. AsksTokens M.S.Space M.Multi cond.now all tree.old space.old ks) }
    ensures reads { ReadsIn M.S.Space M.file_of M.holds tree.old tree.new space.old space.new }
    ensures keeps { Keeps M.S.Space space.old space.new }
    ensures stays { StaysList M.file_of M.made M.lead tree.old tree.new }
    ensures cause { Blames M.S.Space result space.old space.new }
{
    let asked = tokens(alloc, cond.expression.as_slice())?;
    let wanted = asked.as_slice();
    if all {
        return having_all(alloc, tree, space, wanted);
    }
    having_some(alloc, tree, space, wanted)
}

// The keys that a stretch of an index by bytes names.
fn lexical_keys<M: Multi<O = Lexical>>(
    alloc: Global,
    tree: &mut M,
    space: &mut M::S,
    cond: &Cond,
    span: &Span,
) -> Result<Blobs, RecErr>
    requires { ReadyIn M.S.Space M.file_of M.holds tree.old space.old }
    ensures named { IfOk result (λ ks. NamesKeys M.S.Space M.Multi cond.now span.now tree.old space.old ks) }
    ensures reads { ReadsIn M.S.Space M.file_of M.holds tree.old tree.new space.old space.new }
    ensures keeps { Keeps M.S.Space space.old space.new }
    ensures stays { StaysList M.file_of M.made M.lead tree.old tree.new }
    ensures cause { Blames M.S.Space result space.old space.new }
{
    match span {
        Span::Value(cut) => keys_inside(alloc, tree, space, cut),
        Span::Begin(cut) => keys_inside(alloc, tree, space, cut),
        Span::AllTokens => token_keys(alloc, tree, space, cond, true),
        Span::SomeToken => token_keys(alloc, tree, space, cond, false),
        Span::Number(_) => Err(RecErr::Memory),
    }
}

// The same of one by numbers.
fn decimal_keys<M: Multi<O = Decimal>>(
    alloc: Global,
    tree: &mut M,
    space: &mut M::S,
    cond: &Cond,
    span: &Span,
) -> Result<Blobs, RecErr>
    requires { ReadyIn M.S.Space M.file_of M.holds tree.old space.old }
    ensures named { IfOk result (λ ks. NamesKeys M.S.Space M.Multi cond.now span.now tree.old space.old ks) }
    ensures reads { ReadsIn M.S.Space M.file_of M.holds tree.old tree.new space.old space.new }
    ensures keeps { Keeps M.S.Space space.old space.new }
    ensures stays { StaysList M.file_of M.made M.lead tree.old tree.new }
    ensures cause { Blames M.S.Space result space.old space.new }
{
    match span {
        Span::Number(cut) => keys_inside(alloc, tree, space, cut),
        _ => Err(RecErr::Memory),
    }
}

// The keys that a stretch of a tree names.
fn tree_keys<S: Space, L: Multi<S = S, O = Lexical>, D: Multi<S = S, O = Decimal>>(
    alloc: Global,
    tree: &mut Sorted<L, D>,
    space: &mut S,
    cond: &Cond,
    span: &Span,
) -> Result<Blobs, RecErr>
    requires { TreeReady S.Space L.Multi D.Multi tree.old space.old }
    ensures named { IfOk result (λ ks. NamesTree S.Space L.Multi D.Multi cond.now span.now tree.old space.old ks) }
    ensures reads { Reads S.Space (TreeStands S.Space L.Multi D.Multi) tree.old tree.new space.old space.new }
    ensures keeps { Keeps S.Space space.old space.new }
    ensures stays { StaysTree L.Multi D.Multi tree.old tree.new }
    ensures cause { Blames S.Space result space.old space.new }
{
    match tree {
        Sorted::Lexical(index) => lexical_keys(alloc, &mut index.tree, space, cond, span),
        Sorted::Decimal(index) => decimal_keys(alloc, &mut index.tree, space, cond, span),
    }
}

// The keys that a stretch of an index names.
fn side_keys<S: Space, L: Multi<S = S, O = Lexical>, D: Multi<S = S, O = Decimal>>(
    alloc: Global,
    side: &mut Side<L, D>,
    space: &mut S,
    cond: &Cond,
    span: &Span,
) -> Result<Blobs, RecErr>
    requires { TreeReady S.Space L.Multi D.Multi side.old.tree space.old }
    ensures named { IfOk result (λ ks. NamesSide S.Space L.Multi D.Multi cond.now span.now side.old space.old ks) }
    ensures reads { Reads S.Space (SideStands S.Space L.Multi D.Multi) side.old side.new space.old space.new }
    ensures keeps { Keeps S.Space space.old space.new }
    ensures stays { StaysSide L.Multi D.Multi side.old side.new }
    ensures cause { Blames S.Space result space.old space.new }
{
    tree_keys(alloc, &mut side.tree, space, cond, span)
}

/// The keys that a stretch of the index at a place names.
pub(crate) fn keys_at<S: Space, L: Multi<S = S, O = Lexical>, D: Multi<S = S, O = Decimal>>(
    alloc: Global,
    sides: &mut [Side<L, D>],
    place: usize,
    space: &mut S,
    cond: &Cond,
    span: &Span,
) -> Result<Blobs, RecErr>
    requires { AllReady S.Space L.Multi D.Multi sides.old space.old }
    ensures named { IfOk result (λ ks. NamesAt S.Space L.Multi D.Multi cond.now span.now place sides.old space.old ks) }
    ensures reads { Reads S.Space (AllStand S.Space L.Multi D.Multi) sides.old sides.new space.old space.new }
    ensures keeps { Keeps S.Space space.old space.new }
    ensures stays { AllStay L.Multi D.Multi sides.old sides.new }
    ensures cause { Blames S.Space result space.old space.new }
{
    let Some((first, rest)) = sides.split_first_mut() else {
        return Err(RecErr::Memory);
    };
    if place == 0 {
        return side_keys(alloc, first, space, cond, span);
    }
    keys_at(alloc, rest, place - 1, space, cond, span)
}
