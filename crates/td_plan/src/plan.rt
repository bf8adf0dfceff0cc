//! The plan of a search: which index is looked up, and what of it.
ghost use Rattle.std.specs.Prelude.{◌≡◌, ◌<◌, length, slice_get, true, Some, IfOk, IfSome, MatchOption};
ghost use Rattle.tc_model.specs.declared.query.Cond.{Cond as Condition};
ghost use Rattle.td_plan.specs.Choices.{IsChosen, NoneServed, is_served};
ghost use Rattle.td_plan.specs.Plans.{HasAll, IsCovered};
ghost use Rattle.td_plan.specs.Spans.{Covers};

use crate::choice::{Choice, Indexed, Names, choose};
use crate::span::{Span, span_of};
use std::alloc::{AllocError, Global};
use tc_model::{Cond, Query};

/// An index and the condition that it serves, and the stretch of it that has all rows which meet the query.
#[derive(Drop)]
pub struct Plan {
    pub choice: Choice,
    pub span: Span,
}

// The condition at a place.
fn cond_at(q: &Query, place: usize) -> &Cond
    requires { place < length q.now.conds }
    ensures { slice_get q.now.conds place ≡ Some result.now }
{
    q.conds.at(place)
}

// The index at a place.
fn index_at(indexes: &Names, place: usize) -> &Indexed
    requires { place < length indexes.now }
    ensures { slice_get indexes.now place ≡ Some result.now }
{
    indexes.at(place)
}

// The stretch of a condition that an index serves.
fn span_for(alloc: Global, cond: &Cond, index: &Indexed) -> Result<Span, AllocError>
    requires { is_served cond.now index.now ≡ true }
    ensures { IfOk result (λ s. Covers index.now.kind s cond.now.operator cond.now.expression) }
{
    span_of(alloc, index.kind, cond.operator, cond.expression.as_slice())
}

// The stretch of the condition that is chosen.
fn span_at(alloc: Global, q: &Query, indexes: &Names, choice: Choice) -> Result<Span, AllocError>
    requires { IsChosen q.now indexes.now choice }
    ensures { IfOk result (λ s. IsCovered q.now indexes.now choice s) }
{
    let cond = cond_at(q, choice.cond);
    let index = index_at(indexes, choice.index);
    span_for(alloc, cond, index)
}

/// The index that a query may use, the first condition that one serves, and the stretch of its pairs that meet it, which all rows that meet the query have; none where no index serves.
#[tactic(auto, using(crate::proofs::Planning::chosen_all))]
pub fn make_plan(alloc: Global, q: &Query, indexes: &Names) -> Result<Option<Plan>, AllocError>
    ensures chosen { IfOk result (λ o. MatchOption o (NoneServed q.now indexes.now (length q.now.conds)) (λ p. IsChosen q.now indexes.now p.choice)) }
    ensures covers { IfOk result (λ o. IfSome o (λ p. IsCovered q.now indexes.now p.choice p.span)) }
    ensures all { IfOk result (λ o. IfSome o (λ p. (c : Condition) → slice_get q.now.conds p.choice.cond ≡ Some c → HasAll q.now p.span c)) }
{
    let Some(choice) = choose(q, indexes) else {
        return Ok(None);
    };
    let span = span_at(alloc, q, indexes, choice)?;
    Ok(Some(Plan { choice, span }))
}
