//! The condition of a query that is looked up in an index.
ghost use Rattle.std.specs.Prelude.{◌≡◌, length, MatchOption};
ghost use Rattle.td_plan.specs.Choices as choices;
ghost use Rattle.td_plan.specs.Choices.{IsUnserved, NoneServed, IsFirst, IsChosen};

use tc_base::{Blob, Seq};
use tc_model::{Cond, IndexKind, Query};
use td_query::has_token;

/// An indexed column, and its index's type.
#[derive(Drop)]
pub struct Indexed {
    pub column: Blob,
    pub kind: IndexKind,
}

/// The indexed columns of a table.
pub type Names = Seq<Indexed>;

/// The places of an index and of the condition that it serves, counted from 0.
#[derive(Clone, Copy, PartialEq, Eq)]
pub struct Choice {
    pub index: usize,
    pub cond: usize,
}

// Whether an operator asks for all tokens of an expression.
pub(crate) fn asks_all(operator: u8) -> bool
    ensures { result ≡ choices.asks_all operator }
{
    operator == 4 || (operator == 15 || operator == 16)
}

fn asks_some(operator: u8) -> bool
    ensures { result ≡ choices.asks_some operator }
{
    operator == 5 || operator == 17
}

// Whether an index of that type serves an operator and an expression.
fn serves(kind: IndexKind, operator: u8, e: &[u8]) -> bool
    ensures { result ≡ choices.serves kind operator e.now }
{
    match kind {
        IndexKind::Lexical => operator == 0 || operator == 2,
        IndexKind::Decimal => 8 <= operator && operator <= 13,
        IndexKind::Token => (asks_all(operator) || asks_some(operator)) && has_token(e),
    }
}

fn is_plain(cond: &Cond) -> bool
    ensures { result ≡ choices.is_plain cond.now }
{
    !cond.negated && (!cond.unindexed && cond.column.len() >= 1)
}

fn is_served(cond: &Cond, index: &Indexed) -> bool
    ensures { result ≡ choices.is_served cond.now index.now }
{
    is_plain(cond)
        && (index.column.as_slice() == cond.column.as_slice()
            && serves(index.kind, cond.operator, cond.expression.as_slice()))
}

// The place of the first index that serves a condition.
fn index_of(cond: &Cond, indexes: &Names) -> Option<usize>
    ensures { MatchOption result (IsUnserved indexes.now cond.now) (λ i. IsFirst (choices.is_served cond.now) indexes.now i) }
{
    for i in 0..indexes.len() {
        if is_served(cond, indexes.at(i)) {
            return Some(i);
        }
    }
    None
}

/// The first condition that an index serves, with that index: one of a column, without flags, whose operator is 0 or 2 where the index is lexical, 8 to 13 where it is
/// decimal, and 4, 5, 15, 16 or 17 where it is of tokens and the expression has one.
pub fn choose(q: &Query, indexes: &Names) -> Option<Choice>
    ensures { MatchOption result (NoneServed q.now indexes.now (length q.now.conds)) (λ x. IsChosen q.now indexes.now x) }
{
    for i in 0..q.conds.len() {
        match index_of(q.conds.at(i), indexes) {
            Some(index) => return Some(Choice { index, cond: i }),
            None => {}
        }
    }
    None
}
