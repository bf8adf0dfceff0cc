//! The stretch of an index that a condition asks for.
ghost use Rattle.std.specs.Prelude.{◌≡◌, ◌↔◌, ◌≤◌, ◌≤ℤ◌, ◌∷◌, ◌||◌, ◌^◌, ℤ, ℕ, List, pos, true, IfOk};
ghost use Rattle.std.proofs.Math.IntN.{◌+ℤ◌, ◌-ℤ◌, neg_ℤ};
ghost use Rattle.tc_base.specs.Decimal.{text_number};
ghost use Rattle.tc_model.specs.Operators.{is_between};
ghost use Rattle.tc_model.specs.Texts.{tokens};
ghost use Rattle.tc_model.specs.declared.query.IndexKind.TheVariants.{Lexical, Decimal, Token};
ghost use Rattle.td_plan.specs.Choices as choices;
ghost use Rattle.td_plan.specs.Choices.{serves};
ghost use Rattle.td_plan.specs.Spans.{Covers, IsFrom, IsMet, lies};

use crate::choice::asks_all;
use bt_order::{BeginCut, NumberCut, ValueCut};
use std::alloc::{AllocError, Global};
use tc_base::{Blob, number_of};
use tc_model::IndexKind;
use td_query::token_of;

/// A stretch of an index, or the tokens of the expression that is looked up.
#[derive(Drop)]
pub enum Span {
    /// The values that are these bytes, of a lexical index.
    Value(ValueCut),
    /// The values that begin with these bytes, of a lexical index.
    Begin(BeginCut),
    /// The values whose number is from one to another, of a decimal index.
    Number(NumberCut),
    /// The rows that have all tokens of the expression, of an index of tokens.
    AllTokens,
    /// The rows that have one of them.
    SomeToken,
}

// No number of a text is beyond these.
const NUMBER_END: i128 = 1_000_000_000_000_000_000_000_000_000;

// The number of a text, which isn't beyond the ends.
fn bounded(text: &[u8]) -> i128
    ensures value { result ≡ text_number text.now }
    ensures low { neg_ℤ (pos (10 ^ 27)) ≤ℤ result }
    ensures high { result ≤ℤ pos (10 ^ 27) }
{
    number_of(text)
}

// From a number up to another.
fn upwards(a: i128, b: i128) -> NumberCut
    requires { a ≤ℤ b }
    ensures { (v : ℤ) → IsFrom result v ↔ (lies v a b ≡ true) }
{
    NumberCut { low: a, high: b }
}

// From a number down to another.
fn downwards(a: i128, b: i128) -> NumberCut
    requires { b ≤ℤ a }
    ensures { (v : ℤ) → IsFrom result v ↔ (lies v a b ≡ true) }
{
    NumberCut { low: b, high: a }
}

// Between the numbers of two texts.
fn spanned(x: &[u8], y: &[u8]) -> NumberCut
    ensures { (v : ℤ) → IsFrom result v ↔ (lies v (text_number x.now) (text_number y.now) ≡ true) }
{
    let a = number_of(x);
    let b = number_of(y);
    if a <= b {
        return upwards(a, b);
    }
    downwards(a, b)
}

// Between the numbers of a token and the first of those behind it; nothing where there is none.
fn beside(first: &[u8], more: &[u8]) -> NumberCut
    ensures { (value : List ℕ) → IsFrom result (text_number value) ↔ (is_between (text_number value) (first.now ∷ tokens more.now) ≡ true) }
{
    let Some((second, _)) = token_of(more) else {
        return NumberCut { low: 1, high: 0 };
    };
    spanned(first, second)
}

// Between the numbers of the first two tokens; nothing where there are fewer.
fn between(e: &[u8]) -> NumberCut
    ensures { (value : List ℕ) → IsFrom result (text_number value) ↔ (is_between (text_number value) (tokens e.now) ≡ true) }
{
    let Some((first, more)) = token_of(e) else {
        return NumberCut { low: 1, high: 0 };
    };
    beside(first, more)
}

// A number alone.
fn exactly(n: i128) -> NumberCut
    ensures low { result.low ≡ n }
    ensures high { result.high ≡ n }
{
    NumberCut { low: n, high: n }
}

// The numbers above one.
fn above(n: i128) -> NumberCut
    requires { n ≤ℤ pos (10 ^ 27) }
    ensures low { result.low ≡ n +ℤ pos 1 }
    ensures high { result.high ≡ pos (10 ^ 27) }
{
    NumberCut {
        low: n + 1,
        high: NUMBER_END,
    }
}

// With it.
fn at_least(n: i128) -> NumberCut
    ensures low { result.low ≡ n }
    ensures high { result.high ≡ pos (10 ^ 27) }
{
    NumberCut {
        low: n,
        high: NUMBER_END,
    }
}

// The numbers below one.
fn below(n: i128) -> NumberCut
    requires { neg_ℤ (pos (10 ^ 27)) ≤ℤ n }
    ensures low { result.low ≡ neg_ℤ (pos (10 ^ 27)) }
    ensures high { result.high ≡ n -ℤ pos 1 }
{
    NumberCut {
        low: -NUMBER_END,
        high: n - 1,
    }
}

// With it.
fn at_most(n: i128) -> NumberCut
    ensures low { result.low ≡ neg_ℤ (pos (10 ^ 27)) }
    ensures high { result.high ≡ n }
{
    NumberCut {
        low: -NUMBER_END,
        high: n,
    }
}

// The numbers that a comparison with a number asks for.
fn compared(operator: u8, n: i128) -> NumberCut
    requires from { 8 ≤ operator }
    requires to { operator ≤ 12 }
    requires low { neg_ℤ (pos (10 ^ 27)) ≤ℤ n }
    requires high { n ≤ℤ pos (10 ^ 27) }
    ensures { (value e : List ℕ) → n ≡ text_number e → IsFrom result (text_number value) ↔ IsMet operator e value }
{
    if operator == 8 {
        return exactly(n);
    }
    if operator == 9 {
        return above(n);
    }
    if operator == 10 {
        return at_least(n);
    }
    if operator == 11 {
        return below(n);
    }
    at_most(n)
}

// The numbers that an operator and an expression ask for.
fn numbers_of(operator: u8, e: &[u8]) -> NumberCut
    requires { serves Decimal operator e.now ≡ true }
    ensures { (value : List ℕ) → IsFrom result (text_number value) ↔ IsMet operator e.now value }
{
    if operator == 13 {
        return between(e);
    }
    compared(operator, bounded(e))
}

// The values that an operator and an expression ask for.
fn values_of(alloc: Global, operator: u8, e: &[u8]) -> Result<Span, AllocError>
    requires { serves Lexical operator e.now ≡ true }
    ensures { IfOk result (λ s. Covers Lexical s operator e.now) }
{
    let value = Blob::from_slice(alloc, e)?;
    if operator == 0 {
        return Ok(Span::Value(ValueCut { value }));
    }
    Ok(Span::Begin(BeginCut { prefix: value }))
}

// Whether all tokens are asked for, or some.
fn tokens_of(operator: u8) -> Span
    requires { (choices.asks_all operator || choices.asks_some operator) ≡ true }
    ensures { (e : List ℕ) → Covers Token result operator e }
{
    if asks_all(operator) {
        return Span::AllTokens;
    }
    Span::SomeToken
}

/// The stretch of an index of that type which has the pairs of all rows that meet an operator and an expression, and of no others where it is lexical or decimal.
pub fn span_of(alloc: Global, kind: IndexKind, operator: u8, e: &[u8]) -> Result<Span, AllocError>
    requires { serves kind operator e.now ≡ true }
    ensures { IfOk result (λ s. Covers kind s operator e.now) }
{
    match kind {
        IndexKind::Lexical => values_of(alloc, operator, e),
        IndexKind::Decimal => Ok(Span::Number(numbers_of(operator, e))),
        IndexKind::Token => Ok(tokens_of(operator)),
    }
}
