//! What the arguments of a search ask for.
ghost use Rattle.std.specs.Prelude.{◌≡◌, ◌++◌, ◌∷◌, [], IfOk, MatchOption, List, Option, Some, None, option_map, option_and_then, unwrap_or, filter_map, true, false};
ghost use Rattle.std.specs.List.{last_or};
ghost use Rattle.tc_model.specs.Operators.{is_operator};
ghost use Rattle.tc_model.specs.Texts.{count_of, parts};
ghost use Rattle.tc_model.specs.Queries as queries;
ghost use Rattle.tc_model.specs.Queries.{way_of, deed_of, condition_of, ordering_of, limit_of, term_of, made, as_limit, as_deed, query_of};
ghost use Rattle.td_query.specs.Drafts.{term_seen, IsDraft};

use crate::operators::is_complete;
use std::alloc::{AllocError, Global};
use tc_base::{Blob, Blobs, Seq};
use tc_model::{Cond, Deed, Query, Sort, count_of, maximum_of};
use td_row::part_of;

// What one argument is.
#[derive(Drop)]
enum Term {
    Condition { cond: Cond },
    Ordering { sort: Sort },
    Limit { maximum: Option<u64>, skip: u64 },
    Asks { deed: Deed },
}

// The operator of a number, if it has one.
fn operator_of(n: u64) -> Option<u8>
    ensures { MatchOption result (is_operator n ≡ false) (λ o. (is_operator n ≡ true) × (o ≡ n)) }
{
    if n <= 6 || (8 <= n && n <= 17) {
        Some(n as u8)
    } else {
        None
    }
}

// Adding 2 ^ 24 to an operator negates, adding 2 ^ 25 forbids an index.
fn condition_of(
    alloc: Global,
    column: &[u8],
    expression: &[u8],
    n: u64,
) -> Result<Option<Term>, AllocError>
    ensures { IfOk result (λ t. option_map term_seen t ≡ condition_of column.now expression.now n) }
{
    if n >= 67_108_864 {
        return Ok(None);
    }
    let Some(operator) = operator_of(n % 16_777_216) else {
        return Ok(None);
    };
    if !is_complete(n % 16_777_216, expression) {
        return Ok(None);
    }
    Ok(Some(Term::Condition {
        cond: Cond {
            column: Blob::from_slice(alloc, column)?,
            operator,
            negated: n / 16_777_216 % 2 == 1,
            unindexed: n / 33_554_432 == 1,
            expression: Blob::from_slice(alloc, expression)?,
        },
    }))
}

fn way_of(text: &[u8]) -> Option<u8>
    ensures { result ≡ way_of text.now }
{
    if text == b"0".as_slice() {
        return Some(0);
    }
    if text == b"1".as_slice() {
        return Some(1);
    }
    if text == b"2".as_slice() {
        return Some(2);
    }
    if text == b"3".as_slice() {
        return Some(3);
    }
    None
}

fn ordering_of(alloc: Global, column: &[u8], text: &[u8]) -> Result<Option<Term>, AllocError>
    ensures { IfOk result (λ t. option_map term_seen t ≡ ordering_of column.now text.now) }
{
    let Some(way) = way_of(text) else {
        return Ok(None);
    };
    Ok(Some(Term::Ordering {
        sort: Sort {
            column: Blob::from_slice(alloc, column)?,
            way,
        },
    }))
}

fn limit_of(text: &[u8], skip: Option<u64>) -> Option<Term>
    ensures { option_map term_seen result ≡ limit_of text.now skip }
{
    let Some(maximum) = maximum_of(text) else {
        return None;
    };
    let Some(skip) = skip else {
        return None;
    };
    Some(Term::Limit { maximum, skip })
}

fn limit_with(text: &[u8], skip: &[u8]) -> Option<Term>
    ensures { option_map term_seen result ≡ limit_of text.now (count_of skip.now) }
{
    limit_of(text, count_of(skip))
}

fn deed_of(word: &[u8]) -> Option<Term>
    ensures { option_map term_seen result ≡ deed_of word.now }
{
    if word == b"get".as_slice() {
        return Some(Term::Asks { deed: Deed::Get });
    }
    if word == b"out".as_slice() {
        return Some(Term::Asks { deed: Deed::Out });
    }
    if word == b"count".as_slice() {
        return Some(Term::Asks { deed: Deed::Count });
    }
    None
}

// A limit without a skip.
fn limit_alone(word: &[u8], a: &[u8]) -> Option<Term>
    ensures { option_map term_seen result ≡ term_of (word.now ∷ a.now ∷ []) }
{
    if word == b"setlimit".as_slice() {
        return limit_of(a, Some(0));
    }
    None
}

// A limit or an order of two texts.
fn pair_of(alloc: Global, word: &[u8], a: &[u8], b: &[u8]) -> Result<Option<Term>, AllocError>
    ensures { IfOk result (λ t. option_map term_seen t ≡ term_of (word.now ∷ a.now ∷ b.now ∷ [])) }
{
    if word == b"setlimit".as_slice() {
        return Ok(limit_with(a, b));
    }
    if word == b"setorder".as_slice() {
        return ordering_of(alloc, a, b);
    }
    Ok(None)
}

// A condition of three texts.
fn triple_of(
    alloc: Global,
    word: &[u8],
    column: &[u8],
    operator: &[u8],
    expression: &[u8],
) -> Result<Option<Term>, AllocError>
    ensures { IfOk result (λ t. option_map term_seen t ≡ term_of (word.now ∷ column.now ∷ operator.now ∷ expression.now ∷ [])) }
{
    if word != b"addcond".as_slice() {
        return Ok(None);
    }
    let Some(n) = count_of(operator) else {
        return Ok(None);
    };
    condition_of(alloc, column, expression, n)
}

// What an argument of three parts and those of a rest says.
fn longest_of(
    alloc: Global,
    word: &[u8],
    a: &[u8],
    b: &[u8],
    rest: &[u8],
) -> Result<Option<Term>, AllocError>
    ensures { IfOk result (λ t. option_map term_seen t ≡ term_of (word.now ∷ a.now ∷ b.now ∷ parts rest.now)) }
{
    let (c, behind) = part_of(rest);
    match behind {
        None => triple_of(alloc, word, a, b, c),
        Some(_) => Ok(None),
    }
}

// The same of two parts.
fn longer_of(alloc: Global, word: &[u8], a: &[u8], rest: &[u8]) -> Result<Option<Term>, AllocError>
    ensures { IfOk result (λ t. option_map term_seen t ≡ term_of (word.now ∷ a.now ∷ parts rest.now)) }
{
    let (b, behind) = part_of(rest);
    match behind {
        None => pair_of(alloc, word, a, b),
        Some(more) => longest_of(alloc, word, a, b, more),
    }
}

// The same of one part.
fn long_of(alloc: Global, word: &[u8], rest: &[u8]) -> Result<Option<Term>, AllocError>
    ensures { IfOk result (λ t. option_map term_seen t ≡ term_of (word.now ∷ parts rest.now)) }
{
    let (a, behind) = part_of(rest);
    match behind {
        None => Ok(limit_alone(word, a)),
        Some(more) => longer_of(alloc, word, a, more),
    }
}

// What an argument says: it has one to four parts.
fn term_of(alloc: Global, arg: &[u8]) -> Result<Option<Term>, AllocError>
    ensures { IfOk result (λ t. option_map term_seen t ≡ term_of (parts arg.now)) }
{
    let (word, behind) = part_of(arg);
    match behind {
        None => Ok(deed_of(word)),
        Some(more) => long_of(alloc, word, more),
    }
}

// What the arguments so far say.
#[derive(Drop)]
struct Draft {
    conds: Seq<Cond>,
    sort: Option<Sort>,
    limit: Option<(Option<u64>, u64)>,
    deeds: Seq<Deed>,
}

fn added(draft: Draft, term: Term) -> Result<Draft, AllocError>
    ensures { IfOk result (λ d. (ts : List queries.Term) → IsDraft draft ts → IsDraft d (ts ++ term_seen term ∷ [])) }
{
    let mut next = draft;
    match term {
        Term::Condition { cond } => {
            next.conds.push(cond)?;
            Ok(next)
        }
        Term::Ordering { sort } => {
            next.sort = Some(sort);
            Ok(next)
        }
        Term::Limit { maximum, skip } => {
            next.limit = Some((maximum, skip));
            Ok(next)
        }
        Term::Asks { deed } => {
            next.deeds.push(deed)?;
            Ok(next)
        }
    }
}

// The query that a draft makes: of deeds it has one at most.
fn made(draft: Draft) -> Option<Query>
    ensures { (ts : List queries.Term) → IsDraft draft ts → result ≡ made ts (filter_map as_deed ts) (unwrap_or (last_or None (filter_map as_limit ts)) (None, 0)) }
{
    let deed = match draft.deeds.as_slice() {
        [] => Deed::Keys,
        [deed] => *deed,
        _ => return None,
    };
    let (maximum, skip) = match draft.limit {
        Some(limit) => limit,
        None => (None, 0),
    };
    Some(Query {
        conds: draft.conds,
        sort: draft.sort,
        maximum,
        skip,
        deed,
    })
}

/// The query that the arguments of a search make, or none where one of them says nothing.
#[tactic(auto, unfolding(tc_model::specs::Queries::query_of))]
pub fn read_query(alloc: Global, args: &Blobs) -> Result<Option<Query>, AllocError>
    ensures { IfOk result (λ q. q ≡ query_of args.now) }
{
    let mut draft = Draft {
        conds: Seq::new(alloc),
        sort: None,
        limit: None,
        deeds: Seq::new(alloc),
    };
    let items = args.as_slice();
    for arg in items {
        let Some(term) = term_of(alloc, arg.as_slice())? else {
            return Ok(None);
        };
        draft = added(draft, term)?;
    }
    Ok(made(draft))
}
