//! The operators of conditions.
ghost use Rattle.std.specs.Prelude.{◌≡◌, IfOk};
ghost use Rattle.std.specs.Option.{option_copied};
ghost use Rattle.std.specs.List.{starts_with};
ghost use Rattle.tc_base.specs.Texts.{is_text};
ghost use Rattle.tc_model.specs.Texts.{tokens};
ghost use Rattle.tc_model.specs.Operators.{follow, includes, is_between, meets, meets_in, number_operators, text_operators, token_operators};
ghost use Rattle.tc_plain.specs.Bodies as bodies;

use crate::texts::{is_among, tokens};
use std::alloc::{AllocError, Global};
use tc_base::{Blob, number_of};

// Whether w stands somewhere in v.
fn includes(v: &[u8], w: &[u8]) -> bool
    ensures { result ≡ includes v.now w.now }
{
    let mut rest = v;
    while let [_, behind @ ..] = rest {
        if rest.starts_with(w) {
            return true;
        }
        rest = behind;
    }
    rest.starts_with(w)
}

// Whether all tokens of e are among those of v.
fn has_all(alloc: Global, v: &[u8], e: &[u8]) -> Result<bool, AllocError>
    ensures { IfOk result (λ b. b ≡ bodies.has_all (tokens v.now) (tokens e.now)) }
{
    let held = tokens(alloc, v)?;
    let asked = tokens(alloc, e)?;
    let (among, texts) = (held.as_slice(), asked.as_slice());
    for token in texts {
        if !is_among(token.as_slice(), among) {
            return Ok(false);
        }
    }
    Ok(true)
}

// Whether some token of e is among those of v.
fn has_some(alloc: Global, v: &[u8], e: &[u8]) -> Result<bool, AllocError>
    ensures { IfOk result (λ b. b ≡ bodies.has_some (tokens v.now) (tokens e.now)) }
{
    let held = tokens(alloc, v)?;
    let asked = tokens(alloc, e)?;
    let (among, texts) = (held.as_slice(), asked.as_slice());
    for token in texts {
        if is_among(token.as_slice(), among) {
            return Ok(true);
        }
    }
    Ok(false)
}

fn has_number(n: i128, e: &[Blob]) -> bool
    ensures { result ≡ bodies.has_number n e.now }
{
    for token in e {
        let m = number_of(token.as_slice());
        if n <= m && m <= n {
            return true;
        }
    }
    false
}

fn is_between(n: i128, e: &[Blob]) -> bool
    ensures { result ≡ is_between n e.now }
{
    match e {
        [x, y, ..] => {
            let (x, y) = (number_of(x.as_slice()), number_of(y.as_slice()));
            (x <= n && n <= y) || (y <= n && n <= x)
        }
        _ => false,
    }
}

// Whether texts stand at the front of others.
fn leads(texts: &[Blob], others: &[Blob]) -> bool
    ensures { result ≡ starts_with is_text others.now texts.now }
{
    let mut left = texts;
    let mut rest = others;
    while let [text, behind @ ..] = left {
        let [other, more @ ..] = rest else {
            return false;
        };
        if text.as_slice() != other.as_slice() {
            return false;
        }
        left = behind;
        rest = more;
    }
    true
}

// Whether texts stand among others one after the other.
fn follow(others: &[Blob], texts: &[Blob]) -> bool
    ensures { result ≡ follow others.now texts.now }
{
    let mut rest = others;
    while let [_, behind @ ..] = rest {
        if leads(texts, rest) {
            return true;
        }
        rest = behind;
    }
    leads(texts, rest)
}

// The operators of full texts.
fn meets_text(alloc: Global, operator: u8, v: &[u8], e: &[u8]) -> Result<bool, AllocError>
    ensures { IfOk result (λ b. b ≡ meets_in text_operators operator v.now e.now) }
{
    if operator == 15 {
        return Ok(follow(tokens(alloc, v)?.as_slice(), tokens(alloc, e)?.as_slice()));
    }
    if operator == 16 {
        return has_all(alloc, v, e);
    }
    if operator == 17 {
        return has_some(alloc, v, e);
    }
    Ok(false)
}

// The operators on numbers, on those of tokens, and of full texts.
fn meets_number(alloc: Global, operator: u8, v: &[u8], e: &[u8]) -> Result<bool, AllocError>
    ensures { IfOk result (λ b. b ≡ meets_in number_operators operator v.now e.now) }
{
    let n = number_of(v);
    if operator == 8 {
        let m = number_of(e);
        return Ok(n <= m && m <= n);
    }
    if operator == 9 {
        return Ok(number_of(e) < n);
    }
    if operator == 10 {
        return Ok(number_of(e) <= n);
    }
    if operator == 11 {
        return Ok(n < number_of(e));
    }
    if operator == 12 {
        return Ok(n <= number_of(e));
    }
    if operator == 13 {
        return Ok(is_between(n, tokens(alloc, e)?.as_slice()));
    }
    if operator == 14 {
        return Ok(has_number(n, tokens(alloc, e)?.as_slice()));
    }
    meets_text(alloc, operator, v, e)
}

// Those and the operators on tokens.
fn meets_token(alloc: Global, operator: u8, v: &[u8], e: &[u8]) -> Result<bool, AllocError>
    ensures { IfOk result (λ b. b ≡ meets_in token_operators operator v.now e.now) }
{
    if operator == 4 {
        return has_all(alloc, v, e);
    }
    if operator == 5 {
        return has_some(alloc, v, e);
    }
    if operator == 6 {
        return Ok(is_among(v, tokens(alloc, e)?.as_slice()));
    }
    meets_number(alloc, operator, v, e)
}

/// Whether a column's bytes meet an operator of the table and an expression; false of a column that lacks.
pub fn meets(
    alloc: Global,
    operator: u8,
    column: Option<&Blob>,
    e: &[u8],
) -> Result<bool, AllocError>
    ensures { IfOk result (λ b. b ≡ meets operator (option_copied column.entry) e.now) }
{
    let Some(v) = column else {
        return Ok(false);
    };
    let v = v.as_slice();
    if operator == 0 {
        return Ok(v == e);
    }
    if operator == 1 {
        return Ok(includes(v, e));
    }
    if operator == 2 {
        return Ok(v.starts_with(e));
    }
    if operator == 3 {
        return Ok(v.ends_with(e));
    }
    meets_token(alloc, operator, v, e)
}
