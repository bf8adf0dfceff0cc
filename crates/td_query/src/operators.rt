//! The operators of conditions.
ghost use Rattle.std.specs.Prelude.{◌≡◌};
ghost use Rattle.std.specs.Option.{option_copied};
ghost use Rattle.tc_model.specs.Operators.{includes, meets, meets_in, is_complete, number_operators, text_operators, token_operators};

use crate::tokens::{
    all_among, follow, has_two, is_between, is_token, same_number, some_among, some_number,
};
use memchr::memmem;
use tc_base::number_of;

// Whether w stands somewhere in v. It costs the length of v.
fn includes(v: &[u8], w: &[u8]) -> bool
    ensures { result ≡ includes v.now w.now }
{
    memmem::find(v, w).is_some()
}

// The operators of full texts.
fn meets_text(operator: u8, v: &[u8], e: &[u8]) -> bool
    ensures { result ≡ meets_in text_operators operator v.now e.now }
{
    if operator == 15 {
        return follow(v, e);
    }
    if operator == 16 {
        return all_among(e, v);
    }
    if operator == 17 {
        return some_among(e, v);
    }
    false
}

// The operators on numbers, on those of tokens, and of full texts.
fn meets_number(operator: u8, v: &[u8], e: &[u8]) -> bool
    ensures { result ≡ meets_in number_operators operator v.now e.now }
{
    let n = number_of(v);
    if operator == 8 {
        return same_number(v, e);
    }
    if operator == 9 {
        return number_of(e) < n;
    }
    if operator == 10 {
        return number_of(e) <= n;
    }
    if operator == 11 {
        return n < number_of(e);
    }
    if operator == 12 {
        return n <= number_of(e);
    }
    if operator == 13 {
        return is_between(v, e);
    }
    if operator == 14 {
        return some_number(v, e);
    }
    meets_text(operator, v, e)
}

// Those and the operators on tokens.
fn meets_token(operator: u8, v: &[u8], e: &[u8]) -> bool
    ensures { result ≡ meets_in token_operators operator v.now e.now }
{
    if operator == 4 {
        return all_among(e, v);
    }
    if operator == 5 {
        return some_among(e, v);
    }
    if operator == 6 {
        return is_token(v, e);
    }
    meets_number(operator, v, e)
}

/// Whether a column's bytes meet an operator of the table and an expression; false of a column that lacks. It takes no memory.
pub(crate) fn meets(operator: u8, column: Option<&[u8]>, e: &[u8]) -> bool
    ensures { result ≡ meets operator (option_copied column.entry) e.now }
{
    let Some(v) = column else {
        return false;
    };
    if operator == 0 {
        return v == e;
    }
    if operator == 1 {
        return includes(v, e);
    }
    if operator == 2 {
        return v.starts_with(e);
    }
    if operator == 3 {
        return v.ends_with(e);
    }
    meets_token(operator, v, e)
}

/// Whether an expression has the tokens that its operator asks for: 13 asks for two.
pub(crate) fn is_complete(operator: u64, e: &[u8]) -> bool
    ensures { result ≡ is_complete operator e.now }
{
    if operator != 13 {
        return true;
    }
    has_two(e)
}
