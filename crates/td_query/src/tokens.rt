//! The tokens of a text, one after the other, without taking memory.
ghost use Rattle.std.specs.Prelude.{◌≡◌, ◌<◌, ◌≤◌, ◌∷◌, [], drop, length, nat_le, MatchOption};
ghost use Rattle.std.specs.List.{list_any, list_all, position_or_len, starts_with};
ghost use Rattle.tc_base.specs.Decimal.{text_number};
ghost use Rattle.tc_base.specs.Texts.{is_text};
ghost use Rattle.tc_model.specs.Texts.{is_among, tokens};
ghost use Rattle.tc_model.specs.Operators as operators;
ghost use Rattle.td_query.specs.Tokens.{is_blank};

use tc_base::number_of;

// Whether tokens end at a byte.
fn is_blank(b: u8) -> bool
    ensures { result ≡ is_blank b }
{
    b == b' ' || b == b','
}

// How many bytes stand in front of the first space or comma.
fn token_len(text: &[u8]) -> usize
    ensures value { result ≡ position_or_len is_blank text.now }
    ensures within { result ≤ length text.now }
{
    for (i, b) in text.iter().enumerate() {
        if is_blank(*b) {
            return i;
        }
    }
    text.len()
}

// The first token and what stands behind it, of a text that begins with one.
fn parted(text: &[u8]) -> (&[u8], &[u8])
    requires { 0 < position_or_len is_blank text.now }
    ensures parts { tokens text.now ≡ result.0.now ∷ tokens result.1.now }
    ensures shorter { length result.1.now < length text.now }
{
    text.split_at(token_len(text))
}

// What stands from a place on.
fn behind(text: &[u8], at: usize) -> &[u8]
    requires { at ≤ length text.now }
    ensures { result.now ≡ drop at text.now }
{
    &text[at..]
}

/// The first token of a text, and what stands behind it; none where it has none. Tokens are the longest runs of bytes other than space and comma.
pub fn token_of(text: &[u8]) -> Option<(&[u8], &[u8])>
    ensures { MatchOption result (tokens text.now ≡ []) (λ x. (tokens text.now ≡ x.0.now ∷ tokens x.1.now) × (length x.1.now < length text.now)) }
{
    for (i, b) in text.iter().enumerate() {
        if !is_blank(*b) {
            return Some(parted(behind(text, i)));
        }
    }
    None
}

// Whether two texts are the same.
fn is_same(a: &[u8], b: &[u8]) -> bool
    ensures { result ≡ is_text a.now b.now }
{
    a == b
}

/// Whether a text is one of the tokens of another.
pub(crate) fn is_token(text: &[u8], among: &[u8]) -> bool
    ensures { result ≡ is_among text.now (tokens among.now) }
{
    let mut rest = among;
    while let Some((token, more)) = token_of(rest) {
        if is_same(text, token) {
            return true;
        }
        rest = more;
    }
    false
}

/// Whether all tokens of a text are among those of another.
pub(crate) fn all_among(text: &[u8], among: &[u8]) -> bool
    ensures { result ≡ list_all (λ t. is_among t (tokens among.now)) (tokens text.now) }
{
    let mut rest = text;
    while let Some((token, more)) = token_of(rest) {
        if !is_token(token, among) {
            return false;
        }
        rest = more;
    }
    true
}

/// Whether some token of a text is among those of another.
pub(crate) fn some_among(text: &[u8], among: &[u8]) -> bool
    ensures { result ≡ list_any (λ t. is_among t (tokens among.now)) (tokens text.now) }
{
    let mut rest = text;
    while let Some((token, more)) = token_of(rest) {
        if is_token(token, among) {
            return true;
        }
        rest = more;
    }
    false
}

// Whether the tokens of a text are the first ones of another.
fn leads(text: &[u8], other: &[u8]) -> bool
    ensures { result ≡ starts_with is_text (tokens other.now) (tokens text.now) }
{
    let mut left = text;
    let mut rest = other;
    while let Some((token, more)) = token_of(left) {
        let Some((next, behind)) = token_of(rest) else {
            return false;
        };
        if !is_same(token, next) {
            return false;
        }
        left = more;
        rest = behind;
    }
    true
}

/// Whether the tokens of a text stand in another as tokens one after the other.
pub(crate) fn follow(other: &[u8], text: &[u8]) -> bool
    ensures { result ≡ operators.follow (tokens other.now) (tokens text.now) }
{
    let mut rest = other;
    while let Some((_, more)) = token_of(rest) {
        if leads(text, rest) {
            return true;
        }
        rest = more;
    }
    leads(text, rest)
}

/// Whether two texts have one number.
pub(crate) fn same_number(a: &[u8], b: &[u8]) -> bool
    ensures { result ≡ operators.same_number (text_number a.now) (text_number b.now) }
{
    let (n, m) = (number_of(a), number_of(b));
    n <= m && m <= n
}

/// Whether some token of a text has the number of another.
pub(crate) fn some_number(other: &[u8], text: &[u8]) -> bool
    ensures { result ≡ list_any (λ t. operators.same_number (text_number other.now) (text_number t)) (tokens text.now) }
{
    let mut rest = text;
    while let Some((token, more)) = token_of(rest) {
        if same_number(other, token) {
            return true;
        }
        rest = more;
    }
    false
}

// Whether the number of a text lies between those of two others, both included, in either order.
fn lies(text: &[u8], x: &[u8], y: &[u8]) -> bool
    ensures { result ≡ operators.is_between (text_number text.now) (x.now ∷ y.now ∷ []) }
{
    let n = number_of(text);
    let (x, y) = (number_of(x), number_of(y));
    (x <= n && n <= y) || (y <= n && n <= x)
}

// The same of a token and the first of those behind it.
fn lies_behind(text: &[u8], first: &[u8], more: &[u8]) -> bool
    ensures { result ≡ operators.is_between (text_number text.now) (first.now ∷ tokens more.now) }
{
    let Some((second, _)) = token_of(more) else {
        return false;
    };
    lies(text, first, second)
}

/// Whether the number of a text lies between those of the first two tokens of another, both included, in either order.
pub(crate) fn is_between(text: &[u8], other: &[u8]) -> bool
    ensures { result ≡ operators.is_between (text_number text.now) (tokens other.now) }
{
    let Some((first, more)) = token_of(other) else {
        return false;
    };
    lies_behind(text, first, more)
}

/// Whether a text has a token.
pub fn has_token(text: &[u8]) -> bool
    ensures { result ≡ nat_le 1 (length (tokens text.now)) }
{
    let Some(_) = token_of(text) else {
        return false;
    };
    true
}

/// Whether a text has two tokens at least.
pub(crate) fn has_two(text: &[u8]) -> bool
    ensures { result ≡ nat_le 2 (length (tokens text.now)) }
{
    let Some((_, more)) = token_of(text) else {
        return false;
    };
    has_token(more)
}
