//! Texts of numbers.
ghost use Rattle.std.specs.Prelude.{◌≡◌, ◌<◌, ◌≤◌, ◌^◌, MatchOption, length, true, false};
ghost use Rattle.std.specs.List.{list_all};
ghost use Rattle.tc_base.specs.Decimal.{is_digit};
ghost use Rattle.tc_model.specs.Texts as texts;
ghost use Rattle.tc_model.specs.Texts.{is_number, count_of, negative, positive, maximum_of};

fn are_digits(text: &[u8]) -> bool
    ensures { result ≡ list_all is_digit text.now }
{
    for b in text {
        if *b < b'0' || *b > b'9' {
            return false;
        }
    }
    true
}

// Whether a text is of one to so many digits.
fn is_number(most: usize, text: &[u8]) -> bool
    ensures { result ≡ is_number most text.now }
{
    1 <= text.len() && (text.len() <= most && are_digits(text))
}

// The number that digits spell.
fn number(digits: &[u8]) -> u128
    requires short { length digits.now ≤ 20 }
    requires digits { list_all is_digit digits.now ≡ true }
    ensures value { result ≡ texts.number digits.now }
    ensures most { result < 10 ^ length digits.now }
{
    let mut n: u128 = 0;
    for b in digits {
        n = n * 10 + u128::from(*b - b'0');
    }
    n
}

/// The number of one to twenty digits.
pub fn long_number(text: &[u8]) -> Option<u128>
    ensures { MatchOption result (is_number 20 text.now ≡ false) (λ n. (is_number 20 text.now ≡ true) × (n ≡ texts.number text.now)) }
{
    if !is_number(20, text) {
        return None;
    }
    Some(number(text))
}

/// A count of one to ten digits.
pub fn count_of(text: &[u8]) -> Option<u64>
    ensures { result ≡ count_of text.now }
{
    if !is_number(10, text) {
        return None;
    }
    Some(number(text) as u64)
}

fn negative(digits: &[u8]) -> Option<Option<u64>>
    ensures { result ≡ negative digits.now }
{
    if !is_number(10, digits) {
        return None;
    }
    if number(digits) == 0 {
        Some(Some(0))
    } else {
        Some(None)
    }
}

fn positive(digits: &[u8]) -> Option<Option<u64>>
    ensures { result ≡ positive digits.now }
{
    if !is_number(10, digits) {
        return None;
    }
    Some(Some(number(digits) as u64))
}

/// The maximum that a text spells, with no limit where it is negative.
pub fn maximum_of(text: &[u8]) -> Option<Option<u64>>
    ensures { result ≡ maximum_of text.now }
{
    match text {
        [] => None,
        [b'-', rest @ ..] => negative(rest),
        _ => positive(text),
    }
}
