//! Numbers of up to twenty digits.
ghost use Rattle.std.specs.Prelude.{◌≡◌, ◌<◌, ◌≤◌, ◌^◌, ℕ, MatchOption, length, true, false};
ghost use Rattle.std.specs.Fmt.{decimal};
ghost use Rattle.std.specs.List.{list_all};
ghost use Rattle.tc_base.specs.Decimal.{is_digit};
ghost use Rattle.tc_model.specs.Texts.{is_number, number};

use crate::texts::is_text_of;

fn are_digits(text: &[u8]) -> bool
    ensures { result ≡ list_all is_digit text.now }
{
    for b in text {
        if *b < b'0' || *b > b'9' {
            return false;
        }
    }
    true
}

// The number that digits spell.
fn number(digits: &[u8]) -> u128
    requires short { length digits.now ≤ 20 }
    requires digits { list_all is_digit digits.now ≡ true }
    ensures value { result ≡ number digits.now }
    ensures most { result < 10 ^ length digits.now }
{
    let mut n: u128 = 0;
    for b in digits {
        n = n * 10 + u128::from(*b - b'0');
    }
    n
}

/// The number of one to twenty digits.
pub fn number_of(text: &[u8]) -> Option<u128>
    ensures { MatchOption result (is_number 20 text.now ≡ false) (λ n. (is_number 20 text.now ≡ true) × (n ≡ number text.now)) }
{
    if text.is_empty() || text.len() > 20 || !are_digits(text) {
        return None;
    }
    Some(number(text))
}

/// The number of at most 2^40 whose decimal text this is, if it is 1 or more.
pub fn id_spelled(text: &[u8]) -> Option<u64>
    ensures { MatchOption result ((n : ℕ) → 1 ≤ n → n ≤ 2 ^ 40 → text.now ≡ decimal n → ⊥) (λ n. (1 ≤ n) × (n ≤ 2 ^ 40) × (text.now ≡ decimal n)) }
{
    let Some(n) = number_of(text) else {
        return None;
    };
    if n == 0 {
        return None;
    }
    if n > 1 << 40 {
        return None;
    }
    let id = n as u64;
    if is_text_of(id, text) { Some(id) } else { None }
}
