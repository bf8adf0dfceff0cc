//! Numbers of 1 to 20 digits.
ghost use Rattle.std.specs.Prelude.{◌≡◌, ◌≤◌, true, min, IfSome};
ghost use Rattle.std.specs.List.{list_all};
ghost use Rattle.tc_base.specs.Decimal.{is_digit, decimal};
ghost use Rattle.tk_words.specs.Numbers.{are_digits, number};

/// The numbers from `least` to `most`.
#[derive(Clone, Copy, PartialEq, Eq)]
pub(crate) struct Range {
    pub least: u64,
    pub most: u64,
}

/// All that a u64 holds.
pub(crate) const ANY: Range = Range {
    least: 0,
    most: u64::MAX,
};

fn all_digits(text: &[u8]) -> bool
    ensures { result ≡ list_all is_digit text.now }
{
    for i in 0..text.len() {
        if text[i] < b'0' || text[i] > b'9' {
            return false;
        }
    }
    true
}

/// Whether a word is 1 to 20 digits.
pub(crate) fn digits_only(word: &str) -> bool
    ensures { result ≡ are_digits word.now }
{
    let text = word.as_bytes();
    if text.is_empty() || text.len() > 20 {
        return false;
    }
    all_digits(text)
}

// The number that digits spell, 2^64 where it is more.
fn value_of(text: &[u8]) -> u128
    requires { list_all is_digit text.now ≡ true }
    ensures { result ≡ min 18446744073709551616 (decimal text.now) }
{
    let mut value: u128 = 0;
    for i in 0..text.len() {
        value = (value * 10 + u128::from(text[i] - b'0')).min(18_446_744_073_709_551_616);
    }
    value
}

/// The number that a word spells, where it is 1 to 20 digits and within the range.
pub(crate) fn number_in(range: Range, word: &str) -> Option<u64>
    ensures value { result ≡ number range word.now }
    ensures within { IfSome result (λ n. n ≤ range.most) }
{
    if !digits_only(word) {
        return None;
    }
    let value = value_of(word.as_bytes());
    if value < u128::from(range.least) || value > u128::from(range.most) {
        return None;
    }
    Some(value as u64)
}
