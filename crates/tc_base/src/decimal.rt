//! The fixed-point number at the front of a text.
ghost use Rattle.std.specs.Prelude.{◌≡◌, ◌-◌, ◌^◌, ◌<◌, ◌≤◌, length, drop, min, nat_le};
ghost use Rattle.std.specs.List.{prefix_len};
ghost use Rattle.tc_base.specs.Decimal.{is_digit, digits, behind_digits, decimal, fraction, nine, magnitude, text_number};

// The most that is kept before the point.
const WHOLE_MOST: u64 = 999_999_999_999_999_999;

// How many digits stand at the front.
fn digit_run(text: &[u8]) -> usize
    ensures value { result ≡ prefix_len is_digit text.now }
    ensures within { result ≤ length text.now }
{
    for (i, b) in text.iter().enumerate() {
        if *b < b'0' || *b > b'9' {
            return i;
        }
    }
    text.len()
}

// The number before the point, of the digits at the front.
fn whole_part(text: &[u8], run: usize) -> u64
    requires run { run ≡ prefix_len is_digit text.now }
    requires within { run ≤ length text.now }
    ensures value { result ≡ min (10 ^ 18 - 1) (decimal (digits text.now)) }
    ensures most { result < 10 ^ 18 }
{
    let mut whole: u64 = 0;
    for i in 0..run {
        whole = (whole * 10 + u64::from(text[i] - b'0')).min(WHOLE_MOST);
    }
    whole
}

// The first nine of the digits at the front, filled with zeros behind.
fn decimals(rest: &[u8], run: usize) -> u64
    requires run { run ≡ prefix_len is_digit rest.now }
    requires within { run ≤ length rest.now }
    ensures value { result ≡ decimal (nine (digits rest.now)) }
    ensures most { result < 10 ^ 9 }
{
    let mut value: u64 = 0;
    for i in 0..9 {
        let digit = if i < run { rest[i] - b'0' } else { 0 };
        value = value * 10 + u64::from(digit);
    }
    value
}

// The decimals behind a point, or 0 where no point follows.
fn behind_point(text: &[u8]) -> u64
    ensures value { result ≡ decimal (nine (fraction text.now)) }
    ensures most { result < 10 ^ 9 }
{
    if text.is_empty() || text[0] != b'.' {
        return 0;
    }
    let rest = &text[1..];
    decimals(rest, digit_run(rest))
}

// The number without its sign.
fn size_of_number(text: &[u8]) -> u128
    ensures value { result ≡ magnitude text.now }
    ensures most { result < 10 ^ 27 }
{
    let run = digit_run(text);
    let whole = whole_part(text, run);
    let part = behind_point(&text[run..]);
    u128::from(whole) * 1_000_000_000 + u128::from(part)
}

// What stands behind the bytes up to 32.
fn behind_blanks(text: &[u8]) -> &[u8]
    ensures { result.now ≡ drop (prefix_len (λ b. nat_le b 32) text.now) text.now }
{
    for (i, b) in text.iter().enumerate() {
        if *b > 32 {
            return &text[i..];
        }
    }
    &[]
}

/// The number at the front of a text, in units of 10^-9: bytes up to 32, a sign, digits, and a point with digits behind it,
/// each of which may be missing. The part before the point is at most 10^18 - 1, and nine decimals are kept.
pub fn number_of(text: &[u8]) -> i128
    ensures { result ≡ text_number text.now }
{
    let body = behind_blanks(text);
    if body.is_empty() {
        return 0;
    }
    let first = body[0];
    if first == b'-' {
        return -(size_of_number(&body[1..]) as i128);
    }
    let rest = if first == b'+' { &body[1..] } else { body };
    size_of_number(rest) as i128
}
