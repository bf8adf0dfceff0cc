//! The words of a line, and numbers in them.
ghost use Rattle.std.specs.Prelude.{◌≡◌, ◌<◌, ◌≤◌, length, drop, min, true, IfSome};
ghost use Rattle.std.specs.List.{list_all, prefix_len};
ghost use Rattle.tc_base.specs.Decimal.{is_digit, decimal};
ghost use Rattle.tc_base.specs.Texts.{is_text};
ghost use Rattle.ty_memc.specs.Words.{is_space, is_letter, words, front, is_end};
ghost use Rattle.ty_memc.specs.Lines.{are_digits, is_key, is_time, number, quiet};
ghost use Rattle.ty_memc.specs.Seen.{Gives};

// The most bytes of a key.
const KEY_MOST: usize = 250;

/// Whether a word is that text.
pub fn is(word: &[u8], text: &[u8]) -> bool
    ensures { result ≡ is_text word.now text.now }
{
    word == text
}

/// The bytes from a place on.
pub fn behind(bytes: &[u8], at: usize) -> &[u8]
    requires { at ≤ length bytes.now }
    ensures { result.now ≡ drop at bytes.now }
{
    &bytes[at..]
}

// How many spaces stand at the front.
fn spaces(line: &[u8]) -> usize
    ensures value { result ≡ prefix_len is_space line.now }
    ensures within { result ≤ length line.now }
{
    for i in 0..line.len() {
        if line[i] != b' ' {
            return i;
        }
    }
    line.len()
}

// How many bytes other than a space.
fn letters(line: &[u8]) -> usize
    ensures value { result ≡ prefix_len is_letter line.now }
    ensures within { result ≤ length line.now }
{
    for i in 0..line.len() {
        if line[i] == b' ' {
            return i;
        }
    }
    line.len()
}

/// The first word of a line, and what stands behind it.
pub fn next_word(line: &[u8]) -> Option<(&[u8], &[u8])>
    ensures word { Gives (λ x. (x.0.now, words x.1.now)) result (front (words line.now)) }
    ensures less { IfSome result (λ x. length x.1.now < length line.now) }
{
    let rest = behind(line, spaces(line));
    if rest.len() == 0 {
        return None;
    }
    Some(rest.split_at(letters(rest)))
}

/// Whether no word is left.
pub fn is_done(line: &[u8]) -> bool
    ensures { result ≡ is_end (words line.now) }
{
    next_word(line).is_none()
}

fn all_digits(text: &[u8]) -> bool
    ensures { result ≡ list_all is_digit text.now }
{
    for i in 0..text.len() {
        if text[i] < b'0' || text[i] > b'9' {
            return false;
        }
    }
    true
}

/// Whether a word is 1 to `most` digits.
pub fn digits_only(most: usize, word: &[u8]) -> bool
    ensures { result ≡ are_digits most word.now }
{
    if word.is_empty() || word.len() > most {
        return false;
    }
    all_digits(word)
}

// The number that digits spell, 2^64 where it is more.
fn value_of(text: &[u8]) -> u128
    requires { list_all is_digit text.now ≡ true }
    ensures { result ≡ min 18446744073709551616 (decimal text.now) }
{
    let mut value: u128 = 0;
    for i in 0..text.len() {
        value = (value * 10 + u128::from(text[i] - b'0')).min(18_446_744_073_709_551_616);
    }
    value
}

/// The number that a word of 1 to `digits` digits spells, where it is at most `limit`.
pub fn number_in(digits: usize, limit: u64, word: &[u8]) -> Option<u64>
    ensures value { result ≡ number digits limit word.now }
    ensures within { IfSome result (λ n. n ≤ limit) }
{
    if !digits_only(digits, word) {
        return None;
    }
    let value = value_of(word);
    if value > u128::from(limit) {
        return None;
    }
    Some(value as u64)
}

/// Whether a word is a time: 1 to 10 digits, which may have a sign.
pub fn time_only(word: &[u8]) -> bool
    ensures { result ≡ is_time word.now }
{
    match word {
        [b'-', rest @ ..] => digits_only(10, rest),
        _ => digits_only(10, word),
    }
}

/// Whether a word is a key: 1 to 250 bytes.
pub fn key_only(word: &[u8]) -> bool
    ensures { result ≡ is_key word.now }
{
    (1 <= word.len()) & (word.len() <= KEY_MOST)
}

/// Whether no reply is wanted, where nothing else stands behind.
pub fn quiet_at(rest: &[u8]) -> Option<bool>
    ensures { result ≡ quiet (words rest.now) }
{
    let Some((word, rest)) = next_word(rest) else {
        return Some(false)
    };
    if is(word, b"noreply") & is_done(rest) {
        return Some(true);
    }
    None
}
