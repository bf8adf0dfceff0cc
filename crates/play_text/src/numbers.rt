//! Numbers as text.

use crate::wrongs::Wrong;

/// The number that a text is, in digits of ten or behind `0x` in those of sixteen.
pub fn number_of(text: &str) -> Option<u64> {
    match text.strip_prefix("0x") {
        Some(digits) => u64::from_str_radix(digits, 16).ok(),
        None => text.parse().ok(),
    }
}

/// The first and the last of the numbers that a word is: one, or `first..=last`, of which there is one at least.
pub fn numbers_of(word: &str) -> Result<(u64, u64), Wrong> {
    let (first, last) = word.split_once("..=").unwrap_or((word, word));
    let (Some(first), Some(last)) = (number_of(first), number_of(last)) else {
        return Err(Wrong::Unread);
    };
    if first > last {
        return Err(Wrong::Unread);
    }
    Ok((first, last))
}
