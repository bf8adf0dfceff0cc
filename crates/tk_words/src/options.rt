//! Options with their arguments, at the front of words.
ghost use Rattle.std.specs.Prelude.{◌≡◌, ◌≤◌, length, nat_le, IfOk, IfSome};
ghost use Rattle.tk_words.specs.Words.{texts};
ghost use Rattle.tk_words.specs.Options.{index_code, count, is_number, is_type, is_sort, fit, arguments, taken_by, given, has, is_option, text_of, number_of, code_of, sort_of, options_of};
ghost use Rattle.tk_words.specs.Seen.{Gives, choices, seen, opts, option_front};

use crate::numbers::{Range, number_in};
use crate::words::{are_done, first, is, only};
use std::alloc::{AllocError, Global};
use tc_base::{Blob, Pair};

/// What stands behind an option.
#[derive(Clone, Copy, PartialEq, Eq)]
pub(crate) enum Takes {
    Nothing,
    Text,
    Number(Range),
    /// A type of index.
    Index,
    /// A column and the number of an order.
    Sort,
}

/// The four orders of a search.
pub(crate) const WAYS: Range = Range { least: 0, most: 3 };

/// An option that was given, with its arguments.
#[derive(Clone, Copy)]
pub(crate) struct Taken<'a> {
    pub option: &'a str,
    pub arguments: &'a [String],
}

/// The options that were given, and the words behind them.
#[derive(Drop)]
pub(crate) struct Options<'a> {
    pub taken: Vec<Taken<'a>>,
    pub rest: &'a [String],
}

/// The number of a type of index.
fn code_named(word: &str) -> Option<u16>
    ensures { result ≡ index_code word.now }
{
    if is(word, "lexical") {
        Some(0)
    } else if is(word, "decimal") {
        Some(1)
    } else if is(word, "token") {
        Some(2)
    } else if is(word, "void") {
        Some(9999)
    } else {
        None
    }
}

fn count_of(takes: Takes) -> usize
    ensures value { result ≡ count takes }
    ensures most { result ≤ 2 }
{
    match takes {
        Takes::Nothing => 0,
        Takes::Sort => 2,
        Takes::Text => 1,
        Takes::Number(_) => 1,
        Takes::Index => 1,
    }
}

// Whether the one word is a number within the range.
fn is_one_number(range: Range, words: &[String]) -> bool
    ensures { result ≡ is_number range (texts words.now) }
{
    let Some(word) = only(words) else {
        return false
    };
    number_in(range, word).is_some()
}

// Whether the one word is a type of index.
fn is_one_type(words: &[String]) -> bool
    ensures { result ≡ is_type (texts words.now) }
{
    let Some(word) = only(words) else {
        return false
    };
    code_named(word).is_some()
}

// Whether the words are a column and the number of an order.
fn are_sort(words: &[String]) -> bool
    ensures { result ≡ is_sort (texts words.now) }
{
    let Some((_, rest)) = first(words) else {
        return false
    };
    is_one_number(WAYS, rest)
}

// Whether words are an option's arguments.
fn are_arguments(takes: Takes, words: &[String]) -> bool
    ensures { result ≡ fit takes (texts words.now) }
{
    match takes {
        Takes::Nothing => are_done(words),
        Takes::Text => only(words).is_some(),
        Takes::Number(range) => is_one_number(range, words),
        Takes::Index => is_one_type(words),
        Takes::Sort => are_sort(words),
    }
}

// An option's arguments, and the words behind them.
fn arguments_of(takes: Takes, words: &[String]) -> Option<(&[String], &[String])>
    ensures { Gives (λ p. (texts p.0.now, texts p.1.now)) result (arguments takes (texts words.now)) }
{
    let count = count_of(takes);
    if words.len() < count {
        return None;
    }
    let arguments = &words[..count];
    if !are_arguments(takes, arguments) {
        return None;
    }
    Some((arguments, &words[count..]))
}

// What an option of a table takes.
fn takes_in(table: &[(&str, Takes)], word: &str) -> Option<Takes>
    ensures { result ≡ taken_by (opts table.now) word.now }
{
    for (option, takes) in table {
        if is(word, option) {
            return Some(*takes);
        }
    }
    None
}

fn begins_with_dash(word: &str) -> bool
    ensures { result ≡ is_option word.now }
{
    let text = word.as_bytes();
    if text.is_empty() {
        return false;
    }
    text[0] == b'-'
}

// The option at the front of words, and the words behind it.
fn option_first(words: &[String]) -> Option<(&str, &[String])>
    ensures { Gives (λ p. (p.0.now, texts p.1.now)) result (option_front (texts words.now)) }
{
    let Some((word, rest)) = first(words) else {
        return None
    };
    if !begins_with_dash(word) {
        return None;
    }
    Some((word, rest))
}

impl<'a> Options<'a> {
    /// The arguments of an option, None where it wasn't given.
    fn arguments(&self, option: &str) -> Option<&'a [String]>
        ensures { Gives (λ a. texts a.now) result (given (choices self.now.taken.items) option.now) }
    {
        for taken in &self.taken {
            if is(taken.option, option) {
                return Some(taken.arguments);
            }
        }
        None
    }

    /// Whether an option was given.
    pub(crate) fn has(&self, option: &str) -> bool
        ensures { result ≡ has (choices self.now.taken.items) option.now }
    {
        self.arguments(option).is_some()
    }

    /// Whether not more than one option was given.
    pub(crate) fn at_most_one(&self) -> bool
        ensures { result ≡ nat_le (length (choices self.now.taken.items)) 1 }
    {
        self.taken.len() <= 1
    }

    /// The argument of an option.
    pub(crate) fn text(&self, option: &str) -> Option<&'a str>
        ensures { Gives (λ t. t.now) result (text_of (choices self.now.taken.items) option.now) }
    {
        let Some(arguments) = self.arguments(option) else {
            return None
        };
        let Some((text, _)) = first(arguments) else {
            return None
        };
        Some(text)
    }

    /// The number that is the argument of an option.
    pub(crate) fn number(&self, range: Range, option: &str) -> Option<u64>
        ensures value { result ≡ number_of range (choices self.now.taken.items) option.now }
        ensures within { IfSome result (λ n. n ≤ range.most) }
    {
        let Some(text) = self.text(option) else {
            return None
        };
        number_in(range, text)
    }

    /// The type of index that is the argument of an option.
    pub(crate) fn code(&self, option: &str) -> Option<u16>
        ensures { result ≡ code_of (choices self.now.taken.items) option.now }
    {
        let Some(text) = self.text(option) else {
            return None
        };
        code_named(text)
    }

    /// The column and the digit of an order that are the arguments of an option.
    pub(crate) fn sort(&self, alloc: Global, option: &str) -> Result<Option<Pair>, AllocError>
        ensures { IfOk result (λ p. p ≡ sort_of (choices self.now.taken.items) option.now) }
    {
        let Some(arguments) = self.arguments(option) else {
            return Ok(None)
        };
        let Some((column, rest)) = first(arguments) else {
            return Ok(None)
        };
        let Some((way, _)) = first(rest) else {
            return Ok(None)
        };
        let Some(number) = number_in(WAYS, way) else {
            return Ok(None)
        };
        let mut value = Blob::new(alloc);
        value.push(b'0' + number as u8)?;
        let key = Blob::from_slice(alloc, column.as_bytes())?;
        Ok(Some(Pair { key, value }))
    }
}

/// Reads options of a table as long as a word begins with `-`, and gives them with the words behind them. None where one isn't in the table, comes
/// again or lacks an argument that fits.
pub(crate) fn options_first<'a>(
    alloc: Global,
    table: &[(&str, Takes)],
    words: &'a [String],
) -> Result<Option<Options<'a>>, AllocError>
    ensures { IfOk result (λ o. Gives seen o (options_of (opts table.now) (texts words.now))) }
{
    let mut options = Options {
        taken: Vec::new(alloc),
        rest: words,
    };
    while let Some((option, behind)) = option_first(options.rest) {
        let Some(takes) = takes_in(table, option) else {
            return Ok(None)
        };
        let Some((arguments, rest)) = arguments_of(takes, behind) else {
            return Ok(None)
        };
        if options.has(option) {
            return Ok(None);
        }
        options.taken.push(Taken { option, arguments })?;
        options.rest = rest;
    }
    Ok(Some(options))
}
