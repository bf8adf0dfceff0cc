//! Lists of words.
ghost use Rattle.std.specs.Prelude.{◌≡◌, IfOk};
ghost use Rattle.tk_words.specs.Words.{texts, is_word, front, is_end, lone};
ghost use Rattle.tk_words.specs.Seen.{Gives};

use std::alloc::{AllocError, Global};
use tc_base::{Blob, Blobs};

/// Whether a word is that text.
pub(crate) fn is(word: &str, text: &str) -> bool
    ensures { result ≡ is_word word.now text.now }
{
    word.as_bytes() == text.as_bytes()
}

/// The first word, and those behind it.
pub(crate) fn first(words: &[String]) -> Option<(&str, &[String])>
    ensures { Gives (λ p. (p.0.now, texts p.1.now)) result (front (texts words.now)) }
{
    if words.is_empty() {
        return None;
    }
    Some((words[0].as_str(), &words[1..]))
}

/// Whether no word is left.
pub(crate) fn are_done(words: &[String]) -> bool
    ensures { result ≡ is_end (texts words.now) }
{
    words.is_empty()
}

/// The word where it is the only one.
pub(crate) fn only(words: &[String]) -> Option<&str>
    ensures { Gives (λ w. w.now) result (lone (texts words.now)) }
{
    let Some((word, rest)) = first(words) else {
        return None
    };
    if !are_done(rest) {
        return None;
    }
    Some(word)
}

/// Copies of all words.
pub(crate) fn copies(alloc: Global, words: &[String]) -> Result<Blobs, AllocError>
    ensures { IfOk result (λ b. b ≡ texts words.now) }
{
    let mut items = Blobs::new(alloc);
    for word in words {
        items.push(Blob::from_slice(alloc, word.as_bytes())?)?;
    }
    Ok(items)
}
