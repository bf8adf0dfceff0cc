//! Names of databases.
ghost use Rattle.std.specs.Prelude.{◌≡◌, IfOk};
ghost use Rattle.tk_words.specs.Words.{texts};
ghost use Rattle.tk_words.specs.Names.{ends_in, is_name, is_file, is_memory, is_any_name};
ghost use Rattle.tk_words.specs.Commands.{named};
ghost use Rattle.tk_words.specs.Seen.{Gives};

use crate::words::{first, is};
use tc_base::Kind;

// Whether a word ends so, with something before.
fn has_ending(word: &str, ending: &[u8]) -> bool
    ensures { result ≡ ends_in ending.now word.now }
{
    let text = word.as_bytes();
    if text.len() <= ending.len() {
        return false;
    }
    &text[text.len() - ending.len()..] == ending
}

/// Whether a word names a database of the kind.
pub(crate) fn names(kind: Kind, word: &str) -> bool
    ensures { result ≡ is_name kind word.now }
{
    match kind {
        Kind::Hash => has_ending(word, b".tch"),
        Kind::Tree => has_ending(word, b".tcb"),
        Kind::Fixed => has_ending(word, b".tcf"),
        Kind::Table => has_ending(word, b".tct"),
        Kind::MemHash => is(word, "*"),
        Kind::MemTree => is(word, "+"),
    }
}

/// Whether a word names a database in memory.
pub(crate) fn names_memory(word: &str) -> bool
    ensures { result ≡ is_memory word.now }
{
    names(Kind::MemHash, word) || names(Kind::MemTree, word)
}

fn names_file(word: &str) -> bool
    ensures { result ≡ is_file word.now }
{
    names(Kind::Hash, word)
        || names(Kind::Tree, word)
        || names(Kind::Fixed, word)
        || names(Kind::Table, word)
}

/// Whether a word names a database of any kind.
pub(crate) fn names_any(word: &str) -> bool
    ensures { result ≡ is_any_name word.now }
{
    names_file(word) || names_memory(word)
}

/// The name of a database of the kind, and the words behind it.
pub(crate) fn name_first(kind: Kind, words: &[String]) -> Option<(&str, &[String])>
    ensures { Gives (λ p. (p.0.now, texts p.1.now)) result (named kind (texts words.now)) }
{
    let Some((name, rest)) = first(words) else {
        return None
    };
    if !names(kind, name) {
        return None;
    }
    Some((name, rest))
}
