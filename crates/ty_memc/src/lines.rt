//! What a line says.
ghost use Rattle.std.specs.Prelude.{◌≡◌};
ghost use Rattle.ty_memc.specs.Words.{words};
ghost use Rattle.ty_memc.specs.Lines.{store_line, storing, line_of};
ghost use Rattle.ty_memc.specs.Seen.{Gives, Says, stored};

use crate::text::Word;
use crate::words::{digits_only, is, is_done, key_only, next_word, number_in, quiet_at, time_only};

// The most bytes of a value.
const SIZE_MOST: u64 = 16_777_216;

/// A storing line.
#[derive(Clone, Copy)]
pub struct Storing<'a> {
    pub word: Word,
    pub key: &'a [u8],
    pub size: usize,
    pub quiet: bool,
}

/// What a line is.
#[derive(Clone, Copy)]
pub enum Heading<'a> {
    /// A value stands behind it.
    Stores(Storing<'a>),
    /// It says all.
    Says,
    /// It ends the connection.
    Closes,
}

// Which storing command a word names.
fn storing_word(word: &[u8]) -> Option<Word>
    ensures { result ≡ storing word.now }
{
    if is(word, b"set") {
        return Some(Word::Set);
    }
    if is(word, b"add") {
        return Some(Word::Add);
    }
    if is(word, b"replace") {
        return Some(Word::Replace);
    }
    if is(word, b"append") {
        return Some(Word::Append);
    }
    None
}

// What stands behind a storing word.
fn store_words(word: Word, rest: &[u8]) -> Option<Storing<'_>>
    ensures { Gives stored result (store_line word (words rest.now)) }
{
    let (key, rest) = next_word(rest)?;
    let (flags, rest) = next_word(rest)?;
    let (time, rest) = next_word(rest)?;
    let (size, rest) = next_word(rest)?;
    let size = number_in(8, SIZE_MOST, size)?;
    let quiet = quiet_at(rest)?;
    if !(key_only(key) & digits_only(10, flags) & time_only(time)) {
        return None;
    }
    Some(Storing {
        word,
        key,
        size: size as usize,
        quiet,
    })
}

/// What a line is, its line feed and a carriage return in front of it left out.
pub fn read_heading(line: &[u8]) -> Heading<'_>
    ensures { Says result (line_of (words line.now)) }
{
    let Some((word, rest)) = next_word(line) else {
        return Heading::Says
    };
    if let Some(word) = storing_word(word) {
        return match store_words(word, rest) {
            Some(storing) => Heading::Stores(storing),
            None => Heading::Closes,
        };
    }
    if is(word, b"quit") & is_done(rest) {
        return Heading::Closes;
    }
    Heading::Says
}
