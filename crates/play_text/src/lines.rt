//! A line of a case, read word by word, and what it compares.
ghost use Rattle.std.specs.Prelude.{◌≤◌, IfOk};

use crate::names::Names;
use crate::numbers::{number_of, numbers_of};
use crate::patterns::Pattern;
use crate::terms::{at_blank, read_bytes};
use crate::whys::Why;
use crate::wrongs::{Wrong, are_same, is_same, shown, told};
use std::alloc::{AllocError, Global};

/// A line, how much of it was read, the names that it has, and whether it compared something.
#[derive(Drop)]
pub struct Line {
    alloc: Global,
    names: Names,
    text: String,
    at: usize,
    has_compared: bool,
}

// A text from a place on.
fn behind(text: &str, at: usize) -> &str {
    match text.split_at_checked(at) {
        Some((_, rest)) => rest,
        None => "",
    }
}

impl Line {
    pub(crate) fn new(alloc: Global, names: &Names, text: &str) -> Result<Line, AllocError> {
        Ok(Line {
            alloc,
            names: names.used_in(alloc, text)?,
            text: String::from_str(alloc, text)?,
            at: 0,
            has_compared: false,
        })
    }

    /// All that is left, as it stands there.
    pub fn rest(&self) -> &str {
        behind(self.text.as_str(), self.at)
    }

    // Nothing is left.
    pub(crate) fn is_over(&self) -> Result<(), Wrong> {
        let rest = self.rest();
        if rest.is_empty() {
            return Ok(());
        }
        Err(Wrong::Differs(format!(in self.alloc; "`{rest}` is left")?))
    }

    // So many bytes are left.
    fn leave(&mut self, left: usize) {
        self.at = self.text.len().saturating_sub(left);
    }

    /// Passes over all that is left, which another play of the line reads.
    pub fn skip(&mut self) {
        self.leave(0);
    }

    /// The next word; an empty one at the end.
    pub fn word(&mut self) -> &str {
        let (word, rest) = at_blank(behind(self.text.as_str(), self.at));
        self.at = self.text.len().saturating_sub(rest.len());
        word
    }

    /// The same, which stays while more of the line is read.
    pub fn own_word(&mut self) -> Result<String, Wrong> {
        let alloc = self.alloc;
        Ok(String::from_str(alloc, self.word())?)
    }

    /// The next word is one of two; whether it is the second.
    pub fn is_second(&mut self, first: &str, second: &str) -> Result<bool, Wrong> {
        let word = self.word();
        if are_same(word, second) {
            return Ok(true);
        }
        if are_same(word, first) {
            return Ok(false);
        }
        Err(Wrong::Unread)
    }

    /// The next word as a number.
    pub fn number(&mut self) -> Result<u64, Wrong> {
        number_of(self.word()).ok_or(Wrong::Unread)
    }

    /// The next word as a number of a range; another one can't be read.
    pub fn within(&mut self, least: u64, most: u64) -> Result<u64, Wrong>
        ensures { IfOk result (λ n. (least ≤ n) × (n ≤ most)) }
    {
        let number = self.number()?;
        if number < least || number > most {
            return Err(Wrong::Unread);
        }
        Ok(number)
    }

    /// The next word as a number of up to 2^32 - 1.
    pub fn small(&mut self) -> Result<u32, Wrong> {
        u32::try_from(self.number()?).ok().ok_or(Wrong::Unread)
    }

    /// The numbers that the next word is: one, or `first..=last`.
    pub fn numbers(&mut self) -> Result<(u64, u64), Wrong> {
        numbers_of(self.word())
    }

    /// All that is left, as bytes.
    pub fn bytes(&mut self) -> Result<Pattern, Wrong> {
        let all = read_bytes(self.alloc, &self.names, self.rest())?;
        self.skip();
        Ok(all)
    }

    /// The bytes in front of a mark, which is left behind.
    pub fn bytes_up_to(&mut self, mark: &str) -> Result<Pattern, Wrong> {
        let Some((front, rest)) = self.rest().split_once(mark) else {
            return Err(Wrong::Unread);
        };
        let left = rest.len();
        let bytes = read_bytes(self.alloc, &self.names, front)?;
        self.leave(left);
        Ok(bytes)
    }

    /// The bytes in front of `=`, which has a blank on either side.
    pub fn key(&mut self) -> Result<Pattern, Wrong> {
        self.bytes_up_to(" = ")
    }

    /// The words in front of a mark, which is left behind.
    pub fn words_up_to(&mut self, mark: &str) -> Result<Vec<String>, Wrong> {
        let Some((front, rest)) = self.rest().split_once(mark) else {
            return Err(Wrong::Unread);
        };
        let left = rest.len();
        let words = words_of(self.alloc, front)?;
        self.leave(left);
        Ok(words)
    }

    /// Whether it is `-` that stands in front of a mark, which is left behind.
    pub fn has_dash_up_to(&mut self, mark: &str) -> Result<bool, Wrong> {
        let Some((front, rest)) = self.rest().split_once(mark) else {
            return Err(Wrong::Unread);
        };
        let (left, has) = (rest.len(), matches!(front.trim(), "-"));
        self.leave(left);
        Ok(has)
    }

    /// The bytes in front of `=>`.
    pub fn given(&mut self) -> Result<Pattern, Wrong> {
        let given = self.bytes_up_to("=>")?;
        let left = self.rest().trim_start().len();
        self.leave(left);
        Ok(given)
    }

    /// The bytes behind `=>`, in front of which nothing more stands.
    pub fn wanted(&mut self) -> Result<Pattern, Wrong> {
        if self.given()?.is_empty() {
            self.bytes()
        } else {
            Err(Wrong::Unread)
        }
    }

    /// All that is left, as words with a blank between them: two blanks have an empty word between them.
    pub fn words(&mut self) -> Result<Vec<String>, AllocError> {
        let words = words_of(self.alloc, self.rest())?;
        self.skip();
        Ok(words)
    }
}

impl Line {
    /// Notes that it compares something.
    pub fn compares(&mut self) {
        self.has_compared = true;
    }

    // Whether it compared something.
    pub(crate) fn has_compared(&self) -> bool {
        self.has_compared
    }

    /// A test came out as it is to.
    pub fn is_so(&mut self, found: bool) -> Result<(), Wrong> {
        self.compares();
        if found {
            Ok(())
        } else {
            Err(Wrong::Not(Why::Otherwise))
        }
    }

    /// Bytes are as they are to be.
    pub fn told(&mut self, wanted: &Pattern, found: &[u8]) -> Result<(), Wrong> {
        self.compares();
        told(self.alloc, wanted, found)
    }

    /// Bytes are as they are to be, or there are none where none are wanted.
    pub fn told_if(&mut self, wanted: Option<&Pattern>, found: Option<&[u8]>) -> Result<(), Wrong> {
        self.compares();
        match (wanted, found) {
            (Some(wanted), Some(found)) => self.told(wanted, found),
            (None, None) => Ok(()),
            (Some(_), None) => Err(Wrong::Not(Why::NothingThere)),
            (None, Some(found)) => Err(Wrong::Differs(shown(self.alloc, found)?)),
        }
    }

    /// Bytes are all that is left.
    pub fn is_bytes(&mut self, found: &[u8]) -> Result<(), Wrong> {
        let wanted = self.bytes()?;
        self.told(&wanted, found)
    }

    /// A text is as it is to be.
    pub fn is_same(&mut self, wanted: &str, found: String) -> Result<(), Wrong> {
        self.compares();
        is_same(wanted, found)
    }

    /// A text is all that is left.
    pub fn is_text(&mut self, found: String) -> Result<(), Wrong> {
        self.compares();
        let same = is_same(self.rest(), found);
        self.skip();
        same
    }
}

/// The words of a text, which single blanks part.
pub fn words_of(alloc: Global, text: &str) -> Result<Vec<String>, AllocError> {
    let mut words = Vec::new(alloc);
    if text.is_empty() {
        return Ok(words);
    }
    for word in text.split(' ') {
        words.push(String::from_str(alloc, word)?)?;
    }
    Ok(words)
}
