//! A case, and what it is played for.

use crate::numbers::numbers_of;
use crate::terms::at_blank;
use crate::wrongs::Wrong;
use std::alloc::{AllocError, Global};

// A mark, and the texts that stand for it, one in each play.
#[derive(Drop)]
struct Each {
    mark: String,
    texts: Vec<String>,
}

/// A name, lines, and what marks in them stand for.
#[derive(Drop)]
pub struct Case<'a> {
    alloc: Global,
    name: &'a str,
    eaches: Vec<Each>,
    lines: Vec<&'a str>,
    // a line of it couldn't be taken
    is_refused: bool,
}

// A text with another in each place of a mark.
fn replaced(alloc: Global, text: &str, mark: &str, other: &str) -> Result<String, AllocError> {
    let mut all = String::new(alloc);
    for (number, part) in text.split(mark).enumerate() {
        if number > 0 {
            all.push_str(other)?;
        }
        all.push_str(part)?;
    }
    Ok(all)
}

// Adds the numbers that a word is.
fn add_numbers(alloc: Global, word: &str, texts: &mut Vec<String>) -> Result<(), Wrong> {
    let (first, last) = numbers_of(word)?;
    for number in first..=last {
        texts.push(format!(in alloc; "{number}")?)?;
    }
    Ok(())
}

// Adds the texts that a word stands for: `first..=last` for numbers, `''` for an empty one, else itself.
fn add_texts(alloc: Global, word: &str, texts: &mut Vec<String>) -> Result<(), Wrong> {
    if word.contains("..=") {
        return add_numbers(alloc, word, texts);
    }
    let word = match word {
        "" => return Err(Wrong::Unread),
        "''" => "",
        _ => word,
    };
    texts.push(String::from_str(alloc, word)?)?;
    Ok(())
}

impl<'a> Case<'a> {
    pub fn new(alloc: Global, name: &'a str) -> Case<'a> {
        Case {
            alloc,
            name,
            eaches: Vec::new(alloc),
            lines: Vec::new(alloc),
            is_refused: false,
        }
    }

    /// Its name, with its marks.
    pub fn name(&self) -> &'a str {
        self.name
    }

    // Whether a mark stands at the front of another, or the other way.
    fn meets(&self, mark: &str) -> bool {
        for each in self.eaches.iter() {
            let other = each.mark.as_str();
            if other.starts_with(mark) || mark.starts_with(other) {
                return true;
            }
        }
        false
    }

    // Takes what a mark stands for.
    fn add_each(&mut self, text: &str) -> Result<(), Wrong> {
        let (mark, rest) = at_blank(text);
        let mark = format!(in self.alloc; "@{mark}")?;
        if matches!(mark.as_str(), "@") || self.meets(mark.as_str()) {
            return Err(Wrong::Unread);
        }
        let mut texts = Vec::new(self.alloc);
        let between = if rest.contains(" | ") { " | " } else { " " };
        for word in rest.split(between) {
            add_texts(self.alloc, word, &mut texts)?;
        }
        self.eaches.push(Each { mark, texts })?;
        Ok(())
    }

    // Takes a line more, where it can be read.
    fn add_line(&mut self, line: &'a str) -> Result<(), Wrong> {
        match line.strip_prefix("each ") {
            Some(text) => self.add_each(text),
            None => Ok(self.lines.push(line)?),
        }
    }

    /// Takes a line more. Where it can't be read, the case isn't played.
    pub fn add(&mut self, line: &'a str) -> Result<(), Wrong> {
        let added = self.add_line(line);
        self.is_refused = self.is_refused || added.is_err();
        added
    }

    // Whether a mark stands in one of its lines.
    fn has(&self, mark: &str) -> bool {
        for line in self.lines.iter() {
            if line.contains(mark) {
                return true;
            }
        }
        false
    }

    /// The first of its marks that stands in none of its lines.
    pub fn unused(&self) -> Option<&str> {
        for each in self.eaches.iter() {
            if !self.has(each.mark.as_str()) {
                return Some(each.mark.as_str());
            }
        }
        None
    }

    /// How many plays it has; none where a line of it couldn't be read.
    pub fn plays(&self) -> usize {
        if self.is_refused {
            return 0;
        }
        let mut plays: usize = 1;
        for each in self.eaches.iter() {
            plays = plays.saturating_mul(each.texts.len());
        }
        plays
    }

    // A text as it is in the play of a number.
    fn text_in(&self, play: usize, text: &str) -> Result<String, AllocError> {
        let mut all = String::from_str(self.alloc, text)?;
        let mut left = play;
        for each in self.eaches.iter() {
            let count = each.texts.len().max(1);
            if let Some(other) = each.texts.get(left % count) {
                all = replaced(self.alloc, all.as_str(), each.mark.as_str(), other.as_str())?;
            }
            left /= count;
        }
        Ok(all)
    }

    /// Its name in the play of a number.
    pub fn name_in(&self, play: usize) -> Result<String, AllocError> {
        let mut name = self.text_in(play, self.name)?;
        if !self.eaches.is_empty() {
            name.push_str(format!(in self.alloc; " (play {play})")?.as_str())?;
        }
        Ok(name)
    }

    /// Its lines in the play of a number.
    pub fn lines_in(&self, play: usize) -> Result<Vec<String>, AllocError> {
        let mut lines = Vec::new(self.alloc);
        for line in self.lines.iter() {
            lines.push(self.text_in(play, line)?)?;
        }
        Ok(lines)
    }
}
