//! A text that is told word by word.

use std::alloc::{AllocError, Global};
use tc_base::{Blob, Blobs, Pair};

/// Words with blanks between them. Where memory runs out the text is lost, which is said at its end.
#[derive(Drop)]
pub struct Told {
    alloc: Global,
    text: String,
    is_lost: bool,
}

impl Told {
    /// No words.
    pub fn new(alloc: Global) -> Told {
        Told {
            alloc,
            text: String::new(alloc),
            is_lost: false,
        }
    }

    // Adds a text.
    fn add(&mut self, text: &str) {
        if self.text.push_str(text).is_err() {
            self.is_lost = true;
        }
    }

    // Adds a blank, but in front of all.
    fn part(&mut self) {
        if !self.text.is_empty() {
            self.add(" ");
        }
    }

    /// Adds a word.
    pub fn word(&mut self, word: &str) {
        self.part();
        self.add(word);
    }

    // Adds a number.
    fn number(&mut self, number: u64) {
        match format!(in self.alloc; "{number}") {
            Ok(text) => self.word(text.as_str()),
            Err(_) => self.is_lost = true,
        }
    }

    /// Adds numbers.
    pub fn numbers(&mut self, numbers: &[u64]) {
        for number in numbers {
            self.number(*number);
        }
    }

    /// Adds a number behind its name.
    pub fn named(&mut self, name: &str, number: u64) {
        self.word(name);
        self.number(number);
    }

    /// Adds whether something is so behind its name.
    pub fn is(&mut self, name: &str, is_so: bool) {
        self.word(name);
        self.word(if is_so { "true" } else { "false" });
    }

    // Adds bytes that are a text, in brackets.
    fn bracketed(&mut self, bytes: &[u8]) {
        match std::str::from_utf8(bytes) {
            Ok(text) => {
                self.add("[");
                self.add(text);
                self.add("]");
            }
            Err(_) => self.add("not text"),
        }
    }

    /// Adds a text in brackets.
    pub fn text(&mut self, text: &Blob) {
        self.part();
        self.bracketed(text.as_slice());
    }

    /// Adds a key and its value in brackets, with nothing between them.
    pub fn pair(&mut self, pair: &Pair) {
        self.part();
        self.bracketed(pair.key.as_slice());
        self.bracketed(pair.value.as_slice());
    }

    /// Adds texts in brackets, with nothing between them.
    pub fn texts(&mut self, texts: &Blobs) {
        self.part();
        for text in texts.as_slice() {
            self.bracketed(text.as_slice());
        }
    }

    /// The text.
    pub fn end(self) -> Result<String, AllocError> {
        if self.is_lost {
            return Err(AllocError);
        }
        Ok(self.text)
    }
}
