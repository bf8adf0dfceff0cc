//! Bytes that have names.

use crate::patterns::Pattern;
use crate::wrongs::are_same;
use std::alloc::{AllocError, Global};

// A word that stands for bytes: `$name`.
#[derive(Drop)]
struct Named {
    word: String,
    bytes: Pattern,
}

/// What each name stands for.
#[derive(Drop)]
pub struct Names {
    all: Vec<Named>,
}

impl Names {
    /// No names.
    pub fn new(alloc: Global) -> Names {
        Names {
            all: Vec::new(alloc),
        }
    }

    /// A name stands for these bytes from now on.
    pub fn define(&mut self, alloc: Global, name: &str, bytes: Pattern) -> Result<(), AllocError> {
        let word = format!(in alloc; "${name}")?;
        self.all.push(Named { word, bytes })?;
        Ok(())
    }

    /// What a word stands for, `$` and a name.
    pub fn get(&self, word: &str) -> Option<&Pattern> {
        for named in self.all.iter().rev() {
            if are_same(named.word.as_str(), word) {
                return Some(&named.bytes);
            }
        }
        None
    }

    // Adds one of other names.
    fn add(&mut self, alloc: Global, named: &Named) -> Result<(), AllocError> {
        let word = String::from_str(alloc, named.word.as_str())?;
        let mut bytes = Pattern::new(alloc);
        bytes.append_times(&named.bytes, 1)?;
        self.all.push(Named { word, bytes })?;
        Ok(())
    }

    /// Those of the names that stand in a text.
    pub fn used_in(&self, alloc: Global, text: &str) -> Result<Names, AllocError> {
        let mut used = Names::new(alloc);
        if !text.contains('$') {
            return Ok(used);
        }
        for named in self.all.iter() {
            if text.contains(named.word.as_str()) {
                used.add(alloc, named)?;
            }
        }
        Ok(used)
    }
}
