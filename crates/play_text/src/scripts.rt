//! The lines of a case, as they are played.

use crate::lines::Line;
use crate::names::Names;
use crate::terms::at_blank;
use crate::whys::Why;
use crate::wrongs::Wrong;
use std::alloc::Global;

/// The lines of a case that are left, the names that they may have, and what came of those in front: how many were played to their ends, and whether one compared something.
#[derive(Clone, Copy)]
pub struct Script<'a> {
    alloc: Global,
    names: &'a Names,
    lines: &'a [String],
    at: usize,
    ended: usize,
    has_compared: bool,
}

impl<'a> Script<'a> {
    pub(crate) fn new(alloc: Global, names: &'a Names, lines: &'a [String]) -> Script<'a> {
        Script {
            alloc,
            names,
            lines,
            at: 0,
            ended: 0,
            has_compared: false,
        }
    }

    /// How many lines there are, those that were played too.
    pub fn len(&self) -> usize {
        self.lines.len()
    }

    /// The first word of the next line, and the rest of it, which `end` takes once it was played.
    pub fn next_line(&mut self) -> Result<Option<(&'a str, Line)>, Wrong> {
        let Some(text) = self.lines.get(self.at) else {
            return Ok(None);
        };
        self.at = self.at.saturating_add(1);
        let (what, rest) = at_blank(text.as_str());
        let line = Line::new(self.alloc, self.names, rest)?;
        Ok(Some((what, line)))
    }

    /// Ends a line that was played: no word of it is left.
    pub fn end(&mut self, line: Line) -> Result<(), Wrong> {
        line.is_over()?;
        self.ended = self.ended.saturating_add(1);
        self.has_compared = self.has_compared || line.has_compared();
        Ok(())
    }

    // All lines were played to their ends, and one of them compared something.
    pub(crate) fn is_played(&self) -> Result<(), Wrong> {
        if self.at < self.lines.len() {
            return Err(Wrong::Not(Why::Unplayed));
        }
        if self.ended < self.at {
            return Err(Wrong::Not(Why::Unended));
        }
        if !self.has_compared {
            return Err(Wrong::Not(Why::NothingCompared));
        }
        Ok(())
    }

    // The line that was played last.
    pub(crate) fn last_line(&self) -> &'a str {
        match self.lines.get(self.at.saturating_sub(1)) {
            Some(line) => line.as_str(),
            None => "",
        }
    }
}
