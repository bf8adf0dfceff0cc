//! What came of the cases.

use crate::wrongs::Wrong;
use std::alloc::{AllocError, Global};

/// How many cases passed and failed, and a line for each that failed.
#[derive(Drop)]
pub struct Report {
    alloc: Global,
    passed: u64,
    failed: u64,
    lines: String,
}

impl Report {
    /// Nothing was played.
    pub fn new(alloc: Global) -> Report {
        Report {
            alloc,
            passed: 0,
            failed: 0,
            lines: String::new(alloc),
        }
    }

    /// A case passed.
    pub fn pass(&mut self) {
        self.passed = self.passed.saturating_add(1);
    }

    /// A line of a case failed.
    pub fn fail(&mut self, case: &str, line: &str, wrong: &Wrong) -> Result<(), AllocError> {
        self.failed = self.failed.saturating_add(1);
        let why = wrong.text();
        let text = format!(in self.alloc; "failed: {case}: {line}: {why}\n")?;
        self.lines.push_str(text.as_str())
    }

    /// Whether all passed.
    pub fn is_well(&self) -> bool {
        self.failed == 0
    }

    /// A line for each case that failed, and how many passed and failed.
    pub fn text(&self) -> Result<String, AllocError> {
        format!(in self.alloc;
            "{}{} passed, {} failed\n",
            self.lines.as_str(),
            self.passed,
            self.failed
        )
    }
}
