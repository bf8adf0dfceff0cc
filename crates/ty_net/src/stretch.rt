//! A stretch of a list.

/// The places from one to another.
#[derive(Clone, Copy, Drop)]
pub struct Stretch {
    pub from: usize,
    pub to: usize,
}

impl Stretch {
    /// No place.
    pub fn none() -> Stretch {
        Stretch { from: 0, to: 0 }
    }

    pub fn is_none(&self) -> bool {
        self.from >= self.to
    }

    /// One place more, and those between.
    pub fn add(&mut self, at: usize) {
        let behind = at.saturating_add(1);
        if self.is_none() {
            self.from = at;
            self.to = behind;
        } else {
            self.from = self.from.min(at);
            self.to = self.to.max(behind);
        }
    }

    /// What stood at that place left the list, and those behind it came one forward.
    pub fn close_up(&mut self, at: usize) {
        if at < self.from {
            self.from -= 1;
        }
        if at < self.to {
            self.to -= 1;
        }
    }
}
