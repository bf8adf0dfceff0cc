//! Connections that were closed here, until their peers have what was written for them.
use crate::line::Line;
use mio::event::Event;
use std::alloc::Global;
use std::rt;
use std::time::{Duration, Instant};

// So many leavers at most; beyond, the oldest is given up.
const LEAVERS_MOST: usize = 64;

// So many seconds a peer has for the system to take what is written for it.
const PATIENCE: u64 = 30;

// So many seconds it has to end its side, once the system took all.
const LINGER: u64 = 2;

// So many bytes are dropped of each, by reads of 4,096.
const DROPPED_MOST: usize = 1_048_576;

#[derive(Drop)]
struct Leaver {
    line: Line,
    // so many bytes more may be dropped
    left: usize,
    // since it was closed, or all was written; none where the clock can't be read
    since: Option<Instant>,
}

impl Leaver {
    // Writes what is owed, and then reads and drops what has come. Answers whether the peer isn't through yet.
    fn goes_on<R: rt::Clock>(&mut self, rt: &R) -> bool {
        self.line.flush();
        if self.line.is_gone() {
            return false;
        }
        if self.line.owes() {
            return true;
        }
        if self.line.has_ended() {
            return false;
        }
        if !self.line.is_shut() {
            self.line.shut_writing();
            self.since = Instant::now(rt).ok();
        }
        self.drop_input();
        !self.line.has_ended() && self.left > 0
    }

    // Asks the system nothing where it told of no bytes.
    fn drop_input(&mut self) {
        for _ in 0..DROPPED_MOST / 4096 {
            match self.line.drop_input() {
                0 => break,
                count => self.left = self.left.saturating_sub(count),
            }
        }
    }

    fn is_late(&self, now: Instant) -> bool {
        let Some(since) = self.since else {
            return true;
        };
        let most = if self.line.owes() { PATIENCE } else { LINGER };
        now.duration_since(since) > Duration::from_secs(most)
    }
}

/// At most 64 of them, the oldest first.
#[derive(Drop)]
pub struct Leaving {
    leavers: Vec<Leaver>,
}

impl Leaving {
    pub fn new(alloc: Global) -> Leaving {
        Leaving {
            leavers: Vec::new(alloc),
        }
    }

    pub fn is_empty(&self) -> bool {
        self.leavers.is_empty()
    }

    /// Keeps a connection that was closed, where its peer isn't through with it and there is memory.
    pub fn add<R: rt::Clock>(&mut self, rt: &R, line: Line) {
        let mut leaver = Leaver {
            line,
            left: DROPPED_MOST,
            since: None,
        };
        if !leaver.goes_on(rt) {
            return;
        }
        if leaver.line.owes() {
            leaver.since = Instant::now(rt).ok();
        }
        if self.leavers.len() >= LEAVERS_MOST {
            let _ = self.leavers.remove(0);
        }
        let _ = self.leavers.push(leaver);
    }

    /// Takes in one event of one of them.
    pub fn note(&mut self, event: &Event) {
        for leaver in self.leavers.iter_mut() {
            if leaver.line.number() as usize == event.token().0 {
                leaver.line.note(event);
            }
        }
    }

    /// Lets those go whose peers are through or late. The clock is read once, where any are left.
    pub fn tend<R: rt::Clock>(&mut self, rt: &R) {
        self.leavers.retain_mut(|leaver| leaver.goes_on(rt));
        if self.leavers.is_empty() {
            return;
        }
        match Instant::now(rt) {
            Ok(now) => self.leavers.retain_mut(|leaver| !leaver.is_late(now)),
            Err(_) => self.leavers.clear(),
        }
    }

    /// Lets all go.
    pub fn clear(&mut self) {
        self.leavers.clear();
    }
}
