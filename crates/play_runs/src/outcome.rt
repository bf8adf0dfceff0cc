//! How a run ended.

use crate::plan::Plan;
use crate::transcript::has_opened;
use play_text::{Line, Why, Wrong, shown, told};
use std::alloc::{AllocError, Global};
use tc_fakes::{MemSink, MemVolume, MemWire, StepClock};
use tk_top::run;

/// What is left of a run, but for its volume.
#[derive(Drop)]
pub struct Outcome {
    pub status: u8,
    pub wire: MemWire,
    pub out: MemSink,
    pub err: MemSink,
}

/// A run over a volume, and the volume behind it.
pub fn ran(alloc: Global, plan: &Plan, vol: MemVolume) -> Result<(Outcome, MemVolume), AllocError> {
    let ends = plan.ends()?;
    let mut wire = ends.0;
    let mut out = ends.1;
    let mut err = MemSink::new(alloc);
    let mut clock = StepClock::new(7, 0);
    let ran = run(
        alloc,
        &plan.words,
        vol,
        &mut wire,
        &mut out,
        &mut err,
        &mut clock,
    );
    let outcome = Outcome {
        status: ran.status,
        wire,
        out,
        err,
    };
    Ok((outcome, ran.vol))
}

impl Outcome {
    // Its status and its line.
    fn differs(&self, alloc: Global) -> Result<(), Wrong> {
        let line = shown(alloc, self.err.bytes())?;
        let text = format!(in alloc; "status {}, {}", self.status, line.as_str())?;
        Err(Wrong::Differs(text))
    }

    /// It ended with the status of a line, never for want of memory, and connection 0 was sent what the plan says.
    pub fn ended(&self, alloc: Global, plan: &Plan, line: &mut Line) -> Result<(), Wrong> {
        let status = line.number()?;
        line.compares();
        if u64::from(self.status) != status {
            return self.differs(alloc);
        }
        if self.wire.starved() != 0 || self.out.starved() != 0 || self.err.starved() != 0 {
            return Err(Wrong::Memory);
        }
        self.is_answered(alloc, plan)
    }

    /// Connection 0 was sent what it is owed, where it asked.
    pub fn is_answered(&self, alloc: Global, plan: &Plan) -> Result<(), Wrong> {
        match &plan.owed {
            Some(owed) => told(alloc, owed, self.wire.sent(0)),
            None => Ok(()),
        }
    }

    /// The connection of a line, which opened.
    pub fn conn(&self, line: &mut Line) -> Result<u32, Wrong> {
        let conn = line.small()?;
        if has_opened(self.wire.log(), conn) {
            return Ok(conn);
        }
        Err(Wrong::Not(Why::NeverOpened))
    }

    // Whether a connection is closed.
    fn is_closed(&self, line: &mut Line, closed: bool) -> Result<(), Wrong> {
        let conn = self.conn(line)?;
        line.compares();
        if self.wire.is_closed(conn) == closed {
            return Ok(());
        }
        Err(Wrong::Not(Why::OtherWay))
    }

    /// Looks at a line that says what came of it.
    pub fn is(&self, what: &str, line: &mut Line) -> Result<(), Wrong> {
        match what {
            "closed" => self.is_closed(line, true),
            "open" => self.is_closed(line, false),
            "out" => line.is_bytes(self.out.bytes()),
            "err" => line.is_bytes(self.err.bytes()),
            _ => Err(Wrong::Unread),
        }
    }
}
