//! A run stopped or failed at each call of its volume, and so the run that opens what is left.

use crate::outcome::{Outcome, ran};
use crate::plan::Plan;
use play_stops::{Seen, Trouble, WHOLE, choices};
use play_text::{Line, Pattern, Why, Wrong, shown};
use std::alloc::{AllocError, Global};
use tc_fakes::MemVolume;

/// The words of the run that opens what is left, what it is asked and answered, and how many calls of the volume are more than a run makes.
#[derive(Drop)]
pub struct Trial {
    again: Vec<String>,
    asks: Pattern,
    before: Pattern,
    after: Pattern,
    // a line was taken since the last trial
    pub waits: bool,
    pub calls: u64,
}

impl Trial {
    pub fn new(alloc: Global) -> Trial {
        Trial {
            again: Vec::new(alloc),
            asks: Pattern::new(alloc),
            before: Pattern::new(alloc),
            after: Pattern::new(alloc),
            waits: false,
            calls: 0,
        }
    }

    /// Takes a line.
    pub fn take(&mut self, what: &str, line: &mut Line) -> Result<(), Wrong> {
        match what {
            "again" => self.again = line.words()?,
            "asks" => self.asks = line.bytes()?,
            "before" => self.before = line.bytes()?,
            _ => self.after = line.bytes()?,
        }
        self.waits = true;
        Ok(())
    }
}

/// How a trial goes on: how its calls go wrong, whether the run had ended well, and what was opened again without trouble and with it.
#[derive(Drop)]
struct Course<'a> {
    alloc: Global,
    trial: &'a Trial,
    again: &'a Plan,
    trouble: Trouble,
    ended: bool,
    opened: Seen,
    troubled: Seen,
}

// What a run that opens what is left found instead.
fn lost(alloc: Global, outcome: &Outcome) -> Result<(), Wrong> {
    let found = shown(alloc, outcome.wire.sent(0))?;
    Err(Wrong::Differs(format!(in alloc; "status {}, {found}", outcome.status)?))
}

// There were as many calls as no run may make.
const ENDLESS: Wrong = Wrong::Not(Why::Calls);

impl<'a> Course<'a> {
    fn new(
        alloc: Global,
        trial: &'a Trial,
        again: &'a Plan,
        trouble: Trouble,
        ended: bool,
    ) -> Course<'a> {
        Course {
            alloc,
            trial,
            again,
            trouble,
            ended,
            opened: Seen::new(alloc),
            troubled: Seen::new(alloc),
        }
    }

    // What a run sent has the old contents or the new ones; where the run before had ended well, the new ones.
    fn is_held(&self, outcome: &Outcome) -> Result<(), Wrong> {
        let found = outcome.wire.sent(0);
        let kept = self.trial.after.fits(found) || (!self.ended && self.trial.before.fits(found));
        if outcome.status == 0 && kept {
            Ok(())
        } else {
            lost(self.alloc, outcome)
        }
    }

    // A volume, opened again, has those contents.
    fn holds(&self, vol: MemVolume) -> Result<(), Wrong> {
        let (outcome, left) = ran(self.alloc, self.again, vol)?;
        drop(left);
        let held = self.is_held(&outcome);
        drop(outcome);
        held
    }

    // What a second stop leaves of a volume does.
    fn reopens(&mut self, vol: &MemVolume) -> Result<(), Wrong> {
        for image in self.opened.unseen(vol, &choices()[..2])? {
            self.holds(image)?;
        }
        Ok(())
    }

    // The same of what is left by a run that opens a volume and meets trouble at a call. Answers whether the run made fewer calls.
    fn reopens_at(&mut self, vol: &MemVolume, call: u64) -> Result<bool, Wrong> {
        let copy = troubled(self.alloc, self.trouble, vol, call)?;
        let left = left_by(self.alloc, self.again, copy)?;
        let is_last = left.calls() < call;
        let reopened = self.reopens(&left);
        drop(left);
        reopened?;
        Ok(is_last)
    }

    // The same at each of its calls.
    fn reopens_twice(&mut self, vol: &MemVolume) -> Result<(), Wrong> {
        for call in 1..=self.trial.calls {
            if self.reopens_at(vol, call)? {
                return Ok(());
            }
        }
        Err(ENDLESS)
    }

    // A volume does what it is to, also where the run that opens it meets such trouble.
    fn stands(&mut self, vol: MemVolume) -> Result<(), Wrong> {
        match self.reopens_twice(&vol) {
            Ok(()) => self.holds(vol),
            Err(wrong) => {
                drop(vol);
                Err(wrong)
            }
        }
    }

    // What a first stop leaves of a volume does.
    fn survives(&mut self, vol: &MemVolume) -> Result<(), Wrong> {
        for image in self.troubled.unseen(vol, &choices())? {
            self.stands(image)?;
        }
        Ok(())
    }

    // Each call of a run goes wrong in turn, until none does.
    fn try_calls(&mut self, plan: &Plan, files: &MemVolume) -> Result<(), Wrong> {
        for call in 1..=self.trial.calls {
            if try_at(plan, files, self, call)? {
                return Ok(());
            }
        }
        Err(ENDLESS)
    }

    // The same of a copy.
    fn try_copies(&mut self, plan: &Plan, files: &MemVolume, label: &str) -> Result<(), Wrong> {
        for call in 1..=self.trial.calls {
            if try_copy_at(plan, files, self, label, call)? {
                return Ok(());
            }
        }
        Err(ENDLESS)
    }
}

// A copy of a volume on which trouble is met at a call.
fn troubled(
    alloc: Global,
    trouble: Trouble,
    vol: &MemVolume,
    call: u64,
) -> Result<MemVolume, AllocError> {
    let mut copy = vol.image(&WHOLE)?;
    trouble.meet(alloc, &mut copy, call)?;
    Ok(copy)
}

// What a run leaves of a volume.
fn left_by(alloc: Global, plan: &Plan, vol: MemVolume) -> Result<MemVolume, AllocError> {
    let (outcome, left) = ran(alloc, plan, vol)?;
    drop(outcome);
    Ok(left)
}

// A run that met trouble ends with 3 and sends nothing.
fn is_met(alloc: Global, outcome: &Outcome) -> Result<(), Wrong> {
    if outcome.status == 3 && outcome.wire.sent(0).is_empty() {
        return Ok(());
    }
    lost(alloc, outcome)
}

// A run that met no trouble any more is answered, and what it leaves has the new contents.
fn is_done(
    course: &mut Course<'_>,
    outcome: &Outcome,
    left: &MemVolume,
    call: u64,
) -> Result<(), Wrong> {
    let unmet = left.calls() < call || (course.trouble == Trouble::Stop && left.calls() == call);
    if !unmet {
        return lost(course.alloc, outcome);
    }
    course.survives(left)
}

// How a run ended that was to meet trouble at a call, and what it left, are as they are to be.
fn judged(
    plan: &Plan,
    course: &mut Course<'_>,
    outcome: &Outcome,
    left: &MemVolume,
    call: u64,
) -> Result<(), Wrong> {
    let alloc = course.alloc;
    if outcome.status == 0 {
        outcome.is_answered(alloc, plan)?;
        let mut ended = Course::new(alloc, course.trial, course.again, course.trouble, true);
        return is_done(&mut ended, outcome, left, call);
    }
    is_met(alloc, outcome)?;
    course.survives(left)
}

// Tries a run that is to meet trouble at a call. Answers whether it met none.
fn try_at(
    plan: &Plan,
    files: &MemVolume,
    course: &mut Course<'_>,
    call: u64,
) -> Result<bool, Wrong> {
    let vol = troubled(course.alloc, course.trouble, files, call)?;
    let (outcome, left) = ran(course.alloc, plan, vol)?;
    let is_last = outcome.status == 0;
    let judged = judged(plan, course, &outcome, &left, call);
    drop(outcome);
    drop(left);
    judged?;
    Ok(is_last)
}

/// Each call goes wrong in turn, until none does.
pub fn try_all(
    alloc: Global,
    plan: &Plan,
    trial: &Trial,
    files: &MemVolume,
    trouble: Trouble,
) -> Result<(), Wrong> {
    if trial.asks.is_empty() {
        return Err(Wrong::Not(Why::NothingAsked));
    }
    let again = Plan::asking(alloc, trial.again.clone()?, trial.asks.as_slice())?;
    let mut course = Course::new(alloc, trial, &again, trouble, false);
    let tried = course.try_calls(plan, files);
    drop(course);
    drop(again);
    tried
}

// What a stop leaves of a copy can't be opened, or has the old contents or the new ones; where the run had ended well, the new ones.
fn is_a_copy(course: &Course<'_>, copy: MemVolume) -> Result<(), Wrong> {
    let (outcome, left) = ran(course.alloc, course.again, copy)?;
    drop(left);
    let unopened = outcome.status == 4 && outcome.wire.sent(0).is_empty();
    let held = if unopened && !course.ended {
        Ok(())
    } else {
        course.is_held(&outcome)
    };
    drop(outcome);
    held
}

// Each of what stops leave of the copy under a label is.
fn are_copies(course: &mut Course<'_>, left: &MemVolume, label: &str) -> Result<(), Wrong> {
    let copy = left.copy(label.as_bytes())?;
    for image in course.opened.unseen(&copy, &choices())? {
        is_a_copy(course, image)?;
    }
    Ok(())
}

// What is left of the copy under a label by a run that is to be stopped at a call. Answers whether it wasn't stopped.
fn try_copy_at(
    plan: &Plan,
    files: &MemVolume,
    course: &mut Course<'_>,
    label: &str,
    call: u64,
) -> Result<bool, Wrong> {
    let vol = troubled(course.alloc, course.trouble, files, call)?;
    let (outcome, left) = ran(course.alloc, plan, vol)?;
    let is_last = outcome.status == 0;
    drop(outcome);
    let copies = if is_last {
        let mut ended = Course::new(
            course.alloc,
            course.trial,
            course.again,
            course.trouble,
            true,
        );
        are_copies(&mut ended, &left, label)
    } else {
        are_copies(course, &left, label)
    };
    drop(left);
    copies?;
    Ok(is_last)
}

/// A run is stopped at each call in turn, until none is: what stops leave of the copy under a label.
pub fn try_copies(
    alloc: Global,
    plan: &Plan,
    trial: &Trial,
    files: &MemVolume,
    label: &str,
) -> Result<(), Wrong> {
    if trial.asks.is_empty() {
        return Err(Wrong::Not(Why::NothingAsked));
    }
    let again = Plan::asking(alloc, trial.again.clone()?, trial.asks.as_slice())?;
    let mut course = Course::new(alloc, trial, &again, Trouble::Stop, false);
    let tried = course.try_copies(plan, files, label);
    drop(course);
    drop(again);
    tried
}
