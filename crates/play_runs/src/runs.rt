//! Runs, played line by line.
ghost use Rattle.std.specs.Prelude.{◌≤◌, IfOk};

use crate::outcome::{Outcome, ran};
use crate::plan::Plan;
use crate::transcript::{is_call, next_told, sent_besides};
use crate::trials::{Trial, try_all, try_copies};
use play_stops::{Trouble, WHOLE, are_same};
use play_text::{Line, Pattern, Player, Script, Why, Wrong, told};
use std::alloc::{AllocError, Global};
use std::mem;
use tc_fakes::MemVolume;

/// A volume, what the next run over it is given, and what came of the last one.
#[derive(Drop)]
pub struct Runs {
    alloc: Global,
    vol: MemVolume,
    // the volume as it was before the last run
    before: MemVolume,
    plan: Plan,
    // a file was made or changed since the last run
    made: bool,
    outcome: Option<Outcome>,
    told: Told,
    trial: Trial,
}

// What was told of the last run: its output, its line, its log, what it sent to these connections, and how many of its calls of the wire.
#[derive(Drop)]
struct Told {
    out: bool,
    err: bool,
    log: bool,
    sent: Vec<u32>,
    calls: usize,
}

impl Told {
    // Nothing was told.
    fn new(alloc: Global) -> Told {
        Told {
            out: false,
            err: false,
            log: false,
            sent: Vec::new(alloc),
            calls: 0,
        }
    }
}

// A file that there is.
fn file_of(line: &mut Line) -> Result<u32, Wrong>
    ensures { IfOk result (λ file. file ≤ 18) }
{
    let file = line.within(0, 18)?;
    Ok(file as u32)
}

// A file of a volume has these bytes: `FILE BYTES`.
fn has_file(vol: &MemVolume, line: &mut Line) -> Result<(), Wrong> {
    let file = file_of(line)?;
    line.is_bytes(vol.bytes(file))
}

// A file has the same bytes in two volumes.
fn have_same(vol: &MemVolume, other: &MemVolume, line: &mut Line) -> Result<(), Wrong> {
    let file = file_of(line)?;
    line.compares();
    if vol.bytes(file) == other.bytes(file) {
        return Ok(());
    }
    Err(Wrong::Not(Why::AnotherFile))
}

impl Runs {
    pub fn new(alloc: Global) -> Result<Runs, AllocError> {
        Ok(Runs {
            alloc,
            vol: MemVolume::new(alloc)?,
            before: MemVolume::new(alloc)?,
            plan: Plan::new(alloc),
            made: false,
            outcome: None,
            told: Told::new(alloc),
            trial: Trial::new(alloc),
        })
    }

    // Bytes at a place of a file, all of them in it, become others.
    fn poke(&mut self, file: u32, line: &mut Line) -> Result<(), Wrong>
        requires { file ≤ 18 }
    {
        let mut all = Vec::from_slice(self.alloc, self.vol.bytes(file))?;
        let place = line.within(0, all.len() as u64)? as usize;
        let bytes = line.bytes()?;
        let bytes = bytes.as_slice();
        if bytes.is_empty() || bytes.len() > all.len() - place {
            return Err(Wrong::Unread);
        }
        all[place..place + bytes.len()].copy_from_slice(bytes);
        Ok(self.vol.load(file, &all)?)
    }

    // A file ends at a place in it.
    fn cut(&mut self, file: u32, line: &mut Line) -> Result<(), Wrong>
        requires { file ≤ 18 }
    {
        let mut all = Vec::from_slice(self.alloc, self.vol.bytes(file))?;
        let length = line.within(0, all.len() as u64)?;
        all.truncate(length as usize);
        Ok(self.vol.load(file, &all)?)
    }

    // The files are those of the copy under a label.
    fn restore(&mut self, line: &mut Line) -> Result<(), Wrong> {
        self.made = true;
        let copy = self.vol.copy(line.word().as_bytes())?;
        drop(mem::replace(&mut self.vol, copy));
        Ok(())
    }

    // Takes a line that makes files.
    fn make(&mut self, what: &str, line: &mut Line) -> Result<(), Wrong> {
        self.made = true;
        let file = file_of(line)?;
        match what {
            "load" => Ok(self.vol.load(file, line.bytes()?.as_slice())?),
            "cut" => self.cut(file, line),
            _ => self.poke(file, line),
        }
    }

    // Runs over the volume, and keeps what it was and is.
    fn go(&mut self) -> Result<Outcome, AllocError> {
        drop(mem::replace(&mut self.before, self.vol.image(&WHOLE)?));
        let vol = mem::replace(&mut self.vol, MemVolume::new(self.alloc)?);
        let (outcome, vol) = ran(self.alloc, &self.plan, vol)?;
        self.vol = vol;
        Ok(outcome)
    }

    // Runs, and looks at its status and at what connection 0 is owed, where it asked.
    fn run(&mut self, line: &mut Line) -> Result<(), Wrong> {
        self.is_all_told()?;
        (self.made, self.plan.waits) = (false, false);
        let outcome = self.go()?;
        let ended = outcome.ended(self.alloc, &self.plan, line);
        drop(mem::replace(&mut self.outcome, Some(outcome)));
        ended?;
        self.told = Told::new(self.alloc);
        if self.plan.owed.is_some() {
            self.told.sent.push(0)?;
        }
        if self.vol.starved() != 0 {
            return Err(Wrong::Memory);
        }
        Ok(())
    }

    // Whether a line was taken for a run that wasn't made.
    fn waits(&self) -> bool {
        self.made || self.plan.waits
    }

    // The run of which a line speaks was made.
    fn has_run(&self) -> Result<(), Wrong> {
        if self.outcome.is_none() || self.waits() {
            return Err(Wrong::Not(Why::NothingRan));
        }
        Ok(())
    }

    // All that was made ready for a run or a trial was used.
    fn is_all_run(&self) -> Result<(), Wrong> {
        if self.waits() || self.trial.waits {
            return Err(Wrong::Not(Why::NothingRanBehind));
        }
        Ok(())
    }

    // Nothing was sent but to connections that lines told of.
    fn is_all_sent(&self, outcome: &Outcome) -> Result<(), Wrong> {
        match sent_besides(outcome.wire.log(), &self.told.sent) {
            Some(conn) => Err(Wrong::Differs(format!(in self.alloc;
                "connection {conn} was sent more"
            )?)),
            None => Ok(()),
        }
    }

    // What no line tells of the last run is nothing: what it printed, its line, what is left in the log, and what it sent. Where a call of the wire is told, all are.
    fn is_all_told(&self) -> Result<(), Wrong> {
        let Some(outcome) = &self.outcome else {
            return Ok(());
        };
        let none = Pattern::new(self.alloc);
        if !self.told.out {
            told(self.alloc, &none, outcome.out.bytes())?;
        }
        if !self.told.err {
            told(self.alloc, &none, outcome.err.bytes())?;
        }
        if !self.told.log {
            told(self.alloc, &none, self.vol.bytes(1))?;
        }
        if self.told.calls == 0 {
            return self.is_all_sent(outcome);
        }
        if next_told(outcome.wire.log(), self.told.calls).is_some() {
            return Err(Wrong::Not(Why::More));
        }
        Ok(())
    }

    // Looks at a line that says what files are left: the bytes of one, all as they were, or any log.
    fn is_left(&mut self, what: &str, line: &mut Line) -> Result<(), Wrong> {
        if !matches!(what, "file") {
            self.told.log = true;
        }
        match what {
            "file" => self.is_file(line),
            "kept" if !are_same(&self.vol, &self.before) => Err(Wrong::Not(Why::AnotherFile)),
            _ => Ok(()),
        }
    }

    // Looks at the bytes of a file.
    fn is_file(&mut self, line: &mut Line) -> Result<(), Wrong> {
        let file = file_of(line)?;
        self.told.log = self.told.log || file == 1;
        line.is_bytes(self.vol.bytes(file))
    }

    // Looks at the bytes of a file of the copy under a label.
    fn is_copied(&mut self, line: &mut Line) -> Result<(), Wrong> {
        let copy = self.vol.copy(line.word().as_bytes())?;
        let found = has_file(&copy, line);
        drop(copy);
        found
    }

    // A file of the copy under a label is as that of the database.
    fn is_same(&mut self, line: &mut Line) -> Result<(), Wrong> {
        let copy = self.vol.copy(line.word().as_bytes())?;
        let same = have_same(&copy, &self.vol, line);
        drop(copy);
        same
    }

    // Looks at a line that says what the wire was asked next, or that it was asked nothing.
    fn is_asked(&mut self, line: &mut Line) -> Result<(), Wrong> {
        let Some(outcome) = &self.outcome else {
            return Err(Wrong::Unread);
        };
        let log = outcome.wire.log();
        let Some((place, entry)) = next_told(log, self.told.calls) else {
            if matches!(line.word(), "nothing") && log.is_empty() {
                return Ok(());
            }
            return Err(Wrong::Not(Why::Nothing));
        };
        self.told.calls = place.saturating_add(1);
        is_call(self.alloc, line, entry)
    }

    // Looks at a line that says how many calls the volume had.
    fn is_called(&self, line: &mut Line) -> Result<(), Wrong> {
        let calls = self.vol.calls();
        if calls == line.number()? {
            return Ok(());
        }
        Err(Wrong::Differs(format!(in self.alloc; "{calls} calls")?))
    }

    // Looks at a line that says what came of the last run.
    fn is(&mut self, what: &str, line: &mut Line) -> Result<(), Wrong> {
        self.told.out = self.told.out || matches!(what, "out");
        self.told.err = self.told.err || matches!(what, "err");
        match &self.outcome {
            Some(outcome) => outcome.is(what, line),
            None => Err(Wrong::Unread),
        }
    }

    // Looks at a line that says what was sent to a connection.
    fn is_sent(&mut self, line: &mut Line) -> Result<(), Wrong> {
        let Some(outcome) = &self.outcome else {
            return Err(Wrong::Unread);
        };
        let conn = outcome.conn(line)?;
        self.told.sent.push(conn)?;
        line.is_bytes(outcome.wire.sent(conn))
    }

    // Tries a run with trouble at each call. No line behind it speaks of an earlier run.
    fn try_run(&mut self, trouble: Trouble, line: &mut Line) -> Result<(), Wrong> {
        self.is_all_told()?;
        drop(self.outcome.take());
        (self.made, self.plan.waits, self.trial.waits) = (false, false, false);
        self.trial.calls = line.number()?;
        line.compares();
        try_all(self.alloc, &self.plan, &self.trial, &self.vol, trouble)
    }

    // The same of the copy under a label, where the run is stopped at each call.
    fn try_copy(&mut self, line: &mut Line) -> Result<(), Wrong> {
        self.is_all_told()?;
        drop(self.outcome.take());
        (self.made, self.plan.waits, self.trial.waits) = (false, false, false);
        let label = line.own_word()?;
        self.trial.calls = line.number()?;
        line.compares();
        try_copies(
            self.alloc,
            &self.plan,
            &self.trial,
            &self.vol,
            label.as_str(),
        )
    }
}

impl Runs {
    // Looks at a line that speaks of the last run.
    fn look(&mut self, what: &str, line: &mut Line) -> Result<(), Wrong> {
        self.has_run()?;
        match what {
            "file" | "kept" | "log" => self.is_left(what, line),
            "did" => self.is_asked(line),
            "calls" => self.is_called(line),
            "copy" => self.is_copied(line),
            "same" => self.is_same(line),
            "sent" => self.is_sent(line),
            _ => self.is(what, line),
        }
    }

    // Plays a line.
    fn line(&mut self, what: &str, line: &mut Line) -> Result<(), Wrong> {
        match what {
            "load" | "poke" | "cut" => self.make(what, line),
            "run" => self.run(line),
            "again" | "asks" | "before" | "after" => self.trial.take(what, line),
            "restore" => self.restore(line),
            "copies" => self.try_copy(line),
            "stops" => self.try_run(Trouble::Stop, line),
            "faults" => self.try_run(Trouble::Fault, line),
            "sent"
            | "closed"
            | "open"
            | "out"
            | "err"
            | "file"
            | "kept"
            | "log"
            | "did"
            | "copy"
            | "same"
            | "calls" => { self.look(what, line) }
            _ => self.plan.take(what, line),
        }
    }
}

impl Player for Runs {
    fn play(&mut self, script: &mut Script<'_>) -> Result<(), Wrong> {
        let fresh = Runs::new(self.alloc)?;
        drop(mem::replace(self, fresh));
        for _ in 0..script.len() {
            if let Some((what, mut line)) = script.next_line()? {
                self.line(what, &mut line)?;
                script.end(line)?;
            }
        }
        self.is_all_run()?;
        self.is_all_told()
    }
}
