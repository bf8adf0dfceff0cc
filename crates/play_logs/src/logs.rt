//! Lines on an opened log.
ghost use Rattle.std.specs.Prelude.{OnOk};
ghost use Rattle.ty_ulog.specs.Log.{IsUpdate};

use crate::failures::Failure;
use crate::looks::{id_of, is_number, is_record, is_taken, step_text, take_text};
use crate::rounds::{Round, are_updates};
use play_text::{Line, Why, Wrong};
use std::alloc::Global;
use tc_fakes::StepClock;
use tc_space::Space;
use ty_slave::{Link, Step};
use ty_ulog::{Feed, Record, Ulog};

/// A log, and what is played on it: a round that isn't written yet, a feed of it, and a link that takes records into it.
#[derive(Drop)]
pub struct Played {
    alloc: Global,
    log: Ulog,
    clock: StepClock,
    round: Round,
    feed: Feed,
    link: Link,
}

impl Played {
    /// A feed from its front, and a link of a server with the id 0.
    pub fn new(alloc: Global, log: Ulog, clock: StepClock) -> Played {
        let held = log.last();
        Played {
            alloc,
            log,
            clock,
            round: Round::new(alloc),
            feed: Feed::new(0),
            link: Link::new(alloc, held, 0),
        }
    }

    // Writes the records of the round: `OWN`.
    fn write_round<S: Space>(&mut self, space: &mut S, line: &mut Line) -> Result<(), Failure>
        requires { S.sound space.old }
        ensures { OnOk result (S.sound space.new) }
    {
        let own = id_of(line)?;
        let requests = self.round.requests();
        if !are_updates(self.alloc, requests)? {
            return Err(Failure::Line(Wrong::Not(Why::NoUpdate)));
        }
        self.log
            .append_updates(space, &mut self.clock, own, requests)?;
        self.round = Round::new(self.alloc);
        Ok(())
    }

    // Takes a record into the log.
    fn take<S: Space>(&mut self, space: &mut S, r: &Record) -> Result<(), Failure>
        requires sound { S.sound space.old }
        requires update { IsUpdate r.now }
        ensures { OnOk result (S.sound space.new) }
    {
        let last = self.log.last();
        if r.before != last || r.stamp <= last {
            return Err(Failure::Line(Wrong::Not(Why::NotNext)));
        }
        self.log.append(space, r)?;
        self.link.hold(r.stamp);
        Ok(())
    }

    // The next step of the link; what is to be taken is: `STEP`.
    fn step<S: Space>(&mut self, space: &mut S, line: &mut Line) -> Result<(), Failure>
        requires { S.sound space.old }
        ensures { OnOk result (S.sound space.new) }
    {
        let step = self.link.step()?;
        line.is_text(step_text(self.alloc, &step)?)?;
        if let Step::Take(r) = step {
            return self.take(space, &r);
        }
        Ok(())
    }

    // The place of the first record with a greater timestamp: `STAMP PLACE`.
    fn is_after<S: Space>(&self, space: &mut S, line: &mut Line) -> Result<(), Failure>
        requires { S.sound space.old }
        ensures { OnOk result (S.sound space.new) }
    {
        let stamp = line.number()?;
        let at = self.log.after(space, stamp)?;
        is_number(self.alloc, line, at)
    }

    // The bytes of the log from a place on: `PLACE BYTES`.
    fn are_bytes<S: Space>(&self, space: &mut S, line: &mut Line) -> Result<(), Failure>
        requires { S.sound space.old }
        ensures { OnOk result (S.sound space.new) }
    {
        let at = line.number()?;
        let mut into = [0; 4096];
        let n = self.log.next_bytes(space, at, &mut into)?;
        Ok(line.is_bytes(&into[..n])?)
    }

    // What the feed is given next: `BYTES`.
    fn are_fed<S: Space>(&mut self, space: &mut S, line: &mut Line) -> Result<(), Failure>
        requires { S.sound space.old }
        ensures { OnOk result (S.sound space.new) }
    {
        let mut into = [0; 4096];
        let n = self.feed.next(&self.log, space, &mut into)?;
        Ok(line.is_bytes(&into[..n])?)
    }

    // Bytes come into the round where they are an updating request: `BYTES`.
    fn adds(&mut self, line: &mut Line, updates: bool) -> Result<(), Failure> {
        let bytes = line.bytes()?;
        let added = self.round.add(bytes.as_slice())?;
        Ok(line.is_so(added == updates)?)
    }

    // A line that doesn't ask for the file.
    fn play_apart(&mut self, what: &str, line: &mut Line) -> Result<(), Failure> {
        match what {
            "update" => self.adds(line, true),
            "no_update" => self.adds(line, false),
            "last" => is_number(self.alloc, line, self.log.last()),
            "feed" => {
                self.feed = Feed::new(line.number()?);
                Ok(())
            }
            "link" => {
                self.link = Link::new(self.alloc, self.log.last(), id_of(line)?);
                Ok(())
            }
            "push" => Ok(self.link.push(line.bytes()?.as_slice())?),
            "front" => Ok(line.is_text(take_text(self.alloc, self.link.front())?)?),
            "taken" => is_taken(self.alloc, line),
            "record" => is_record(self.alloc, line),
            _ => Err(Failure::Line(Wrong::Unread)),
        }
    }

    /// Plays a line.
    pub fn play<S: Space>(
        &mut self,
        space: &mut S,
        what: &str,
        line: &mut Line,
    ) -> Result<(), Failure>
        requires { S.sound space.old }
        ensures { OnOk result (S.sound space.new) }
    {
        match what {
            "round" => self.write_round(space, line),
            "step" => self.step(space, line),
            "after" => self.is_after(space, line),
            "bytes" => self.are_bytes(space, line),
            "next" => self.are_fed(space, line),
            _ => self.play_apart(what, line),
        }
    }
}
