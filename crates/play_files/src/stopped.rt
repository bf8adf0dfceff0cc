//! Transactions and copies that are stopped or fail at each call of the volume, and recovery that is stopped or fails at each of its calls.
ghost use Rattle.std.specs.Prelude.{◌≡◌, true, false, OnOk};

use crate::commits::{Failure, change, copy, data_file, recovered};
use crate::memory::Memory;
use play_stops::{Seen, Trouble, WHOLE, are_same, choices};
use play_text::{Line, Pattern, Script, Wrong};
use std::alloc::{AllocError, Global};
use tc_fakes::{Choice, MemVolume};
use tc_held::{Held, HeldSpace};
use tc_io::Volume;
use tc_space::Space;
use tc_undo::{Batched, RecoverErr, Undo};

// What two files have.
#[derive(Drop)]
struct Kept {
    files: [u32; 2],
    bytes: [Pattern; 2],
}

impl Kept {
    // Whether a volume has that, and no log.
    fn is_in(&self, vol: &MemVolume) -> bool {
        self.bytes[0].fits(vol.bytes(self.files[0].min(18)))
            && self.bytes[1].fits(vol.bytes(self.files[1].min(18)))
            && vol.bytes(1).is_empty()
    }
}

/// The lines of transactions, what two files have before the first and behind each commit, the label of the copies, and how calls go wrong.
#[derive(Drop)]
struct Trial<'a> {
    alloc: Global,
    lines: Script<'a>,
    kept: Vec<Kept>,
    label: String,
    trouble: Trouble,
    memory: Option<Memory>,
}

// How far transactions came.
#[derive(Clone, Copy, PartialEq, Eq)]
struct Progress {
    // how many commits were begun, and how many of them came to their end
    begun: usize,
    ended: usize,
    // behind how many commits the last whole copy was made, and the one that isn't whole
    copied: Option<usize>,
    copying: Option<usize>,
    // whether all lines were played
    is_through: bool,
}

// Nothing was done.
const NONE: Progress = Progress {
    begun: 0,
    ended: 0,
    copied: None,
    copying: None,
    is_through: false,
};

// What was recovered from where transactions came, without trouble and with it.
#[derive(Drop)]
struct Course<'t, 'a> {
    trial: &'t Trial<'a>,
    done: Progress,
    recovered: Seen,
    troubled: Seen,
}

// A run may make so many calls of a volume.
const MOST: u64 = 400;

// Recovers a volume; false where it is refused.
fn recovers(vol: &mut MemVolume) -> bool {
    matches!(recovered(vol), Some(Ok(())))
}

// Whether a log breaks the first rule.
fn is_unusable(vol: &mut MemVolume) -> bool {
    match recovered(vol) {
        Some(Err(RecoverErr::Broken(rule))) => rule.letter == b'U' && rule.number == 1,
        _ => false,
    }
}

// Plays a line of transactions. A copy that fails ends nothing.
fn step<S: Space>(
    space: &mut S,
    what: &str,
    line: &mut Line,
    done: &mut Progress,
) -> Result<(), Failure>
    requires { S.sound space.old }
    ensures { OnOk result (S.sound space.new) }
{
    match what {
        "kept" => {
            line.skip();
            Ok(())
        }
        "commit" => {
            done.begun = done.begun.saturating_add(1);
            change(space, what, line)?;
            done.ended = done.begun;
            Ok(())
        }
        "copy" => {
            done.copying = Some(done.ended);
            if copy(space, line)? {
                done.copied = done.copying;
                done.copying = None;
            }
            Ok(())
        }
        _ => change(space, what, line),
    }
}

// Plays transactions, up to the trial, as far as they go.
fn transact<S: Space>(
    space: &mut S,
    lines: &mut Script<'_>,
    done: &mut Progress,
) -> Result<(), Failure>
    requires { S.sound space.old }
{
    for _ in 0..lines.len() {
        let Some((what, mut line)) = lines.next_line()? else {
            return Ok(());
        };
        if matches!(what, "trial") {
            return Ok(());
        }
        step(space, what, &mut line, done)?;
        lines.end(line)?;
    }
    Ok(())
}

impl<'t, 'a> Course<'t, 'a> {
    fn new(trial: &'t Trial<'a>, done: Progress) -> Course<'t, 'a> {
        Course {
            trial,
            done,
            recovered: Seen::new(trial.alloc),
            troubled: Seen::new(trial.alloc),
        }
    }

    // Whether a volume has what the last commit that ended kept, or the one that had begun.
    fn holds(&self, vol: &MemVolume) -> bool {
        self.trial.holds(vol, self.done.ended) || self.trial.holds(vol, self.done.begun)
    }

    // Whether what a stop leaves of a volume, by these choices, is recovered to that.
    fn reopens(&mut self, vol: &MemVolume, choices: &[Choice]) -> Result<bool, AllocError> {
        for image in self.recovered.unseen(vol, choices)? {
            if !self.is_recovered(image) {
                return Ok(false);
            }
        }
        Ok(true)
    }

    // Whether a volume is recovered to that.
    fn is_recovered(&self, vol: MemVolume) -> bool {
        let mut vol = vol;
        let is_so = recovers(&mut vol) && self.holds(&vol);
        drop(vol);
        is_so
    }

    // Whether what is left where recovery of a volume runs into trouble at a call is recovered to that, and whether it ran into none.
    fn reopens_at(&mut self, vol: &MemVolume, call: u64) -> Result<(bool, bool), AllocError> {
        let mut copy = self.trial.copy_in_trouble(vol, call)?;
        let is_whole = recovers(&mut copy) && copy.calls() < call;
        let reopened = self.reopens(&copy, &choices()[..2]);
        drop(copy);
        Ok((reopened?, is_whole))
    }

    // The same at each of its calls.
    fn reopens_twice(&mut self, vol: &MemVolume) -> Result<bool, AllocError> {
        for call in 1..MOST {
            let (reopened, is_whole) = self.reopens_at(vol, call)?;
            if !reopened {
                return Ok(false);
            }
            if is_whole {
                return Ok(true);
            }
        }
        Ok(false)
    }

    // The same of what trouble left, also where recovery runs into such trouble.
    fn survives(&mut self, vol: &MemVolume) -> Result<bool, AllocError> {
        if !self.reopens(vol, &choices())? {
            return Ok(false);
        }
        for image in self.troubled.unseen(vol, &choices())? {
            if !self.reopens_twice(&image)? {
                return Ok(false);
            }
        }
        Ok(true)
    }
}

impl<'a> Trial<'a> {
    // Whether a volume has what was kept behind so many commits.
    fn holds(&self, vol: &MemVolume, commits: usize) -> bool {
        match self.kept.get(commits) {
            Some(kept) => kept.is_in(vol),
            None => false,
        }
    }

    // A volume of what was kept behind so many commits; an empty one where that isn't said.
    fn volume(&self, commits: usize) -> Result<MemVolume, AllocError> {
        let mut vol = MemVolume::new(self.alloc)?;
        if let Some(kept) = self.kept.get(commits) {
            vol.load(kept.files[0].min(18), kept.bytes[0].as_slice())?;
            vol.load(kept.files[1].min(18), kept.bytes[1].as_slice())?;
        }
        Ok(vol)
    }

    // Whether a volume has what was kept behind so many commits and nothing else; it is empty where there is no number.
    fn is_copy(&self, vol: &MemVolume, commits: Option<usize>) -> Result<bool, AllocError> {
        let wanted = self.volume(commits.unwrap_or(usize::MAX))?;
        Ok(are_same(vol, &wanted))
    }

    // Whether what a stop left of the copy is the last whole one or, where one isn't whole, that one or none that can be opened.
    fn is_left(&self, image: &mut MemVolume, done: Progress) -> Result<bool, AllocError> {
        if self.is_copy(image, done.copied)? {
            return Ok(true);
        }
        if done.copying.is_none() {
            return Ok(false);
        }
        Ok(self.is_copy(image, done.copying)? || is_unusable(image))
    }

    // Whether what a stop leaves of a copy by a choice is that.
    fn stands(
        &self,
        copy: &MemVolume,
        choice: &Choice,
        done: Progress,
    ) -> Result<bool, AllocError> {
        let mut image = copy.image(choice)?;
        let stands = self.is_left(&mut image, done);
        drop(image);
        stands
    }

    // The same by each choice.
    fn all_stand(&self, copy: &MemVolume, done: Progress) -> Result<bool, AllocError> {
        for choice in choices().iter() {
            if !self.stands(copy, choice, done)? {
                return Ok(false);
            }
        }
        Ok(true)
    }

    // The same of the copy in a volume.
    fn copies_stand(&self, vol: &MemVolume, done: Progress) -> Result<bool, AllocError> {
        if self.label.is_empty() {
            return Ok(true);
        }
        let copy = vol.copy(self.label.as_bytes())?;
        let stand = self.all_stand(&copy, done);
        drop(copy);
        stand
    }

    // A copy of a volume on which trouble is met at a call.
    fn copy_in_trouble(&self, vol: &MemVolume, call: u64) -> Result<MemVolume, AllocError> {
        let mut copy = vol.image(&WHOLE)?;
        self.trouble.meet(self.alloc, &mut copy, call)?;
        Ok(copy)
    }

    // A volume of what was kept at first, on which trouble is met at a call.
    fn ready(&self, call: u64) -> Result<MemVolume, AllocError> {
        let mut vol = self.volume(0)?;
        self.trouble.meet(self.alloc, &mut vol, call)?;
        Ok(vol)
    }

    // The memory in which writes are held, if they are.
    fn held(&self) -> Result<Option<Held>, AllocError> {
        match self.memory {
            Some(memory) => Ok(Some(memory.take(self.alloc)?)),
            None => Ok(None),
        }
    }

    // Plays the transactions on files that were opened, and hands them back.
    fn transacted<S: Batched>(
        &self,
        space: S,
        held: Option<Held>,
        done: &mut Progress,
    ) -> (S, Result<(), Failure>)
        requires sound { S.sound space }
        requires untouched { S.touched space ≡ false }
    {
        let mut lines = self.lines;
        match held {
            None => {
                let mut space = space;
                let played = transact(&mut space, &mut lines, done);
                (space, played)
            }
            Some(held) => {
                let mut space = HeldSpace::new(space, held);
                let played = transact(&mut space, &mut lines, done);
                (space.into_below(), played)
            }
        }
    }

    // Opens files of a volume, plays the transactions on them, and closes them. Hands the volume back with what came of it; with none where the files aren't opened.
    fn transacted_on<V: Volume>(
        &self,
        vol: V,
        held: Option<Held>,
        done: &mut Progress,
    ) -> (V, Option<Result<(), Failure>>)
        requires { V.bound vol ≡ true }
    {
        match Undo::open(vol, 1 << 20) {
            Ok(space) => {
                let (space, played) = self.transacted(space, held, done);
                (space.close(), Some(played))
            }
            Err(refused) => (refused.vol, None),
        }
    }

    // A volume on which the transactions ran into trouble at a call, or didn't.
    fn troubled(&self, call: u64, done: &mut Progress) -> Result<MemVolume, Wrong> {
        let held = self.held()?;
        let mut vol = self.ready(call)?;
        let Ok(()) = vol.bind("a") else {
            drop(held);
            return Ok(vol);
        };
        let (vol, played) = self.transacted_on(vol, held, done);
        done.is_through = matches!(played, Some(Ok(())));
        match played {
            Some(Err(Failure::Line(wrong))) => {
                drop(vol);
                Err(wrong)
            }
            _ => Ok(vol),
        }
    }

    // Whether all lines were played, and all commits and copies came to their end.
    fn is_whole(&self, vol: &MemVolume, done: Progress) -> bool {
        done.is_through
            && done.copying.is_none()
            && done.ended.saturating_add(1) == self.kept.len()
            && self.holds(vol, done.ended)
    }

    // Whether a volume has what it is to have, also behind more trouble, and so its copies.
    fn is_well(
        &self,
        course: &mut Course<'_, 'a>,
        vol: &MemVolume,
        done: Progress,
    ) -> Result<bool, AllocError> {
        Ok(course.survives(vol)? && self.copies_stand(vol, done)?)
    }

    // Each call goes wrong in turn, until none does. Answers the call at which something else came.
    fn first_lost(&self) -> Result<Option<u64>, Wrong> {
        let mut course = Course::new(self, NONE);
        for call in 1..MOST {
            let mut done = NONE;
            let vol = self.troubled(call, &mut done)?;
            if done != course.done {
                course = Course::new(self, done);
            }
            let is_well = self.is_well(&mut course, &vol, done);
            let (calls, is_whole) = (vol.calls(), self.is_whole(&vol, done));
            drop(vol);
            if !is_well? {
                return Ok(Some(call));
            }
            if calls < call {
                return Ok(if is_whole { None } else { Some(call) });
            }
        }
        Ok(Some(MOST))
    }

    // Takes what two files have: `kept FILE BYTES = FILE BYTES`.
    fn keep(&mut self, line: &mut Line) -> Result<(), Wrong> {
        let one = data_file(line)?;
        let first = line.key()?;
        let other = data_file(line)?;
        let second = line.bytes()?;
        self.kept.push(Kept {
            files: [one, other],
            bytes: [first, second],
        })?;
        Ok(())
    }

    // Takes the label of a line `copy LABEL`, which is that of all of them.
    fn take_label(&mut self, label: &str) -> Result<(), Wrong> {
        if !self.label.is_empty() && self.label.as_str() != label {
            return Err(Wrong::Unread);
        }
        self.label = String::from_str(self.alloc, label)?;
        Ok(())
    }

    // Takes a line in front of the trial, which plays those that change files.
    fn take(&mut self, what: &str, line: &mut Line) -> Result<(), Wrong> {
        match what {
            "kept" => self.keep(line),
            "copy" => self.take_label(line.word()),
            "put" | "cut" | "get" | "commit" => {
                line.skip();
                Ok(())
            }
            _ => Err(Wrong::Unread),
        }
    }

    // Tries all calls, `trial stops` or `trial faults`.
    fn try_all(&mut self, line: &mut Line) -> Result<(), Wrong> {
        self.trouble = match line.word() {
            "stops" => Trouble::Stop,
            "faults" => Trouble::Fault,
            _ => return Err(Wrong::Unread),
        };
        line.compares();
        let Some(call) = self.first_lost()? else {
            return Ok(());
        };
        let found = format!(in self.alloc; "at call {call}")?;
        Err(Wrong::Differs(found))
    }

    // Plays the lines of a case, up to the trial.
    fn play(&mut self, script: &mut Script<'_>) -> Result<(), Wrong> {
        for _ in 0..script.len() {
            let Some((what, mut line)) = script.next_line()? else {
                return Ok(());
            };
            if matches!(what, "trial") {
                self.try_all(&mut line)?;
                return script.end(line);
            }
            self.take(what, &mut line)?;
            script.end(line)?;
        }
        Ok(())
    }
}

/// Plays a case of transactions in trouble: `trial stops|faults` behind lines of transactions, in which `kept FILE BYTES = FILE BYTES` says what two files have at first and behind each commit.
/// What a stop leaves of the copies is looked at too. Writes are held where the first line goes on with `held PIECES BYTES`.
pub fn play_trial(alloc: Global, line: &mut Line, script: &mut Script<'_>) -> Result<(), Wrong> {
    let memory = Memory::of(line)?;
    let mut trial = Trial {
        alloc,
        lines: *script,
        kept: Vec::new(alloc),
        label: String::new(alloc),
        trouble: Trouble::Stop,
        memory,
    };
    let played = trial.play(script);
    drop(trial);
    played
}
