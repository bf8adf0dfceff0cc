//! Cases of a log that is opened.
ghost use Rattle.std.specs.Prelude.{◌≡◌, true, IfOk};

use crate::failures::Failure;
use crate::logs::Played;
use crate::looks::is_rule;
use play_text::{Line, Player, Script, Why, Wrong};
use std::alloc::Global;
use tc_fakes::{MemVolume, StepClock};
use tc_io::Volume;
use tc_space::Space;
use tc_undo::Undo;
use ty_ulog::{ULOG_FILE, Ulog};

// The limit of the files.
const LIMIT: u64 = 1 << 20;

/// What plays cases.
#[derive(Drop)]
pub struct Logs {
    alloc: Global,
}

// A volume whose file 2 is these bytes.
fn volume(alloc: Global, bytes: &[u8]) -> Result<MemVolume, Failure>
    ensures { IfOk result (λ v. v.bound ≡ true) }
{
    let mut vol = MemVolume::new(alloc)?;
    vol.load(ULOG_FILE, bytes)?;
    vol.bind("a")?;
    Ok(vol)
}

// Plays the lines.
fn play_all<S: Space>(
    played: &mut Played,
    space: &mut S,
    script: &mut Script<'_>,
) -> Result<(), Failure>
    requires { S.sound space.old }
{
    for _ in 0..script.len() {
        let Some((what, mut line)) = script.next_line()? else {
            return Ok(());
        };
        played.play(space, what, &mut line)?;
        script.end(line)?;
    }
    Ok(())
}

// Opens the log, and plays the lines.
fn play_lines<S: Space>(
    alloc: Global,
    space: &mut S,
    clock: StepClock,
    script: &mut Script<'_>,
) -> Result<(), Failure>
    requires { S.sound space.old }
{
    let log = Ulog::open(alloc, space)?;
    let mut played = Played::new(alloc, log, clock);
    let done = play_all(&mut played, space, script);
    drop(played);
    done
}

// An opened log: `FIRST STEP BYTES`, the clock's first answer, how far it goes on, and file 2.
fn play_log(alloc: Global, line: &mut Line, script: &mut Script<'_>) -> Result<(), Failure> {
    let first = line.number()?;
    let step = line.number()?;
    let vol = volume(alloc, line.bytes()?.as_slice())?;
    let Ok(mut space) = Undo::open(vol, LIMIT) else {
        return Err(Failure::Line(Wrong::Not(Why::Unopened)));
    };
    play_lines(alloc, &mut space, StepClock::new(first, step), script)
}

// A log that isn't opened: `BYTES => FILE RULE`.
fn is_broken(alloc: Global, line: &mut Line) -> Result<(), Failure> {
    let vol = volume(alloc, line.given()?.as_slice())?;
    let Ok(mut space) = Undo::open(vol, LIMIT) else {
        return Err(Failure::Line(Wrong::Not(Why::Unopened)));
    };
    let opened = Ulog::open(alloc, &mut space).err();
    is_rule(alloc, line, opened)
}

// Plays a case of what its first line names.
fn play_of(
    alloc: Global,
    what: &str,
    line: &mut Line,
    script: &mut Script<'_>,
) -> Result<(), Failure> {
    match what {
        "log" => play_log(alloc, line, script),
        "broken" => is_broken(alloc, line),
        _ => Err(Failure::Line(Wrong::Unread)),
    }
}

impl Logs {
    pub fn new(alloc: Global) -> Logs {
        Logs { alloc }
    }
}

impl Player for Logs {
    fn play(&mut self, script: &mut Script<'_>) -> Result<(), Wrong> {
        let Some((what, mut line)) = script.next_line()? else {
            return Ok(());
        };
        play_of(self.alloc, what, &mut line, script)?;
        script.end(line)
    }
}
