//! Cases of files with commits, over a volume in memory that counts its syncs and writes.
ghost use Rattle.std.specs.Prelude.{◌≡◌, ◌≤◌, ◌^◌, true, false, IfOk, OnOk};
ghost use Rattle.tc_space.specs.Ranges.{IsDataFile};

use crate::counted::Counted;
use crate::looks::{is_number, name_of};
use crate::memory::Memory;
use crate::refusals::unwritten;
use play_stops::choices;
use play_text::{Line, Pattern, Script, Why, Wrong};
use std::alloc::{AllocError, Global};
use tc_base::{Fault, Label};
use tc_fakes::MemVolume;
use tc_held::{Held, HeldSpace};
use tc_io::Volume;
use tc_space::{Space, SpaceErr};
use tc_undo::{Batched, RecoverErr, Undo, recover};

// The limits of a case on the length of a file.
const LIMIT: u64 = 1 << 20;

/// Why a line on files fails: it isn't as it is to be, or the files refused a call.
#[derive(Drop)]
pub enum Failure {
    Line(Wrong),
    Space(SpaceErr),
}

impl From<Wrong> for Failure {
    fn from(wrong: Wrong) -> Failure {
        Failure::Line(wrong)
    }
}

impl From<SpaceErr> for Failure {
    fn from(refused: SpaceErr) -> Failure {
        Failure::Space(refused)
    }
}

impl From<Fault> for Failure {
    fn from(_fault: Fault) -> Failure {
        Failure::Space(SpaceErr::Fault)
    }
}

impl From<Failure> for Wrong {
    fn from(failure: Failure) -> Wrong {
        match failure {
            Failure::Line(wrong) => wrong,
            Failure::Space(refused) => unwritten(refused),
        }
    }
}

/// A data file: 0, or 2 to 18.
pub fn data_file(line: &mut Line) -> Result<u32, Wrong>
    ensures { IfOk result (λ file. IsDataFile file) }
{
    let file = line.within(0, 18)?;
    if file == 1 {
        return Err(Wrong::Unread);
    }
    Ok(file as u32)
}

// Writes at a place within the file or at its end; elsewhere it is as where the limit is reached.
fn put<S: Space>(space: &mut S, file: u32, at: u64, bytes: &[u8]) -> Result<(), SpaceErr>
    requires sound { S.sound space.old }
    requires file { IsDataFile file }
    ensures { OnOk result (S.sound space.new) }
{
    if at > space.len(file) {
        return Err(SpaceErr::Full);
    }
    space.write(file, at, bytes)
}

// Cuts a file that is no shorter.
fn cut<S: Space>(space: &mut S, file: u32, len: u64) -> Result<(), SpaceErr>
    requires sound { S.sound space.old }
    requires file { IsDataFile file }
    ensures { OnOk result (S.sound space.new) }
{
    if len > space.len(file) {
        return Err(SpaceErr::Full);
    }
    space.cut(file, len)
}

/// Commits, which calls nothing where nothing was written, and makes the copy of a line: `LABEL`. Answers whether it was made; where it wasn't, the files may be used
/// as before.
pub fn copy<S: Space>(space: &mut S, line: &mut Line) -> Result<bool, Failure>
    requires { S.sound space.old }
    ensures { OnOk result (S.sound space.new) }
{
    let Some(label) = Label::of(line.word().as_bytes()) else {
        return Err(Failure::Line(Wrong::Unread));
    };
    space.commit()?;
    Ok(space.copy(label.as_slice()).is_ok())
}

// `put FILE PLACE BYTES`.
fn put_line<S: Space>(space: &mut S, line: &mut Line) -> Result<(), Failure>
    requires { S.sound space.old }
    ensures { OnOk result (S.sound space.new) }
{
    let file = data_file(line)?;
    let at = line.number()?;
    let bytes = line.bytes()?;
    Ok(put(space, file, at, bytes.as_slice())?)
}

// `cut FILE LENGTH`.
fn cut_line<S: Space>(space: &mut S, line: &mut Line) -> Result<(), Failure>
    requires { S.sound space.old }
    ensures { OnOk result (S.sound space.new) }
{
    let file = data_file(line)?;
    let len = line.number()?;
    Ok(cut(space, file, len)?)
}

// Looks at up to 64 bytes of a file: `get FILE PLACE BYTES`.
fn get_line<S: Space>(space: &mut S, line: &mut Line) -> Result<(), Failure>
    requires { S.sound space.old }
    ensures { OnOk result (S.sound space.new) }
{
    let file = data_file(line)?;
    let at = line.number()?;
    let wanted = line.bytes()?;
    let mut found = [0u8; 64];
    let n = wanted.as_slice().len().min(64);
    let len = space.len(file);
    if at > len || n as u64 > len - at {
        return Err(Failure::Line(Wrong::Not(Why::Shorter)));
    }
    space.read(file, at, &mut found[..n])?;
    Ok(line.told(&wanted, &found[..n])?)
}

/// Plays a line on files: `put FILE PLACE BYTES`, `cut FILE LENGTH`, `get FILE PLACE BYTES`, `commit`, `copy LABEL`.
pub fn change<S: Space>(space: &mut S, what: &str, line: &mut Line) -> Result<(), Failure>
    requires { S.sound space.old }
    ensures { OnOk result (S.sound space.new) }
{
    match what {
        "put" => put_line(space, line),
        "cut" => cut_line(space, line),
        "get" => get_line(space, line),
        "commit" => Ok(space.commit()?),
        "copy" => {
            let made = copy(space, line)?;
            Ok(line.is_so(made)?)
        }
        _ => Err(Failure::Line(Wrong::Unread)),
    }
}

type Vol = Counted<MemVolume>;

/// A volume in memory, bound, with no syncs and writes counted.
fn bound(vol: MemVolume) -> Result<Vol, Wrong>
    ensures { IfOk result (λ v. v.vol.bound ≡ true) }
{
    let mut vol = vol;
    let Ok(()) = vol.bind("a") else {
        return Err(Wrong::Not(Why::Fault));
    };
    Ok(Counted {
        vol,
        syncs: 0,
        writes: 0,
    })
}

/// Recovers a volume in memory, and answers what that answers; none where it can't be bound.
pub fn recovered(vol: &mut MemVolume) -> Option<Result<(), RecoverErr>> {
    match vol.bind("a") {
        Ok(()) => Some(recover(vol)),
        Err(_) => None,
    }
}

// A file of a volume has these bytes: `FILE BYTES`.
fn has_file(vol: &MemVolume, line: &mut Line) -> Result<(), Wrong> {
    let file = Files::file(line)?;
    line.is_bytes(vol.bytes(file))
}

// A volume is recovered, and a file of it then has these bytes.
fn is_recovered_to(
    vol: &mut MemVolume,
    file: u32,
    wanted: &Pattern,
    line: &mut Line,
) -> Result<(), Wrong>
    requires { file ≤ 18 }
{
    let Some(answer) = recovered(vol) else {
        return Err(Wrong::Not(Why::Fault));
    };
    line.is_so(answer.is_ok())?;
    line.told(wanted, vol.bytes(file))
}

/// Files in a volume, the limit of their lengths, and how many syncs and writes the last opening and all behind it took.
#[derive(Drop)]
pub struct Files {
    alloc: Global,
    vol: MemVolume,
    limit: u64,
    syncs: u64,
    writes: u64,
}

impl Files {
    /// No files, with a limit on their lengths.
    pub fn new(alloc: Global) -> Result<Files, AllocError> {
        Ok(Files {
            alloc,
            vol: MemVolume::new(alloc)?,
            limit: LIMIT,
            syncs: 0,
            writes: 0,
        })
    }

    // Takes the volume, and leaves an empty one.
    fn take(&mut self) -> Result<MemVolume, AllocError> {
        Ok(std::mem::replace(&mut self.vol, MemVolume::new(self.alloc)?))
    }

    // Opens the files, plays lines up to the last of them, and closes them; with a memory in which writes are held, if the line asks for one.
    fn open(&mut self, line: &mut Line, script: &mut Script<'_>) -> Result<(), Wrong> {
        let held = match Memory::of(line)? {
            Some(memory) => Some(memory.take(self.alloc)?),
            None => None,
        };
        let vol = bound(self.take()?)?;
        let (vol, played) = play_volume(vol, self.limit.min(1 << 40), held, script);
        match played {
            Some(played) => {
                self.keep(vol);
                Ok(played?)
            }
            None => {
                self.vol = vol.vol;
                Err(Wrong::Not(Why::Unopened))
            }
        }
    }

    // Takes the volume back, and how many syncs and writes it took.
    fn keep(&mut self, vol: Vol) {
        self.syncs = vol.syncs;
        self.writes = vol.writes;
        self.vol = vol.vol;
    }

    // Recovers the files, and counts the syncs and writes.
    fn recover(&mut self) -> Result<Option<RecoverErr>, Wrong> {
        let mut vol = bound(self.take()?)?;
        let answer = recover(&mut vol).err();
        self.keep(vol);
        Ok(answer)
    }

    // A file that there is.
    fn file(line: &mut Line) -> Result<u32, Wrong>
        ensures { IfOk result (λ file. file ≤ 18) }
    {
        let file = line.within(0, 18)?;
        Ok(file as u32)
    }

    // Looks at a file: `file FILE BYTES`.
    fn is_file(&self, line: &mut Line) -> Result<(), Wrong> {
        has_file(&self.vol, line)
    }

    // Looks at a file of the copy under a label: `copied LABEL FILE BYTES`.
    fn is_copied(&self, line: &mut Line) -> Result<(), Wrong> {
        let copy = self.vol.copy(line.word().as_bytes())?;
        let found = has_file(&copy, line);
        drop(copy);
        found
    }

    // Looks at all that a stop may leave of a file once it is recovered: `stopped FILE BYTES`.
    fn is_left(&self, line: &mut Line) -> Result<(), Wrong> {
        let file = Files::file(line)?;
        let wanted = line.bytes()?;
        for choice in choices().iter() {
            let mut image = self.vol.image(choice)?;
            let left = is_recovered_to(&mut image, file, &wanted, line);
            drop(image);
            left?;
        }
        Ok(())
    }

    // Recovers the files, which is not refused.
    fn is_recovered(&mut self) -> Result<(), Wrong> {
        match self.recover()? {
            None => Ok(()),
            Some(_) => Err(Wrong::Not(Why::Refused)),
        }
    }

    // Looks at the rule by which a recovery is refused: `broken U1`.
    fn is_broken(&mut self, line: &mut Line) -> Result<(), Wrong> {
        match self.recover()? {
            Some(RecoverErr::Broken(rule)) => line.is_text(name_of(self.alloc, rule)?),
            _ => Err(Wrong::Not(Why::NoRule)),
        }
    }

    /// Plays a line: `load FILE BYTES`, `limit N`, `open` or `open held PIECES BYTES` up to `close`, `recover`, or `broken RULE` where that is refused, `syncs N`, `writes N`, `file FILE BYTES`, `stopped FILE BYTES`,
    /// `copied LABEL FILE BYTES`.
    pub fn play(
        &mut self,
        what: &str,
        line: &mut Line,
        script: &mut Script<'_>,
    ) -> Result<(), Wrong> {
        match what {
            "load" => {
                let file = Files::file(line)?;
                Ok(self.vol.load(file, line.bytes()?.as_slice())?)
            }
            "limit" => {
                self.limit = line.within(0, 1 << 40)?;
                Ok(())
            }
            "open" => self.open(line, script),
            "recover" => self.is_recovered(),
            "broken" => self.is_broken(line),
            "syncs" => is_number(self.alloc, line, self.syncs),
            "writes" => is_number(self.alloc, line, self.writes),
            "file" => self.is_file(line),
            "stopped" => self.is_left(line),
            "copied" => self.is_copied(line),
            _ => Err(Wrong::Unread),
        }
    }
}

// Whether opened files may be used further is as it is to be.
fn is_usable<S: Space>(space: &S, wanted: bool) -> Result<(), Failure> {
    if space.is_sound() == wanted {
        return Ok(());
    }
    Err(Failure::Line(Wrong::Not(Why::Otherwise)))
}

// Plays the last line on opened files: `close`, `spoil`, which gives all up, `give_up`, which brings down what is held besides, or `full` in front of a line that is
// refused for a limit.
fn play_last<S: Space>(space: &mut S, what: &str, line: &mut Line) -> Result<(), Failure>
    requires { S.sound space.old }
{
    match what {
        "close" => is_usable(space, true),
        "spoil" => {
            space.spoil();
            is_usable(space, false)
        }
        "give_up" => {
            space.give_up()?;
            is_usable(space, false)
        }
        _ => {
            let what = line.own_word()?;
            let refused = matches!(
                change(space, what.as_str(), line),
                Err(Failure::Space(SpaceErr::Full))
            );
            Ok(line.is_so(refused && !space.is_sound())?)
        }
    }
}

// Plays lines on opened files, up to the last.
fn play_lines<S: Space>(space: &mut S, script: &mut Script<'_>) -> Result<(), Failure>
    requires { S.sound space.old }
{
    for _ in 0..script.len() {
        let Some((what, mut line)) = script.next_line()? else {
            return Ok(());
        };
        if matches!(what, "close" | "spoil" | "give_up" | "full") {
            play_last(space, what, &mut line)?;
            return Ok(script.end(line)?);
        }
        change(space, what, &mut line)?;
        script.end(line)?;
    }
    Ok(())
}

// Plays lines on files that were opened, up to the last, and hands them back.
fn play_opened<S: Batched>(
    space: S,
    held: Option<Held>,
    script: &mut Script<'_>,
) -> (S, Result<(), Failure>)
    requires sound { S.sound space }
    requires untouched { S.touched space ≡ false }
{
    match held {
        None => {
            let mut space = space;
            let played = play_lines(&mut space, script);
            (space, played)
        }
        Some(held) => {
            let mut space = HeldSpace::new(space, held);
            let played = play_lines(&mut space, script);
            (space.into_below(), played)
        }
    }
}

// Opens the files of a volume, plays lines on them up to the last, and closes them. Hands the volume back with what came of it; with none where the files aren't opened.
fn play_volume<V: Volume>(
    vol: V,
    limit: u64,
    held: Option<Held>,
    script: &mut Script<'_>,
) -> (V, Option<Result<(), Failure>>)
    requires bound { V.bound vol ≡ true }
    requires limit { limit ≤ 2 ^ 40 }
{
    match Undo::open(vol, limit) {
        Ok(space) => {
            let (space, played) = play_opened(space, held, script);
            (space.close(), Some(played))
        }
        Err(refused) => (refused.vol, None),
    }
}
