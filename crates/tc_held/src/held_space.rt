//! A space that holds what is written until a commit, or until what holds it is full.
ghost use Rattle.std.specs.Prelude.{◌≡◌, ◌+◌, ◌-◌, ◌^◌, ◌≤◌, ◌<◌, ◌⊎◌, [], ℕ, true, false, length, take, drop, Some, IfOk, OnOk, OnErr, IsErrOf};
ghost use Rattle.tc_io.specs.Causes.{Rose};
ghost use Rattle.tc_space.specs.Effects.{Caused, Changes, Outcome};
ghost use Rattle.tc_space.specs.Frames.{Follows, Keeps, OnlyReads};
ghost use Rattle.tc_space.specs.Moments.{LeavesOnly, Past};
ghost use Rattle.tc_space.specs.Ranges.{IsDataFile, Reaches};
ghost use Rattle.ud_state.specs.State.{AreLens};
ghost use Rattle.tc_undo.specs.Room.{needs};
ghost use Rattle.tc_held.specs.Held.{Brings, FindsFull, IsBare, IsHeld, Written, over};
ghost use Rattle.tc_held.specs.History.{IsSound};

use crate::differing::{BLOCK, alike_front, differing_front};
use crate::held::{Held, behind};
use crate::stood::Stood;
use tc_base::Fault;
use tc_space::{Space, SpaceErr};
use tc_undo::{Batched, Piece};
use ud_log::{file_at, place};

/// The most bytes of a log.
const LOG_MOST: u64 = 1 << 62;

/// What the log keeps free for the old bytes of all that is held, twice: it may be full of it once more before the next write.
const RESERVE: u64 = 1 << 29;

/// The most bytes of a data file.
const MOST_LEN: u64 = 1 << 40;

/// How many bytes are read at a time to see which of them change.
const STEP: usize = 4096;

/// Files over a space. What is written is held in memory, and brought to the space in one call by a commit, a cut, a write for which there is no room or that passes a limit, or as the space is given up.
#[derive(Drop)]
pub struct HeldSpace<S: Batched> {
    below: S,
    held: Held,
    lens: [u64; 18],
    stood: Stood<S, Held>,
    good: bool,
    touched: bool,
    read: u64,
}

/// What the log needs at most for so many old bytes.
fn needs_of(size: u64) -> u64
    requires { size ≤ 2 ^ 40 }
    ensures { result ≡ needs size }
{
    size + 20 * ((size + 4095) / 4096)
}

// How long the data files are.
fn lens_of<S: Space>(space: &S) -> [u64; 18]
    requires { S.sound space.now }
    ensures { S.tells → AreLens result (S.now space.now) }
{
    let mut lens = [0; 18];
    for i in 0..18 {
        lens[i] = space.len(file_at(i));
    }
    lens
}

// Fills the front with the bytes of a file from a place on.
fn look_front<S: Batched>(
    space: &mut S,
    file: u32,
    at: u64,
    long: usize,
    into: &mut [u8],
) -> Result<(), Fault>
    requires sound { S.sound space.old }
    requires file { IsDataFile file }
    requires room { long ≤ length into.old }
    requires inside { S.tells → 0 < long → at + long ≤ length (S.now space.old file) }
    ensures bytes { OnOk result (S.tells → take long into.new ≡ take long (drop at (S.now space.old file))) }
    ensures reads { OnlyReads S.Space space.old space.new }
    ensures logged { S.logged space.new ≡ S.logged space.old }
    ensures cause { OnErr result (Rose (S.faults space.old) (S.faults space.new)) }
{
    if long == 0 {
        return Ok(());
    }
    space.look(file, at, &mut into[..long])
}

impl<S: Batched> HeldSpace<S> {
    /// Holds nothing yet over a space in which nothing was written since its last commit.
    pub fn new(below: S, held: Held) -> HeldSpace<S>
        requires sound { S.sound below }
        requires untouched { S.touched below ≡ false }
        ensures sound { IsSound S.Space S.logged result.good result.touched result.lens result.stood.items result.below result.held }
        ensures begins { (result.touched ≡ false) × (result.read ≡ 0) × (result.below ≡ below) }
        ensures empty { result.held.pieces.items ≡ [] }
        ensures first { result.stood.items ≡ [] }
    {
        let mut held = held;
        held.clear();
        let lens = lens_of(&below);
        HeldSpace {
            below,
            held,
            lens,
            stood: Stood::new(),
            good: true,
            touched: false,
            read: 0,
        }
    }

    /// The space, with what is held given up.
    pub fn into_below(self) -> S
        ensures { result ≡ self.below }
    {
        self.below
    }

    // The log has room for so many old bytes beside those of all that is held.
    fn has_room(&self, size: u64) -> bool
        requires small { size ≤ 2 ^ 40 }
        requires held { IsHeld S.Space S.logged self.now.below self.now.held }
        ensures room { result ≡ true → S.logged self.now.below + 2 ^ 29 + needs size ≤ 2 ^ 62 }
        ensures none { result ≡ false → 2 ^ 62 < S.logged self.now.below + 2 ^ 29 + needs size }
    {
        self.below.log_len() + RESERVE + needs_of(size) <= LOG_MOST
    }

    // A write of so many bytes at a place ends within the file's limit.
    fn ends_within(&self, file: u32, at: u64, size: u64) -> bool
        requires file { IsDataFile file }
        ensures within { result ≡ true → at + size ≤ S.limit self.now.below file }
        ensures past { result ≡ false → S.limit self.now.below file < at + size }
    {
        let limit = self.below.limit_of(file);
        at <= limit && size <= limit - at
    }

    // Brings what is held to the space.
    fn flush(&mut self) -> Result<(), Fault>
        requires sound { S.sound self.old.below }
        requires held { IsHeld S.Space S.logged self.old.below self.old.held }
        ensures held { OnOk result (IsHeld S.Space S.logged self.new.below self.new.held) }
        ensures empty { OnOk result (self.new.held.pieces.items ≡ []) }
        ensures now { OnOk result (S.tells → (f : ℕ) → S.now self.new.below f ≡ over self.old.held (S.now self.old.below) f) }
        ensures keeps { Keeps S.Space self.old.below self.new.below }
        ensures outcome { Outcome S.sound S.flag result self.new.below }
        ensures logged { OnOk result (S.logged self.new.below ≤ S.logged self.old.below + 2 ^ 28) }
        ensures same { self.new ≡ record self.old { below = self.new.below; held = self.new.held } }
        ensures cause { OnErr result (Rose (S.faults self.old.below) (S.faults self.new.below)) }
    {
        if self.held.is_empty() {
            return Ok(());
        }
        self.below.write_all(self.held.pieces(), self.held.bytes())?;
        self.held.clear();
        Ok(())
    }

    // Brings what is held to the space, and gives it up.
    fn let_go(&mut self) -> Result<(), Fault>
        requires sound { S.sound self.old.below }
        requires held { IsHeld S.Space S.logged self.old.below self.old.held }
        ensures brings { OnOk result (Brings S.Space self.old.below self.new.below self.old.held self.new.held) }
        ensures keeps { Keeps S.Space self.old.below self.new.below }
        ensures same { self.new ≡ record self.old { below = self.new.below; held = self.new.held; good = false } }
        ensures cause { OnErr result (Rose (S.faults self.old.below) (S.faults self.new.below)) }
    {
        match self.flush() {
            Ok(()) => {
                self.good = false;
                Ok(())
            }
            Err(e) => {
                self.good = false;
                Err(e)
            }
        }
    }

    // The same where a limit is passed: the answer.
    fn refuse(&mut self) -> SpaceErr
        requires sound { S.sound self.old.below }
        requires held { IsHeld S.Space S.logged self.old.below self.old.held }
        ensures full { result ≡ SpaceErr.Full → Brings S.Space self.old.below self.new.below self.old.held self.new.held }
        ensures fault { result ≡ SpaceErr.Fault → Rose (S.faults self.old.below) (S.faults self.new.below) }
        ensures which { result ≡ SpaceErr.Memory → ⊥ }
        ensures keeps { Keeps S.Space self.old.below self.new.below }
        ensures same { self.new ≡ record self.old { below = self.new.below; held = self.new.held; good = false } }
    {
        match self.let_go() {
            Ok(()) => SpaceErr::Full,
            Err(_) => SpaceErr::Fault,
        }
    }

    // Reads those bytes that lie inside a file of the space, and lays what is held over all.
    fn read_over(&mut self, file: u32, at: u64, into: &mut [u8]) -> Result<(), Fault>
        requires sound { S.sound self.old.below }
        requires held { IsHeld S.Space S.logged self.old.below self.old.held }
        requires reaches { Reaches S.tells (over self.old.held (S.now self.old.below)) file (at + length into.old) }
        ensures bytes { OnOk result (S.tells → into.new ≡ take (length into.old) (drop at (over self.old.held (S.now self.old.below) file))) }
        ensures now { S.tells → (g : ℕ) → S.now self.new.below g ≡ S.now self.old.below g }
        ensures keeps { Keeps S.Space self.old.below self.new.below }
        ensures sound { S.sound self.new.below }
        ensures held { IsHeld S.Space S.logged self.new.below self.new.held }
        ensures touched { S.touched self.new.below ≡ S.touched self.old.below }
        ensures logged { S.logged self.new.below ≡ S.logged self.old.below }
        ensures same { self.new ≡ record self.old { below = self.new.below } }
        ensures cause { OnErr result (Rose (S.faults self.old.below) (S.faults self.new.below)) }
    {
        let there = self.below.len(file).saturating_sub(at);
        let long = there.min(into.len() as u64) as usize;
        look_front(&mut self.below, file, at, long, into)?;
        self.held.lay(file, at, into);
        Ok(())
    }

    // Brings what is held to the space, and shortens a file there.
    fn cut_below(&mut self, file: u32, len: u64) -> Result<(), SpaceErr>
        requires sound { S.sound self.old.below }
        requires held { IsHeld S.Space S.logged self.old.below self.old.held }
        requires reaches { Reaches S.tells (over self.old.held (S.now self.old.below)) file len }
        ensures held { OnOk result (IsHeld S.Space S.logged self.new.below self.new.held) }
        ensures cut { OnOk result (S.tells → Changes (λ s. over s.held (S.now s.below)) file (take len (over self.old.held (S.now self.old.below) file)) self.old self.new) }
        ensures keeps { Keeps S.Space self.old.below self.new.below }
        ensures outcome { Outcome S.sound S.flag result self.new.below }
        ensures full { IsErrOf result SpaceErr.Full → FindsFull S.Space S.logged (length (over self.old.held (S.now self.old.below) file) - len) self.old.below self.new.below self.old.held self.new.held }
        ensures same { self.new ≡ record self.old { below = self.new.below; held = self.new.held } }
        ensures cause { Caused S.faults result self.old.below self.new.below }
    {
        self.flush()?;
        self.below.cut(file, len)?;
        Ok(())
    }

    // Brings what is held to the space, and commits it.
    fn commit_below(&mut self) -> Result<(), Fault>
        requires sound { S.sound self.old.below }
        requires held { IsHeld S.Space S.logged self.old.below self.old.held }
        ensures held { OnOk result (IsHeld S.Space S.logged self.new.below self.new.held) }
        ensures bare { OnOk result (IsBare S.Space self.new.below self.new.held) }
        ensures now { OnOk result (S.tells → (f : ℕ) → over self.new.held (S.now self.new.below) f ≡ over self.old.held (S.now self.old.below) f) }
        ensures kept { OnOk result (S.tells → S.kept self.new.below ≡ Some (over self.old.held (S.now self.old.below))) }
        ensures moments { S.tells → LeavesOnly S.moment S.left self.old.below self.new.below (λ o. (o ≡ S.kept self.old.below) ⊎ (o ≡ Some (over self.old.held (S.now self.old.below)))) }
        ensures past { S.tells → Past S.moment S.files_at self.old.below self.new.below }
        ensures follows { Follows S.Space self.old.below self.new.below }
        ensures outcome { Outcome S.sound S.flag result self.new.below }
        ensures same { self.new ≡ record self.old { below = self.new.below; held = self.new.held } }
        ensures cause { OnErr result (Rose (S.faults self.old.below) (S.faults self.new.below)) }
    {
        self.flush()?;
        self.below.commit()?;
        Ok(())
    }

    // Brings what is held to the space, and then bytes for a file.
    fn put_through(&mut self, file: u32, at: u64, bytes: &[u8]) -> Result<(), Fault>
        requires sound { S.sound self.old.below }
        requires held { IsHeld S.Space S.logged self.old.below self.old.held }
        requires reaches { Reaches S.tells (over self.old.held (S.now self.old.below)) file at }
        requires below { at + length bytes.now ≤ S.limit self.old.below file }
        requires room { S.logged self.old.below + 2 ^ 28 + needs (length bytes.now) ≤ 2 ^ 62 }
        ensures held { OnOk result (IsHeld S.Space S.logged self.new.below self.new.held) }
        ensures wrote { OnOk result (S.tells → Written file at bytes.now (over self.old.held (S.now self.old.below)) (over self.new.held (S.now self.new.below))) }
        ensures keeps { Keeps S.Space self.old.below self.new.below }
        ensures outcome { Outcome S.sound S.flag result self.new.below }
        ensures same { self.new ≡ record self.old { below = self.new.below; held = self.new.held } }
        ensures cause { OnErr result (Rose (S.faults self.old.below) (S.faults self.new.below)) }
    {
        self.flush()?;
        let piece = Piece {
            file,
            at,
            from: 0,
            size: bytes.len(),
        };
        self.below.write_all(&[piece], bytes)?;
        Ok(())
    }

    // Holds bytes for a file, as far as there is room. Answers how many.
    fn hold(&mut self, file: u32, at: u64, bytes: &[u8]) -> usize
        requires sound { S.sound self.old.below }
        requires held { IsHeld S.Space S.logged self.old.below self.old.held }
        requires reaches { Reaches S.tells (over self.old.held (S.now self.old.below)) file at }
        requires below { at + length bytes.now ≤ S.limit self.old.below file }
        requires room { S.logged self.old.below + 2 ^ 28 ≤ 2 ^ 62 }
        ensures most { result ≤ length bytes.now }
        ensures held { IsHeld S.Space S.logged self.new.below self.new.held }
        ensures wrote { S.tells → Written file at (take result bytes.now) (over self.old.held (S.now self.old.below)) (over self.new.held (S.now self.new.below)) }
        ensures sound { S.sound self.new.below }
        ensures keeps { Keeps S.Space self.old.below self.new.below }
        ensures logged { S.logged self.new.below ≡ S.logged self.old.below }
        ensures same { self.new ≡ record self.old { held = self.new.held } }
    {
        self.held.put(file, at, bytes)
    }

    // Fills the front with what stands in a file from a place on.
    fn read_front(&mut self, file: u32, at: u64, long: usize, into: &mut [u8]) -> Result<(), Fault>
        requires sound { S.sound self.old.below }
        requires held { IsHeld S.Space S.logged self.old.below self.old.held }
        requires room { long ≤ length into.old }
        requires reaches { Reaches S.tells (over self.old.held (S.now self.old.below)) file (at + long) }
        ensures bytes { OnOk result (S.tells → take long into.new ≡ take long (drop at (over self.old.held (S.now self.old.below) file))) }
        ensures now { S.tells → (g : ℕ) → S.now self.new.below g ≡ S.now self.old.below g }
        ensures keeps { Keeps S.Space self.old.below self.new.below }
        ensures sound { S.sound self.new.below }
        ensures held { IsHeld S.Space S.logged self.new.below self.new.held }
        ensures logged { S.logged self.new.below ≡ S.logged self.old.below }
        ensures same { self.new ≡ record self.old { below = self.new.below } }
        ensures cause { OnErr result (Rose (S.faults self.old.below) (S.faults self.new.below)) }
    {
        self.read_over(file, at, &mut into[..long])
    }

    // Holds the blocks that differ from the bytes that stand in a file, as far as there is room. Answers how many bytes it is through with.
    fn hold_blocks(&mut self, file: u32, at: u64, was: &[u8], bytes: &[u8]) -> usize
        requires sound { S.sound self.old.below }
        requires held { IsHeld S.Space S.logged self.old.below self.old.held }
        requires reaches { Reaches S.tells (over self.old.held (S.now self.old.below)) file (at + length bytes.now) }
        requires below { at + length bytes.now ≤ S.limit self.old.below file }
        requires room { S.logged self.old.below + 2 ^ 28 ≤ 2 ^ 62 }
        requires long { length was.now ≡ length bytes.now }
        requires stands { S.tells → was.now ≡ take (length bytes.now) (drop at (over self.old.held (S.now self.old.below) file)) }
        ensures most { result ≤ length bytes.now }
        ensures held { IsHeld S.Space S.logged self.new.below self.new.held }
        ensures wrote { S.tells → Written file at (take result bytes.now) (over self.old.held (S.now self.old.below)) (over self.new.held (S.now self.new.below)) }
        ensures sound { S.sound self.new.below }
        ensures keeps { Keeps S.Space self.old.below self.new.below }
        ensures logged { S.logged self.new.below ≡ S.logged self.old.below }
        ensures same { self.new ≡ record self.old { held = self.new.held } }
    {
        let mut done = 0;
        while done < bytes.len() {
            let next = done + alike_front(behind(was, done), behind(bytes, done));
            let other = differing_front(behind(was, next), behind(bytes, next));
            let n = self.hold(file, at + next as u64, &bytes[next..next + other]);
            if next + n == done {
                return done;
            }
            done = next + n;
        }
        done
    }

    // Holds the blocks of bytes that differ from those over which they lie, as far as there is room. Answers how many bytes it is through with.
    fn hold_changed(&mut self, file: u32, at: u64, bytes: &[u8]) -> Result<usize, Fault>
        requires sound { S.sound self.old.below }
        requires held { IsHeld S.Space S.logged self.old.below self.old.held }
        requires reaches { Reaches S.tells (over self.old.held (S.now self.old.below)) file (at + length bytes.now) }
        requires below { at + length bytes.now ≤ S.limit self.old.below file }
        requires room { S.logged self.old.below + 2 ^ 28 ≤ 2 ^ 62 }
        ensures most { IfOk result (λ n. n ≤ length bytes.now) }
        ensures held { IsHeld S.Space S.logged self.new.below self.new.held }
        ensures wrote { IfOk result (λ n. S.tells → Written file at (take n bytes.now) (over self.old.held (S.now self.old.below)) (over self.new.held (S.now self.new.below))) }
        ensures sound { S.sound self.new.below }
        ensures keeps { Keeps S.Space self.old.below self.new.below }
        ensures logged { S.logged self.new.below ≡ S.logged self.old.below }
        ensures same { self.new ≡ record self.old { below = self.new.below; held = self.new.held } }
        ensures cause { OnErr result (Rose (S.faults self.old.below) (S.faults self.new.below)) }
    {
        let mut was = [0; STEP];
        let mut done = 0;
        while done < bytes.len() {
            let long = STEP.min(bytes.len() - done);
            let place = at + done as u64;
            self.read_front(file, place, long, &mut was)?;
            let n = self.hold_blocks(file, place, &was[..long], &bytes[done..done + long]);
            if n == 0 {
                return Ok(done);
            }
            done += n;
        }
        Ok(done)
    }

    // So many bytes from a place on stand in a file of the space below.
    fn stand(&self, file: u32, at: u64, size: usize) -> bool
        requires sound { S.sound self.now.below }
        requires held { IsHeld S.Space S.logged self.now.below self.now.held }
        requires file { IsDataFile file }
        requires small { at + size ≤ 2 ^ 40 }
        ensures { result ≡ true → S.tells → at + size ≤ length (over self.now.held (S.now self.now.below) file) }
    {
        at + size as u64 <= self.below.len(file)
    }

    // Holds bytes for a file, as far as there is room: of a block and more that lies over bytes of the space below, and for all of which there is room, the blocks that differ. Answers how many it is through with.
    fn hold_some(&mut self, file: u32, at: u64, bytes: &[u8]) -> Result<usize, Fault>
        requires sound { S.sound self.old.below }
        requires held { IsHeld S.Space S.logged self.old.below self.old.held }
        requires reaches { Reaches S.tells (over self.old.held (S.now self.old.below)) file at }
        requires below { at + length bytes.now ≤ S.limit self.old.below file }
        requires room { S.logged self.old.below + 2 ^ 28 ≤ 2 ^ 62 }
        ensures most { IfOk result (λ n. n ≤ length bytes.now) }
        ensures held { IsHeld S.Space S.logged self.new.below self.new.held }
        ensures wrote { IfOk result (λ n. S.tells → Written file at (take n bytes.now) (over self.old.held (S.now self.old.below)) (over self.new.held (S.now self.new.below))) }
        ensures sound { S.sound self.new.below }
        ensures keeps { Keeps S.Space self.old.below self.new.below }
        ensures logged { S.logged self.new.below ≡ S.logged self.old.below }
        ensures same { self.new ≡ record self.old { below = self.new.below; held = self.new.held } }
        ensures cause { OnErr result (Rose (S.faults self.old.below) (S.faults self.new.below)) }
    {
        let size = bytes.len();
        if size < BLOCK || !self.stand(file, at, size) || !self.held.has_room(file, at, size) {
            return Ok(self.hold(file, at, bytes));
        }
        self.hold_changed(file, at, bytes)
    }

    // Holds bytes for a file, and brings those to the space for which there is no room.
    fn put_some(&mut self, file: u32, at: u64, bytes: &[u8]) -> Result<(), Fault>
        requires sound { S.sound self.old.below }
        requires held { IsHeld S.Space S.logged self.old.below self.old.held }
        requires reaches { Reaches S.tells (over self.old.held (S.now self.old.below)) file at }
        requires below { at + length bytes.now ≤ S.limit self.old.below file }
        requires room { S.logged self.old.below + 2 ^ 28 + needs (length bytes.now) ≤ 2 ^ 62 }
        ensures held { OnOk result (IsHeld S.Space S.logged self.new.below self.new.held) }
        ensures wrote { OnOk result (S.tells → Written file at bytes.now (over self.old.held (S.now self.old.below)) (over self.new.held (S.now self.new.below))) }
        ensures keeps { Keeps S.Space self.old.below self.new.below }
        ensures sound { OnOk result (S.sound self.new.below) }
        ensures same { self.new ≡ record self.old { below = self.new.below; held = self.new.held } }
        ensures cause { OnErr result (Rose (S.faults self.old.below) (S.faults self.new.below)) }
    {
        let done = self.hold_some(file, at, bytes)?;
        if done == bytes.len() {
            return Ok(());
        }
        self.put_through(file, at + done as u64, behind(bytes, done))?;
        Ok(())
    }

    // Brings what is held to the space where there is no room for so many bytes more.
    fn make_room(&mut self, file: u32, at: u64, size: usize) -> Result<(), Fault>
        requires sound { S.sound self.old.below }
        requires held { IsHeld S.Space S.logged self.old.below self.old.held }
        requires small { at + size ≤ 2 ^ 40 }
        ensures held { OnOk result (IsHeld S.Space S.logged self.new.below self.new.held) }
        ensures now { OnOk result (S.tells → (f : ℕ) → over self.new.held (S.now self.new.below) f ≡ over self.old.held (S.now self.old.below) f) }
        ensures keeps { Keeps S.Space self.old.below self.new.below }
        ensures outcome { Outcome S.sound S.flag result self.new.below }
        ensures logged { OnOk result (S.logged self.new.below ≤ S.logged self.old.below + 2 ^ 28) }
        ensures same { self.new ≡ record self.old { below = self.new.below; held = self.new.held } }
        ensures cause { OnErr result (Rose (S.faults self.old.below) (S.faults self.new.below)) }
    {
        if self.held.has_room(file, at, size) {
            return Ok(());
        }
        self.flush()?;
        Ok(())
    }

    // Holds bytes for a file, or brings them to the space.
    fn put(&mut self, file: u32, at: u64, bytes: &[u8]) -> Result<(), Fault>
        requires sound { S.sound self.old.below }
        requires held { IsHeld S.Space S.logged self.old.below self.old.held }
        requires reaches { Reaches S.tells (over self.old.held (S.now self.old.below)) file at }
        requires below { at + length bytes.now ≤ S.limit self.old.below file }
        requires room { S.logged self.old.below + 2 ^ 29 + needs (length bytes.now) ≤ 2 ^ 62 }
        ensures held { OnOk result (IsHeld S.Space S.logged self.new.below self.new.held) }
        ensures wrote { OnOk result (S.tells → Written file at bytes.now (over self.old.held (S.now self.old.below)) (over self.new.held (S.now self.new.below))) }
        ensures keeps { Keeps S.Space self.old.below self.new.below }
        ensures sound { OnOk result (S.sound self.new.below) }
        ensures same { self.new ≡ record self.old { below = self.new.below; held = self.new.held } }
        ensures cause { OnErr result (Rose (S.faults self.old.below) (S.faults self.new.below)) }
    {
        self.make_room(file, at, bytes.len())?;
        self.put_some(file, at, bytes)?;
        Ok(())
    }
}

impl<S: Batched> Space for HeldSpace<S> {
    ghost use Rattle.std.specs.Prelude.{◌<◌, ◌+◌, ◌^◌, ◌≡◌, [], true, length};
    ghost use Rattle.tc_held.specs.Held.{over};
    ghost use Rattle.tc_held.specs.History.{IsSound, LeftFrom, files_in, moment_in};
    ghost use Rattle.tc_held.specs.Laws.{held_clean, held_earlier, held_left, held_present, held_within};
    ghost use Rattle.tc_undo.specs.Room.{needs};

    ghost tells = { S.tells };

    ghost now = { λ s. over s.held (S.now s.below) };

    ghost kept = { λ s. S.kept s.below };

    ghost moment = { λ s. moment_in S.Space s.stood.items s.below };

    ghost files_at = { λ s t. files_in S.Space s.stood.items s.below s.held t };

    ghost left = { λ s. LeftFrom S.Space s.stood.items s.below s.held };

    ghost sound = { λ s. IsSound S.Space S.logged s.good s.touched s.lens s.stood.items s.below s.held };

    ghost flag = { λ s. s.good };

    ghost touched = { λ s. s.touched };

    ghost limit = { λ s. S.limit s.below };

    ghost names = { λ s. S.names s.below };

    ghost overfills = { λ s f at size. 2 ^ 62 < S.logged s.below + 2 ^ 29 + needs size };

    ghost log_full = { λ s. S.log_full s.below };

    ghost brought = { λ s. (s.held.pieces.items ≡ []) × S.brought s.below };

    ghost bytes_read = { λ s. s.read };

    ghost faults = { λ s. S.faults s.below };

    ghost only_kept = { λ s o t sound left. S.only_kept s.below o t sound.below_is (held_left o left) };

    ghost keeps_files = { λ s t sound. S.keeps_files s.below t sound.below_is };

    ghost clean = { λ s t sound is. held_clean s.below s.held (sound.bare is) (S.clean s.below t sound.below_is) };

    ghost within = { λ s file t sound is. held_within s.below s.held file sound.held_is (S.within s.below file t sound.below_is is) };

    ghost earlier = { λ s t u o le left. held_earlier t u o le left };

    ghost present = { λ s t. held_present S.moment (S.files_at s.below) (S.now s.below) s.below s.held (S.moment s.below + length s.stood.items) _ (S.present s.below t) };

    ghost flagged = { λ s sound. sound.good_is };

    /// It calls nothing of the space.
    fn is_sound(&self) -> bool {
        self.good
    }

    /// It calls nothing of the space.
    fn len(&self, file: u32) -> u64 {
        self.lens[place(file)]
    }

    /// One read of the space at most; what is held of these bytes, found by halves, is laid over them.
    fn read(&mut self, file: u32, at: u64, into: &mut [u8]) -> Result<(), Fault> {
        self.stood = self.stood.and(&self.below, &self.held);
        self.read = self.read.saturating_add(into.len() as u64);
        self.read_over(file, at, into)
    }

    /// It holds the bytes. Of 256 and more that all lie over bytes of the space below, which it reads, it holds the blocks of 256 that differ, counted from the write's place. Where there is no room it brings all of it to the space, also as the file's limit is passed.
    fn write(&mut self, file: u32, at: u64, bytes: &[u8]) -> Result<(), SpaceErr> {
        self.stood = self.stood.and(&self.below, &self.held);
        self.touched = true;
        let size = bytes.len() as u64;
        if !self.ends_within(file, at, size) {
            return Err(self.refuse());
        }
        if !self.has_room(size) {
            self.good = false;
            return Err(SpaceErr::Full);
        }
        match self.put(file, at, bytes) {
            Ok(()) => {
                let i = place(file);
                self.lens[i] = self.lens[i].max(at + size);
                Ok(())
            }
            Err(_) => {
                self.good = false;
                Err(SpaceErr::Fault)
            }
        }
    }

    /// It brings what is held to the space first.
    fn cut(&mut self, file: u32, len: u64) -> Result<(), SpaceErr> {
        self.stood = self.stood.and(&self.below, &self.held);
        self.touched = true;
        let i = place(file);
        let size = self.lens[i].saturating_sub(len).min(MOST_LEN);
        if !self.has_room(size) {
            self.good = false;
            return Err(SpaceErr::Full);
        }
        match self.cut_below(file, len) {
            Ok(()) => {
                self.lens[i] = self.lens[i].min(len);
                Ok(())
            }
            Err(e) => {
                self.good = false;
                Err(e)
            }
        }
    }

    /// It brings what is held to the space, which commits.
    fn commit(&mut self) -> Result<(), Fault> {
        self.stood = self.stood.and(&self.below, &self.held);
        match self.commit_below() {
            Ok(()) => {
                self.touched = false;
                Ok(())
            }
            Err(e) => {
                self.good = false;
                Err(e)
            }
        }
    }

    /// Nothing is held where nothing was written.
    fn copy(&mut self, label: &[u8]) -> Result<(), Fault> {
        self.stood = self.stood.and(&self.below, &self.held);
        self.below.copy(label)
    }

    /// It calls nothing of the space.
    fn spoil(&mut self) {
        self.good = false;
    }

    /// It brings what is held to the space.
    fn give_up(&mut self) -> Result<(), Fault> {
        self.stood = self.stood.and(&self.below, &self.held);
        self.let_go()
    }
}
