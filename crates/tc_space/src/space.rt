ghost use Rattle.std.specs.Prelude.{◌≡◌, ◌+◌, ◌-◌, ◌^◌, ◌≤◌, ◌⊎◌, true, false, Bool, ℕ, length, take, drop, min, is_some, OnOk, OnErr, IsErrOf, ◌<◌, Option, Some, is_ok, if◌then◌else◌};
ghost use Rattle.tc_base.specs.Files.{Files, wrote};
ghost use Rattle.tc_base.specs.Labels.{is_label};
ghost use Rattle.tc_io.specs.Causes.{Rose};
ghost use Rattle.tc_io.specs.Copies.{IsCopied, Named};
ghost use Rattle.tc_space.specs.Moments.{LeavesOnly, Past};
ghost use Rattle.tc_space.specs.Effects.{Caused, Changes, Copies, FollowsIn, IsFull, LacksRoom, Outcome, Stays, Touches};
ghost use Rattle.tc_space.specs.Ranges.{IsDataFile, Passes, Reaches};

use crate::errors::SpaceErr;
use tc_base::Fault;

/// Files that are read and written, and kept by commits. The data files are 0 and 2 to 18.
///
/// After a refusal of `write`, `cut` or `commit` the space isn't sound: its owner takes the volume back and opens it again.
pub trait Space {
    /// Whether it tells its files.
    ghost tells: { Type 0 };

    /// The files now.
    ghost now: { Self → Files };

    /// The files kept, or none where they can't be recovered.
    ghost kept: { Self → Option Files };

    /// The moment, as a number that doesn't fall.
    ghost moment: { Self → ℕ };

    /// The files as they were at a moment up to now.
    ghost files_at: { Self → ℕ → Files };

    /// What a stop at some moment from that one on leaves, once recovery is done.
    ghost left: { Self → ℕ → Option Files → Type 0 };

    /// Whether it may be used.
    ghost sound: { Self → Type 0 };

    /// The same, as `is_sound` answers it.
    ghost flag: { Self → Bool };

    /// Whether `write` or `cut` was called since the last commit.
    ghost touched: { Self → Bool };

    /// The greatest length of each file.
    ghost limit: { Self → ℕ → ℕ };

    /// The names that its volume was given, where they are told, and its copies, which only `copy` changes.
    ghost names: { Self → Named };

    /// The undo log has no room for the old bytes of so many bytes of a file from a place on.
    ghost overfills: { Self → ℕ → ℕ → ℕ → Type 0 };

    /// The undo log is so long that it may have had no room.
    ghost log_full: { Self → Type 0 };

    /// All that it tells of its files now is where it keeps them.
    ghost brought: { Self → Type 0 };

    /// How many bytes were asked for by reads, up to the greatest number.
    ghost bytes_read: { Self → ℕ };

    /// How often a call of the volume failed.
    ghost faults: { Self → ℕ };

    /// Whether it may be used.
    fn is_sound(&self) -> bool
        ensures { result ≡ flag self.now };

    /// The length of a data file.
    fn len(&self, file: u32) -> u64
        requires sound { sound self.now }
        requires file { IsDataFile file }
        ensures { tells → result ≡ length (now self.now file) };

    /// Fills `into` with the bytes of a data file from a place on. It takes no memory.
    fn read(&mut self, file: u32, at: u64, into: &mut [u8]) -> Result<(), Fault>
        requires sound { sound self.old }
        requires reaches { Reaches tells (now self.old) file (at + length into.old) }
        ensures bytes { OnOk result (tells → into.new ≡ take (length into.old) (drop at (now self.old file))) }
        ensures now { tells → (g : ℕ) → now self.new g ≡ now self.old g }
        ensures stays { Stays tells moment files_at left kept faults limit names self.old self.new }
        ensures sound { sound self.new }
        ensures touched { touched self.new ≡ touched self.old }
        ensures counted { bytes_read self.new ≡ min (bytes_read self.old + length into.old) (2 ^ 64 - 1) }
        ensures cause { OnErr result (Rose (faults self.old) (faults self.new)) };

    /// Writes all the bytes over a data file from a place on, which may make it longer. It takes no memory.
    fn write(&mut self, file: u32, at: u64, bytes: &[u8]) -> Result<(), SpaceErr>
        requires sound { sound self.old }
        requires reaches { Reaches tells (now self.old) file at }
        ensures wrote { OnOk result (tells → Changes now file (wrote at bytes.now (now self.old file)) self.old self.new) }
        ensures stays { Stays tells moment files_at left kept faults limit names self.old self.new }
        ensures outcome { Outcome sound flag result self.new }
        ensures touches { Touches touched bytes_read self.old self.new }
        ensures room { OnOk result (Passes (limit self.old file) (overfills self.old file at (length bytes.now)) at (length bytes.now) → ⊥) }
        ensures full { IsFull tells now result (LacksRoom limit overfills log_full file at (length bytes.now) self.old self.new) self.old self.new }
        ensures brought { IsErrOf result SpaceErr.Full → limit self.old file < at + length bytes.now → brought self.new }
        ensures cause { Caused faults result self.old self.new };

    /// Shortens a data file to a length. It takes no memory.
    fn cut(&mut self, file: u32, len: u64) -> Result<(), SpaceErr>
        requires sound { sound self.old }
        requires reaches { Reaches tells (now self.old) file len }
        ensures cut { OnOk result (tells → Changes now file (take len (now self.old file)) self.old self.new) }
        ensures stays { Stays tells moment files_at left kept faults limit names self.old self.new }
        ensures outcome { Outcome sound flag result self.new }
        ensures touches { Touches touched bytes_read self.old self.new }
        ensures room { OnOk result (tells → overfills self.old file len (length (now self.old file) - len) → ⊥) }
        ensures full { IsFull tells now result ((tells → overfills self.old file len (length (now self.old file) - len)) × log_full self.new) self.old self.new }
        ensures cause { Caused faults result self.old self.new };

    /// Makes the files now the kept ones. It takes no memory.
    fn commit(&mut self) -> Result<(), Fault>
        requires { sound self.old }
        ensures now { OnOk result (tells → (g : ℕ) → now self.new g ≡ now self.old g) }
        ensures kept { OnOk result (tells → kept self.new ≡ Some (now self.old)) }
        ensures moments { tells → LeavesOnly moment left self.old self.new (λ o. (o ≡ kept self.old) ⊎ (o ≡ Some (now self.old))) }
        ensures past { tells → Past moment files_at self.old self.new }
        ensures follows { FollowsIn faults limit names self.old self.new }
        ensures outcome { Outcome sound flag result self.new }
        ensures touched { touched self.new ≡ (if is_ok result then false else touched self.old) }
        ensures counted { bytes_read self.new ≡ bytes_read self.old }
        ensures cause { OnErr result (Rose (faults self.old) (faults self.new)) };

    /// Makes the copy under a label one of the kept files, where nothing was written since the last commit. It takes no memory, and whatever it answers the copy is
    /// let go and the space may be used as before.
    ///
    /// A stop at any moment leaves of the copy what one left before, one that can't be opened, or the kept files byte for byte; after `Ok` the last alone.
    fn copy(&mut self, label: &[u8]) -> Result<(), Fault>
        requires sound { sound self.old }
        requires untouched { touched self.old ≡ false }
        requires label { is_label label.now ≡ true }
        ensures copies { Copies tells moment files_at left kept now faults limit names label.now self.old self.new }
        ensures copied { OnOk result (tells → IsCopied (now self.old) ((names self.new).copies label.now)) }
        ensures sound { sound self.new }
        ensures touched { touched self.new ≡ false }
        ensures counted { bytes_read self.new ≡ bytes_read self.old }
        ensures cause { OnErr result (Rose (faults self.old) (faults self.new)) };

    /// Gives up what was written since the last commit: the space isn't sound any more, and the kept files stay.
    fn spoil(&mut self)
        ensures spoiled { flag self.new ≡ false }
        ensures now { tells → (g : ℕ) → now self.new g ≡ now self.old g }
        ensures stays { Stays tells moment files_at left kept faults limit names self.old self.new }
        ensures touched { touched self.new ≡ touched self.old }
        ensures counted { bytes_read self.new ≡ bytes_read self.old }
        ensures faults { faults self.new ≡ faults self.old }
        ensures log { log_full self.old → log_full self.new }
        ensures brought { brought self.old → brought self.new };

    /// Gives it up for want of room: what it holds is brought to where it keeps its files, unless a call of the volume fails. The kept files stay.
    fn give_up(&mut self) -> Result<(), Fault>
        requires sound { sound self.old }
        ensures spoiled { flag self.new ≡ false }
        ensures brought { OnOk result (brought self.new) }
        ensures now { OnOk result (tells → (g : ℕ) → now self.new g ≡ now self.old g) }
        ensures stays { Stays tells moment files_at left kept faults limit names self.old self.new }
        ensures touched { touched self.new ≡ touched self.old }
        ensures counted { bytes_read self.new ≡ bytes_read self.old }
        ensures cause { OnErr result (Rose (faults self.old) (faults self.new)) };

    /// While it is sound a stop leaves the kept files and nothing else.
    ghost only_kept: { (s : Self) (o : Option Files) → tells → sound s → left s (moment s) o → o ≡ kept s };

    /// While it is sound there are kept files.
    ghost keeps_files: { (s : Self) → tells → sound s → is_some (kept s) ≡ true };

    /// And where nothing was written since the last commit they are the files now.
    ghost clean: { (s : Self) → tells → sound s → touched s ≡ false → kept s ≡ Some (now s) };

    /// No data file passes its limit.
    ghost within: { (s : Self) (file : ℕ) → tells → sound s → IsDataFile file → length (now s file) ≤ limit s file };

    /// What is left from a later moment on is left from an earlier one on.
    ghost earlier: { (s : Self) (t u : ℕ) (o : Option Files) → t ≤ u → left s u o → left s t o };

    /// At this moment they are the files now.
    ghost present: { (s : Self) → tells → files_at s (moment s) ≡ now s };

    ghost flagged: { (s : Self) → sound s → flag s ≡ true };
}
