//! A space that takes several writes as one.
ghost use Rattle.std.specs.Prelude.{◌≡◌, ◌+◌, ◌^◌, ◌<◌, ◌≤◌, ℕ, true, length, take, drop, All, OnOk, OnErr};
ghost use Rattle.tc_io.specs.Causes.{Rose};
ghost use Rattle.tc_space.specs.Effects.{Outcome, Stays, Touches};
ghost use Rattle.tc_space.specs.Ranges.{IsDataFile, Reaches};
ghost use Rattle.tc_undo.specs.Pieces.{Fits, Reached, laid, needs_all};
ghost use Rattle.tc_undo.specs.Room.{needs};

use crate::piece::Piece;
use tc_base::Fault;
use tc_space::Space;

/// A space whose log takes the old bytes of several writes with one sync.
///
/// Its owner asks for room in the log before: `write_all` never finds the log full.
pub trait Batched: Space {
    /// How many bytes the log has, or will have once its front is there.
    ghost logged: { Self → ℕ };

    /// How many bytes the log has, or will have once its front is there.
    fn log_len(&self) -> u64
        ensures { result ≡ logged self.now };

    /// The greatest length of a data file.
    fn limit_of(&self, file: u32) -> u64
        requires { IsDataFile file }
        ensures { result ≡ Self.limit self.now file };

    /// `read`, which leaves the log as it is.
    fn look(&mut self, file: u32, at: u64, into: &mut [u8]) -> Result<(), Fault>
        requires sound { Self.sound self.old }
        requires reaches { Reaches Self.tells (Self.now self.old) file (at + length into.old) }
        ensures bytes { OnOk result (Self.tells → into.new ≡ take (length into.old) (drop at (Self.now self.old file))) }
        ensures now { Self.tells → (g : ℕ) → Self.now self.new g ≡ Self.now self.old g }
        ensures stays { Stays Self.tells Self.moment Self.files_at Self.left Self.kept Self.faults Self.limit Self.names self.old self.new }
        ensures sound { Self.sound self.new }
        ensures touched { Self.touched self.new ≡ Self.touched self.old }
        ensures logged { logged self.new ≡ logged self.old }
        ensures cause { OnErr result (Rose (Self.faults self.old) (Self.faults self.new)) };

    /// Writes all the pieces, one after the other. It takes no memory, and waits for the disk once at most.
    fn write_all(&mut self, pieces: &[Piece], bytes: &[u8]) -> Result<(), Fault>
        requires sound { Self.sound self.old }
        requires fits { All (Fits (Self.limit self.old) bytes.now) pieces.now }
        requires reached { Self.tells → Reached bytes.now pieces.now (Self.now self.old) }
        requires room { logged self.old + needs_all pieces.now ≤ 2 ^ 62 }
        ensures wrote { OnOk result (Self.tells → (f : ℕ) → Self.now self.new f ≡ laid bytes.now pieces.now f (Self.now self.old f)) }
        ensures stays { Stays Self.tells Self.moment Self.files_at Self.left Self.kept Self.faults Self.limit Self.names self.old self.new }
        ensures outcome { Outcome Self.sound Self.flag result self.new }
        ensures touches { Touches Self.touched Self.bytes_read self.old self.new }
        ensures logged { OnOk result (logged self.new ≤ logged self.old + needs_all pieces.now) }
        ensures cause { OnErr result (Rose (Self.faults self.old) (Self.faults self.new)) };

    /// While it is sound the log isn't longer than it may be.
    ghost low: { (s : Self) → Self.sound s → logged s ≤ 2 ^ 62 };

    /// No limit is above the greatest length.
    ghost small: { (s : Self) (file : ℕ) → Self.sound s → IsDataFile file → Self.limit s file ≤ 2 ^ 40 };

    /// A log that is half full may have had no room.
    ghost half: { (s : Self) → Self.sound s → 2 ^ 61 ≤ logged s → Self.log_full s };

    /// It holds nothing back.
    ghost all: { (s : Self) → Self.brought s };

    /// Where there is no room for a range there is none for as many bytes.
    ghost no_room: { (s : Self) (f at size : ℕ) → Self.overfills s f at size → 2 ^ 62 < logged s + needs size };
}
