//! Files by number, and what a stop leaves of them.
ghost use Rattle.std.specs.Prelude.{◌≡◌, ◌⊎◌, ◌∷◌, ◌+◌, ◌≤◌, Bool, true, List, ℕ, Some, None, length, take, drop, OnOk, OnErr, IfOk};
ghost use Rattle.tc_base.specs.Files.{Files};
ghost use Rattle.tc_base.specs.Labels.{is_label};
ghost use Rattle.tc_io.specs.Causes.{HasCause};
ghost use Rattle.tc_io.specs.Copies.{IsCopyBound, LetsCopyGo, Named, OnlyCopy, SameCopies, copy_of, told_by};
ghost use Rattle.tc_io.specs.Told.{MayTell, Tells};
ghost use Rattle.tc_io.specs.Images.{Calls, Images, now, written, cut_to, synced, IsLost, IsLostSync};

use tc_base::Fault;

/// Files by number: 0 the main file, 1 the undo log, 2 the update log, 3 to 18 column indexes. An absent file is an empty one.
///
/// Beside them it has copies of a database, each under a label of 1 to 64 lower-case letters, digits or `_`. A copy has files of its own, with the same numbers:
/// `bind_copy` names one, and the calls behind it are of that one until `end_copy`. No call on the files changes a copy, and none on a copy the files.
pub trait Volume {
    /// Whether it tells its files.
    ghost tells: { Type 0 };

    /// The calls so far that changed a file, the newest first.
    ghost calls: { Self → Calls };

    /// Whether a `bind` succeeded.
    ghost bound: { Self → Bool };

    /// The names that `bind` was given, where it tells them, and its copies.
    ghost names: { Self → Named };

    /// How often a call failed.
    ghost faults: { Self → ℕ };

    /// Names the files. It changes no file, also where it fails.
    fn bind(&mut self, name: &str) -> Result<(), Fault>
        ensures bound { OnOk result (bound self.new ≡ true) }
        ensures bound_err { OnErr result (bound self.new ≡ bound self.old) }
        ensures told { OnOk result (Tells (told_by names) self.old self.new name.now) }
        ensures told_err { OnErr result (MayTell (told_by names) self.old self.new name.now) }
        ensures copies { SameCopies tells (names self.old) (names self.new) }
        ensures calls { tells → calls self.new ≡ calls self.old }
        ensures cause { HasCause (faults self.old) (faults self.new) result };

    /// The length of a file in bytes.
    fn len(&mut self, file: u32) -> Result<u64, Fault>
        requires bound { bound self.old ≡ true }
        requires file { file ≤ 18 }
        ensures len { IfOk result (λ n. tells → n ≡ length (now (calls self.old) file)) }
        ensures bound { bound self.new ≡ true }
        ensures names { names self.new ≡ names self.old }
        ensures calls { tells → calls self.new ≡ calls self.old }
        ensures cause { HasCause (faults self.old) (faults self.new) result };

    /// Fills `into` with the bytes of a file from a place on.
    fn read(&mut self, file: u32, at: u64, into: &mut [u8]) -> Result<(), Fault>
        requires bound { bound self.old ≡ true }
        requires file { file ≤ 18 }
        requires inside { tells → at + length into.old ≤ length (now (calls self.old) file) }
        ensures bytes { OnOk result (tells → into.new ≡ take (length into.old) (drop at (now (calls self.old) file))) }
        ensures bound { bound self.new ≡ true }
        ensures names { names self.new ≡ names self.old }
        ensures calls { tells → calls self.new ≡ calls self.old }
        ensures cause { HasCause (faults self.old) (faults self.new) result };

    /// Writes all the bytes over a file from a place on, which may make it longer.
    fn write(&mut self, file: u32, at: u64, bytes: &[u8]) -> Result<(), Fault>
        requires bound { bound self.old ≡ true }
        requires file { file ≤ 18 }
        requires inside { tells → at ≤ length (now (calls self.old) file) }
        ensures made { OnOk result (tells → calls self.new ≡ (file, written at bytes.now) ∷ calls self.old) }
        ensures lost { OnErr result (tells → IsLost (calls self.old) (calls self.new) file (written at bytes.now)) }
        ensures bound { bound self.new ≡ true }
        ensures names { names self.new ≡ names self.old }
        ensures cause { HasCause (faults self.old) (faults self.new) result };

    /// Shortens a file to a length.
    fn cut(&mut self, file: u32, len: u64) -> Result<(), Fault>
        requires bound { bound self.old ≡ true }
        requires file { file ≤ 18 }
        requires inside { tells → len ≤ length (now (calls self.old) file) }
        ensures made { OnOk result (tells → calls self.new ≡ (file, cut_to len) ∷ calls self.old) }
        ensures lost { OnErr result (tells → IsLost (calls self.old) (calls self.new) file (cut_to len)) }
        ensures bound { bound self.new ≡ true }
        ensures names { names self.new ≡ names self.old }
        ensures cause { HasCause (faults self.old) (faults self.new) result };

    /// Makes a file as it reads the only one that a stop leaves.
    fn sync(&mut self, file: u32) -> Result<(), Fault>
        requires bound { bound self.old ≡ true }
        requires file { file ≤ 18 }
        ensures made { OnOk result (tells → calls self.new ≡ (file, synced) ∷ calls self.old) }
        ensures lost { OnErr result (tells → IsLostSync (calls self.old) (calls self.new) file) }
        ensures bound { bound self.new ≡ true }
        ensures names { names self.new ≡ names self.old }
        ensures cause { HasCause (faults self.old) (faults self.new) result };

    /// Names the copy that the calls below are of, which stays as it stands. It changes no file, also where it fails; then the one that was bound is, or none.
    fn bind_copy(&mut self, label: &[u8]) -> Result<(), Fault>
        requires bound { bound self.old ≡ true }
        requires label { is_label label.now ≡ true }
        ensures label { OnOk result ((names self.new).label ≡ Some label.now) }
        ensures label_err { OnErr result (((names self.new).label ≡ (names self.old).label) ⊎ ((names self.new).label ≡ None)) }
        ensures told { (names self.new).told ≡ (names self.old).told }
        ensures copies { tells → (names self.new).copies ≡ (names self.old).copies }
        ensures bound { bound self.new ≡ true }
        ensures calls { tells → calls self.new ≡ calls self.old }
        ensures cause { HasCause (faults self.old) (faults self.new) result };

    /// The length of a file of the copy in bytes.
    fn copy_len(&mut self, file: u32) -> Result<u64, Fault>
        requires bound { IsCopyBound (bound self.old) (names self.old) }
        requires file { file ≤ 18 }
        ensures len { IfOk result (λ n. tells → n ≡ length (now (copy_of (names self.old)) file)) }
        ensures only { OnlyCopy tells (bound self.old) (bound self.new) (calls self.old) (calls self.new) (names self.old) (names self.new) }
        ensures copy { tells → copy_of (names self.new) ≡ copy_of (names self.old) }
        ensures cause { HasCause (faults self.old) (faults self.new) result };

    /// Fills `into` with the bytes of a file of the copy from a place on.
    fn copy_read(&mut self, file: u32, at: u64, into: &mut [u8]) -> Result<(), Fault>
        requires bound { IsCopyBound (bound self.old) (names self.old) }
        requires file { file ≤ 18 }
        requires inside { tells → at + length into.old ≤ length (now (copy_of (names self.old)) file) }
        ensures bytes { OnOk result (tells → into.new ≡ take (length into.old) (drop at (now (copy_of (names self.old)) file))) }
        ensures only { OnlyCopy tells (bound self.old) (bound self.new) (calls self.old) (calls self.new) (names self.old) (names self.new) }
        ensures copy { tells → copy_of (names self.new) ≡ copy_of (names self.old) }
        ensures cause { HasCause (faults self.old) (faults self.new) result };

    /// Writes all the bytes over a file of the copy from a place on, which may make it longer.
    fn copy_write(&mut self, file: u32, at: u64, bytes: &[u8]) -> Result<(), Fault>
        requires bound { IsCopyBound (bound self.old) (names self.old) }
        requires file { file ≤ 18 }
        requires inside { tells → at ≤ length (now (copy_of (names self.old)) file) }
        ensures made { OnOk result (tells → copy_of (names self.new) ≡ (file, written at bytes.now) ∷ copy_of (names self.old)) }
        ensures lost { OnErr result (tells → IsLost (copy_of (names self.old)) (copy_of (names self.new)) file (written at bytes.now)) }
        ensures only { OnlyCopy tells (bound self.old) (bound self.new) (calls self.old) (calls self.new) (names self.old) (names self.new) }
        ensures cause { HasCause (faults self.old) (faults self.new) result };

    /// Shortens a file of the copy to a length.
    fn copy_cut(&mut self, file: u32, len: u64) -> Result<(), Fault>
        requires bound { IsCopyBound (bound self.old) (names self.old) }
        requires file { file ≤ 18 }
        requires inside { tells → len ≤ length (now (copy_of (names self.old)) file) }
        ensures made { OnOk result (tells → copy_of (names self.new) ≡ (file, cut_to len) ∷ copy_of (names self.old)) }
        ensures lost { OnErr result (tells → IsLost (copy_of (names self.old)) (copy_of (names self.new)) file (cut_to len)) }
        ensures only { OnlyCopy tells (bound self.old) (bound self.new) (calls self.old) (calls self.new) (names self.old) (names self.new) }
        ensures cause { HasCause (faults self.old) (faults self.new) result };

    /// Makes a file of the copy as it reads the only one that a stop leaves.
    fn copy_sync(&mut self, file: u32) -> Result<(), Fault>
        requires bound { IsCopyBound (bound self.old) (names self.old) }
        requires file { file ≤ 18 }
        ensures made { OnOk result (tells → copy_of (names self.new) ≡ (file, synced) ∷ copy_of (names self.old)) }
        ensures lost { OnErr result (tells → IsLostSync (copy_of (names self.old)) (copy_of (names self.new)) file) }
        ensures only { OnlyCopy tells (bound self.old) (bound self.new) (calls self.old) (calls self.new) (names self.old) (names self.new) }
        ensures cause { HasCause (faults self.old) (faults self.new) result };

    /// Lets go of the copy that is bound, where one is, and so of its files and locks. It changes no file.
    fn end_copy(&mut self)
        ensures ended { LetsCopyGo tells (names self.old) (names self.new) }
        ensures bound { bound self.new ≡ bound self.old }
        ensures calls { tells → calls self.new ≡ calls self.old }
        ensures later { faults self.old ≤ faults self.new };

    /// It is honest: the files as they read are one choice of images.
    ghost now_is_image: { (s : Self) → tells → Images (calls s) (now (calls s)) };

    /// So are those of each copy.
    ghost copy_is_image: { (s : Self) (label : List ℕ) → tells → Images ((names s).copies label) (now ((names s).copies label)) };
}
