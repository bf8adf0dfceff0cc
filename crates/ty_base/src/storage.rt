//! What keeps contents in the files of a space.
ghost use Rattle.std.specs.Prelude.{◌≡◌, ◌≤◌, ℕ, List, OnOk, IsErrOf};
ghost use Rattle.tc_base.specs.Files.{Files};
ghost use Rattle.tc_base.specs.declared.kind.Form.{Form};
ghost use Rattle.tc_space.specs.Frames.{Keeps, Others};
ghost use Rattle.tc_space.specs.Refusals.{OnFault, OnlyLogIsFull};
ghost use Rattle.ty_wire.specs.Prefixes.{IsPrefix};
ghost use Rattle.tc_model.specs.Contents.{Contents, kind_of};
ghost use Rattle.ty_base.specs.Holding.{AreApart, FilesStand, FormsHeld, FullPack, IsEarlier, IsReady, Layout, NoLogs, PacksHeld, ReadsHeld, RefusesHeld, Remains, SaysAlike, SettlesHeld, TellsLines, TightHeld, TrimsHeld};

use tc_base::{Blob, Form, Kind};
use tc_space::{RecErr, Space};

/// What holds contents over a space, and brings them to its files.
///
/// After a refusal the space isn't sound, or nothing has changed: neither files nor contents. It changes no files but its own.
pub trait Storage {
    type S: Space;

    /// Over these files it holds these contents. What stands in memory holds them over any.
    ghost holds: { Self → Files → Contents → Type 0 };

    /// Whether files, read with an empty undo log, reopen to contents. Of what stands in memory any files do.
    ghost reopens: { Files → Contents → Type 0 };

    /// Its files.
    ghost own: { ℕ → Type 0 };

    /// By what it is and by its space before a call, as the space stands at its end: a limit is reached between contents before a change and after it; never in memory.
    ghost fills: { Self → Self.S → Self.S → Contents → Contents → Type 0 };

    /// The same, with what it was forgotten: so it was in some call since the space stood so.
    ghost fills_since: { Self.S → Self.S → Contents → Contents → Type 0 };

    /// So it was where files were written anew in the large form with these contents.
    ghost lacks_large: { Self.S → Self.S → Contents → Type 0 };

    /// What an inspection tells of files behind what it tells of contents; nothing in memory.
    ghost lines: { Files → List ℕ → Type 0 };

    /// It was packed from files in a form since it was last changed, over files as they stand before they are settled.
    ghost tight: { Self → Files → Form → Files → Type 0 };

    /// Files are packed from others in a form: no block is free in them, and their records' blocks are as they were, or in the large form the least ones.
    ghost packed: { Files → Form → Files → Type 0 };

    /// What the heads of files fix, the options first, then the other numbers and the bytes of who made them; how many whole units lie free in front of the first
    /// block; and how many bytes hold nothing at their ends, behind what the heads say or in free blocks. Of files that are still to be made it is that of those that
    /// an opening makes.
    ghost layout: { Files → Layout };

    /// Its kind.
    fn kind(&self) -> Kind
        ensures { (files : Files) (c : Contents) → holds self.now files c → result ≡ kind_of c };

    /// Brings what is held in memory to the files, which then stand for the contents, with the numbers that they had, and end in what holds something, where
    /// their heads say. It is full only where the undo log is.
    fn settle(&mut self, space: &mut Self::S) -> Result<(), RecErr>
        requires ready { IsReady Self.S.Space holds self.old space.old }
        ensures packs { OnOk result (PacksHeld Self.S.Space holds tight packed self.old space.old space.new) }
        ensures settled { OnOk result (SettlesHeld Self.S.Space holds reopens self.old self.new space.old space.new) }
        ensures trims { OnOk result (TrimsHeld Self.S.Space holds layout self.old space.old space.new) }
        ensures sound { OnOk result (Self.S.sound space.new) }
        ensures others { OnOk result (Others Self.S.Space own space.old space.new) }
        ensures refused { RefusesHeld Self.S.Space holds result self.old self.new space.old space.new }
        ensures full { OnlyLogIsFull Self.S.Space result space.new }
        ensures keeps { Keeps Self.S.Space space.old space.new }
        ensures cause { OnFault Self.S.Space result space.old space.new };

    /// Packs the files, in place or in the large form. The contents stay, and stand in the files once it is settled; of the numbers of the files only the form
    /// changes, where the large one is asked for, and no more lies free in front of the first block. In place it is full only where the undo log is.
    fn pack(&mut self, space: &mut Self::S, form: Form) -> Result<(), RecErr>
        requires ready { IsReady Self.S.Space holds self.old space.old }
        ensures tight { OnOk result (TightHeld Self.S.Space holds tight form self.old self.new space.old space.new) }
        ensures packed { OnOk result (Remains Self.S.Space holds self.old self.new space.old space.new) }
        ensures formed { OnOk result (FormsHeld Self.S.Space holds layout form self.old space.old space.new) }
        ensures sound { OnOk result (Self.S.sound space.new) }
        ensures others { OnOk result (Others Self.S.Space own space.old space.new) }
        ensures refused { RefusesHeld Self.S.Space holds result self.old self.new space.old space.new }
        ensures full { IsErrOf result RecErr.Full → FullPack Self.S.Space holds lacks_large form self.old space.old space.new }
        ensures keeps { Keeps Self.S.Space space.old space.new }
        ensures cause { OnFault Self.S.Space result space.old space.new };

    /// Adds what an inspection tells of the files, which must stand for the contents. It changes nothing, whatever it answers; on an `Err` some more bytes stand behind the old ones.
    fn inform(&mut self, space: &mut Self::S, into: &mut Blob) -> Result<(), RecErr>
        requires sound { Self.S.sound space.old }
        requires settled { FilesStand Self.S.Space holds reopens self.old space.old }
        ensures told { OnOk result (TellsLines Self.S.Space lines space.old into.old into.new) }
        ensures front { IsPrefix into.old into.new }
        ensures reads { ReadsHeld Self.S.Space holds self.old self.new space.old space.new }
        ensures not_full { IsErrOf result RecErr.Full → ⊥ }
        ensures keeps { Keeps Self.S.Space space.old space.new }
        ensures cause { OnFault Self.S.Space result space.old space.new };

    /// They are neither log.
    ghost no_logs: { NoLogs own };

    /// What it holds, what files reopen to, how they are laid out and packed, and what an inspection tells of them, has to do with them alone.
    ghost apart: { (b : Self) (f g : Files) → AreApart own f g → SaysAlike (holds b) reopens layout packed lines f g };

    /// Where the undo log is full a limit is reached, whatever was to be made.
    ghost log_fills: { (b : Self) (old new : Self.S) (c d : Contents) → Self.S.log_full new → fills b old new c d };

    /// What it was may be forgotten.
    ghost fills_then: { (b : Self) (old new : Self.S) (c d : Contents) → fills b old new c d → fills_since old new c d };

    /// And the moment from which on it was so may be an earlier one.
    ghost since_more: { (a b new : Self.S) → Self.S.moment a ≤ Self.S.moment b → IsEarlier Self.S.now fills_since lacks_large a b new };
}
