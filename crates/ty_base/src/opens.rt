//! What is opened in files.
ghost use Rattle.std.specs.Prelude.{◌≡◌, [], ℕ, OnOk, IfOk, IsErrOf};
ghost use Rattle.tc_base.specs.Files.{Files};
ghost use Rattle.tc_base.specs.declared.kind.Kind.{Kind};
ghost use Rattle.tc_base.specs.declared.kind.Rule.{Rule};
ghost use Rattle.tc_space.specs.Frames.{Keeps, OnlyReads};
ghost use Rattle.tc_model.specs.Contents.{Contents};
ghost use Rattle.ty_base.specs.Holding.{StaysLaid, StaysUsable};
ghost use Rattle.ty_base.specs.Opening.{CanOpen, CreatesAs, DoStand, LacksNew, NamesNew, NamesRule, OpensFor, OpensTo, OpensUsable, RefusesToOpen};

use crate::errors::AnyErr;
use crate::storage::Storage;
use std::alloc::Global;
use tc_base::Kind;
use tc_space::Space;

/// What keeps its data in the files of its space.
pub trait Opens: Storage {
    /// The numbers of a file that is made anew.
    type Shape;

    /// They are in their ranges.
    ghost may_be: { Self.Shape → Type 0 };

    /// No data, in that shape.
    ghost anew: { Self.Shape → Contents };

    /// The head of the main file has these numbers, and the file ends where it says.
    ghost shaped: { Self.Shape → Files → Type 0 };

    /// The numbers of a file that an opening makes.
    ghost usual: { Self.Shape };

    /// There is no room for a file of that shape, as the space stands: a limit is passed, or the undo log is full.
    ghost lacks: { Self.S → Self.Shape → Type 0 };

    /// The first rule of a kind that files break, and the file that breaks it.
    ghost breaks: { Kind → Files → ℕ → Rule → Type 0 };

    /// So it is of files beside an empty main file that is to be made anew.
    ghost breaks_new: { Files → ℕ → Rule → Type 0 };

    /// Opens the files as they are now as those of a kind. Where the main file is empty it makes one with the usual numbers, which isn't committed yet; else nothing is written.
    /// After a refusal the space isn't sound, or nothing is written.
    fn open(alloc: Global, kind: Kind, space: &mut Self::S) -> Result<Self, AnyErr>
        requires sound { Self.S.sound space.old }
        ensures stands { OnOk result (CanOpen Self.S.Space Self.reopens kind space.old) }
        ensures opened { IfOk result (λ b. OpensFor Self.S.Space Self.reopens Self.holds kind b space.old space.new) }
        ensures broken { NamesRule Self.S.Space result breaks kind space.old }
        ensures usable { OnOk result (OpensUsable Self.S.Space Self.own (shaped usual) space.old space.new) }
        ensures laid { OnOk result (StaysLaid Self.S.Space Self.layout space.old space.new) }
        ensures refused { RefusesToOpen Self.S.Space result space.old space.new }
        ensures reads { Self.S.tells → (Self.S.now space.old 0 ≡ [] → ⊥) → OnlyReads Self.S.Space space.old space.new }
        ensures full { IsErrOf result AnyErr.Full → LacksNew Self.S.Space Self.reopens (lacks space.new usual) kind space.old }
        ensures keeps { Keeps Self.S.Space space.old space.new };

    /// Makes the empty main file one of that shape, with no data, which isn't committed yet. Where it does so, and where there is no room for it, the files stood for contents.
    /// A rule is named where another file of its own stands beside it.
    /// After a refusal the space isn't sound, or nothing is written.
    fn create(alloc: Global, shape: &Self::Shape, space: &mut Self::S) -> Result<Self, AnyErr>
        requires sound { Self.S.sound space.old }
        requires empty { Self.S.tells → Self.S.now space.old 0 ≡ [] }
        requires numbers { may_be shape.now }
        ensures stood { OnOk result (DoStand Self.S.Space Self.reopens space.old) }
        ensures created { IfOk result (λ b. CreatesAs Self.S.Space Self.reopens Self.holds shaped b (anew shape.now) shape.now space.new) }
        ensures broken { NamesNew Self.S.Space result breaks_new space.old }
        ensures usable { OnOk result (StaysUsable Self.S.Space Self.own space.old space.new) }
        ensures refused { RefusesToOpen Self.S.Space result space.old space.new }
        ensures full { IsErrOf result AnyErr.Full → Self.S.tells → lacks space.new shape.now }
        ensures beside { IsErrOf result AnyErr.Full → DoStand Self.S.Space Self.reopens space.old }
        ensures keeps { Keeps Self.S.Space space.old space.new };

    /// Files that stand for contents break no rule.
    ghost unbroken: { (kind : Kind) (files : Files) (c : Contents) (file : ℕ) (rule : Rule) → OpensTo kind Self.reopens files c → breaks kind files file rule → ⊥ };
}
