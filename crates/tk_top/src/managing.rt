//! A task on a database in files.
ghost use Rattle.std.specs.Prelude.{◌≡◌, ℕ, List, length, false, IsTrue, IsFalse};
ghost use Rattle.ty_base.specs.Holding.{Frame, Laid};
ghost use Rattle.ty_base.specs.Opening.{OpensTo};
ghost use Rattle.tk_mgr.specs.Managing.{FillsTaskIn, packing, said_by};
ghost use Rattle.tk_top.specs.declared.ends.End.TheVariants.{Full};
ghost use Rattle.tk_top.specs.Guarding.{GuardsTaskOn, GuardsTaskOver};
ghost use Rattle.tk_top.specs.Tasks.{FormsOn, FormsOver, FullTaskOn, FullTaskOver, JudgedTaskOn, JudgedTaskOver, ManagesAs, ManagesLike, ManagesOn, end_of_task, is_refused_by, wants_empty};
ghost use Rattle.tk_top.specs.Causes.{CausedIn, IsAccounted};
ghost use Rattle.tk_top.specs.Naming.{NamesOnce};

use crate::ends::{End, Stopped};
use crate::files::open_kept;
use crate::naming::open_named;
use crate::volumes::OnVolume;
use std::alloc::Global;
use std::mem::ManuallyDrop;
use tc_base::{FILE_MOST, Kind};
use tc_io::Sink;
use tc_space::Space;
use tk_mgr::{MgrErr, Task, manage};
use ty_base::{Base, Opens};

/// The end of a run by what its task answered.
pub(crate) fn end_of(answer: Result<bool, MgrErr>) -> End
    ensures { result ≡ end_of_task answer }
{
    match answer {
        Ok(true) => End::Done,
        Ok(false) => End::Refused,
        Err(MgrErr::Full) => End::Full,
        Err(MgrErr::Fault) => End::VolumeFault,
        Err(MgrErr::Sink) => End::WireFault,
        Err(MgrErr::Memory) => End::NoMemory,
    }
}

// Whether a task wants an empty main file.
fn wants_empty(task: &Task) -> bool
    ensures { result ≡ wants_empty task.now }
{
    match task {
        Task::Put { .. } => false,
        Task::Out { .. } => false,
        Task::Get { .. } => false,
        Task::List { .. } => false,
        Task::Optimize { .. } => false,
        Task::Inform => false,
        Task::SetIndex { .. } => false,
        Task::Search { .. } => false,
        Task::SearchOut { .. } => false,
        Task::Drill { .. } => true,
    }
}

// Whether a main file of so many bytes is as it is wanted.
fn is_placed(empty: bool, len: u64) -> bool
    ensures yes { IsTrue result → (main : List ℕ) → len ≡ length main → is_refused_by empty main → ⊥ }
    ensures no { IsFalse result → (main : List ℕ) → len ≡ length main → is_refused_by empty main }
{
    if empty { len == 0 } else { len != 0 }
}

/// Carries out a task on the database that the files of a space keep. The task is refused where the main file isn't as it wants it.
pub fn manage_opened<B: Base + Opens + Drop, O: Sink>(
    alloc: Global,
    kind: Kind,
    task: Task,
    space: &mut B::S,
    out: &mut O,
) -> End
    requires sound { B.S.sound space.old }
    requires untouched { B.S.touched space.old ≡ false }
    ensures told { ManagesAs B.S.Space B.reopens O.Sink B.lines (B.packed (B.S.now space.old)) kind task result space.old space.new out.old out.new }
    ensures laid { ManagesLike B.S.Space B.reopens B.own B.layout O.Sink B.lines (B.packed (B.S.now space.old)) kind task result space.old space.new out.old out.new }
    ensures formed { FormsOver B.S.Space B.layout (OpensTo kind B.reopens) task result space.old space.new }
    ensures judged { JudgedTaskOver B.S.Space B.reopens B.breaks kind task result space.old space.new }
    ensures guards { GuardsTaskOver B.S.Space B.reopens kind task result space.old space.new out.old out.new }
    ensures full { result ≡ Full → FullTaskOver B.S.Space B.reopens (λ x. B.lacks x B.usual) (FillsTaskIn B.S.Space B.fills_since B.lacks_large) kind task space.old space.new }
    ensures accounted { IsAccounted B.S.Space O.faults result space.old space.new out.old out.new }
{
    if !is_placed(wants_empty(&task), space.len(0)) {
        return End::Refused;
    }
    let mut base: B = match open_kept(alloc, kind, space) {
        Ok(base) => base,
        Err(e) => return End::from(e),
    };
    let end = end_of(manage(alloc, task, &mut base, space, out));
    let _ = ManuallyDrop::new(base);
    end
}

/// Carries out a task on the database that the files of a volume keep under a name.
pub fn manage_files<S: OnVolume, B: Base + Opens<S = S> + Drop, O: Sink>(
    alloc: Global,
    name: &str,
    kind: Kind,
    vol: S::V,
    task: Task,
    out: &mut O,
) -> Stopped<S::V>
    ensures names { NamesOnce S.V.Volume name.now vol result.vol }
    // What was printed, and what any stop leaves of a volume that was settled and whose files stood for contents.
    ensures told { ManagesOn S.V.Volume O.Sink B.reopens B.lines B.packed kind task result.end vol result.vol out.old out.new }
    // So it is with files laid out like them, where the task packs none, beside the same in any case.
    ensures laid { (l : Frame) → ManagesOn S.V.Volume O.Sink (Laid B.own (said_by (packing task) B.layout) l B.reopens) B.lines B.packed kind task result.end vol result.vol out.old out.new }
    // Files that were packed have the numbers that they had, in the form that was asked for.
    ensures formed { FormsOn S.V.Volume B.layout (OpensTo kind B.reopens) task result.end vol result.vol }
    // Where it was carried out, the files stood for contents; where it was refused, for a reason; and where a rule is named, it is broken.
    ensures judged { JudgedTaskOn S.V.Volume (OpensTo kind B.reopens) (B.breaks kind) task result.end vol result.vol }
    // However it ended, something was printed only where they did, and nothing was written where they don't, or the main file isn't as the task wants it.
    ensures guards { GuardsTaskOn S.V.Volume (OpensTo kind B.reopens) task result.end vol result.vol out.old out.new }
    ensures full { result.end ≡ Full → FullTaskOn S.V.Volume S.Space S.under (λ x. B.lacks x B.usual) (FillsTaskIn S.Space B.fills_since B.lacks_large) (OpensTo kind B.reopens) task vol result.vol }
    ensures caused { CausedIn S.V.faults O.faults result.end vol result.vol out.old out.new }
{
    let mut space = match open_named::<S>(alloc, name, vol, FILE_MOST) {
        Ok(space) => space,
        Err(stopped) => return stopped,
    };
    let end = manage_opened::<B, O>(alloc, kind, task, &mut space, out);
    Stopped {
        end,
        vol: space.close_over(),
    }
}
