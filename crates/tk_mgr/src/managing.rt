//! A task carried out on a database.
ghost use Rattle.std.specs.Prelude.{◌≡◌, false, true, IsErrOf};
ghost use Rattle.tk_mgr.specs.Managing.{FillsTaskOf, FormedFrom, Manages, MayManage, PacksTaskOf, packing, said_by, writes_files};
ghost use Rattle.tc_space.specs.Frames.{Keeps};
ghost use Rattle.ty_base.specs.Holding.{Frame, Laid};
ghost use Rattle.tk_mgr.specs.Asking.{Accounts};

use crate::changing::{optimize, put, take_out};
use crate::drill::drill;
use crate::errors::MgrErr;
use crate::indexing::set_index;
use crate::informing::inform;
use crate::listing::list;
use crate::reading::get;
use crate::searching::{search, search_out};
use crate::task::Task;
use std::alloc::Global;
use tc_io::Sink;
use tc_space::Space;
use ty_base::Base;

/// Carries out a task: makes its requests, commits what they changed, and then prints. Answers whether its request succeeded; where it failed nothing
/// has changed and nothing is printed. A drill commits behind each hundred of its requests and behind the last. Files beside those of the database stay, and where nothing is packed,
/// whatever the files are laid out like, so is what a stop leaves.
///
/// On an `Err` a stop leaves what was kept at one of its commits; the space is to be opened again. `Memory` also comes where a list would print a value
/// that is too long for a reply.
#[tactic(auto, using(crate::proofs::Ends::keeps_follows))]
pub fn manage<B: Base, O: Sink>(
    alloc: Global,
    task: Task,
    base: &mut B,
    space: &mut B::S,
    out: &mut O,
) -> Result<bool, MgrErr>
    requires may { MayManage B.S.Space B.holds B.reopens base.old space.old }
    ensures managed { Manages B.S.Space O.Sink B.holds B.reopens B.lines task result base.old space.old space.new out.old out.new }
    ensures laid { (l : Frame) → Manages B.S.Space O.Sink B.holds (Laid B.own (said_by (packing task) B.layout) l B.reopens) B.lines task result base.old space.old space.new out.old out.new }
    ensures packs { PacksTaskOf B.S.Space B.holds B.reopens (B.packed (B.S.now space.old)) task result base.old space.old space.new }
    ensures formed { PacksTaskOf B.S.Space B.holds B.reopens (FormedFrom B.layout (B.S.now space.old)) task result base.old space.old space.new }
    ensures writes { IsErrOf result MgrErr.Full → writes_files task ≡ true }
    ensures reads { writes_files task ≡ false → Keeps B.S.Space space.old space.new }
    ensures full { FillsTaskOf B.S.Space B.holds B.reopens B.fills_since B.lacks_large task result base.old space.old space.new }
    ensures accounts { Accounts B.S.Space O.faults result space.old space.new out.old out.new }
{
    match task {
        Task::Put { word, key, value } => put(alloc, word, key, value, base, space),
        Task::Out { key } => take_out(alloc, key, base, space),
        Task::Get { key } => get(alloc, key, base, space, out),
        Task::List { maximum, values } => list(alloc, maximum, values, base, space, out),
        Task::Optimize { large } => optimize(large, base, space),
        Task::Inform => inform(alloc, base, space, out),
        Task::SetIndex { column, code } => set_index(alloc, column, code, base, space),
        Task::Search { wanted, values } => search(alloc, &wanted, values, base, space, out),
        Task::SearchOut { wanted } => search_out(alloc, &wanted, base, space),
        Task::Drill { seed, count } => drill(alloc, seed, count, base, space, out),
    }
}
