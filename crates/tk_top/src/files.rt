//! A database in files: opened, served, and its volume handed back.
ghost use Rattle.std.specs.Prelude.{◌≡◌, ◌≤◌, ◌^◌, [], false, IfOk, IfErr, IsErrOf};
ghost use Rattle.tc_space.specs.Frames.{Follows};
ghost use Rattle.tc_space.specs.Refusals.{Blamed};
ghost use Rattle.ty_base.specs.Holding.{Frame, Laid};
ghost use Rattle.ty_base.specs.Opening.{Breaks, LacksNew, OpensTo};
ghost use Rattle.ty_world.specs.World.{Mark};
ghost use Rattle.ty_rounds.specs.Kept.{MovesTo};
ghost use Rattle.tk_top.specs.declared.ends.End.TheVariants.{Full};
ghost use Rattle.tk_top.specs.Guarding.{GuardsOn, GuardsOver};
ghost use Rattle.tk_top.specs.Over.{FullOn, FullOver, HoldsLike, JudgedOn, JudgedOver, MovesLike, OpensAs, RunsOn};
ghost use Rattle.tk_top.specs.Staying.{BreaksOver, OpensThere};
ghost use Rattle.tk_top.specs.Serving.{Begins, RunsOpened};
ghost use Rattle.tk_top.specs.Causes.{CausedIn, IsServedFor};
ghost use Rattle.tk_top.specs.Naming.{NamesTold};

use crate::base::serve_base;
use crate::ends::{End, Stopped};
use crate::naming::open_named;
use crate::volumes::OnVolume;
use std::alloc::Global;
use tc_base::Kind;
use tc_io::{At, Clock, Sink, Wire};
use tc_space::Space;
use ty_base::{AnyErr, Base, Opens};

/// Opens a database, and commits what that wrote: nothing, where the main file isn't empty.
pub fn open_kept<B: Opens + Drop>(alloc: Global, kind: Kind, space: &mut B::S) -> Result<B, AnyErr>
    requires sound { B.S.sound space.old }
    ensures opened { IfOk result (λ b. OpensAs B.S.Space B.holds B.reopens (OpensTo kind B.reopens) (B.shaped B.usual) b space.old space.new) }
    // A main file that is there stays; and files that break a rule are looked at, and no more.
    ensures there { B.S.tells → (B.S.now space.old 0 ≡ [] → ⊥) → OpensThere B.S.Space (OpensTo kind B.reopens) space.old space.new }
    ensures broken { IfErr result (λ e. Breaks e (BreaksOver B.S.Space (B.breaks kind) space.old space.new)) }
    ensures moments { (m : Mark) → Begins B.S.Space (OpensTo kind B.reopens) space.old m → MovesTo B.S.Space B.reopens space.old space.new m }
    ensures laid { IfOk result (λ b. HoldsLike B.S.Space B.holds B.reopens B.own B.layout kind b space.old space.new) }
    ensures moved { MovesLike B.S.Space B.reopens B.own B.layout kind space.old space.new }
    ensures full { IsErrOf result AnyErr.Full → LacksNew B.S.Space B.reopens (B.lacks space.new B.usual) kind space.old }
    ensures follows { Follows B.S.Space space.old space.new }
    ensures cause { Blamed B.S.Space (IsErrOf result AnyErr.Fault) space.old space.new }
{
    let base = B::open(alloc, kind, space)?;
    match space.commit() {
        Ok(()) => Ok(base),
        Err(_) => Err(AnyErr::Fault),
    }
}

/// Opens the database that the files of a space keep, and serves it.
pub fn serve_files<B: Base + Opens + Drop, W: Wire, E: Sink, K: Clock>(
    alloc: Global,
    kind: Kind,
    space: &mut B::S,
    at: &At,
    wire: &mut W,
    err: &mut E,
    clock: &mut K,
    turns: u64,
) -> End
    requires opened { W.opened wire.old ≡ false }
    requires sound { B.S.sound space.old }
    requires untouched { B.S.touched space.old ≡ false }
    ensures told { RunsOpened B.S.Space W.Wire B.reopens (B.shaped B.usual) kind result turns at.now space.old space.new wire.old wire.new }
    ensures laid { (l : Frame) → RunsOpened B.S.Space W.Wire (Laid B.own B.layout l B.reopens) (B.shaped B.usual) kind result turns at.now space.old space.new wire.old wire.new }
    ensures judged { JudgedOver B.S.Space B.reopens B.breaks kind result space.old space.new }
    ensures guards { GuardsOver B.S.Space (OpensTo kind B.reopens) result space.old space.new wire.old wire.new }
    ensures full { result ≡ Full → FullOver B.S.Space W.Wire (λ x. B.lacks x B.usual) B.fills_since (OpensTo kind B.reopens) space.old space.new wire.old wire.new }
    ensures accounted { IsServedFor B.S.Space W.faults result space.old space.new wire.old wire.new }
    ensures silent { err.new ≡ err.old }
{
    let base: B = match open_kept(alloc, kind, space) {
        Ok(base) => base,
        Err(e) => return End::from(e),
    };
    serve_base(alloc, base, space, at, wire, err, clock, turns)
}

/// Serves the database that the files of a volume keep, until no event will come any more or so many turns were made.
pub fn run_files<S: OnVolume, B: Base + Opens<S = S> + Drop, W: Wire, E: Sink, K: Clock>(
    alloc: Global,
    name: &str,
    kind: Kind,
    vol: S::V,
    limit: u64,
    at: &At,
    wire: &mut W,
    err: &mut E,
    clock: &mut K,
    turns: u64,
) -> Stopped<S::V>
    requires opened { W.opened wire.old ≡ false }
    requires limit { limit ≤ 2 ^ 40 }
    ensures names { NamesTold S.V.Volume name.now vol result.vol }
    // What came of the wire, and what any stop leaves of a volume that was settled and whose files stood for contents.
    ensures told { RunsOn S.V.Volume W.Wire B.reopens (B.shaped B.usual) kind result.end turns at.now vol result.vol wire.old wire.new }
    // Whatever the files are laid out like, and whichever stand beside them, so it is with files that are laid out like them, beside those.
    ensures laid { (l : Frame) → RunsOn S.V.Volume W.Wire (Laid B.own B.layout l B.reopens) (B.shaped B.usual) kind result.end turns at.now vol result.vol wire.old wire.new }
    // Where it was served, the files stood for contents; and where a rule is named, it is broken.
    ensures judged { JudgedOn S.V.Volume (OpensTo kind B.reopens) (B.breaks kind) result.end vol result.vol }
    // However it ended, the wire was used only where they did, and nothing was written where they don't; and no file has passed its limit.
    ensures guards { GuardsOn S.V.Volume (OpensTo kind B.reopens) limit result.end vol result.vol wire.old wire.new }
    ensures full { result.end ≡ Full → FullOn S.V.Volume S.Space W.Wire S.under (λ x. B.lacks x B.usual) B.fills_since (OpensTo kind B.reopens) limit vol result.vol wire.old wire.new }
    ensures caused { CausedIn S.V.faults W.faults result.end vol result.vol wire.old wire.new }
    ensures silent { err.new ≡ err.old }
{
    let mut space = match open_named::<S>(alloc, name, vol, limit) {
        Ok(space) => space,
        Err(stopped) => return stopped,
    };
    let end = serve_files::<B, W, E, K>(alloc, kind, &mut space, at, wire, err, clock, turns);
    Stopped {
        end,
        vol: space.close_over(),
    }
}
