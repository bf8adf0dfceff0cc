//! A database that keeps an update log: opened with it, and served.
ghost use Rattle.std.specs.Prelude.{◌≡◌, ◌≤◌, ◌^◌, [], false, IfOk, IfErr, IsErrOf};
ghost use Rattle.tc_space.specs.Frames.{Follows};
ghost use Rattle.tc_space.specs.Refusals.{Blamed};
ghost use Rattle.ty_base.specs.Opening.{Breaks, CanOpen, LacksNew, OpensTo};
ghost use Rattle.ty_world.specs.World.{Mark};
ghost use Rattle.ty_rounds.specs.Kept.{MovesTo};
ghost use Rattle.tk_top.specs.Serving.{Begins};
ghost use Rattle.tk_top.specs.Causes.{CausedIn, IsServedFor};
ghost use Rattle.tk_top.specs.Guarding.{GuardsOn, GuardsOver};
ghost use Rattle.tk_top.specs.Logging.{BreaksLogged, CameToWire, KeepsUnlogged, LoggedAs, LoggedLaid, LoggedLaidOn, LoggedOn, OpensLogged, SparesUnlogged, StandsLogged, breaks_logged, logging, opens_logged};
ghost use Rattle.tk_top.specs.Naming.{NamesTold};
ghost use Rattle.tk_top.specs.Over.{CanStand, HoldsLike, Judged, JudgedOn, MovesLike};
ghost use Rattle.tk_top.specs.Staying.{OpensThere};

use crate::ends::{End, Stopped};
use crate::naming::open_named;
use crate::serving::serve;
use crate::volumes::OnVolume;
use std::alloc::Global;
use std::mem::ManuallyDrop;
use tc_base::Kind;
use tc_io::{At, Clock, Sink, Wire};
use tc_space::Space;
use ty_base::{AnyErr, Base, Opens};
use ty_rounds::{Logged, Master, Server};
use ty_ulog::Ulog;

/// Opens a database and the update log beside it, and commits what that wrote.
fn open_logged<B: Opens + Drop>(
    alloc: Global,
    kind: Kind,
    own: u16,
    master: Option<Master>,
    space: &mut B::S,
) -> Result<(B, Logged), AnyErr>
    requires sound { B.S.sound space.old }
    ensures opened { IfOk result (λ p. OpensLogged B.S.Space B.holds B.reopens (OpensTo kind B.reopens) (B.shaped B.usual) (logging own master) p.0 p.1 space.old space.new) }
    // A main file that is there stays; and files that break a rule are looked at, and no more.
    ensures there { B.S.tells → (B.S.now space.old 0 ≡ [] → ⊥) → OpensThere B.S.Space (opens_logged (OpensTo kind B.reopens)) space.old space.new }
    ensures unlogged { KeepsUnlogged B.S.Space space.old space.new }
    ensures broken { IfErr result (λ e. Breaks e (BreaksLogged B.S.Space (OpensTo kind B.reopens) (B.breaks kind) space.old space.new)) }
    ensures laid { IfOk result (λ p. HoldsLike B.S.Space B.holds B.reopens B.own B.layout kind p.0 space.old space.new) }
    ensures moved { MovesLike B.S.Space B.reopens B.own B.layout kind space.old space.new }
    ensures moments { (m : Mark) → Begins B.S.Space (OpensTo kind B.reopens) space.old m → MovesTo B.S.Space B.reopens space.old space.new m }
    ensures full { IsErrOf result AnyErr.Full → LacksNew B.S.Space B.reopens (B.lacks space.new B.usual) kind space.old }
    ensures follows { Follows B.S.Space space.old space.new }
    ensures cause { Blamed B.S.Space (IsErrOf result AnyErr.Fault) space.old space.new }
{
    let base = B::open(alloc, kind, space)?;
    let ulog = Ulog::open(alloc, space)?;
    match space.commit() {
        Ok(()) => Ok((base, Logged { ulog, own, master })),
        Err(_) => Err(AnyErr::Fault),
    }
}

/// Opens the database and the update log that the files of a space keep, and serves it: a replica, where the words say a master.
pub fn serve_logged<B: Base + Opens + Drop, W: Wire, E: Sink, K: Clock>(
    alloc: Global,
    kind: Kind,
    own: u16,
    master: Option<Master>,
    space: &mut B::S,
    at: &At,
    wire: &mut W,
    err: &mut E,
    clock: &mut K,
    turns: u64,
) -> End
    requires opened { W.opened wire.old ≡ false }
    requires sound { B.S.sound space.old }
    requires untouched { B.S.touched space.old ≡ false }
    ensures told { LoggedAs B.S.Space W.Wire K.answers own master E.Sink B.Opens kind result turns at.now space.old space.new wire.old wire.new clock.old clock.new err.old err.new }
    ensures laid { LoggedLaid B.S.Space W.Wire K.answers own master B.own B.layout B.reopens (B.shaped B.usual) kind result turns at.now space.old space.new wire.old wire.new clock.old clock.new }
    ensures judged { Judged result (CanOpen B.S.Space B.reopens kind space.old) (BreaksLogged B.S.Space (OpensTo kind B.reopens) (B.breaks kind) space.old space.new) }
    // The update log was one too where the wire was come to.
    ensures stood { CameToWire result → StandsLogged B.S.Space (OpensTo kind B.reopens) space.old }
    ensures guards { GuardsOver B.S.Space (opens_logged (OpensTo kind B.reopens)) result space.old space.new wire.old wire.new }
    ensures unlogged { KeepsUnlogged B.S.Space space.old space.new }
    ensures accounted { IsServedFor B.S.Space W.faults result space.old space.new wire.old wire.new }
{
    let (base, logged) = match open_logged::<B>(alloc, kind, own, master, space) {
        Ok(opened) => opened,
        Err(e) => return End::from(e),
    };
    match wire.open(at) {
        Ok(()) => {}
        Err(_) => return End::WireFault,
    }
    let mut server = Server::new(alloc, base, Some(logged));
    let end = serve(&mut server, space, wire, err, clock, turns);
    let _ = ManuallyDrop::new(server);
    end
}

/// Serves the database and the update log that the files of a volume keep.
pub fn run_logged<S: OnVolume, B: Base + Opens<S = S> + Drop, W: Wire, E: Sink, K: Clock>(
    alloc: Global,
    name: &str,
    kind: Kind,
    own: u16,
    master: Option<Master>,
    vol: S::V,
    limit: u64,
    at: &At,
    wire: &mut W,
    err: &mut E,
    clock: &mut K,
    turns: u64,
) -> Stopped<S::V>
    requires opened { W.opened wire.old ≡ false }
    requires limit { limit ≤ 2 ^ 40 }
    ensures names { NamesTold S.V.Volume name.now vol result.vol }
    // What came of the wire, of the clock and of the line of each gap, and what any stop leaves of a volume that was settled and whose files stood for contents and an update log.
    ensures told { LoggedOn S.V.Volume W.Wire K.answers own master S.Space E.Sink S.under B.Opens kind limit turns at.now vol result wire.old wire.new clock.old clock.new err.old err.new }
    // Whatever the files are laid out like, and whichever stand beside them, so it is with files that are laid out like them, beside those.
    ensures laid { LoggedLaidOn S.V.Volume W.Wire K.answers own master B.own B.layout B.reopens (B.shaped B.usual) kind result.end turns at.now vol result.vol wire.old wire.new clock.old clock.new }
    // Where it was served, the files stood for contents; and where a rule is named, it is broken.
    ensures judged { JudgedOn S.V.Volume (OpensTo kind B.reopens) (breaks_logged (OpensTo kind B.reopens) (B.breaks kind)) result.end vol result.vol }
    ensures stood { CameToWire result.end → CanStand S.V.Volume (opens_logged (OpensTo kind B.reopens)) vol }
    // However it ended, the wire was used only where they did, and nothing was written where they don't; and no file has passed its limit.
    ensures guards { GuardsOn S.V.Volume (opens_logged (OpensTo kind B.reopens)) limit result.end vol result.vol wire.old wire.new }
    // Beside a file 2 that is no update log all files stay, also an empty main file.
    ensures unlogged { SparesUnlogged S.V.Volume result.end vol result.vol }
    ensures caused { CausedIn S.V.faults W.faults result.end vol result.vol wire.old wire.new }
{
    let mut space = match open_named::<S>(alloc, name, vol, limit) {
        Ok(space) => space,
        Err(stopped) => return stopped,
    };
    let end = serve_logged::<B, W, E, K>(
        alloc, kind, own, master, &mut space, at, wire, err, clock, turns,
    );
    Stopped {
        end,
        vol: space.close_over(),
    }
}
