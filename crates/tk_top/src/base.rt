//! A database that was opened, served.
ghost use Rattle.std.specs.Prelude.{◌≡◌, false};
ghost use Rattle.ty_base.specs.Holding.{Frame, IsReady, Laid};
ghost use Rattle.tk_top.specs.declared.ends.End.TheVariants.{Full};
ghost use Rattle.tk_top.specs.Ends.{IsEnd};
ghost use Rattle.tk_top.specs.Over.{IsOut};
ghost use Rattle.tk_top.specs.Causes.{IsServedFor};
ghost use Rattle.tk_top.specs.Serving.{RunsHeld};
ghost use Rattle.tk_top.specs.Over.{FullPlainOf};

use crate::ends::End;
use crate::serving::serve;
use std::alloc::Global;
use std::mem::ManuallyDrop;
use tc_io::{At, Clock, Sink, Wire};
use tc_space::Space;
use ty_base::Base;
use ty_rounds::Server;

/// Serves a database at an address, for so many turns at most. What it holds in memory isn't given back piece by piece: the process ends
/// behind this.
pub fn serve_base<B: Base + Drop, W: Wire, E: Sink, K: Clock>(
    alloc: Global,
    base: B,
    space: &mut B::S,
    at: &At,
    wire: &mut W,
    err: &mut E,
    clock: &mut K,
    turns: u64,
) -> End
    requires opened { W.opened wire.old ≡ false }
    requires ready { IsReady B.S.Space B.holds base space.old }
    requires untouched { B.S.touched space.old ≡ false }
    ensures told { RunsHeld B.S.Space W.Wire B.reopens B.holds base result turns at.now space.old space.new wire.old wire.new }
    ensures laid { (l : Frame) → RunsHeld B.S.Space W.Wire (Laid B.own B.layout l B.reopens) B.holds base result turns at.now space.old space.new wire.old wire.new }
    ensures full { result ≡ Full → FullPlainOf B.S.Space W.Wire B.holds B.reopens B.fills_since base space.old space.new wire.old wire.new }
    ensures silent { err.new ≡ err.old }
    ensures accounted { IsServedFor B.S.Space W.faults result space.old space.new wire.old wire.new }
    ensures ends { IsEnd result }
    ensures sound { IsOut result → B.S.sound space.new × (B.S.touched space.new ≡ false) }
{
    match wire.open(at) {
        Ok(()) => {}
        Err(_) => return End::WireFault,
    }
    let mut server = Server::new(alloc, base, None);
    let end = serve(&mut server, space, wire, err, clock, turns);
    let _ = ManuallyDrop::new(server);
    end
}
