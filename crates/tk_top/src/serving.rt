//! The loop of turns.
ghost use Rattle.std.specs.Prelude.{◌≡◌, [], None, false, true};
ghost use Rattle.ty_rounds.specs.Servers.{IsReadyAs};
ghost use Rattle.tk_top.specs.Ends.{IsEnd};
ghost use Rattle.tk_top.specs.Over.{IsOut};
ghost use Rattle.tk_top.specs.Runs.{EndsAs, EndsLaid};
ghost use Rattle.tk_top.specs.Causes.{IsServedFor};

use crate::ends::End;
use crate::lines::tell_gap;
use tc_io::{Clock, Sink, Wire};
use tc_space::Space;
use ty_base::Base;
use ty_rounds::{Outcome, Server, turn};

/// So many turns, or fewer where no event will come any more. Of each gap that the link met a line is written; where that can't be written the
/// turns go on.
pub fn serve<B: Base, W: Wire, E: Sink, K: Clock>(
    server: &mut Server<B>,
    space: &mut B::S,
    wire: &mut W,
    err: &mut E,
    clock: &mut K,
    turns: u64,
) -> End
    requires ready { IsReadyAs B.S.Space W.Wire B.holds server.old space.old wire.old }
    requires peers { server.old.peers.items ≡ [] }
    requires walk { server.old.walk ≡ None }
    requires due { server.old.due ≡ true }
    ensures told { EndsAs B.S.Space W.Wire K.answers B.holds B.reopens B.fills_since E.Sink result turns server.old space.old space.new wire.old wire.new clock.old clock.new err.old err.new }
    ensures laid { EndsLaid B.S.Space W.Wire K.answers B.holds B.reopens B.own B.layout E.Sink result turns server.old space.old space.new wire.old wire.new clock.old clock.new err.old err.new }
    ensures accounted { IsServedFor B.S.Space W.faults result space.old space.new wire.old wire.new }
    ensures ends { IsEnd result }
    ensures sound { IsOut result → B.S.sound space.new × (B.S.touched space.new ≡ false) }
{
    for _done in 0..turns {
        let outcome = match turn(server, space, wire, clock) {
            Ok(outcome) => outcome,
            Err(e) => return End::from(e),
        };
        match outcome {
            Outcome::Shut => return End::Done,
            _ => tell_gap(outcome, err),
        }
    }
    End::TurnsSpent
}
