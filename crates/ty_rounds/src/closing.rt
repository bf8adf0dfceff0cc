//! Closings: of the connections that are over.
ghost use Rattle.std.specs.Prelude.{◌≡◌, true, OnOk};
ghost use Rattle.tc_io.specs.Causes.{HasCause};
ghost use Rattle.ty_rounds.specs.Holding.{Wired};
ghost use Rattle.ty_rounds.specs.Ready.{KeepsLinks, NoneOver, StayFew};
ghost use Rattle.ty_rounds.specs.Spans.{IsSpan};
ghost use Rattle.ty_rounds.specs.Closings.{ClosesAll};

use crate::peer::Peer;
use crate::span::Span;
use tc_base::Fault;
use tc_io::Wire;

/// Closes each connection that is over. None is outside the span.
pub fn close_over<W: Wire>(
    wire: &mut W,
    peers: &mut Vec<Peer>,
    span: &mut Span,
) -> Result<(), Fault>
    requires opened { W.opened wire.old ≡ true }
    requires wired { Wired (W.conns wire.old) peers.old.items }
    requires calm { IsSpan span.old peers.old.items }
    ensures opened { W.opened wire.new ≡ true }
    ensures wired { OnOk result (Wired (W.conns wire.new) peers.new.items) }
    ensures given { W.given wire.new ≡ W.given wire.old }
    ensures told { ClosesAll W.Wire wire.old wire.new peers.old.items peers.new.items result }
    ensures few { OnOk result (NoneOver peers.new.items × StayFew peers.old.items peers.new.items × IsSpan span.new peers.new.items) }
    ensures links { OnOk result (KeepsLinks peers.old.items peers.new.items) }
    ensures cause { HasCause (W.faults wire.old) (W.faults wire.new) result }
{
    let mut i = span.from;
    while i < span.to {
        if peers[i].is_done() {
            let p = peers.remove(i);
            span.to -= 1;
            wire.close(p.conn)?;
        } else {
            i += 1;
        }
    }
    Ok(())
}
