//! Sends: each connection is offered what waits for it, a feed what comes of the update log too.
ghost use Rattle.std.specs.Prelude.{◌≡◌, ◌≤◌, [], ◌∷◌, true, nat_eq, length, OnOk, IsErrOf};
ghost use Rattle.std.specs.List.{list_any};
ghost use Rattle.tc_io.specs.Causes.{HasCause, Rose};
ghost use Rattle.tc_space.specs.Frames.{OnlyReads};
ghost use Rattle.tc_space.specs.Refusals.{OnFault};
ghost use Rattle.ty_rounds.specs.Turns.{WireAlone};
ghost use Rattle.ty_rounds.specs.Holding.{Wired};
ghost use Rattle.ty_rounds.specs.Peers.{is_fed};
ghost use Rattle.ty_rounds.specs.Ready.{FewWaiting, IsCalm, KeepsLink, KeepsLinks, StayFew};
ghost use Rattle.ty_rounds.specs.Spans.{IsSpan};
ghost use Rattle.ty_rounds.specs.Sending.{AnyBook, DeliversAll, FeedsOne, Fills, OffersOne, WireStays};

use crate::listening::Buffers;
use crate::logging::Logged;
use crate::outcome::TurnErr;
use crate::peer::{Peer, Role};
use crate::span::Span;
use tc_base::Fault;
use tc_io::{Sent, Wire};
use tc_space::{RecErr, Space};

// Offers the bytes that wait until they are taken, or not now, or the connection is gone.
fn offer<W: Wire>(wire: &mut W, p: &mut Peer) -> Result<(), Fault>
    requires opened { W.opened wire.old ≡ true }
    requires is_open { list_any (nat_eq p.old.conn) (W.conns wire.old) ≡ true }
    requires few { FewWaiting p.old }
    ensures wire_stays { WireStays W.Wire wire.old wire.new }
    ensures conn { p.new.conn ≡ p.old.conn }
    ensures role { p.new.role ≡ p.old.role }
    ensures shorter { length p.new.session.waiting ≤ length p.old.session.waiting }
    ensures told { OffersOne AnyBook W.Wire wire.old wire.new p.old p.new result }
    ensures few { StayFew (p.old ∷ []) (p.new ∷ []) }
    ensures cause { HasCause (W.faults wire.old) (W.faults wire.new) result }
{
    while !p.all_taken() {
        match wire.send(p.conn, p.session.waiting())? {
            Sent::Took(n) => p.session.taken(n),
            Sent::NotYet => return Ok(()),
            Sent::Gone => {
                p.gone = true;
                return Ok(());
            }
        }
    }
    Ok(())
}

// Puts what comes next of the update log where nothing waits, 4,096 bytes at most; none is put exactly where none is left.
#[inline(never)]
fn fill<S: Space>(
    p: &mut Peer,
    logged: &Logged,
    space: &mut S,
    buffer: &mut [u8; 4096],
) -> Result<(), RecErr>
    requires sound { S.sound space.old }
    requires quiet { p.old.session.waiting ≡ [] }
    requires fed { is_fed p.old.role ≡ true }
    ensures conn { p.new.conn ≡ p.old.conn }
    ensures fills { OnOk result (Fills S.Space (Some logged.now) space.old p.old p.new) }
    ensures few { OnOk result (StayFew (p.old ∷ []) (p.new ∷ [])) }
    ensures reads { OnlyReads S.Space space.old space.new }
    ensures cause { OnFault S.Space result space.old space.new }
    ensures never_full { IsErrOf result RecErr.Full → ⊥ }
{
    let Role::Fed(feed) = &mut p.role else {
        return Ok(());
    };
    let n = feed.next(&logged.ulog, space, buffer)?;
    p.session.owe(&buffer[..n])?;
    Ok(())
}

ghost use Rattle.std.specs.Prelude.{Some};

// Offers what waits, and then to a feed what comes of the update log, in pieces, until all was taken, or not now, or it is gone.
fn offer_all<S: Space, W: Wire>(
    wire: &mut W,
    p: &mut Peer,
    logged: &Option<Logged>,
    space: &mut S,
    buffer: &mut [u8; 4096],
) -> Result<(), TurnErr>
    requires opened { W.opened wire.old ≡ true }
    requires is_open { list_any (nat_eq p.old.conn) (W.conns wire.old) ≡ true }
    requires few { FewWaiting p.old }
    requires sound { S.sound space.old }
    ensures wire_stays { WireStays W.Wire wire.old wire.new }
    ensures conn { p.new.conn ≡ p.old.conn }
    ensures told { FeedsOne S.Space W.Wire logged.now space.old wire.old wire.new p.old p.new result }
    ensures few { OnOk result (StayFew (p.old ∷ []) (p.new ∷ [])) }
    ensures links { OnOk result (KeepsLink p.old p.new) }
    ensures reads { OnlyReads S.Space space.old space.new }
    ensures cause_wire { IsErrOf result TurnErr.Wire → Rose (W.faults wire.old) (W.faults wire.new) }
    ensures later_wire { W.faults wire.old ≤ W.faults wire.new }
    ensures cause_space { IsErrOf result TurnErr.Volume → Rose (S.faults space.old) (S.faults space.new) }
    ensures never_full { IsErrOf result TurnErr.Full → ⊥ }
    ensures alone { WireAlone logged.now result }
{
    offer(wire, p)?;
    let Some(log) = logged else {
        return Ok(());
    };
    if !p.role.is_fed() {
        return Ok(());
    }
    while p.all_taken() {
        fill(p, log, space, buffer)?;
        if p.all_taken() {
            return Ok(());
        }
        offer(wire, p)?;
    }
    Ok(())
}

// Offers what waits, where anything may.
fn deliver<S: Space, W: Wire>(
    wire: &mut W,
    p: &mut Peer,
    logged: &Option<Logged>,
    space: &mut S,
    buffer: &mut [u8; 4096],
) -> Result<(), TurnErr>
    requires opened { W.opened wire.old ≡ true }
    requires is_open { list_any (nat_eq p.old.conn) (W.conns wire.old) ≡ true }
    requires few { FewWaiting p.old }
    requires calm { IsCalm p.old }
    requires sound { S.sound space.old }
    ensures wire_stays { WireStays W.Wire wire.old wire.new }
    ensures conn { p.new.conn ≡ p.old.conn }
    ensures told { FeedsOne S.Space W.Wire logged.now space.old wire.old wire.new p.old p.new result }
    ensures few { OnOk result (StayFew (p.old ∷ []) (p.new ∷ [])) }
    ensures links { OnOk result (KeepsLink p.old p.new) }
    ensures calm { OnOk result (IsCalm p.new) }
    ensures reads { OnlyReads S.Space space.old space.new }
    ensures cause_wire { IsErrOf result TurnErr.Wire → Rose (W.faults wire.old) (W.faults wire.new) }
    ensures later_wire { W.faults wire.old ≤ W.faults wire.new }
    ensures cause_space { IsErrOf result TurnErr.Volume → Rose (S.faults space.old) (S.faults space.new) }
    ensures never_full { IsErrOf result TurnErr.Full → ⊥ }
    ensures alone { WireAlone logged.now result }
{
    if !p.stirs {
        return Ok(());
    }
    offer_all(wire, p, logged, space, buffer)?;
    p.settle();
    Ok(())
}

/// Sends to each connection in ascending number, a feed in its place. Nothing waits outside the span.
pub fn deliver_all<S: Space, W: Wire>(
    wire: &mut W,
    peers: &mut Vec<Peer>,
    span: Span,
    logged: &Option<Logged>,
    space: &mut S,
    buffers: &mut Buffers,
) -> Result<(), TurnErr>
    requires opened { W.opened wire.old ≡ true }
    requires wired { Wired (W.conns wire.old) peers.old.items }
    requires calm { IsSpan span peers.old.items }
    requires few { Each FewWaiting peers.old.items }
    requires sound { S.sound space.old }
    ensures wire_stays { WireStays W.Wire wire.old wire.new }
    ensures wired { Wired (W.conns wire.new) peers.new.items }
    ensures told { DeliversAll S.Space W.Wire logged.now space.old wire.old wire.new peers.old.items peers.new.items result }
    ensures few { OnOk result (StayFew peers.old.items peers.new.items) }
    ensures links { OnOk result (KeepsLinks peers.old.items peers.new.items) }
    ensures calm { OnOk result (IsSpan span peers.new.items) }
    ensures reads { OnlyReads S.Space space.old space.new }
    ensures cause_wire { IsErrOf result TurnErr.Wire → Rose (W.faults wire.old) (W.faults wire.new) }
    ensures later_wire { W.faults wire.old ≤ W.faults wire.new }
    ensures cause_space { IsErrOf result TurnErr.Volume → Rose (S.faults space.old) (S.faults space.new) }
    ensures never_full { IsErrOf result TurnErr.Full → ⊥ }
    ensures alone { WireAlone logged.now result }
{
    for i in span.from..span.to {
        let p = &mut peers[i];
        deliver(wire, p, logged, space, &mut buffers.bytes)?;
    }
    Ok(())
}

ghost use Rattle.ty_rounds.specs.Ready.{Each};
