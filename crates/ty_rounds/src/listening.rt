//! One event of the wire, which the server takes in.
ghost use Rattle.std.specs.Prelude.{◌≡◌, ◌≤◌, ◌++◌, ◌∷◌, true, false, [], Option, Some, map, nat_eq, slice_get, OnOk, IfOk, IfErr, IfSome, IfNone, IsErrOf};
ghost use Rattle.std.specs.List.{list_any};
ghost use Rattle.tc_io.specs.Causes.{Rose};
ghost use Rattle.tc_io.specs.Lines.{open_after};
ghost use Rattle.tc_io.specs.Transcript.{bytes_of};
ghost use Rattle.ty_world.specs.World.{IsBytes, clients_in, heard, new_client, at_conn, with_read, with_end};
ghost use Rattle.ty_rounds.specs.declared.logging.Logged.{Logged};
ghost use Rattle.ty_rounds.specs.declared.peer.Peer.{Peer};
ghost use Rattle.ty_rounds.specs.Events.{MayHear};
ghost use Rattle.ty_rounds.specs.Holding.{AreApart, HoldsAs, Wired};
ghost use Rattle.ty_rounds.specs.Peers.{count_clients, numbers, waiting_numbers};
ghost use Rattle.ty_rounds.specs.Ready.{AddsFew, AreIntroduced, LinksKnow, NoneOver, StayFew};
ghost use Rattle.ty_rounds.specs.Spans.{IsSpan};
ghost use Rattle.ty_rounds.specs.Turns.{Hears, HearErr};

use crate::outcome::TurnErr;
use crate::peer::Peer;
use crate::span::Span;
use std::alloc::{AllocError, Global};
use tc_io::{Ev, Wire};

/// What each turn fills anew, so that no turn makes it.
#[derive(Drop)]
pub struct Buffers {
    // the connections that wait
    paused: Vec<u32>,
    // the bytes of a read, or of the update log for a feed
    pub bytes: [u8; 4096],
}

impl Buffers {
    pub fn new(alloc: Global) -> Buffers {
        Buffers {
            paused: Vec::new(alloc),
            bytes: [0; 4096],
        }
    }
}

// Lists the connections that wait. None does outside the span.
fn list_waiting(peers: &[Peer], span: Span, paused: &mut Vec<u32>) -> Result<(), AllocError>
    requires { IsSpan span peers.now }
    ensures { OnOk result (paused.new.items ≡ waiting_numbers peers.now) }
{
    paused.clear();
    for i in span.from..span.to {
        let p = &peers[i];
        if p.is_paused() {
            paused.push(p.conn)?;
        }
    }
    Ok(())
}

// Where the connection of that number stands, looked for one by one.
fn scanned_for(peers: &[Peer], conn: u32) -> Option<usize>
    ensures found { IfSome result (λ i. (p : Peer) × (slice_get peers.now i ≡ Some p) × (p.conn ≡ conn)) }
    ensures none { IfNone result (list_any (nat_eq conn) (numbers peers.now) ≡ false) }
{
    for (i, p) in peers.iter().enumerate() {
        if p.conn == conn {
            return Some(i);
        }
    }
    None
}

// Where the connection of that number stands. It is looked for by halves first, since numbers ascend.
fn index_of(peers: &[Peer], conn: u32) -> Option<usize>
    ensures found { IfSome result (λ i. (p : Peer) × (slice_get peers.now i ≡ Some p) × (p.conn ≡ conn)) }
    ensures none { IfNone result (list_any (nat_eq conn) (numbers peers.now) ≡ false) }
{
    let i = peers.partition_point(|p| p.conn < conn);
    match peers.get(i) {
        Some(p) if p.conn == conn => Some(i),
        _ => scanned_for(peers, conn),
    }
}

// Bytes came of a connection.
fn take_read(
    peers: &mut Vec<Peer>,
    span: &mut Span,
    conn: u32,
    bytes: &[u8],
) -> Result<(), AllocError>
    requires { AreApart (numbers peers.old.items) }
    ensures heard { OnOk result (HoldsAs (λ ks. map (at_conn conn (with_read bytes.now)) ks) peers.old.items peers.new.items) }
    ensures numbers { numbers peers.new.items ≡ numbers peers.old.items }
    ensures few { OnOk result (AddsFew conn bytes.now peers.old.items peers.new.items) }
    ensures calm { OnOk result (IsSpan span.old peers.old.items → IsSpan span.new peers.new.items) }
    ensures links { OnOk result ((l : Option Logged) → LinksKnow l peers.old.items → LinksKnow l peers.new.items) }
{
    let Some(i) = index_of(peers, conn) else {
        return Ok(());
    };
    let p = &mut peers[i];
    let _sight = p.sight();
    p.push(bytes)?;
    p.settle();
    span.add_stirring(i, p.stirs);
    Ok(())
}

// No more bytes come of a connection.
fn take_end(peers: &mut Vec<Peer>, span: &mut Span, conn: u32)
    requires { AreApart (numbers peers.old.items) }
    ensures heard { HoldsAs (λ ks. map (at_conn conn with_end) ks) peers.old.items peers.new.items }
    ensures numbers { numbers peers.new.items ≡ numbers peers.old.items }
    ensures few { StayFew peers.old.items peers.new.items }
    ensures calm { IsSpan span.old peers.old.items → IsSpan span.new peers.new.items }
    ensures links { (l : Option Logged) → LinksKnow l peers.old.items → LinksKnow l peers.new.items }
{
    let Some(i) = index_of(peers, conn) else {
        return;
    };
    let p = &mut peers[i];
    p.ended = true;
    p.stirs = true;
    span.add(i);
}

// How many of them are clients': the link is none of the 64.
fn clients_among(peers: &[Peer]) -> usize
    ensures { result ≡ count_clients peers.now }
{
    peers.iter().filter(|p| !p.role.is_called()).count()
}

// A connection opened.
fn take_opened(
    alloc: Global,
    peers: &mut Vec<Peer>,
    span: &mut Span,
    conn: u32,
) -> Result<(), AllocError>
    ensures heard { OnOk result (HoldsAs (λ ks. ks ++ new_client conn (clients_in ks) ∷ []) peers.old.items peers.new.items) }
    ensures numbers { OnOk result (numbers peers.new.items ≡ numbers peers.old.items ++ conn ∷ []) }
    ensures few { OnOk result (StayFew peers.old.items peers.new.items) }
    ensures calm { OnOk result (IsSpan span.old peers.old.items → IsSpan span.new peers.new.items) }
    ensures links { OnOk result ((l : Option Logged) → LinksKnow l peers.old.items → LinksKnow l peers.new.items) }
{
    let place = peers.len();
    let p = Peer::new(alloc, conn, clients_among(peers));
    peers.push(p)?;
    span.add(place);
    Ok(())
}

// Takes an event in.
fn hear(
    alloc: Global,
    peers: &mut Vec<Peer>,
    span: &mut Span,
    ev: Ev,
    buffer: &[u8; 4096],
) -> Result<(), AllocError>
    requires may { MayHear peers.old.items ev }
    requires apart { AreApart (numbers peers.old.items) }
    ensures heard { OnOk result (HoldsAs (λ ks. heard ks ev (bytes_of ev buffer.now)) peers.old.items peers.new.items) }
    ensures numbers { OnOk result (numbers peers.new.items ≡ open_after (numbers peers.old.items) ev) }
    ensures few { OnOk result (NoneOver peers.old.items → AreIntroduced peers.old.items → StayFew peers.old.items peers.new.items) }
    ensures calm { OnOk result (IsSpan span.old peers.old.items → IsSpan span.new peers.new.items) }
    ensures links { OnOk result ((l : Option Logged) → LinksKnow l peers.old.items → LinksKnow l peers.new.items) }
    ensures bytes { IsBytes buffer.now }
{
    match ev {
        Ev::Opened(c) => take_opened(alloc, peers, span, c),
        Ev::Read(c, n) => take_read(peers, span, c, &buffer[..n]),
        Ev::Ended(c) => {
            take_end(peers, span, c);
            Ok(())
        }
        Ev::Quiet => Ok(()),
        Ev::Shut => Ok(()),
    }
}

/// Asks for one event, with the connections that wait paused, and takes it in.
pub fn listen<W: Wire>(
    alloc: Global,
    peers: &mut Vec<Peer>,
    span: &mut Span,
    buffers: &mut Buffers,
    wire: &mut W,
) -> Result<Ev, TurnErr>
    requires opened { W.opened wire.old ≡ true }
    requires wired { Wired (W.conns wire.old) peers.old.items }
    requires calm { IsSpan span.old peers.old.items }
    ensures opened { W.opened wire.new ≡ true }
    ensures wired { OnOk result (Wired (W.conns wire.new) peers.new.items × IsSpan span.new peers.new.items) }
    ensures ok { IfOk result (λ ev. Hears W.Wire wire.old wire.new peers.old.items peers.new.items ev) }
    ensures err { IfErr result (λ e. HearErr W.Wire wire.old wire.new peers.old.items e) }
    ensures later { W.faults wire.old ≤ W.faults wire.new }
    ensures cause { IsErrOf result TurnErr.Wire → Rose (W.faults wire.old) (W.faults wire.new) }
{
    list_waiting(peers.as_slice(), *span, &mut buffers.paused)?;
    let busy = !buffers.paused.is_empty();
    let ev = wire.next(buffers.paused.as_slice(), busy, &mut buffers.bytes)?;
    hear(alloc, peers, span, ev, &buffers.bytes)?;
    Ok(ev)
}
