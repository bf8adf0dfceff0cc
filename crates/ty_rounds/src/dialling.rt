//! The dial to the master.
ghost use Rattle.std.specs.Prelude.{◌≡◌, ◌≤◌, ◌++◌, true, OnOk, IfErr, IfOk, IsErrOf, Some};
ghost use Rattle.tc_io.specs.Causes.{Rose};
ghost use Rattle.ty_core.specs.Queues.{queue};
ghost use Rattle.ty_wire.specs.Form.{long_bytes};
ghost use Rattle.ty_rounds.specs.Dialling.{AddsLink, AsksRecords, DialErr, IsLinked, MayDialWith};
ghost use Rattle.ty_rounds.specs.Holding.{Wired};
ghost use Rattle.ty_rounds.specs.Peers.{has_link};
ghost use Rattle.ty_rounds.specs.Spans.{IsSpan};
ghost use Rattle.ty_rounds.specs.Turns.{Dials};

use crate::logging::Logged;
use crate::outcome::TurnErr;
use crate::peer::{Caller, Peer, Role};
use crate::span::Span;
use std::alloc::{AllocError, Global};
use tc_io::{Dialled, Wire};
use ty_core::Session;
use ty_slave::Link;

// Owes eight bytes.
fn owe_long(session: &mut Session, number: u64) -> Result<(), AllocError>
    ensures { OnOk result (session.new ≡ queue session.old.unread (session.old.waiting ++ long_bytes number)) }
{
    let upper = (number / 4_294_967_296) as u32;
    let lower = (number % 4_294_967_296) as u32;
    session.owe(&upper.to_be_bytes())?;
    session.owe(&lower.to_be_bytes())
}

// A request for all records above a timestamp, for a server of this number.
fn ask_records(session: &mut Session, above: u64, own: u16) -> Result<(), AllocError>
    ensures asks { OnOk result (AsksRecords above own session.old session.new) }
{
    session.owe(&[0xC8, 0xA0])?;
    owe_long(session, above)?;
    session.owe(&u32::from(own).to_be_bytes())
}

// Whether one of them is the link.
fn has_link(peers: &[Peer]) -> bool
    ensures { result ≡ has_link peers.now }
{
    peers.iter().any(|p| p.role.is_called())
}

// The link under a number: it is to ask for all records above the last timestamp held.
fn link_of(alloc: Global, conn: u32, logged: &Logged) -> Result<Peer, AllocError>
    ensures linked { IfOk result (IsLinked conn logged.now) }
{
    let held = logged.ulog.last();
    let mut session = Session::new(alloc);
    ask_records(&mut session, held, logged.own)?;
    Ok(Peer {
        conn,
        role: Role::Called(Caller {
            link: Link::new(alloc, held, logged.own),
            broken: false,
        }),
        session,
        gone: false,
        ended: false,
        extra: false,
        stirs: true,
    })
}

// The link comes behind the others.
fn add_link(
    alloc: Global,
    conn: u32,
    logged: &Logged,
    peers: &mut Vec<Peer>,
    span: &mut Span,
) -> Result<(), AllocError>
    ensures linked { OnOk result (AddsLink conn logged.now peers.old.items peers.new.items) }
    ensures calm { OnOk result (IsSpan span.old peers.old.items → IsSpan span.new peers.new.items) }
{
    let place = peers.len();
    let p = link_of(alloc, conn, logged)?;
    peers.push(p)?;
    span.add(place);
    Ok(())
}

// Dials the master that the words name.
#[inline(never)]
fn dial_master<W: Wire>(
    alloc: Global,
    logged: &Logged,
    wire: &mut W,
    peers: &mut Vec<Peer>,
    span: &mut Span,
) -> Result<(), TurnErr>
    requires opened { W.opened wire.old ≡ true }
    requires wired { Wired (W.conns wire.old) peers.old.items }
    requires calm { IsSpan span.old peers.old.items }
    requires may { MayDialWith logged.now peers.old.items }
    ensures opened { W.opened wire.new ≡ true }
    ensures wired { OnOk result (Wired (W.conns wire.new) peers.new.items × IsSpan span.new peers.new.items) }
    ensures told { OnOk result (Dials W.Wire (Some logged.now) true wire.old wire.new peers.old.items peers.new.items) }
    ensures err { IfErr result (λ e. DialErr W.Wire (Some logged.now) true wire.old wire.new peers.old.items e) }
    ensures later { W.faults wire.old ≤ W.faults wire.new }
    ensures cause { IsErrOf result TurnErr.Wire → Rose (W.faults wire.old) (W.faults wire.new) }
{
    let Some(master) = &logged.master else {
        return Ok(());
    };
    let answer = wire.dial(master.host.as_slice(), master.port)?;
    match answer {
        Dialled::Conn(conn) => {
            add_link(alloc, conn, logged, peers, span)?;
            Ok(())
        }
        Dialled::NotNow => Ok(()),
    }
}

/// Dials the master where one is given, no link is open and it is time. On an `Err` a connection may have been opened of which nothing is known.
#[inline(always)]
pub fn dial<W: Wire>(
    alloc: Global,
    logged: &Option<Logged>,
    due: bool,
    wire: &mut W,
    peers: &mut Vec<Peer>,
    span: &mut Span,
) -> Result<(), TurnErr>
    requires opened { W.opened wire.old ≡ true }
    requires wired { Wired (W.conns wire.old) peers.old.items }
    requires calm { IsSpan span.old peers.old.items }
    ensures opened { W.opened wire.new ≡ true }
    ensures wired { OnOk result (Wired (W.conns wire.new) peers.new.items × IsSpan span.new peers.new.items) }
    ensures told { OnOk result (Dials W.Wire logged.now due wire.old wire.new peers.old.items peers.new.items) }
    ensures err { IfErr result (λ e. DialErr W.Wire logged.now due wire.old wire.new peers.old.items e) }
    ensures later { W.faults wire.old ≤ W.faults wire.new }
    ensures cause { IsErrOf result TurnErr.Wire → Rose (W.faults wire.old) (W.faults wire.new) }
{
    let Some(logged) = logged else {
        return Ok(());
    };
    if !due {
        return Ok(());
    }
    if has_link(peers) {
        return Ok(());
    }
    dial_master(alloc, logged, wire, peers, span)
}
