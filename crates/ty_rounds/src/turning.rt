//! One event, and all that it brings.
ghost use Rattle.std.specs.Prelude.{◌≡◌, ◌≤◌, [], true, false, OnOk, OnErr, IfErr, IfOk, IsErrOf, IsTrue, ◌↔◌};
ghost use Rattle.tc_io.specs.Causes.{Rose};
ghost use Rattle.tc_io.specs.declared.wire.Ev.TheVariants.{Shut};
ghost use Rattle.tc_space.specs.Frames.{Keeps};
ghost use Rattle.ty_rounds.specs.Following.{FollowsTold};
ghost use Rattle.ty_world.specs.World.{is_quiet};
ghost use Rattle.ty_base.specs.Holding as holding;
ghost use Rattle.ty_rounds.specs.declared.outcome.TurnErr.TheVariants.{Volume as volume_err, Wire as wire_err};
ghost use Rattle.ty_rounds.specs.Books.{SameTerms, settings_of};
ghost use Rattle.ty_rounds.specs.Copying.{AreMade, OnlyCopies, RoundCopies};
ghost use Rattle.ty_rounds.specs.Holding.{Wired};
ghost use Rattle.ty_rounds.specs.Joining.{held_after};
ghost use Rattle.ty_rounds.specs.Ready.{Each, FewWaiting, LinksMay};
ghost use Rattle.ty_rounds.specs.Servers.{IsReadyAs, TurnsAs, TurnsLaid};
ghost use Rattle.ty_rounds.specs.Serving.{FullParts, Rounds};
ghost use Rattle.ty_rounds.specs.Spans.{IsSpan};
ghost use Rattle.ty_rounds.specs.Turns.{Finishes, MeetsFor, WireAlone, outcome_of};
ghost use Rattle.ty_rounds.specs.Works.{gaps_of, work};

use crate::batch::{Batch, Gap};
use crate::closing::close_over;
use crate::committing::keep_round;
use crate::copying::make_copies;
use crate::dialling::dial;
use crate::joining::join;
use crate::linking::look;
use crate::listening::{Buffers, listen};
use crate::logging::Logged;
use crate::outcome::{Outcome, TurnErr};
use crate::peer::Peer;
use crate::rounds::serve_all;
use crate::sends::deliver_all;
use crate::server::Server;
use crate::span::{Span, span_of};
use std::alloc::Global;
use tc_io::{Clock, Ev, Wire};
use tc_model::Walk;
use tc_space::Space;
use ty_base::Base;

// A round: one piece of each client, and then what the link brought.
fn round<B: Base>(
    alloc: Global,
    logged: &Option<Logged>,
    peers: &mut Vec<Peer>,
    span: &mut Span,
    base: &mut B,
    space: &mut B::S,
    walk: &mut Walk,
    batch: &mut Batch,
) -> Result<(), TurnErr>
    requires ready { holding.IsReady B.S.Space B.holds base.old space.old }
    requires calm { IsSpan span.old peers.old.items }
    ensures rounds { OnOk result (Rounds B.S.Space B.own B.layout B.holds logged.now (work batch.new) base.old base.new space.old space.new walk.old walk.new peers.old.items peers.new.items) }
    ensures not_wire { IfErr result (λ e. e ≡ wire_err → ⊥) }
    ensures full { IsErrOf result TurnErr.Full → FullParts B.S.Space B.holds B.fills_since logged.now base.old space.old space.new walk.old peers.old.items }
    ensures span { OnOk result (IsSpan span.new peers.new.items) }
    ensures keeps { Keeps B.S.Space space.old space.new }
    ensures cause { IsErrOf result TurnErr.Volume → Rose (B.S.faults space.old) (B.S.faults space.new) }
{
    batch.clear();
    serve_all(peers, *span, base, space, walk, logged, batch)?;
    look(alloc, logged, peers, span, base, space, walk, batch)
}

// Makes the copies that a round was asked for, behind its commit.
fn copy_kept<S: Space>(space: &mut S, batch: &Batch) -> Result<(), TurnErr>
    requires sound { S.sound space.old }
    requires untouched { S.touched space.old ≡ false }
    ensures copies { S.tells → RoundCopies (S.now space.old) (work batch.now).labels (S.names space.old) (S.names space.new) }
    ensures made { OnOk result (S.tells → AreMade (S.now space.old) (work batch.now).labels (S.names space.new)) }
    ensures only { OnlyCopies S.Space space.old space.new }
    ensures none { (work batch.now).labels ≡ [] → space.new ≡ space.old }
    ensures volume { IfErr result (λ e. e ≡ volume_err) }
    ensures cause { OnErr result (Rose (S.faults space.old) (S.faults space.new)) }
{
    match make_copies(space, batch.labels.as_slice()) {
        Ok(()) => Ok(()), // they are made
        Err(_) => Err(TurnErr::Volume),
    }
}

// Behind a commit the link knows the last timestamp that is held now.
fn join_kept(commits: bool, logged: &Option<Logged>, peers: &mut Vec<Peer>)
    requires { LinksMay logged.now peers.old.items }
    ensures { peers.new.items ≡ held_after commits logged.now peers.old.items }
{
    if commits {
        join(logged, peers);
    }
}

// Sends what waits, and closes what is over.
fn finish<S: Space, W: Wire>(
    wire: &mut W,
    peers: &mut Vec<Peer>,
    span: &mut Span,
    logged: &Option<Logged>,
    space: &mut S,
    buffers: &mut Buffers,
) -> Result<(), TurnErr>
    requires opened { W.opened wire.old ≡ true }
    requires wired { Wired (W.conns wire.old) peers.old.items }
    requires calm { IsSpan span.old peers.old.items }
    requires few { Each FewWaiting peers.old.items }
    requires sound { S.sound space.old }
    ensures opened { W.opened wire.new ≡ true }
    ensures wired { OnOk result (Wired (W.conns wire.new) peers.new.items) }
    ensures span { OnOk result (IsSpan span.new peers.new.items) }
    ensures told { Finishes S.Space W.Wire logged.now space.old space.new wire.old wire.new result peers.old.items peers.new.items }
    ensures cause_wire { IsErrOf result TurnErr.Wire → Rose (W.faults wire.old) (W.faults wire.new) }
    ensures later_wire { W.faults wire.old ≤ W.faults wire.new }
    ensures cause_space { IsErrOf result TurnErr.Volume → Rose (S.faults space.old) (S.faults space.new) }
    ensures never_full { IsErrOf result TurnErr.Full → ⊥ }
    ensures alone { WireAlone logged.now result }
{
    deliver_all(wire, peers, *span, logged, space, buffers)?;
    close_over(wire, peers, span)?;
    span.narrow(peers);
    Ok(())
}

// Whether no event will come any more.
fn is_shut(ev: Ev) -> bool
    ensures { IsTrue result ↔ (ev ≡ Shut) }
{
    matches!(ev, Ev::Shut)
}

// Whether nothing was ready.
fn is_quiet(ev: Ev) -> bool
    ensures { result ≡ is_quiet ev }
{
    matches!(ev, Ev::Quiet)
}

// How a turn went that came to its end.
fn outcome(ev: Ev, gap: Option<Gap>) -> Outcome
    ensures { result ≡ outcome_of ev (gaps_of gap) }
{
    if is_shut(ev) {
        return Outcome::Shut;
    }
    match gap {
        Some(gap) => Outcome::Gap {
            held: gap.held,
            follows: gap.follows,
        },
        None => Outcome::Went,
    }
}

/// One turn: the master is dialled where that is due; then an event, one piece of each connection that is ready, what the link brought, a
/// commit where anything is to be kept, with the records of it in the update log where one is kept, the copies that were asked for, then
/// sends and closings. A connection holds at most 33,558,528 unread bytes after it, the link 33,558,553, and at most one reply of
/// 67,108,864, a feed 4,100, over any space.
///
/// `Full` comes before anything was sent, and what a stop leaves is then what was kept before the round or after it; so do `Memory` and
/// `Volume`, but that some may have been sent where an update log is kept; `Wire` comes behind the commit too. Once anything was sent a stop
/// leaves what is kept after the round. Whatever the files are laid out like, and whichever stand beside them, what a stop leaves is laid out like
/// them, beside those. After an `Err` the server is to be dropped, and the space to be opened again.
pub fn turn<B: Base, W: Wire, K: Clock>(
    server: &mut Server<B>,
    space: &mut B::S,
    wire: &mut W,
    clock: &mut K,
) -> Result<Outcome, TurnErr>
    requires ready { IsReadyAs B.S.Space W.Wire B.holds server.old space.old wire.old }
    ensures ready { OnOk result (IsReadyAs B.S.Space W.Wire B.holds server.new space.new wire.new) }
    ensures opened { W.opened wire.new ≡ true }
    ensures told { TurnsAs B.S.Space W.Wire B.holds B.reopens B.fills_since K.answers result server.old server.new space.old space.new wire.old wire.new clock.old clock.new }
    ensures laid { TurnsLaid B.S.Space W.Wire B.holds B.own B.layout B.reopens B.fills_since K.answers result server.old server.new space.old space.new wire.old wire.new clock.old clock.new }
    ensures follows { FollowsTold B.S.Space space.old space.new }
    ensures same { OnOk result (SameTerms server.old.logged server.new.logged) }
    ensures met { IfOk result (MeetsFor (settings_of server.old.logged)) }
    ensures later_wire { W.faults wire.old ≤ W.faults wire.new }
    ensures cause_wire { IsErrOf result TurnErr.Wire → Rose (W.faults wire.old) (W.faults wire.new) }
    ensures cause_space { IsErrOf result TurnErr.Volume → Rose (B.S.faults space.old) (B.S.faults space.new) }
{
    let mut span = span_of(server.span.take(), &server.peers);
    dial(
        server.alloc,
        &server.logged,
        server.due,
        wire,
        &mut server.peers,
        &mut span,
    )?;
    let ev = listen(
        server.alloc,
        &mut server.peers,
        &mut span,
        &mut server.buffers,
        wire,
    )?;
    round(
        server.alloc,
        &server.logged,
        &mut server.peers,
        &mut span,
        &mut server.base,
        space,
        &mut server.walk,
        &mut server.batch,
    )?;
    keep_round(
        &mut server.base,
        space,
        &mut server.logged,
        clock,
        &server.batch,
    )?;
    copy_kept(space, &server.batch)?;
    join_kept(server.batch.commits, &server.logged, &mut server.peers);
    finish(
        wire,
        &mut server.peers,
        &mut span,
        &server.logged,
        space,
        &mut server.buffers,
    )?;
    server.span = Some(span);
    server.due = is_quiet(ev);
    Ok(outcome(ev, server.batch.gap))
}
