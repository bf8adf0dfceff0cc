//! The link's part of a round.
ghost use Rattle.std.specs.Prelude.{◌≡◌, ◌≤◌, false, length, OnOk, IfErr, IfOk, IsErrOf, Option};
ghost use Rattle.tc_io.specs.Causes.{Rose};
ghost use Rattle.tc_space.specs.Frames.{Keeps};
ghost use Rattle.tc_space.specs.Refusals.{OnFault};
ghost use Rattle.ty_slave.specs.Lines.{TakesUpdate};
ghost use Rattle.ty_ulog.specs.Log.{IsUpdate};
ghost use Rattle.ty_base.specs.Holding as holding;
ghost use Rattle.ty_rounds.specs.Linking.{Deals, FullTaken, IsOver, LooksSo, SameRound, Taken, is_named};
ghost use Rattle.ty_rounds.specs.Works.{work};
ghost use Rattle.ty_rounds.specs.declared.outcome.TurnErr.TheVariants.{Wire as wire_err};
ghost use Rattle.ty_rounds.specs.declared.peer.Peer.{Peer};

use crate::batch::{Batch, Gap};
use crate::logging::Logged;
use crate::outcome::TurnErr;
use crate::peer::{Caller, Peer, Role};
use std::alloc::{AllocError, Global};
use tc_base::Blob;
use tc_model::Walk;
use tc_space::{RecErr, Space};
use ty_base::Base;
use ty_slave::{Link, Step};
use ty_ulog::Record;
use ty_wire::read_request;

// Whether the id was read.
fn is_named(step: &Step) -> bool
    ensures named { result ≡ is_named step.now }
{
    matches!(step, Step::Master(_))
}

// Reads the id where it wasn't read, and looks at the first record behind it. An `Err` may leave the id read.
fn look_at(link: &mut Link) -> Result<Step, AllocError>
    ensures ok { IfOk result (LooksSo link.old link.new) }
    ensures takes { IfOk result TakesUpdate }
    ensures fewer { length link.new.unread ≤ length link.old.unread }
{
    let step = link.step()?;
    if is_named(&step) {
        return link.step();
    }
    Ok(step)
}

// Applies the request of a record with a walk of the server's. Answers whether it succeeded.
fn redo<B: Base>(
    alloc: Global,
    record: &Record,
    base: &mut B,
    space: &mut B::S,
    walk: &mut Walk,
) -> Result<bool, RecErr>
    requires ready { holding.IsReady B.S.Space B.holds base.old space.old }
    requires update { IsUpdate record.now }
    ensures redoes { IfOk result (λ ok. Redoes B.S.Space B.holds record.now ok base.old base.new space.old space.new walk.old walk.new) }
    ensures leaves { IfOk result (λ ok. holding.Leaves B.S.Space B.own B.layout (ok ≡ false) space.old space.new) }
    ensures full { IsErrOf result RecErr.Full → FullRedo B.S.Space B.holds (B.fills base.old space.old space.new) record.now base.old space.old walk.old }
    ensures keeps { Keeps B.S.Space space.old space.new }
    ensures cause { OnFault B.S.Space result space.old space.new }
{
    let request = read_request(alloc, record.request.as_slice())?;
    let mut reply = Blob::new(alloc);
    let applied = base.apply(space, request, walk, &mut reply)?;
    Ok(applied.updated)
}

ghost use Rattle.ty_rounds.specs.Linking.{FullRedo, Redoes};

// Takes a record off the link, where its request succeeds. Answers whether the link is to be closed for it.
fn take_off<B: Base>(
    alloc: Global,
    taken: Record,
    base: &mut B,
    space: &mut B::S,
    walk: &mut Walk,
    batch: &mut Batch,
) -> Result<bool, RecErr>
    requires ready { holding.IsReady B.S.Space B.holds base.old space.old }
    requires update { IsUpdate taken }
    ensures deals { IfOk result (λ broken. Deals B.S.Space B.holds (Take taken) (work batch.old) (work batch.new) broken base.old base.new space.old space.new walk.old walk.new) }
    ensures taken { OnOk result (Taken (Take taken) (work batch.old) (work batch.new)) }
    ensures same { OnOk result (SameRound (work batch.old) (work batch.new)) }
    ensures leaves { OnOk result (holding.Leaves B.S.Space B.own B.layout (batch.new.commits ≡ false) space.old space.new) }
    ensures ready { OnOk result (holding.IsReady B.S.Space B.holds base.new space.new) }
    ensures full { IsErrOf result RecErr.Full → FullRedo B.S.Space B.holds (B.fills base.old space.old space.new) taken base.old space.old walk.old }
    ensures keeps { Keeps B.S.Space space.old space.new }
    ensures cause { OnFault B.S.Space result space.old space.new }
{
    let is_taken = redo(alloc, &taken, base, space, walk)?;
    if is_taken {
        batch.take(taken);
        return Ok(false);
    }
    Ok(true)
}

ghost use Rattle.ty_slave.specs.declared.link.Step.TheVariants.{Take};

// Deals with what was looked at. Answers whether the link is to be closed for it.
fn deal<B: Base>(
    alloc: Global,
    step: Step,
    base: &mut B,
    space: &mut B::S,
    walk: &mut Walk,
    batch: &mut Batch,
) -> Result<bool, RecErr>
    requires ready { holding.IsReady B.S.Space B.holds base.old space.old }
    requires takes { TakesUpdate step }
    ensures deals { IfOk result (λ broken. Deals B.S.Space B.holds step (work batch.old) (work batch.new) broken base.old base.new space.old space.new walk.old walk.new) }
    ensures taken { OnOk result (Taken step (work batch.old) (work batch.new)) }
    ensures bad { IfOk result (IsOver step) }
    ensures same { OnOk result (SameRound (work batch.old) (work batch.new)) }
    ensures leaves { OnOk result (holding.Leaves B.S.Space B.own B.layout (batch.new.commits ≡ false) space.old space.new) }
    ensures ready { OnOk result (holding.IsReady B.S.Space B.holds base.new space.new) }
    ensures full { IsErrOf result RecErr.Full → FullTaken B.S.Space B.holds (B.fills base.old space.old space.new) step base.old space.old walk.old }
    ensures keeps { Keeps B.S.Space space.old space.new }
    ensures cause { OnFault B.S.Space result space.old space.new }
{
    match step {
        Step::Take(record) => take_off(alloc, record, base, space, walk, batch),
        Step::Gap { held, follows } => {
            batch.gap = Some(Gap { held, follows });
            Ok(true)
        }
        Step::Bad => Ok(true),
        Step::Part => Ok(false),
        Step::Master(_) => Ok(false),
        Step::Old => Ok(false),
    }
}

// Looks at what the link brought.
fn look_behind<B: Base>(
    alloc: Global,
    caller: &mut Caller,
    base: &mut B,
    space: &mut B::S,
    walk: &mut Walk,
    batch: &mut Batch,
) -> Result<(), RecErr>
    requires ready { holding.IsReady B.S.Space B.holds base.old space.old }
    ensures looks { OnOk result (LooksBehind B.S.Space B.own B.layout B.holds (work batch.old) (work batch.new) caller.old caller.new base.old base.new space.old space.new walk.old walk.new) }
    ensures full { IsErrOf result RecErr.Full → FullLook B.S.Space B.holds (B.fills base.old space.old space.new) caller.old base.old space.old walk.old }
    ensures keeps { Keeps B.S.Space space.old space.new }
    ensures cause { OnFault B.S.Space result space.old space.new }
{
    let step = look_at(&mut caller.link)?;
    let is_over = deal(alloc, step, base, space, walk, batch)?;
    caller.broken = caller.broken | is_over;
    Ok(())
}

ghost use Rattle.ty_rounds.specs.Linking.{FullLook, LooksBehind};

// Looks at what the connection brought that is the link.
#[inline(never)]
fn look_peer<B: Base>(
    alloc: Global,
    p: &mut Peer,
    base: &mut B,
    space: &mut B::S,
    walk: &mut Walk,
    batch: &mut Batch,
) -> Result<(), RecErr>
    requires ready { holding.IsReady B.S.Space B.holds base.old space.old }
    requires link { is_called p.old.role ≡ true }
    ensures looks { OnOk result (LooksPeer B.S.Space B.own B.layout B.holds (work batch.old) (work batch.new) p.old p.new base.old base.new space.old space.new walk.old walk.new) }
    ensures full { IsErrOf result RecErr.Full → FullPeer B.S.Space B.holds (B.fills base.old space.old space.new) p.old base.old space.old walk.old }
    ensures keeps { Keeps B.S.Space space.old space.new }
    ensures cause { OnFault B.S.Space result space.old space.new }
{
    p.stirs = true;
    match &mut p.role {
        Role::Called(caller) => look_behind(alloc, caller, base, space, walk, batch),
        Role::Client => Ok(()),
        Role::Fed(_) => Ok(()),
    }
}

ghost use Rattle.std.specs.Prelude.{true};
ghost use Rattle.ty_rounds.specs.Linking.{FullPeer, LooksPeer};
ghost use Rattle.ty_rounds.specs.Peers.{is_called};

// Where the link stands among them, if it is there.
fn place_of_link(peers: &[Peer]) -> Option<usize>
    ensures at { result ≡ position (λ p. is_called p.role) peers.now }
{
    peers.iter().position(|p| p.role.is_called())
}

ghost use Rattle.std.specs.List.{position};

/// Looks at the link, where there is one: at its id where that wasn't read, and at the first record behind it.
pub fn look<B: Base>(
    alloc: Global,
    logged: &Option<Logged>,
    peers: &mut Vec<Peer>,
    span: &mut Span,
    base: &mut B,
    space: &mut B::S,
    walk: &mut Walk,
    batch: &mut Batch,
) -> Result<(), TurnErr>
    requires ready { holding.IsReady B.S.Space B.holds base.old space.old }
    requires calm { IsSpan span.old peers.old.items }
    requires alone { (batch.old.taken ≡ None) × (batch.old.gap ≡ None) }
    ensures looks { OnOk result (LooksAs B.S.Space B.own B.layout B.holds logged.now batch.old batch.new base.old base.new space.old space.new walk.old walk.new peers.old.items peers.new.items) }
    ensures not_wire { IfErr result (λ e. e ≡ wire_err → ⊥) }
    ensures full { IsErrOf result TurnErr.Full → FullLinks B.S.Space B.holds B.fills_since logged.now base.old space.old space.new walk.old peers.old.items }
    ensures span { OnOk result (IsSpan span.new peers.new.items) }
    ensures keeps { Keeps B.S.Space space.old space.new }
    ensures cause { IsErrOf result TurnErr.Volume → Rose (B.S.faults space.old) (B.S.faults space.new) }
{
    let Some(logged) = logged else {
        return Ok(());
    };
    if logged.master.is_none() {
        return Ok(());
    }
    let Some(i) = place_of_link(peers) else {
        return Ok(());
    };
    let p = &mut peers[i];
    look_peer(alloc, p, base, space, walk, batch)?;
    span.add(i);
    Ok(())
}

ghost use Rattle.std.specs.Prelude.{None};
ghost use Rattle.ty_rounds.specs.Linking.{FullLinks, LooksAs};
ghost use Rattle.ty_rounds.specs.Spans.{IsSpan};

use crate::span::Span;
