//! The clients' part of a round: one piece of each connection.
ghost use Rattle.std.specs.Prelude.{◌≡◌, OnOk, IfErr, IsErrOf};
ghost use Rattle.ty_memc.specs.declared.text.Piece.{Piece};
ghost use Rattle.tc_io.specs.Causes.{Rose};
ghost use Rattle.tc_space.specs.Frames.{Keeps};
ghost use Rattle.tc_space.specs.Refusals.{OnFault};
ghost use Rattle.ty_base.specs.Holding as holding;
ghost use Rattle.ty_core.specs.Serving.{feed_of};
ghost use Rattle.ty_rounds.specs.Books.{settings_of};
ghost use Rattle.ty_rounds.specs.Feeding.{OwesRepl};
ghost use Rattle.ty_rounds.specs.Ready.{IsCalm};
ghost use Rattle.ty_rounds.specs.Serving.{FullOne, FullRound, ServesAll, ServesReady};
ghost use Rattle.ty_rounds.specs.Spans.{IsSpan};
ghost use Rattle.ty_rounds.specs.Terms.{Under, IsTerms};
ghost use Rattle.ty_rounds.specs.Works.{no_work, work};
ghost use Rattle.ty_rounds.specs.declared.logging.Logged.{Logged};
ghost use Rattle.ty_rounds.specs.declared.outcome.TurnErr.TheVariants.{Wire as wire_err};

use crate::batch::Batch;
use crate::logging::{Logged, Terms, terms_of};
use crate::outcome::TurnErr;
use crate::peer::{Peer, Role};
use crate::span::Span;
use tc_model::Walk;
use tc_space::{RecErr, Space};
use ty_base::Base;
use ty_core::Feed as Asked;
use ty_ulog::Feed;

// What a `repl` is answered: the own id, and the connection is a feed from then on; or a refusal, where no update log is kept or the id is the
// own.
#[inline(always)]
fn owe_repl(p: &mut Peer, terms: Terms, asked: &Option<Asked>) -> Result<(), RecErr>
    ensures owes { OnOk result ((l : Option Logged) (x : Piece) → IsTerms terms l → asked.now ≡ feed_of x → OwesRepl (settings_of l) p.old p.new x) }
    ensures memory { IsErrOf result RecErr.Fault → ⊥ }
    ensures room { IsErrOf result RecErr.Full → ⊥ }
{
    let Some(asked) = asked else {
        return Ok(());
    };
    if !terms.logs || asked.server == u32::from(terms.own) {
        p.session.owe(&[1])?;
        return Ok(());
    }
    p.session.owe(&u32::from(terms.own).to_be_bytes())?;
    p.role = Role::Fed(Feed::new(asked.above));
    Ok(())
}

ghost use Rattle.std.specs.Prelude.{Option};

// Serves the next piece of one connection, where it is ready. What is left to do comes to the batch.
fn serve_one<B: Base>(
    p: &mut Peer,
    base: &mut B,
    space: &mut B::S,
    walk: &mut Walk,
    terms: Terms,
    batch: &mut Batch,
) -> Result<(), RecErr>
    requires ready { holding.IsReady B.S.Space B.holds base.old space.old }
    requires calm { IsCalm p.old }
    ensures served { OnOk result (Under terms (λ l. ServesReady B.S.Space B.own B.layout B.holds l (work batch.old) (work batch.new) base.old base.new space.old space.new walk.old walk.new p.old p.new)) }
    ensures full { IsErrOf result RecErr.Full → Under terms (λ l. FullOne B.S.Space B.holds B.fills_since l base.old space.old space.new walk.old p.old) }
    ensures keeps { Keeps B.S.Space space.old space.new }
    ensures cause { OnFault B.S.Space result space.old space.new }
{
    if !p.stirs {
        return Ok(());
    }
    if p.gone {
        return Ok(());
    }
    if !p.all_taken() {
        return Ok(());
    }
    if !p.has_piece() {
        return Ok(());
    }
    let served = p
        .session
        .serve(base, space, walk, terms.replica, terms.logs)?;
    owe_repl(p, terms, &served.feeds)?;
    batch.add(served)?;
    Ok(())
}

/// Each connection in turn, of which those outside the span have no piece.
pub fn serve_all<B: Base>(
    peers: &mut Vec<Peer>,
    span: Span,
    base: &mut B,
    space: &mut B::S,
    walk: &mut Walk,
    logged: &Option<Logged>,
    batch: &mut Batch,
) -> Result<(), TurnErr>
    requires ready { holding.IsReady B.S.Space B.holds base.old space.old }
    requires calm { IsSpan span peers.old.items }
    requires anew { work batch.old ≡ no_work }
    ensures serves { OnOk result (ServesAll B.S.Space B.own B.layout B.holds logged.now (work batch.new) base.old base.new space.old space.new walk.old walk.new peers.old.items peers.new.items) }
    ensures not_wire { IfErr result (λ e. e ≡ wire_err → ⊥) }
    ensures full { IsErrOf result TurnErr.Full → FullRound B.S.Space B.holds B.fills_since logged.now base.old space.old space.new walk.old peers.old.items }
    ensures span { OnOk result (IsSpan span peers.new.items) }
    ensures keeps { Keeps B.S.Space space.old space.new }
    ensures cause { IsErrOf result TurnErr.Volume → Rose (B.S.faults space.old) (B.S.faults space.new) }
{
    let terms = terms_of(logged);
    for i in span.from..span.to {
        let p = &mut peers[i];
        serve_one(p, base, space, walk, terms, batch)?;
    }
    Ok(())
}
