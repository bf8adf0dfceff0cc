//! A piece, served.
ghost use Rattle.std.specs.Prelude.{◌≡◌, ◌++◌, ◌&&◌, Bool, true, false, OnErr, OnOk, IfOk, IsErrOf, if◌then◌else◌, None, Some};
ghost use Rattle.tc_base.specs.declared.kind.Form.TheVariants.{Keep};
ghost use Rattle.tc_space.specs.Frames.{Keeps};
ghost use Rattle.tc_space.specs.Refusals.{OnFault};
ghost use Rattle.tc_model.specs.Apply.{refusal_of, updates};
ghost use Rattle.ty_wire.specs.Prefixes.{IsPrefix};
ghost use Rattle.ty_wire.specs.Spelling.{Fits, reply_bytes};
ghost use Rattle.ty_memc.specs.declared.text.Piece.TheVariants as piece;
ghost use Rattle.ty_base.specs.Holding.{Declines, FillsBy, IsReady, Leaves, ServedBy, TightHeld, contents_after, is_idle};
ghost use Rattle.tc_model.specs.Packing.{is_optimize};
ghost use Rattle.ty_core.specs.Serving.{FillsPiece, MayServe, ServesRequest, ServesTaken, TightPiece, feed_of, reply_most};
ghost use Rattle.tc_base.specs.Labels.{is_label};
ghost use Rattle.ty_core.specs.Labels.{label_in};

use crate::taking::{Taken, if_updating};
use crate::texts::serve_text;
use std::alloc::{AllocError, Global};
use tc_base::{Blob, Label, REPLY_MOST, Reply, Request};
use tc_model::{Applied, Walk};
use tc_space::{RecErr, Space};
use ty_base::Base;
use ty_memc::Piece;
use ty_wire::write_reply;

/// Whom a `repl` asks to be fed: the update records above a timestamp, for a server of this number.
#[derive(Clone, Copy, PartialEq, Eq)]
pub struct Feed {
    pub above: u64,
    pub server: u32,
}

/// What is left to do behind a piece that was served.
#[derive(Drop)]
pub struct Served {
    /// Whether there is anything to commit: it updated the contents, or packs the files.
    pub commits: bool,
    /// The feed of updates that it asks for, to which no reply was added.
    pub feeds: Option<Feed>,
    /// The bytes of the request where it updated and they were asked for.
    pub update: Option<Blob>,
    /// The label under which a copy is to be made once what was done is kept.
    pub copy: Option<Blob>,
}

// The reply to a request that is refused.
fn refusal(request: &Request) -> Reply
    ensures { result ≡ refusal_of request.now }
{
    match request {
        Request::PutNr { .. } => Reply::Silent,
        Request::Misc { .. } => Reply::FailMisc,
        _ => Reply::Fail,
    }
}

// Adds the reply to a request that is refused. An `Err` changes nothing.
#[inline(never)]
fn refuse(request: Request, into: &mut Blob) -> Result<(), AllocError>
    ensures ok { OnOk result (into.new ≡ into.old ++ reply_bytes (refusal_of request)) }
    ensures err { OnErr result (into.new ≡ into.old) }
{
    let refused = refusal(&request);
    drop(request);
    let added = write_reply(&refused, into);
    drop(refused);
    added
}

// Whether it packs the files.
fn is_packing(request: &Request) -> bool
    ensures { result ≡ is_optimize request.now }
{
    matches!(request, Request::Optimize { .. })
}

// The feed that it asks for.
fn asked_feed(request: &Request) -> Option<Feed>
    ensures { result ≡ feed_of (piece.Request request.now) }
{
    match request {
        Request::Repl { timestamp, server } => Some(Feed {
            above: *timestamp,
            server: *server,
        }),
        _ => None,
    }
}

// A text, where it is a label.
#[inline(never)]
fn label_of(alloc: Global, text: &[u8]) -> Result<Option<Blob>, AllocError>
    ensures { IfOk result (λ o. o ≡ (if is_label text.now then Some text.now else None)) }
{
    if Label::of(text).is_some() {
        Ok(Some(Blob::from_slice(alloc, text)?))
    } else {
        Ok(None)
    }
}

// The label of the copy that it asks for, where that is one.
#[inline(always)]
fn asked_label(alloc: Global, request: &Request) -> Result<Option<Blob>, AllocError>
    ensures { IfOk result (λ o. o ≡ label_in request.now) }
{
    match request {
        Request::Copy { path } => label_of(alloc, path.as_slice()),
        _ => Ok(None),
    }
}

// The most bytes that its reply may have: none where a feed is asked for.
fn most_of(feeds: &Option<Feed>) -> usize
    ensures { result ≡ reply_most feeds.now }
{
    match feeds {
        Some(_) => 0,
        None => REPLY_MOST,
    }
}

/// What was copied, where it is kept.
#[inline(always)]
pub fn kept(copied: Option<Blob>, keeps: bool) -> Option<Blob>
    ensures { result ≡ (if keeps then copied else None) }
{
    if keeps { copied } else { None }
}

/// Serves a request: on a replica each updating one of a client fails, else the base serves it.
#[inline(always)]
pub fn answer<B: Base>(
    base: &mut B,
    space: &mut B::S,
    request: Request,
    walk: &mut Walk,
    replica: bool,
    reply: &mut Blob,
) -> Result<Applied, RecErr>
    requires ready { IsReady B.S.Space B.holds base.old space.old }
    ensures applied { IfOk result (λ a. ServedBy B.S.Space B.holds replica request a base.old base.new space.old space.new walk.old walk.new reply.old reply.new) }
    ensures tight { OnOk result (is_optimize request ≡ true → TightHeld B.S.Space B.holds B.tight Keep base.old base.new space.old space.new) }
    ensures blocked { IfOk result (λ a. (replica && updates request) ≡ true → a.updated ≡ false) }
    ensures leaves { IfOk result (λ a. Leaves B.S.Space B.own B.layout (is_idle request a) space.old space.new) }
    ensures refused { OnErr result (Declines B.S.Space B.holds base.old base.new space.old space.new walk.old walk.new) }
    ensures reply_front { IsPrefix reply.old reply.new }
    ensures full { IsErrOf result RecErr.Full → FillsBy B.S.Space B.holds (B.fills base.old space.old space.new) request base.old space.old (contents_after replica request walk.old) }
    ensures keeps { Keeps B.S.Space space.old space.new }
    ensures cause { OnFault B.S.Space result space.old space.new }
{
    if if_updating(&request, replica) {
        refuse(request, reply)?;
        return Ok(Applied {
            ok: false,
            updated: false,
        });
    }
    base.apply(space, request, walk, reply)
}

// Serves a request that was taken off. Where its bytes were asked for, those of one that updates are given back. A reply that is longer
// than any may be, which none is whose files are told, is want of memory.
#[tactic(auto, using(crate::proofs::Fronts::still_inside, tc_space::specs::Frames::keeps_then, tc_space::specs::Frames::keeps_refl))]
fn serve_request<B: Base>(
    alloc: Global,
    request: Request,
    copied: Option<Blob>,
    waiting: &mut Blob,
    base: &mut B,
    space: &mut B::S,
    walk: &mut Walk,
    replica: bool,
) -> Result<Served, RecErr>
    requires ready { IsReady B.S.Space B.holds base.old space.old }
    requires fits { Fits request }
    ensures served { IfOk result (λ d. ServesRequest B.S.Space B.holds replica request copied d base.old base.new space.old space.new walk.old walk.new waiting.old waiting.new) }
    ensures tight { OnOk result (TightPiece B.S.Space B.holds B.tight (piece.Request request) base.old base.new space.old space.new) }
    ensures leaves { IfOk result (λ d. Leaves B.S.Space B.own B.layout (d.commits ≡ false) space.old space.new) }
    ensures refused { OnErr result (Declines B.S.Space B.holds base.old base.new space.old space.new walk.old walk.new) }
    ensures waiting_front { IsPrefix waiting.old waiting.new }
    ensures full { IsErrOf result RecErr.Full → FillsPiece B.S.Space B.holds (B.fills base.old space.old space.new) replica (piece.Request request) base.old space.old walk.old }
    ensures keeps { Keeps B.S.Space space.old space.new }
    ensures cause { OnFault B.S.Space result space.old space.new }
{
    let packs = is_packing(&request);
    let feeds = asked_feed(&request);
    let label = asked_label(alloc, &request)?;
    let before = waiting.len();
    let applied = answer(base, space, request, walk, replica, waiting)?;
    if waiting.len() - before > most_of(&feeds) {
        space.spoil();
        return Err(RecErr::Memory);
    }
    Ok(Served {
        commits: applied.updated | packs,
        feeds,
        update: kept(copied, applied.updated),
        copy: kept(label, applied.ok),
    })
}

/// Serves a piece that was taken off: a request, or a text command.
pub fn serve_taken<B: Base>(
    alloc: Global,
    taken: Taken,
    waiting: &mut Blob,
    base: &mut B,
    space: &mut B::S,
    walk: &mut Walk,
    replica: bool,
    logs: bool,
) -> Result<Served, RecErr>
    requires ready { IsReady B.S.Space B.holds base.old space.old }
    requires may { MayServe taken logs }
    ensures served { IfOk result (λ d. ServesTaken B.S.Space B.holds taken replica logs d base.old base.new space.old space.new walk.old walk.new waiting.old waiting.new) }
    ensures tight { OnOk result (TightPiece B.S.Space B.holds B.tight taken.piece base.old base.new space.old space.new) }
    ensures leaves { IfOk result (λ d. Leaves B.S.Space B.own B.layout (d.commits ≡ false) space.old space.new) }
    ensures refused { OnErr result (Declines B.S.Space B.holds base.old base.new space.old space.new walk.old walk.new) }
    ensures waiting_front { IsPrefix waiting.old waiting.new }
    ensures full { IsErrOf result RecErr.Full → FillsPiece B.S.Space B.holds (B.fills_since space.old space.new) replica taken.piece base.old space.old walk.old }
    ensures keeps { Keeps B.S.Space space.old space.new }
    ensures cause { OnFault B.S.Space result space.old space.new }
{
    let Taken { piece, copied } = taken;
    match piece {
        Piece::Request { request } => {
            serve_request(alloc, request, copied, waiting, base, space, walk, replica)
        }
        Piece::Text { text } => {
            serve_text(alloc, text, waiting, base, space, walk, replica, logs)
        }
    }
}
