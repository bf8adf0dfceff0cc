//! A text command, served: the value of its key is got, and then at most one request that updates is made.
ghost use Rattle.std.specs.Prelude.{◌≡◌, ◌≤◌, ◌+◌, ◌++◌, false, true, OnOk, OnErr, IfOk, IsErrOf, length, take, Some, None, if◌then◌else◌};
ghost use Rattle.tc_space.specs.Frames.{Keeps};
ghost use Rattle.tc_space.specs.Refusals.{OnFault};
ghost use Rattle.ty_wire.specs.Prefixes.{IsPrefix};
ghost use Rattle.ty_wire.specs.Spelling.{spelling, Fits};
ghost use Rattle.ty_memc.specs.declared.text.Piece.TheVariants as piece;
ghost use Rattle.ty_memc.specs.Answers.{IsAsked, server_error};
ghost use Rattle.ty_memc.specs.Seen.{seen_value};
ghost use Rattle.ty_base.specs.Holding.{Declines, IsReady, Leaves, ReadsHeld};
ghost use Rattle.ty_core.specs.Serving.{AsksFit, FillsPiece, ServesPiece};
ghost use Rattle.ty_core.specs.Texts.{AddsLines, AddsValues, Fetches, FetchesFirst, FillsThen, GathersAll, IsPlain, ServesThen, ended, value_if};

use crate::serving::{Served, answer, kept};
use std::alloc::{AllocError, Global};
use tc_base::{Blob, Key, Keys, Request};
use tc_model::Walk;
use tc_space::{RecErr, Space};
use ty_base::Base;
use ty_memc::{
    Text, Then, answer as answer_text, asked_key, quiet, spell_update, write_error, write_value,
};

// A value stands behind so many bytes in the reply to a get.
const VALUE_AT: usize = 5;

// The lines of values in the reply to a get have at most so many bytes, without the five of its end.
const LINES_MOST: usize = 67_108_859;

// Nothing is left to do.
fn nothing() -> Served
    ensures commits { result.commits ≡ false }
    ensures feeds { result.feeds ≡ None }
    ensures update { result.update ≡ None }
    ensures copy { result.copy ≡ None }
{
    Served {
        commits: false,
        feeds: None,
        update: None,
        copy: None,
    }
}

// Gets the value of a key into a buffer, where it has one. The walk of the server has no part in it. A get that updates, which none does
// whose files are told, is want of memory.
fn fetch<B: Base>(base: &mut B, space: &mut B::S, key: Key, into: &mut Blob) -> Result<bool, RecErr>
    requires ready { IsReady B.S.Space B.holds base.old space.old }
    ensures reads { OnOk result (ReadsHeld B.S.Space B.holds base.old base.new space.old space.new) }
    ensures got { IfOk result (λ is. Fetches B.S.Space B.holds base.old space.old key is into.new) }
    ensures refused { OnErr result (Declines B.S.Space B.holds base.old base.new space.old space.new None None) }
    ensures not_full { IsErrOf result RecErr.Full → ⊥ }
    ensures keeps { Keeps B.S.Space space.old space.new }
    ensures cause { OnFault B.S.Space result space.old space.new }
{
    into.clear();
    let mut none = Walk::new();
    let applied = base.apply(space, Request::Get { key }, &mut none, into)?;
    if applied.updated {
        space.spoil();
        return Err(RecErr::Memory);
    }
    Ok(applied.ok)
}

// The value behind the first bytes of the reply to a get, where there is one.
fn value_of(bytes: &[u8], is_held: bool) -> Option<&[u8]>
    ensures { (is_held ≡ true → 5 ≤ length bytes.now) → seen_value result ≡ value_if is_held bytes.now }
{
    if !is_held {
        return None;
    }
    if bytes.len() < VALUE_AT {
        return None;
    }
    Some(&bytes[VALUE_AT..])
}

// ---- a get

// Adds the lines of a key, where it is held.
fn add_lines<B: Base>(
    alloc: Global,
    key: &Key,
    buffer: &mut Blob,
    waiting: &mut Blob,
    base: &mut B,
    space: &mut B::S,
) -> Result<(), RecErr>
    requires ready { IsReady B.S.Space B.holds base.old space.old }
    ensures adds { OnOk result (AddsLines B.S.Space B.holds base.old space.old key.now waiting.old waiting.new) }
    ensures reads { OnOk result (ReadsHeld B.S.Space B.holds base.old base.new space.old space.new) }
    ensures ready { OnOk result (IsReady B.S.Space B.holds base.new space.new) }
    ensures refused { OnErr result (Declines B.S.Space B.holds base.old base.new space.old space.new None None) }
    ensures waiting_front { IsPrefix waiting.old waiting.new }
    ensures not_full { IsErrOf result RecErr.Full → ⊥ }
    ensures keeps { Keeps B.S.Space space.old space.new }
    ensures cause { OnFault B.S.Space result space.old space.new }
{
    let asked = Key::from_slice(alloc, key.as_slice())?;
    let is_held = fetch(base, space, asked, buffer)?;
    match value_of(buffer.as_slice(), is_held) {
        Some(value) => Ok(write_value(key.as_slice(), value, waiting)?),
        None => Ok(()),
    }
}

// Adds the lines of keys, one after the other, until they are too many for a reply. Answers whether all came.
fn gather_lines<B: Base>(
    alloc: Global,
    keys: &Keys,
    waiting: &mut Blob,
    base: &mut B,
    space: &mut B::S,
) -> Result<bool, RecErr>
    requires ready { IsReady B.S.Space B.holds base.old space.old }
    ensures gathers { IfOk result (λ fits. GathersAll B.S.Space B.holds base.old space.old keys.now fits waiting.old waiting.new) }
    ensures few { IfOk result (λ fits. fits ≡ true → length waiting.new + 5 ≤ length waiting.old + 67108864) }
    ensures reads { OnOk result (ReadsHeld B.S.Space B.holds base.old base.new space.old space.new) }
    ensures refused { OnErr result (Declines B.S.Space B.holds base.old base.new space.old space.new None None) }
    ensures waiting_front { IsPrefix waiting.old waiting.new }
    ensures not_full { IsErrOf result RecErr.Full → ⊥ }
    ensures keeps { Keeps B.S.Space space.old space.new }
    ensures cause { OnFault B.S.Space result space.old space.new }
{
    let before = waiting.len();
    let mut buffer = Blob::new(alloc);
    for key in keys.as_slice() {
        add_lines(alloc, key, &mut buffer, waiting, base, space)?;
        let added = waiting.len() - before;
        if added > LINES_MOST {
            return Ok(false);
        }
    }
    Ok(true)
}

// Ends the lines of values; where they don't fit an error comes in place of what stands behind the first bytes.
fn end_lines(waiting: &mut Blob, before: usize, fits: bool) -> Result<(), AllocError>
    ensures ok { OnOk result (waiting.new ≡ ended fits before waiting.old) }
    ensures err { OnErr result (IsPrefix (take before waiting.old) waiting.new) }
{
    if fits {
        return waiting.append(b"END\r\n");
    }
    waiting.truncate(before);
    write_error(false, waiting)
}

// Replies the values of keys, of which those that aren't held are left out; an error where that is too long.
fn serve_get<B: Base>(
    alloc: Global,
    keys: &Keys,
    waiting: &mut Blob,
    base: &mut B,
    space: &mut B::S,
) -> Result<(), RecErr>
    requires ready { IsReady B.S.Space B.holds base.old space.old }
    ensures adds { OnOk result (AddsValues B.S.Space B.holds base.old space.old keys.now waiting.old waiting.new) }
    ensures few { OnOk result (length waiting.new ≤ length waiting.old + 67108864) }
    ensures reads { OnOk result (ReadsHeld B.S.Space B.holds base.old base.new space.old space.new) }
    ensures refused { OnErr result (Declines B.S.Space B.holds base.old base.new space.old space.new None None) }
    ensures waiting_front { IsPrefix waiting.old waiting.new }
    ensures not_full { IsErrOf result RecErr.Full → ⊥ }
    ensures keeps { Keeps B.S.Space space.old space.new }
    ensures cause { OnFault B.S.Space result space.old space.new }
{
    let before = waiting.len();
    let fits = gather_lines(alloc, keys, waiting, base, space)?;
    end_lines(waiting, before, fits)?;
    Ok(())
}

// ---- the other commands

// The bytes of a request where they are asked for.
fn record_of(alloc: Global, request: &Request, asked: bool) -> Result<Option<Blob>, AllocError>
    requires asked { IsAsked request.now }
    requires fits { Fits request.now }
    ensures { IfOk result (λ o. o ≡ (if asked then Some (spelling request.now) else None)) }
{
    if !asked {
        return Ok(None);
    }
    Ok(Some(spell_update(alloc, request)?))
}

// Adds a reply where a test holds, else that of an error. An `Err` changes nothing.
fn reply_by(waiting: &mut Blob, holds: bool, reply: &Blob, quiet: bool) -> Result<(), AllocError>
    ensures ok { OnOk result (waiting.new ≡ waiting.old ++ (if holds then reply.now else server_error quiet)) }
    ensures err { OnErr result (waiting.new ≡ waiting.old) }
{
    if holds {
        return waiting.append(reply.as_slice());
    }
    write_error(quiet, waiting)
}

// Makes the request that a text command asks for, and replies by whether it succeeds.
fn make<B: Base>(
    alloc: Global,
    request: Request,
    reply: &Blob,
    quiet: bool,
    waiting: &mut Blob,
    base: &mut B,
    space: &mut B::S,
    walk: &mut Walk,
    replica: bool,
    logs: bool,
) -> Result<Served, RecErr>
    requires ready { IsReady B.S.Space B.holds base.old space.old }
    requires asked { IsAsked request }
    requires fits { Fits request }
    requires short { length reply.now ≤ 67108864 }
    ensures served { IfOk result (λ d. ServesThen B.S.Space B.holds replica logs request quiet reply.now d base.old base.new space.old space.new walk.old walk.new waiting.old waiting.new) }
    ensures leaves { IfOk result (λ d. Leaves B.S.Space B.own B.layout (d.commits ≡ false) space.old space.new) }
    ensures refused { OnErr result (Declines B.S.Space B.holds base.old base.new space.old space.new walk.old walk.new) }
    ensures waiting_front { IsPrefix waiting.old waiting.new }
    ensures full { IsErrOf result RecErr.Full → FillsThen B.S.Space B.holds (B.fills base.old space.old space.new) replica request base.old space.old walk.old }
    ensures keeps { Keeps B.S.Space space.old space.new }
    ensures cause { OnFault B.S.Space result space.old space.new }
{
    let record = record_of(alloc, &request, logs)?;
    let mut bytes = Blob::new(alloc);
    let applied = answer(base, space, request, walk, replica, &mut bytes)?;
    let Ok(()) = reply_by(waiting, applied.ok, reply, quiet) else {
        space.spoil();
        return Err(RecErr::Memory);
    };
    Ok(Served {
        commits: applied.updated,
        feeds: None,
        update: kept(record, applied.updated),
        copy: None,
    })
}

// Gets the value that a command asks for first.
fn fetch_first<B: Base>(
    alloc: Global,
    base: &mut B,
    space: &mut B::S,
    text: &Text,
    into: &mut Blob,
) -> Result<bool, RecErr>
    requires ready { IsReady B.S.Space B.holds base.old space.old }
    ensures reads { OnOk result (ReadsHeld B.S.Space B.holds base.old base.new space.old space.new) }
    ensures got { IfOk result (λ is. FetchesFirst B.S.Space B.holds base.old space.old text.now is into.new) }
    ensures ready { OnOk result (IsReady B.S.Space B.holds base.new space.new) }
    ensures refused { OnErr result (Declines B.S.Space B.holds base.old base.new space.old space.new None None) }
    ensures not_full { IsErrOf result RecErr.Full → ⊥ }
    ensures keeps { Keeps B.S.Space space.old space.new }
    ensures cause { OnFault B.S.Space result space.old space.new }
{
    match asked_key(alloc, text)? {
        Some(key) => fetch(base, space, key, into),
        None => Ok(false),
    }
}

// Serves a text command that is no get.
fn serve_plain<B: Base>(
    alloc: Global,
    text: Text,
    waiting: &mut Blob,
    base: &mut B,
    space: &mut B::S,
    walk: &mut Walk,
    replica: bool,
    logs: bool,
) -> Result<Served, RecErr>
    requires ready { IsReady B.S.Space B.holds base.old space.old }
    requires plain { IsPlain text }
    requires fits { AsksFit text }
    ensures served { IfOk result (λ d. ServesPiece B.S.Space B.holds replica logs (piece.Text text) d base.old base.new space.old space.new walk.old walk.new waiting.old waiting.new) }
    ensures leaves { IfOk result (λ d. Leaves B.S.Space B.own B.layout (d.commits ≡ false) space.old space.new) }
    ensures refused { OnErr result (Declines B.S.Space B.holds base.old base.new space.old space.new walk.old walk.new) }
    ensures waiting_front { IsPrefix waiting.old waiting.new }
    ensures full { IsErrOf result RecErr.Full → FillsPiece B.S.Space B.holds (B.fills_since space.old space.new) replica (piece.Text text) base.old space.old walk.old }
    ensures keeps { Keeps B.S.Space space.old space.new }
    ensures cause { OnFault B.S.Space result space.old space.new }
{
    let is_quiet = quiet(&text);
    let mut bytes = Blob::new(alloc);
    let is_held = fetch_first(alloc, base, space, &text, &mut bytes)?;
    match answer_text(alloc, text, value_of(bytes.as_slice(), is_held))? {
        Then::Say { reply } => {
            waiting.append(reply.as_slice())?;
            Ok(nothing())
        }
        Then::Do { request, reply } => make(
            alloc, request, &reply, is_quiet, waiting, base, space, walk, replica, logs,
        ),
    }
}

/// Serves a text command. Of one that updated the bytes of its request are given back where `logs` is set.
#[inline(never)]
pub fn serve_text<B: Base>(
    alloc: Global,
    text: Text,
    waiting: &mut Blob,
    base: &mut B,
    space: &mut B::S,
    walk: &mut Walk,
    replica: bool,
    logs: bool,
) -> Result<Served, RecErr>
    requires ready { IsReady B.S.Space B.holds base.old space.old }
    requires fits { AsksFit text }
    ensures served { IfOk result (λ d. ServesPiece B.S.Space B.holds replica logs (piece.Text text) d base.old base.new space.old space.new walk.old walk.new waiting.old waiting.new) }
    ensures leaves { IfOk result (λ d. Leaves B.S.Space B.own B.layout (d.commits ≡ false) space.old space.new) }
    ensures refused { OnErr result (Declines B.S.Space B.holds base.old base.new space.old space.new walk.old walk.new) }
    ensures waiting_front { IsPrefix waiting.old waiting.new }
    ensures full { IsErrOf result RecErr.Full → FillsPiece B.S.Space B.holds (B.fills_since space.old space.new) replica (piece.Text text) base.old space.old walk.old }
    ensures keeps { Keeps B.S.Space space.old space.new }
    ensures cause { OnFault B.S.Space result space.old space.new }
{
    match text {
        Text::Get { keys } => {
            serve_get(alloc, &keys, waiting, base, space)?;
            Ok(nothing())
        }
        text => serve_plain(alloc, text, waiting, base, space, walk, replica, logs),
    }
}
