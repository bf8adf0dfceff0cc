//! Requests on contents.
ghost use Rattle.std.specs.Prelude.{◌≡◌, ◌+◌, ◌<◌, ◌++◌, IfOk, OnOk, OnErr, MatchOption, None, false, length};
ghost use Rattle.tc_base.specs.declared.request.Request.TheVariants as request;
ghost use Rattle.tc_base.specs.declared.request.Reply.TheVariants as reply;
ghost use Rattle.ty_wire.specs.Spelling.{HasSpelling, reply_bytes};
ghost use Rattle.tc_model.specs.Contents as model;
ghost use Rattle.tc_model.specs.Apply.{apply, applied, effect, fits, next_in, next_of, refusal_of, refused, took};
ghost use Rattle.tc_model.specs.Applying.{Applies};
ghost use Rattle.tc_model.specs.Replay.{after, replayed};
ghost use Rattle.tc_model.specs.Steps.{IsAt, IsNext};
ghost use Rattle.tc_plain.specs.Bodies.{way_of};
ghost use Rattle.tc_plain.specs.Views.{contents_of};

use crate::contents::{Contents, Data};
use crate::effects::{effect_of, updates};
use crate::maps::Copied;
use crate::reads::{all_keys, is_held};
use std::alloc::{AllocError, Global};
use tc_base::{Blob, Key, Pair, REPLY_MOST, Reply, Request};
use tc_model::{Applied, Walk};
use ty_wire::write_reply;

// A reply's first byte and a count or size behind it.
const FRONT: usize = 5;

// The reply to a request that failed.
fn refusal(r: &Request) -> Reply
    ensures reply { result ≡ refusal_of r.now }
    ensures short { HasSpelling result }
{
    match r {
        Request::PutNr { .. } => Reply::Silent,
        Request::Misc { .. } => Reply::FailMisc,
        _ => Reply::Fail,
    }
}

// Adds the bytes of a reply. An `Err` changes nothing.
fn say(answer: Reply, into: &mut Blob) -> Result<(), AllocError>
    requires { HasSpelling answer }
    ensures ok { OnOk result (into.new ≡ into.old ++ reply_bytes answer) }
    ensures err { OnErr result (into.new ≡ into.old) }
{
    let said = write_reply(&answer, into);
    drop(answer);
    said
}

// Answers a request that failed.
fn refuse(r: &Request, reply: &mut Blob) -> Result<Applied, AllocError>
    ensures ok { IfOk result (λ a. (c : model.Contents) (w : model.Walk) → Applies (refused r.now c w) r.now a c w reply.old reply.new) }
    ensures err { OnErr result (reply.new ≡ reply.old) }
{
    say(refusal(r), reply)?;
    Ok(Applied {
        ok: false,
        updated: false,
    })
}

// What is left of the room behind so many bytes and their size.
fn room_behind(front: usize, len: usize, room: usize) -> Option<usize>
    ensures { MatchOption result (room < front + len) (λ n. n + (front + len) ≡ room) }
{
    room.checked_sub(front)?.checked_sub(len)
}

#[tactic(auto, using(crate::proofs::Fitting::items_step))]
fn items_fit(items: &[Blob]) -> bool
    ensures { result ≡ fits (reply.List items.now) }
{
    let mut room = REPLY_MOST - FRONT;
    for item in items {
        let Some(rest) = room_behind(4, item.len(), room) else {
            return false;
        };
        room = rest;
    }
    true
}

// What is left of the room behind a pair and its sizes.
fn room_behind_pair(pair: &Pair, room: usize) -> Option<usize>
    ensures { MatchOption result (room < 8 + (length pair.now.key + length pair.now.value)) (λ n. n + (8 + (length pair.now.key + length pair.now.value)) ≡ room) }
{
    room.checked_sub(8)?
        .checked_sub(pair.key.len())?
        .checked_sub(pair.value.len())
}

#[tactic(auto, using(crate::proofs::Fitting::pairs_step))]
fn pairs_fit(pairs: &[Pair]) -> bool
    ensures { result ≡ fits (reply.Pairs pairs.now) }
{
    let mut room = REPLY_MOST - FRONT;
    for pair in pairs {
        let Some(rest) = room_behind_pair(pair, room) else {
            return false;
        };
        room = rest;
    }
    true
}

// Whether a reply is no longer than the limit.
fn fits(answer: &Reply) -> bool
    ensures { result ≡ fits answer.now }
{
    match answer {
        Reply::Value { value } => value.len() <= REPLY_MOST - FRONT,
        Reply::List { items } => items_fit(items.as_slice()),
        Reply::Pairs { pairs } => pairs_fit(pairs.as_slice()),
        Reply::Fail => true,
        Reply::FailMisc => true,
        Reply::Silent => true,
        Reply::Done => true,
        Reply::Four { .. } => true,
        Reply::Eight { .. } => true,
    }
}

// A request whose effect is on contents.
#[tactic(auto, using(crate::proofs::Taking::short))]
fn take_effect(
    alloc: Global,
    c: &mut Contents,
    r: &Request,
    reply: &mut Blob,
) -> Result<Applied, AllocError>
    ensures ok { IfOk result (λ a. (w : model.Walk) → Applies (took r.now (effect r.now c.old) c.old w) r.now a c.new w reply.old reply.new) }
    ensures contents { OnErr result (c.new ≡ c.old) }
    ensures reply { OnErr result (reply.new ≡ reply.old) }
{
    let before = c.data.copied(alloc)?;
    let Some(e) = effect_of(alloc, r, before)? else {
        return refuse(r, reply);
    };
    if !fits(&e.answer) {
        drop(e);
        return refuse(r, reply);
    }
    say(e.answer, reply)?;
    c.data = e.after;
    Ok(Applied {
        ok: true,
        updated: updates(r),
    })
}

// Begins the walk.
fn begin(
    alloc: Global,
    c: &Contents,
    walk: &mut Walk,
    reply: &mut Blob,
) -> Result<Applied, AllocError>
    ensures ok { IfOk result (λ a. Applies (applied request.IterInit c.now walk.old) request.IterInit a c.now walk.new reply.old reply.new) }
    ensures walk { OnErr result (walk.new ≡ walk.old) }
    ensures reply { OnErr result (reply.new ≡ reply.old) }
{
    let keys = all_keys(alloc, &c.data)?;
    say(Reply::Done, reply)?;
    walk.set(keys);
    Ok(Applied {
        ok: true,
        updated: false,
    })
}

// The place of the first key that is held.
fn first_held(alloc: Global, stored: &Data, keys: &[Key]) -> Result<Option<usize>, AllocError>
    ensures { IfOk result (λ o. MatchOption o (next_of (contents_of stored.now) keys.now ≡ None) (λ i. IsAt (contents_of stored.now) keys.now i)) }
{
    for (i, key) in keys.iter().enumerate() {
        if is_held(alloc, stored, key.as_slice())? {
            return Ok(Some(i));
        }
    }
    Ok(None)
}

// The next key of the walk, and how many are left behind with it.
fn next_key(alloc: Global, c: &Contents, walk: &Walk) -> Result<Option<(usize, Blob)>, AllocError>
    ensures { IfOk result (λ o. MatchOption o (next_in c.now walk.now ≡ None) (λ x. IsNext c.now walk.now x.0 x.1)) }
{
    let Some(keys) = walk.keys() else {
        return Ok(None);
    };
    let Some(place) = first_held(alloc, &c.data, keys)? else {
        return Ok(None);
    };
    Ok(Some((place + 1, Blob::from_slice(alloc, keys[place].as_slice())?)))
}

// Gives the next key of the walk.
#[tactic(auto, using(crate::proofs::Taking::short))]
fn step(
    alloc: Global,
    c: &Contents,
    walk: &mut Walk,
    reply: &mut Blob,
) -> Result<Applied, AllocError>
    ensures ok { IfOk result (λ a. Applies (applied request.IterNext c.now walk.old) request.IterNext a c.now walk.new reply.old reply.new) }
    ensures walk { OnErr result (walk.new ≡ walk.old) }
    ensures reply { OnErr result (reply.new ≡ reply.old) }
{
    let Some((n, value)) = next_key(alloc, c, walk)? else {
        return refuse(&Request::IterNext, reply);
    };
    let answer = Reply::Value { value };
    if !fits(&answer) {
        drop(answer);
        return refuse(&Request::IterNext, reply);
    }
    say(answer, reply)?;
    walk.leave(n);
    Ok(Applied {
        ok: true,
        updated: false,
    })
}

/// How a request is applied.
#[derive(Clone, Copy)]
pub enum Way {
    /// It begins the walk.
    Begin,
    /// It asks for the walk's next key.
    Step,
    /// It is answered where the connection is.
    Link,
    /// It has an effect on contents.
    Plain,
}

fn way_of(r: &Request) -> Way
    ensures { result ≡ way_of r.now }
{
    match r {
        Request::IterInit => Way::Begin,
        Request::IterNext => Way::Step,
        Request::Repl { .. } => Way::Link,
        _ => Way::Plain,
    }
}

/// Applies a request, and adds its reply. On an `Err` contents, walk and reply stay.
#[tactic(auto, using(crate::proofs::Taking::begin_only, crate::proofs::Taking::step_only, crate::proofs::Taking::link_only), unfolding(tc_model::specs::Apply::apply))]
pub fn apply_plain(
    alloc: Global,
    c: &mut Contents,
    walk: &mut Walk,
    r: &Request,
    reply: &mut Blob,
) -> Result<Applied, AllocError>
    ensures ok { IfOk result (λ a. Applies (apply false r.now c.old walk.old) r.now a c.new walk.new reply.old reply.new) }
    ensures contents { OnErr result (c.new ≡ c.old) }
    ensures walk { OnErr result (walk.new ≡ walk.old) }
    ensures reply { OnErr result (reply.new ≡ reply.old) }
{
    match way_of(r) {
        Way::Begin => begin(alloc, c, walk, reply),
        Way::Step => step(alloc, c, walk, reply),
        Way::Link => Ok(Applied {
            ok: true,
            updated: false,
        }),
        Way::Plain => take_effect(alloc, c, r, reply),
    }
}

// Applies a request with no walk, whatever it is answered.
fn replay_one(alloc: Global, c: Contents, r: &Request) -> Result<Contents, AllocError>
    ensures { IfOk result (λ d. d ≡ after c r.now) }
{
    let mut after = c;
    let mut walk = Walk::new();
    let mut reply = Blob::new(alloc);
    apply_plain(alloc, &mut after, &mut walk, r, &mut reply)?;
    Ok(after)
}

/// The contents after the requests of a list, one after the other, each with no walk.
#[tactic(auto, unfolding(tc_model::specs::Replay::replayed))]
pub fn replay(alloc: Global, c: Contents, requests: &[Request]) -> Result<Contents, AllocError>
    ensures { IfOk result (λ d. d ≡ replayed c requests.now) }
{
    let mut now = c;
    for r in requests {
        now = replay_one(alloc, now, r)?;
    }
    Ok(now)
}
