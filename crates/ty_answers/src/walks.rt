//! The walk over the keys.
ghost use Rattle.std.specs.Prelude.{◌≡◌, ◌<◌, length, None, IfSome, MatchOption, OnErr, IfOk};
ghost use Rattle.tc_base.specs.declared.request.Request.TheVariants as request;
ghost use Rattle.tc_space.specs.Frames.{Keeps};
ghost use Rattle.tc_space.specs.Refusals.{Blames};
ghost use Rattle.ty_base.specs.Holding.{IsReady, ReadsHeld, OfHeld};
ghost use Rattle.ty_wire.specs.Prefixes.{IsPrefix};
ghost use Rattle.tc_model.specs.Apply.{next_of};
ghost use Rattle.tc_model.specs.Steps.{IsAt};
ghost use Rattle.tc_model.specs.Walks.{HasKeys};
ghost use Rattle.ty_answers.specs.Walking.{SaysNext};
ghost use Rattle.ty_answers.specs.Steps.{StepsBy};

use crate::failing::fail;
use crate::reads::{done, say_value};
use crate::voice::Voice;
use tc_base::{Blob, Key};
use tc_engine::Engine;
use tc_model::Walk;
use tc_space::RecErr;

/// Begins the walk with the keys as they are now.
pub fn begin<E: Engine>(
    engine: &mut E,
    space: &mut E::S,
    walk: &mut Walk,
    reply: &mut Blob,
) -> Result<bool, RecErr>
    requires { IsReady E.S.Space E.holds engine.old space.old }
    ensures steps { StepsBy E.S.Space E.own E.layout E.holds result request.IterInit engine.old engine.new space.old space.new walk.old walk.new reply.old reply.new }
    ensures reads { ReadsHeld E.S.Space E.holds engine.old engine.new space.old space.new }
    ensures walk { OnErr result (walk.new ≡ walk.old) }
    ensures front { IsPrefix reply.old reply.new }
    ensures keeps { Keeps E.S.Space space.old space.new }
    ensures cause { Blames E.S.Space result space.old space.new }
{
    let keys = engine.keys(space)?;
    let done = done(reply)?;
    walk.set(keys);
    Ok(done)
}

// The place of the first key that is held.
fn first_held<E: Engine>(
    engine: &mut E,
    space: &mut E::S,
    keys: &[Key],
) -> Result<Option<usize>, RecErr>
    requires { IsReady E.S.Space E.holds engine.old space.old }
    ensures place { IfOk result (λ o. OfHeld E.S.Space E.holds engine.old space.old (λ c. MatchOption o (next_of c keys.now ≡ None) (λ i. IsAt c keys.now i))) }
    ensures inside { IfOk result (λ o. IfSome o (λ i. i < length keys.now)) }
    ensures reads { ReadsHeld E.S.Space E.holds engine.old engine.new space.old space.new }
    ensures keeps { Keeps E.S.Space space.old space.new }
    ensures cause { Blames E.S.Space result space.old space.new }
{
    if engine.count() == 0 {
        return Ok(None);
    }
    for (i, key) in keys.iter().enumerate() {
        if engine.value_len(space, key)?.is_some() {
            return Ok(Some(i));
        }
    }
    Ok(None)
}

// Answers the next key of the walk, and gives how many are left behind with it; none where the request failed.
fn say_next<E: Engine>(
    engine: &mut E,
    space: &mut E::S,
    walk: &Walk,
    reply: &mut Blob,
) -> Result<Option<usize>, RecErr>
    requires { IsReady E.S.Space E.holds engine.old space.old }
    ensures says { IfOk result (λ o. OfHeld E.S.Space E.holds engine.old space.old (λ c. SaysNext c walk.now o reply.old reply.new)) }
    ensures there { IfOk result (λ o. IfSome o (λ n. HasKeys n walk.now)) }
    ensures reads { ReadsHeld E.S.Space E.holds engine.old engine.new space.old space.new }
    ensures front { IsPrefix reply.old reply.new }
    ensures keeps { Keeps E.S.Space space.old space.new }
    ensures cause { Blames E.S.Space result space.old space.new }
{
    let Some(keys) = walk.keys() else {
        fail(Voice::Plain, reply)?;
        return Ok(None);
    };
    let Some(place) = first_held(engine, space, keys)? else {
        fail(Voice::Plain, reply)?;
        return Ok(None);
    };
    if !say_value(keys[place].as_slice(), reply)? {
        return Ok(None);
    }
    Ok(Some(place + 1))
}

/// Answers the next key of the walk that is still held, and leaves it behind with those before it. A failed one leaves the walk as it is.
pub fn step<E: Engine>(
    engine: &mut E,
    space: &mut E::S,
    walk: &mut Walk,
    reply: &mut Blob,
) -> Result<bool, RecErr>
    requires { IsReady E.S.Space E.holds engine.old space.old }
    ensures steps { StepsBy E.S.Space E.own E.layout E.holds result request.IterNext engine.old engine.new space.old space.new walk.old walk.new reply.old reply.new }
    ensures reads { ReadsHeld E.S.Space E.holds engine.old engine.new space.old space.new }
    ensures walk { OnErr result (walk.new ≡ walk.old) }
    ensures front { IsPrefix reply.old reply.new }
    ensures keeps { Keeps E.S.Space space.old space.new }
    ensures cause { Blames E.S.Space result space.old space.new }
{
    let Some(n) = say_next(engine, space, walk, reply)? else {
        return Ok(false);
    };
    walk.leave(n);
    Ok(true)
}
