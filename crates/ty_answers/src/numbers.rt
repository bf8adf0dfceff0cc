//! Requests that make a new value of the one that is held.
ghost use Rattle.std.specs.Prelude.{◌≡◌, ◌++◌, true, [], IfOk, unwrap_or};
ghost use Rattle.tc_model.specs.Misc.{tables};
ghost use Rattle.tc_model.specs.Values.{last};
ghost use Rattle.tc_base.specs.declared.request.Reply.TheVariants.{Fail};
ghost use Rattle.tc_space.specs.Frames.{Keeps};
ghost use Rattle.tc_space.specs.Refusals.{OnFault};
ghost use Rattle.ty_base.specs.Holding.{IsReady, RefusesHeld};
ghost use Rattle.ty_wire.specs.Prefixes.{IsPrefix};
ghost use Rattle.ty_answers.specs.Requests.{added, shifted};
ghost use Rattle.ty_answers.specs.Answers.{AnswersBy, FullAnswer};

use crate::changes::store;
use crate::failing::fail;
use crate::reads::say;
use crate::voice::Voice;
use std::alloc::{AllocError, Global};
use tc_base::{Blob, Key, Kind, Mode, Reply};
use tc_engine::Engine;
use tc_model::{last_of, spelled, sum_of};
use tc_space::RecErr;

// The last bytes of a value and more behind it.
fn shifted(alloc: Global, held: Option<Blob>, more: &Blob, width: u32) -> Result<Blob, AllocError>
    ensures { IfOk result (λ b. b ≡ last width (unwrap_or held [] ++ more.now)) }
{
    let mut joined = match held {
        Some(value) => value,
        None => Blob::new(alloc),
    };
    joined.append(more.as_slice())?;
    if joined.len() <= width as usize {
        return Ok(joined);
    }
    Blob::from_slice(alloc, last_of(joined.as_slice(), width as usize))
}

// Whether it is that of tables.
fn is_table(kind: Kind) -> bool
    ensures { result ≡ tables kind }
{
    matches!(kind, Kind::Table)
}

/// Joins a value behind that of a key, and keeps the last bytes. A table has rows and no values to join.
pub fn shift<E: Engine>(
    alloc: Global,
    engine: &mut E,
    space: &mut E::S,
    key: Key,
    value: &Blob,
    width: u32,
    reply: &mut Blob,
) -> Result<bool, RecErr>
    requires { IsReady E.S.Space E.holds engine.old space.old }
    ensures answers { AnswersBy E.S.Space E.own E.layout E.holds result (shifted key value.now width) Fail true engine.old engine.new space.old space.new reply.old reply.new }
    ensures refused { RefusesHeld E.S.Space E.holds result engine.old engine.new space.old space.new }
    ensures front { IsPrefix reply.old reply.new }
    ensures full { FullAnswer E.S.Space E.holds E.fills result (shifted key value.now width) engine.old space.old space.new }
    ensures keeps { Keeps E.S.Space space.old space.new }
    ensures cause { OnFault E.S.Space result space.old space.new }
{
    if is_table(engine.kind()) {
        return fail(Voice::Plain, reply);
    }
    let held = engine.value(space, &key)?;
    let after = shifted(alloc, held, value, width)?;
    store(engine, space, Voice::Plain, Mode::Over, key, after, reply)
}

/// Adds to the number that a key holds in four bytes, and answers the sum.
pub fn add<E: Engine>(
    alloc: Global,
    engine: &mut E,
    space: &mut E::S,
    key: Key,
    number: u32,
    reply: &mut Blob,
) -> Result<bool, RecErr>
    requires { IsReady E.S.Space E.holds engine.old space.old }
    ensures answers { AnswersBy E.S.Space E.own E.layout E.holds result (added key number) Fail true engine.old engine.new space.old space.new reply.old reply.new }
    ensures refused { RefusesHeld E.S.Space E.holds result engine.old engine.new space.old space.new }
    ensures front { IsPrefix reply.old reply.new }
    ensures full { FullAnswer E.S.Space E.holds E.fills result (added key number) engine.old space.old space.new }
    ensures keeps { Keeps E.S.Space space.old space.new }
    ensures cause { OnFault E.S.Space result space.old space.new }
{
    if !engine.takes_numbers() {
        return fail(Voice::Plain, reply);
    }
    let held = engine.value(space, &key)?;
    let Some(sum) = sum_of(&held, number) else {
        return fail(Voice::Plain, reply);
    };
    let value = spelled(alloc, sum)?;
    let begin = reply.len();
    say(Reply::Four { number: sum }, reply)?;
    let done = engine.store(space, Mode::Over, key, value)?;
    Voice::Plain.close(begin, done, reply)?;
    Ok(done)
}
