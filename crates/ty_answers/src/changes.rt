//! Requests that change contents in one call of the engine.
ghost use Rattle.std.specs.Prelude.{true, Some, OnOk};
ghost use Rattle.tc_space.specs.Frames.{Keeps};
ghost use Rattle.tc_space.specs.Refusals.{OnFault, OnlyLogIsFull};
ghost use Rattle.ty_base.specs.Holding.{IsReady, RefusesHeld, TightHeld};
ghost use Rattle.ty_wire.specs.Prefixes.{IsPrefix};
ghost use Rattle.tc_engine.specs.Changes.{all_cleared, all_gone, all_pushed, all_stored, index_set, pushed, row_stored, stored, taken};
ghost use Rattle.tc_base.specs.declared.kind.Form.TheVariants.{Keep};
ghost use Rattle.tc_base.specs.declared.request.Reply.TheVariants as answer;
ghost use Rattle.ty_answers.specs.Answers.{AnswersBy, AnswersChange, FullChange, told_by};

use crate::reads::done;
use crate::voice::Voice;
use tc_base::{Blob, Blobs, Form, Key, Mode, Pairs};
use tc_engine::Engine;
use tc_space::RecErr;

/// Gives a key a value.
pub fn store<E: Engine>(
    engine: &mut E,
    space: &mut E::S,
    voice: Voice,
    mode: Mode,
    key: Key,
    value: Blob,
    reply: &mut Blob,
) -> Result<bool, RecErr>
    requires { IsReady E.S.Space E.holds engine.old space.old }
    ensures answers { AnswersChange E.S.Space E.own E.layout E.holds result voice (stored mode key value) engine.old engine.new space.old space.new reply.old reply.new }
    ensures refused { RefusesHeld E.S.Space E.holds result engine.old engine.new space.old space.new }
    ensures front { IsPrefix reply.old reply.new }
    ensures full { FullChange E.S.Space E.holds E.fills result voice (stored mode key value) engine.old space.old space.new }
    ensures keeps { Keeps E.S.Space space.old space.new }
    ensures cause { OnFault E.S.Space result space.old space.new }
{
    let begin = reply.len();
    voice.say(reply)?;
    let done = engine.store(space, mode, key, value)?;
    voice.close(begin, done, reply)?;
    Ok(done)
}

/// Adds a value behind those that a tree has of a key.
pub fn push<E: Engine>(
    engine: &mut E,
    space: &mut E::S,
    voice: Voice,
    key: Key,
    value: Blob,
    reply: &mut Blob,
) -> Result<bool, RecErr>
    requires { IsReady E.S.Space E.holds engine.old space.old }
    ensures answers { AnswersChange E.S.Space E.own E.layout E.holds result voice (pushed key value) engine.old engine.new space.old space.new reply.old reply.new }
    ensures refused { RefusesHeld E.S.Space E.holds result engine.old engine.new space.old space.new }
    ensures front { IsPrefix reply.old reply.new }
    ensures full { FullChange E.S.Space E.holds E.fills result voice (pushed key value) engine.old space.old space.new }
    ensures keeps { Keeps E.S.Space space.old space.new }
    ensures cause { OnFault E.S.Space result space.old space.new }
{
    let begin = reply.len();
    voice.say(reply)?;
    let done = engine.push(space, key, value)?;
    voice.close(begin, done, reply)?;
    Ok(done)
}

/// Takes a key out, of a tree its first value.
pub fn out<E: Engine>(
    engine: &mut E,
    space: &mut E::S,
    voice: Voice,
    key: &Key,
    reply: &mut Blob,
) -> Result<bool, RecErr>
    requires { IsReady E.S.Space E.holds engine.old space.old }
    ensures answers { AnswersChange E.S.Space E.own E.layout E.holds result voice (taken key.now) engine.old engine.new space.old space.new reply.old reply.new }
    ensures refused { RefusesHeld E.S.Space E.holds result engine.old engine.new space.old space.new }
    ensures front { IsPrefix reply.old reply.new }
    ensures full { FullChange E.S.Space E.holds E.fills result voice (taken key.now) engine.old space.old space.new }
    ensures keeps { Keeps E.S.Space space.old space.new }
    ensures cause { OnFault E.S.Space result space.old space.new }
{
    let begin = reply.len();
    voice.say(reply)?;
    let done = engine.out(space, key)?;
    voice.close(begin, done, reply)?;
    Ok(done)
}

/// Gives each key its value, or none.
pub fn store_all<E: Engine>(
    engine: &mut E,
    space: &mut E::S,
    voice: Voice,
    pairs: Pairs,
    reply: &mut Blob,
) -> Result<bool, RecErr>
    requires { IsReady E.S.Space E.holds engine.old space.old }
    ensures answers { AnswersChange E.S.Space E.own E.layout E.holds result voice (all_stored pairs) engine.old engine.new space.old space.new reply.old reply.new }
    ensures refused { RefusesHeld E.S.Space E.holds result engine.old engine.new space.old space.new }
    ensures front { IsPrefix reply.old reply.new }
    ensures full { FullChange E.S.Space E.holds E.fills result voice (all_stored pairs) engine.old space.old space.new }
    ensures keeps { Keeps E.S.Space space.old space.new }
    ensures cause { OnFault E.S.Space result space.old space.new }
{
    let begin = reply.len();
    voice.say(reply)?;
    let done = engine.store_all(space, pairs)?;
    voice.close(begin, done, reply)?;
    Ok(done)
}

/// Adds each value behind those of its key, or none.
pub fn push_all<E: Engine>(
    engine: &mut E,
    space: &mut E::S,
    voice: Voice,
    pairs: Pairs,
    reply: &mut Blob,
) -> Result<bool, RecErr>
    requires { IsReady E.S.Space E.holds engine.old space.old }
    ensures answers { AnswersChange E.S.Space E.own E.layout E.holds result voice (all_pushed pairs) engine.old engine.new space.old space.new reply.old reply.new }
    ensures refused { RefusesHeld E.S.Space E.holds result engine.old engine.new space.old space.new }
    ensures front { IsPrefix reply.old reply.new }
    ensures full { FullChange E.S.Space E.holds E.fills result voice (all_pushed pairs) engine.old space.old space.new }
    ensures keeps { Keeps E.S.Space space.old space.new }
    ensures cause { OnFault E.S.Space result space.old space.new }
{
    let begin = reply.len();
    voice.say(reply)?;
    let done = engine.push_all(space, pairs)?;
    voice.close(begin, done, reply)?;
    Ok(done)
}

/// Gives a key of a table a row.
pub fn store_row<E: Engine>(
    engine: &mut E,
    space: &mut E::S,
    voice: Voice,
    mode: Mode,
    key: Key,
    columns: Pairs,
    reply: &mut Blob,
) -> Result<bool, RecErr>
    requires { IsReady E.S.Space E.holds engine.old space.old }
    ensures answers { AnswersChange E.S.Space E.own E.layout E.holds result voice (row_stored mode key columns) engine.old engine.new space.old space.new reply.old reply.new }
    ensures refused { RefusesHeld E.S.Space E.holds result engine.old engine.new space.old space.new }
    ensures front { IsPrefix reply.old reply.new }
    ensures full { FullChange E.S.Space E.holds E.fills result voice (row_stored mode key columns) engine.old space.old space.new }
    ensures keeps { Keeps E.S.Space space.old space.new }
    ensures cause { OnFault E.S.Space result space.old space.new }
{
    let begin = reply.len();
    voice.say(reply)?;
    let done = engine.store_row(space, mode, key, columns)?;
    voice.close(begin, done, reply)?;
    Ok(done)
}

/// Sets the index of a column of a table, or takes it away.
pub fn set_index<E: Engine>(
    engine: &mut E,
    space: &mut E::S,
    voice: Voice,
    column: Blob,
    code: &Blob,
    reply: &mut Blob,
) -> Result<bool, RecErr>
    requires { IsReady E.S.Space E.holds engine.old space.old }
    ensures answers { AnswersChange E.S.Space E.own E.layout E.holds result voice (index_set column code.now) engine.old engine.new space.old space.new reply.old reply.new }
    ensures refused { RefusesHeld E.S.Space E.holds result engine.old engine.new space.old space.new }
    ensures front { IsPrefix reply.old reply.new }
    ensures full { FullChange E.S.Space E.holds E.fills result voice (index_set column code.now) engine.old space.old space.new }
    ensures keeps { Keeps E.S.Space space.old space.new }
    ensures cause { OnFault E.S.Space result space.old space.new }
{
    let begin = reply.len();
    voice.say(reply)?;
    let done = engine.set_index(space, column, code)?;
    voice.close(begin, done, reply)?;
    Ok(done)
}

/// Takes out what is held of each key.
pub fn clear_all<E: Engine>(
    engine: &mut E,
    space: &mut E::S,
    voice: Voice,
    keys: Blobs,
    reply: &mut Blob,
) -> Result<bool, RecErr>
    requires { IsReady E.S.Space E.holds engine.old space.old }
    ensures answers { AnswersChange E.S.Space E.own E.layout E.holds result voice (all_cleared keys) engine.old engine.new space.old space.new reply.old reply.new }
    ensures refused { RefusesHeld E.S.Space E.holds result engine.old engine.new space.old space.new }
    ensures front { IsPrefix reply.old reply.new }
    ensures full { FullChange E.S.Space E.holds E.fills result voice (all_cleared keys) engine.old space.old space.new }
    ensures keeps { Keeps E.S.Space space.old space.new }
    ensures cause { OnFault E.S.Space result space.old space.new }
{
    let begin = reply.len();
    voice.say(reply)?;
    let done = engine.clear_all(space, keys)?;
    voice.close(begin, done, reply)?;
    Ok(done)
}

/// Takes out all that is held.
pub fn clear<E: Engine>(
    engine: &mut E,
    space: &mut E::S,
    voice: Voice,
    reply: &mut Blob,
) -> Result<bool, RecErr>
    requires { IsReady E.S.Space E.holds engine.old space.old }
    ensures answers { AnswersChange E.S.Space E.own E.layout E.holds result voice all_gone engine.old engine.new space.old space.new reply.old reply.new }
    ensures refused { RefusesHeld E.S.Space E.holds result engine.old engine.new space.old space.new }
    ensures front { IsPrefix reply.old reply.new }
    ensures full { FullChange E.S.Space E.holds E.fills result voice all_gone engine.old space.old space.new }
    ensures keeps { Keeps E.S.Space space.old space.new }
    ensures cause { OnFault E.S.Space result space.old space.new }
{
    let begin = reply.len();
    voice.say(reply)?;
    let done = engine.clear(space)?;
    voice.close(begin, done, reply)?;
    Ok(done)
}

/// Packs the files in the form that they have; the contents stay. It is full only where the undo log is.
pub fn optimize<E: Engine>(
    engine: &mut E,
    space: &mut E::S,
    reply: &mut Blob,
) -> Result<bool, RecErr>
    requires { IsReady E.S.Space E.holds engine.old space.old }
    ensures tight { OnOk result (TightHeld E.S.Space E.holds E.tight Keep engine.old engine.new space.old space.new) }
    ensures answers { AnswersBy E.S.Space E.own E.layout E.holds result (told_by (λ c. Some answer.Done)) answer.Fail true engine.old engine.new space.old space.new reply.old reply.new }
    ensures refused { RefusesHeld E.S.Space E.holds result engine.old engine.new space.old space.new }
    ensures front { IsPrefix reply.old reply.new }
    ensures full { OnlyLogIsFull E.S.Space result space.new }
    ensures keeps { Keeps E.S.Space space.old space.new }
    ensures cause { OnFault E.S.Space result space.old space.new }
{
    done(reply)?;
    engine.pack(space, Form::Keep)?;
    Ok(true)
}
