//! Misc requests.
ghost use Rattle.std.specs.Prelude.{◌≡◌, ◌%◌, ◌==◌, ◌&&◌, true, IsErrOf};
ghost use Rattle.tc_base.specs.declared.request.Reply.TheVariants.{FailMisc};
ghost use Rattle.tc_space.specs.Frames.{Keeps};
ghost use Rattle.tc_space.specs.Refusals.{OnFault};
ghost use Rattle.ty_base.specs.Holding.{IsReady, RefusesHeld};
ghost use Rattle.ty_wire.specs.Prefixes.{IsPrefix};
ghost use Rattle.tc_model.specs.Apply.{called};
ghost use Rattle.tc_model.specs.Misc.{updates_call};
ghost use Rattle.ty_answers.specs.Calls.{AnswersCalled, meant, misc_updates};
ghost use Rattle.ty_answers.specs.Answers.{AnswersBy, FullAnswer};

use crate::changes::{
    clear, clear_all, out, push, push_all, set_index, store, store_all, store_row,
};
use crate::failing::fail;
use crate::reads::{misc_get, misc_getlist, misc_range, misc_row};
use crate::searching::search;
use crate::voice::Voice;
use std::alloc::Global;
use tc_base::{Blob, Blobs, Key};
use tc_engine::Engine;
use tc_model::{Misc, has_short_keys, read_misc};
use tc_space::RecErr;

// Does what a misc request means.
fn perform<E: Engine>(
    alloc: Global,
    engine: &mut E,
    space: &mut E::S,
    misc: Misc,
    reply: &mut Blob,
) -> Result<bool, RecErr>
    requires { IsReady E.S.Space E.holds engine.old space.old }
    ensures answers { AnswersBy E.S.Space E.own E.layout E.holds result (meant misc) FailMisc (misc_updates misc) engine.old engine.new space.old space.new reply.old reply.new }
    ensures refused { RefusesHeld E.S.Space E.holds result engine.old engine.new space.old space.new }
    ensures front { IsPrefix reply.old reply.new }
    ensures writes { IsErrOf result RecErr.Full → misc_updates misc ≡ true }
    ensures full { FullAnswer E.S.Space E.holds E.fills result (meant misc) engine.old space.old space.new }
    ensures keeps { Keeps E.S.Space space.old space.new }
    ensures cause { OnFault E.S.Space result space.old space.new }
{
    let voice = Voice::Misc;
    match misc {
        Misc::Put { mode, key, value } => {
            store(engine, space, voice, mode, Key::new(key), value, reply)
        }
        Misc::Out { key } => out(engine, space, voice, &Key::new(key), reply),
        Misc::Get { key } => misc_get(alloc, engine, space, &Key::new(key), reply),
        Misc::PutList { pairs } => store_all(engine, space, voice, pairs, reply),
        Misc::PutDups { pairs } => push_all(engine, space, voice, pairs, reply),
        Misc::OutList { keys } => clear_all(engine, space, voice, keys, reply),
        Misc::GetList { keys } => misc_getlist(alloc, engine, space, keys, reply),
        Misc::PutDup { key, value } => { push(engine, space, voice, Key::new(key), value, reply) }
        Misc::Range { from, maximum, to } => {
            misc_range(alloc, engine, space, from, &maximum, to, reply)
        }
        Misc::Vanish => clear(engine, space, voice, reply),
        Misc::PutRow { mode, key, columns } => {
            store_row(engine, space, voice, mode, Key::new(key), columns, reply)
        }
        Misc::GetRow { key } => misc_row(alloc, engine, space, &Key::new(key), reply),
        Misc::SetIndex { column, code } => set_index(engine, space, voice, column, &code, reply),
        Misc::Search { conditions } => search(alloc, engine, space, &conditions, reply),
    }
}

// Whether a request that updates asks that it isn't written into the update log.
fn is_omitted(options: u32, updating: bool) -> bool
    ensures { result ≡ (options % 2 == 1 && updating) }
{
    options % 2 == 1 && updating
}

/// Calls a misc request. With an odd number of options, which ask that it isn't written into the update log, one that updates fails.
pub fn call<E: Engine>(
    alloc: Global,
    engine: &mut E,
    space: &mut E::S,
    name: &Blob,
    options: u32,
    args: Blobs,
    updating: bool,
    reply: &mut Blob,
) -> Result<bool, RecErr>
    requires ready { IsReady E.S.Space E.holds engine.old space.old }
    requires updating { updating ≡ updates_call name.now args }
    ensures answers { AnswersCalled E.S.Space E.own E.layout E.holds result name.now options args engine.old engine.new space.old space.new reply.old reply.new }
    ensures refused { RefusesHeld E.S.Space E.holds result engine.old engine.new space.old space.new }
    ensures front { IsPrefix reply.old reply.new }
    ensures writes { IsErrOf result RecErr.Full → updates_call name.now args ≡ true }
    ensures full { FullAnswer E.S.Space E.holds E.fills result (called name.now options args) engine.old space.old space.new }
    ensures keeps { Keeps E.S.Space space.old space.new }
    ensures cause { OnFault E.S.Space result space.old space.new }
{
    if is_omitted(options, updating) {
        return fail(Voice::Misc, reply);
    }
    let Some(misc) = read_misc(alloc, name.as_slice(), args, engine.kind())? else {
        return fail(Voice::Misc, reply);
    };
    if !has_short_keys(&misc) {
        return fail(Voice::Misc, reply);
    }
    perform(alloc, engine, space, misc, reply)
}
