//! A database behind requests, over any engine.
ghost use Rattle.std.specs.Prelude.{◌≡◌, true, OnOk, OnErr};
ghost use Rattle.tc_base.specs.declared.kind.Form.TheVariants.{Keep};
ghost use Rattle.tc_space.specs.Frames.{Keeps};
ghost use Rattle.tc_space.specs.Refusals.{OnFault};
ghost use Rattle.ty_base.specs.Holding.{Declines, IsReady, TightHeld};
ghost use Rattle.ty_wire.specs.Prefixes.{IsPrefix};
ghost use Rattle.tc_model.specs.Apply.{updates};
ghost use Rattle.tc_model.specs.Packing.{is_optimize};
ghost use Rattle.ty_answers.specs.Engines.{engine_of};
ghost use Rattle.ty_answers.specs.Steps.{FullStep, StepsBy};

use crate::changes::{clear, optimize, out, store};
use crate::failing::{copy, fail};
use crate::misc::call;
use crate::numbers::{add, shift};
use crate::reads::{done, fwmkeys, get, mget, rnum, size, stat, vsiz};
use crate::voice::Voice;
use crate::walks::{begin, step};
use std::alloc::Global;
use tc_base::{Blob, Form, Kind, Mode, Request};
use tc_engine::Engine;
use tc_model::{Applied, Walk};
use tc_space::RecErr;
use ty_base::{AnyErr, Base, Opens, Storage};
use ty_wire::is_updating;

/// An engine behind requests.
#[derive(Drop)]
pub struct Database<E> {
    alloc: Global,
    engine: E,
}

impl<E> Database<E> {
    pub fn new(alloc: Global, engine: E) -> Database<E>
        ensures { engine_of result ≡ engine }
    {
        Database { alloc, engine }
    }
}

// Serves a request, and answers whether it succeeded.
fn serve<E: Engine>(
    alloc: Global,
    engine: &mut E,
    space: &mut E::S,
    request: Request,
    updating: bool,
    walk: &mut Walk,
    reply: &mut Blob,
) -> Result<bool, RecErr>
    requires ready { IsReady E.S.Space E.holds engine.old space.old }
    requires updating { updating ≡ updates request }
    ensures steps { StepsBy E.S.Space E.own E.layout E.holds result request engine.old engine.new space.old space.new walk.old walk.new reply.old reply.new }
    ensures tight { OnOk result (is_optimize request ≡ true → TightHeld E.S.Space E.holds E.tight Keep engine.old engine.new space.old space.new) }
    ensures declines { OnErr result (Declines E.S.Space E.holds engine.old engine.new space.old space.new walk.old walk.new) }
    ensures front { IsPrefix reply.old reply.new }
    ensures full { FullStep E.S.Space E.holds result E.fills request walk.old engine.old space.old space.new }
    ensures keeps { Keeps E.S.Space space.old space.new }
    ensures cause { OnFault E.S.Space result space.old space.new }
{
    let plain = Voice::Plain;
    match request {
        Request::Put { key, value } => {
            store(engine, space, plain, Mode::Over, key, value, reply)
        }
        Request::PutKeep { key, value } => {
            store(engine, space, plain, Mode::Keep, key, value, reply)
        }
        Request::PutCat { key, value } => {
            store(engine, space, plain, Mode::Cat, key, value, reply)
        }
        Request::PutShl { key, value, width } => {
            shift(alloc, engine, space, key, &value, width, reply)
        }
        Request::PutNr { key, value } => {
            store(engine, space, Voice::Silent, Mode::Over, key, value, reply)
        }
        Request::Out { key } => out(engine, space, plain, &key, reply),
        Request::Get { key } => get(alloc, engine, space, &key, reply),
        Request::MGet { keys } => mget(alloc, engine, space, &keys, reply),
        Request::Vsiz { key } => vsiz(engine, space, &key, reply),
        Request::IterInit => begin(engine, space, walk, reply),
        Request::IterNext => step(engine, space, walk, reply),
        Request::FwmKeys { prefix, maximum } => {
            fwmkeys(alloc, engine, space, &prefix, maximum, reply)
        }
        Request::AddInt { key, number } => add(alloc, engine, space, key, number, reply),
        Request::Sync => done(reply),
        Request::Optimize { .. } => optimize(engine, space, reply),
        Request::Vanish => clear(engine, space, plain, reply),
        Request::Copy { path } => copy(engine.kind(), &path, reply),
        Request::AddDouble { .. }
        | Request::Ext { .. }
        | Request::Restore { .. }
        | Request::SetMst { .. } => fail(plain, reply),
        Request::Rnum => rnum(engine, space, reply),
        Request::Size => size(engine, space, reply),
        Request::Stat => stat(alloc, engine, space, reply),
        Request::Misc {
            name,
            options,
            args,
        } => call(alloc, engine, space, &name, options, args, updating, reply),
        Request::Repl { .. } => Ok(true),
    }
}

impl<E: Storage> Storage for Database<E> {
    type S = E::S;

    ghost holds = { λ b. E.holds (engine_of b) };

    ghost reopens = { E.reopens };

    ghost own = { E.own };

    ghost fills = { λ b. E.fills (engine_of b) };

    ghost fills_since = { E.fills_since };

    ghost lacks_large = { E.lacks_large };

    ghost lines = { E.lines };

    ghost tight = { λ b. E.tight (engine_of b) };

    ghost packed = { E.packed };

    ghost layout = { E.layout };

    ghost no_logs = { E.no_logs };

    ghost apart = { λ b. E.apart (engine_of b) };

    ghost log_fills = { λ b. E.log_fills (engine_of b) };

    ghost fills_then = { λ b. E.fills_then (engine_of b) };

    ghost since_more = { E.since_more };

    fn kind(&self) -> Kind {
        self.engine.kind()
    }

    fn settle(&mut self, space: &mut E::S) -> Result<(), RecErr> {
        self.engine.settle(space)
    }

    fn pack(&mut self, space: &mut E::S, form: Form) -> Result<(), RecErr> {
        self.engine.pack(space, form)
    }

    fn inform(&mut self, space: &mut E::S, into: &mut Blob) -> Result<(), RecErr> {
        self.engine.inform(space, into)
    }
}

impl<E: Engine> Base for Database<E> {
    fn apply(
        &mut self,
        space: &mut E::S,
        request: Request,
        walk: &mut Walk,
        reply: &mut Blob,
    ) -> Result<Applied, RecErr> {
        let updating = is_updating(&request);
        let ok = serve(
            self.alloc,
            &mut self.engine,
            space,
            request,
            updating,
            walk,
            reply,
        )?;
        Ok(Applied {
            ok,
            updated: ok & updating,
        })
    }
}

impl<E: Opens> Opens for Database<E> {
    type Shape = E::Shape;

    ghost may_be = { E.may_be };

    ghost anew = { E.anew };

    ghost shaped = { E.shaped };

    ghost usual = { E.usual };

    ghost lacks = { E.lacks };

    ghost breaks = { E.breaks };

    ghost breaks_new = { E.breaks_new };

    ghost unbroken = { E.unbroken };

    fn open(alloc: Global, kind: Kind, space: &mut E::S) -> Result<Database<E>, AnyErr> {
        let engine = E::open(alloc, kind, space)?;
        Ok(Database { alloc, engine })
    }

    fn create(alloc: Global, shape: &E::Shape, space: &mut E::S) -> Result<Database<E>, AnyErr> {
        let engine = E::create(alloc, shape, space)?;
        Ok(Database { alloc, engine })
    }
}
