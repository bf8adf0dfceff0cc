//! Searches in a table.
ghost use Rattle.tc_space.specs.Frames.{Keeps};
ghost use Rattle.tc_space.specs.Refusals.{OnFault};
ghost use Rattle.ty_base.specs.Holding.{IsReady, RefusesHeld};
ghost use Rattle.ty_wire.specs.Prefixes.{IsPrefix};
ghost use Rattle.tc_model.specs.declared.misc.Misc.TheVariants as misc;
ghost use Rattle.tc_engine.specs.Changes.{takes_out};
ghost use Rattle.ty_answers.specs.Answers.{FullAnswer};
ghost use Rattle.ty_answers.specs.Calls.{AnswersSearch, meant};
ghost use Rattle.std.specs.Prelude.{◌≡◌, true, IsErrOf};

use crate::listing::{end_list, open_list};
use crate::voice::Voice;
use std::alloc::Global;
use tc_base::{Blob, Blobs};
use tc_engine::Engine;
use tc_space::RecErr;

/// Does with the rows that conditions find what they say, and answers what there is to say of them as a list.
pub fn search<E: Engine>(
    alloc: Global,
    engine: &mut E,
    space: &mut E::S,
    conditions: &Blobs,
    reply: &mut Blob,
) -> Result<bool, RecErr>
    requires { IsReady E.S.Space E.holds engine.old space.old }
    ensures answers { AnswersSearch E.S.Space E.own E.layout E.holds result conditions.now engine.old engine.new space.old space.new reply.old reply.new }
    ensures refused { RefusesHeld E.S.Space E.holds result engine.old engine.new space.old space.new }
    ensures front { IsPrefix reply.old reply.new }
    ensures writes { IsErrOf result RecErr.Full → takes_out conditions.now ≡ true }
    ensures full { FullAnswer E.S.Space E.holds E.fills result (meant (misc.Search conditions.now)) engine.old space.old space.new }
    ensures keeps { Keeps E.S.Space space.old space.new }
    ensures cause { OnFault E.S.Space result space.old space.new }
{
    let begin = reply.len();
    let mut rows = open_list(alloc, reply)?;
    let found = engine.search(space, conditions, &mut rows);
    end_list(alloc, found, rows, begin, Voice::Misc, reply)
}
