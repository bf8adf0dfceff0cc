//! Requests that fail, or are said to be done.
ghost use Rattle.std.specs.Prelude.{◌≡◌, ◌++◌, ◌&&◌, false, OnErr, IfOk, if◌then◌else◌};
ghost use Rattle.tc_base.specs.Labels.{is_label};
ghost use Rattle.tc_base.specs.declared.request.Reply.TheVariants as answer;
ghost use Rattle.tc_model.specs.Contents.{is_stored};
ghost use Rattle.ty_wire.specs.Prefixes.{IsPrefix};
ghost use Rattle.ty_wire.specs.Spelling.{reply_bytes};
ghost use Rattle.ty_answers.specs.Answers.{OnlyMemory, fail_reply};

use crate::voice::Voice;
use tc_base::{Blob, Kind};
use tc_model::may_copy;
use tc_space::RecErr;

/// Says that a request failed, and answers false.
pub fn fail(voice: Voice, reply: &mut Blob) -> Result<bool, RecErr>
    ensures said { IfOk result (λ done. (done ≡ false) × (reply.new ≡ reply.old ++ reply_bytes (fail_reply voice))) }
    ensures front { OnErr result (reply.new ≡ reply.old) }
    ensures prefix { IsPrefix reply.old reply.new }
    ensures cause { OnlyMemory result }
{
    voice.fail(reply)?;
    Ok(false)
}

/// Answers whether a database of a kind may be copied under this label. The copy is made once what was done is kept.
pub fn copy(kind: Kind, text: &Blob, reply: &mut Blob) -> Result<bool, RecErr>
    ensures said { IfOk result (λ done. (done ≡ (is_label text.now && is_stored kind)) × (reply.new ≡ reply.old ++ reply_bytes (if done then answer.Done else answer.Fail))) }
    ensures front { OnErr result (reply.new ≡ reply.old) }
    ensures prefix { IsPrefix reply.old reply.new }
    ensures cause { OnlyMemory result }
{
    if !may_copy(kind, text.as_slice()) {
        return fail(Voice::Plain, reply);
    }
    reply.push(0)?;
    Ok(true)
}
