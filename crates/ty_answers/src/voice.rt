//! How changes are answered.
ghost use Rattle.std.specs.Prelude.{◌≡◌, ◌++◌, take, false, OnOk, OnErr, if◌then◌else◌};
ghost use Rattle.ty_wire.specs.Prefixes.{IsPrefix};
ghost use Rattle.ty_wire.specs.Spelling.{reply_bytes};
ghost use Rattle.ty_answers.specs.Answers.{done_reply, fail_reply};

use std::alloc::AllocError;
use tc_base::Blob;

/// By which replies a change is answered.
#[derive(Clone, Copy, PartialEq, Eq)]
pub enum Voice {
    /// One byte.
    Plain,
    /// No reply.
    Silent,
    /// A list, which is empty, or one byte more.
    Misc,
}

impl Voice {
    /// Says that a change was made.
    pub fn say(self, reply: &mut Blob) -> Result<(), AllocError>
        ensures ok { OnOk result (reply.new ≡ reply.old ++ reply_bytes (done_reply self)) }
        ensures err { OnErr result (reply.new ≡ reply.old) }
    {
        match self {
            Voice::Plain => reply.push(0),
            Voice::Silent => Ok(()),
            Voice::Misc => reply.append(&[0, 0, 0, 0, 0]),
        }
    }

    /// Says that a request failed.
    pub fn fail(self, reply: &mut Blob) -> Result<(), AllocError>
        ensures ok { OnOk result (reply.new ≡ reply.old ++ reply_bytes (fail_reply self)) }
        ensures err { OnErr result (reply.new ≡ reply.old) }
    {
        match self {
            Voice::Plain => reply.push(1),
            Voice::Silent => Ok(()),
            Voice::Misc => reply.append(&[1, 0, 0, 0, 0]),
        }
    }

    /// Takes back what was said behind the first bytes, where the change wasn't made.
    pub fn close(self, begin: usize, done: bool, reply: &mut Blob) -> Result<(), AllocError>
        ensures ok { OnOk result (reply.new ≡ (if done then reply.old else take begin reply.old ++ reply_bytes (fail_reply self))) }
        ensures err { OnErr result ((reply.new ≡ take begin reply.old) × (done ≡ false)) }
        ensures front { IsPrefix (take begin reply.old) reply.new }
    {
        if done {
            return Ok(());
        }
        reply.truncate(begin);
        self.fail(reply)?;
        Ok(())
    }
}
