//! One database over a space.
ghost use Rattle.std.specs.Prelude.{◌≡◌, false, true, OnOk, OnErr, IfOk, IsErrOf};
ghost use Rattle.tc_base.specs.declared.kind.Form.TheVariants.{Keep};
ghost use Rattle.tc_space.specs.Frames.{Keeps};
ghost use Rattle.tc_space.specs.Refusals.{OnFault};
ghost use Rattle.ty_wire.specs.Prefixes.{IsPrefix};
ghost use Rattle.tc_model.specs.Packing.{is_optimize};
ghost use Rattle.ty_base.specs.Holding.{Declines, FillsBy, IsReady, Leaves, ServedBy, TightHeld, contents_after, is_idle};

use crate::storage::Storage;
use tc_base::{Blob, Request};
use tc_model::{Applied, Walk};
use tc_space::RecErr;

/// A database that answers requests, over a space that keeps its files.
///
/// After a refusal the walk hasn't moved, where the space is still sound.
pub trait Base: Storage {
    /// Serves a request: its reply goes behind the bytes that are there. On an `Err` they have some more behind them.
    fn apply(
        &mut self,
        space: &mut Self::S,
        request: Request,
        walk: &mut Walk,
        reply: &mut Blob,
    ) -> Result<Applied, RecErr>
        requires ready { IsReady Self.S.Space Self.holds self.old space.old }
        ensures applied { IfOk result (λ a. ServedBy Self.S.Space Self.holds false request a self.old self.new space.old space.new walk.old walk.new reply.old reply.new) }
        ensures tight { OnOk result (is_optimize request ≡ true → TightHeld Self.S.Space Self.holds Self.tight Keep self.old self.new space.old space.new) }
        ensures leaves { IfOk result (λ a. Leaves Self.S.Space Self.own Self.layout (is_idle request a) space.old space.new) }
        ensures refused { OnErr result (Declines Self.S.Space Self.holds self.old self.new space.old space.new walk.old walk.new) }
        ensures reply_front { IsPrefix reply.old reply.new }
        ensures full { IsErrOf result RecErr.Full → FillsBy Self.S.Space Self.holds (Self.fills self.old space.old space.new) request self.old space.old (contents_after false request walk.old) }
        ensures keeps { Keeps Self.S.Space space.old space.new }
        ensures cause { OnFault Self.S.Space result space.old space.new };
}
