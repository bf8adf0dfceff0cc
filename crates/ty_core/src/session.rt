//! One connection's bytes.
ghost use Rattle.std.specs.Prelude.{◌≡◌, ◌≤◌, ◌++◌, ℕ, false, [], OnOk, OnErr, IfOk, IsErrOf, length, drop};
ghost use Rattle.tc_space.specs.Frames.{Keeps};
ghost use Rattle.tc_space.specs.Refusals.{OnFault};
ghost use Rattle.ty_wire.specs.declared.reading.Front.TheVariants.{Whole};
ghost use Rattle.ty_memc.specs.Fronts.{IsPieceRead, TakesPiece};
ghost use Rattle.ty_base.specs.Holding.{Declines, IsReady, Leaves};
ghost use Rattle.ty_core.specs.Queues.{queue};
ghost use Rattle.ty_core.specs.Serving.{FillsFront, ServesQueue, TightFront};

use crate::serving::{Served, serve_taken};
use crate::taking::ROOM_KEPT;
use crate::unread::Unread;
use std::alloc::{AllocError, Global};
use std::marker::Model;
use tc_base::Blob;
use tc_model::Walk;
use tc_space::{RecErr, Space};
use ty_base::Base;
use ty_wire::Front;

/// The bytes of a connection that no piece took yet, and those that wait to be sent to it. Both queues are seen as lists.
#[derive(Drop)]
pub struct Session {
    alloc: Global,
    unread: Unread,
    waiting: Blob,
    // so many of them were taken
    taken: usize,
}

impl Model for Session {
    ghost use Rattle.std.specs.Prelude.{◌≤◌, drop, length};
    ghost use Rattle.ty_core.specs.Queues.{Queue, queue};

    ghost Value = { Queue };

    ghost view = { λ s. queue s.unread (drop s.taken s.waiting) };

    ghost invariant = { λ s. s.taken ≤ length s.waiting };
}

// Drops all bytes. The room of many is given back, that of few is used again.
fn empty(alloc: Global, waiting: &mut Blob)
    ensures { waiting.new ≡ [] }
{
    if waiting.len() > ROOM_KEPT {
        *waiting = Blob::new(alloc);
    } else {
        waiting.clear();
    }
}

impl Session {
    /// Nothing came and nothing waits.
    pub fn new(alloc: Global) -> Session
        ensures { result ≡ queue [] [] }
    {
        Session {
            alloc,
            unread: Unread::new(alloc),
            waiting: Blob::new(alloc),
            taken: 0,
        }
    }

    /// Adds bytes behind the unread ones. An `Err` changes nothing.
    pub fn push(&mut self, bytes: &[u8]) -> Result<(), AllocError>
        ensures ok { OnOk result (self.new ≡ queue (self.old.unread ++ bytes.now) self.old.waiting) }
        ensures err { OnErr result (self.new ≡ self.old) }
    {
        self.unread.push(bytes)
    }

    /// What stands at the front of the unread bytes.
    pub fn look(&self) -> Front
        ensures grammar { TakesPiece self.now.unread result }
        ensures reading { IsPieceRead self.now.unread result }
    {
        self.unread.look()
    }

    /// The bytes that wait to be sent.
    pub fn waiting(&self) -> &[u8]
        ensures { result.now ≡ self.now.waiting }
    {
        &self.waiting.as_slice()[self.taken..]
    }

    /// Drops that many bytes at the front of those that wait. Where none are left of more than 65,536, their room is given back.
    pub fn taken(&mut self, n: usize)
        requires { n ≤ length self.old.waiting }
        ensures { self.new ≡ queue self.old.unread (drop n self.old.waiting) }
    {
        if n == self.waiting.len() - self.taken {
            empty(self.alloc, &mut self.waiting);
            self.taken = 0;
        } else {
            self.taken += n;
        }
    }

    /// Adds bytes behind those that wait. An `Err` changes nothing.
    pub fn owe(&mut self, bytes: &[u8]) -> Result<(), AllocError>
        ensures ok { OnOk result (self.new ≡ queue self.old.unread (self.old.waiting ++ bytes.now)) }
        ensures err { OnErr result (self.new ≡ self.old) }
    {
        self.waiting.append(bytes)
    }

    /// Serves the piece at the front: it is taken off the unread bytes, and its reply waits. Of a `repl` no reply is added. Where `logs` is
    /// set the bytes of a request that updated are given back, of a text command those of its request. After an `Err` the session is of no more use.
    #[tactic(auto, using(crate::proofs::Fronts::still_inside, tc_space::specs::Frames::keeps_then, tc_space::specs::Frames::keeps_refl))]
    pub fn serve<B: Base>(
        &mut self,
        base: &mut B,
        space: &mut B::S,
        walk: &mut Walk,
        replica: bool,
        logs: bool,
    ) -> Result<Served, RecErr>
        requires whole { (n : ℕ) × IsPieceRead self.old.unread (Whole n) }
        requires quiet { self.old.waiting ≡ [] }
        requires ready { IsReady B.S.Space B.holds base.old space.old }
        ensures served { IfOk result (λ d. ServesQueue B.S.Space B.holds replica logs d base.old base.new space.old space.new walk.old walk.new self.old self.new) }
        ensures tight { OnOk result (TightFront B.S.Space B.holds B.tight base.old base.new space.old space.new self.old.unread) }
        ensures leaves { IfOk result (λ d. Leaves B.S.Space B.own B.layout (d.commits ≡ false) space.old space.new) }
        ensures refused { OnErr result (Declines B.S.Space B.holds base.old base.new space.old space.new walk.old walk.new) }
        ensures full { IsErrOf result RecErr.Full → FillsFront B.S.Space B.holds (B.fills_since space.old space.new) replica base.old space.old walk.old self.old.unread }
        ensures keeps { Keeps B.S.Space space.old space.new }
        ensures cause { OnFault B.S.Space result space.old space.new }
    {
        let Ok(taken) = self.unread.take(logs) else {
            return Err(RecErr::Memory);
        };
        serve_taken(
            self.alloc,
            taken,
            &mut self.waiting,
            base,
            space,
            walk,
            replica,
            logs,
        )
    }
}
