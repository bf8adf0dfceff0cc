//! The bytes of a connection that no piece took yet.
ghost use Rattle.std.specs.Prelude.{◌≡◌, ◌++◌, ℕ, [], IfOk, OnOk, OnErr};
ghost use Rattle.ty_wire.specs.declared.reading.Front.TheVariants.{Whole};
ghost use Rattle.ty_memc.specs.Fronts.{IsPieceRead, IsPieceSeen, TakesPiece};
ghost use Rattle.ty_core.specs.Gathering.{IsSighted, MayGather, all_of};
ghost use Rattle.ty_core.specs.Serving.{IsTaken};

use crate::large::Large;
use crate::taking::{Taken, empty, take_front};
use bytes::BytesMut;
use std::alloc::{AllocError, Global};
use std::marker::Model;
use ty_memc::{SeenPiece, look_piece};
use ty_wire::Front;

/// Bytes in the order in which they came, seen as a list, and what stands at their front.
#[derive(Drop)]
pub struct Unread {
    alloc: Global,
    // a put of a large value at the front, whose bytes aren't among the others
    large: Option<Large>,
    bytes: BytesMut,
    // what stands at the front, and what was looked at of a request that isn't whole
    front: Front,
    seen: SeenPiece,
}

impl Model for Unread {
    ghost use Rattle.std.specs.Prelude.{ℕ, List};
    ghost use Rattle.ty_core.specs.Gathering.{all_of};
    ghost use Rattle.ty_core.specs.Held.{IsHeld};

    ghost Value = { List ℕ };

    ghost view = { λ u. all_of u.large u.bytes.items };

    ghost invariant = { λ u. IsHeld u.large u.bytes.items u.front u.seen };
}

// Adds bytes behind those that are there. An `Err` changes nothing.
fn add(large: &mut Option<Large>, behind: &mut BytesMut, bytes: &[u8]) -> Result<(), AllocError>
    requires { MayGather large.old behind.old.items }
    ensures gathers { OnOk result (MayGather large.new behind.new.items) }
    ensures ok { OnOk result (all_of large.new behind.new.items ≡ all_of large.old behind.old.items ++ bytes.now) }
    ensures err { OnErr result ((large.new ≡ large.old) × (behind.new.items ≡ behind.old.items)) }
{
    match large {
        Some(large) => large.add(behind, bytes),
        None => {
            behind.extend_from_slice(bytes)?;
            Ok(())
        }
    }
}

// Looks at what stands at the front, and gathers a put of a large value apart once it has begun.
fn sight(
    alloc: Global,
    large: &mut Option<Large>,
    behind: &mut BytesMut,
    seen: &mut SeenPiece,
) -> Front
    requires gathers { MayGather large.old behind.old.items }
    requires seen { IsPieceSeen seen.old (all_of large.old behind.old.items) }
    ensures same { all_of large.new behind.new.items ≡ all_of large.old behind.old.items }
    ensures gathers { MayGather large.new behind.new.items }
    ensures sighted { IsSighted (all_of large.old behind.old.items) result seen.new }
{
    if let Some(large) = large {
        return large.front(behind);
    }
    let front = look_piece(behind.as_slice(), seen);
    if front == Front::Part {
        if let Some(begun) = Large::begin(alloc, behind.as_slice(), seen.least()) {
            *large = Some(begun);
            empty(alloc, behind);
        }
    }
    front
}

impl Unread {
    pub fn new(alloc: Global) -> Unread
        ensures { result ≡ [] }
    {
        let mut seen = SeenPiece::new();
        Unread {
            alloc,
            large: None,
            bytes: BytesMut::new(alloc),
            front: look_piece(&[], &mut seen),
            seen,
        }
    }

    /// Adds bytes behind the others. An `Err` changes nothing.
    pub fn push(&mut self, bytes: &[u8]) -> Result<(), AllocError>
        ensures ok { OnOk result (self.new ≡ self.old ++ bytes.now) }
        ensures err { OnErr result (self.new ≡ self.old) }
    {
        add(&mut self.large, &mut self.bytes, bytes)?;
        self.front = sight(self.alloc, &mut self.large, &mut self.bytes, &mut self.seen);
        Ok(())
    }

    /// What stands at the front.
    pub fn look(&self) -> Front
        ensures grammar { TakesPiece self.now result }
        ensures reading { IsPieceRead self.now result }
    {
        self.front
    }

    /// Takes off the piece at the front, and where `logs` is set a copy of its bytes if it is a request that may update. After an `Err` nothing is said of the bytes.
    #[inline(always)]
    pub fn take(&mut self, logs: bool) -> Result<Taken, AllocError>
        requires { (n : ℕ) × IsPieceRead self.old (Whole n) }
        ensures { IfOk result (λ t. IsTaken t logs self.old self.new) }
    {
        let Front::Whole(whole) = self.front else {
            unreachable!();
        };
        let taken = take_front(self.alloc, &mut self.large, &mut self.bytes, whole, logs);
        self.seen = SeenPiece::new();
        self.front = sight(self.alloc, &mut self.large, &mut self.bytes, &mut self.seen);
        taken
    }
}
