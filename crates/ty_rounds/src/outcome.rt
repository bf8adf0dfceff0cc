//! How a turn ends.
ghost use Rattle.std.specs.Prelude.{◌≡◌};

use std::alloc::AllocError;
use tc_base::Fault;
use tc_space::RecErr;
use thiserror::Error;

/// How a turn went.
#[derive(Clone, Copy, PartialEq, Eq)]
pub enum Outcome {
    /// There may be another.
    Went,
    /// There may be another, and the link was closed for a record that follows another than the last one held.
    Gap {
        /// The last timestamp held.
        held: u64,
        /// The timestamp that the record follows.
        follows: u64,
    },
    /// No event will come any more.
    Shut,
}

/// Why a turn ended before its end. The server is then to be dropped.
#[derive(Clone, Copy, Debug, PartialEq, Eq, Error)]
pub enum TurnErr {
    #[error("a call of the volume failed")]
    Volume,
    #[error("a limit was reached")]
    Full,
    #[error("a call of the wire failed")]
    Wire,
    #[error("out of memory")]
    Memory,
}

impl From<AllocError> for TurnErr {
    ghost use Rattle.ty_rounds.specs.declared.outcome.TurnErr.TheVariants.{Memory as is_memory};

    ghost from_gives = { λ _ e. e ≡ is_memory };

    fn from(_: AllocError) -> Self {
        TurnErr::Memory
    }
}

impl From<Fault> for TurnErr {
    ghost use Rattle.ty_rounds.specs.declared.outcome.TurnErr.TheVariants.{Wire as is_wire};

    ghost from_gives = { λ _ e. e ≡ is_wire };

    fn from(_: Fault) -> Self {
        TurnErr::Wire
    }
}

impl From<RecErr> for TurnErr {
    ghost use Rattle.ty_rounds.specs.Errors.{turn_of};

    ghost from_gives = { λ r e. e ≡ turn_of r };

    fn from(e: RecErr) -> Self {
        match e {
            RecErr::Full => TurnErr::Full,
            RecErr::Fault => TurnErr::Volume,
            RecErr::Memory => TurnErr::Memory,
        }
    }
}
