//! Why a task isn't carried out.
ghost use Rattle.std.specs.Prelude.{◌≡◌};

use std::alloc::AllocError;
use tc_space::RecErr;
use thiserror::Error;

/// Why a task wasn't carried out.
#[derive(Clone, Copy, Debug, PartialEq, Eq, Error)]
pub enum MgrErr {
    #[error("a limit was reached")]
    Full,
    #[error("a call of the volume failed")]
    Fault,
    #[error("what was printed wasn't taken")]
    Sink,
    #[error("out of memory")]
    Memory,
}

impl From<AllocError> for MgrErr {
    ghost use Rattle.tk_mgr.specs.declared.errors.MgrErr.TheVariants.{Memory as is_memory};

    ghost from_gives = { λ _ e. e ≡ is_memory };

    fn from(_: AllocError) -> Self {
        MgrErr::Memory
    }
}

impl From<RecErr> for MgrErr {
    ghost use Rattle.tk_mgr.specs.Errors.{mgr_of};

    ghost from_gives = { λ r e. e ≡ mgr_of r };

    fn from(e: RecErr) -> Self {
        match e {
            RecErr::Full => MgrErr::Full,
            RecErr::Fault => MgrErr::Fault,
            RecErr::Memory => MgrErr::Memory,
        }
    }
}
