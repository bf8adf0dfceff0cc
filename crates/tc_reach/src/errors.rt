//! Why a pass over a file can't go on.
ghost use Rattle.std.specs.Prelude.{◌≡◌};

use std::alloc::AllocError;
use tc_base::Fault;
use tc_space::{OpenErr, RecErr};
use thiserror::Error;

/// Why a pass over a file can't go on.
#[derive(Clone, Copy, Debug, PartialEq, Eq, Error)]
pub enum ReadErr {
    #[error("a call of the volume failed")]
    Fault,
    #[error("out of memory")]
    Memory,
}

impl From<Fault> for ReadErr {
    ghost use Rattle.tc_reach.specs.declared.errors.ReadErr.TheVariants.{Fault as is_fault};

    ghost from_gives = { λ _ e. e ≡ is_fault };

    fn from(_: Fault) -> Self {
        ReadErr::Fault
    }
}

impl From<AllocError> for ReadErr {
    ghost use Rattle.tc_reach.specs.declared.errors.ReadErr.TheVariants.{Memory as is_memory};

    ghost from_gives = { λ _ e. e ≡ is_memory };

    fn from(_: AllocError) -> Self {
        ReadErr::Memory
    }
}

impl From<ReadErr> for RecErr {
    ghost use Rattle.tc_reach.specs.Errors.{rec_of};

    ghost from_gives = { λ r e. e ≡ rec_of r };

    fn from(e: ReadErr) -> Self {
        match e {
            ReadErr::Fault => RecErr::Fault,
            ReadErr::Memory => RecErr::Memory,
        }
    }
}

impl From<ReadErr> for OpenErr {
    ghost use Rattle.tc_reach.specs.Errors.{open_of};

    ghost from_gives = { λ r e. e ≡ open_of r };

    fn from(e: ReadErr) -> Self {
        match e {
            ReadErr::Fault => OpenErr::Fault,
            ReadErr::Memory => OpenErr::Memory,
        }
    }
}
