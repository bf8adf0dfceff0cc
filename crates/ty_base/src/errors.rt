//! Why a database wasn't opened.
ghost use Rattle.std.specs.Prelude.{◌≡◌};

use std::alloc::AllocError;
use tc_base::Rule;
use tc_space::{OpenErr, RecErr};
use thiserror::Error;

/// Why the files of a space weren't opened as a database.
#[derive(Clone, Copy, Debug, PartialEq, Eq, Error)]
pub enum AnyErr {
    /// A rule of a layout doesn't hold; it is the first that fails.
    #[error("file {file} breaks rule {}", .rule.number)]
    Broken { file: u32, rule: Rule },
    #[error("a limit was reached")]
    Full,
    #[error("a call of the volume failed")]
    Fault,
    #[error("out of memory")]
    Memory,
}

impl From<RecErr> for AnyErr {
    ghost use Rattle.ty_base.specs.Opening.{any_of};

    ghost from_gives = { λ r e. e ≡ any_of r };

    fn from(e: RecErr) -> Self {
        match e {
            RecErr::Full => AnyErr::Full,
            RecErr::Fault => AnyErr::Fault,
            RecErr::Memory => AnyErr::Memory,
        }
    }
}

impl From<OpenErr> for AnyErr {
    ghost use Rattle.ty_base.specs.Opening.{any_of_open};

    ghost from_gives = { λ r e. e ≡ any_of_open r };

    fn from(e: OpenErr) -> Self {
        match e {
            OpenErr::Broken { file, rule } => AnyErr::Broken { file, rule },
            OpenErr::Fault => AnyErr::Fault,
            OpenErr::Memory => AnyErr::Memory,
        }
    }
}

impl From<AllocError> for AnyErr {
    ghost use Rattle.ty_base.specs.declared.errors.AnyErr.TheVariants.{Memory as is_memory};

    ghost from_gives = { λ _ e. e ≡ is_memory };

    fn from(_: AllocError) -> Self {
        AnyErr::Memory
    }
}
