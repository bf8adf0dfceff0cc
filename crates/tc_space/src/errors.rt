//! Why a call on a space, or on what is kept in one, was refused.
use std::alloc::AllocError;
use tc_base::{Fault, Rule};
use thiserror::Error;

/// Why a space refused to write.
#[derive(Clone, Copy, Debug, PartialEq, Eq, Error)]
pub enum SpaceErr {
    #[error("a limit on a file's length was reached")]
    Full,
    #[error("a call of the volume failed")]
    Fault,
    #[error("out of memory")]
    Memory,
}

/// Why records, or what is made of them, were refused.
#[derive(Clone, Copy, Debug, PartialEq, Eq, Error)]
pub enum RecErr {
    #[error("a limit was reached")]
    Full,
    #[error("a call of the volume failed")]
    Fault,
    #[error("out of memory")]
    Memory,
}

/// Why a put was refused.
#[derive(Clone, Copy, Debug, PartialEq, Eq, Error)]
pub enum PutErr {
    /// The key is held and was to be kept. Nothing has changed.
    #[error("the key is held")]
    Exists,
    #[error("a limit was reached")]
    Full,
    #[error("a call of the volume failed")]
    Fault,
    #[error("out of memory")]
    Memory,
}

/// Why files weren't opened.
#[derive(Clone, Copy, Debug, PartialEq, Eq, Error)]
pub enum OpenErr {
    /// A rule of a layout doesn't hold; it is the first that fails.
    #[error("file {file} breaks rule {}", .rule.number)]
    Broken { file: u32, rule: Rule },
    #[error("a call of the volume failed")]
    Fault,
    #[error("out of memory")]
    Memory,
}

impl From<Fault> for SpaceErr {
    ghost use Rattle.tc_space.specs.declared.errors.SpaceErr.TheVariants.{Fault as is_fault};

    ghost from_gives = { λ _ e. e ≡ is_fault };

    fn from(_: Fault) -> Self {
        SpaceErr::Fault
    }
}

ghost use Rattle.std.specs.Prelude.{◌≡◌};

impl From<Fault> for RecErr {
    ghost use Rattle.tc_space.specs.declared.errors.RecErr.TheVariants.{Fault as is_fault};

    ghost from_gives = { λ _ e. e ≡ is_fault };

    fn from(_: Fault) -> Self {
        RecErr::Fault
    }
}

impl From<AllocError> for RecErr {
    ghost use Rattle.tc_space.specs.declared.errors.RecErr.TheVariants.{Memory as is_memory};

    ghost from_gives = { λ _ e. e ≡ is_memory };

    fn from(_: AllocError) -> Self {
        RecErr::Memory
    }
}

impl From<SpaceErr> for RecErr {
    ghost use Rattle.tc_space.specs.Errors.{rec_of};

    ghost from_gives = { λ s e. e ≡ rec_of s };

    fn from(e: SpaceErr) -> Self {
        match e {
            SpaceErr::Full => RecErr::Full,
            SpaceErr::Fault => RecErr::Fault,
            SpaceErr::Memory => RecErr::Memory,
        }
    }
}

impl From<RecErr> for PutErr {
    ghost use Rattle.tc_space.specs.Errors.{put_of};

    ghost from_gives = { λ s e. e ≡ put_of s };

    fn from(e: RecErr) -> Self {
        match e {
            RecErr::Full => PutErr::Full,
            RecErr::Fault => PutErr::Fault,
            RecErr::Memory => PutErr::Memory,
        }
    }
}

impl From<Fault> for OpenErr {
    ghost use Rattle.tc_space.specs.declared.errors.OpenErr.TheVariants.{Fault as is_fault};

    ghost from_gives = { λ _ e. e ≡ is_fault };

    fn from(_: Fault) -> Self {
        OpenErr::Fault
    }
}

impl From<AllocError> for OpenErr {
    ghost use Rattle.tc_space.specs.declared.errors.OpenErr.TheVariants.{Memory as is_memory};

    ghost from_gives = { λ _ e. e ≡ is_memory };

    fn from(_: AllocError) -> Self {
        OpenErr::Memory
    }
}
