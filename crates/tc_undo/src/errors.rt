//! Why recovery, or an opening, was refused.
ghost use Rattle.std.specs.Prelude.{◌≡◌};
ghost use Rattle.ud_log.specs.Undo.{rule as rule_of};

use tc_base::{Fault, Rule};
use thiserror::Error;

/// Why recovery didn't end well.
#[derive(Clone, Copy, Debug, PartialEq, Eq, Error)]
pub enum RecoverErr {
    /// A call of the volume failed. Recovery may be run again.
    #[error("a call of the volume failed")]
    Fault,
    /// The undo log breaks a rule; it is the first that it breaks. No file has changed.
    #[error("the undo log breaks rule U{}", .0.number)]
    Broken(Rule),
}

/// Why an undo log wasn't opened.
#[derive(Clone, Copy, Debug, PartialEq, Eq, Error)]
pub enum UndoErr {
    /// A call of the volume failed. It may be opened again.
    #[error("a call of the volume failed")]
    Fault,
    /// The undo log breaks a rule; it is the first that it breaks. No file has changed.
    #[error("the undo log breaks rule U{}", .0.number)]
    Broken(Rule),
    /// No opening answers it, since none takes memory.
    #[error("out of memory")]
    Memory,
}

/// The volume that wasn't opened, as it stands, and why.
#[derive(Drop)]
pub struct Unopened<V> {
    pub vol: V,
    pub why: UndoErr,
}

impl From<Fault> for RecoverErr {
    ghost use Rattle.tc_undo.specs.declared.errors.RecoverErr.TheVariants.{Fault as is_fault};

    ghost from_gives = { λ _ e. e ≡ is_fault };

    fn from(_: Fault) -> Self {
        RecoverErr::Fault
    }
}

impl From<RecoverErr> for UndoErr {
    ghost use Rattle.tc_undo.specs.Errors.{undo_err};

    ghost from_gives = { λ r e. e ≡ undo_err r };

    fn from(e: RecoverErr) -> Self {
        match e {
            RecoverErr::Fault => UndoErr::Fault,
            RecoverErr::Broken(r) => UndoErr::Broken(r),
        }
    }
}

/// A rule of the undo log.
pub fn rule(number: u8) -> Rule
    ensures { result ≡ rule_of number }
{
    Rule {
        letter: b'U',
        number,
    }
}
