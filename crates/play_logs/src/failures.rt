//! Why a line of a case fails: it isn't as it is to be, or a call was refused.

use play_text::{Why, Wrong};
use std::alloc::AllocError;
use tc_base::Fault;
use tc_space::{OpenErr, RecErr};

/// Why a line fails.
#[derive(Drop)]
pub enum Failure {
    Line(Wrong),
    Record(RecErr),
    Open(OpenErr),
    Fault(Fault),
    Memory(AllocError),
}

impl From<Wrong> for Failure {
    fn from(wrong: Wrong) -> Failure {
        Failure::Line(wrong)
    }
}

impl From<RecErr> for Failure {
    fn from(refused: RecErr) -> Failure {
        Failure::Record(refused)
    }
}

impl From<OpenErr> for Failure {
    fn from(unopened: OpenErr) -> Failure {
        Failure::Open(unopened)
    }
}

impl From<Fault> for Failure {
    fn from(fault: Fault) -> Failure {
        Failure::Fault(fault)
    }
}

impl From<AllocError> for Failure {
    fn from(e: AllocError) -> Failure {
        Failure::Memory(e)
    }
}

impl From<Failure> for Wrong {
    fn from(failure: Failure) -> Wrong {
        match failure {
            Failure::Line(wrong) => wrong,
            Failure::Memory(_) | Failure::Record(RecErr::Memory) => Wrong::Memory,
            Failure::Open(OpenErr::Memory) => Wrong::Memory,
            Failure::Open(OpenErr::Broken { .. }) => Wrong::Not(Why::BrokenLog),
            Failure::Record(RecErr::Full) => Wrong::Not(Why::Limit),
            _ => Wrong::Not(Why::Fault),
        }
    }
}
