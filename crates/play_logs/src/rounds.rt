//! The requests of a round.
ghost use Rattle.std.specs.Prelude.{◌≡◌, All, IfOk, true};
ghost use Rattle.ty_ulog.specs.Updates.{IsUpdating};

use std::alloc::{AllocError, Global};
use tc_base::{Blob, Blobs};
use ty_ulog::is_update;

/// Requests, in order.
#[derive(Drop)]
pub struct Round {
    alloc: Global,
    requests: Blobs,
}

impl Round {
    /// No requests.
    pub fn new(alloc: Global) -> Round {
        Round {
            alloc,
            requests: Blobs::new(alloc),
        }
    }

    /// Adds bytes that are one updating request. Answers whether they are.
    pub fn add(&mut self, bytes: &[u8]) -> Result<bool, AllocError> {
        if !is_update(self.alloc, bytes)? {
            return Ok(false);
        }
        self.requests.push(Blob::from_slice(self.alloc, bytes)?)?;
        Ok(true)
    }

    /// The requests.
    pub fn requests(&self) -> &[Blob] {
        self.requests.as_slice()
    }
}

/// Whether each of these is one updating request.
pub fn are_updates(alloc: Global, requests: &[Blob]) -> Result<bool, AllocError>
    ensures { IfOk result (λ all. all ≡ true → All IsUpdating requests.now) }
{
    for request in requests {
        let updates = is_update(alloc, request.as_slice())?;
        if !updates {
            return Ok(false);
        }
    }
    Ok(true)
}
