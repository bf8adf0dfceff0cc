//! The plain body, asked.

use crate::script::{Head, Step};
use std::alloc::{AllocError, Global};
use tc_base::{Blob, Request};
use tc_model::{Applied, Walk};
use tc_plain::{Contents, apply_plain};
use ty_wire::{Front, read_request, take};

/// A database and its walk.
#[derive(Drop)]
pub struct Database {
    contents: Contents,
    walk: Walk,
}

/// What a request was answered.
#[derive(Drop)]
pub struct Answer {
    reply: Blob,
    applied: Applied,
}

impl Database {
    /// An empty one.
    pub fn new(alloc: Global, head: &Head) -> Database {
        Database {
            contents: Contents::new(alloc, head.kind, head.decimal, head.width, head.greatest),
            walk: Walk::new(),
        }
    }

    fn answer(&mut self, alloc: Global, request: &Request) -> Result<Answer, AllocError> {
        let mut reply = Blob::new(alloc);
        let applied = apply_plain(
            alloc,
            &mut self.contents,
            &mut self.walk,
            request,
            &mut reply,
        )?;
        Ok(Answer { reply, applied })
    }

    /// Asks it a request, or answers none where the bytes aren't one.
    pub fn ask(&mut self, alloc: Global, bytes: &[u8]) -> Result<Option<Answer>, AllocError> {
        let Front::Whole(_) = take(bytes) else {
            return Ok(None);
        };
        let request = read_request(alloc, bytes)?;
        let answer = self.answer(alloc, &request);
        drop(request);
        Ok(Some(answer?))
    }
}

impl Answer {
    /// Whether it is what a step says.
    pub fn is_that_of(&self, step: &Step<'_>) -> bool {
        self.reply.as_slice() == step.reply
            && self.applied.ok == step.succeeds
            && self.applied.updated == step.updates
    }
}
