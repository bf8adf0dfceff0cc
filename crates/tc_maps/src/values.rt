//! The values of one key.
ghost use Rattle.std.specs.Prelude.{◌≡◌, ◌++◌, ◌∷◌, [], OnOk, OnErr, IfSome, MatchOption, slice_get};
ghost use Rattle.std.specs.Option.{option_copied};
ghost use Rattle.tc_maps.specs.Entries.{all_of};

use std::alloc::{AllocError, Global};
use std::boxed::Box;
use std::collections::VecDeque;
use std::marker::Model;
use std::mem::replace;
use tc_base::Blob;

/// The values of a key in order of arrival, at least one. A single value takes no memory beside its own.
#[derive(Drop)]
pub struct Values {
    first: Blob,
    more: Option<Box<VecDeque<Blob>>>,
}

impl Model for Values {
    ghost use Rattle.tc_maps.specs.Entries.{Held};
    ghost use Rattle.tc_maps.specs.Queues.{behind};

    ghost Value = { Held };

    ghost view = { λ v. (v.first, behind v.more) };
}

impl Values {
    /// One value. It takes no memory.
    pub fn one(first: Blob) -> Values
        ensures { result ≡ (first, []) }
    {
        Values { first, more: None }
    }

    pub fn first(&self) -> &Blob
        ensures { result.now ≡ self.now.0 }
    {
        &self.first
    }

    /// The value at a place, counted from 0.
    pub fn get(&self, place: usize) -> Option<&Blob>
        ensures { option_copied result ≡ slice_get (all_of self.now) place }
    {
        if place == 0 {
            return Some(&self.first);
        }
        match &self.more {
            Some(queue) => queue.get(place - 1),
            None => None,
        }
    }

    /// The values behind the first, in two pieces.
    pub fn rest(&self) -> (&[Blob], &[Blob])
        ensures { result.0.now ++ result.1.now ≡ self.now.1 }
    {
        match &self.more {
            Some(queue) => queue.as_slices(),
            None => (&[], &[]),
        }
    }

    /// Puts another value in place of the first.
    pub fn set_first(&mut self, value: Blob)
        ensures { self.new ≡ (value, self.old.1) }
    {
        self.first = value;
    }

    /// Joins bytes behind the first value, at the cost of these bytes. An `Err` changes nothing.
    pub fn append_first(&mut self, more: &[u8]) -> Result<(), AllocError>
        ensures ok { OnOk result (self.new ≡ (self.old.0 ++ more.now, self.old.1)) }
        ensures err { OnErr result (self.new ≡ self.old) }
    {
        self.first.append(more)
    }

    /// Adds a value behind the others. An `Err` changes nothing.
    pub fn push(&mut self, alloc: Global, value: Blob) -> Result<(), AllocError>
        ensures ok { OnOk result (self.new ≡ (self.old.0, self.old.1 ++ value ∷ [])) }
        ensures err { OnErr result (self.new ≡ self.old) }
    {
        if let Some(queue) = &mut self.more {
            queue.push_back(value)?;
            return Ok(());
        }
        let mut queue = VecDeque::new(alloc);
        queue.push_back(value)?;
        self.more = Some(Box::new(alloc, queue)?);
        Ok(())
    }

    /// Takes the first value out where there are others.
    pub fn pop(&mut self) -> Option<Blob>
        ensures alone { MatchOption result (self.old.1 ≡ []) (λ v. v ≡ self.old.0) }
        ensures rest { MatchOption result (self.new ≡ self.old) (λ v. self.old.1 ≡ all_of self.new) }
    {
        let queue = self.more.as_mut()?;
        let next = queue.pop_front()?;
        Some(replace(&mut self.first, next))
    }
}
