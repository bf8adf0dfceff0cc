//! Changes of many keys of a database in memory.
ghost use Rattle.std.specs.Prelude.{◌≡◌, OnOk, fold};
ghost use Rattle.std.specs.List.{list_all};
ghost use Rattle.tc_model.specs.Stores.{clear};
ghost use Rattle.tc_memdb.specs.Holding.{contents_of, set, push, is_short, can_push};

use crate::data::Data;
use std::alloc::AllocError;
use tc_base::{Blobs, Key, Pair, Pairs, VALUE_MOST};

/// Whether no value is too long.
pub fn are_short(pairs: &[Pair]) -> bool
    ensures { result ≡ list_all is_short pairs.now }
{
    for pair in pairs {
        if pair.value.len() > VALUE_MOST {
            return false;
        }
    }
    true
}

impl Data {
    /// Whether each value can be added behind those of its key.
    pub fn can_push(&self, pairs: &[Pair]) -> bool
        ensures { result ≡ can_push (contents_of self.now) pairs.now }
    {
        match self {
            Data::Map(_) => pairs.is_empty(),
            Data::Tree(_) => are_short(pairs),
        }
    }

    /// Sets each value, whatever its length. After an `Err` some may be set.
    pub fn set_each(&mut self, pairs: Pairs) -> Result<(), AllocError>
        ensures { OnOk result (contents_of self.new ≡ fold (λ c p. set c p.key p.value) (contents_of self.old) pairs) }
    {
        for pair in pairs.into_vec() {
            self.set(Key::new(pair.key), pair.value)?;
        }
        Ok(())
    }

    /// Adds each value behind those that a tree has of its key, whatever its length. After an `Err` some may be added.
    pub fn push_each(&mut self, pairs: Pairs) -> Result<(), AllocError>
        ensures { OnOk result (contents_of self.new ≡ fold (λ c p. push c p.key p.value) (contents_of self.old) pairs) }
    {
        for pair in pairs.into_vec() {
            self.add(Key::new(pair.key), pair.value)?;
        }
        Ok(())
    }

    /// Takes out what is held of each key.
    pub fn clear_each(&mut self, keys: Blobs)
        ensures { contents_of self.new ≡ fold clear (contents_of self.old) keys }
    {
        for key in keys.into_vec() {
            self.clear_key(&Key::new(key));
        }
    }
}
