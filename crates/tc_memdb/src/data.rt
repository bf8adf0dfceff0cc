//! What a database in memory holds.
ghost use Rattle.std.specs.Prelude.{◌≡◌, ◌+◌, ◌↔◌, ◌≤◌, [], length, IsTrue, IfOk, OnOk, OnErr, is_some, unwrap_or, true, false};
ghost use Rattle.std.specs.Option.{option_copied};
ghost use Rattle.tc_model.specs.Contents.{kind_of, emptied};
ghost use Rattle.tc_model.specs.Stores.{held, all_keys, count, size_of, put, out, clear};
ghost use Rattle.tc_base.specs.declared.kind.Mode.TheVariants.{Cat};
ghost use Rattle.tc_memdb.specs.Holding.{contents_of, is_tree, joined_to, push, set};
ghost use Rattle.tc_memdb.specs.Made.{Made, MadeTo, SameData};
ghost use Rattle.tc_engine.specs.Changes.{pushed, stored};

use std::alloc::{AllocError, Global};
use tc_base::{Blob, Key, Keys, Kind, Mode, VALUE_MOST};
use tc_maps::{Bytemap, Multimap};

/// A map, or pairs in the order of bytes.
#[derive(Drop)]
pub enum Data {
    Map(Bytemap),
    Tree(Multimap),
}

impl Data {
    pub fn kind(&self) -> Kind
        ensures { result ≡ kind_of (contents_of self.now) }
    {
        match self {
            Data::Map(_) => Kind::MemHash,
            Data::Tree(_) => Kind::MemTree,
        }
    }

    /// The number of keys, of a tree of pairs.
    pub fn count(&self) -> u64
        ensures { result ≡ count (contents_of self.now) }
    {
        match self {
            Data::Map(map) => map.len(),
            Data::Tree(tree) => tree.len(),
        }
    }

    /// The bytes of all keys and values.
    pub fn size(&self) -> u64
        ensures { result ≡ size_of (contents_of self.now) }
    {
        match self {
            Data::Map(map) => map.bytes(),
            Data::Tree(tree) => tree.bytes(),
        }
    }

    /// The value of a key, of a tree the first.
    pub fn value(&self, key: &Key) -> Option<&Blob>
        ensures { option_copied result ≡ held (contents_of self.now) key.now }
    {
        match self {
            Data::Map(map) => map.get(key),
            Data::Tree(tree) => tree.first(key),
        }
    }

    /// The distinct keys in order.
    pub fn keys(&self, alloc: Global) -> Result<Keys, AllocError>
        ensures { IfOk result (λ keys. keys ≡ all_keys (contents_of self.now)) }
    {
        match self {
            Data::Map(map) => map.keys(alloc),
            Data::Tree(tree) => tree.keys(alloc),
        }
    }

    // Sets the value of a key, of a tree the first. An `Err` changes nothing.
    pub(crate) fn set(&mut self, key: Key, value: Blob) -> Result<(), AllocError>
        ensures ok { OnOk result (contents_of self.new ≡ set (contents_of self.old) key value) }
        ensures err { OnErr result (SameData self.old self.new) }
    {
        match self {
            Data::Map(map) => {
                map.set(key, value)?;
                Ok(())
            }
            Data::Tree(tree) => tree.set_first(key, value),
        }
    }

    // Joins bytes behind the value of a key that is held, and says whether it is. An `Err` changes nothing.
    fn join(&mut self, key: &Key, more: &[u8]) -> Result<bool, AllocError>
        ensures joined { IfOk result (λ b. b ≡ true → contents_of self.new ≡ joined_to key.now more.now (contents_of self.old)) }
        ensures held { IfOk result (λ b. b ≡ is_some (held (contents_of self.old) key.now)) }
        ensures absent { IfOk result (λ b. b ≡ false → SameData self.old self.new) }
        ensures err { OnErr result (SameData self.old self.new) }
    {
        match self {
            Data::Map(map) => map.append(key, more),
            Data::Tree(tree) => tree.append_first(key, more),
        }
    }

    // Puts a value where it isn't too long. An `Err` changes nothing.
    fn put(&mut self, key: Key, value: Blob) -> Result<bool, AllocError>
        ensures makes { MadeTo result (λ c. put c key value) self.old self.new }
        ensures err { OnErr result (SameData self.old self.new) }
    {
        if value.len() > VALUE_MOST {
            return Ok(false);
        }
        self.set(key, value)?;
        Ok(true)
    }

    // Joins bytes behind the value of a key, or gives it these alone. An `Err` changes nothing.
    fn put_joined(&mut self, key: Key, more: Blob) -> Result<bool, AllocError>
        ensures makes { MadeTo result (stored Cat key more) self.old self.new }
        ensures err { OnErr result (SameData self.old self.new) }
    {
        if !has_room(self.value(&key), more.len()) {
            return Ok(false);
        }
        if self.join(&key, more.as_slice())? {
            return Ok(true);
        }
        self.set(key, more)?;
        Ok(true)
    }

    /// Gives a key a value, and says whether it could. An `Err` changes nothing.
    pub fn store(&mut self, mode: Mode, key: Key, value: Blob) -> Result<bool, AllocError>
        ensures makes { MadeTo result (stored mode key value) self.old self.new }
        ensures err { OnErr result (SameData self.old self.new) }
    {
        match mode {
            Mode::Over => self.put(key, value),
            Mode::Keep => {
                if self.value(&key).is_some() {
                    return Ok(false);
                }
                self.put(key, value)
            }
            Mode::Cat => self.put_joined(key, value),
        }
    }

    /// Whether it is a tree.
    pub fn is_tree(&self) -> bool
        ensures { result ≡ is_tree (contents_of self.now) }
    {
        match self {
            Data::Map(_) => false,
            Data::Tree(_) => true,
        }
    }

    // Adds a value behind those that a tree has of a key. An `Err` changes nothing.
    pub(crate) fn add(&mut self, key: Key, value: Blob) -> Result<(), AllocError>
        ensures ok { OnOk result (contents_of self.new ≡ push (contents_of self.old) key value) }
        ensures err { OnErr result (SameData self.old self.new) }
    {
        match self {
            Data::Map(_) => Ok(()),
            Data::Tree(tree) => tree.push_last(key, value),
        }
    }

    /// Adds a value behind those that a tree has of a key, and says whether it could. An `Err` changes nothing.
    pub fn push(&mut self, key: Key, value: Blob) -> Result<bool, AllocError>
        ensures makes { MadeTo result (pushed key value) self.old self.new }
        ensures err { OnErr result (SameData self.old self.new) }
    {
        if !self.is_tree() || value.len() > VALUE_MOST {
            return Ok(false);
        }
        self.add(key, value)?;
        Ok(true)
    }

    /// Takes a key out, of a tree its first value, and says whether it was held.
    pub fn out(&mut self, key: &Key) -> bool
        ensures { Made (out (contents_of self.old) key.now) result (contents_of self.old) (contents_of self.new) }
    {
        match self {
            Data::Map(map) => map.remove(key),
            Data::Tree(tree) => tree.take_first(key),
        }
    }

    /// Takes out what is held of a key.
    pub fn clear_key(&mut self, key: &Key)
        ensures { contents_of self.new ≡ clear (contents_of self.old) key.now }
    {
        match self {
            Data::Map(map) => {
                map.remove(key);
            }
            Data::Tree(tree) => tree.clear_key(key),
        }
    }

    /// Takes out all that is held.
    pub fn clear(&mut self)
        ensures { contents_of self.new ≡ emptied (contents_of self.old) }
    {
        match self {
            Data::Map(map) => map.clear(),
            Data::Tree(tree) => tree.clear(),
        }
    }
}

// Whether a value has room for so many bytes behind it.
fn has_room(held: Option<&Blob>, more: usize) -> bool
    ensures { IsTrue result ↔ (length (unwrap_or (option_copied held.entry) []) + more ≤ 16777216) }
{
    let len = match held {
        Some(value) => value.len(),
        None => 0,
    };
    more <= VALUE_MOST && len <= VALUE_MOST - more
}
