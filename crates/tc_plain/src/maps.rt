//! The maps that contents are made of.
ghost use Rattle.std.specs.Prelude.{◌≡◌, IfOk, OnOk, OnErr, unwrap_or};
ghost use Rattle.std.specs.Option.{option_copied};
ghost use Rattle.std.specs.FinMap as map;
ghost use Rattle.tc_model.specs.Arrays.{least, greatest};

use std::alloc::{AllocError, Global};
use std::collections::BTreeMap;
use std::collections::btree_map::Iter;
use std::marker::Model;
use tc_base::{Blob, Blobs, Key, Keys, Pair, Pairs};
use tc_model::IndexKind;

/// What can be copied as it is.
pub trait Copied {
    fn copied(&self, alloc: Global) -> Result<Self, AllocError>
        ensures { IfOk result (λ x. x ≡ self.now) };
}

impl Copied for Blob {
    fn copied(&self, alloc: Global) -> Result<Blob, AllocError> {
        Blob::from_slice(alloc, self.as_slice())
    }
}

impl Copied for Pair {
    fn copied(&self, alloc: Global) -> Result<Pair, AllocError> {
        Ok(Pair {
            key: self.key.copied(alloc)?,
            value: self.value.copied(alloc)?,
        })
    }
}

impl Copied for Pairs {
    fn copied(&self, alloc: Global) -> Result<Pairs, AllocError> {
        let mut copy = Pairs::new(alloc);
        for pair in self.as_slice() {
            copy.push(pair.copied(alloc)?)?;
        }
        Ok(copy)
    }
}

impl Copied for Blobs {
    fn copied(&self, alloc: Global) -> Result<Blobs, AllocError> {
        let mut copy = Blobs::new(alloc);
        for text in self.as_slice() {
            copy.push(text.copied(alloc)?)?;
        }
        Ok(copy)
    }
}

impl Copied for IndexKind {
    fn copied(&self, alloc: Global) -> Result<IndexKind, AllocError> {
        Ok(*self)
    }
}

/// A map from byte strings, in their order.
#[derive(Drop)]
pub struct KeyMap<V> {
    pairs: BTreeMap<Key, V>,
}

impl<V> Model for KeyMap<V> {
    ghost use Rattle.std.specs.FinMap.{code, from_entries};
    ghost use Rattle.std.specs.Ordering.{nat_cmp};
    ghost use Rattle.std.specs.Cmp.Lexicographic.{slice_cmp};
    ghost use Rattle.tc_base.specs.Maps.{Over};
    ghost use Rattle.tc_plain.specs.Codes.{text_code};

    ghost Value = { Over V };

    ghost coded = { code text_code V.code };

    ghost view = { λ s. from_entries {R = slice_cmp nat_cmp} s.pairs.entries };
}

impl<V> KeyMap<V> {
    /// No keys, which takes no memory.
    pub fn new(alloc: Global) -> KeyMap<V>
        ensures { result ≡ map.empty }
    {
        KeyMap {
            pairs: BTreeMap::new(alloc),
        }
    }

    pub fn get(&self, key: &Key) -> Option<&V>
        ensures { option_copied result ≡ map.get self.now key.now }
    {
        self.pairs.get(key)
    }

    /// How many keys are held.
    pub fn len(&self) -> usize
        ensures { result ≡ map.len self.now }
    {
        self.pairs.len()
    }

    /// The keys with their values, in order.
    pub fn iter(&self) -> Iter<'_, Key, V>
        ensures { result ≡ map.entries self.now }
    {
        self.pairs.iter()
    }

    /// The keys, in order.
    pub fn keys(&self, alloc: Global) -> Result<Keys, AllocError>
        ensures { IfOk result (λ keys. keys ≡ map.keys self.now) }
    {
        let mut keys = Keys::new(alloc);
        for key in self.pairs.keys() {
            keys.push(Key::from_slice(alloc, key.as_slice())?)?;
        }
        Ok(keys)
    }
}

impl<V: Drop> KeyMap<V> {
    /// Gives a key a value. An `Err` changes nothing.
    pub fn set(&mut self, key: Key, value: V) -> Result<(), AllocError>
        ensures ok { OnOk result (self.new ≡ map.insert self.old key value) }
        ensures err { OnErr result (self.new ≡ self.old) }
    {
        self.pairs.insert(key, value)?;
        Ok(())
    }

    /// Takes a key out, where it is held.
    pub fn remove(&mut self, key: &Key)
        ensures { self.new ≡ map.remove self.old key.now }
    {
        self.pairs.remove(key);
    }
}

impl<V: Copied + Drop> Copied for KeyMap<V> {
    fn copied(&self, alloc: Global) -> Result<KeyMap<V>, AllocError> {
        let mut copy = KeyMap::new(alloc);
        for (key, value) in self.pairs.iter() {
            copy.set(
                Key::from_slice(alloc, key.as_slice())?,
                value.copied(alloc)?,
            )?;
        }
        Ok(copy)
    }
}

/// A map from ids to values.
#[derive(Drop)]
pub struct IdMap {
    pairs: BTreeMap<u64, Blob>,
}

impl Model for IdMap {
    ghost use Rattle.std.specs.FinMap.{from_entries};
    ghost use Rattle.std.specs.Ordering.{nat_cmp};
    ghost use Rattle.tc_model.specs.Arrays.{Array};
    ghost use Rattle.tc_plain.specs.Codes.{array_code};

    ghost Value = { Array };

    ghost coded = { array_code };

    ghost view = { λ s. from_entries {R = nat_cmp} s.pairs.entries };
}

impl IdMap {
    /// No ids, which takes no memory.
    pub fn new(alloc: Global) -> IdMap
        ensures { result ≡ map.empty }
    {
        IdMap {
            pairs: BTreeMap::new(alloc),
        }
    }

    pub fn get(&self, id: u64) -> Option<&Blob>
        ensures { option_copied result ≡ map.get self.now id }
    {
        self.pairs.get(&id)
    }

    /// How many ids are held.
    pub fn len(&self) -> usize
        ensures { result ≡ map.len self.now }
    {
        self.pairs.len()
    }

    /// The ids with their values, in order.
    pub fn iter(&self) -> Iter<'_, u64, Blob>
        ensures { result ≡ map.entries self.now }
    {
        self.pairs.iter()
    }

    /// The least id, 0 where nothing is held.
    pub fn least(&self) -> u64
        ensures { result ≡ least self.now }
    {
        for id in self.pairs.keys() {
            return *id;
        }
        0
    }

    /// The greatest id, 0 where nothing is held.
    pub fn greatest(&self) -> u64
        ensures { result ≡ greatest self.now }
    {
        let mut last = 0;
        for id in self.pairs.keys() {
            last = *id;
        }
        last
    }

    /// Gives an id a value. An `Err` changes nothing.
    pub fn set(&mut self, id: u64, value: Blob) -> Result<(), AllocError>
        ensures ok { OnOk result (self.new ≡ map.insert self.old id value) }
        ensures err { OnErr result (self.new ≡ self.old) }
    {
        self.pairs.insert(id, value)?;
        Ok(())
    }

    /// Takes an id out, where it is held.
    pub fn remove(&mut self, id: u64)
        ensures { self.new ≡ map.remove self.old id }
    {
        self.pairs.remove(&id);
    }
}

impl Copied for IdMap {
    fn copied(&self, alloc: Global) -> Result<IdMap, AllocError> {
        let mut copy = IdMap::new(alloc);
        for (id, value) in self.pairs.iter() {
            copy.set(*id, value.copied(alloc)?)?;
        }
        Ok(copy)
    }
}
