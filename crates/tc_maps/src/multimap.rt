//! A map from keys to values, several of a key.
ghost use Rattle.std.specs.Prelude.{◌≡◌, ◌++◌, ◌==◌, List, [], filter, length, unwrap_or, is_some, OnOk, OnErr, IfOk, None, true, false};
ghost use Rattle.std.specs.Option.{option_copied};
ghost use Rattle.std.specs.Ordering.{is_ge};
ghost use Rattle.std.specs.Map.{keys_of};
ghost use Rattle.tc_base.specs.Orders.{lexical};
ghost use Rattle.tc_base.specs.Lists.{first, values, keys, from_on, with_first, with_last, without_first, without_all};
ghost use Rattle.tc_maps.specs.Entries.{values_at, pairs_of, AreRising};
ghost use Rattle.tc_maps.specs.Totals.{sizes};

use crate::entries::{join_front, put_back, put_front, take_front};
use crate::totals::Totals;
use crate::values::Values;
use std::alloc::{AllocError, Global};
use std::collections::BTreeMap;
use std::collections::btree_map::Range;
use std::marker::Model;
use tc_base::{Blob, Key, Keys};

/// Pairs of a key and a value in ascending order of keys, pairs of one key in order of arrival. A call on a key costs the logarithm of the
/// number of keys; the number of pairs and their bytes are kept.
#[derive(Drop)]
pub struct Multimap {
    alloc: Global,
    entries: BTreeMap<Key, Values>,
    totals: Totals,
}

impl Model for Multimap {
    ghost use Rattle.std.specs.Prelude.{List};
    ghost use Rattle.tc_base.specs.declared.seq.Pair.{Pair};

    ghost Value = { List Pair };

    ghost use Rattle.tc_maps.specs.Entries.{seen};
    ghost use Rattle.tc_maps.specs.Keeping.{IsKept};

    ghost view = { λ m. seen m.entries };

    ghost invariant = { λ m. IsKept m.entries m.totals };
}

impl Multimap {
    /// No pairs, which takes no memory.
    pub fn new(alloc: Global) -> Multimap
        ensures { result ≡ [] }
    {
        Multimap {
            alloc,
            entries: BTreeMap::new(alloc),
            totals: Totals::none(),
        }
    }

    /// The number of pairs.
    pub fn len(&self) -> u64
        ensures { result ≡ length self.now }
    {
        self.totals.pairs
    }

    /// The bytes of the keys and values of all pairs.
    pub fn bytes(&self) -> u64
        ensures { result ≡ sizes self.now }
    {
        self.totals.bytes
    }

    /// The values of a key, none where it isn't held.
    pub fn values(&self, key: &Key) -> Option<&Values>
        ensures { values_at (option_copied result) ≡ values self.now key.now }
    {
        self.entries.get(key)
    }

    /// The first value of a key.
    pub fn first(&self, key: &Key) -> Option<&Blob>
        ensures { option_copied result ≡ first self.now key.now }
    {
        match self.entries.get(key) {
            Some(values) => Some(values.first()),
            None => None,
        }
    }

    /// Puts a value in place of the first of its key, or adds a pair where the key has none. An `Err` changes nothing.
    pub fn set_first(&mut self, key: Key, value: Blob) -> Result<(), AllocError>
        ensures ok { OnOk result (self.new ≡ with_first lexical self.old key value) }
        ensures err { OnErr result (self.new ≡ self.old) }
    {
        let key_len = key.len();
        let Some(most) = self.totals.with(key_len, value.len()) else {
            return Err(AllocError);
        };
        let replaced = put_front(&mut self.entries, key, value)?;
        self.totals = most.less(key_len, replaced);
        Ok(())
    }

    /// Adds a pair behind those of its key. An `Err` changes nothing.
    pub fn push_last(&mut self, key: Key, value: Blob) -> Result<(), AllocError>
        ensures ok { OnOk result (self.new ≡ with_last lexical self.old key value) }
        ensures err { OnErr result (self.new ≡ self.old) }
    {
        let Some(most) = self.totals.with(key.len(), value.len()) else {
            return Err(AllocError);
        };
        put_back(self.alloc, &mut self.entries, key, value)?;
        self.totals = most;
        Ok(())
    }

    /// Joins bytes behind the first value of a key, at the cost of these bytes, and says whether the key is held. An `Err` changes nothing.
    pub fn append_first(&mut self, key: &Key, more: &[u8]) -> Result<bool, AllocError>
        ensures held { IfOk result (λ b. b ≡ is_some (first self.old key.now)) }
        ensures joined { IfOk result (λ b. b ≡ true → self.new ≡ with_first lexical self.old key.now (unwrap_or (first self.old key.now) [] ++ more.now)) }
        ensures absent { IfOk result (λ b. b ≡ false → self.new ≡ self.old) }
        ensures err { OnErr result (self.new ≡ self.old) }
    {
        let Some(bytes) = self.totals.bytes.checked_add(more.len() as u64) else {
            return Err(AllocError);
        };
        let held = join_front(&mut self.entries, key, more)?;
        if held {
            self.totals.bytes = bytes;
        }
        Ok(held)
    }

    /// Takes the first pair of a key out, and says whether there was one.
    pub fn take_first(&mut self, key: &Key) -> bool
        ensures pairs { self.new ≡ without_first lexical self.old key.now }
        ensures held { result ≡ is_some (first self.old key.now) }
        ensures absent { result ≡ false → self.new ≡ self.old }
    {
        let taken = take_front(&mut self.entries, key);
        self.totals = self.totals.less(key.len(), taken);
        taken.is_some()
    }

    /// Takes all pairs of a key out.
    pub fn clear_key(&mut self, key: &Key)
        ensures { self.new ≡ without_all lexical self.old key.now }
    {
        let Some(values) = self.entries.remove(key) else {
            return;
        };
        self.totals = self.totals.less_all(key.len(), &values);
    }

    /// Takes all pairs out.
    pub fn clear(&mut self)
        ensures { self.new ≡ [] }
    {
        self.entries.clear();
        self.totals = Totals::none();
    }

    /// The keys, each once, in order.
    pub fn keys(&self, alloc: Global) -> Result<Keys, AllocError>
        ensures { IfOk result (λ found. found ≡ keys self.now) }
    {
        let mut found = Keys::new(alloc);
        for key in self.entries.keys() {
            found.push(Key::from_slice(alloc, key.as_slice())?)?;
        }
        Ok(found)
    }

    /// The keys from one on with their values, in order. What isn't asked of it costs nothing.
    pub fn entries_from(&self, from: &Key) -> Range<'_, Key, Values>
        ensures pairs { pairs_of result ≡ from_on lexical from.now self.now }
        ensures keys { keys_of result ≡ filter (λ k. is_ge (lexical k from.now)) (keys self.now) }
        ensures rising { AreRising (keys_of result) }
    {
        self.entries.range(from..)
    }
}
