//! A map from keys to values, one of a key.
ghost use Rattle.std.specs.Prelude.{◌≡◌, ◌++◌, ◌+◌, ◌≤◌, length, option_map, is_some, OnOk, OnErr, IfOk, IfSome, true, false};
ghost use Rattle.std.specs.Option.{option_copied};
ghost use Rattle.std.specs.BTreeMap.{IsOrdered};
ghost use Rattle.std.specs.FinMap as map;
ghost use Rattle.std.specs.Map.{keys_of};
ghost use Rattle.tc_maps.specs.Entries.{AreRising};
ghost use Rattle.tc_base.specs.Orders.{lexical};
ghost use Rattle.tc_maps.specs.Sizes.{size_of, value_of, size_gone, map_seen, entries_on};

use std::alloc::{AllocError, Global};
use std::collections::BTreeMap;
use std::collections::btree_map::Range;
use std::marker::Model;
use tc_base::{Blob, Key, Keys};

/// A finite map from keys to values. A call on a key costs the logarithm of the number of keys; the bytes of all keys and values are kept.
#[derive(Drop)]
pub struct Bytemap {
    entries: BTreeMap<Key, Blob>,
    bytes: u64,
}

impl Model for Bytemap {
    ghost use Rattle.std.specs.FinMap.{code};
    ghost use Rattle.std.specs.Coded.{coded_ℕ, coded_list};
    ghost use Rattle.tc_base.specs.Maps.{Map};
    ghost use Rattle.tc_maps.specs.Sizes.{map_seen, IsSized};

    ghost Value = { Map };

    ghost coded = { code (coded_list coded_ℕ) (coded_list coded_ℕ) };

    ghost view = { λ m. map_seen m.entries };

    ghost invariant = { λ m. IsSized m.entries m.bytes };
}

// The bytes with those of another entry, or none where they don't fit.
fn with_entry(bytes: u64, key: usize, value: usize) -> Option<u64>
    ensures { IfSome result (λ n. n ≡ bytes + (key + value)) }
{
    bytes.checked_add(key as u64)?.checked_add(value as u64)
}

// The bytes without those of an entry that was there.
fn less_entry(bytes: u64, key: usize, value: Option<usize>) -> u64
    requires { size_gone key value ≤ bytes }
    ensures { result + size_gone key value ≡ bytes }
{
    match value {
        Some(value) => bytes - key as u64 - value as u64,
        None => bytes,
    }
}

// Gives a key a value, and hands back the length of the one that it replaced.
fn put(
    entries: &mut BTreeMap<Key, Blob>,
    key: Key,
    value: Blob,
) -> Result<Option<usize>, AllocError>
    ensures ok { OnOk result (map_seen entries.new ≡ map.insert (map_seen entries.old) key value) }
    ensures replaced { IfOk result (λ o. o ≡ option_map length (map.get (map_seen entries.old) key)) }
    ensures err { OnErr result (map_seen entries.new ≡ map_seen entries.old) }
    ensures sorted { IsOrdered lexical entries.new }
{
    match entries.insert(key, value)? {
        Some(old) => Ok(Some(old.len())),
        None => Ok(None),
    }
}

// Joins bytes behind the value of a key, and says whether the key is held.
fn join(entries: &mut BTreeMap<Key, Blob>, key: &Key, more: &[u8]) -> Result<bool, AllocError>
    ensures held { IfOk result (λ b. b ≡ true → map_seen entries.new ≡ map.insert (map_seen entries.old) key.now (value_of (map_seen entries.old) key.now ++ more.now)) }
    ensures found { IfOk result (λ b. b ≡ is_some (map.get (map_seen entries.old) key.now)) }
    ensures absent { IfOk result (λ b. b ≡ false → map_seen entries.new ≡ map_seen entries.old) }
    ensures err { OnErr result (map_seen entries.new ≡ map_seen entries.old) }
    ensures sorted { IsOrdered lexical entries.new }
{
    let Some(value) = entries.get_mut(key) else {
        return Ok(false);
    };
    let Ok(()) = value.append(more) else {
        return Err(AllocError);
    };
    Ok(true)
}

// Takes a key out, and hands back the length of its value.
fn take(entries: &mut BTreeMap<Key, Blob>, key: &Key) -> Option<usize>
    ensures map { map_seen entries.new ≡ map.remove (map_seen entries.old) key.now }
    ensures taken { result ≡ option_map length (map.get (map_seen entries.old) key.now) }
    ensures sorted { IsOrdered lexical entries.new }
{
    match entries.remove(key) {
        Some(value) => Some(value.len()),
        None => None,
    }
}

impl Bytemap {
    /// No keys, which takes no memory.
    pub fn new(alloc: Global) -> Bytemap
        ensures { result ≡ map.empty }
    {
        Bytemap {
            entries: BTreeMap::new(alloc),
            bytes: 0,
        }
    }

    pub fn get(&self, key: &Key) -> Option<&Blob>
        ensures { option_copied result ≡ map.get self.now key.now }
    {
        self.entries.get(key)
    }

    /// How many keys are held.
    pub fn len(&self) -> u64
        ensures { result ≡ map.len self.now }
    {
        self.entries.len() as u64
    }

    /// The bytes of all keys and values.
    pub fn bytes(&self) -> u64
        ensures { result ≡ size_of self.now }
    {
        self.bytes
    }

    /// Gives a key a value, and hands back the length of the one that it had. An `Err` changes nothing.
    pub fn set(&mut self, key: Key, value: Blob) -> Result<Option<usize>, AllocError>
        ensures ok { OnOk result (self.new ≡ map.insert self.old key value) }
        ensures replaced { IfOk result (λ old. old ≡ option_map length (map.get self.old key)) }
        ensures err { OnErr result (self.new ≡ self.old) }
    {
        let key_len = key.len();
        let Some(most) = with_entry(self.bytes, key_len, value.len()) else {
            return Err(AllocError);
        };
        let replaced = put(&mut self.entries, key, value)?;
        self.bytes = less_entry(most, key_len, replaced);
        Ok(replaced)
    }

    /// Joins bytes behind the value of a key, at the cost of these bytes, and says whether the key is held. An `Err` changes nothing.
    pub fn append(&mut self, key: &Key, more: &[u8]) -> Result<bool, AllocError>
        ensures held { IfOk result (λ b. b ≡ is_some (map.get self.old key.now)) }
        ensures joined { IfOk result (λ b. b ≡ true → self.new ≡ map.insert self.old key.now (value_of self.old key.now ++ more.now)) }
        ensures absent { IfOk result (λ b. b ≡ false → self.new ≡ self.old) }
        ensures err { OnErr result (self.new ≡ self.old) }
    {
        let Some(bytes) = self.bytes.checked_add(more.len() as u64) else {
            return Err(AllocError);
        };
        let held = join(&mut self.entries, key, more)?;
        if held {
            self.bytes = bytes;
        }
        Ok(held)
    }

    /// Takes a key out, and says whether it was held.
    pub fn remove(&mut self, key: &Key) -> bool
        ensures map { self.new ≡ map.remove self.old key.now }
        ensures held { result ≡ is_some (map.get self.old key.now) }
    {
        let taken = take(&mut self.entries, key);
        self.bytes = less_entry(self.bytes, key.len(), taken);
        taken.is_some()
    }

    /// Takes all keys out.
    pub fn clear(&mut self)
        ensures { self.new ≡ map.empty }
    {
        self.entries.clear();
        self.bytes = 0;
    }

    /// The keys, in order.
    pub fn keys(&self, alloc: Global) -> Result<Keys, AllocError>
        ensures { IfOk result (λ found. found ≡ map.keys self.now) }
    {
        let mut found = Keys::new(alloc);
        for key in self.entries.keys() {
            found.push(Key::from_slice(alloc, key.as_slice())?)?;
        }
        Ok(found)
    }

    /// The keys from one on with their values, in order. What isn't asked of it costs nothing.
    pub fn entries_from(&self, from: &Key) -> Range<'_, Key, Blob>
        ensures entries { result ≡ entries_on from.now self.now }
        ensures rising { AreRising (keys_of result) }
    {
        self.entries.range(from..)
    }
}
