//! A map from byte strings to byte strings.
ghost use Rattle.std.specs.Prelude.{◌≡◌, is_some, IfOk, OnOk, OnErr, MatchOption};
ghost use Rattle.std.specs.BTreeMap.{IsOrdered};
ghost use Rattle.std.specs.FinMap as map;
ghost use Rattle.std.specs.Option.{option_copied};
ghost use Rattle.tc_base.specs.Orders.{lexical};
ghost use Rattle.tc_maps.specs.Sizes.{map_seen};

use std::alloc::{AllocError, Global};
use std::collections::BTreeMap;
use std::marker::Model;
use std::mem::replace;
use tc_base::{Blob, Key, Keys};

/// A finite map, in which a value can be exchanged for another. A call on a key costs the logarithm of the number of keys.
#[derive(Drop)]
pub struct Rows {
    entries: BTreeMap<Key, Blob>,
}

impl Model for Rows {
    ghost use Rattle.std.specs.BTreeMap.{IsOrdered};
    ghost use Rattle.std.specs.Coded.{coded_ℕ, coded_list};
    ghost use Rattle.std.specs.FinMap.{code};
    ghost use Rattle.tc_base.specs.Maps.{Map};
    ghost use Rattle.tc_base.specs.Orders.{lexical};
    ghost use Rattle.tc_maps.specs.Sizes.{map_seen};

    ghost Value = { Map };

    ghost coded = { code (coded_list coded_ℕ) (coded_list coded_ℕ) };

    ghost view = { λ m. map_seen m.entries };

    ghost invariant = { λ m. IsOrdered lexical m.entries };
}

fn put(entries: &mut BTreeMap<Key, Blob>, key: Key, value: Blob) -> Result<(), AllocError>
    ensures ok { OnOk result (map_seen entries.new ≡ map.insert (map_seen entries.old) key value) }
    ensures err { OnErr result (map_seen entries.new ≡ map_seen entries.old) }
    ensures sorted { IsOrdered lexical entries.new }
{
    entries.insert(key, value)?;
    Ok(())
}

// Puts a value in the place of that of a key, which it hands back, if there is one.
fn swap(entries: &mut BTreeMap<Key, Blob>, key: &Key, value: Blob) -> Option<Blob>
    ensures old { result ≡ map.get (map_seen entries.old) key.now }
    ensures map { MatchOption result (map_seen entries.new ≡ map_seen entries.old) (λ old. map_seen entries.new ≡ map.insert (map_seen entries.old) key.now value) }
    ensures sorted { IsOrdered lexical entries.new }
{
    let Some(place) = entries.get_mut(key) else {
        return None;
    };
    Some(replace(place, value))
}

fn take(entries: &mut BTreeMap<Key, Blob>, key: &Key) -> bool
    ensures map { map_seen entries.new ≡ map.remove (map_seen entries.old) key.now }
    ensures held { result ≡ is_some (map.get (map_seen entries.old) key.now) }
    ensures sorted { IsOrdered lexical entries.new }
{
    entries.remove(key).is_some()
}

impl Rows {
    /// No keys, which takes no memory.
    pub fn new(alloc: Global) -> Rows
        ensures { result ≡ map.empty }
    {
        Rows {
            entries: BTreeMap::new(alloc),
        }
    }

    pub fn get(&self, key: &Key) -> Option<&Blob>
        ensures { option_copied result ≡ map.get self.now key.now }
    {
        self.entries.get(key)
    }

    /// How many keys are held.
    pub fn len(&self) -> u64
        ensures { result ≡ map.len self.now }
    {
        self.entries.len() as u64
    }

    /// Gives a key a value. An `Err` changes nothing.
    pub fn set(&mut self, key: Key, value: Blob) -> Result<(), AllocError>
        ensures ok { OnOk result (self.new ≡ map.insert self.old key value) }
        ensures err { OnErr result (self.new ≡ self.old) }
    {
        put(&mut self.entries, key, value)
    }

    /// Gives a key that is held a value, and hands back the one that it had. Where it isn't held nothing changes.
    pub fn exchange(&mut self, key: &Key, value: Blob) -> Option<Blob>
        ensures old { result ≡ map.get self.old key.now }
        ensures map { MatchOption result (self.new ≡ self.old) (λ old. self.new ≡ map.insert self.old key.now value) }
    {
        swap(&mut self.entries, key, value)
    }

    /// Takes a key out, and says whether it was held.
    pub fn remove(&mut self, key: &Key) -> bool
        ensures map { self.new ≡ map.remove self.old key.now }
        ensures held { result ≡ is_some (map.get self.old key.now) }
    {
        take(&mut self.entries, key)
    }

    /// The keys, in order.
    pub fn keys(&self, alloc: Global) -> Result<Keys, AllocError>
        ensures { IfOk result (λ found. found ≡ map.keys self.now) }
    {
        let mut found = Keys::new(alloc);
        for key in self.entries.keys() {
            found.push(Key::from_slice(alloc, key.as_slice())?)?;
        }
        Ok(found)
    }
}
