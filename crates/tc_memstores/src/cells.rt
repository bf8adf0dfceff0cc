//! A map whose value that was put last is at hand.
ghost use Rattle.std.specs.Prelude.{◌≡◌, ◌↔◌, true, false, IsTrue, IsSome, is_some, Some, IfOk, OnOk, OnErr, MatchOption};
ghost use Rattle.std.specs.FinMap as map;
ghost use Rattle.std.specs.Option.{option_copied};
ghost use Rattle.tc_base.specs.Maps.{Map};
ghost use Rattle.tc_memstores.specs.Cells.{HasKey, with_last};

use crate::rows::Rows;
use std::alloc::{AllocError, Global};
use std::marker::Model;
use std::mem::replace;
use tc_base::{Blob, Key, Keys};

/// A key and the value that it was given last.
#[derive(Drop)]
pub struct Last {
    key: Key,
    value: Blob,
}

/// A finite map. A call on a key costs the logarithm of the number of keys, a put over the value that was put last only its bytes, and takes no other memory for them than that which the value has.
#[derive(Drop)]
pub struct Cells {
    alloc: Global,
    /// All keys; the value of the last one is elsewhere.
    rows: Rows,
    last: Option<Last>,
}

impl Model for Cells {
    ghost use Rattle.std.specs.Coded.{coded_ℕ, coded_list};
    ghost use Rattle.std.specs.FinMap.{code};
    ghost use Rattle.tc_base.specs.Maps.{Map};
    ghost use Rattle.tc_memstores.specs.Cells.{HasKey, with_last};

    ghost Value = { Map };

    ghost coded = { code (coded_list coded_ℕ) (coded_list coded_ℕ) };

    ghost view = { λ m. with_last m.last m.rows };

    ghost invariant = { λ m. HasKey m.last m.rows };
}

// Bytes in the place of others. An `Err` changes nothing.
fn overwrite(bytes: &mut Vec<u8>, value: &[u8]) -> Result<(), AllocError>
    ensures ok { OnOk result (bytes.new.items ≡ value.now) }
    ensures err { OnErr result (bytes.new.items ≡ bytes.old.items) }
{
    let len = bytes.len();
    if value.len() < len {
        bytes.truncate(value.len());
    } else {
        bytes.extend_from_slice(&value[len..])?;
    }
    bytes.copy_from_slice(value);
    Ok(())
}

// A value in the place of another, in its memory. An `Err` changes nothing.
fn refill(alloc: Global, old: &mut Blob, value: &[u8]) -> Result<(), AllocError>
    ensures ok { OnOk result (old.new ≡ value.now) }
    ensures err { OnErr result (old.new ≡ old.old) }
{
    let mut bytes = replace(old, Blob::new(alloc)).into_vec();
    let filled = overwrite(&mut bytes, value);
    *old = Blob::from_vec(bytes);
    filled
}

fn is_key(key: &Key, bytes: &[u8]) -> bool
    ensures { IsTrue result ↔ (key.now ≡ bytes.now) }
{
    key.as_slice() == bytes
}

// Puts over the last value, and says whether it has this key. An `Err` changes nothing.
fn renew(
    alloc: Global,
    last: &mut Option<Last>,
    key: &[u8],
    value: &[u8],
) -> Result<bool, AllocError>
    ensures held { IfOk result (λ b. b ≡ true → (m : Map) → HasKey last.old m → HasKey last.new m × (with_last last.new m ≡ map.insert (with_last last.old m) key.now value.now)) }
    ensures other { IfOk result (λ b. b ≡ false → last.new ≡ last.old) }
    ensures err { OnErr result (last.new ≡ last.old) }
{
    let Some(last) = last else {
        return Ok(false);
    };
    if !is_key(&last.key, key) {
        return Ok(false);
    }
    let Ok(()) = refill(alloc, &mut last.value, value) else {
        return Err(AllocError);
    };
    Ok(true)
}

// Brings the last value to its place in the map.
fn put_back(rows: &mut Rows, last: Option<Last>)
    requires { HasKey last rows.old }
    ensures { rows.new ≡ with_last last rows.old }
{
    if let Some(Last { key, value }) = last {
        let _ = rows.exchange(&key, value);
    }
}

// The value of a key, put in the place of the old one, in the memory of that. An `Err` changes nothing.
fn put_over(
    alloc: Global,
    rows: &mut Rows,
    key: Key,
    old: Blob,
    value: &[u8],
) -> Result<Last, AllocError>
    ensures ok { IfOk result (λ last. (last.key ≡ key) × (last.value ≡ value.now)) }
    ensures same { OnOk result (rows.new ≡ rows.old) }
    ensures err { OnErr result (IsSome (map.get rows.old key) → rows.new ≡ map.insert rows.old key old) }
{
    let mut room = old;
    if refill(alloc, &mut room, value).is_err() {
        let _ = rows.exchange(&key, room);
        return Err(AllocError);
    }
    Ok(Last { key, value: room })
}

// A new key and its value.
fn put_new(alloc: Global, rows: &mut Rows, key: Key, value: &[u8]) -> Result<Last, AllocError>
    ensures ok { IfOk result (λ last. (last.key ≡ key) × (last.value ≡ value.now)) }
    ensures held { OnOk result (IsSome (map.get rows.new key) × (map.insert rows.new key value.now ≡ map.insert rows.old key value.now)) }
    ensures err { OnErr result (rows.new ≡ rows.old) }
{
    let value = Blob::from_slice(alloc, value)?;
    let held = Key::from_slice(alloc, key.as_slice())?;
    rows.set(held, Blob::new(alloc))?;
    Ok(Last { key, value })
}

// The value of a key, which the map gives room. An `Err` changes nothing.
fn put_beside(alloc: Global, rows: &mut Rows, key: &[u8], value: &[u8]) -> Result<Last, AllocError>
    ensures key { IfOk result (λ last. IsSome (map.get rows.new last.key)) }
    ensures put { IfOk result (λ last. map.insert rows.new last.key last.value ≡ map.insert rows.old key.now value.now) }
    ensures err { OnErr result (rows.new ≡ rows.old) }
{
    let key = Key::from_slice(alloc, key)?;
    let Some(old) = rows.exchange(&key, Blob::new(alloc)) else {
        return put_new(alloc, rows, key, value);
    };
    put_over(alloc, rows, key, old, value)
}

// The last value, if it has this key.
fn last_of<'a>(last: &'a Option<Last>, key: &[u8]) -> Option<&'a Blob>
    ensures { MatchOption result ((m : Map) → map.get (with_last last.now m) key.now ≡ map.get m key.now) (λ value. (m : Map) → map.get (with_last last.now m) key.now ≡ Some value.now) }
{
    let Some(last) = last else {
        return None;
    };
    if !is_key(&last.key, key) {
        return None;
    }
    Some(&last.value)
}

impl Cells {
    /// No keys, which takes no memory.
    pub fn new(alloc: Global) -> Cells
        ensures { result ≡ map.empty }
    {
        Cells {
            alloc,
            rows: Rows::new(alloc),
            last: None,
        }
    }

    pub fn get(&self, key: &Key) -> Option<&Blob>
        ensures { option_copied result ≡ map.get self.now key.now }
    {
        match last_of(&self.last, key.as_slice()) {
            Some(value) => Some(value),
            None => self.rows.get(key),
        }
    }

    /// How many keys are held.
    pub fn len(&self) -> u64
        ensures { result ≡ map.len self.now }
    {
        self.rows.len()
    }

    /// Gives a key a value. An `Err` changes nothing.
    pub fn put(&mut self, key: &[u8], value: &[u8]) -> Result<(), AllocError>
        ensures ok { OnOk result (self.new ≡ map.insert self.old key.now value.now) }
        ensures err { OnErr result (self.new ≡ self.old) }
    {
        if renew(self.alloc, &mut self.last, key, value)? {
            return Ok(());
        }
        let last = replace(&mut self.last, None);
        put_back(&mut self.rows, last);
        let last = put_beside(self.alloc, &mut self.rows, key, value)?;
        self.last = Some(last);
        Ok(())
    }

    /// Gives a key a value, as `put` does.
    pub fn set(&mut self, key: Key, value: Blob) -> Result<(), AllocError>
        ensures ok { OnOk result (self.new ≡ map.insert self.old key value) }
        ensures err { OnErr result (self.new ≡ self.old) }
    {
        let last = replace(&mut self.last, None);
        put_back(&mut self.rows, last);
        self.rows.set(key, value)
    }

    /// Takes a key out, and says whether it was held.
    pub fn remove(&mut self, key: &Key) -> bool
        ensures map { self.new ≡ map.remove self.old key.now }
        ensures held { result ≡ is_some (map.get self.old key.now) }
    {
        let last = replace(&mut self.last, None);
        put_back(&mut self.rows, last);
        self.rows.remove(key)
    }

    /// The keys, in order.
    pub fn keys(&mut self, alloc: Global) -> Result<Keys, AllocError>
        ensures keys { IfOk result (λ found. found ≡ map.keys self.old) }
        ensures same { self.new ≡ self.old }
    {
        let last = replace(&mut self.last, None);
        put_back(&mut self.rows, last);
        self.rows.keys(alloc)
    }
}
