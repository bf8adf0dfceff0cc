//! A map in memory.
ghost use Rattle.std.specs.Prelude.{◌≡◌, IsSome, None, OnErr, IfOk, true, false};
ghost use Rattle.std.specs.FinMap.{empty, get, keys};
ghost use Rattle.tc_base.specs.declared.kind.Mode.TheVariants.{Keep};
ghost use Rattle.tc_space.specs.Changes.{is_in, out_of, put_in};

use crate::cells::Cells;
use crate::values::given;
use std::alloc::{AllocError, Global};
use std::marker::PhantomData;
use tc_base::{Blob, Blobs, Form, Key, Mode, Steps};
use tc_space::{PutErr, RecErr, Records, Space};

/// A map in memory that leaves the file it is given alone.
#[derive(Drop)]
pub struct MemRecords<S> {
    alloc: Global,
    map: Cells,
    file: u32,
    region: [u8; 128],
    gets: u64,
    of: PhantomData<S>,
}

impl<S> MemRecords<S> {
    /// No keys, and a region of zeros. It takes no memory.
    pub fn new(alloc: Global, file: u32) -> MemRecords<S>
        ensures map { result.map ≡ empty }
        ensures file { result.file ≡ file }
        ensures gets { result.gets ≡ 0 }
    {
        MemRecords {
            alloc,
            map: Cells::new(alloc),
            file,
            region: [0; 128],
            gets: 0,
            of: PhantomData,
        }
    }

    /// How many gets were made. The count stays at the greatest u64.
    pub fn gets(&self) -> u64
        ensures { result ≡ self.now.gets }
    {
        self.gets
    }
}

// A copy of the value of a key.
fn value_of(alloc: Global, map: &Cells, key: &[u8]) -> Result<Option<Blob>, AllocError>
    ensures { IfOk result (λ o. o ≡ get map.now key.now) }
{
    let key = Key::from_slice(alloc, key)?;
    match map.get(&key) {
        Some(value) => Ok(Some(Blob::from_slice(alloc, value.as_slice())?)),
        None => Ok(None),
    }
}

// Copies of keys.
fn copies_of(alloc: Global, keys: &[Key]) -> Result<Blobs, AllocError>
    ensures { IfOk result (λ copies. copies ≡ keys.now) }
{
    let mut copies = Blobs::new(alloc);
    for key in keys {
        copies.push(Blob::from_slice(alloc, key.as_slice())?)?;
    }
    Ok(copies)
}

// A map's keys, in order.
fn keys_of(alloc: Global, map: &mut Cells) -> Result<Blobs, AllocError>
    ensures keys { IfOk result (λ found. found ≡ keys map.old) }
    ensures same { map.new ≡ map.old }
{
    let found = map.keys(alloc)?;
    copies_of(alloc, found.as_slice())
}

// Gives a key a value. False where it is held and is to be kept. An `Err` changes nothing.
fn store(
    alloc: Global,
    map: &mut Cells,
    key: &[u8],
    value: &[u8],
    mode: Mode,
) -> Result<bool, AllocError>
    ensures put { IfOk result (λ b. b ≡ true → map.new ≡ put_in mode key.now value.now map.old) }
    ensures absent { IfOk result (λ b. b ≡ true → mode ≡ Keep → get map.old key.now ≡ None) }
    ensures exists { IfOk result (λ b. b ≡ false → (mode ≡ Keep) × IsSome (get map.old key.now) × (map.new ≡ map.old)) }
    ensures err { OnErr result (map.new ≡ map.old) }
{
    if mode == Mode::Over {
        // the old value isn't asked for
        map.put(key, value)?;
        return Ok(true);
    }
    let key = Key::from_slice(alloc, key)?;
    let old = map.get(&key);
    if mode == Mode::Keep && old.is_some() {
        return Ok(false);
    }
    let value = given(alloc, old, value, mode)?;
    map.set(key, value)?;
    Ok(true)
}

// Takes a key out, where it is held.
fn take_out(alloc: Global, map: &mut Cells, key: &[u8]) -> Result<bool, AllocError>
    ensures held { IfOk result (λ b. b ≡ is_in key.now map.old) }
    ensures out { IfOk result (λ b. b ≡ true → map.new ≡ out_of key.now map.old) }
    ensures none { IfOk result (λ b. b ≡ false → map.new ≡ map.old) }
    ensures err { OnErr result (map.new ≡ map.old) }
{
    let key = Key::from_slice(alloc, key)?;
    if map.get(&key).is_none() {
        return Ok(false);
    }
    let _ = map.remove(&key);
    Ok(true)
}

impl<S: Space> Records for MemRecords<S> {
    type S = S;

    ghost use Rattle.std.specs.Prelude.{◌≡◌, []};

    ghost file_of = { λ r. r.file };

    ghost holds = { λ r bytes m. r.map ≡ m };

    ghost sort = { λ r. 0 };

    ghost numbers = { λ r. [] };

    ghost lead = { λ r. 0 };

    ghost stands = { λ sort numbers bytes m region. Unit {0} };

    ghost region = { λ r. r.region };

    ghost lacks = { λ r old new key value. ⊥ };

    ghost lacks_large = { λ r old new. ⊥ };

    ghost filled = { λ r ps. Unit {0} };

    ghost tight = { λ r from form bytes. Unit {0} };

    ghost packed = { λ from form bytes. Unit {0} };

    ghost slack = { λ bytes. 0 };

    ghost gets = { λ r. r.gets };

    ghost lacks_still = { λ r old mid new key value given lacks. lacks };

    fn file(&self) -> u32 {
        self.file
    }

    fn count(&self) -> u64 {
        self.map.len()
    }

    fn opaque(&self) -> [u8; 128] {
        self.region
    }

    fn get<L>(
        &mut self,
        space: &mut S,
        key: &[u8],
        steps: &mut Steps<L>,
    ) -> Result<Option<Blob>, RecErr> {
        self.gets = self.gets.saturating_add(1);
        let Ok(value) = value_of(self.alloc, &self.map, key) else {
            return Err(RecErr::Memory);
        };
        Ok(value)
    }

    fn put<L>(
        &mut self,
        space: &mut S,
        key: &[u8],
        value: &[u8],
        mode: Mode,
        steps: &mut Steps<L>,
    ) -> Result<(), PutErr> {
        let Ok(stored) = store(self.alloc, &mut self.map, key, value, mode) else {
            return Err(PutErr::Memory);
        };
        if !stored {
            return Err(PutErr::Exists);
        }
        Ok(())
    }

    fn out<L>(&mut self, space: &mut S, key: &[u8], steps: &mut Steps<L>) -> Result<bool, RecErr> {
        let Ok(taken) = take_out(self.alloc, &mut self.map, key) else {
            return Err(RecErr::Memory);
        };
        Ok(taken)
    }

    fn keys<L>(&mut self, space: &mut S, steps: &mut Steps<L>) -> Result<Blobs, RecErr> {
        let Ok(keys) = keys_of(self.alloc, &mut self.map) else {
            return Err(RecErr::Memory);
        };
        Ok(keys)
    }

    fn set_opaque(&mut self, bytes: &[u8; 128]) {
        self.region = *bytes;
    }

    fn settle(&mut self, space: &mut S) -> Result<(), RecErr> {
        Ok(())
    }

    fn clear(&mut self, space: &mut S) -> Result<(), RecErr> {
        self.map = Cells::new(self.alloc);
        Ok(())
    }

    fn pack(&mut self, space: &mut S, form: Form) -> Result<(), RecErr> {
        Ok(())
    }
}
