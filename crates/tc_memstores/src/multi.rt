//! A list of pairs in memory.
ghost use Rattle.std.specs.Prelude.{◌≡◌, IsSome, None, [], OnOk, OnErr, IfOk, true, false};
ghost use Rattle.tc_base.specs.Lists.{first};
ghost use Rattle.tc_base.specs.declared.kind.Mode.TheVariants.{Keep};
ghost use Rattle.tc_space.specs.Changes.{has_pair, put_first, put_last};
ghost use Rattle.tc_memstores.specs.Sides.{less};

use crate::lists::{pairs_inside, values_of, with};
use crate::values::{behind_first, put_front};
use std::alloc::{AllocError, Global};
use std::marker::PhantomData;
use tc_base::{Blob, Blobs, Cut, Form, Mode, Order, Pairs, Steps};
use tc_space::{Multi, PutErr, RecErr, Space};

/// A list of pairs in memory that leaves the file it is given alone.
#[derive(Drop)]
pub struct MemMulti<S, O> {
    alloc: Global,
    pairs: Pairs,
    file: u32,
    of: PhantomData<S>,
    by: PhantomData<O>,
}

impl<S, O> MemMulti<S, O> {
    /// No pairs. It takes no memory.
    pub fn new(alloc: Global, file: u32) -> MemMulti<S, O>
        ensures pairs { result.pairs ≡ [] }
        ensures file { result.file ≡ file }
    {
        MemMulti {
            alloc,
            pairs: Pairs::new(alloc),
            file,
            of: PhantomData,
            by: PhantomData,
        }
    }
}

// A copy of the first value of a key.
fn first_of(alloc: Global, pairs: &Pairs, key: &[u8]) -> Result<Option<Blob>, AllocError>
    ensures { IfOk result (λ o. o ≡ first pairs.now key.now) }
{
    let values = values_of(alloc, pairs.as_slice(), key)?;
    if values.len() == 0 {
        return Ok(None);
    }
    let value = Blob::from_slice(alloc, values.at(0).as_slice())?;
    Ok(Some(value))
}

// Gives a key a first value. False where it is held and is to be kept. An `Err` changes nothing.
fn store<O: Order>(
    alloc: Global,
    pairs: &mut Pairs,
    key: &[u8],
    value: &[u8],
    mode: Mode,
) -> Result<bool, AllocError>
    ensures put { IfOk result (λ b. b ≡ true → pairs.new ≡ put_first O.cmp mode key.now value.now pairs.old) }
    ensures absent { IfOk result (λ b. b ≡ true → mode ≡ Keep → first pairs.old key.now ≡ None) }
    ensures exists { IfOk result (λ b. b ≡ false → (mode ≡ Keep) × IsSome (first pairs.old key.now) × (pairs.new ≡ pairs.old)) }
    ensures err { OnErr result (pairs.new ≡ pairs.old) }
{
    let values = values_of(alloc, pairs.as_slice(), key)?;
    if mode == Mode::Keep && values.len() > 0 {
        return Ok(false);
    }
    let values = put_front(alloc, &values, value, mode)?;
    *pairs = with::<O>(alloc, pairs, key, &values)?;
    Ok(true)
}

// Adds a pair behind those of its key. An `Err` changes nothing.
fn add<O: Order>(
    alloc: Global,
    pairs: &mut Pairs,
    key: &[u8],
    value: &[u8],
) -> Result<(), AllocError>
    ensures ok { OnOk result (pairs.new ≡ put_last O.cmp key.now value.now pairs.old) }
    ensures err { OnErr result (pairs.new ≡ pairs.old) }
{
    let mut values = values_of(alloc, pairs.as_slice(), key)?;
    values.push(Blob::from_slice(alloc, value)?)?;
    *pairs = with::<O>(alloc, pairs, key, &values)?;
    Ok(())
}

// Takes the first value of a key out, or all of them. An `Err` changes nothing.
fn take_out<O: Order>(
    alloc: Global,
    pairs: &mut Pairs,
    key: &[u8],
    all: bool,
) -> Result<bool, AllocError>
    ensures held { IfOk result (λ b. b ≡ has_pair key.now pairs.old) }
    ensures out { IfOk result (λ b. b ≡ true → pairs.new ≡ less O.cmp all key.now pairs.old) }
    ensures none { IfOk result (λ b. b ≡ false → pairs.new ≡ pairs.old) }
    ensures err { OnErr result (pairs.new ≡ pairs.old) }
{
    let values = values_of(alloc, pairs.as_slice(), key)?;
    if values.len() == 0 {
        return Ok(false);
    }
    let rest = if all {
        Blobs::new(alloc)
    } else {
        behind_first(alloc, &values)?
    };
    *pairs = with::<O>(alloc, pairs, key, &rest)?;
    Ok(true)
}

impl<S: Space, O: Order> Multi for MemMulti<S, O> {
    type S = S;

    type O = O;

    ghost use Rattle.std.specs.Prelude.{◌≡◌, None, []};
    ghost use Rattle.tc_base.specs.Lists.{Rises};

    ghost file_of = { λ r. r.file };

    ghost holds = { λ r bytes ps. (r.pairs ≡ ps) × Rises O.cmp ps };

    ghost made = { λ r. record { sort = 0; numbers = []; code = O.CODE; leaf = 0; node = 0; column = None } };

    ghost lead = { λ r. 0 };

    ghost stands = { λ made bytes ps. Unit {0} };

    ghost fills = { λ r old new ps qs. ⊥ };

    ghost lacks_large = { λ r old new. ⊥ };

    ghost lacks_bare = { λ r old new. ⊥ };

    ghost tight = { λ r from form bytes. Unit {0} };

    ghost packed = { λ from form bytes. Unit {0} };

    ghost slack = { λ bytes. 0 };

    ghost gets = { λ r. 0 };

    ghost rises = { λ r bytes ps held. held.1 };

    fn file(&self) -> u32 {
        self.file
    }

    fn count(&self) -> u64 {
        self.pairs.len() as u64
    }

    fn get<L>(
        &mut self,
        space: &mut S,
        key: &[u8],
        steps: &mut Steps<L>,
    ) -> Result<Option<Blob>, RecErr> {
        let Ok(value) = first_of(self.alloc, &self.pairs, key) else {
            return Err(RecErr::Memory);
        };
        Ok(value)
    }

    fn all(&mut self, space: &mut S, key: &[u8]) -> Result<Blobs, RecErr> {
        let Ok(values) = values_of(self.alloc, self.pairs.as_slice(), key) else {
            return Err(RecErr::Memory);
        };
        Ok(values)
    }

    fn put(&mut self, space: &mut S, key: &[u8], value: &[u8], mode: Mode) -> Result<(), PutErr> {
        let Ok(stored) = store::<O>(self.alloc, &mut self.pairs, key, value, mode) else {
            return Err(PutErr::Memory);
        };
        if !stored {
            return Err(PutErr::Exists);
        }
        Ok(())
    }

    fn putdup(&mut self, space: &mut S, key: &[u8], value: &[u8]) -> Result<(), RecErr> {
        let Ok(()) = add::<O>(self.alloc, &mut self.pairs, key, value) else {
            return Err(RecErr::Memory);
        };
        Ok(())
    }

    fn out(&mut self, space: &mut S, key: &[u8]) -> Result<bool, RecErr> {
        let Ok(taken) = take_out::<O>(self.alloc, &mut self.pairs, key, false) else {
            return Err(RecErr::Memory);
        };
        Ok(taken)
    }

    fn out_all(&mut self, space: &mut S, key: &[u8]) -> Result<bool, RecErr> {
        let Ok(taken) = take_out::<O>(self.alloc, &mut self.pairs, key, true) else {
            return Err(RecErr::Memory);
        };
        Ok(taken)
    }

    fn range<C: Cut<O>, L>(
        &mut self,
        space: &mut S,
        cut: &C,
        max: u64,
        steps: &mut Steps<L>,
    ) -> Result<Pairs, RecErr> {
        let Ok(found) = pairs_inside::<O, C>(self.alloc, self.pairs.as_slice(), cut, max) else {
            return Err(RecErr::Memory);
        };
        Ok(found)
    }

    fn settle(&mut self, space: &mut S) -> Result<(), RecErr> {
        Ok(())
    }

    fn clear(&mut self, space: &mut S) -> Result<(), RecErr> {
        self.pairs = Pairs::new(self.alloc);
        Ok(())
    }

    fn pack(&mut self, space: &mut S, form: Form) -> Result<(), RecErr> {
        Ok(())
    }
}
