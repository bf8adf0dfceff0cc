//! A database in memory behind the trait of engines.
#![tactic(auto, using(tc_space::specs::Frames::keeps_refl, tc_space::specs::Frames::others_refl, tc_space::specs::Frames::reads_refl, crate::specs::Making::reads_same, crate::specs::Making::refuses_same, crate::specs::Making::makes, tc_engine::specs::Rows::extends_refl))]

ghost use Rattle.std.specs.Prelude.{◌≡◌, []};
ghost use Rattle.tc_base.specs.declared.kind.Kind.TheVariants as kind;
ghost use Rattle.std.specs.Prelude.{false};
ghost use Rattle.tc_model.specs.Contents.{no_data};
ghost use Rattle.tc_memdb.specs.Holding.{contents_of};
ghost use Rattle.ty_base.specs.Holding.{no_layout};

use crate::data::Data;
use crate::many::are_short;
use std::alloc::Global;
use tc_base::{Blob, Blobs, Form, Key, Keys, Kind, Mode, Pairs};
use tc_engine::{Engine, Rows};
use tc_maps::{Bytemap, Multimap};
use tc_space::{NoSpace, RecErr, Space};
use ty_base::Storage;

/// A hash database or a tree in memory, over a space that has no files. A request on a key costs the logarithm of the number of keys, a list
/// what it lists.
#[derive(Drop)]
pub struct MemEngine {
    alloc: Global,
    held: Data,
}

impl MemEngine {
    /// A map without keys. It takes no memory.
    pub fn map(alloc: Global) -> MemEngine
        ensures { contents_of result.held ≡ no_data kind.MemHash false 0 0 }
    {
        MemEngine {
            alloc,
            held: Data::Map(Bytemap::new(alloc)),
        }
    }

    /// A tree without pairs, in the order of bytes. It takes no memory.
    pub fn tree(alloc: Global) -> MemEngine
        ensures { contents_of result.held ≡ no_data kind.MemTree false 0 0 }
    {
        MemEngine {
            alloc,
            held: Data::Tree(Multimap::new(alloc)),
        }
    }
}

impl Storage for MemEngine {
    type S = NoSpace;

    ghost holds = { λ e files c. contents_of e.held ≡ c };

    ghost reopens = { λ files c. Unit {0} };

    ghost own = { λ file. ⊥ };

    ghost fills = { λ e a b c d. ⊥ };

    ghost fills_since = { λ a b c d. ⊥ };

    ghost lacks_large = { λ a b c. ⊥ };

    ghost lines = { λ files text. text ≡ [] };

    ghost tight = { λ e from form files. Unit {0} };

    ghost packed = { λ from form files. Unit {0} };

    ghost layout = { no_layout };

    ghost no_logs = { ((λ h. h), (λ h. h)) };

    ghost apart = { λ e f g same. record { held = λ c h. h; stand = λ c h. h; laid = λ i. no_layout f; tight = λ from form h. h; tight_from = λ form files h. h; told = λ text h. h } };

    ghost log_fills = { λ e a b c d full. full };

    ghost fills_then = { λ e a b c d full. full };

    ghost since_more = { λ a b new le. record { fills = λ c d full. full; large = λ same c full. full } };

    fn kind(&self) -> Kind {
        self.held.kind()
    }

    fn settle(&mut self, _space: &mut NoSpace) -> Result<(), RecErr> {
        Ok(())
    }

    fn pack(&mut self, _space: &mut NoSpace, _form: Form) -> Result<(), RecErr> {
        Ok(())
    }

    fn inform(&mut self, _space: &mut NoSpace, _into: &mut Blob) -> Result<(), RecErr> {
        Ok(())
    }
}

impl Engine for MemEngine {
    fn takes_numbers(&self) -> bool {
        true
    }

    fn count(&self) -> u64 {
        self.held.count()
    }

    fn size(&mut self, _space: &mut NoSpace) -> Result<u64, RecErr> {
        Ok(self.held.size())
    }

    fn value_len(&mut self, _space: &mut NoSpace, key: &Key) -> Result<Option<u64>, RecErr> {
        match self.held.value(key) {
            Some(value) => Ok(Some(value.len() as u64)),
            None => Ok(None),
        }
    }

    fn value(&mut self, _space: &mut NoSpace, key: &Key) -> Result<Option<Blob>, RecErr> {
        let Some(value) = self.held.value(key) else {
            return Ok(None);
        };
        Ok(Some(Blob::from_slice(self.alloc, value.as_slice())?))
    }

    fn item(&mut self, _space: &mut NoSpace, key: &Key, into: &mut Rows) -> Result<bool, RecErr> {
        Ok(self.held.item(key, into)?)
    }

    fn pair(&mut self, _space: &mut NoSpace, key: &Key, into: &mut Rows) -> Result<(), RecErr> {
        self.held.pair(key, into)?;
        Ok(())
    }

    fn pairs(&mut self, _space: &mut NoSpace, key: &Key, into: &mut Rows) -> Result<(), RecErr> {
        self.held.pairs(key, into)?;
        Ok(())
    }

    fn keys(&mut self, _space: &mut NoSpace) -> Result<Keys, RecErr> {
        Ok(self.held.keys(self.alloc)?)
    }

    fn keys_from(
        &mut self,
        _space: &mut NoSpace,
        prefix: &Key,
        most: Option<u64>,
        into: &mut Rows,
    ) -> Result<(), RecErr> {
        self.held.keys_from(prefix, most, into)?;
        Ok(())
    }

    fn range(
        &mut self,
        _space: &mut NoSpace,
        from: &Key,
        to: Option<&Key>,
        most: Option<u64>,
        into: &mut Rows,
    ) -> Result<(), RecErr> {
        self.held.range(from, to, most, into)?;
        Ok(())
    }

    fn store(
        &mut self,
        _space: &mut NoSpace,
        mode: Mode,
        key: Key,
        value: Blob,
    ) -> Result<bool, RecErr> {
        Ok(self.held.store(mode, key, value)?)
    }

    fn push(&mut self, _space: &mut NoSpace, key: Key, value: Blob) -> Result<bool, RecErr> {
        Ok(self.held.push(key, value)?)
    }

    fn out(&mut self, _space: &mut NoSpace, key: &Key) -> Result<bool, RecErr> {
        Ok(self.held.out(key))
    }

    fn store_all(&mut self, space: &mut NoSpace, pairs: Pairs) -> Result<bool, RecErr> {
        if !are_short(pairs.as_slice()) {
            return Ok(false);
        }
        let Ok(()) = self.held.set_each(pairs) else {
            space.spoil();
            return Err(RecErr::Memory);
        };
        Ok(true)
    }

    fn push_all(&mut self, space: &mut NoSpace, pairs: Pairs) -> Result<bool, RecErr> {
        if !self.held.can_push(pairs.as_slice()) {
            return Ok(false);
        }
        let Ok(()) = self.held.push_each(pairs) else {
            space.spoil();
            return Err(RecErr::Memory);
        };
        Ok(true)
    }

    fn clear_all(&mut self, _space: &mut NoSpace, keys: Blobs) -> Result<bool, RecErr> {
        self.held.clear_each(keys);
        Ok(true)
    }

    fn clear(&mut self, _space: &mut NoSpace) -> Result<bool, RecErr> {
        self.held.clear();
        Ok(true)
    }

    fn store_row(
        &mut self,
        _space: &mut NoSpace,
        _mode: Mode,
        _key: Key,
        _columns: Pairs,
    ) -> Result<bool, RecErr> {
        Ok(false)
    }

    fn row(&mut self, _space: &mut NoSpace, _key: &Key, _into: &mut Rows) -> Result<bool, RecErr> {
        Ok(false)
    }

    fn set_index(
        &mut self,
        _space: &mut NoSpace,
        _column: Blob,
        _code: &Blob,
    ) -> Result<bool, RecErr> {
        Ok(false)
    }

    fn search(
        &mut self,
        _space: &mut NoSpace,
        _conditions: &Blobs,
        _into: &mut Rows,
    ) -> Result<bool, RecErr> {
        Ok(false)
    }
}
