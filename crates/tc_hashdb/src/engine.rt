//! A hash database behind the trait of engines.
#![tactic(auto, using(tc_space::specs::Frames::keeps_refl, tc_space::specs::Frames::reads_refl, tc_engine::specs::Rows::extends_refl, crate::specs::Lifting::ready_down, crate::specs::Lifting::reads_up, crate::specs::Lifting::refuses_up))]

ghost use Rattle.std.proofs.Common.{inl};
ghost use Rattle.tc_space.specs.Stores.{Only};
ghost use Rattle.ty_base.specs.Holding.{main_no_log};
ghost use Rattle.tc_hashdb.specs.Filling.{Fills, LacksLarge, large_from};
ghost use Rattle.tc_hashdb.specs.Holding.{HoldsKeys, Reopens};
ghost use Rattle.tc_hashdb.specs.Informing.{Lines};
ghost use Rattle.tc_hashdb.specs.Laws.{moved_apart};
ghost use Rattle.tc_hashdb.specs.Layouts.{layout_of};
ghost use Rattle.tc_hash.specs.Repacking.{IsPackedFrom, IsTightFrom};

use crate::holding::HashEngine;
use crate::informing::{add_lines, read_head};
use crate::listing::{add_items, add_texts, beginning, key_list};
use crate::many::are_short;
use tc_base::{Blob, Blobs, Form, Key, Keys, Kind, Mode, Pairs};
use tc_engine::{Engine, Rows};
use tc_space::{RecErr, Space};
use ty_base::Storage;

impl<S: Space> Storage for HashEngine<S> {
    type S = S;

    ghost holds = { λ e files c. HoldsKeys e files c };

    ghost reopens = { λ files c. Reopens files c };

    ghost own = { Only 0 };

    ghost fills = { λ e a b c d. Fills S.Space b c d };

    ghost fills_since = { λ a b c d. Fills S.Space b c d };

    ghost lacks_large = { λ a b c. LacksLarge S.Space a b c };

    ghost lines = { λ files text. Lines files text };

    ghost tight = { λ e from form files. IsTightFrom (from 0) form e.hash.body (files 0) };

    ghost packed = { λ from form files. IsPackedFrom (from 0) form (files 0) };

    ghost layout = { layout_of };

    ghost no_logs = { main_no_log };

    ghost apart = { λ e f g same. moved_apart e f g same };

    ghost log_fills = { λ e a b c d full. inl full };

    ghost fills_then = { λ e a b c d full. full };

    ghost since_more = { λ a b new le. record { fills = λ c d full. full; large = λ same c lacks. large_from _ _ _ _ _ c same lacks } };

    fn kind(&self) -> Kind {
        Kind::Hash
    }

    fn settle(&mut self, space: &mut S) -> Result<(), RecErr> {
        self.hash.settle(space)
    }

    fn pack(&mut self, space: &mut S, form: Form) -> Result<(), RecErr> {
        self.hash.pack(space, form)
    }

    fn inform(&mut self, space: &mut S, into: &mut Blob) -> Result<(), RecErr> {
        let read = read_head(space)?;
        let Some(head) = read else {
            return Ok(());
        };
        add_lines(&head, into)?;
        Ok(())
    }
}

impl<S: Space> Engine for HashEngine<S> {
    fn takes_numbers(&self) -> bool {
        true
    }

    fn count(&self) -> u64 {
        self.hash.count()
    }

    fn size(&mut self, space: &mut S) -> Result<u64, RecErr> {
        self.count_bytes(space)
    }

    fn value_len(&mut self, space: &mut S, key: &Key) -> Result<Option<u64>, RecErr> {
        self.find_len(space, key.as_slice())
    }

    fn value(&mut self, space: &mut S, key: &Key) -> Result<Option<Blob>, RecErr> {
        self.find(space, key.as_slice())
    }

    fn item(&mut self, space: &mut S, key: &Key, into: &mut Rows) -> Result<bool, RecErr> {
        let found = self.find(space, key.as_slice())?;
        let Some(value) = found else {
            return Ok(false);
        };
        into.item(value.as_slice())?;
        Ok(true)
    }

    fn pair(&mut self, space: &mut S, key: &Key, into: &mut Rows) -> Result<(), RecErr> {
        let found = self.find(space, key.as_slice())?;
        let Some(value) = found else {
            return Ok(());
        };
        into.pair(key.as_slice(), value.as_slice())?;
        Ok(())
    }

    fn pairs(&mut self, space: &mut S, key: &Key, into: &mut Rows) -> Result<(), RecErr> {
        let found = self.find(space, key.as_slice())?;
        let Some(value) = found else {
            return Ok(());
        };
        add_items(key.as_slice(), value.as_slice(), into)?;
        Ok(())
    }

    fn keys(&mut self, space: &mut S) -> Result<Keys, RecErr> {
        let all = self.list(space)?;
        let keys = key_list(self.alloc, all)?;
        Ok(keys)
    }

    fn keys_from(
        &mut self,
        space: &mut S,
        prefix: &Key,
        most: Option<u64>,
        into: &mut Rows,
    ) -> Result<(), RecErr> {
        let all = self.list(space)?;
        let found = beginning(self.alloc, all, prefix.as_slice(), most)?;
        add_texts(found.as_slice(), into)?;
        Ok(())
    }

    fn range(
        &mut self,
        _space: &mut S,
        _from: &Key,
        _to: Option<&Key>,
        _most: Option<u64>,
        _into: &mut Rows,
    ) -> Result<(), RecErr> {
        Ok(())
    }

    fn store(&mut self, space: &mut S, mode: Mode, key: Key, value: Blob) -> Result<bool, RecErr> {
        self.store_at(space, mode, key.as_slice(), value.as_slice())
    }

    fn push(&mut self, _space: &mut S, _key: Key, _value: Blob) -> Result<bool, RecErr> {
        Ok(false)
    }

    fn out(&mut self, space: &mut S, key: &Key) -> Result<bool, RecErr> {
        self.out_at(space, key.as_slice())
    }

    fn store_all(&mut self, space: &mut S, pairs: Pairs) -> Result<bool, RecErr> {
        if !are_short(pairs.as_slice()) {
            return Ok(false);
        }
        self.set_all(space, pairs)?;
        Ok(true)
    }

    fn push_all(&mut self, _space: &mut S, pairs: Pairs) -> Result<bool, RecErr> {
        if pairs.len() > 0 {
            return Ok(false);
        }
        Ok(true)
    }

    fn clear_all(&mut self, space: &mut S, keys: Blobs) -> Result<bool, RecErr> {
        self.drop_each(space, keys.as_slice())?;
        Ok(true)
    }

    fn clear(&mut self, space: &mut S) -> Result<bool, RecErr> {
        self.clear_all_keys(space)
    }

    fn store_row(
        &mut self,
        _space: &mut S,
        _mode: Mode,
        _key: Key,
        _columns: Pairs,
    ) -> Result<bool, RecErr> {
        Ok(false)
    }

    fn row(&mut self, _space: &mut S, _key: &Key, _into: &mut Rows) -> Result<bool, RecErr> {
        Ok(false)
    }

    fn set_index(&mut self, _space: &mut S, _column: Blob, _code: &Blob) -> Result<bool, RecErr> {
        Ok(false)
    }

    fn search(
        &mut self,
        _space: &mut S,
        _conditions: &Blobs,
        _into: &mut Rows,
    ) -> Result<bool, RecErr> {
        Ok(false)
    }
}
