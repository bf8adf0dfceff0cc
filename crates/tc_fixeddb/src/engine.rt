//! A fixed-length database behind the trait of engines.
#![tactic(auto, using(tc_space::specs::Frames::keeps_refl, tc_space::specs::Frames::others_refl, tc_space::specs::Frames::reads_refl, tc_engine::specs::Rows::extends_refl, crate::specs::Lifting::ready_down, crate::specs::Lifting::reads_up, crate::specs::Lifting::refuses_up))]

ghost use Rattle.std.proofs.Common.{inr};
ghost use Rattle.tc_space.specs.Stores.{Only};
ghost use Rattle.ty_base.specs.Holding.{main_no_log};
ghost use Rattle.tc_fixeddb.specs.Holding.{Fills, HoldsIds, Lines, Reopens};
ghost use Rattle.tc_fixeddb.specs.Laws.{moved_apart};
ghost use Rattle.tc_fixeddb.specs.Layouts.{layout_of};

use crate::holding::FixedEngine;
use crate::informing::{add_lines, read_head};
use crate::reading::add_ids;
use crate::storing::{clear, out_at, store_at};
use crate::texts::{add_items, add_pair};
use tc_base::{Blob, Blobs, Form, Key, Keys, Kind, Mode, Pairs};
use tc_engine::{Engine, Rows};
use tc_space::{RecErr, Space};
use ty_base::Storage;

impl<S: Space> Storage for FixedEngine<S> {
    type S = S;

    ghost holds = { λ e files c. HoldsIds e files c };

    ghost reopens = { λ files c. Reopens files c };

    ghost own = { λ file. Only 0 file };

    ghost fills = { λ e a b c d. Fills S.Space b c d };

    ghost fills_since = { λ a b c d. Fills S.Space b c d };

    ghost lacks_large = { λ a b c. ⊥ };

    ghost lines = { λ files text. Lines files text };

    ghost tight = { λ e from form files. Unit {0} };

    ghost packed = { λ from form files. Unit {0} };

    ghost layout = { layout_of };

    ghost no_logs = { main_no_log };

    ghost apart = { λ e f g same. moved_apart e f g same };

    ghost log_fills = { λ e a b c d full. inr full };

    ghost fills_then = { λ e a b c d full. full };

    ghost since_more = { λ a b new le. record { fills = λ c d full. full; large = λ same c full. full } };

    fn kind(&self) -> Kind {
        Kind::Fixed
    }

    fn settle(&mut self, space: &mut S) -> Result<(), RecErr> {
        self.fixed.settle(space)?;
        Ok(())
    }

    fn pack(&mut self, _space: &mut S, _form: Form) -> Result<(), RecErr> {
        Ok(())
    }

    fn inform(&mut self, space: &mut S, into: &mut Blob) -> Result<(), RecErr> {
        let Some(head) = read_head(space)? else {
            return Ok(());
        };
        add_lines(&head, into)?;
        Ok(())
    }
}

impl<S: Space> Engine for FixedEngine<S> {
    fn takes_numbers(&self) -> bool {
        self.fixed.width() >= 4
    }

    fn count(&self) -> u64 {
        self.fixed.count()
    }

    fn size(&mut self, _space: &mut S) -> Result<u64, RecErr> {
        Ok(self.fixed.size())
    }

    fn value_len(&mut self, space: &mut S, key: &Key) -> Result<Option<u64>, RecErr> {
        let Some(id) = self.id_of(key.as_slice()) else {
            return Ok(None);
        };
        Ok(self.fixed.value_len(space, id)?)
    }

    fn value(&mut self, space: &mut S, key: &Key) -> Result<Option<Blob>, RecErr> {
        let Some((_, value)) = self.find(space, key.as_slice())? else {
            return Ok(None);
        };
        Ok(Some(value))
    }

    fn item(&mut self, space: &mut S, key: &Key, into: &mut Rows) -> Result<bool, RecErr> {
        let Some((_, value)) = self.find(space, key.as_slice())? else {
            return Ok(false);
        };
        into.item(value.as_slice())?;
        Ok(true)
    }

    fn pair(&mut self, space: &mut S, key: &Key, into: &mut Rows) -> Result<(), RecErr> {
        let Some((id, value)) = self.find(space, key.as_slice())? else {
            return Ok(());
        };
        add_pair(id, value.as_slice(), into)?;
        Ok(())
    }

    fn pairs(&mut self, space: &mut S, key: &Key, into: &mut Rows) -> Result<(), RecErr> {
        let Some((id, value)) = self.find(space, key.as_slice())? else {
            return Ok(());
        };
        add_items(id, value.as_slice(), into)?;
        Ok(())
    }

    fn keys(&mut self, space: &mut S) -> Result<Keys, RecErr> {
        self.id_texts(space)
    }

    fn keys_from(
        &mut self,
        space: &mut S,
        prefix: &Key,
        most: Option<u64>,
        into: &mut Rows,
    ) -> Result<(), RecErr> {
        let ids = self.list_from(space, prefix.as_slice(), most)?;
        add_ids(&ids, into)?;
        Ok(())
    }

    fn range(
        &mut self,
        _space: &mut S,
        _from: &Key,
        _to: Option<&Key>,
        _most: Option<u64>,
        _into: &mut Rows,
    ) -> Result<(), RecErr> {
        Ok(())
    }

    fn store(&mut self, space: &mut S, mode: Mode, key: Key, value: Blob) -> Result<bool, RecErr> {
        let Some(id) = self.id_of(key.as_slice()) else {
            return Ok(false);
        };
        store_at(self.alloc, &mut self.fixed, space, mode, id, value)
    }

    fn push(&mut self, _space: &mut S, _key: Key, _value: Blob) -> Result<bool, RecErr> {
        Ok(false)
    }

    fn out(&mut self, space: &mut S, key: &Key) -> Result<bool, RecErr> {
        let Some(id) = self.id_of(key.as_slice()) else {
            return Ok(false);
        };
        out_at(&mut self.fixed, space, id)
    }

    fn store_all(&mut self, space: &mut S, pairs: Pairs) -> Result<bool, RecErr> {
        if !self.can_store(pairs.as_slice()) {
            return Ok(false);
        }
        self.set_each(space, pairs.as_slice())?;
        Ok(true)
    }

    fn push_all(&mut self, _space: &mut S, pairs: Pairs) -> Result<bool, RecErr> {
        if pairs.len() > 0 {
            return Ok(false);
        }
        Ok(true)
    }

    fn clear_all(&mut self, space: &mut S, keys: Blobs) -> Result<bool, RecErr> {
        self.out_each(space, keys.as_slice())?;
        Ok(true)
    }

    fn clear(&mut self, space: &mut S) -> Result<bool, RecErr> {
        clear(&mut self.fixed, space)
    }

    fn store_row(
        &mut self,
        _space: &mut S,
        _mode: Mode,
        _key: Key,
        _columns: Pairs,
    ) -> Result<bool, RecErr> {
        Ok(false)
    }

    fn row(&mut self, _space: &mut S, _key: &Key, _into: &mut Rows) -> Result<bool, RecErr> {
        Ok(false)
    }

    fn set_index(&mut self, _space: &mut S, _column: Blob, _code: &Blob) -> Result<bool, RecErr> {
        Ok(false)
    }

    fn search(
        &mut self,
        _space: &mut S,
        _conditions: &Blobs,
        _into: &mut Rows,
    ) -> Result<bool, RecErr> {
        Ok(false)
    }
}
