//! A tree database behind the trait of engines.
#![tactic(auto, using(tc_space::specs::Frames::keeps_refl, tc_space::specs::Frames::reads_refl, tc_engine::specs::Rows::extends_refl, crate::specs::Lifting::ready_down))]

ghost use Rattle.std.proofs.Common.{inl};
ghost use Rattle.std.specs.Prelude.{◌≡◌, option_map};
ghost use Rattle.tc_space.specs.Stores.{Only};
ghost use Rattle.ty_base.specs.Holding.{main_no_log};
ghost use Rattle.tc_treedb.specs.Filling.{Fills, LacksLarge, large_from};
ghost use Rattle.tc_treedb.specs.Holding.{HoldsPairs, Reopens, tight_kept};
ghost use Rattle.tc_treedb.specs.Informing.{Lines};
ghost use Rattle.tc_treedb.specs.Laws.{moved_apart};
ghost use Rattle.tc_treedb.specs.Layouts.{layout_of};
ghost use Rattle.tc_hash.specs.Repacking.{IsPackedFrom};

use crate::counting::{counted_with, counted_without};
use crate::holding::TreeEngine;
use crate::informing::{add_lines, read_head};
use crate::many::are_short;
use tc_base::{Blob, Blobs, Form, Key, Keys, Kind, Mode, Pairs};
use tc_engine::{Engine, Rows};
use tc_space::{RecErr, Space};
use ty_base::Storage;

// The text of a key, where one is given.
fn text_of<'a>(key: Option<&'a Key>) -> Option<&'a [u8]>
    ensures { option_map (λ k. k.now) result ≡ option_map (λ k. k.now) key.entry }
{
    match key {
        Some(key) => Some(key.as_slice()),
        None => None,
    }
}

impl<S: Space> Storage for TreeEngine<S> {
    type S = S;

    ghost holds = { λ e files c. HoldsPairs e files c };

    ghost reopens = { λ files c. Reopens files c };

    ghost own = { Only 0 };

    ghost fills = { λ e a b c d. Fills S.Space b c d };

    ghost fills_since = { λ a b c d. Fills S.Space b c d };

    ghost lacks_large = { λ a b c. LacksLarge S.Space a b c };

    ghost lines = { λ files text. Lines files text };

    ghost tight = { λ e from form files. tight_kept e.kept (from 0) form (files 0) };

    ghost packed = { λ from form files. IsPackedFrom (from 0) form (files 0) };

    ghost layout = { layout_of };

    ghost no_logs = { main_no_log };

    ghost apart = { λ e f g same. moved_apart e f g same };

    ghost log_fills = { λ e a b c d full. inl full };

    ghost fills_then = { λ e a b c d full. full };

    ghost since_more = { λ a b new le. record { fills = λ c d full. full; large = λ same c lacks. large_from _ _ _ _ _ c same lacks } };

    fn kind(&self) -> Kind {
        Kind::Tree
    }

    fn settle(&mut self, space: &mut S) -> Result<(), RecErr> {
        self.kept.settle(space)
    }

    fn pack(&mut self, space: &mut S, form: Form) -> Result<(), RecErr> {
        self.kept.pack(space, form)
    }

    fn inform(&mut self, space: &mut S, into: &mut Blob) -> Result<(), RecErr> {
        let read = read_head(space)?;
        let Some(head) = read else {
            return Ok(());
        };
        add_lines(&head, self.kept.height(), into)?;
        Ok(())
    }
}

impl<S: Space> Engine for TreeEngine<S> {
    fn takes_numbers(&self) -> bool {
        true
    }

    fn count(&self) -> u64 {
        self.kept.count()
    }

    fn size(&mut self, space: &mut S) -> Result<u64, RecErr> {
        if let Some(total) = self.total {
            return Ok(total);
        }
        let total = self.kept.all_bytes(space)?;
        self.total = Some(total);
        Ok(total)
    }

    fn value_len(&mut self, space: &mut S, key: &Key) -> Result<Option<u64>, RecErr> {
        self.kept.first_len(space, key.as_slice())
    }

    fn value(&mut self, space: &mut S, key: &Key) -> Result<Option<Blob>, RecErr> {
        self.kept.first_value(space, key.as_slice())
    }

    fn item(&mut self, space: &mut S, key: &Key, into: &mut Rows) -> Result<bool, RecErr> {
        let alloc = self.alloc;
        self.kept
            .add_first(alloc, space, key.as_slice(), false, into)
    }

    fn pair(&mut self, space: &mut S, key: &Key, into: &mut Rows) -> Result<(), RecErr> {
        let alloc = self.alloc;
        let _held = self
            .kept
            .add_first(alloc, space, key.as_slice(), true, into)?;
        Ok(())
    }

    fn pairs(&mut self, space: &mut S, key: &Key, into: &mut Rows) -> Result<(), RecErr> {
        let alloc = self.alloc;
        self.kept.add_pairs(alloc, space, key.as_slice(), into)
    }

    fn keys(&mut self, space: &mut S) -> Result<Keys, RecErr> {
        let alloc = self.alloc;
        self.kept.all_keys(alloc, space)
    }

    fn keys_from(
        &mut self,
        space: &mut S,
        prefix: &Key,
        most: Option<u64>,
        into: &mut Rows,
    ) -> Result<(), RecErr> {
        let alloc = self.alloc;
        self.kept
            .add_keys(alloc, space, prefix.as_slice(), most, into)
    }

    fn range(
        &mut self,
        space: &mut S,
        from: &Key,
        to: Option<&Key>,
        most: Option<u64>,
        into: &mut Rows,
    ) -> Result<(), RecErr> {
        let alloc = self.alloc;
        let to = text_of(to);
        self.kept
            .add_range(alloc, space, from.as_slice(), to, most, into)
    }

    fn store(&mut self, space: &mut S, mode: Mode, key: Key, value: Blob) -> Result<bool, RecErr> {
        let alloc = self.alloc;
        let key = key.as_slice();
        let stored = self.kept.store(alloc, space, mode, key, value.as_slice())?;
        match stored {
            Some(change) => {
                self.total = counted_with(self.total, key.len() as u64, change.old, change.len);
                Ok(true)
            }
            None => Ok(false),
        }
    }

    fn push(&mut self, space: &mut S, key: Key, value: Blob) -> Result<bool, RecErr> {
        let key = key.as_slice();
        if !self.kept.push(space, key, value.as_slice())? {
            return Ok(false);
        }
        self.total = counted_with(self.total, key.len() as u64, None, value.len() as u64);
        Ok(true)
    }

    fn out(&mut self, space: &mut S, key: &Key) -> Result<bool, RecErr> {
        let key = key.as_slice();
        let taken = self.kept.take(space, key)?;
        match taken {
            Some(len) => {
                self.total = counted_without(self.total, key.len() as u64, Some(len));
                Ok(true)
            }
            None => Ok(false),
        }
    }

    fn store_all(&mut self, space: &mut S, pairs: Pairs) -> Result<bool, RecErr> {
        if !are_short(pairs.as_slice()) {
            return Ok(false);
        }
        let total = self.kept.set_all(space, pairs.as_slice(), self.total)?;
        self.total = total;
        Ok(true)
    }

    fn push_all(&mut self, space: &mut S, pairs: Pairs) -> Result<bool, RecErr> {
        if !are_short(pairs.as_slice()) {
            return Ok(false);
        }
        let total = self.kept.push_all(space, pairs.as_slice(), self.total)?;
        self.total = total;
        Ok(true)
    }

    fn clear_all(&mut self, space: &mut S, keys: Blobs) -> Result<bool, RecErr> {
        let total = self.kept.clear_each(space, keys.as_slice(), self.total)?;
        self.total = total;
        Ok(true)
    }

    fn clear(&mut self, space: &mut S) -> Result<bool, RecErr> {
        self.kept.clear(space)?;
        self.total = Some(0);
        Ok(true)
    }

    fn store_row(
        &mut self,
        _space: &mut S,
        _mode: Mode,
        _key: Key,
        _columns: Pairs,
    ) -> Result<bool, RecErr> {
        Ok(false)
    }

    fn row(&mut self, _space: &mut S, _key: &Key, _into: &mut Rows) -> Result<bool, RecErr> {
        Ok(false)
    }

    fn set_index(&mut self, _space: &mut S, _column: Blob, _code: &Blob) -> Result<bool, RecErr> {
        Ok(false)
    }

    fn search(
        &mut self,
        _space: &mut S,
        _conditions: &Blobs,
        _into: &mut Rows,
    ) -> Result<bool, RecErr> {
        Ok(false)
    }
}
