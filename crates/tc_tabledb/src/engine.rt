//! A table database behind the trait of engines.
#![tactic(auto, using(tc_space::specs::Frames::keeps_refl, tc_space::specs::Frames::reads_refl, tc_engine::specs::Rows::extends_refl, tc_engine::specs::Rows::extends_then))]

ghost use Rattle.std.proofs.Common.{inl};
ghost use Rattle.tc_tabledb.specs.Filling.{Fills, LacksLarge, large_from};
ghost use Rattle.tc_tabledb.specs.Files.{IsTableFile, Reopens};
ghost use Rattle.tc_tabledb.specs.Holding.{ArePackedFrom, HoldsEngine};
ghost use Rattle.tc_tabledb.specs.Informing.{IsTold};
ghost use Rattle.tc_tabledb.specs.Laws.{moved_apart, no_logs};
ghost use Rattle.tc_tabledb.specs.Laying.{layout_of};
ghost use Rattle.tc_table.specs.Packing.{IsTight};

use crate::changing::{drop_each, read_columns, read_text, uncounted};
use crate::holding::{Decimals, Lexicals, TableEngine};
use crate::informing::{add_lines, read_head};
use crate::laws::table_stores;
use crate::reading::{add_keys, add_row, all_bytes, all_keys, text_at};
use tc_base::{Blob, Blobs, Form, Key, Keys, Kind, Mode, Pairs};
use tc_engine::{Engine, Rows};
use tc_hash::Hash;
use tc_hashdb::add_items;
use tc_space::{Multi, RecErr, Records, Space};
use td_query::read_query;
use ty_base::Storage;

impl<S: Space> Storage for TableEngine<S> {
    type S = S;

    ghost holds = { λ e files c. HoldsEngine ⟦<Hash<S> as Records>⟧ ⟦<Lexicals<S> as Multi>⟧ ⟦<Decimals<S> as Multi>⟧ e files c };

    ghost reopens = { λ files c. Reopens files c };

    ghost own = { IsTableFile };

    ghost fills = { λ e a b c d. Fills S.Space b c d };

    ghost fills_since = { λ a b c d. Fills S.Space b c d };

    ghost lacks_large = { λ a b c. LacksLarge S.Space a b c };

    ghost lines = { λ files text. IsTold files text };

    ghost tight = { λ e from form files. IsTight S.Space ⟦<Lexicals<S> as Multi>⟧ ⟦<Decimals<S> as Multi>⟧ ⟦<Hash<S> as Records>⟧ e.table from form files };

    ghost packed = { λ from form files. ArePackedFrom from form files };

    ghost layout = { layout_of };

    ghost no_logs = { no_logs };

    ghost apart = { λ e f g same. moved_apart _ _ _ e f g same };

    ghost log_fills = { λ e a b c d full. inl full };

    ghost fills_then = { λ e a b c d full. full };

    ghost since_more = { λ a b new le. record { fills = λ c d full. full; large = λ same c lacks. large_from _ _ _ _ _ c same lacks } };

    fn kind(&self) -> Kind {
        Kind::Table
    }

    fn settle(&mut self, space: &mut S) -> Result<(), RecErr> {
        table_stores::<S>();
        self.table.settle(space)
    }

    fn pack(&mut self, space: &mut S, form: Form) -> Result<(), RecErr> {
        table_stores::<S>();
        self.table.pack(space, form)
    }

    fn inform(&mut self, space: &mut S, into: &mut Blob) -> Result<(), RecErr> {
        table_stores::<S>();
        let read = read_head(space)?;
        let Some(head) = read else {
            return Ok(());
        };
        add_lines(self.alloc, &head, self.table.sides.as_slice(), into)?;
        Ok(())
    }
}

impl<S: Space> Engine for TableEngine<S> {
    fn takes_numbers(&self) -> bool {
        false
    }

    fn count(&self) -> u64 {
        table_stores::<S>();
        Records::count(&self.table.rows)
    }

    fn size(&mut self, space: &mut S) -> Result<u64, RecErr> {
        if let Some(total) = self.total {
            return Ok(total);
        }
        let total = all_bytes(&mut self.table, space)?;
        self.total = Some(total);
        Ok(total)
    }

    fn value_len(&mut self, space: &mut S, key: &Key) -> Result<Option<u64>, RecErr> {
        let Some(text) = text_at(self.alloc, &mut self.table, space, key.as_slice())? else {
            return Ok(None);
        };
        Ok(Some(text.len() as u64))
    }

    fn value(&mut self, space: &mut S, key: &Key) -> Result<Option<Blob>, RecErr> {
        text_at(self.alloc, &mut self.table, space, key.as_slice())
    }

    fn item(&mut self, space: &mut S, key: &Key, into: &mut Rows) -> Result<bool, RecErr> {
        let Some(text) = text_at(self.alloc, &mut self.table, space, key.as_slice())? else {
            return Ok(false);
        };
        into.item(text.as_slice())?;
        Ok(true)
    }

    fn pair(&mut self, space: &mut S, key: &Key, into: &mut Rows) -> Result<(), RecErr> {
        let Some(text) = text_at(self.alloc, &mut self.table, space, key.as_slice())? else {
            return Ok(());
        };
        into.pair(key.as_slice(), text.as_slice())?;
        Ok(())
    }

    fn pairs(&mut self, space: &mut S, key: &Key, into: &mut Rows) -> Result<(), RecErr> {
        let Some(text) = text_at(self.alloc, &mut self.table, space, key.as_slice())? else {
            return Ok(());
        };
        add_items(key.as_slice(), text.as_slice(), into)?;
        Ok(())
    }

    fn keys(&mut self, space: &mut S) -> Result<Keys, RecErr> {
        all_keys(self.alloc, &mut self.table, space)
    }

    fn keys_from(
        &mut self,
        space: &mut S,
        prefix: &Key,
        most: Option<u64>,
        into: &mut Rows,
    ) -> Result<(), RecErr> {
        add_keys(
            self.alloc,
            &mut self.table,
            space,
            prefix.as_slice(),
            most,
            into,
        )
    }

    fn range(
        &mut self,
        _space: &mut S,
        _from: &Key,
        _to: Option<&Key>,
        _most: Option<u64>,
        _into: &mut Rows,
    ) -> Result<(), RecErr> {
        Ok(())
    }

    fn store(&mut self, space: &mut S, mode: Mode, key: Key, value: Blob) -> Result<bool, RecErr> {
        table_stores::<S>();
        let Some(row) = read_text(self.alloc, value.as_slice())? else {
            return Ok(false);
        };
        let done = self.table.put(space, mode, key.as_slice(), row)?;
        self.total = uncounted(done, self.total);
        Ok(done)
    }

    fn push(&mut self, _space: &mut S, _key: Key, _value: Blob) -> Result<bool, RecErr> {
        table_stores::<S>();
        Ok(false)
    }

    fn out(&mut self, space: &mut S, key: &Key) -> Result<bool, RecErr> {
        table_stores::<S>();
        let done = self.table.out(space, key.as_slice())?;
        self.total = uncounted(done, self.total);
        Ok(done)
    }

    fn store_all(&mut self, space: &mut S, pairs: Pairs) -> Result<bool, RecErr> {
        self.store_each(space, pairs)
    }

    fn push_all(&mut self, _space: &mut S, pairs: Pairs) -> Result<bool, RecErr> {
        table_stores::<S>();
        if pairs.len() > 0 {
            return Ok(false);
        }
        Ok(true)
    }

    fn clear_all(&mut self, space: &mut S, keys: Blobs) -> Result<bool, RecErr> {
        table_stores::<S>();
        drop_each(&mut self.table, space, keys.as_slice())?;
        self.total = None;
        Ok(true)
    }

    fn clear(&mut self, space: &mut S) -> Result<bool, RecErr> {
        table_stores::<S>();
        self.table.clear(space)?;
        self.total = Some(0);
        Ok(true)
    }

    fn store_row(
        &mut self,
        space: &mut S,
        mode: Mode,
        key: Key,
        columns: Pairs,
    ) -> Result<bool, RecErr> {
        table_stores::<S>();
        let Some(row) = read_columns(self.alloc, columns.as_slice())? else {
            return Ok(false);
        };
        let done = self.table.put(space, mode, key.as_slice(), row)?;
        self.total = uncounted(done, self.total);
        Ok(done)
    }

    fn row(&mut self, space: &mut S, key: &Key, into: &mut Rows) -> Result<bool, RecErr> {
        add_row(&mut self.table, space, key.as_slice(), into)
    }

    fn set_index(&mut self, space: &mut S, column: Blob, code: &Blob) -> Result<bool, RecErr> {
        self.index_by(space, column, code.as_slice())
    }

    fn search(
        &mut self,
        space: &mut S,
        conditions: &Blobs,
        into: &mut Rows,
    ) -> Result<bool, RecErr> {
        table_stores::<S>();
        let Some(query) = read_query(self.alloc, conditions)? else {
            return Ok(false);
        };
        self.search_by(space, &query, into)?;
        Ok(true)
    }
}
