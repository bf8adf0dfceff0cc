//! The calls of a list of pairs.
ghost use Rattle.std.specs.Prelude.{◌≡◌};
ghost use Rattle.tc_btree.specs.Meaning.{item_values};

use crate::btree::Btree;
use crate::putting::chosen;
use bt_page::Item;
use std::alloc::Global;
use tc_base::{Blob, Blobs, Cut, Form, Mode, Order, Pairs, Steps};
use tc_space::{Multi, PutErr, RecErr, Records};

// The values of a key, none where it isn't held.
fn values_of(alloc: Global, item: Option<Item>) -> Blobs
    ensures { result ≡ item_values item }
{
    match item {
        Some(item) => item.values,
        None => Blobs::new(alloc),
    }
}

impl<R: Records, O: Order> Multi for Btree<R, O> {
    type S = R::S;

    type O = O;

    ghost use Rattle.bt_tree.specs.Clearing.{LacksBare};
    ghost use Rattle.tc_btree.specs.Filling.{fills_list};
    ghost use Rattle.tc_btree.specs.Meaning.{ListStands, file_list, holds_list, made_of};
    ghost use Rattle.tc_btree.specs.Rising.{pairs_rise};

    ghost file_of = { file_list R.Records };

    ghost holds = { holds_list R.Records O.Order };

    ghost made = { made_of R.Records };

    ghost lead = { λ b. R.lead b.tree.store };

    ghost stands = { ListStands R.Records O.Order };

    ghost fills = { fills_list R.S.Space R.Records O.Order };

    ghost lacks_large = { λ b. R.lacks_large b.tree.store };

    ghost lacks_bare = { λ b. LacksBare R.S.Space R.Records b.tree };

    ghost tight = { λ b. R.tight b.tree.store };

    ghost packed = { R.packed };

    ghost slack = { R.slack };

    ghost gets = { λ b. R.gets b.tree.store };

    ghost rises = { λ b bytes ps held. pairs_rise b.tree bytes ps held O.total O.exact };

    fn file(&self) -> u32 {
        self.tree.file()
    }

    fn count(&self) -> u64 {
        self.tree.count()
    }

    fn get<L>(
        &mut self,
        space: &mut R::S,
        key: &[u8],
        steps: &mut Steps<L>,
    ) -> Result<Option<Blob>, RecErr> {
        self.tree.first_value(space, key, steps)
    }

    fn all(&mut self, space: &mut R::S, key: &[u8]) -> Result<Blobs, RecErr> {
        let mut steps: Steps<R> = Steps::new();
        let item = self.tree.find(space, key, &mut steps)?;
        Ok(values_of(self.alloc, item))
    }

    fn put(
        &mut self,
        space: &mut R::S,
        key: &[u8],
        value: &[u8],
        mode: Mode,
    ) -> Result<(), PutErr> {
        let joined = self.look(space, key, value, mode)?;
        let given = chosen(&joined, value);
        self.tree.insert(space, key, given, false)?;
        Ok(())
    }

    fn putdup(&mut self, space: &mut R::S, key: &[u8], value: &[u8]) -> Result<(), RecErr> {
        self.tree.insert(space, key, value, true)
    }

    fn out(&mut self, space: &mut R::S, key: &[u8]) -> Result<bool, RecErr> {
        self.tree.remove(space, key, false)
    }

    fn out_all(&mut self, space: &mut R::S, key: &[u8]) -> Result<bool, RecErr> {
        self.tree.remove(space, key, true)
    }

    fn range<C: Cut<O>, L>(
        &mut self,
        space: &mut R::S,
        cut: &C,
        max: u64,
        steps: &mut Steps<L>,
    ) -> Result<Pairs, RecErr> {
        self.tree.range(space, cut, max, steps)
    }

    fn settle(&mut self, space: &mut R::S) -> Result<(), RecErr> {
        self.tree.settle(space)
    }

    fn clear(&mut self, space: &mut R::S) -> Result<(), RecErr> {
        self.tree.clear_all(space)
    }

    fn pack(&mut self, space: &mut R::S, form: Form) -> Result<(), RecErr> {
        self.tree.pack(space, form)
    }
}
