//! Rows of many keys.
#![tactic(auto, using(tc_space::specs::Frames::keeps_refl, tc_space::specs::Frames::keeps_then, tc_table::proofs::Holding::table_stays, tc_table::proofs::Holding::stays_then))]

ghost use Rattle.std.specs.Prelude.{◌≡◌, false, IfOk, IsErrOf, OnErr, OnOk};
ghost use Rattle.std.specs.FinMap.{entries};
ghost use Rattle.std.specs.List.{list_all};
ghost use Rattle.tc_engine.specs.Changes.{all_stored};
ghost use Rattle.tc_engine.specs.Effects.{FullFor, MadeBy};
ghost use Rattle.tc_space.specs.Frames.{Keeps};
ghost use Rattle.tc_space.specs.Refusals.{OnFault};
ghost use Rattle.tc_space.specs.Stores.{IsReady};
ghost use Rattle.tc_table.specs.Tables.{Holds, StaysTable};
ghost use Rattle.ty_base.specs.Holding as base;
ghost use Rattle.ty_base.specs.Holding.{RefusesHeld};
ghost use Rattle.tc_tabledb.specs.Files.{IsTableFile};
ghost use Rattle.tc_tabledb.specs.Filling.{fills_of};
ghost use Rattle.tc_tabledb.specs.Laying.{layout_of};
ghost use Rattle.tc_tabledb.specs.Storing.{FullText, FullTexts, PutsAll, is_stored};

use crate::changing::{give_up, read_text};
use crate::holding::TableEngine;
use crate::laws::table_stores;
use crate::reading::text_of;
use std::alloc::{AllocError, Global};
use tc_base::{Blob, Key, Mode, Pair, Pairs, VALUE_MOST};
use tc_hashdb::last_of_each;
use tc_maps::Bytemap;
use tc_space::{Multi, RecErr, Records, Space};
use tc_table::Table;
use ty_base::Storage;

// Whether a text spells a row whose text isn't too long.
fn is_stored(alloc: Global, text: &[u8]) -> Result<bool, AllocError>
    ensures { IfOk result (λ b. b ≡ is_stored text.now) }
{
    let Some(row) = read_text(alloc, text)? else {
        return Ok(false);
    };
    let text = text_of(alloc, &row)?;
    Ok(text.len() <= VALUE_MOST)
}

// Whether each text does.
fn are_stored(alloc: Global, pairs: &[Pair]) -> Result<bool, AllocError>
    ensures { IfOk result (λ b. b ≡ list_all (λ p. is_stored p.value) pairs.now) }
{
    for pair in pairs {
        if !is_stored(alloc, pair.value.as_slice())? {
            return Ok(false);
        }
    }
    Ok(true)
}

// Gives each key the row of its text. After a refusal the first ones may be done.
fn put_some<R: Records, L: Multi<S = R::S>, D: Multi<S = R::S>>(
    alloc: Global,
    table: &mut Table<R, L, D>,
    space: &mut R::S,
    texts: &Bytemap,
) -> Result<(), RecErr>
    requires { IsReady R.S.Space (Holds R.S.Space R.Records L.Multi D.Multi) table.old space.old }
    ensures puts { OnOk result (PutsAll R.S.Space R.Records L.Multi D.Multi (entries texts.now) table.old table.new space.old space.new) }
    ensures full { IsErrOf result RecErr.Full → FullText R.S.Space R.Records L.Multi D.Multi L.O.cmp D.O.cmp (entries texts.now) table.old space.old space.new }
    ensures keeps { Keeps R.S.Space space.old space.new }
    ensures stays { StaysTable R.Records L.Multi D.Multi table.old table.new }
    ensures cause { OnFault R.S.Space result space.old space.new }
{
    let least = Key::new(Blob::new(alloc));
    for (key, text) in texts.entries_from(&least) {
        let Some(row) = read_text(alloc, text.as_slice())? else {
            return Err(RecErr::Memory);
        };
        let _done = table.put(space, Mode::Over, key.as_slice(), row)?;
    }
    Ok(())
}

// The same. After a refusal the space isn't sound.
fn put_texts<R: Records, L: Multi<S = R::S>, D: Multi<S = R::S>>(
    alloc: Global,
    table: &mut Table<R, L, D>,
    space: &mut R::S,
    texts: &Bytemap,
) -> Result<(), RecErr>
    requires { IsReady R.S.Space (Holds R.S.Space R.Records L.Multi D.Multi) table.old space.old }
    ensures puts { OnOk result (PutsAll R.S.Space R.Records L.Multi D.Multi (entries texts.now) table.old table.new space.old space.new) }
    ensures spoiled { OnErr result (R.S.flag space.new ≡ false) }
    ensures full { IsErrOf result RecErr.Full → FullTexts R.S.Space R.Records L.Multi D.Multi L.O.cmp D.O.cmp (entries texts.now) table.old space.old space.new }
    ensures keeps { Keeps R.S.Space space.old space.new }
    ensures stays { StaysTable R.Records L.Multi D.Multi table.old table.new }
    ensures cause { OnFault R.S.Space result space.old space.new }
{
    match put_some(alloc, table, space, texts) {
        Ok(()) => Ok(()),
        Err(e) => {
            give_up(space);
            Err(e)
        }
    }
}

impl<S: Space> TableEngine<S> {
    /// Gives each key the row of its text, one pair after the other. By its code only the last of several rows of a key is written. None is where one can't be.
    pub(crate) fn store_each(&mut self, space: &mut S, pairs: Pairs) -> Result<bool, RecErr>
        requires { base.IsReady S.Space ⟦<TableEngine<S> as Storage>⟧.holds self.old space.old }
        ensures makes { MadeBy S.Space ⟦<TableEngine<S> as Storage>⟧.holds IsTableFile layout_of result (all_stored pairs) self.old self.new space.old space.new }
        ensures refused { RefusesHeld S.Space ⟦<TableEngine<S> as Storage>⟧.holds result self.old self.new space.old space.new }
        ensures full { FullFor S.Space ⟦<TableEngine<S> as Storage>⟧.holds (fills_of S.Space) result (all_stored pairs) self.old space.old space.new }
        ensures keeps { Keeps S.Space space.old space.new }
        ensures cause { OnFault S.Space result space.old space.new }
    {
        table_stores::<S>();
        if !are_stored(self.alloc, pairs.as_slice())? {
            return Ok(false);
        }
        let texts = last_of_each(self.alloc, pairs)?;
        put_texts(self.alloc, &mut self.table, space, &texts)?;
        self.total = None;
        Ok(true)
    }
}
