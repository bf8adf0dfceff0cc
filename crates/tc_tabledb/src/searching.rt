//! Searches, and what is done with the rows that they find.
#![tactic(auto, using(tc_space::specs::Frames::keeps_refl, tc_space::specs::Frames::keeps_then, tc_engine::specs::Rows::extends_refl, tc_engine::specs::Rows::extends_then))]

ghost use Rattle.std.specs.Prelude.{◌≡◌, ◌∷◌, [], true, false, flat_map, length, map, IsErrOf, OnErr, OnOk};
ghost use Rattle.std.specs.Fmt.{decimal};
ghost use Rattle.tc_engine.specs.Effects.{IsFull};
ghost use Rattle.tc_engine.specs.Rows.{Adds, Extends, item_row};
ghost use Rattle.tc_model.specs.Meaning.{reply_of};
ghost use Rattle.tc_model.specs.declared.query.Deed.TheVariants as deeds;
ghost use Rattle.tc_space.specs.Frames.{Keeps};
ghost use Rattle.tc_space.specs.Refusals.{OnFault};
ghost use Rattle.tc_table.specs.Tables.{StaysTable};
ghost use Rattle.ty_base.specs.Holding.{IsReady, RefusesHeld};
ghost use Rattle.tc_tabledb.specs.Files.{IsTableFile};
ghost use Rattle.tc_tabledb.specs.Filling.{fills_of};
ghost use Rattle.tc_tabledb.specs.Laying.{layout_of};
ghost use Rattle.tc_tabledb.specs.Searching.{Searches, found_for, said};

use crate::changing::{drop_each, found_keys};
use crate::holding::{Decimals, Lexicals, TableEngine};
use crate::laws::table_stores;
use crate::reading::text_of;
use itoa::Buffer;
use std::alloc::{AllocError, Global};
use tc_base::Steps;
use tc_engine::Rows;
use tc_hash::Hash;
use tc_hashdb::{add_items, add_texts};
use tc_model::{Deed, Query};
use tc_space::{Multi, RecErr, Records, Space};
use td_query::{FoundRow, FoundRows};
use ty_base::Storage;

// Adds the primary key and the row text of a row that was found.
fn add_one(alloc: Global, row: &FoundRow, into: &mut Rows) -> Result<(), AllocError>
    ensures added { OnOk result (Adds into.old into.new (map item_row (reply_of row.now))) }
    ensures front { Extends into.old into.new }
{
    let text = text_of(alloc, &row.1)?;
    add_items(row.0.as_slice(), text.as_slice(), into)
}

// Adds those of rows that were found.
fn add_found(alloc: Global, found: &FoundRows, into: &mut Rows) -> Result<(), AllocError>
    ensures added { OnOk result (Adds into.old into.new (map item_row (flat_map reply_of found.now))) }
    ensures front { Extends into.old into.new }
{
    for i in 0..found.len() {
        add_one(alloc, found.at(i), into)?;
    }
    Ok(())
}

// Adds their primary keys.
fn add_found_keys(alloc: Global, found: &FoundRows, into: &mut Rows) -> Result<(), AllocError>
    ensures added { OnOk result (Adds into.old into.new (map item_row (map (λ f. f.0) found.now))) }
    ensures front { Extends into.old into.new }
{
    let keys = found_keys(alloc, found)?;
    add_texts(keys.as_slice(), into)
}

// Adds how many there are, as a text.
fn add_count(n: u64, into: &mut Rows) -> Result<(), AllocError>
    ensures added { OnOk result (Adds into.old into.new (item_row (decimal n) ∷ [])) }
    ensures front { Extends into.old into.new }
{
    let mut buffer = Buffer::new();
    into.item(buffer.format(n).as_bytes())
}

// Adds what a search has to say of the rows that it found.
fn say_found(
    alloc: Global,
    deed: Deed,
    found: &FoundRows,
    into: &mut Rows,
) -> Result<(), AllocError>
    ensures said { OnOk result (Adds into.old into.new (map item_row (said deed found.now))) }
    ensures quiet { deed ≡ deeds.Out → into.new ≡ into.old }
    ensures front { Extends into.old into.new }
{
    match deed {
        Deed::Keys => add_found_keys(alloc, found, into),
        Deed::Get => add_found(alloc, found, into),
        Deed::Out => Ok(()),
        Deed::Count => add_count(found.len() as u64, into),
    }
}

// Whether a deed takes the rows out.
fn takes_out(deed: Deed) -> bool
    ensures out { result ≡ true → deed ≡ deeds.Out }
    ensures other { result ≡ false → deed ≡ deeds.Out → ⊥ }
{
    match deed {
        Deed::Keys => false,
        Deed::Get => false,
        Deed::Out => true,
        Deed::Count => false,
    }
}

// Whether a deed asks only how many rows there are.
fn asks_count(deed: Deed) -> bool
    ensures { result ≡ true → deed ≡ deeds.Count }
{
    match deed {
        Deed::Keys => false,
        Deed::Get => false,
        Deed::Out => false,
        Deed::Count => true,
    }
}

// Whether a deed asks for their primary keys alone.
fn asks_keys(deed: Deed) -> bool
    ensures { result ≡ true → deed ≡ deeds.Keys }
{
    match deed {
        Deed::Keys => true,
        Deed::Get => false,
        Deed::Out => false,
        Deed::Count => false,
    }
}

impl<S: Space> TableEngine<S> {
    // Adds how many rows a query finds.
    fn count_by(&mut self, space: &mut S, query: &Query, into: &mut Rows) -> Result<(), RecErr>
        requires ready { IsReady S.Space ⟦<TableEngine<S> as Storage>⟧.holds self.old space.old }
        requires count { query.now.deed ≡ deeds.Count }
        ensures does { OnOk result (Searches S.Space IsTableFile layout_of ⟦<TableEngine<S> as Storage>⟧.holds query.now self.old self.new space.old space.new into.old into.new) }
        ensures front { Extends into.old into.new }
        ensures reads { ReadsNamed S.Space ⟦<Hash<S> as Records>⟧ ⟦<Lexicals<S> as Multi>⟧ ⟦<Decimals<S> as Multi>⟧ query.now self.old self.new space.old space.new }
        ensures keeps { Keeps S.Space space.old space.new }
        ensures stays { StaysTable ⟦<Hash<S> as Records>⟧ ⟦<Lexicals<S> as Multi>⟧ ⟦<Decimals<S> as Multi>⟧ self.old.table self.new.table }
        ensures cause { Blames S.Space result space.old space.new }
    {
        table_stores::<S>();
        let mut steps: Steps<()> = Steps::new();
        let n = self.table.count_found(space, query, &mut steps)?;
        add_count(n, into)?;
        Ok(())
    }

    // Adds the primary keys of the rows that a query finds.
    fn keys_by(&mut self, space: &mut S, query: &Query, into: &mut Rows) -> Result<(), RecErr>
        requires ready { IsReady S.Space ⟦<TableEngine<S> as Storage>⟧.holds self.old space.old }
        requires keys { query.now.deed ≡ deeds.Keys }
        ensures does { OnOk result (Searches S.Space IsTableFile layout_of ⟦<TableEngine<S> as Storage>⟧.holds query.now self.old self.new space.old space.new into.old into.new) }
        ensures front { Extends into.old into.new }
        ensures reads { ReadsNamed S.Space ⟦<Hash<S> as Records>⟧ ⟦<Lexicals<S> as Multi>⟧ ⟦<Decimals<S> as Multi>⟧ query.now self.old self.new space.old space.new }
        ensures keeps { Keeps S.Space space.old space.new }
        ensures stays { StaysTable ⟦<Hash<S> as Records>⟧ ⟦<Lexicals<S> as Multi>⟧ ⟦<Decimals<S> as Multi>⟧ self.old.table self.new.table }
        ensures cause { Blames S.Space result space.old space.new }
    {
        table_stores::<S>();
        let mut steps: Steps<()> = Steps::new();
        let keys = self.table.search_keys(space, query, &mut steps)?;
        add_texts(keys.as_slice(), into)?;
        Ok(())
    }

    // Takes the rows that were found out. After a refusal the space isn't sound, or nothing has changed.
    fn drop_found(&mut self, space: &mut S, found: &FoundRows) -> Result<(), RecErr>
        requires { IsReady S.Space ⟦<TableEngine<S> as Storage>⟧.holds self.old space.old }
        ensures drops { OnOk result (DropsFound S.Space IsTableFile layout_of ⟦<TableEngine<S> as Storage>⟧.holds found.now self.old self.new space.old space.new) }
        ensures refused { RefusesHeld S.Space ⟦<TableEngine<S> as Storage>⟧.holds result self.old self.new space.old space.new }
        ensures full { IsErrOf result RecErr.Full → IsFull S.Space ⟦<TableEngine<S> as Storage>⟧.holds (fills_of S.Space) (dropped found.now) self.old space.old space.new }
        ensures keeps { Keeps S.Space space.old space.new }
        ensures cause { OnFault S.Space result space.old space.new }
    {
        table_stores::<S>();
        let keys = found_keys(self.alloc, found)?;
        drop_each(&mut self.table, space, keys.as_slice())?;
        self.total = None;
        Ok(())
    }

    /// Does with the rows that a query finds what it says, and adds what it has to say as rows.
    pub(crate) fn search_by(
        &mut self,
        space: &mut S,
        query: &Query,
        into: &mut Rows,
    ) -> Result<(), RecErr>
        requires { IsReady S.Space ⟦<TableEngine<S> as Storage>⟧.holds self.old space.old }
        ensures does { OnOk result (Searches S.Space IsTableFile layout_of ⟦<TableEngine<S> as Storage>⟧.holds query.now self.old self.new space.old space.new into.old into.new) }
        ensures quiet { query.now.deed ≡ deeds.Out → into.new ≡ into.old }
        ensures front { Extends into.old into.new }
        ensures reads { (query.now.deed ≡ deeds.Out → ⊥) → ReadsNamed S.Space ⟦<Hash<S> as Records>⟧ ⟦<Lexicals<S> as Multi>⟧ ⟦<Decimals<S> as Multi>⟧ query.now self.old self.new space.old space.new }
        ensures writes { IsErrOf result RecErr.Full → query.now.deed ≡ deeds.Out }
        ensures refused { RefusesHeld S.Space ⟦<TableEngine<S> as Storage>⟧.holds result self.old self.new space.old space.new }
        ensures full { IsErrOf result RecErr.Full → IsFull S.Space ⟦<TableEngine<S> as Storage>⟧.holds (fills_of S.Space) (found_for query.now) self.old space.old space.new }
        ensures keeps { Keeps S.Space space.old space.new }
        ensures cause { OnFault S.Space result space.old space.new }
    {
        table_stores::<S>();
        if asks_count(query.deed) {
            return self.count_by(space, query, into);
        }
        if asks_keys(query.deed) {
            return self.keys_by(space, query, into);
        }
        let mut steps: Steps<()> = Steps::new();
        let found = self.table.search(space, query, &mut steps)?;
        say_found(self.alloc, query.deed, &found, into)?;
        if !takes_out(query.deed) {
            return Ok(());
        }
        self.drop_found(space, &found)
    }
}

ghost use Rattle.tc_space.specs.Refusals.{Blames};
ghost use Rattle.tc_tabledb.specs.Searching.{DropsFound, ReadsNamed, dropped};
