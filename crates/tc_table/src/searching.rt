//! Searches of a table.
#![tactic(auto, using(tc_space::specs::Frames::keeps_refl, tc_space::specs::Frames::keeps_then, tc_space::specs::Frames::reads_refl, tc_space::specs::Frames::reads_then, crate::proofs::Holding::table_stays, crate::proofs::Holding::stays_then))]

ghost use Rattle.std.specs.Prelude.{◌≡◌, ◌≤◌, ◌+◌, ◌++◌, length, Some, None, IfOk, IfSome, MatchOption};
ghost use Rattle.tc_model.specs.Contents.{Rows};
ghost use Rattle.tc_model.specs.Search.{found};
ghost use Rattle.tc_space.specs.Frames.{Keeps, Reads};
ghost use Rattle.tc_space.specs.Refusals.{Blames};
ghost use Rattle.tc_space.specs.Stores.{IsReady, Ticks};
ghost use Rattle.tc_table.specs.Searching.{AreArranged, AreOne, CountsUnder, FindsUnder, HasAllUnder, IsAlone, IsExact, NamesAt, NamesPlanned, OfPlanned, as_indexed, firsts_of, found_row, indexed, kept, of_values};
ghost use Rattle.tc_table.specs.Sides.{AllReady, AllStand, AllStay};
ghost use Rattle.tc_table.specs.Tables.{Holds, StaysTable};
ghost use Rattle.td_plan.specs.Choices.{IsChosen};
ghost use Rattle.td_plan.specs.Plans.{IsCovered};

use crate::planning::keys_at;
use crate::side::Side;
use crate::table::Table;
use std::alloc::{AllocError, Global};
use tc_base::{Blob, Blobs, Decimal, Lexical, Seq, Steps};
use tc_model::{Cond, IndexKind, Query};
use tc_space::{Multi, RecErr, Records};
use td_plan::{Indexed, Names, Plan, Span, make_plan};
use td_query::{FoundRows, arrange_back, cut, holds};
use td_row::Row;

// The column and the type of an index.
fn name_of<L, D>(alloc: Global, side: &Side<L, D>) -> Result<Indexed, AllocError>
    ensures { IfOk result (λ x. x ≡ as_indexed side.now) }
{
    let column = Blob::from_slice(alloc, side.tree.name().as_slice())?;
    let kind = side.kind;
    Ok(Indexed { column, kind })
}

// Those of all.
fn names_of<L, D>(alloc: Global, sides: &[Side<L, D>]) -> Result<Names, AllocError>
    ensures { IfOk result (λ names. names ≡ indexed sides.now) }
{
    let mut names: Names = Seq::new(alloc);
    for side in sides {
        names.push(name_of(alloc, side)?)?;
    }
    Ok(names)
}

// How many rows may be kept before those are let go that can't be among what is found.
fn most_kept(q: &Query) -> usize {
    match q.maximum {
        Some(maximum) => (q.skip.saturating_add(maximum) as usize)
            .saturating_mul(2)
            .saturating_add(64),
        None => usize::MAX,
    }
}

// Whether some of them are to be let go.
fn are_many(q: &Query, rows: &FoundRows) -> bool {
    rows.len() >= most_kept(q)
}

// Rows that were found and one behind them, or those of them that may be among what is found.
fn with_one(
    alloc: Global,
    q: &Query,
    key: &[u8],
    row: Row,
    rows: FoundRows,
) -> Result<FoundRows, AllocError>
    ensures { IfOk result (λ fs. AreOne q.now fs (rows ++ found_row q.now key.now (Some row))) }
{
    if !holds(q, key, &row) {
        return Ok(rows);
    }
    let at = Blob::from_slice(alloc, key)?;
    let mut next = rows;
    next.push((at, row))?;
    if !are_many(q, &next) {
        return Ok(next);
    }
    cut(q, next)
}

// Rows that were found, and behind them that of a key, if it has one and the query asks for it.
fn with_found(
    alloc: Global,
    q: &Query,
    key: &[u8],
    row: Option<Row>,
    rows: FoundRows,
) -> Result<FoundRows, AllocError>
    ensures { IfOk result (λ fs. AreOne q.now fs (rows ++ found_row q.now key.now row)) }
{
    match row {
        Some(row) => with_one(alloc, q, key, row, rows),
        None => Ok(rows),
    }
}

// One for a row that the query asks for, else none.
fn count_row(q: &Query, key: &[u8], row: &Row) -> usize
    ensures found { result ≡ length (found_row q.now key.now (Some row.now)) }
    ensures few { result ≤ 1 }
{
    if !holds(q, key, row) {
        return 0;
    }
    1
}

// The same of the row of a key, if it has one.
fn count_one(q: &Query, key: &[u8], row: Option<Row>) -> usize
    ensures found { result ≡ length (found_row q.now key.now row) }
    ensures few { result ≤ 1 }
{
    match row {
        Some(row) => count_row(q, key, &row),
        None => 0,
    }
}

// How many are found where so many rows meet the query.
fn kept_of(q: &Query, n: u64) -> u64
    ensures { result ≡ kept q.now n }
{
    let left = n.saturating_sub(q.skip);
    match q.maximum {
        Some(most) => most.min(left),
        None => left,
    }
}

// Whether an index of that type has values, and not tokens.
fn has_values(kind: IndexKind) -> bool
    ensures { result ≡ of_values kind }
{
    match kind {
        IndexKind::Lexical => true,
        IndexKind::Decimal => true,
        IndexKind::Token => false,
    }
}

// The plan of a query whose only condition an index of values serves; none of any other query.
fn exact_plan(alloc: Global, q: &Query, names: &Names) -> Result<Option<Plan>, AllocError>
    ensures chosen { IfOk result (λ o. IfSome o (λ p. IsChosen q.now names.now p.choice)) }
    ensures covers { IfOk result (λ o. IfSome o (λ p. IsCovered q.now names.now p.choice p.span)) }
    ensures exact { IfOk result (λ o. MatchOption o (IsExact q.now names.now → ⊥) (λ p. IsAlone q.now names.now p.choice)) }
{
    if q.conds.len() != 1 {
        return Ok(None);
    }
    let Some(plan) = make_plan(alloc, q, names)? else {
        return Ok(None);
    };
    let kind = names.at(plan.choice.index).kind;
    if !has_values(kind) {
        return Ok(None);
    }
    Ok(Some(plan))
}

// Rows of these primary keys, without columns.
fn bare_rows(alloc: Global, keys: Blobs) -> Result<FoundRows, AllocError>
    ensures { IfOk result (λ fs. firsts_of fs ≡ keys) }
{
    let mut rows = FoundRows::new(alloc);
    for key in keys.into_vec() {
        rows.push((key, Row::new(alloc)))?;
    }
    Ok(rows)
}

// The primary keys of rows.
fn keys_of(alloc: Global, rows: FoundRows) -> Result<Blobs, AllocError>
    ensures { IfOk result (λ ks. ks ≡ firsts_of rows) }
{
    let mut keys = Blobs::new(alloc);
    for row in rows.into_vec() {
        let (key, _columns) = row;
        keys.push(key)?;
    }
    Ok(keys)
}

// The keys that a query without an order finds where these are those of the rows that meet it.
fn arranged_keys(alloc: Global, q: &Query, keys: Blobs) -> Result<Blobs, AllocError>
    requires { q.now.sort ≡ None }
    ensures { IfOk result (λ ks. AreArranged q.now keys ks) }
{
    let rows = bare_rows(alloc, keys)?;
    let found = arrange_back(q, rows)?;
    keys_of(alloc, found)
}

impl<R: Records, L: Multi<S = R::S, O = Lexical>, D: Multi<S = R::S, O = Decimal>> Table<R, L, D> {
    // The rows under these keys that a query asks for, or those of them that may be among what is found. Each is read once.
    fn gather<T>(
        &mut self,
        space: &mut R::S,
        q: &Query,
        row_keys: &[Blob],
        steps: &mut Steps<T>,
    ) -> Result<FoundRows, RecErr>
        requires { IsReady R.S.Space (Holds R.S.Space R.Records L.Multi D.Multi) self.old space.old }
        ensures found { IfOk result (λ fs. FindsUnder R.S.Space R.Records L.Multi D.Multi q.now self.old space.old row_keys.now fs) }
        ensures reads { Reads R.S.Space (Holds R.S.Space R.Records L.Multi D.Multi) self.old self.new space.old space.new }
        ensures keeps { Keeps R.S.Space space.old space.new }
        ensures stays { StaysTable R.Records L.Multi D.Multi self.old self.new }
        ensures few { R.gets self.new.rows ≤ R.gets self.old.rows + length row_keys.now }
        ensures most { steps.new ≤ steps.old + length row_keys.now }
        ensures steps { Ticks (R.gets self.old.rows) (R.gets self.new.rows) steps.old steps.new }
        ensures cause { Blames R.S.Space result space.old space.new }
    {
        let mut found = FoundRows::new(self.alloc);
        for i in 0..row_keys.len() {
            let key = row_keys[i].as_slice();
            let _counted = steps.count();
            steps.tick();
            let row = self.get(space, key)?;
            found = with_found(self.alloc, q, key, row, found)?;
        }
        Ok(found)
    }

    // How many of the rows under these keys a query asks for. Each is read once.
    fn tally<T>(
        &mut self,
        space: &mut R::S,
        q: &Query,
        row_keys: &[Blob],
        steps: &mut Steps<T>,
    ) -> Result<usize, RecErr>
        requires { IsReady R.S.Space (Holds R.S.Space R.Records L.Multi D.Multi) self.old space.old }
        ensures found { IfOk result (λ n. CountsUnder R.S.Space R.Records L.Multi D.Multi q.now self.old space.old row_keys.now n) }
        ensures reads { Reads R.S.Space (Holds R.S.Space R.Records L.Multi D.Multi) self.old self.new space.old space.new }
        ensures keeps { Keeps R.S.Space space.old space.new }
        ensures stays { StaysTable R.Records L.Multi D.Multi self.old self.new }
        ensures few { R.gets self.new.rows ≤ R.gets self.old.rows + length row_keys.now }
        ensures most { steps.new ≤ steps.old + length row_keys.now }
        ensures steps { Ticks (R.gets self.old.rows) (R.gets self.new.rows) steps.old steps.new }
        ensures cause { Blames R.S.Space result space.old space.new }
    {
        let mut number: usize = 0;
        for i in 0..row_keys.len() {
            let key = row_keys[i].as_slice();
            let _counted = steps.count();
            steps.tick();
            let row = self.get(space, key)?;
            number += count_one(q, key, row);
        }
        Ok(number)
    }

    // The keys that a stretch of the index at a place names.
    fn keys_by(
        &mut self,
        space: &mut R::S,
        place: usize,
        cond: &Cond,
        span: &Span,
    ) -> Result<Blobs, RecErr>
        requires { AllReady R.S.Space L.Multi D.Multi self.old.sides.items space.old }
        ensures named { IfOk result (λ ks. NamesAt R.S.Space L.Multi D.Multi cond.now span.now place self.old.sides.items space.old ks) }
        ensures reads { Reads R.S.Space (AllStand R.S.Space L.Multi D.Multi) self.old.sides.items self.new.sides.items space.old space.new }
        ensures keeps { Keeps R.S.Space space.old space.new }
        ensures stays { AllStay L.Multi D.Multi self.old.sides.items self.new.sides.items }
        ensures rows { self.new.rows ≡ self.old.rows }
        ensures cause { Blames R.S.Space result space.old space.new }
    {
        keys_at(
            self.alloc,
            self.sides.as_mut_slice(),
            place,
            space,
            cond,
            span,
        )
    }

    // The primary keys of the rows that the index of a plan names.
    fn named_keys(&mut self, space: &mut R::S, q: &Query, plan: &Plan) -> Result<Blobs, RecErr>
        requires ready { IsReady R.S.Space (Holds R.S.Space R.Records L.Multi D.Multi) self.old space.old }
        requires chosen { IsChosen q.now (indexed self.old.sides.items) plan.now.choice }
        requires covers { IsCovered q.now (indexed self.old.sides.items) plan.now.choice plan.now.span }
        ensures named { IfOk result (λ ks. NamesPlanned R.S.Space R.Records L.Multi D.Multi q.now plan.now.choice self.old space.old ks) }
        ensures reads { Reads R.S.Space (Holds R.S.Space R.Records L.Multi D.Multi) self.old self.new space.old space.new }
        ensures keeps { Keeps R.S.Space space.old space.new }
        ensures stays { StaysTable R.Records L.Multi D.Multi self.old self.new }
        ensures rows { self.new.rows ≡ self.old.rows }
        ensures cause { Blames R.S.Space result space.old space.new }
    {
        let place = plan.choice.cond;
        self.keys_by(space, plan.choice.index, q.conds.at(place), &plan.span)
    }

    // The primary keys of the rows that a search reads: those that an index names, or all.
    fn asked_keys(&mut self, space: &mut R::S, q: &Query) -> Result<Blobs, RecErr>
        requires { IsReady R.S.Space (Holds R.S.Space R.Records L.Multi D.Multi) self.old space.old }
        ensures all { IfOk result (λ ks. (rows : Rows) → Holds R.S.Space R.Records L.Multi D.Multi self.old space.old rows → HasAllUnder q.now rows ks) }
        ensures planned { IfOk result (λ ks. OfPlanned R.S.Space R.Records L.Multi D.Multi q.now self.old space.old (λ n. length ks ≤ n)) }
        ensures reads { Reads R.S.Space (Holds R.S.Space R.Records L.Multi D.Multi) self.old self.new space.old space.new }
        ensures keeps { Keeps R.S.Space space.old space.new }
        ensures stays { StaysTable R.Records L.Multi D.Multi self.old self.new }
        ensures gets { R.gets self.new.rows ≡ R.gets self.old.rows }
        ensures cause { Blames R.S.Space result space.old space.new }
    {
        let names = names_of(self.alloc, self.sides.as_slice())?;
        let Some(plan) = make_plan(self.alloc, q, &names)? else {
            return self.keys(space);
        };
        self.named_keys(space, q, &plan)
    }

    /// What a query finds. Where an index serves a condition, it reads at most as many rows as the index names that serves the first such condition. A step is a row that is read.
    /// By its code all rows are read where no index serves. No more rows than some twice the query's skip and maximum are kept at once, by its code too.
    pub fn search<T>(
        &mut self,
        space: &mut R::S,
        q: &Query,
        steps: &mut Steps<T>,
    ) -> Result<FoundRows, RecErr>
        requires { IsReady R.S.Space (Holds R.S.Space R.Records L.Multi D.Multi) self.old space.old }
        ensures found { IfOk result (λ fs. (rows : Rows) → Holds R.S.Space R.Records L.Multi D.Multi self.old space.old rows → fs ≡ found q.now rows) }
        ensures planned { OfPlanned R.S.Space R.Records L.Multi D.Multi q.now self.old space.old (λ n. R.gets self.new.rows ≤ R.gets self.old.rows + n) }
        ensures counted { OfPlanned R.S.Space R.Records L.Multi D.Multi q.now self.old space.old (λ n. steps.new ≤ steps.old + n) }
        ensures reads { Reads R.S.Space (Holds R.S.Space R.Records L.Multi D.Multi) self.old self.new space.old space.new }
        ensures keeps { Keeps R.S.Space space.old space.new }
        ensures stays { StaysTable R.Records L.Multi D.Multi self.old self.new }
        ensures steps { Ticks (R.gets self.old.rows) (R.gets self.new.rows) steps.old steps.new }
        ensures cause { Blames R.S.Space result space.old space.new }
    {
        let keys = self.asked_keys(space, q)?;
        let rows = self.gather(space, q, keys.as_slice(), steps)?;
        let found = arrange_back(q, rows)?;
        Ok(found)
    }

    // How many rows a query finds, where they are read. By its code it keeps no row.
    fn count_read<T>(
        &mut self,
        space: &mut R::S,
        q: &Query,
        steps: &mut Steps<T>,
    ) -> Result<u64, RecErr>
        requires { IsReady R.S.Space (Holds R.S.Space R.Records L.Multi D.Multi) self.old space.old }
        ensures found { IfOk result (λ n. (rows : Rows) → Holds R.S.Space R.Records L.Multi D.Multi self.old space.old rows → n ≡ length (found q.now rows)) }
        ensures planned { OfPlanned R.S.Space R.Records L.Multi D.Multi q.now self.old space.old (λ n. R.gets self.new.rows ≤ R.gets self.old.rows + n) }
        ensures counted { OfPlanned R.S.Space R.Records L.Multi D.Multi q.now self.old space.old (λ n. steps.new ≤ steps.old + n) }
        ensures reads { Reads R.S.Space (Holds R.S.Space R.Records L.Multi D.Multi) self.old self.new space.old space.new }
        ensures keeps { Keeps R.S.Space space.old space.new }
        ensures stays { StaysTable R.Records L.Multi D.Multi self.old self.new }
        ensures steps { Ticks (R.gets self.old.rows) (R.gets self.new.rows) steps.old steps.new }
        ensures cause { Blames R.S.Space result space.old space.new }
    {
        let keys = self.asked_keys(space, q)?;
        let number = self.tally(space, q, keys.as_slice(), steps)?;
        Ok(kept_of(q, number as u64))
    }
    // The plan by which no row need be read to know which ones meet a query, if there is one.
    fn plan_exactly(&self, q: &Query) -> Result<Option<Plan>, AllocError>
        ensures chosen { IfOk result (λ o. IfSome o (λ p. IsChosen q.now (indexed self.now.sides.items) p.choice)) }
        ensures covers { IfOk result (λ o. IfSome o (λ p. IsCovered q.now (indexed self.now.sides.items) p.choice p.span)) }
        ensures exact { IfOk result (λ o. MatchOption o (IsExact q.now (indexed self.now.sides.items) → ⊥) (λ p. IsAlone q.now (indexed self.now.sides.items) p.choice)) }
    {
        let indexes = names_of(self.alloc, self.sides.as_slice())?;
        exact_plan(self.alloc, q, &indexes)
    }

    // The same of a query without an order.
    fn plan_unsorted(&self, q: &Query) -> Result<Option<Plan>, AllocError>
        ensures chosen { IfOk result (λ o. IfSome o (λ p. IsChosen q.now (indexed self.now.sides.items) p.choice)) }
        ensures covers { IfOk result (λ o. IfSome o (λ p. IsCovered q.now (indexed self.now.sides.items) p.choice p.span)) }
        ensures sort { IfOk result (λ o. IfSome o (λ p. q.now.sort ≡ None)) }
        ensures exact { IfOk result (λ o. MatchOption o (IsExact q.now (indexed self.now.sides.items) → q.now.sort ≡ None → ⊥) (λ p. IsAlone q.now (indexed self.now.sides.items) p.choice)) }
    {
        match q.sort {
            Some(_) => Ok(None),
            None => self.plan_exactly(q),
        }
    }

    /// How many rows a query finds. It reads at most what a search reads at most, and none where an index of values serves the only condition. By its code it keeps no row.
    pub fn count_found<T>(
        &mut self,
        space: &mut R::S,
        q: &Query,
        steps: &mut Steps<T>,
    ) -> Result<u64, RecErr>
        requires { IsReady R.S.Space (Holds R.S.Space R.Records L.Multi D.Multi) self.old space.old }
        ensures found { IfOk result (λ n. (rows : Rows) → Holds R.S.Space R.Records L.Multi D.Multi self.old space.old rows → n ≡ length (found q.now rows)) }
        ensures planned { OfPlanned R.S.Space R.Records L.Multi D.Multi q.now self.old space.old (λ n. R.gets self.new.rows ≤ R.gets self.old.rows + n) }
        ensures counted { OfPlanned R.S.Space R.Records L.Multi D.Multi q.now self.old space.old (λ n. steps.new ≤ steps.old + n) }
        ensures few { IsExact q.now (indexed self.old.sides.items) → R.gets self.new.rows ≡ R.gets self.old.rows }
        ensures reads { Reads R.S.Space (Holds R.S.Space R.Records L.Multi D.Multi) self.old self.new space.old space.new }
        ensures keeps { Keeps R.S.Space space.old space.new }
        ensures stays { StaysTable R.Records L.Multi D.Multi self.old self.new }
        ensures steps { Ticks (R.gets self.old.rows) (R.gets self.new.rows) steps.old steps.new }
        ensures cause { Blames R.S.Space result space.old space.new }
    {
        let Some(plan) = self.plan_exactly(q)? else {
            return self.count_read(space, q, steps);
        };
        let keys = self.named_keys(space, q, &plan)?;
        Ok(kept_of(q, keys.len() as u64))
    }

    /// The primary keys of the rows that a query finds. It reads at most what a search reads at most, and none where the query has no order and an index of values serves its only condition.
    pub fn search_keys<T>(
        &mut self,
        space: &mut R::S,
        q: &Query,
        steps: &mut Steps<T>,
    ) -> Result<Blobs, RecErr>
        requires { IsReady R.S.Space (Holds R.S.Space R.Records L.Multi D.Multi) self.old space.old }
        ensures found { IfOk result (λ ks. (rows : Rows) → Holds R.S.Space R.Records L.Multi D.Multi self.old space.old rows → ks ≡ firsts_of (found q.now rows)) }
        ensures planned { OfPlanned R.S.Space R.Records L.Multi D.Multi q.now self.old space.old (λ n. R.gets self.new.rows ≤ R.gets self.old.rows + n) }
        ensures counted { OfPlanned R.S.Space R.Records L.Multi D.Multi q.now self.old space.old (λ n. steps.new ≤ steps.old + n) }
        ensures few { IsExact q.now (indexed self.old.sides.items) → q.now.sort ≡ None → R.gets self.new.rows ≡ R.gets self.old.rows }
        ensures reads { Reads R.S.Space (Holds R.S.Space R.Records L.Multi D.Multi) self.old self.new space.old space.new }
        ensures keeps { Keeps R.S.Space space.old space.new }
        ensures stays { StaysTable R.Records L.Multi D.Multi self.old self.new }
        ensures steps { Ticks (R.gets self.old.rows) (R.gets self.new.rows) steps.old steps.new }
        ensures cause { Blames R.S.Space result space.old space.new }
    {
        let Some(plan) = self.plan_unsorted(q)? else {
            let found = self.search(space, q, steps)?;
            let keys = keys_of(self.alloc, found)?;
            return Ok(keys);
        };
        let keys = self.named_keys(space, q, &plan)?;
        let found = arranged_keys(self.alloc, q, keys)?;
        Ok(found)
    }
}
