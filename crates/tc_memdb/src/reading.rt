//! What is read of a database in memory as rows of a reply.
#![tactic(auto, using(tc_engine::specs::Rows::extends_refl, tc_engine::specs::Rows::extends_then, tc_engine::specs::Rows::adds_nothing))]

ghost use Rattle.std.specs.Prelude.{◌≡◌, ◌∷◌, [], map, nat_eq, IfOk, OnOk, option_map};
ghost use Rattle.std.specs.List.{starts_with};
ghost use Rattle.std.specs.Map.{keys_of};
ghost use Rattle.tc_maps.specs.Entries.{all_of};
ghost use Rattle.tc_model.specs.Apply.{keys_from};
ghost use Rattle.tc_model.specs.Meaning.{ranged};
ghost use Rattle.tc_model.specs.Stores.{all_pairs, first_pair, held};
ghost use Rattle.tc_engine.specs.Changes.{first_of};
ghost use Rattle.tc_engine.specs.Rows.{Adds, Extends, IsItem, item_row, pair_rows, text_rows};
ghost use Rattle.tc_memdb.specs.Holding.{contents_of};
ghost use Rattle.tc_memdb.specs.Walked.{Falls, WalksOver, is_before, is_spent, lessened, rows_before, rows_begun};

use crate::data::Data;
use std::alloc::AllocError;
use std::collections::btree_map::Range;
use tc_base::{Blob, Key};
use tc_engine::Rows;
use tc_maps::Values;

// Whether none is left to add.
fn is_spent(left: Option<u64>) -> bool
    ensures { result ≡ is_spent left }
{
    match left {
        Some(n) => n == 0,
        None => false,
    }
}

// What is left behind one more.
fn one_less(left: Option<u64>) -> Option<u64>
    ensures { result ≡ lessened left 1 }
{
    match left {
        Some(n) => Some(n.saturating_sub(1)),
        None => None,
    }
}

fn is_before(key: &Key, to: Option<&Key>) -> bool
    ensures { result ≡ is_before (option_map (λ k. k.now) to.entry) key.now }
{
    match to {
        Some(to) => key.cmp(to).is_lt(),
        None => true,
    }
}

fn begins(key: &Key, prefix: &Key) -> bool
    ensures { result ≡ starts_with nat_eq key.now prefix.now }
{
    key.as_slice().starts_with(prefix.as_slice())
}

// Adds a pair where one is left to add.
fn add_value(
    key: &Key,
    value: &Blob,
    left: Option<u64>,
    rows: &mut Rows,
) -> Result<Option<u64>, AllocError>
    ensures walked { IfOk result (λ after. WalksOver key.now (value.now ∷ []) left after rows.old rows.new) }
    ensures front { Extends rows.old rows.new }
{
    if is_spent(left) {
        return Ok(left);
    }
    rows.item(key.as_slice())?;
    rows.item(value.as_slice())?;
    Ok(one_less(left))
}

// Adds a pair each for some values of a key.
fn add_values(
    key: &Key,
    values: &[Blob],
    left: Option<u64>,
    rows: &mut Rows,
) -> Result<Option<u64>, AllocError>
    ensures walked { IfOk result (λ after. WalksOver key.now values.now left after rows.old rows.new) }
    ensures front { Extends rows.old rows.new }
{
    let mut left = left;
    for value in values {
        left = add_value(key, value, left, rows)?;
    }
    Ok(left)
}

// Adds the pairs of a key.
fn add_entry(
    key: &Key,
    values: &Values,
    left: Option<u64>,
    rows: &mut Rows,
) -> Result<Option<u64>, AllocError>
    ensures walked { IfOk result (λ after. WalksOver key.now (all_of values.now) left after rows.old rows.new) }
    ensures front { Extends rows.old rows.new }
{
    let left = add_value(key, values.first(), left, rows)?;
    let (near, far) = values.rest();
    let left = add_values(key, near, left, rows)?;
    add_values(key, far, left, rows)
}

// Adds the first pairs before a key.
fn add_range(
    range: Range<'_, Key, Values>,
    to: Option<&Key>,
    most: Option<u64>,
    rows: &mut Rows,
) -> Result<(), AllocError>
    requires { Falls (is_before (option_map (λ k. k.now) to)) (keys_of range) }
    ensures rows { OnOk result (Adds rows.old rows.new (rows_before (option_map (λ k. k.now) to.entry) most range.entry)) }
    ensures front { Extends rows.old rows.new }
{
    let mut left = most;
    for (key, values) in range {
        if is_spent(left) {
            return Ok(());
        }
        if !is_before(key, to) {
            return Ok(());
        }
        left = add_entry(key, values, left, rows)?;
    }
    Ok(())
}

// Adds the first keys that begin with a prefix.
fn add_keys<V>(
    range: Range<'_, Key, V>,
    prefix: &Key,
    most: Option<u64>,
    rows: &mut Rows,
) -> Result<(), AllocError>
    requires { Falls (λ k. starts_with nat_eq k prefix.now) (keys_of range) }
    ensures rows { OnOk result (Adds rows.old rows.new (rows_begun prefix.now most (keys_of range.entry))) }
    ensures front { Extends rows.old rows.new }
{
    let mut left = most;
    for (key, _) in range {
        if is_spent(left) {
            return Ok(());
        }
        if !begins(key, prefix) {
            return Ok(());
        }
        rows.item(key.as_slice())?;
        left = one_less(left);
    }
    Ok(())
}

impl Data {
    /// Adds the value of a key as a row, and says whether the key is held.
    pub fn item(&self, key: &Key, rows: &mut Rows) -> Result<bool, AllocError>
        ensures value { IfOk result (λ found. IsItem (held (contents_of self.now) key.now) found rows.old rows.new) }
        ensures front { Extends rows.old rows.new }
    {
        let Some(value) = self.value(key) else {
            return Ok(false);
        };
        rows.item(value.as_slice())?;
        Ok(true)
    }

    /// Adds a key and its value as a row, where it is held.
    pub fn pair(&self, key: &Key, rows: &mut Rows) -> Result<(), AllocError>
        ensures rows { OnOk result (Adds rows.old rows.new (pair_rows (first_pair (contents_of self.now) key.now))) }
        ensures front { Extends rows.old rows.new }
    {
        let Some(value) = self.value(key) else {
            return Ok(());
        };
        rows.pair(key.as_slice(), value.as_slice())
    }

    /// Adds a row each for key and value of the pairs of a key.
    pub fn pairs(&self, key: &Key, rows: &mut Rows) -> Result<(), AllocError>
        ensures rows { OnOk result (Adds rows.old rows.new (text_rows (all_pairs (contents_of self.now) key.now))) }
        ensures front { Extends rows.old rows.new }
    {
        match self {
            Data::Map(map) => {
                if let Some(value) = map.get(key) {
                    add_value(key, value, None, rows)?;
                }
            }
            Data::Tree(tree) => {
                if let Some(values) = tree.values(key) {
                    add_entry(key, values, None, rows)?;
                }
            }
        }
        Ok(())
    }

    /// Adds the keys that begin with a prefix as rows, in order, at most so many.
    pub fn keys_from(
        &self,
        prefix: &Key,
        most: Option<u64>,
        rows: &mut Rows,
    ) -> Result<(), AllocError>
        ensures rows { OnOk result (Adds rows.old rows.new (map item_row (first_of most (keys_from (contents_of self.now) prefix.now)))) }
        ensures front { Extends rows.old rows.new }
    {
        match self {
            Data::Map(map) => add_keys(map.entries_from(prefix), prefix, most, rows),
            Data::Tree(tree) => add_keys(tree.entries_from(prefix), prefix, most, rows),
        }
    }

    /// Adds a row each for key and value of the pairs of a tree from a key on, before another where one is given, at most so many.
    pub fn range(
        &self,
        from: &Key,
        to: Option<&Key>,
        most: Option<u64>,
        rows: &mut Rows,
    ) -> Result<(), AllocError>
        ensures rows { OnOk result (Adds rows.old rows.new (text_rows (ranged (contents_of self.now) from.now (option_map (λ k. k.now) to.entry) most))) }
        ensures front { Extends rows.old rows.new }
    {
        match self {
            Data::Map(_) => Ok(()),
            Data::Tree(tree) => add_range(tree.entries_from(from), to, most, rows),
        }
    }
}
