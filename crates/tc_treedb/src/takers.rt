//! What is taken of items where they lie: rows of a reply, keys, and lengths.
#![tactic(auto, using(tc_engine::specs::Rows::extends_refl, tc_engine::specs::Rows::extends_then))]

ghost use Rattle.std.specs.Prelude.{◌≡◌, ◌+◌, ℕ, true, false, Some, IfOk, IfSome};
ghost use Rattle.bt_slots.specs.Lying.{seen};
ghost use Rattle.bt_slots.specs.Reads.{values_in};
ghost use Rattle.tc_engine.specs.Rows.{Extends, is_long};
ghost use Rattle.tc_treedb.specs.Taking.{AddsPair, AddsValues, AreDone, is_spent, lessened, lengths};

use bt_slots::{Lying, next_value};
use bt_tree::Taker;
use std::alloc::{AllocError, Global};
use tc_base::{Blob, Key, Keys};
use tc_engine::Rows;

// Whether none is left to add.
fn is_spent(left: Option<u64>) -> bool
    ensures { result ≡ is_spent left }
{
    match left {
        Some(n) => n == 0,
        None => false,
    }
}

// What is left behind one more.
fn one_less(left: Option<u64>) -> Option<u64>
    ensures { result ≡ lessened left 1 }
{
    match left {
        Some(n) => Some(n.saturating_sub(1)),
        None => None,
    }
}

// Whether nothing is to be added any more: a row had no room, or none is left.
fn is_done(rows: &Rows, left: Option<u64>) -> bool
    ensures done { result ≡ true → AreDone rows.now left }
    ensures free { result ≡ false → (is_spent left ≡ false) × (is_long rows.now ≡ false) }
{
    if is_spent(left) {
        return true;
    }
    rows.is_long()
}

/// Rows that grow by a key and a value each for the pairs that are shown, at most so many. Once a row had no room nothing more is wanted.
#[derive(Drop)]
pub(crate) struct PairRows {
    pub(crate) rows: Rows,
    pub(crate) left: Option<u64>,
}

// Adds a row each for a key and a value, where one is left to add and all before had room. Answers whether more is wanted.
fn add_pair(key: &[u8], value: &[u8], into: &mut PairRows) -> Result<bool, AllocError>
    ensures added { IfOk result (AddsPair key.now value.now into.old into.new) }
    ensures front { Extends into.old.rows into.new.rows }
{
    if is_done(&into.rows, into.left) {
        return Ok(false);
    }
    into.rows.item(key)?;
    into.rows.item(value)?;
    into.left = one_less(into.left);
    Ok(!is_done(&into.rows, into.left))
}

// The same for each further value of an item.
fn add_further(item: &Lying<'_>, into: &mut PairRows) -> Result<bool, AllocError>
    ensures added { IfOk result (AddsValues item.now.key.now (values_in item.now.more item.now.further.now).0 into.old into.new) }
    ensures front { Extends into.old.rows into.new.rows }
{
    let mut rest = item.further;
    for i in 0..item.more {
        let (value, behind) = next_value(rest);
        if !add_pair(item.key, value, into)? {
            return Ok(false);
        }
        rest = behind;
    }
    Ok(true)
}

impl Taker for PairRows {
    ghost use Rattle.tc_engine.specs.Rows.{Extends, extends_refl, extends_then};
    ghost use Rattle.tc_treedb.specs.Taking.{AddsValues};

    ghost takes = { λ t x u more. AddsValues x.key x.values t u more };

    ghost stays = { λ t u. Extends t.rows u.rows };

    ghost stays_refl = { λ t. extends_refl t.rows };

    ghost stays_then = { λ t u v first second. extends_then t.rows u.rows v.rows first second };

    fn take(&mut self, item: &Lying<'_>) -> Result<bool, AllocError> {
        if !add_pair(item.key, item.first, self)? {
            return Ok(false);
        }
        add_further(item, self)
    }
}

/// Rows that grow by the keys that are shown and begin with a prefix, at most so many.
#[derive(Drop)]
pub(crate) struct KeyRows<'a> {
    pub(crate) rows: Rows,
    pub(crate) prefix: &'a [u8],
    pub(crate) left: Option<u64>,
}

impl<'a> Taker for KeyRows<'a> {
    ghost use Rattle.tc_engine.specs.Rows.{Extends, extends_refl, extends_then};
    ghost use Rattle.tc_treedb.specs.Taking.{AddsKey};

    ghost takes = { λ t x u more. AddsKey x.key t u more };

    ghost stays = { λ t u. Extends t.rows u.rows };

    ghost stays_refl = { λ t. extends_refl t.rows };

    ghost stays_then = { λ t u v first second. extends_then t.rows u.rows v.rows first second };

    fn take(&mut self, item: &Lying<'_>) -> Result<bool, AllocError> {
        if is_done(&self.rows, self.left) {
            return Ok(false);
        }
        if !item.key.starts_with(self.prefix) {
            return Ok(true);
        }
        self.rows.item(item.key)?;
        self.left = one_less(self.left);
        Ok(!is_done(&self.rows, self.left))
    }
}

/// Rows that grow by the first value of the item that is shown, with its key in front where that is wanted.
#[derive(Drop)]
pub(crate) struct FirstRow {
    pub(crate) rows: Rows,
    pub(crate) with_key: bool,
}

impl Taker for FirstRow {
    ghost use Rattle.tc_engine.specs.Rows.{Extends, extends_refl, extends_then};
    ghost use Rattle.tc_treedb.specs.Taking.{AddsFirst};

    ghost takes = { λ t x u more. AddsFirst x t u };

    ghost stays = { λ t u. Extends t.rows u.rows };

    ghost stays_refl = { λ t. extends_refl t.rows };

    ghost stays_then = { λ t u v first second. extends_then t.rows u.rows v.rows first second };

    fn take(&mut self, item: &Lying<'_>) -> Result<bool, AllocError> {
        if self.with_key {
            self.rows.pair(item.key, item.first)?;
            return Ok(false);
        }
        self.rows.item(item.first)?;
        Ok(false)
    }
}

/// The keys that are shown.
#[derive(Drop)]
pub(crate) struct KeyList {
    pub(crate) alloc: Global,
    pub(crate) keys: Keys,
}

impl Taker for KeyList {
    ghost use Rattle.std.specs.Prelude.{◌≡◌, ◌++◌, ◌∷◌, [], true};

    ghost takes = { λ t x u more. (u.keys ≡ t.keys ++ x.key ∷ []) × (more ≡ true) };

    ghost stays = { λ t u. Unit {0} };

    ghost stays_refl = { λ t. tt };

    ghost stays_then = { λ t u v first second. tt };

    fn take(&mut self, item: &Lying<'_>) -> Result<bool, AllocError> {
        self.keys.push(Key::from_slice(self.alloc, item.key)?)?;
        Ok(true)
    }
}

/// The length of the first value of the item that is shown.
#[derive(Drop)]
pub(crate) struct FirstLen {
    pub(crate) len: u64,
}

impl Taker for FirstLen {
    ghost use Rattle.std.specs.Prelude.{◌≡◌, Some, length, slice_get, option_map};

    ghost takes = { λ t x u more. option_map length (slice_get x.values 0) ≡ Some u.len };

    ghost stays = { λ t u. Unit {0} };

    ghost stays_refl = { λ t. tt };

    ghost stays_then = { λ t u v first second. tt };

    fn take(&mut self, item: &Lying<'_>) -> Result<bool, AllocError> {
        self.len = item.first.len() as u64;
        Ok(false)
    }
}

/// The bytes of keys and values that were shown, the key with each value, while they have 64 bits.
#[derive(Drop)]
pub(crate) struct Lengths {
    pub(crate) bytes: Option<u64>,
}

// So many bytes with a key and a value more.
fn plus(bytes: Option<u64>, key: usize, value: usize) -> Option<u64>
    ensures { IfSome result (λ n. (m : ℕ) × (bytes ≡ Some m) × (n ≡ m + key + value)) }
{
    bytes?.checked_add(key as u64)?.checked_add(value as u64)
}

// With each pair of an item more.
fn plus_item(bytes: Option<u64>, item: &Lying<'_>) -> Option<u64>
    ensures { IfSome result (λ n. (m : ℕ) × (bytes ≡ Some m) × (n ≡ m + lengths (seen item.now.key.now item.now.first.now item.now.more item.now.further.now))) }
{
    let mut total = plus(bytes, item.key.len(), item.first.len());
    let mut rest = item.further;
    for i in 0..item.more {
        let (value, behind) = next_value(rest);
        total = plus(total, item.key.len(), value.len());
        rest = behind;
    }
    total
}

impl Taker for Lengths {
    ghost use Rattle.std.specs.Prelude.{◌≡◌, ◌+◌, ℕ, true, Some, IfSome};
    ghost use Rattle.tc_treedb.specs.Taking.{lengths};

    ghost takes = { λ t x u more. IfSome u.bytes (λ n. (m : ℕ) × (t.bytes ≡ Some m) × (n ≡ m + lengths x)) × (more ≡ true) };

    ghost stays = { λ t u. Unit {0} };

    ghost stays_refl = { λ t. tt };

    ghost stays_then = { λ t u v first second. tt };

    fn take(&mut self, item: &Lying<'_>) -> Result<bool, AllocError> {
        self.bytes = plus_item(self.bytes, item);
        Ok(true)
    }
}
