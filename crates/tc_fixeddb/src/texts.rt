//! Ids in decimal.
#![tactic(auto, using(tc_engine::specs::Rows::extends_then))]

ghost use Rattle.std.specs.Prelude.{◌≡◌, ◌∷◌, ◌↔◌, [], IfOk, IsTrue, OnOk};
ghost use Rattle.std.specs.Fmt.{decimal};
ghost use Rattle.tc_engine.specs.Rows.{Adds, Extends, item_row, pair_row};

use itoa::Buffer;
use std::alloc::{AllocError, Global};
use tc_base::Key;
use tc_engine::Rows;

/// An id as a key.
pub fn id_key(alloc: Global, id: u64) -> Result<Key, AllocError>
    ensures { IfOk result (λ key. key ≡ decimal id) }
{
    let mut buffer = Buffer::new();
    Key::from_slice(alloc, buffer.format(id).as_bytes())
}

/// Adds an id as a row.
pub fn add_id(id: u64, rows: &mut Rows) -> Result<(), AllocError>
    ensures rows { OnOk result (Adds rows.old rows.new (item_row (decimal id) ∷ [])) }
    ensures front { Extends rows.old rows.new }
{
    let mut buffer = Buffer::new();
    rows.item(buffer.format(id).as_bytes())
}

/// Adds an id and its value as a row.
pub fn add_pair(id: u64, value: &[u8], rows: &mut Rows) -> Result<(), AllocError>
    ensures rows { OnOk result (Adds rows.old rows.new (pair_row (decimal id) value.now ∷ [])) }
    ensures front { Extends rows.old rows.new }
{
    let mut buffer = Buffer::new();
    rows.pair(buffer.format(id).as_bytes(), value)
}

/// Adds an id and its value, a row each.
pub fn add_items(id: u64, value: &[u8], rows: &mut Rows) -> Result<(), AllocError>
    ensures rows { OnOk result (Adds rows.old rows.new (item_row (decimal id) ∷ item_row value.now ∷ [])) }
    ensures front { Extends rows.old rows.new }
{
    add_id(id, rows)?;
    rows.item(value)
}

/// Whether a text is that of a number.
pub fn is_text_of(n: u64, text: &[u8]) -> bool
    ensures { IsTrue result ↔ (text.now ≡ decimal n) }
{
    let mut buffer = Buffer::new();
    buffer.format(n).as_bytes() == text
}
