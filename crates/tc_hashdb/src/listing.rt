//! Keys as they are listed.
ghost use Rattle.std.specs.Prelude.{◌≡◌, ◌∷◌, ◌↔◌, [], map, filter, nat_eq, IfOk, OnOk, IsTrue};
ghost use Rattle.std.specs.List.{starts_with};
ghost use Rattle.tc_engine.specs.Changes.{first_of};
ghost use Rattle.tc_engine.specs.Rows.{Adds, Extends, item_row};
ghost use Rattle.tc_hashdb.specs.Listing.{HasRoom};

use std::alloc::{AllocError, Global};
use tc_base::{Blob, Blobs, Key, Keys};
use tc_engine::Rows;

/// Byte strings as keys.
pub fn key_list(alloc: Global, texts: Blobs) -> Result<Keys, AllocError>
    ensures { IfOk result (λ keys. keys ≡ texts) }
{
    let mut keys = Keys::new(alloc);
    for text in texts.into_vec() {
        keys.push(Key::new(text))?;
    }
    Ok(keys)
}

// Whether fewer than so many were found.
fn has_room(most: Option<u64>, count: usize) -> bool
    ensures { IsTrue result ↔ HasRoom most count }
{
    match most {
        Some(most) => (count as u64) < most,
        None => true,
    }
}

/// Those of some texts that begin with a prefix, at most so many.
pub fn beginning(
    alloc: Global,
    texts: Blobs,
    prefix: &[u8],
    most: Option<u64>,
) -> Result<Blobs, AllocError>
    ensures { IfOk result (λ found. found ≡ first_of most (filter (λ k. starts_with nat_eq k prefix.now) texts)) }
{
    let mut found = Blobs::new(alloc);
    for text in texts.into_vec() {
        if !has_room(most, found.len()) {
            return Ok(found);
        }
        if text.as_slice().starts_with(prefix) {
            found.push(text)?;
        }
    }
    Ok(found)
}

/// Adds texts as rows.
pub fn add_texts(texts: &[Blob], rows: &mut Rows) -> Result<(), AllocError>
    ensures rows { OnOk result (Adds rows.old rows.new (map item_row texts.now)) }
    ensures front { Extends rows.old rows.new }
{
    for text in texts {
        rows.item(text.as_slice())?;
    }
    Ok(())
}

/// Adds a key and its value, a row each.
pub fn add_items(key: &[u8], value: &[u8], rows: &mut Rows) -> Result<(), AllocError>
    ensures rows { OnOk result (Adds rows.old rows.new (item_row key.now ∷ item_row value.now ∷ [])) }
    ensures front { Extends rows.old rows.new }
{
    rows.item(key)?;
    rows.item(value)
}
