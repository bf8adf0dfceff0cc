//! Texts with a count in front, each with its size.
ghost use Rattle.std.specs.Prelude.{◌≡◌, ◌*◌, ◌≤◌, true, is_ok, length, IfOk};
ghost use Rattle.tc_base.specs.Reading.{Gives};
ghost use Rattle.ty_wire.specs.Reading.{items_at};
ghost use Rattle.ty_wire.specs.Items.{item_at, Skips, texts_of};

use std::alloc::{AllocError, Global};
use tc_base::{Blob, Blobs, Key, Keys, NotWhole, read_bytes, read_size};

/// A text of at most `limit` bytes with its size in front, and the bytes behind it.
pub fn read_item(limit: usize, bytes: &[u8]) -> Result<(&[u8], &[u8]), NotWhole>
    ensures item { Gives (λ x. (x.0.now, x.1.now)) result (item_at limit bytes.now) }
    ensures short { IfOk result (λ x. length x.0.now ≤ limit) }
{
    let (size, rest) = read_size(limit, bytes)?;
    read_bytes(size, rest)
}

/// What stands behind so many texts.
pub fn skip_items(most: usize, count: usize, left: usize, bytes: &[u8]) -> Result<&[u8], NotWhole>
    requires { 4 * count ≤ left }
    ensures { Skips (λ x. x.now) result (items_at most count left bytes.now) }
{
    let mut rest = bytes;
    let mut spare = left;
    for i in 0..count {
        let limit = most.min(spare - 4 * (count - i));
        let (item, behind) = read_item(limit, rest)?;
        spare = spare - 4 - item.len();
        rest = behind;
    }
    Ok(rest)
}

/// Copies of so many texts.
pub fn copy_items(
    alloc: Global,
    most: usize,
    count: usize,
    left: usize,
    bytes: &[u8],
) -> Result<Blobs, AllocError>
    requires room { 4 * count ≤ left }
    requires whole { is_ok (items_at most count left bytes.now) ≡ true }
    ensures { IfOk result (λ b. b ≡ texts_of (items_at most count left bytes.now)) }
{
    let mut items = Blobs::new(alloc);
    let mut rest = bytes;
    let mut spare = left;
    for i in 0..count {
        let limit = most.min(spare - 4 * (count - i));
        let Ok((item, behind)) = read_item(limit, rest) else {
            unreachable!();
        };
        items.push(Blob::from_slice(alloc, item)?)?;
        spare = spare - 4 - item.len();
        rest = behind;
    }
    Ok(items)
}

/// The texts as keys, each moved.
pub fn keys_from(alloc: Global, texts: Blobs) -> Result<Keys, AllocError>
    ensures { IfOk result (λ keys. keys ≡ texts) }
{
    let mut keys = Keys::new(alloc);
    for text in texts.into_vec() {
        keys.push(Key::new(text))?;
    }
    Ok(keys)
}
