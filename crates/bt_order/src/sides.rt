//! Where a part of a key stands beside the one value inside.
ghost use Rattle.std.specs.Prelude.{◌≡◌, length, take};
ghost use Rattle.tc_base.specs.Orders.{lexical};
ghost use Rattle.bt_order.specs.Sides.{side_begun, side_beside};

use std::cmp::Ordering;
use tc_base::{Lexical, Order, Side};

// The first bytes, all where there are no more.
fn first_bytes(bytes: &[u8], len: usize) -> &[u8]
    ensures { result.now ≡ take len bytes.now }
{
    if bytes.len() < len {
        return bytes;
    }
    &bytes[..len]
}

/// Where bytes stand beside those that begin with a prefix.
pub(crate) fn begun(prefix: &[u8], bytes: &[u8]) -> Side
    ensures { result ≡ side_begun prefix.now bytes.now }
{
    beside(first_bytes(bytes, prefix.len()), prefix)
}

/// Where a part of a key stands beside the one value inside.
pub(crate) fn beside(part: &[u8], value: &[u8]) -> Side
    ensures { result ≡ side_beside (lexical part.now value.now) }
{
    match Lexical::order(part, value) {
        Ordering::Less => Side::Before,
        Ordering::Equal => Side::Inside,
        Ordering::Greater => Side::After,
    }
}
