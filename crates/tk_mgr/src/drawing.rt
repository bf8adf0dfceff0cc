//! The requests of a drill.
ghost use Rattle.std.specs.Prelude.{◌≡◌, IfOk};
ghost use Rattle.tc_model.specs.Contents.{Contents, kind_of, is_table};
ghost use Rattle.tk_mgr.specs.Drills.{drawn, key_of, request_of, value_of};

use itoa::Buffer;
use std::alloc::{AllocError, Global};
use tc_base::{Blob, Key, Kind, Request};

/// The number that is drawn behind another.
pub fn draw(x: u64) -> u64
    ensures { result ≡ drawn x }
{
    x.wrapping_mul(6364136223846793005)
        .wrapping_add(1442695040888963407)
}

/// Whether databases of a kind hold rows.
pub fn has_rows(kind: Kind) -> bool
    ensures { (c : Contents) → kind ≡ kind_of c → result ≡ is_table c }
{
    match kind {
        Kind::Table => true,
        Kind::Hash => false,
        Kind::Tree => false,
        Kind::Fixed => false,
        Kind::MemHash => false,
        Kind::MemTree => false,
    }
}

// One of a thousand keys.
fn drawn_key(alloc: Global, x: u64) -> Result<Key, AllocError>
    ensures { IfOk result (λ key. key ≡ key_of x) }
{
    let mut buffer = Buffer::new();
    Key::from_slice(alloc, buffer.format(1 + x / 8589934592 % 1000).as_bytes())
}

// The number in decimal, for a table as a row of one column.
fn drawn_value(alloc: Global, rows: bool, x: u64) -> Result<Blob, AllocError>
    ensures { IfOk result (λ value. value ≡ value_of rows x) }
{
    let mut buffer = Buffer::new();
    let text = buffer.format(x / 17592186044416).as_bytes();
    let mut value = Blob::new(alloc);
    if rows {
        value.append(b"v\0")?;
    }
    value.append(text)?;
    Ok(value)
}

/// The request that a number determines.
pub fn drawn_request(alloc: Global, rows: bool, x: u64) -> Result<Request, AllocError>
    ensures { IfOk result (λ r. r ≡ request_of rows x) }
{
    let choice = x / 1048576 % 4;
    let key = drawn_key(alloc, x)?;
    if choice < 2 {
        let value = drawn_value(alloc, rows, x)?;
        return Ok(Request::Put { key, value });
    }
    if choice == 2 {
        let value = drawn_value(alloc, rows, x)?;
        return Ok(Request::PutCat { key, value });
    }
    Ok(Request::Out { key })
}
