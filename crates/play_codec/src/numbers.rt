//! Numbers, their fields, hashes and decimal texts.
ghost use Rattle.std.specs.Prelude.{◌≡◌, ◌<◌, ◌≤◌, ◌+◌, ◌^◌, length, IfOk};

use crate::behind::{begun, has_len, is_bare};
use play_text::{Line, Wrong};
use std::alloc::{AllocError, Global};
use tc_base::{
    Blob, bucket_of, get_be, get_le, number_of, put_vnum, read_le, read_number, read_vnum,
    second_hash, set_be, set_le, vnum_len,
};

/// `spelled N => BYTES`: a varying number as it is written behind other bytes, and how long it is.
pub fn spelled(alloc: Global, line: &mut Line) -> Result<Blob, Wrong> {
    let number = line.number()?;
    is_bare(line)?;
    let mut into = begun(alloc)?;
    put_vnum(number, &mut into)?;
    has_len(&into, vnum_len(number) as u64)?;
    Ok(into)
}

/// `vnum BYTES => READ`: what is read, with how many bytes it takes.
pub fn vnum(alloc: Global, bytes: &[u8]) -> Result<String, AllocError> {
    format!(in alloc; "{:?}", read_vnum(bytes))
}

/// `decimal BYTES => NUMBER`: the number that a text begins with, in parts of 10^9.
pub fn decimal(alloc: Global, text: &[u8]) -> Result<String, AllocError> {
    format!(in alloc; "{}", number_of(text))
}

// A number of a width, or a varying one where that is 0, with what stands behind it.
fn number(alloc: Global, width: usize, bytes: &[u8]) -> Result<String, AllocError>
    requires { width ≤ 8 }
{
    if width < 1 {
        return format!(in alloc; "{:?}", read_number(bytes));
    }
    format!(in alloc; "{:?}", read_le(width, bytes))
}

/// `number WIDTH BYTES => READ`: what is read, with what stands behind it. The number has that width, its least byte first, or varies where that is 0.
pub fn is_number(alloc: Global, line: &mut Line) -> Result<(), Wrong> {
    let width = line.within(0, 8)?;
    let bytes = line.given()?;
    line.is_text(number(alloc, width as usize, bytes.as_slice())?)
}

// A place and a width within bytes.
#[derive(Clone, Copy)]
struct Field {
    at: usize,
    width: usize,
    least_first: bool,
}

// The next field of a line: `le` or `be`, its place and its width.
fn field_of(line: &mut Line) -> Result<Field, Wrong>
    ensures { IfOk result (λ f. (1 ≤ f.width) × (f.width ≤ 8) × (f.at ≤ 1024)) }
{
    let least_first = line.is_second("be", "le")?;
    let at = line.within(0, 1024)?;
    let width = line.within(1, 8)?;
    Ok(Field {
        at: at as usize,
        width: width as usize,
        least_first,
    })
}

// What a field holds.
fn held(field: Field, bytes: &[u8]) -> u64
    requires width { (1 ≤ field.width) × (field.width ≤ 8) }
    requires inside { field.at + field.width ≤ length bytes.now }
{
    if field.least_first {
        return get_le(bytes, field.at, field.width);
    }
    get_be(bytes, field.at, field.width)
}

/// `field le|be PLACE WIDTH BYTES => NUMBER`: what a field holds.
pub fn is_field(alloc: Global, line: &mut Line) -> Result<(), Wrong> {
    let field = field_of(line)?;
    let bytes = line.given()?;
    let bytes = bytes.as_slice();
    if bytes.len() < field.at + field.width {
        return Err(Wrong::Unread);
    }
    let found = held(field, bytes);
    line.is_text(format!(in alloc; "{found}")?)
}

// Bytes once a field holds a number of up to four bytes; they stay where it has no place or no room.
fn set(field: Field, number: u64, bytes: &mut [u8]) -> bool
    requires { (1 ≤ field.width) × (field.width ≤ 8) × (field.at ≤ 1024) }
{
    if bytes.len() < field.at + field.width || number >= limit_of(field.width) {
        return false;
    }
    if field.least_first {
        set_le(bytes, field.at, field.width, number);
    } else {
        set_be(bytes, field.at, field.width, number);
    }
    true
}

/// `set le|be PLACE WIDTH NUMBER BYTES => BYTES`: what bytes are once a field holds a number of up to four bytes.
pub fn is_set(alloc: Global, line: &mut Line) -> Result<(), Wrong> {
    let field = field_of(line)?;
    let number = line.number()?;
    let given = line.given()?;
    let mut bytes = Vec::from_slice(alloc, given.as_slice())?;
    if set(field, number, &mut bytes) {
        return line.is_bytes(&bytes);
    }
    Err(Wrong::Unread)
}

// How many numbers so many bytes hold; none is held by more than four.
fn limit_of(width: usize) -> u64
    requires { 1 ≤ width }
    ensures { result ≤ 256 ^ width }
{
    match width {
        1 => 0x100,
        2 => 0x1_0000,
        3 => 0x100_0000,
        4 => 0x1_0000_0000,
        _ => 0,
    }
}

// Where a key stands, and its second hash.
fn hashes(alloc: Global, buckets: u64, key: &[u8]) -> Result<String, AllocError>
    requires { 1 ≤ buckets }
{
    format!(in alloc; "{} {:#04x}", bucket_of(key, buckets), second_hash(key))
}

/// `hash BUCKETS KEY => BUCKET SECOND`: where a key stands, and its second hash.
pub fn is_hash(alloc: Global, line: &mut Line) -> Result<(), Wrong> {
    let buckets = line.within(1, u64::MAX)?;
    let key = line.given()?;
    line.is_text(hashes(alloc, buckets, key.as_slice())?)
}
