//! Blocks of hash files.
ghost use Rattle.std.specs.Prelude.{◌≤◌, ◌^◌, IfOk};

use crate::behind::{begun, has_len};
use hf_block::{read_block, rec_len, write_rec};
use play_text::{Line, Wrong};
use std::alloc::{AllocError, Global};
use tc_base::Blob;

/// `block BYTES => READ`: the head of a block.
pub fn block_text(alloc: Global, bytes: &[u8], large: bool) -> Result<String, AllocError> {
    format!(in alloc; "{:?}", read_block(bytes, large))
}

// What the head of a record says, and the unit of its file.
#[derive(Clone, Copy)]
struct Links {
    hash: u8,
    left: u32,
    right: u32,
    unit: u64,
}

// `HASH LEFT RIGHT UNIT`.
fn links_of(line: &mut Line) -> Result<Links, Wrong>
    ensures { IfOk result (λ links. (1 ≤ links.unit) × (links.unit ≤ 2 ^ 16)) }
{
    let hash = line.within(0, 255)?;
    let left = line.small()?;
    let right = line.small()?;
    let unit = line.within(1, 65_536)?;
    Ok(Links {
        hash: hash as u8,
        left,
        right,
        unit,
    })
}

// A record as it is written behind other bytes.
fn written(
    alloc: Global,
    links: Links,
    key: &[u8],
    value: &[u8],
    large: bool,
) -> Result<Blob, AllocError>
    requires { (1 ≤ links.unit) × (links.unit ≤ 2 ^ 16) }
{
    let (left, right) = (u64::from(links.left), u64::from(links.right));
    let mut into = begun(alloc)?;
    write_rec(
        links.hash, left, right, key, value, links.unit, large, &mut into,
    )?;
    Ok(into)
}

// How long the block of a record is.
fn block_len(key: &[u8], value: &[u8], unit: u64, large: bool) -> u64
    requires { (1 ≤ unit) × (unit ≤ 2 ^ 16) }
{
    let (key, value) = (
        key.len().min(1 << 40) as u64,
        value.len().min(1 << 40) as u64,
    );
    rec_len(key, value, unit, large)
}

// So it is written, with the length that its block has.
fn block(alloc: Global, links: Links, key: &[u8], value: &[u8], large: bool) -> Result<Blob, Wrong>
    requires { (1 ≤ links.unit) × (links.unit ≤ 2 ^ 16) }
{
    let into = written(alloc, links, key, value, large)?;
    has_len(&into, block_len(key, value, links.unit, large))?;
    Ok(into)
}

/// `record HASH LEFT RIGHT UNIT KEY = VALUE => BYTES`: a record as it is written behind other bytes, and how long it is.
pub fn record(alloc: Global, line: &mut Line, large: bool) -> Result<Blob, Wrong> {
    let links = links_of(line)?;
    let key = line.key()?;
    let value = line.given()?;
    block(alloc, links, key.as_slice(), value.as_slice(), large)
}
