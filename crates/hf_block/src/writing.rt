//! Records as bytes.
ghost use Rattle.std.specs.Prelude.{◌≡◌, ◌+◌, ◌*◌, ◌<◌, ◌≤◌, ◌%◌, ◌^◌, ◌++◌, length, take, OnOk, OnErr};
ghost use Rattle.hf_block.specs.Written.{block_len, front_bytes, linked_front, padding, record_bytes, sized_len};
ghost use Rattle.hf_block.specs.Heads.{rec_head};
ghost use Rattle.tc_base.specs.Vnum.{vnum};
ghost use Rattle.tc_base.specs.Endian.{le_bytes};
ghost use Rattle.hf_head.specs.Heads.{wide};
ghost use Rattle.tc_reach.specs.Limits.{AddsSome};

use crate::reading::{head_len, width};
use std::alloc::AllocError;
use tc_base::{Blob, put_vnum, set_le};
use tc_reach::append_zeros;

// The bytes that fill up a block behind so many bytes of head, key and value.
fn pad_of(head: u64, key: u64, value: u64, unit: u64) -> u64
    requires some { 1 ≤ unit }
    requires unit { unit ≤ 2 ^ 16 }
    ensures value { result ≡ padding unit (head + key + value) }
    ensures most { result < unit }
{
    let rest = (head % unit + key % unit + value % unit) % unit;
    (unit - rest) % unit
}

// A number of `width` bytes, the least first.
fn put_le(width: usize, n: u64, into: &mut Blob) -> Result<(), AllocError>
    requires some { 1 ≤ width }
    requires width { width ≤ 8 }
    requires fits { n < 256 ^ width }
    ensures ok { OnOk result (into.new ≡ into.old ++ le_bytes width n) }
    ensures err { OnErr result (into.new ≡ into.old) }
{
    let mut field = [0; 8];
    set_le(&mut field, 0, width, n);
    into.append(&field[..width])
}

/// The first bytes of a record, up to behind its chains of so many bytes, in front of zeros.
pub fn links_front(hash: u8, left: u64, right: u64, width: usize) -> [u8; 18]
    requires few { (1 ≤ width) × (width ≤ 8) }
    requires fits { (left < 256 ^ width) × (right < 256 ^ width) }
    ensures { take (2 + 2 * width) result ≡ linked_front width hash left right }
{
    let mut front = [0; 18];
    front[0] = 0xC8;
    front[1] = hash;
    set_le(&mut front, 2, width, left);
    set_le(&mut front, 2 + width, width, right);
    front
}

// The head up to the sizes of key and value. An `Err` may have added some of it.
fn put_front(
    hash: u8,
    left: u64,
    right: u64,
    pad: u64,
    large: bool,
    into: &mut Blob,
) -> Result<(), AllocError>
    requires left { left < 256 ^ wide large }
    requires right { right < 256 ^ wide large }
    requires pad { pad < 2 ^ 16 }
    ensures ok { OnOk result (into.new ≡ into.old ++ front_bytes (wide large) hash left right pad) }
    ensures err { OnErr result (AddsSome into.old into.new) }
{
    let width = width(large);
    into.append(&links_front(hash, left, right, width)[..2 + 2 * width])?;
    put_le(2, pad, into)
}

// The whole record. An `Err` may have added some of it.
fn put_record(
    hash: u8,
    left: u64,
    right: u64,
    key: &[u8],
    value: &[u8],
    unit: u64,
    large: bool,
    into: &mut Blob,
) -> Result<(), AllocError>
    requires left { left < 256 ^ wide large }
    requires right { right < 256 ^ wide large }
    requires some { 1 ≤ unit }
    requires unit { unit ≤ 2 ^ 16 }
    ensures ok { OnOk result (into.new ≡ into.old ++ record_bytes (wide large) hash left right key.now value.now unit) }
    ensures err { OnErr result (AddsSome into.old into.new) }
{
    let head = head_len(key.len() as u64, value.len() as u64, large);
    let pad = pad_of(head, key.len() as u64, value.len() as u64, unit);
    put_front(hash, left, right, pad, large, into)?;
    put_vnum(key.len() as u64, into)?;
    put_vnum(value.len() as u64, into)?;
    into.append(key)?;
    into.append(value)?;
    append_zeros(pad as usize, into)
}

/// Adds a record behind the bytes, with chains of 4 bytes or of 8 in the large form: its head, key and value, and zeros up to the
/// least multiple of the unit. An `Err` changes nothing.
pub fn write_rec(
    hash: u8,
    left: u64,
    right: u64,
    key: &[u8],
    value: &[u8],
    unit: u64,
    large: bool,
    into: &mut Blob,
) -> Result<(), AllocError>
    requires left { left < 256 ^ wide large }
    requires right { right < 256 ^ wide large }
    requires some { 1 ≤ unit }
    requires unit { unit ≤ 2 ^ 16 }
    ensures ok { OnOk result (into.new ≡ into.old ++ record_bytes (wide large) hash left right key.now value.now unit) }
    ensures aligned { length (record_bytes (wide large) hash left right key.now value.now unit) % unit ≡ 0 }
    ensures len { length (record_bytes (wide large) hash left right key.now value.now unit) ≡ block_len (wide large) key.now value.now unit }
    ensures err { OnErr result (into.new ≡ into.old) }
{
    let len = into.len();
    if let Err(e) = put_record(hash, left, right, key, value, unit, large, into) {
        into.truncate(len);
        return Err(e);
    }
    Ok(())
}

/// The bytes of the block that a record of a key and a value of these sizes needs: the least multiple of the unit that holds it.
pub fn rec_len(key: u64, value: u64, unit: u64, large: bool) -> u64
    requires key { key < 2 ^ 62 }
    requires value { value < 2 ^ 62 }
    requires some { 1 ≤ unit }
    requires unit { unit ≤ 2 ^ 16 }
    ensures value { result ≡ sized_len (wide large) key value unit }
    ensures aligned { result % unit ≡ 0 }
{
    let head = head_len(key, value, large);
    head + key + value + pad_of(head, key, value, unit)
}
