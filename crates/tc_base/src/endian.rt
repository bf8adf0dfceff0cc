//! Numbers in a field of one to eight bytes.
ghost use Rattle.std.specs.Prelude.{◌≡◌, ◌+◌, ◌^◌, ◌<◌, ◌≤◌, IfOk, length};
ghost use Rattle.tc_base.specs.Endian.{le_number, le_bytes, be_number, be_bytes, field, le_front};
ghost use Rattle.tc_base.specs.Reading.{Gives};
ghost use Rattle.tc_base.specs.Files.{wrote};

use crate::fields::NotWhole;

// The number in a field of four bytes at a place, the least byte first.
fn get_four(bytes: &[u8], at: usize) -> u64
    requires inside { at + 4 ≤ length bytes.now }
    ensures value { result ≡ le_number (field at 4 bytes.now) }
    ensures fits { result < 256 ^ 4 }
{
    let low = u64::from(bytes[at + 1]) * 256 + u64::from(bytes[at]);
    let high = u64::from(bytes[at + 3]) * 256 + u64::from(bytes[at + 2]);
    high * 65_536 + low
}

/// The number in a field of `width` bytes at a place, the least byte first.
pub fn get_le(bytes: &[u8], at: usize, width: usize) -> u64
    requires some { 1 ≤ width }
    requires width { width ≤ 8 }
    requires inside { at + width ≤ length bytes.now }
    ensures value { result ≡ le_number (field at width bytes.now) }
    ensures fits { result < 256 ^ width }
{
    // most fields have four bytes
    if width == 4 {
        return get_four(bytes, at);
    }
    let mut n: u64 = 0;
    for i in 0..width {
        n = n * 256 + u64::from(bytes[at + width - 1 - i]);
    }
    n
}

/// Writes a number into a field of `width` bytes at a place, the least byte first.
pub fn set_le(bytes: &mut [u8], at: usize, width: usize, n: u64)
    requires some { 1 ≤ width }
    requires width { width ≤ 8 }
    requires inside { at + width ≤ length bytes.old }
    requires fits { n < 256 ^ width }
    ensures after { bytes.new ≡ wrote at (le_bytes width n) bytes.old }
    ensures read_back { le_number (le_bytes width n) ≡ n }
{
    let mut rest = n;
    for i in 0..width {
        bytes[at + i] = (rest % 256) as u8;
        rest /= 256;
    }
}

/// The number in a field of `width` bytes at a place, the greatest byte first.
pub fn get_be(bytes: &[u8], at: usize, width: usize) -> u64
    requires some { 1 ≤ width }
    requires width { width ≤ 8 }
    requires inside { at + width ≤ length bytes.now }
    ensures value { result ≡ be_number (field at width bytes.now) }
    ensures fits { result < 256 ^ width }
{
    let mut n: u64 = 0;
    for i in 0..width {
        n = n * 256 + u64::from(bytes[at + i]);
    }
    n
}

/// Writes a number into a field of `width` bytes at a place, the greatest byte first.
pub fn set_be(bytes: &mut [u8], at: usize, width: usize, n: u64)
    requires some { 1 ≤ width }
    requires width { width ≤ 8 }
    requires inside { at + width ≤ length bytes.old }
    requires fits { n < 256 ^ width }
    ensures after { bytes.new ≡ wrote at (be_bytes width n) bytes.old }
    ensures read_back { be_number (be_bytes width n) ≡ n }
{
    let mut rest = n;
    for i in 0..width {
        bytes[at + width - 1 - i] = (rest % 256) as u8;
        rest /= 256;
    }
}

/// A number of `width` bytes at the front of the bytes, the least byte first, and the bytes behind it.
pub fn read_le(width: usize, bytes: &[u8]) -> Result<(u64, &[u8]), NotWhole>
    requires some { 1 ≤ width }
    requires width { width ≤ 8 }
    ensures read { Gives (λ x. (x.0, x.1.now)) result (le_front width bytes.now) }
    ensures fits { IfOk result (λ x. x.0 < 256 ^ width) }
{
    if bytes.len() < width {
        return Err(NotWhole::Part);
    }
    Ok((get_le(bytes, 0, width), &bytes[width..]))
}
