//! Numbers read from the bytes of a log.
ghost use Rattle.std.specs.Prelude.{◌≡◌, ◌+◌, ◌≤◌, ◌<◌, ◌*◌, ◌++◌, length, take, drop};
ghost use Rattle.tc_base.specs.Bytes.{IsBytes};
ghost use Rattle.ud_log.specs.Log.{number, lengths};

use crate::spell::{DATA_FILES, HEADER};

/// The numbers at the front of an entry.
#[derive(Clone, Copy, PartialEq, Eq)]
pub struct EntryFront {
    pub file: u32,
    pub at: u64,
    pub size: u32,
}

fn four(bytes: &[u8], at: usize) -> u32
    requires { at + 4 ≤ length bytes.now }
    ensures { result ≡ number (take 4 (drop at bytes.now)) }
{
    let [a, b, c, d] = [bytes[at], bytes[at + 1], bytes[at + 2], bytes[at + 3]];
    a as u32 + 256 * (b as u32 + 256 * (c as u32 + 256 * (d as u32)))
}

fn eight(bytes: &[u8], at: usize) -> u64
    requires { at + 8 ≤ length bytes.now }
    ensures { result ≡ number (take 8 (drop at bytes.now)) }
{
    four(bytes, at) as u64 + 4294967296 * (four(bytes, at + 4) as u64)
}

/// The size behind an entry's bytes.
pub fn read_again(bytes: &[u8; 4]) -> u32
    ensures number { result ≡ number bytes.now }
    ensures bytes { IsBytes bytes.now }
{
    four(bytes, 0)
}

/// The numbers at the front of an entry.
pub fn read_head(bytes: &[u8; 16]) -> EntryFront
    ensures file { result.file ≡ number (take 4 bytes.now) }
    ensures at { result.at ≡ number (take 8 (drop 4 bytes.now)) }
    ensures size { result.size ≡ number (take 4 (drop 12 bytes.now)) }
    ensures bytes { IsBytes bytes.now }
{
    EntryFront {
        file: four(bytes, 0),
        at: eight(bytes, 4),
        size: four(bytes, 12),
    }
}

/// The lengths that the front of a log records.
pub fn read_lens(head: &[u8; 152]) -> [u64; 18]
    ensures { result ≡ lengths head.now }
{
    let mut lens = [0u64; DATA_FILES];
    for i in 0..DATA_FILES {
        lens[i] = eight(head, 8 + 8 * i);
    }
    lens
}
