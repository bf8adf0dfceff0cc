//! Keys that lie where they are held.
ghost use Rattle.std.specs.Prelude.{◌≡◌, ◌≤◌, length, take, drop};
ghost use Rattle.tc_base.specs.Bytes.{IsBytes};
ghost use Rattle.tc_base.specs.Fronts.{AreZeros, front_at, by_front};

use crate::fronts::number_at;
use std::cmp::Ordering;
use std::marker::Model;

/// The most bytes of a key that lies where it is held.
pub const SHORT_MOST: usize = 46;

// A key of few bytes, with zeros behind it.
#[derive(Drop)]
pub struct Short {
    len: u8,
    bytes: [u8; 46],
}

impl Model for Short {
    ghost use Rattle.std.specs.Prelude.{◌≡◌, ◌≤◌, ℕ, List, take, drop, length};
    ghost use Rattle.tc_base.specs.Bytes.{IsBytes};
    ghost use Rattle.tc_base.specs.Fronts.{AreZeros};

    ghost Value = { List ℕ };

    ghost view = { λ k. take k.len k.bytes };

    ghost invariant = { λ k. (k.len ≤ 46) × AreZeros (drop k.len k.bytes) × IsBytes (take k.len k.bytes) };
}

// Bytes with zeros behind them.
fn padded(bytes: &[u8]) -> [u8; 46]
    requires { length bytes.now ≤ 46 }
    ensures bytes { take (length bytes.now) result ≡ bytes.now }
    ensures zeros { AreZeros (drop (length bytes.now) result) }
{
    let mut room = [0; 46];
    room[..bytes.len()].copy_from_slice(bytes);
    room
}

impl Short {
    pub fn new(bytes: &[u8]) -> Short
        requires { length bytes.now ≤ 46 }
        ensures value { result ≡ bytes.now }
        ensures in_range { IsBytes result }
    {
        Short {
            len: bytes.len() as u8,
            bytes: padded(bytes),
        }
    }

    pub fn as_slice(&self) -> &[u8]
        ensures { result.now ≡ self.now }
    {
        &self.bytes[..self.len as usize]
    }

    pub fn number(&self, at: usize) -> u64
        ensures { result ≡ front_at at self.now }
    {
        number_at(&self.bytes, at)
    }

    // The order of the numbers of the first 40 bytes.
    pub fn order(&self, other: &Short) -> Ordering
        ensures { result ≡ by_front 5 0 self.now other.now }
    {
        let (a, b) = (self.number(0), other.number(0));
        if a != b {
            return a.cmp(&b);
        }
        let (a, b) = (self.number(8), other.number(8));
        if a != b {
            return a.cmp(&b);
        }
        let (a, b) = (self.number(16), other.number(16));
        if a != b {
            return a.cmp(&b);
        }
        let (a, b) = (self.number(24), other.number(24));
        if a != b {
            return a.cmp(&b);
        }
        let (a, b) = (self.number(32), other.number(32));
        if a != b {
            return a.cmp(&b);
        }
        Ordering::Equal
    }
}
