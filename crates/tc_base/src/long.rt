//! Keys that lie in memory of their own.
ghost use Rattle.std.specs.Prelude.{◌≡◌};
ghost use Rattle.tc_base.specs.Bytes.{IsBytes};
ghost use Rattle.tc_base.specs.Fronts.{front_at};

use crate::blob::Blob;
use crate::fronts::number_at;
use std::marker::Model;

// A key beside the numbers of its first 16 bytes.
#[derive(Drop)]
pub struct Long {
    first: u64,
    second: u64,
    bytes: Blob,
}

impl Model for Long {
    ghost use Rattle.std.specs.Prelude.{◌≡◌, ℕ, List};
    ghost use Rattle.tc_base.specs.Bytes.{IsBytes};
    ghost use Rattle.tc_base.specs.Fronts.{front_at};

    ghost Value = { List ℕ };

    ghost view = { λ k. k.bytes };

    ghost invariant = { λ k. (k.first ≡ front_at 0 k.bytes) × (k.second ≡ front_at 8 k.bytes) × IsBytes k.bytes };
}

impl Long {
    pub fn new(bytes: Blob) -> Long
        ensures value { result ≡ bytes }
        ensures in_range { IsBytes result }
    {
        Long {
            first: number_at(bytes.as_slice(), 0),
            second: number_at(bytes.as_slice(), 8),
            bytes,
        }
    }

    pub fn as_slice(&self) -> &[u8]
        ensures { result.now ≡ self.now }
    {
        self.bytes.as_slice()
    }

    pub fn first(&self) -> u64
        ensures { result ≡ front_at 0 self.now }
    {
        self.first
    }

    pub fn second(&self) -> u64
        ensures { result ≡ front_at 8 self.now }
    {
        self.second
    }
}
