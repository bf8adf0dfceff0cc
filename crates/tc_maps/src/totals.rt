//! How many pairs there are, and the bytes of their keys and values.
ghost use Rattle.std.specs.Prelude.{◌≡◌, ◌+◌, ◌≤◌, IfSome, length, sum_by};
ghost use Rattle.tc_maps.specs.Totals.{pairs_gone, bytes_gone};
ghost use Rattle.tc_maps.specs.Entries.{all_of};

use crate::values::Values;

/// The number of pairs, and the bytes of all their keys and values.
#[derive(Clone, Copy)]
pub struct Totals {
    pub pairs: u64,
    pub bytes: u64,
}

impl Totals {
    /// Of no pairs.
    pub fn none() -> Totals
        ensures { result ≡ record { pairs = 0; bytes = 0 } }
    {
        Totals { pairs: 0, bytes: 0 }
    }

    /// With another pair of so many bytes, or none where a number has no room for it.
    pub fn with(self, key: usize, value: usize) -> Option<Totals>
        ensures pairs { IfSome result (λ t. t.pairs ≡ self.pairs + 1) }
        ensures bytes { IfSome result (λ t. t.bytes ≡ self.bytes + (key + value)) }
    {
        let bytes = self.bytes.checked_add(key as u64)?;
        Some(Totals {
            pairs: self.pairs.checked_add(1)?,
            bytes: bytes.checked_add(value as u64)?,
        })
    }

    /// Without a pair of so many bytes, where there was one.
    pub fn less(self, key: usize, value: Option<usize>) -> Totals
        requires pairs { pairs_gone value ≤ self.pairs }
        requires bytes { bytes_gone key value ≤ self.bytes }
        ensures pairs { result.pairs + pairs_gone value ≡ self.pairs }
        ensures bytes { result.bytes + bytes_gone key value ≡ self.bytes }
    {
        match value {
            Some(value) => Totals {
                pairs: self.pairs - 1,
                bytes: self.bytes - key as u64 - value as u64,
            },
            None => self,
        }
    }

    /// Without the pairs of a key of so many bytes.
    pub fn less_all(self, key: usize, values: &Values) -> Totals
        requires pairs { length (all_of values.now) ≤ self.pairs }
        requires bytes { sum_by (λ v. key + length v) (all_of values.now) ≤ self.bytes }
        ensures pairs { result.pairs + length (all_of values.now) ≡ self.pairs }
        ensures bytes { result.bytes + sum_by (λ v. key + length v) (all_of values.now) ≡ self.bytes }
    {
        let mut left = self;
        for place in 0..self.pairs as usize {
            let Some(value) = values.get(place) else {
                return left;
            };
            left = left.less(key, Some(value.len()));
        }
        left
    }
}
