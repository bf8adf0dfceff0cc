//! Texts in the order of their bytes.
ghost use Rattle.std.specs.Prelude.{◌≡◌};
ghost use Rattle.std.specs.Cmp.Lexicographic.{slice_cmp};
ghost use Rattle.std.specs.Ordering.{nat_cmp};

use crate::fronts::number_at;
use std::cmp::Ordering;

/// The order of texts by bytes, a proper prefix first: eight bytes of each are compared at a time.
pub(crate) fn compare(a: &[u8], b: &[u8]) -> Ordering
    ensures { result ≡ slice_cmp nat_cmp a.now b.now }
{
    let mut at = 0;
    'eight: while at < a.len() && at < b.len() {
        let left = number_at(a, at);
        let right = number_at(b, at);
        if left != right {
            return left.cmp(&right);
        }
        at += 8;
    }
    // one is the front of the other
    a.len().cmp(&b.len())
}
