//! Orders of keys, and stretches of keys along them.
ghost use Rattle.std.specs.Prelude.{◌≡◌, ◌≤◌, ℕ, List, length, take};
ghost use Rattle.std.specs.declared.cmp.Ordering.{Ordering};
ghost use Rattle.std.specs.Cmp.{IsTotalOrder};
ghost use Rattle.std.specs.Cmp.Lexicographic.{nat_list_cmp_total};
ghost use Rattle.std.proofs.lemmas.Map.Lookups.{CmpEqualImpliesEq, exact_bytes};
ghost use Rattle.tc_base.specs.Orders.{NeverFalls, lexical, value_part, by_number};
ghost use Rattle.tc_base.specs.OrderLaws.{by_number_total, by_number_exact};

use crate::comparing::compare;
use crate::decimal::number_of;
use std::cmp::Ordering;

/// A total order of keys, Equal on equal bytes alone.
pub trait Order {
    /// The byte that names it in a file.
    const CODE: u8;

    ghost CODE: { ℕ };

    ghost cmp: { List ℕ → List ℕ → Ordering };

    fn order(a: &[u8], b: &[u8]) -> Ordering
        ensures { result ≡ cmp a.now b.now };

    ghost total: { IsTotalOrder cmp };

    ghost exact: { CmpEqualImpliesEq cmp };
}

/// Where a key stands beside a stretch.
#[derive(Clone, Copy, PartialEq, Eq)]
pub enum Side {
    Before,
    Inside,
    After,
}

/// A stretch of keys: along the order come the keys before it, then those inside, then those after it.
pub trait Cut<O: Order> {
    ghost use Rattle.tc_base.specs.declared.order.Side.{Side};

    ghost side_of: { Self → List ℕ → Side };

    fn side(&self, key: &[u8]) -> Side
        ensures { result ≡ side_of self.now key.now };

    ghost never_falls: { (c : Self) → NeverFalls O.cmp (side_of c) };
}

/// By bytes, a proper prefix first.
pub struct Lexical;

impl Order for Lexical {
    const CODE: u8 = 0;

    ghost CODE = { 0 };

    ghost cmp = { lexical };

    ghost total = { nat_list_cmp_total };

    ghost exact = { exact_bytes };

    fn order(a: &[u8], b: &[u8]) -> Ordering {
        compare(a, b)
    }
}

/// The part of a key before its first zero byte, the whole key if there is none.
pub fn value_part(key: &[u8]) -> &[u8]
    ensures { result.now ≡ value_part key.now }
{
    for (i, b) in key.iter().enumerate() {
        if *b == 0 {
            return &key[..i];
        }
    }
    key
}

/// By the number of the part before the first zero byte, then by bytes.
pub struct Decimal;

impl Order for Decimal {
    const CODE: u8 = 1;

    ghost CODE = { 1 };

    ghost cmp = { by_number };

    ghost total = { by_number_total };

    ghost exact = { by_number_exact };

    fn order(a: &[u8], b: &[u8]) -> Ordering {
        match number_of(value_part(a)).cmp(&number_of(value_part(b))) {
            Ordering::Equal => compare(a, b),
            other => other,
        }
    }
}
