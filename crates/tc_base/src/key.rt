//! Keys of a map.
ghost use Rattle.std.specs.Prelude.{◌≡◌, length, IfOk};
ghost use Rattle.std.specs.Prelude.{nat_eq};
ghost use Rattle.std.specs.Ordering.{nat_cmp, as_partial_cmp};
ghost use Rattle.std.specs.Cmp.{partial_order_from_own_ties};
ghost use Rattle.std.specs.Cmp.Rules.{comparing};
ghost use Rattle.std.specs.Cmp.Lexicographic.{slice_cmp, pointwise};
ghost use Rattle.std.proofs.Common.{rules};
ghost use Rattle.tc_base.specs.Fronts.{front_at, Foresees};

use crate::blob::Blob;
use crate::long::Long;
use crate::short::{SHORT_MOST, Short};
use std::alloc::{AllocError, Global};
use std::cmp::Ordering;
use std::marker::Model;

/// A byte string under which a value stands. Its order is that of bytes. A key of up to 46 bytes lies in the map itself, and of a longer
/// one the numbers of its first 16, so that a search of the map seldom looks at other memory.
#[derive(Drop)]
pub struct Key {
    body: Body,
}

#[derive(Drop)]
enum Body {
    Short(Short),
    Long(Long),
}

impl Model for Key {
    ghost use Rattle.std.specs.Prelude.{ℕ, List};
    ghost use Rattle.tc_base.specs.Bytes.{IsBytes};
    ghost use Rattle.tc_base.specs.Bodies.{of_body};

    ghost Value = { List ℕ };

    ghost view = { λ k. of_body k.body };

    ghost invariant = { λ k. IsBytes (of_body k.body) };
}

impl Key {
    /// A key of these bytes, made without taking memory.
    pub fn new(bytes: Blob) -> Key
        ensures { result ≡ bytes }
    {
        let body = if bytes.len() <= SHORT_MOST {
            Body::Short(Short::new(bytes.as_slice()))
        } else {
            Body::Long(Long::new(bytes))
        };
        Key { body }
    }

    /// A copy of bytes.
    pub fn from_slice(alloc: Global, bytes: &[u8]) -> Result<Key, AllocError>
        ensures { IfOk result (λ k. k ≡ bytes.now) }
    {
        let body = if bytes.len() <= SHORT_MOST {
            Body::Short(Short::new(bytes))
        } else {
            Body::Long(Long::new(Blob::from_slice(alloc, bytes)?))
        };
        Ok(Key { body })
    }

    pub fn as_slice(&self) -> &[u8]
        ensures { result.now ≡ self.now }
    {
        match &self.body {
            Body::Short(short) => short.as_slice(),
            Body::Long(long) => long.as_slice(),
        }
    }

    pub fn len(&self) -> usize
        ensures { result ≡ length self.now }
    {
        self.as_slice().len()
    }

    // The number of the first eight bytes.
    fn first(&self) -> u64
        ensures { result ≡ front_at 0 self.now }
    {
        match &self.body {
            Body::Short(short) => short.number(0),
            Body::Long(long) => long.first(),
        }
    }

    // The number of the eight bytes behind them.
    fn second(&self) -> u64
        ensures { result ≡ front_at 8 self.now }
    {
        match &self.body {
            Body::Short(short) => short.number(8),
            Body::Long(long) => long.second(),
        }
    }

    // The order of the first numbers that differ, of the first 40 bytes where both keys are short, else of 16.
    fn order(&self, other: &Key) -> Ordering
        ensures { Foresees result self.now other.now }
    {
        if let (Body::Short(a), Body::Short(b)) = (&self.body, &other.body) {
            return a.order(b);
        }
        let (a, b) = (self.first(), other.first());
        if a != b {
            return a.cmp(&b);
        }
        self.second().cmp(&other.second())
    }
}

impl PartialEq for Key {
    ghost eq = { pointwise nat_eq };

    ghost laws = { Prim.search (comparing, rules) };

    fn eq(&self, other: &Key) -> bool {
        self.as_slice() == other.as_slice()
    }
}

impl Eq for Key {
    ghost laws = { Prim.search (comparing, rules) };
}

impl Ord for Key {
    ghost cmp = { slice_cmp nat_cmp };

    ghost total = { Prim.search (comparing, rules) };

    ghost matches_partial_cmp = { Prim.search (comparing, rules) };

    ghost matches_eq = { Prim.search (comparing, rules) };

    fn cmp(&self, other: &Key) -> Ordering {
        match self.order(other) {
            Ordering::Equal => self.as_slice().cmp(other.as_slice()),
            order => order,
        }
    }
}

impl PartialOrd for Key {
    ghost partial_cmp = { as_partial_cmp (slice_cmp nat_cmp) };

    ghost laws = { partial_order_from_own_ties (Prim.search (comparing, rules)) (Prim.search (comparing, rules)) };

    fn partial_cmp(&self, other: &Key) -> Option<Ordering> {
        Some(self.cmp(other))
    }
}
