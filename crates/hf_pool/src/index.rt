//! Free blocks, found by place and by size.
ghost use Rattle.std.specs.Prelude.{◌≡◌, ℕ, ◌+◌, ◌^◌, ◌<◌, Option, Some, None, IfSome, IfNone, IsTrue, OnOk, OnErr};
ghost use Rattle.std.specs.Ordering.{nat_cmp};
ghost use Rattle.std.specs.BTreeMap as tree;
ghost use Rattle.std.specs.BTreeSet as set;
ghost use Rattle.hf_layout.specs.Frees.{IsThere, IsLeast, AreSmall, AreApart, MeetsNone, with_block, without};
ghost use Rattle.hf_pool.specs.Orders.{pair_cmp, is_size};

use std::alloc::{AllocError, Global};
use std::collections::{BTreeMap, BTreeSet};

/// Free blocks: each is found by its place, and the least that is large enough by its size.
#[derive(Drop)]
pub struct Index {
    by_place: BTreeMap<u64, u64>,
    by_size: BTreeSet<(u64, u64)>,
    ghost both: { (s p : ℕ) → set.contains pair_cmp by_size (s, p) ≡ is_size (tree.get nat_cmp by_place p) s },
    ghost apart: { AreApart (tree.get nat_cmp by_place) },
}

impl Index {
    ghost use Rattle.hf_pool.specs.Indexing.{found_in};

    /// No blocks.
    pub fn new(alloc: Global) -> Index
        ensures { (q : ℕ) → found_in result q ≡ None }
    {
        Index {
            by_place: BTreeMap::new(alloc),
            by_size: BTreeSet::new(alloc),
        }
    }

    /// Adds a block that meets none of the others. An `Err` changes nothing.
    pub fn insert(&mut self, place: u64, size: u64) -> Result<(), AllocError>
        requires some { 0 < size }
        requires absent { found_in self.old place ≡ None }
        requires apart { MeetsNone (found_in self.old) place size }
        ensures ok { OnOk result ((q : ℕ) → found_in self.new q ≡ with_block (found_in self.old) place size q) }
        ensures err { OnErr result ((q : ℕ) → found_in self.new q ≡ found_in self.old q) }
    {
        let Ok(_) = self.by_size.insert((size, place)) else {
            return Err(AllocError);
        };
        let Ok(_) = self.by_place.insert(place, size) else {
            self.by_size.remove(&(size, place));
            return Err(AllocError);
        };
        Ok(())
    }

    /// Takes a block out.
    pub fn remove(&mut self, place: u64, size: u64)
        requires { IsThere (found_in self.old) place size }
        ensures { (q : ℕ) → found_in self.new q ≡ without (found_in self.old) place q }
    {
        self.by_size.remove(&(size, place));
        self.by_place.remove(&place);
    }

    /// The place and size of the least block of at least that size, the one at the lowest place among equals.
    pub fn least(&self, size: u64) -> Option<(u64, u64)>
        ensures some { IfSome result (λ b. IsLeast (found_in self.now) size b.0 b.1) }
        ensures none { IfNone result (AreSmall (found_in self.now) size) }
    {
        match self.by_size.range((size, 0)..).next() {
            Some((found, place)) => Some((*place, *found)),
            None => None,
        }
    }

    /// The size of the block at a place.
    pub fn at(&self, place: u64) -> Option<u64>
        ensures { result ≡ found_in self.now place }
    {
        self.by_place.get(&place).copied()
    }

    /// The place of the block that ends at a place.
    pub fn before(&self, end: u64) -> Option<u64>
        ensures some { IfSome result (λ p. (s : ℕ) × IsThere (found_in self.now) p s × (p + s ≡ end)) }
        ensures none { IfNone result ((q t : ℕ) → IsThere (found_in self.now) q t → q + t ≡ end → 0 < t → ⊥) }
    {
        match self.by_place.range(..end).next_back() {
            Some((place, size)) if *size == end - *place => Some(*place),
            _ => None,
        }
    }

    /// Whether a block there meets none of these.
    pub fn meets_none(&self, place: u64, size: u64) -> bool
        requires some { 0 < size }
        requires fits { place + size < 2 ^ 64 }
        ensures apart { IsTrue result → MeetsNone (found_in self.now) place size }
        ensures meets { MeetsNone (found_in self.now) place size → IsTrue result }
    {
        match self.by_place.range(..place + size).next_back() {
            Some((last, found)) => *last <= place && *found <= place - *last,
            None => true,
        }
    }

    /// The sizes by place.
    pub fn by_place(&self) -> &BTreeMap<u64, u64>
        ensures { result.now ≡ self.now.by_place }
    {
        &self.by_place
    }
}
