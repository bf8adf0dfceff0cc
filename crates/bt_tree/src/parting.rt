//! A leaf that grew beyond its limits, written as two or three.
ghost use Rattle.std.specs.Prelude.{◌≡◌, ◌+◌, ◌-◌, ◌<◌, ◌≤◌, ◌^◌, ◌∷◌, ◌==◌, [], suc, length, take, drop, IfOk, OnOk, IsErrOf, if◌then◌else◌};
ghost use Rattle.std.specs.List.{AllByRecursion};
ghost use Rattle.tc_space.specs.Refusals.{Blames, OnFault};
ghost use Rattle.bt_page.specs.Keys.{node_offset};
ghost use Rattle.bt_cache.specs.Effects.{OnFull};
ghost use Rattle.bt_ways.specs.Changes.{IsOver};
ghost use Rattle.bt_ways.specs.Parts.{first_key};
ghost use Rattle.bt_tree.specs.Numbers.{with_last, with_leaf_ids};
ghost use Rattle.bt_tree.specs.Paging.{HasLeafAt, IsLeafId, IsShown, Peeks, Rewrites, StaysStill};
ghost use Rattle.bt_tree.specs.Parting.{AddsAll, AreHalves, AreThirds, HasLeaf, IsThird, LacksLaid, LacksPart, LacksPiece, TurnsParted, Widens, put_laid, third_ids};

use crate::cutting::cut_places;
use crate::tree::Tree;
use bt_page::NodeEntry;
use bt_slots::SlottedLeaf;
use std::alloc::{AllocError, Global};
use tc_base::{Blob, Order, Seq, Steps};
use tc_space::{RecErr, Records};

/// A leaf and its id.
#[derive(Drop)]
pub(crate) struct Laid {
    pub(crate) id: u64,
    pub(crate) leaf: SlottedLeaf,
}

/// The leaves that one becomes, the entries over the new ones, and the id of the last.
#[derive(Drop)]
pub(crate) struct Parted {
    pub(crate) leaves: Seq<Laid>,
    pub(crate) added: Seq<NodeEntry>,
    pub(crate) last: u64,
}

// The entry over a new leaf.
fn entry_over(alloc: Global, id: u64, leaf: &SlottedLeaf) -> Result<NodeEntry, AllocError>
    ensures { IfOk result (λ e. e ≡ record { child = id; key = first_key leaf.now.items }) }
{
    if leaf.len() == 0 {
        return Err(AllocError);
    }
    let key = Blob::from_slice(alloc, leaf.key(0))?;
    Ok(NodeEntry { child: id, key })
}

// Two leaves of the items of one in front of a place and of those from there to another, before a leaf of this id.
fn in_two(
    alloc: Global,
    id: u64,
    leaf: &SlottedLeaf,
    i: usize,
    j: usize,
    second_id: u64,
    next: u64,
) -> Result<Parted, AllocError>
    requires { (i ≤ j) × (j ≤ length leaf.now.items) }
    ensures { IfOk result (AreHalves id leaf.now i j second_id next) }
{
    let mut leaves = Seq::new(alloc);
    let mut added = Seq::new(alloc);
    let first = leaf.section(alloc, 0, i, leaf.prev(), second_id)?;
    let second = leaf.section(alloc, i, j, id, next)?;
    added.push(entry_over(alloc, second_id, &second)?)?;
    leaves.push(Laid { id, leaf: first })?;
    leaves.push(Laid {
        id: second_id,
        leaf: second,
    })?;
    Ok(Parted {
        leaves,
        added,
        last: second_id,
    })
}

// Three leaves in the place of one: two of which the second has the third behind it, and that of the items from a place on.
fn in_three(
    alloc: Global,
    two: Parted,
    leaf: &SlottedLeaf,
    j: usize,
    second_id: u64,
    third_id: u64,
) -> Result<Parted, AllocError>
    requires { j ≤ length leaf.now.items }
    ensures { IfOk result (IsThird two leaf.now j second_id third_id) }
{
    let mut leaves = two.leaves;
    let mut added = two.added;
    let third = leaf.section(alloc, j, leaf.len(), second_id, leaf.next())?;
    added.push(entry_over(alloc, third_id, &third)?)?;
    leaves.push(Laid {
        id: third_id,
        leaf: third,
    })?;
    Ok(Parted {
        leaves,
        added,
        last: third_id,
    })
}

impl<R: Records, O: Order> Tree<R, O> {
    // The leaves that one becomes where it is parted at two places, under the next ids. The third would be empty where the second place is the end, and isn't one then.
    fn parts(&mut self, id: u64, leaf: SlottedLeaf, i: usize, j: usize) -> Result<Parted, RecErr>
        requires { (i ≤ j) × (j ≤ length leaf.items) }
        ensures parts { IfOk result (AreThirds self.old.head.leaf_ids id leaf i j) }
        ensures given { OnOk result (self.new.head.leaf_ids ≡ third_ids self.old.head.leaf_ids leaf i j) }
        ensures small { OnOk result (self.new.head.leaf_ids < node_offset) }
        ensures noted { self.new ≡ with_leaf_ids self.new.head.leaf_ids self.old }
        ensures least { self.old.head.leaf_ids ≤ self.new.head.leaf_ids }
        ensures most { self.new.head.leaf_ids ≤ self.old.head.leaf_ids + 2 }
        ensures cause { (IsErrOf result RecErr.Fault → ⊥) × (IsErrOf result RecErr.Full → ⊥) }
    {
        let second_id = self.leaf_id()?;
        if j == leaf.len() {
            return Ok(in_two(self.alloc, id, &leaf, i, j, second_id, leaf.next())?);
        }
        let third_id = self.leaf_id()?;
        let two = in_two(self.alloc, id, &leaf, i, j, second_id, third_id)?;
        Ok(in_three(self.alloc, two, &leaf, j, second_id, third_id)?)
    }

    // Adds the leaf behind, if there is one, with another before it.
    fn behind<L>(
        &mut self,
        space: &mut R::S,
        next: u64,
        prev: u64,
        leaves: Seq<Laid>,
        steps: &mut Steps<L>,
    ) -> Result<Seq<Laid>, RecErr>
        requires ready { IsShown R.S.Space R.Records self.old space.old }
        requires there { (next ≡ 0 → ⊥) → HasLeafAt R.S.Space R.Records next self.old space.old }
        ensures added { IfOk result (AddsAll R.S.Space R.Records next prev leaves self.old space.old) }
        ensures peeks { Peeks R.S.Space R.Records self.old self.new space.old space.new }
        ensures cause { Blames R.S.Space result space.old space.new }
    {
        if next == 0 {
            return Ok(leaves);
        }
        let leaf = self.own_leaf(space, next, steps)?;
        let leaf = leaf.with_prev(self.alloc, prev)?;
        let mut leaves = leaves;
        leaves.push(Laid { id: next, leaf })?;
        Ok(leaves)
    }

    // The last leaf is another, where none is behind it.
    fn follow(&mut self, next: u64, last: u64)
        ensures { self.new ≡ with_last (if next == 0 then last else self.old.head.last) self.old }
    {
        if next == 0 {
            self.head.last = last;
        }
    }

    // Writes leaves, one by one.
    fn lay(&mut self, space: &mut R::S, leaves: Seq<Laid>) -> Result<(), RecErr>
        requires ready { IsShown R.S.Space R.Records self.old space.old }
        requires ids { R.S.tells → AllByRecursion (λ l. IsLeafId self.old.head l.id) leaves }
        ensures laid { OnOk result (Rewrites R.S.Space R.Records (put_laid leaves) self.old self.new space.old space.new) }
        ensures full { OnFull result (LacksLaid R.S.Space R.Records leaves self.old space.old space.new) }
        ensures still { StaysStill R.S.Space R.Records self.old self.new space.old space.new }
        ensures cause { OnFault R.S.Space result space.old space.new }
    {
        let mut rest = leaves.into_vec();
        while !rest.is_empty() {
            let laid = rest.remove(0);
            self.put_leaf(space, laid.id, laid.leaf)?;
        }
        Ok(())
    }

    // Writes the leaf of an id as two or three: it, the new ones, the one behind with another before it, and then what climbs. All that takes memory beside the nodes comes before the first write.
    fn spread<L>(
        &mut self,
        space: &mut R::S,
        id: u64,
        leaf: SlottedLeaf,
        place: usize,
        steps: &mut Steps<L>,
    ) -> Result<(), RecErr>
        requires ready { HasLeaf R.S.Space R.Records id leaf.next self.old space.old }
        requires inside { place < length leaf.items }
        requires over { R.S.tells → IsOver self.old.head.leaf_limit leaf.items place }
        requires rows { self.old.height < 2 ^ 64 - 1 }
        ensures parted { OnOk result (TurnsParted R.S.Space R.Records id leaf self.old self.new space.old space.new) }
        ensures full { OnFull result (LacksPiece R.S.Space R.Records id leaf self.old space.old space.new) }
        ensures widens { Widens R.S.Space R.Records (suc (length self.old.path)) self.old self.new space.old space.new }
        ensures cause { OnFault R.S.Space result space.old space.new }
    {
        let next = leaf.next();
        let (i, j) = cut_places(self.head.leaf_limit, &leaf, place, next == 0);
        let parted = self.parts(id, leaf, i, j)?;
        let last = parted.last;
        let leaves = self.behind(space, next, last, parted.leaves, steps)?;
        self.follow(next, last);
        self.lay(space, leaves)?;
        self.climb(space, parted.added, steps)
    }

    /// Writes the leaf of an id as two or three, since its items are above its limits, with what climbs above them. Where fewer ids are left than pages come nothing is written but the numbers of the
    /// tree, and the space is given up. After another refusal some of it may have been written.
    pub(crate) fn part<L>(
        &mut self,
        space: &mut R::S,
        id: u64,
        leaf: SlottedLeaf,
        place: usize,
        steps: &mut Steps<L>,
    ) -> Result<(), RecErr>
        requires ready { HasLeaf R.S.Space R.Records id leaf.next self.old space.old }
        requires inside { place < length leaf.items }
        requires over { R.S.tells → IsOver self.old.head.leaf_limit leaf.items place }
        requires rows { self.old.height < 2 ^ 64 - 1 }
        ensures parted { OnOk result (TurnsParted R.S.Space R.Records id leaf self.old self.new space.old space.new) }
        ensures full { OnFull result (LacksPart R.S.Space R.Records id leaf self.old space.old space.new) }
        ensures widens { Widens R.S.Space R.Records (suc (length self.old.path)) self.old self.new space.old space.new }
        ensures cause { OnFault R.S.Space result space.old space.new }
    {
        let has = self.has_ids(space, &leaf, place, steps)?;
        if !has {
            return Err(self.refuse(space));
        }
        self.spread(space, id, leaf, place, steps)
    }
}
