//! Where values of an item of a leaf were found.
ghost use Rattle.std.specs.Prelude.{◌≡◌, ◌<◌, IfOk, length, slice_get};
ghost use Rattle.std.specs.List.{All};
ghost use Rattle.bt_page.specs.declared.page.Leaf.{Leaf as the_leaf};
ghost use Rattle.bt_slots.specs.Marks.{IsMark};
ghost use Rattle.bt_slots.specs.Slots.{OfItem};
ghost use Rattle.bt_cache.specs.Marks.{AreMarks};

use bt_slots::{Mark, SlottedLeaf};
use std::alloc::{AllocError, Global};
use tc_base::Blob;

// One value in so many is found again without those in front of it.
const STRIDE: u64 = 64;

/// The mark of the further value that was found last, and those of every so many values of its item, as far as its values were passed over.
#[derive(Drop)]
pub(crate) struct Marks {
    last: Mark,
    each: Vec<Mark>,
}

// Whether a mark is so near in front of a value that none of every so many is nearer.
fn is_near(mark: &Mark, place: usize, n: u64) -> bool {
    mark.place == place && mark.number < n && n - mark.number <= STRIDE
}

// From where a value of an item is sought: the mark that is near in front of it, else that of every so many which is, or the first value.
fn near(last: &Mark, each: &[Mark], place: usize, n: u64) -> Mark
    ensures { (l : the_leaf) → IsMark l last.now → All (IsMark l) each.now → IsMark l result }
{
    if is_near(last, place, n) {
        return *last;
    }
    let count = ((n / STRIDE) as usize).min(each.len());
    if count == 0 {
        return Mark {
            place,
            number: 0,
            offset: 0,
        };
    }
    each[count - 1]
}

// Marks every so many values of an item, those marked already left out, up to that of a number.
fn mark_each(
    leaf: &SlottedLeaf,
    place: usize,
    n: u64,
    last: &mut Mark,
    each: &mut Vec<Mark>,
) -> Result<(), AllocError>
    requires place { place < length leaf.now.items }
    requires last { IsMark leaf.now last.old }
    requires each { All (IsMark leaf.now) each.old.items }
    ensures last { IsMark leaf.now last.new }
    ensures each { All (IsMark leaf.now) each.new.items }
{
    let until = leaf.count(place).saturating_sub(1).min(n) / STRIDE;
    for i in each.len() as u64..until {
        let _value = leaf.nth(place, (i + 1).saturating_mul(STRIDE), last);
        each.push(*last)?;
    }
    Ok(())
}

impl Marks {
    /// Those of the front of the first item.
    pub(crate) fn new(alloc: Global) -> Marks
        ensures { (l : the_leaf) → AreMarks l result }
    {
        Marks {
            last: Mark::new(),
            each: Vec::new(alloc),
        }
    }

    // Those of an item alone.
    fn keep_of(&mut self, place: usize)
        ensures { (l : the_leaf) → AreMarks l self.old → AreMarks l self.new }
    {
        if self.last.place != place {
            self.each.clear();
        }
    }

    /// The value of a number of the item at a place, as a copy, if it has one. Of the values in front of it those from the nearest mark on are passed over.
    pub(crate) fn value(
        &mut self,
        alloc: Global,
        leaf: &SlottedLeaf,
        place: usize,
        n: u64,
    ) -> Result<Option<Blob>, AllocError>
        requires place { place < length leaf.now.items }
        requires marks { AreMarks leaf.now self.old }
        ensures value { IfOk result (λ v. OfItem (λ x. slice_get x.values n) leaf.now.items place v) }
        ensures marks { AreMarks leaf.now self.new }
    {
        self.keep_of(place);
        self.last = near(&self.last, self.each.as_slice(), place, n);
        mark_each(leaf, place, n, &mut self.last, &mut self.each)?;
        match leaf.nth(place, n, &mut self.last) {
            Some(value) => Ok(Some(Blob::from_slice(alloc, value)?)),
            None => Ok(None),
        }
    }
}
