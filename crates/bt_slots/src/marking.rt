//! A value of an item found from where another was.
ghost use Rattle.std.specs.Prelude.{◌≡◌, ◌<◌, ◌≤◌, List, ℕ, drop, length, option_map, slice_get};
ghost use Rattle.bt_page.specs.declared.page.Leaf.{Leaf as the_leaf};
ghost use Rattle.bt_slots.specs.Marks.{IsMark, Moves, StandsAt};
ghost use Rattle.bt_slots.specs.Reads.{value_in};
ghost use Rattle.bt_slots.specs.Slots.{OfItem};

use crate::fronts::rest_from;
use crate::leaf::SlottedLeaf;
use crate::lying::next_value;

/// Where a further value was found: the place of its item, its number among the further values, and behind how many of their bytes it stands.
#[derive(Clone, Copy, Drop)]
pub struct Mark {
    pub place: usize,
    pub number: u64,
    pub offset: usize,
}

impl Mark {
    /// The front of the first item.
    pub fn new() -> Mark
        ensures { (l : the_leaf) → IsMark l result }
    {
        Mark {
            place: 0,
            number: 0,
            offset: 0,
        }
    }
}

// From which further value on that of a number is sought, and behind how many bytes that one stands: the marked one, where it is of the item and not behind, else the first.
fn start(mark: &Mark, place: usize, n: u64) -> (u64, usize)
    ensures order { result.0 ≤ n }
    ensures at { (further : List ℕ) → (mark.now.place ≡ place → StandsAt mark.now.number mark.now.offset further) → StandsAt result.0 result.1 further }
    ensures marked { mark.now.place ≡ place → mark.now.number ≤ n → result ≡ (mark.now.number, mark.now.offset) }
{
    if mark.place != place {
        return (0, 0);
    }
    if mark.number > n {
        return (0, 0);
    }
    (mark.number, mark.offset)
}

// Behind how many bytes of further values that of a number stands, from one on that isn't behind it.
fn offset_on(further: &[u8], from: u64, offset: usize, n: u64) -> usize
    requires order { from ≤ n }
    requires at { StandsAt from offset further.now }
    ensures { StandsAt n result further.now }
{
    let mut rest = rest_from(further, offset);
    for i in from..n {
        rest = next_value(rest).1;
    }
    further.len() - rest.len()
}

// The further value that stands behind so many bytes.
fn value_at(further: &[u8], offset: usize) -> &[u8]
    requires { offset ≤ length further.now }
    ensures { result.now ≡ (value_in (drop offset further.now)).0 }
{
    next_value(rest_from(further, offset)).0
}

impl SlottedLeaf {
    /// The value of a number of the item at a place, counted from 0, if it has one; where it is a further one, the mark is then there. From the marked value on it passes over those in
    /// front of this one, where that is of the same item and isn't behind, else over all in front.
    pub fn nth(&self, place: usize, n: u64, mark: &mut Mark) -> Option<&[u8]>
        requires place { place < length self.now.items }
        requires mark { IsMark self.now mark.old }
        ensures value { OfItem (λ x. slice_get x.values n) self.now.items place (option_map (λ v. v.now) result) }
        ensures mark { IsMark self.now mark.new }
        ensures moved { Moves place n (option_map (λ v. v.now) result) mark.old mark.new }
    {
        let parts = self.parts(place);
        if n == 0 {
            return Some(parts.first);
        }
        if n > parts.more {
            return None;
        }
        let (from, offset) = start(mark, place, n - 1);
        let offset = offset_on(parts.further, from, offset, n - 1);
        *mark = Mark {
            place,
            number: n - 1,
            offset,
        };
        Some(value_at(parts.further, offset))
    }
}
