//! Ids listed.
ghost use Rattle.std.specs.Prelude.{◌≡◌, ◌+◌, ◌-◌, ◌^◌, ◌≤◌, ◌++◌, ℕ, length, OnOk, true, false};
ghost use Rattle.tc_model.specs.Arrays.{Array};
ghost use Rattle.tc_space.specs.Frames.{Keeps, OnlyReads, Reads};
ghost use Rattle.tc_space.specs.Refusals.{Blames};
ghost use Rattle.tc_space.specs.Stores.{IsReady};
ghost use Rattle.tc_fixed.specs.Cells.{HasCellsOf, end_of};
ghost use Rattle.tc_fixed.specs.Holding.{Means, SameShape};
ghost use Rattle.tc_fixed.specs.Listing.{HasRoom, first_of, ids_in, noted};

use crate::cells::Look;
use crate::fixed::Fixed;
use crate::looking::look;
use std::alloc::{AllocError, Global};
use tc_reach::Window;
use tc_space::{RecErr, Space};

// Whether fewer than so many are listed.
fn has_room(most: Option<u64>, count: u64) -> bool
    ensures yes { result ≡ true → HasRoom most count }
    ensures no { result ≡ false → HasRoom most count → ⊥ }
{
    match most {
        Some(most) => count < most,
        None => true,
    }
}

// Adds an id, if its cell has a value.
fn note(found: Look, id: u64, into: &mut Vec<u64>) -> Result<(), AllocError>
    ensures { OnOk result (into.new.items ≡ into.old.items ++ noted found id) }
{
    if let Look::Value(_) = found {
        into.push(id)?;
    }
    Ok(())
}

// Adds the ids from one on and before another that are held, at most so many.
fn list<S: Space>(
    alloc: Global,
    space: &mut S,
    width: u32,
    from: u64,
    to: u64,
    most: Option<u64>,
    into: &mut Vec<u64>,
) -> Result<(), RecErr>
    requires sound { S.sound space.old }
    requires width { (1 ≤ width) × (width ≤ 1048576) }
    requires ids { (1 ≤ from) × (to ≤ 2 ^ 40 + 1) }
    requires inside { S.tells → end_of width (to - 1) ≤ length (S.now space.old 0) }
    ensures listed { OnOk result (S.tells → (m : Array) → HasCellsOf width (to - 1) m (S.now space.old 0) → into.new.items ≡ into.old.items ++ first_of most (ids_in m from to)) }
    ensures reads { OnlyReads S.Space space.old space.new }
    ensures cause { Blames S.Space result space.old space.new }
{
    let start = into.len();
    let mut window = Window::new(alloc);
    let mut id = from;
    while id < to && has_room(most, (into.len() - start) as u64) {
        let found = look(&mut window, space, width, id)?;
        note(found, id, into)?;
        id += 1;
    }
    Ok(())
}

impl<S: Space> Fixed<S> {
    /// Adds the ids held from one on and before another, ascending, at most so many. Only cells of that range are read, a piece at a time.
    /// Nothing in the file changes, whatever it answers; after an error some of these ids may have been added.
    pub fn ids_in(
        &mut self,
        space: &mut S,
        from: u64,
        to: u64,
        most: Option<u64>,
        into: &mut Vec<u64>,
    ) -> Result<(), RecErr>
        requires ready { IsReady S.Space (Means S.Space) self.old space.old }
        ensures listed { OnOk result ((m : Array) → Means S.Space self.old space.old m → into.new.items ≡ into.old.items ++ first_of most (ids_in m from to)) }
        ensures reads { Reads S.Space (Means S.Space) self.old self.new space.old space.new }
        ensures keeps { Keeps S.Space space.old space.new }
        ensures shape { SameShape self.old self.new }
        ensures cause { Blames S.Space result space.old space.new }
    {
        let low = from.max(self.tally.least).max(1);
        let high = to.min(self.tally.greatest + 1);
        list(self.alloc, space, self.width, low, high, most, into)?;
        Ok(())
    }
}
