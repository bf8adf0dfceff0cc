//! Values read.
ghost use Rattle.std.specs.Prelude.{◌≡◌, ◌≤◌, length, IfOk, IfSome, option_map};
ghost use Rattle.std.specs.FinMap.{get};
ghost use Rattle.tc_io.specs.Causes.{HasCause};
ghost use Rattle.tc_model.specs.Arrays.{Array};
ghost use Rattle.tc_space.specs.Frames.{Keeps, OnlyReads, Reads};
ghost use Rattle.tc_space.specs.Stores.{IsReady};
ghost use Rattle.tc_fixed.specs.Holding.{Means, SameShape, width_of};
ghost use Rattle.tc_fixed.specs.Looks.{IsReadAs};

use crate::cells::Look;
use crate::fixed::Fixed;
use crate::looking::{look_at, read_value};
use tc_base::Fault;
use tc_space::Space;

impl<S: Space> Fixed<S> {
    // How many bytes the value of an id has; none is read where no id as this one is held.
    pub(crate) fn held_at(&self, space: &mut S, id: u64) -> Result<Option<u64>, Fault>
        requires ready { IsReady S.Space (Means S.Space) self.now space.old }
        ensures held { IfOk result (λ found. (m : Array) → Means S.Space self.now space.old m → found ≡ option_map length (get m id)) }
        ensures inside { IfOk result (λ found. IfSome found (λ long. (1 ≤ id) × (id ≤ self.now.tally.greatest))) }
        ensures fits { IfOk result (λ found. IfSome found (λ long. long ≤ width_of self.now)) }
        ensures reads { OnlyReads S.Space space.old space.new }
        ensures cause { HasCause (S.faults space.old) (S.faults space.new) result }
    {
        if self.is_outside(id) {
            return Ok(None);
        }
        let Look::Value(long) = look_at(space, self.width, id)? else {
            return Ok(None);
        };
        Ok(Some(long))
    }

    /// How many bytes the value of an id has, by one small read. Nothing changes, whatever it answers, and it takes no memory.
    pub fn value_len(&mut self, space: &mut S, id: u64) -> Result<Option<u64>, Fault>
        requires ready { IsReady S.Space (Means S.Space) self.old space.old }
        ensures value { IfOk result (λ found. (m : Array) → Means S.Space self.old space.old m → found ≡ option_map length (get m id)) }
        ensures reads { Reads S.Space (Means S.Space) self.old self.new space.old space.new }
        ensures keeps { Keeps S.Space space.old space.new }
        ensures shape { SameShape self.old self.new }
        ensures cause { HasCause (S.faults space.old) (S.faults space.new) result }
    {
        self.held_at(space, id)
    }

    /// Reads the value of an id to the front of bytes that are as many as the width, by one small read and one of the value, and answers how
    /// many it has. Nothing else changes, whatever it answers, and it takes no memory.
    pub fn get(&mut self, space: &mut S, id: u64, into: &mut [u8]) -> Result<Option<usize>, Fault>
        requires ready { IsReady S.Space (Means S.Space) self.old space.old }
        requires room { length into.old ≡ width_of self.old }
        ensures value { IfOk result (λ found. (m : Array) → Means S.Space self.old space.old m → IsReadAs (get m id) found into.new) }
        ensures fits { IfOk result (λ found. IfSome found (λ long. long ≤ width_of self.old)) }
        ensures reads { Reads S.Space (Means S.Space) self.old self.new space.old space.new }
        ensures keeps { Keeps S.Space space.old space.new }
        ensures shape { SameShape self.old self.new }
        ensures cause { HasCause (S.faults space.old) (S.faults space.new) result }
    {
        let Some(long) = self.held_at(space, id)? else {
            return Ok(None);
        };
        read_value(space, self.width, id, long as usize, into)?;
        Ok(Some(long as usize))
    }
}
