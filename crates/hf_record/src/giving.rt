//! A block given back.
ghost use Rattle.std.specs.Prelude.{ℕ, ◌+◌, OnOk, IsTrue};
ghost use Rattle.tc_space.specs.Effects.{Outcome};
ghost use Rattle.tc_space.specs.Frames.{OnlyWrites};
ghost use Rattle.tc_space.specs.Refusals.{OnFault, OnlyLogIsFull};
ghost use Rattle.hf_pool.specs.Pools.{frees};
ghost use Rattle.hf_record.specs.Changing.{GivesBlock, MayGiveBack, StaysBody};
ghost use Rattle.hf_record.specs.Moves.{IsWithin};

use crate::body::Body;
use hf_pool::Pool;
use tc_base::FOUR_BYTES_END;
use tc_reach::give_up;
use tc_space::{RecErr, Space};

// Whether a block may be given back.
fn may_give(pool: &Pool, at: u64, size: u64) -> bool
    ensures may { IsTrue result → IsWithin pool.now.unit pool.now.size (frees pool.now) at size (at + size) }
    ensures must { (long : ℕ) → IsWithin pool.now.unit pool.now.size (frees pool.now) at size long → IsTrue result }
{
    let unit = pool.unit();
    if size == 0 || size >= FOUR_BYTES_END || size % unit != 0 || at % unit != 0 {
        return false;
    }
    if at > pool.size() || size > pool.size() - at {
        return false;
    }
    pool.meets_none(at, size)
}

impl Body {
    // Gives a block of the file back. After a refusal the space isn't sound.
    pub(crate) fn give_back<S: Space>(
        &mut self,
        space: &mut S,
        at: u64,
        size: u64,
    ) -> Result<(), RecErr>
        requires { MayGiveBack S.Space self.old at size space.old }
        ensures given { OnOk result (GivesBlock S.Space at size self.old self.new space.old space.new) }
        ensures stays { StaysBody self.old self.new }
        ensures outcome { Outcome S.sound S.flag result space.new }
        ensures writes { OnlyWrites S.Space space.old space.new }
        ensures full { OnlyLogIsFull S.Space result space.new }
        ensures cause { OnFault S.Space result space.old space.new }
    {
        // of a file whose bytes are told it is so
        if !may_give(&self.pool, at, size) {
            give_up(space);
            return Err(RecErr::Memory);
        }
        self.pool.give(space, self.file, at, size)?;
        Ok(())
    }
}
