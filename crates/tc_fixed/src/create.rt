//! A file made anew.
ghost use Rattle.std.specs.Prelude.{◌≡◌, take, IfOk, OnOk, OnErr, IsErrOf, false};
ghost use Rattle.std.specs.FinMap.{empty};
ghost use Rattle.tc_space.specs.Frames.{Keeps, Others};
ghost use Rattle.tc_space.specs.Refusals.{OnFault};
ghost use Rattle.tc_space.specs.Stores.{Only};
ghost use Rattle.hf_head.specs.FixedHeads.{fixed_in, fixed_spelled};
ghost use Rattle.tc_fixed.specs.Holding.{HasNoRoom, MayCreate, Means};
ghost use Rattle.tc_fixed.specs.Settling.{new_head};
ghost use Rattle.tc_fixed.specs.Shapes.{most_id};
ghost use Rattle.tc_fixed.specs.Standing.{Stands};

use crate::fixed::{FILE, Fixed};
use crate::settle::{head_now, spelling};
use crate::tally::Tally;
use std::alloc::Global;
use std::marker::PhantomData;
use tc_reach::write_at;
use tc_space::{RecErr, Space};

impl<S: Space> Fixed<S> {
    /// Makes an empty file a fixed-length file without ids, which has a head and nothing behind it, for values of at most a width from 1 to 1,048,576, with a limit of its size from 512
    /// to 2^40. After a refusal the space isn't sound.
    pub fn create(alloc: Global, space: &mut S, width: u32, limit: u64) -> Result<Fixed<S>, RecErr>
        requires may { MayCreate S.Space space.old width limit }
        ensures shape { IfOk result (λ f. (f.width ≡ width) × (f.limit ≡ limit)) }
        ensures created { IfOk result (λ f. S.sound space.new × Others S.Space (Only 0) space.old space.new × (S.tells → Means S.Space f space.new empty)) }
        ensures stands { OnOk result (S.tells → Stands (S.now space.new 0) width (most_id width limit) empty) }
        ensures head { OnOk result (S.tells → fixed_in (take 256 (S.now space.new 0)) ≡ new_head width limit) }
        ensures made { OnOk result (S.tells → S.now space.new 0 ≡ fixed_spelled (new_head width limit)) }
        ensures refused { OnErr result (S.flag space.new ≡ false) }
        ensures full { IsErrOf result RecErr.Full → S.tells → HasNoRoom (S.limit space.new 0) (S.log_full space.new) 256 }
        ensures keeps { Keeps S.Space space.old space.new }
        ensures cause { OnFault S.Space result space.old space.new }
    {
        let tally = Tally::none();
        let head = head_now(width, limit, &tally);
        write_at(space, FILE, 0, &spelling(&head))?;
        Ok(Fixed {
            alloc,
            width,
            limit,
            tally,
            buffer: Vec::new(alloc),
            of: PhantomData,
        })
    }
}
