//! The blocks of a file, listed for what reads them one after the other.
ghost use Rattle.std.specs.Prelude.{IfOk};
ghost use Rattle.tc_space.specs.Frames.{OnlyReads};
ghost use Rattle.tc_space.specs.Refusals.{Blames};
ghost use Rattle.tc_hash.specs.Listed.{CanList, OfBlocks};
ghost use Rattle.hf_tree.specs.Listing.{AreListed};

use hf_block::{Blocks, WalkErr, walk};
use hf_head::Head;
use std::alloc::Global;
use tc_space::{RecErr, Space};

/// The blocks of a file that end at its head's size.
pub(crate) fn list_blocks<S: Space>(
    alloc: Global,
    space: &mut S,
    file: u32,
    head: &Head,
) -> Result<Blocks, RecErr>
    requires { CanList S.Space head.now file space.old }
    ensures listed { IfOk result (λ blocks. OfBlocks S.Space head.now file space.old (λ ps. AreListed head.now ps (S.now space.new file) blocks)) }
    ensures reads { OnlyReads S.Space space.old space.new }
    ensures cause { Blames S.Space result space.old space.new }
{
    match walk(alloc, space, file, head) {
        Ok(listed) => Ok(listed),
        Err(WalkErr::Fault) => Err(RecErr::Fault),
        // of a file whose bytes are told no rule is broken
        Err(_) => Err(RecErr::Memory),
    }
}
