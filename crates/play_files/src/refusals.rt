//! What a line is told of a refused call.

use hf_block::WalkErr;
use play_text::{Why, Wrong};
use tc_base::Fault;
use tc_space::{OpenErr, RecErr, SpaceErr};

fn wrong(is_full: bool, is_memory: bool) -> Wrong {
    if is_memory {
        return Wrong::Memory;
    }
    Wrong::Not(if is_full { Why::Limit } else { Why::Fault })
}

/// Of a call on what is kept in a file.
pub fn refused(e: RecErr) -> Wrong {
    wrong(e == RecErr::Full, e == RecErr::Memory)
}

/// Of a call on files.
pub fn unwritten(e: SpaceErr) -> Wrong {
    wrong(e == SpaceErr::Full, e == SpaceErr::Memory)
}

/// Of an opening.
pub fn unopened(e: OpenErr) -> Wrong {
    match e {
        OpenErr::Broken { .. } => Wrong::Not(Why::BrokenFile),
        _ => wrong(false, e == OpenErr::Memory),
    }
}

/// Of a walk over blocks.
pub fn unlisted(e: WalkErr) -> Wrong {
    match e {
        WalkErr::Broken(_) => Wrong::Not(Why::BrokenBlocks),
        _ => wrong(false, e == WalkErr::Memory),
    }
}

/// Of a call of a volume.
pub fn faulted(_e: Fault) -> Wrong {
    wrong(false, false)
}
