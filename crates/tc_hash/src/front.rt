//! What stands in front of the blocks of a file, besides the bucket array.
ghost use Rattle.std.specs.Prelude.{◌≡◌, ◌-◌, ◌≤◌, ◌++◌, length, take, replicate, IfOk};
ghost use Rattle.tc_space.specs.Frames.{OnlyReads};
ghost use Rattle.tc_space.specs.Refusals.{Blames};
ghost use Rattle.hf_block.specs.Walks.{HoldsUpTo};
ghost use Rattle.tc_hash.specs.Fronts.{IsFront};

use crate::section::{read_section, section_size};
use hf_record::Body;
use tc_base::Blob;
use tc_reach::read_into;
use tc_space::{RecErr, Space};

/// What stands in front of the blocks of a file, besides the bucket array.
#[derive(Drop)]
pub struct Front {
    /// The bytes of the head.
    pub(crate) head: [u8; 256],
    /// The pool section up to a place from which on it has zeros alone.
    pub(crate) section: Blob,
}

// Behind how many bytes there are zeros alone.
fn zeros_from(bytes: &[u8]) -> usize
    ensures most { result ≤ length bytes.now }
    ensures zeros { bytes.now ≡ take result bytes.now ++ replicate (length bytes.now - result) 0 }
{
    let mut n = bytes.len();
    while n > 0 && bytes[n - 1] == 0 {
        n -= 1;
    }
    n
}

/// Reads what stands in front of the blocks.
pub(crate) fn read_front<S: Space>(body: &Body, space: &mut S) -> Result<Front, RecErr>
    requires { HoldsUpTo S.Space space.old body.now.file body.now.head.first }
    ensures front { IfOk result (λ f. S.tells → IsFront body.now.head f (S.now space.old body.now.file)) }
    ensures reads { OnlyReads S.Space space.old space.new }
    ensures cause { Blames S.Space result space.old space.new }
{
    let mut head = [0; 256];
    read_into(space, body.file, 0, &mut head)?;
    let mut section = vec![in body.alloc; 0; section_size(&body.head)]?;
    read_section(space, body.file, &body.head, &mut section)?;
    let end = zeros_from(&section);
    Ok(Front {
        head,
        section: Blob::from_slice(body.alloc, &section[..end])?,
    })
}
