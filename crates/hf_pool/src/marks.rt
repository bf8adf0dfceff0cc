//! Heads of free blocks in a file.
ghost use Rattle.std.specs.Prelude.{◌≡◌, ◌<◌, ◌≤◌, ◌^◌, length, OnOk, IsErrOf};
ghost use Rattle.tc_space.specs.Ranges.{IsDataFile, Passes};
ghost use Rattle.hf_block.specs.Heads.{free_head};
ghost use Rattle.hf_pool.specs.Marks.{marked};
ghost use Rattle.tc_space.specs.Effects.{Changes, Outcome};
ghost use Rattle.tc_space.specs.Frames.{OnlyWrites};
ghost use Rattle.tc_space.specs.Refusals.{OnFault};

use tc_base::set_le;
use tc_space::{RecErr, Space};

// The five bytes of a free block's head.
fn head_of(size: u64) -> [u8; 5]
    requires { size < 2 ^ 32 }
    ensures { result ≡ free_head size }
{
    let mut head = [0xB0, 0, 0, 0, 0];
    set_le(&mut head, 1, 4, size);
    head
}

/// Writes the head of a free block. After a refusal the space isn't sound.
pub fn mark<S: Space>(space: &mut S, file: u32, place: u64, size: u64) -> Result<(), RecErr>
    requires sound { S.sound space.old }
    requires file { IsDataFile file }
    requires inside { S.tells → place ≤ length (S.now space.old file) }
    requires size { size < 2 ^ 32 }
    ensures marked { OnOk result (S.tells → Changes S.now file (marked place size (S.now space.old file)) space.old space.new) }
    ensures outcome { Outcome S.sound S.flag result space.new }
    ensures writes { OnlyWrites S.Space space.old space.new }
    ensures full { IsErrOf result RecErr.Full → Passes (S.limit space.old file) (S.log_full space.new) place 5 }
    ensures cause { OnFault S.Space result space.old space.new }
{
    space.write(file, place, &head_of(size))?;
    Ok(())
}
