//! Bytes of a file, read and compared.
ghost use Rattle.std.specs.Prelude.{◌≡◌, ◌↔◌, ◌+◌, ◌≤◌, length, take, drop, OnOk, IsTrue};
ghost use Rattle.tc_io.specs.Causes.{HasCause};
ghost use Rattle.tc_space.specs.Frames.{OnlyReads};
ghost use Rattle.tc_space.specs.Ranges.{Reaches};

use tc_base::Fault;
use tc_space::Space;

/// Fills the bytes with those of a file from a place on.
pub fn read_into<S: Space>(space: &mut S, file: u32, at: u64, into: &mut [u8]) -> Result<(), Fault>
    requires sound { S.sound space.old }
    requires reaches { Reaches S.tells (S.now space.old) file (at + length into.old) }
    ensures bytes { OnOk result (S.tells → into.new ≡ take (length into.old) (drop at (S.now space.old file))) }
    ensures counted { S.bytes_read space.new ≤ S.bytes_read space.old + length into.old }
    ensures reads { OnlyReads S.Space space.old space.new }
    ensures cause { HasCause (S.faults space.old) (S.faults space.new) result }
{
    space.read(file, at, into)
}

// Whether they are equal.
pub(crate) fn is_same(a: &[u8], b: &[u8]) -> bool
    ensures { IsTrue result ↔ (a.now ≡ b.now) }
{
    a == b
}
