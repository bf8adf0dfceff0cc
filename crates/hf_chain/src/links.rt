//! Links written into a file.
ghost use Rattle.std.specs.Prelude.{◌≡◌, ◌+◌, ◌-◌, ◌^◌, ◌<◌, ◌≤◌, take, OnOk, IsErrOf};
ghost use Rattle.tc_base.specs.Endian.{le_bytes};
ghost use Rattle.tc_base.specs.Files.{wrote};
ghost use Rattle.tc_space.specs.Ranges.{IsDataFile};
ghost use Rattle.tc_space.specs.Effects.{Changes, Outcome};
ghost use Rattle.tc_space.specs.Frames.{OnlyWrites};
ghost use Rattle.hf_tree.specs.Links.{place_of, width};
ghost use Rattle.hf_chain.specs.Limits.{FaultOrFull, IsFull, LinkInside, linked};

use crate::heads::place_named;
use hf_head::Head;
use hf_tree::Parent;
use tc_base::set_le;
use tc_space::{RecErr, Space};

// Where a link of so many bytes stands; the greatest number where it is past that.
fn place(of: &Parent, width: u64) -> u64
    requires few { width ≤ 8 }
    ensures exact { place_of width of.now < 2 ^ 64 → result ≡ place_of width of.now }
    ensures most { result ≤ place_of width of.now }
{
    match of {
        Parent::Bucket(b) => place_named(width, *b).saturating_add(256),
        Parent::Left(p) => (*p).saturating_add(2),
        Parent::Right(p) => (*p).saturating_add(2 + width),
    }
}

// The bytes of a stored place, in the front of eight.
fn stored(width: usize, n: u64) -> [u8; 8]
    requires some { 1 ≤ width }
    requires few { width ≤ 8 }
    requires fits { n < 256 ^ width }
    ensures { take width result ≡ le_bytes width n }
{
    let mut bytes = [0; 8];
    set_le(&mut bytes, 0, width, n);
    bytes
}

/// Sets a link to a stored place. After a refusal the space isn't sound.
pub fn set_link<S: Space>(
    space: &mut S,
    file: u32,
    head: &Head,
    to: &Parent,
    n: u64,
) -> Result<(), RecErr>
    requires sound { S.sound space.old }
    requires file { IsDataFile file }
    requires fits { n < 256 ^ width head.now }
    requires inside { S.tells → LinkInside head.now to.now (S.now space.old file) }
    ensures wrote { OnOk result (S.tells → Changes S.now file (linked head.now to.now n (S.now space.old file)) space.old space.new) }
    ensures outcome { Outcome S.sound S.flag result space.new }
    ensures writes { OnlyWrites S.Space space.old space.new }
    ensures full { IsErrOf result RecErr.Full → IsFull S.Space head.now file space.old space.new }
    ensures cause { FaultOrFull S.Space result space.old space.new }
{
    let width = head.width();
    // a link lies inside the file, and so a place is no greater
    let at = place(to, width).min(space.len(file));
    space.write(file, at, &stored(width as usize, n)[..width as usize])?;
    Ok(())
}
