//! The entries of buckets, renamed.
ghost use Rattle.std.specs.Prelude.{◌≡◌, ◌*◌, ◌^◌, ◌≤◌, length, OnOk};
ghost use Rattle.std.specs.BTreeMap as tree;
ghost use Rattle.hf_tree.specs.Links.{width};
ghost use Rattle.hf_chain.specs.Files.{IsOpenFile};
ghost use Rattle.hf_pack.specs.Effects.{WritesOver};
ghost use Rattle.hf_pack.specs.Entries.{PushedNew, StandsAtEntries};
ghost use Rattle.hf_pack.specs.Moving.{AllFit, entries_as, renamed, renamed_by};
ghost use Rattle.hf_pack.specs.Streams.{LiesBehind};

use crate::renaming::rename;
use crate::stream::{PIECE, Stream};
use hf_head::Head;
use std::collections::BTreeMap;
use tc_base::{get_le, set_le};
use tc_space::{RecErr, Space};

// Renames entries that stand one after the other.
fn rename_each(
    targets: &BTreeMap<u64, u64>,
    unit: u64,
    width: usize,
    count: usize,
    entries: &mut [u8],
)
    requires unit { (1 ≤ unit) × (unit ≤ 2 ^ 16) }
    requires few { (1 ≤ width) × (width ≤ 8) }
    requires long { length entries.old ≡ width * count }
    ensures renamed { entries.new ≡ entries_as (renamed_by unit targets.now) width count entries.old }
    ensures low { AllFit (renamed_by unit targets.now) width count entries.old }
{
    for i in 0..count {
        let n = get_le(entries, width * i, width);
        set_le(entries, width * i, width, rename(targets, unit, n));
    }
}

// Renames so many entries, which lie in a file from a place on. After a refusal the space isn't sound.
fn rename_some<S: Space>(
    space: &mut S,
    file: u32,
    head: &Head,
    targets: &BTreeMap<u64, u64>,
    stream: &mut Stream,
    at: u64,
    count: usize,
) -> Result<(), RecErr>
    requires ready { IsOpenFile S.Space head.now file space.old }
    requires few { count ≤ 65536 }
    requires behind { LiesBehind S.Space file stream.old at (width head.now * count) space.old }
    ensures pushed { OnOk result (PushedNew S.Space head.now targets.now file at count stream.old stream.new space.old space.new) }
    ensures writes { WritesOver S.Space file result space.old space.new }
{
    let width = head.width() as usize;
    stream.load(space, file, at, width * count)?;
    rename_each(targets, head.unit(), width, count, &mut stream.room);
    stream.push_room(space, file)
}

/// Renames the entries of all buckets. After a refusal the space isn't sound.
pub fn rename_entries<S: Space>(
    space: &mut S,
    file: u32,
    head: &Head,
    targets: &BTreeMap<u64, u64>,
    stream: &mut Stream,
) -> Result<(), RecErr>
    requires ready { IsOpenFile S.Space head.now file space.old }
    requires inside { S.tells → StandsAtEntries head.now stream.old (S.now space.old file) }
    ensures pushed { OnOk result (PushedNew S.Space head.now targets.now file 256 head.now.buckets stream.old stream.new space.old space.new) }
    ensures writes { WritesOver S.Space file result space.old space.new }
{
    let width = head.width();
    let most = PIECE as u64 / width;
    let mut done: u64 = 0;
    while done < head.buckets {
        let count = (head.buckets - done).min(most);
        let at = 256 + width * done;
        rename_some(space, file, head, targets, stream, at, count as usize)?;
        done += count;
    }
    Ok(())
}
