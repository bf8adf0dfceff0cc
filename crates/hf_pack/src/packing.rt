//! The blocks of all records moved to the front.
ghost use Rattle.std.specs.Prelude.{◌≡◌, ◌⊎◌, ◌+◌, ◌*◌, ◌≤◌, length, take, false, IfOk, OnOk, OnErr};
ghost use Rattle.tc_space.specs.Frames.{Keeps, OnlyReads, Others};
ghost use Rattle.tc_space.specs.Refusals.{OnFault, OnlyLogIsFull};
ghost use Rattle.tc_space.specs.Stores.{Only};
ghost use Rattle.hf_tree.specs.Links.{width};
ghost use Rattle.hf_tree.specs.Listing.{WereListed};
ghost use Rattle.hf_chain.specs.Files.{IsOpenFile};
ghost use Rattle.hf_pack.specs.Effects.{WritesOver};
ghost use Rattle.hf_pack.specs.Packing.{EntriesFit, Packs, PacksBy, PacksEntries, PacksRecords};

use crate::entries::rename_entries;
use crate::moving::move_records;
use crate::renaming::targets;
use crate::stream::Stream;
use hf_block::Blocks;
use hf_head::Head;
use std::alloc::Global;
use std::collections::BTreeMap;
use tc_space::{RecErr, Space};

// Moves the records of a list of blocks to the first block's place on: where they end. After a refusal the space isn't sound.
fn pack_records<S: Space>(
    alloc: Global,
    space: &mut S,
    file: u32,
    head: &Head,
    blocks: &Blocks,
    targets: &BTreeMap<u64, u64>,
) -> Result<u64, RecErr>
    requires ready { IsOpenFile S.Space head.now file space.old }
    requires listed { S.tells → WereListed head.now (S.now space.old file) blocks.now }
    ensures packed { IfOk result (PacksRecords S.Space head.now file targets.now blocks.now space.old space.new) }
    ensures writes { WritesOver S.Space file result space.old space.new }
{
    let mut stream = Stream::new(alloc, head.first);
    move_records(space, file, head, blocks, targets, &mut stream)?;
    stream.flush(space, file)?;
    Ok(stream.end().min(space.len(file)))
}

// Renames the entries of all buckets. After a refusal the space isn't sound.
fn pack_entries<S: Space>(
    alloc: Global,
    space: &mut S,
    file: u32,
    head: &Head,
    targets: &BTreeMap<u64, u64>,
) -> Result<(), RecErr>
    requires ready { IsOpenFile S.Space head.now file space.old }
    requires inside { S.tells → 256 + width head.now * head.now.buckets ≤ length (S.now space.old file) }
    ensures renamed { OnOk result (PacksEntries S.Space head.now file targets.now space.old space.new) }
    ensures low { OnOk result (EntriesFit S.Space head.now file targets.now space.old) }
    ensures writes { WritesOver S.Space file result space.old space.new }
{
    let mut stream = Stream::new(alloc, 256);
    rename_entries(space, file, head, targets, &mut stream)?;
    stream.flush(space, file)?;
    Ok(())
}

// Moves the records and renames what names them, with their new places: where they end. After a refusal the space isn't sound.
fn pack_with<S: Space>(
    alloc: Global,
    space: &mut S,
    file: u32,
    head: &Head,
    blocks: &Blocks,
    targets: &BTreeMap<u64, u64>,
) -> Result<u64, RecErr>
    requires ready { IsOpenFile S.Space head.now file space.old }
    requires listed { S.tells → WereListed head.now (S.now space.old file) blocks.now }
    ensures packed { IfOk result (PacksBy S.Space head.now file targets.now blocks.now space.old space.new) }
    ensures head { OnOk result (S.tells → take 256 (S.now space.new file) ≡ take 256 (S.now space.old file)) }
    ensures writes { WritesOver S.Space file result space.old space.new }
{
    let end = pack_records(alloc, space, file, head, blocks, targets)?;
    pack_entries(alloc, space, file, head, targets)?;
    Ok(end)
}

/// Moves the blocks of all records to the front, in ascending place, and renames the links that name them: where the blocks end then. The blocks are those
/// of the file, up to its head's size. Of each piece of 64 KiB only what differs from what stands there is written, and the head stays. After a refusal the
/// space isn't sound, or nothing has changed.
pub fn pack_blocks<S: Space>(
    alloc: Global,
    space: &mut S,
    file: u32,
    head: &Head,
    blocks: &Blocks,
) -> Result<u64, RecErr>
    requires ready { IsOpenFile S.Space head.now file space.old }
    requires listed { S.tells → WereListed head.now (S.now space.old file) blocks.now }
    ensures packed { IfOk result (Packs S.Space head.now file blocks.now space.old space.new) }
    ensures head { OnOk result (S.tells → take 256 (S.now space.new file) ≡ take 256 (S.now space.old file)) }
    ensures done { OnOk result (S.sound space.new × Others S.Space (Only file) space.old space.new) }
    ensures refused { OnErr result ((S.flag space.new ≡ false) ⊎ OnlyReads S.Space space.old space.new) }
    ensures keeps { Keeps S.Space space.old space.new }
    ensures full { OnlyLogIsFull S.Space result space.new }
    ensures cause { OnFault S.Space result space.old space.new }
{
    let all = targets(alloc, head.first, blocks)?;
    let end = pack_with(alloc, space, file, head, blocks, &all)?;
    Ok(end)
}
