//! Records moved to where a stream stands, with other chains.
ghost use Rattle.std.specs.Prelude.{◌≡◌, ◌+◌, ◌*◌, take, OnOk};
ghost use Rattle.hf_head.specs.Heads.{IsValid};
ghost use Rattle.hf_tree.specs.Links.{width};
ghost use Rattle.hf_chain.specs.Files.{IsOpenFile};
ghost use Rattle.hf_pack.specs.Effects.{WritesOver};
ghost use Rattle.hf_pack.specs.Packing.{MayMove, MayMoveAll, Moves, MovesAll, front_as};
ghost use Rattle.hf_chain.specs.Fronts.{FitsLinks};

use crate::renaming::rename;
use crate::stream::Stream;
use hf_block::{BlockAt, Blocks, links_front};
use hf_chain::{RecHead, read_head};
use hf_head::Head;
use std::collections::BTreeMap;
use tc_reach::give_up;
use tc_space::{RecErr, Space};

// The first bytes of a record with other chains, up to behind those, in front of zeros.
fn new_front(head: &Head, rec: &RecHead, targets: &BTreeMap<u64, u64>) -> [u8; 18]
    requires head { IsValid head.now }
    requires fits { FitsLinks head.now rec.now }
    ensures { take (2 + 2 * width head.now) result ≡ front_as head.now targets.now rec.now }
{
    let left = rename(targets, head.unit(), rec.left);
    let right = rename(targets, head.unit(), rec.right);
    links_front(rec.hash, left, right, head.width() as usize)
}

// Moves the record of a block. After a refusal the space isn't sound.
fn move_record<S: Space>(
    space: &mut S,
    file: u32,
    head: &Head,
    block: &BlockAt,
    targets: &BTreeMap<u64, u64>,
    stream: &mut Stream,
) -> Result<(), RecErr>
    requires ready { IsOpenFile S.Space head.now file space.old }
    requires there { S.tells → MayMove head.now block.now stream.old (S.now space.old file) }
    ensures moved { OnOk result (Moves S.Space head.now file targets.now block.now stream.old stream.new space.old space.new) }
    ensures writes { WritesOver S.Space file result space.old space.new }
{
    let rec = match read_head(space, file, head, block.place) {
        Ok(rec) => rec,
        Err(e) => {
            give_up(space);
            return Err(RecErr::from(e));
        }
    };
    let front = new_front(head, &rec, targets);
    let long = 2 + 2 * head.width();
    stream.push(space, file, &front[..long as usize])?;
    let rest = block.size.saturating_sub(long);
    stream.copy(space, file, block.place.saturating_add(long), rest)
}

/// Moves the records of a list of blocks, one after the other. After a refusal the space isn't sound.
pub fn move_records<S: Space>(
    space: &mut S,
    file: u32,
    head: &Head,
    blocks: &Blocks,
    targets: &BTreeMap<u64, u64>,
    stream: &mut Stream,
) -> Result<(), RecErr>
    requires ready { IsOpenFile S.Space head.now file space.old }
    requires may { S.tells → MayMoveAll head.now blocks.now stream.old (S.now space.old file) }
    ensures moved { OnOk result (MovesAll S.Space head.now file targets.now blocks.now stream.old stream.new space.old space.new) }
    ensures writes { WritesOver S.Space file result space.old space.new }
{
    for i in 0..blocks.len() {
        let block = *blocks.at(i);
        if block.free {
            continue;
        }
        move_record(space, file, head, &block, targets, stream)?;
    }
    Ok(())
}
