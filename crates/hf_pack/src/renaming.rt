//! What links name once records have moved.
ghost use Rattle.std.specs.Prelude.{◌≡◌, ℕ, ◌^◌, ◌≤◌, IfOk};
ghost use Rattle.std.specs.BTreeMap as tree;
ghost use Rattle.hf_pack.specs.Packing.{AreTargets};
ghost use Rattle.hf_pack.specs.Moving.{renamed_by};

use hf_block::Blocks;
use hf_chain::place_named;
use std::alloc::{AllocError, Global};
use std::collections::BTreeMap;

/// Where each record of a list of blocks goes, if the first one goes to a place.
pub fn targets(alloc: Global, first: u64, blocks: &Blocks) -> Result<BTreeMap<u64, u64>, AllocError>
    ensures { IfOk result (AreTargets first blocks.now) }
{
    let mut all = BTreeMap::new(alloc);
    let mut to = first;
    for i in 0..blocks.len() {
        let block = *blocks.at(i);
        if block.free {
            continue;
        }
        let Ok(_) = all.insert(block.place, to) else {
            return Err(AllocError);
        };
        to = to.saturating_add(block.size);
    }
    Ok(all)
}

/// A stored link as it is then.
pub fn rename(targets: &BTreeMap<u64, u64>, unit: u64, n: u64) -> u64
    requires unit { (1 ≤ unit) × (unit ≤ 2 ^ 16) }
    ensures value { result ≡ renamed_by unit targets.now n }
    ensures low { result ≤ n }
{
    match targets.get(&place_named(unit, n)) {
        Some(place) => (*place / unit).min(n),
        None => 0,
    }
}
