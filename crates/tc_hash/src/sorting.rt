//! The keys of a file, in order.
ghost use Rattle.std.specs.Prelude.{◌≡◌, ◌≤◌, ◌++◌, ◌∷◌, [], List, IfOk, OnOk};
ghost use Rattle.std.specs.FinMap.{keys};
ghost use Rattle.std.specs.Ordering.{nat_cmp};
ghost use Rattle.std.specs.Cmp.Lexicographic.{slice_cmp};
ghost use Rattle.std.specs.List.Sorted.{IsPermutation, IsSorted};
ghost use Rattle.tc_base.specs.Maps.{Map};
ghost use Rattle.tc_space.specs.Frames.{Keeps, OnlyReads};
ghost use Rattle.tc_space.specs.Ranges.{IsDataFile};
ghost use Rattle.tc_space.specs.Refusals.{Blames};
ghost use Rattle.hf_block.specs.Pieces.{Record, Piece};
ghost use Rattle.hf_chain.specs.Heads.{HasRecord, IsRecordAt};
ghost use Rattle.hf_tree.specs.Listing.{AreListed, WereListed};
ghost use Rattle.tc_reach.specs.Windows.{Shows};
ghost use Rattle.tc_hash.specs.Keeping.{CanCall, Looks, Means, StaysOpen};
ghost use Rattle.tc_hash.specs.Listed.{CanList, OfBlocks, keys_of};

use crate::hash::Hash;
use crate::walking::list_blocks;
use hf_block::Blocks;
use hf_chain::head_at;
use hf_head::Head;
use std::alloc::Global;
use tc_base::{Blob, Blobs, FILE_MOST, Steps};
use tc_reach::Window;
use tc_space::{RecErr, Space};

// Adds the key of the record at a place.
fn add_key<S: Space>(
    alloc: Global,
    space: &mut S,
    file: u32,
    head: &Head,
    place: u64,
    window: &mut Window,
    keys: &mut Blobs,
) -> Result<(), RecErr>
    requires sound { S.sound space.old }
    requires file { IsDataFile file }
    requires there { S.tells → IsRecordAt head.now place (S.now space.old file) × Shows window.old (S.now space.old file) }
    ensures added { OnOk result (S.tells → (r : Record) → HasRecord head.now r place (S.now space.old file) → keys.new ≡ keys.old ++ r.key ∷ []) }
    ensures shows { OnOk result (S.tells → Shows window.new (S.now space.old file)) }
    ensures reads { OnlyReads S.Space space.old space.new }
    ensures cause { Blames S.Space result space.old space.new }
{
    let rec = head_at(space, file, head, place, window)?;
    let start = place.saturating_add(rec.head);
    window.fill(space, file, start, rec.key as usize)?;
    let key = Blob::from_slice(alloc, window.get(start, rec.key as usize))?;
    keys.push(key)?;
    Ok(())
}

// The keys of the records of a list of blocks.
fn read_keys<S: Space>(
    alloc: Global,
    space: &mut S,
    file: u32,
    head: &Head,
    blocks: &Blocks,
) -> Result<Blobs, RecErr>
    requires sound { S.sound space.old }
    requires file { IsDataFile file }
    requires listed { S.tells → WereListed head.now (S.now space.old file) blocks.now }
    ensures keys { IfOk result (λ ks. S.tells → (ps : List Piece) → AreListed head.now ps (S.now space.old file) blocks.now → ks ≡ keys_of ps) }
    ensures reads { OnlyReads S.Space space.old space.new }
    ensures cause { Blames S.Space result space.old space.new }
{
    let mut window = Window::new(alloc);
    let mut keys = Blobs::new(alloc);
    for i in 0..blocks.len() {
        let block = *blocks.at(i);
        if block.free {
            continue;
        }
        add_key(
            alloc,
            space,
            file,
            head,
            block.place,
            &mut window,
            &mut keys,
        )?;
    }
    Ok(keys)
}

// Byte strings in ascending order.
fn sorted(list: Blobs) -> Blobs
    ensures same { IsPermutation list result }
    ensures order { IsSorted (slice_cmp nat_cmp) result }
{
    let mut items = list.into_vec();
    items.sort_unstable();
    Blobs::from_vec(items)
}

// The keys of a file whose blocks end at its head's size, in order.
fn list_keys<S: Space>(
    alloc: Global,
    space: &mut S,
    file: u32,
    head: &Head,
) -> Result<Blobs, RecErr>
    requires { CanList S.Space head.now file space.old }
    ensures keys { IfOk result (λ ks. OfBlocks S.Space head.now file space.old (λ ps. IsPermutation (keys_of ps) ks)) }
    ensures order { IfOk result (λ ks. IsSorted (slice_cmp nat_cmp) ks) }
    ensures reads { OnlyReads S.Space space.old space.new }
    ensures cause { Blames S.Space result space.old space.new }
{
    let listed = list_blocks(alloc, space, file, head)?;
    let keys = read_keys(alloc, space, file, head, &listed)?;
    Ok(sorted(keys))
}

impl<S: Space> Hash<S> {
    /// The keys, in ascending order of their bytes. It changes nothing.
    pub fn keys<L>(&mut self, space: &mut S, steps: &mut Steps<L>) -> Result<Blobs, RecErr>
        requires { CanCall S.Space self.old space.old }
        ensures value { IfOk result (λ all. (m : Map) → Means S.Space self.old space.old m → all ≡ keys m) }
        ensures reads { Looks S.Space self.old self.new space.old space.new }
        ensures keeps { Keeps S.Space space.old space.new }
        ensures stays { StaysOpen self.old self.new }
        ensures same { self.new ≡ self.old }
        ensures steps { steps.old ≤ steps.new }
        ensures cause { Blames S.Space result space.old space.new }
    {
        let _ = steps;
        let head = self.head_now();
        // of a file whose bytes are told it is so
        if head.size < head.first || head.size > FILE_MOST {
            return Err(RecErr::Memory);
        }
        list_keys(self.body.alloc, space, self.body.file, &head)
    }
}
