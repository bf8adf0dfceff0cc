//! How many bytes all keys and values of a file have.
ghost use Rattle.std.specs.Prelude.{◌≡◌, ◌+◌, List, length, IfOk, IfSome, OnOk};
ghost use Rattle.tc_base.specs.Maps.{Map};
ghost use Rattle.tc_space.specs.Frames.{OnlyReads};
ghost use Rattle.tc_space.specs.Ranges.{IsDataFile};
ghost use Rattle.tc_space.specs.Refusals.{Blames};
ghost use Rattle.hf_block.specs.Pieces.{Record, Piece};
ghost use Rattle.hf_chain.specs.Heads.{HasRecord, IsRecordAt};
ghost use Rattle.hf_tree.specs.Listing.{AreListed, WereListed};
ghost use Rattle.tc_reach.specs.Windows.{Shows};
ghost use Rattle.tc_hash.specs.Keeping.{CanCall, Means};
ghost use Rattle.tc_hash.specs.Listed.{CanList, OfBlocks, bytes_in, bytes_of};

use crate::hash::Hash;
use crate::walking::list_blocks;
use hf_block::Blocks;
use hf_chain::head_at;
use hf_head::Head;
use std::alloc::Global;
use tc_base::FILE_MOST;
use tc_reach::Window;
use tc_space::{RecErr, Space};

// The sum of three numbers, if it has 64 bits.
fn sum_of(a: u64, b: u64, c: u64) -> Option<u64>
    ensures { IfSome result (λ n. n ≡ a + b + c) }
{
    a.checked_add(b)?.checked_add(c)
}

// The total with the bytes of the key and of the value of the record at a place.
fn add_bytes<S: Space>(
    space: &mut S,
    file: u32,
    head: &Head,
    place: u64,
    window: &mut Window,
    total: u64,
) -> Result<u64, RecErr>
    requires sound { S.sound space.old }
    requires file { IsDataFile file }
    requires there { S.tells → IsRecordAt head.now place (S.now space.old file) × Shows window.old (S.now space.old file) }
    ensures added { IfOk result (λ n. S.tells → (r : Record) → HasRecord head.now r place (S.now space.old file) → n ≡ total + length r.key + length r.value) }
    ensures shows { OnOk result (S.tells → Shows window.new (S.now space.old file)) }
    ensures reads { OnlyReads S.Space space.old space.new }
    ensures cause { Blames S.Space result space.old space.new }
{
    let rec = head_at(space, file, head, place, window)?;
    match sum_of(total, rec.key, rec.value) {
        Some(sum) => Ok(sum),
        None => Err(RecErr::Memory),
    }
}

// The bytes of the keys and values of the records of a list of blocks.
fn read_bytes<S: Space>(
    alloc: Global,
    space: &mut S,
    file: u32,
    head: &Head,
    blocks: &Blocks,
) -> Result<u64, RecErr>
    requires sound { S.sound space.old }
    requires file { IsDataFile file }
    requires listed { S.tells → WereListed head.now (S.now space.old file) blocks.now }
    ensures bytes { IfOk result (λ n. S.tells → (ps : List Piece) → AreListed head.now ps (S.now space.old file) blocks.now → n ≡ bytes_of ps) }
    ensures reads { OnlyReads S.Space space.old space.new }
    ensures cause { Blames S.Space result space.old space.new }
{
    let mut window = Window::new(alloc);
    let mut total = 0;
    for i in 0..blocks.len() {
        let block = *blocks.at(i);
        if block.free {
            continue;
        }
        total = add_bytes(space, file, head, block.place, &mut window, total)?;
    }
    Ok(total)
}

// The bytes of all keys and values of a file whose blocks end at its head's size.
fn sum_bytes<S: Space>(alloc: Global, space: &mut S, file: u32, head: &Head) -> Result<u64, RecErr>
    requires { CanList S.Space head.now file space.old }
    ensures bytes { IfOk result (λ n. OfBlocks S.Space head.now file space.old (λ ps. n ≡ bytes_of ps)) }
    ensures reads { OnlyReads S.Space space.old space.new }
    ensures cause { Blames S.Space result space.old space.new }
{
    let listed = list_blocks(alloc, space, file, head)?;
    read_bytes(alloc, space, file, head, &listed)
}

impl<S: Space> Hash<S> {
    /// The bytes of all keys and values. It changes nothing.
    pub fn bytes(&mut self, space: &mut S) -> Result<u64, RecErr>
        requires { CanCall S.Space self.old space.old }
        ensures value { IfOk result (λ n. (m : Map) → Means S.Space self.old space.old m → n ≡ bytes_in m) }
        ensures reads { OnlyReads S.Space space.old space.new }
        ensures same { self.new ≡ self.old }
        ensures cause { Blames S.Space result space.old space.new }
    {
        let head = self.head_now();
        // of a file whose bytes are told it is so
        if head.size < head.first || head.size > FILE_MOST {
            return Err(RecErr::Memory);
        }
        sum_bytes(self.body.alloc, space, self.body.file, &head)
    }
}
