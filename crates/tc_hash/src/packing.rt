//! Files packed.
ghost use Rattle.std.specs.Prelude.{◌≡◌, ◌⊎◌, ℕ, None, take, true, false, IfOk, OnOk, OnErr, IsErrOf};
ghost use Rattle.tc_space.specs.Changes.{same};
ghost use Rattle.tc_space.specs.Frames.{Keeps, OnlyReads, Others};
ghost use Rattle.tc_space.specs.Refusals.{OnFault, OnlyLogIsFull};
ghost use Rattle.tc_space.specs.Stores.{Only};
ghost use Rattle.hf_head.specs.Heads.{unit};
ghost use Rattle.hf_pool.specs.Pools.{frees};
ghost use Rattle.hf_record.specs.Fields.{HasFields};
ghost use Rattle.tc_hash.specs.Keeping.{CanCall, Refused, StaysOpen, Turns};
ghost use Rattle.tc_hash.specs.Listed.{CanList, OfBlocks};
ghost use Rattle.tc_hash.specs.Packing.{IsRepacked, LacksPacking, LeavesHead, MovesRecords, Packs, PacksAs, StaysNumbered};

use crate::hash::Hash;
use crate::walking::list_blocks;
use hf_block::Blocks;
use hf_head::Head;
use hf_pack::pack_blocks;
use hf_pool::Pool;
use std::alloc::Global;
use tc_base::{FILE_MOST, Form};
use tc_reach::give_up;
use tc_space::{RecErr, Space};

// The pool of a file without free blocks, whose blocks end at a place.
fn no_free_blocks(alloc: Global, head: &Head, end: u64) -> Result<Pool, RecErr>
    requires { HasFields head.now }
    ensures unit { IfOk result (λ pool. pool.unit ≡ unit head.now) }
    ensures size { IfOk result (λ pool. pool.size ≡ end) }
    ensures nothing { IfOk result (λ pool. (q : ℕ) → frees pool q ≡ None) }
    ensures noted { IfOk result (λ pool. pool.changed ≡ true) }
    ensures cause { (IsErrOf result RecErr.Fault → ⊥) × (IsErrOf result RecErr.Full → ⊥) }
{
    // blocks end at a multiple of the unit
    if end % head.unit() != 0 {
        return Err(RecErr::Memory);
    }
    let blocks = Blocks::new(alloc);
    Ok(Pool::build(alloc, &blocks, head.unit(), end, end)?)
}

// Moves the records of a file whose blocks end at its head's size to the front: where the blocks end then. After a refusal the space isn't sound, or
// nothing has changed.
fn pack_file<S: Space>(alloc: Global, space: &mut S, file: u32, head: &Head) -> Result<u64, RecErr>
    requires { CanList S.Space head.now file space.old }
    ensures packed { IfOk result (λ end. OfBlocks S.Space head.now file space.old (λ ps. IsRepacked head.now end ps (S.now space.old file) (S.now space.new file))) }
    ensures head { OnOk result (S.tells → take 256 (S.now space.new file) ≡ take 256 (S.now space.old file)) }
    ensures done { OnOk result (S.sound space.new × Others S.Space (Only file) space.old space.new) }
    ensures refused { OnErr result ((S.flag space.new ≡ false) ⊎ OnlyReads S.Space space.old space.new) }
    ensures keeps { Keeps S.Space space.old space.new }
    ensures full { OnlyLogIsFull S.Space result space.new }
    ensures cause { OnFault S.Space result space.old space.new }
{
    let blocks = list_blocks(alloc, space, file, head)?;
    pack_blocks(alloc, space, file, head, &blocks)
}

impl<S: Space> Hash<S> {
    // Packs the file in the form that it has. After a refusal the space isn't sound, or nothing has changed.
    fn pack_kept(&mut self, space: &mut S) -> Result<(), RecErr>
        requires { CanCall S.Space self.old space.old }
        ensures packed { OnOk result (Turns S.Space same self.old self.new space.old space.new) }
        ensures refused { OnErr result (Refused S.Space self.old self.new space.old space.new) }
        ensures full { OnlyLogIsFull S.Space result space.new }
        ensures keeps { Keeps S.Space space.old space.new }
        ensures stays { StaysOpen self.old self.new }
        ensures packs { OnOk result (Packs self.old.body.head.options self.new) }
        ensures moves { OnOk result (MovesRecords S.Space self.old self.new space.old space.new) }
        ensures cause { OnFault S.Space result space.old space.new }
    {
        let head = self.head_now();
        // of a file whose bytes are told it is so
        if head.size < head.first || head.size > FILE_MOST {
            return Err(RecErr::Memory);
        }
        let end = pack_file(self.body.alloc, space, self.body.file, &head)?;
        match no_free_blocks(self.body.alloc, &self.body.head, end) {
            Ok(pool) => {
                self.body.pool = pool;
                self.front = None;
                Ok(())
            }
            Err(e) => {
                give_up(space);
                Err(e)
            }
        }
    }

    /// Packs the file: no free block is left. In the form that it has, the blocks of all records are moved to the front, in ascending place. So the blocks end
    /// behind the bytes that those of the records have. A small file is written anew in the large form, with its records in the least blocks. It is full then
    /// where one has no room behind those of lesser keys, or what stands in front of them has none. A large one stays large, and its blocks are moved. `settle`
    /// brings the end of the blocks to the file. After a refusal the space isn't sound, or nothing has changed.
    pub fn pack(&mut self, space: &mut S, form: Form) -> Result<(), RecErr>
        requires { CanCall S.Space self.old space.old }
        ensures packed { OnOk result (Turns S.Space same self.old self.new space.old space.new) }
        ensures refused { OnErr result (Refused S.Space self.old self.new space.old space.new) }
        ensures full { IsErrOf result RecErr.Full → S.tells → LacksPacking form S.Space self.old space.old space.new }
        ensures keeps { Keeps S.Space space.old space.new }
        ensures stays { StaysNumbered self.old self.new }
        ensures left { OnErr result (LeavesHead S.Space self.old self.new space.new) }
        ensures packs { OnOk result (PacksAs form S.Space self.old self.new space.old space.new) }
        ensures cause { OnFault S.Space result space.old space.new }
    {
        match form {
            Form::Keep => self.pack_kept(space),
            Form::Large => {
                if self.body.head.is_large() {
                    return self.pack_kept(space);
                }
                self.enlarge(space)
            }
        }
    }
}
