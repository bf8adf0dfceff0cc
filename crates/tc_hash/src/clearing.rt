//! All keys taken out.
#![tactic(auto, using(crate::specs::Keeping::leads_refl, tc_space::specs::Frames::keeps_refl, tc_space::specs::Frames::keeps_then, tc_space::specs::Frames::only_reads_refl, tc_space::specs::Frames::only_reads_then, tc_space::specs::Frames::only_writes_refl, tc_space::specs::Frames::only_writes_then))]

ghost use Rattle.std.specs.Prelude.{◌≡◌, ◌⊎◌, ◌-◌, ◌<◌, ◌≤◌, ◌++◌, length, replicate, OnOk, OnErr, IsErrOf, None};
ghost use Rattle.std.specs.FinMap.{empty};
ghost use Rattle.tc_space.specs.Effects.{Changes, Outcome};
ghost use Rattle.tc_space.specs.Frames.{Keeps};
ghost use Rattle.tc_space.specs.Ranges.{IsDataFile};
ghost use Rattle.tc_space.specs.Refusals.{OnFault, OnlyLogIsFull};
ghost use Rattle.hf_head.specs.Heads.{Spells, is_large, spelled, unit};
ghost use Rattle.tc_reach.specs.Limits.{AreZeros};
ghost use Rattle.tc_hash.specs.Creating.{Clears, IsNew, with_region};
ghost use Rattle.hf_record.specs.Fields.{HasFields};
ghost use Rattle.tc_hash.specs.Keeping.{CanCall, Refused, SameMap, SameShape, Turns};

use crate::create::{PIECE, new_head, new_pool, write_new};
use crate::hash::Hash;
use hf_head::Head;
use hf_pool::Pool;
use hf_record::Body;
use tc_reach::cut_to;
use tc_space::{RecErr, Space};

// The head of a file without blocks, with the numbers and in the form of a head.
fn head_anew(head: &Head) -> Head
    requires { HasFields head.now }
    ensures new { IsNew head.now.kind head.now.apow head.now.fpow head.now.buckets (is_large head.now) result }
    ensures low { result.first ≤ head.now.first }
    ensures fields { HasFields result }
{
    new_head(
        head.kind,
        head.apow,
        head.fpow,
        head.buckets,
        head.is_large(),
    )
}

/// A head with a region.
pub(crate) fn head_with(head: &Head, region: &[u8; 128]) -> Head
    ensures { result ≡ with_region head.now region.now }
{
    Head {
        kind: head.kind,
        apow: head.apow,
        fpow: head.fpow,
        options: head.options,
        buckets: head.buckets,
        records: head.records,
        size: head.size,
        first: head.first,
        opaque: *region,
    }
}

/// Cuts a file, and writes a head and zeros behind it. After a refusal the space isn't sound.
pub(crate) fn write_anew<S: Space>(
    space: &mut S,
    file: u32,
    head: &Head,
    zeros: &[u8],
) -> Result<(), RecErr>
    requires always { (S.sound space.old) × IsDataFile file }
    requires long { 256 ≤ head.now.first }
    requires zeros { AreZeros zeros.now }
    ensures wrote { OnOk result (S.tells → Changes S.now file (spelled head.now ++ replicate (head.now.first - 256) 0) space.old space.new) }
    ensures outcome { Outcome S.sound S.flag result space.new }
    ensures keeps { Keeps S.Space space.old space.new }
    ensures full { IsErrOf result RecErr.Full → S.tells → (S.limit space.old file < head.now.first) ⊎ S.log_full space.new }
    ensures spells { OnOk result (Spells head.now (spelled head.now) × (length (spelled head.now) ≡ 256)) }
    ensures cause { OnFault S.Space result space.old space.new }
{
    cut_to(space, file, 0)?;
    write_new(space, file, head, zeros)
}

impl<S: Space> Hash<S> {
    /// Holds no record, with this head and these free blocks. What stands in front of the blocks isn't known any more.
    pub(crate) fn empty(&mut self, head: Head, pool: Pool)
        requires head { HasFields head }
        requires unit { pool.unit ≡ unit head }
        ensures body { (self.new.body.file ≡ self.old.body.file) × (self.new.body.head ≡ head) × (self.new.body.pool ≡ pool) }
        ensures numbers { (self.new.records ≡ 0) × (self.new.front ≡ None) }
        ensures stays { (self.new.region ≡ self.old.region) × (self.new.gets ≡ self.old.gets) }
    {
        self.body = Body {
            alloc: self.body.alloc,
            file: self.body.file,
            head,
            pool,
        };
        self.records = 0;
        self.front = None;
    }

    /// Takes all keys out: the file is cut and made anew with the numbers and in the form that it has. It ends where its first block would begin, at the least place that it
    /// may have, and none is free.
    /// The region, which is in the head that is written, and the count of gets stay.
    /// After a refusal the space isn't sound, or nothing has changed.
    pub fn clear(&mut self, space: &mut S) -> Result<(), RecErr>
        requires { CanCall S.Space self.old space.old }
        ensures cleared { OnOk result (Turns S.Space (λ m. empty) self.old self.new space.old space.new) }
        ensures refused { OnErr result (Refused S.Space self.old self.new space.old space.new) }
        ensures full { OnlyLogIsFull S.Space result space.new }
        ensures keeps { Keeps S.Space space.old space.new }
        ensures stays { SameMap self.old self.new }
        ensures shape { SameShape self.old self.new }
        ensures made { OnOk result (Clears S.Space self.old self.new space.new) }
        ensures cause { OnFault S.Space result space.old space.new }
    {
        let head = head_anew(&self.body.head);
        let written = head_with(&head, &self.region);
        let zeros = vec![in self.body.alloc; 0; PIECE]?;
        let pool = new_pool(self.body.alloc, &head)?;
        write_anew(space, self.body.file, &written, &zeros)?;
        self.empty(head, pool);
        Ok(())
    }
}
