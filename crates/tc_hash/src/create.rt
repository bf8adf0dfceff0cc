//! A file made anew.
ghost use Rattle.std.specs.Prelude.{◌≡◌, ◌⊎◌, ℕ, ◌+◌, ◌-◌, ◌<◌, ◌≤◌, ◌^◌, ◌++◌, ◌%◌, ◌==◌, List, [], length, replicate, IfOk, OnOk, OnErr, IsErrOf, None, true, false};
ghost use Rattle.tc_space.specs.Effects.{Changes, Outcome};
ghost use Rattle.tc_space.specs.Frames.{Keeps, OnlyReads};
ghost use Rattle.tc_space.specs.Refusals.{OnFault};
ghost use Rattle.hf_head.specs.Heads.{Spells, spelled, unit};
ghost use Rattle.hf_layout.specs.Frees.{none};
ghost use Rattle.hf_layout.specs.Layout.{LaidOut};
ghost use Rattle.hf_pool.specs.Pools.{frees};
ghost use Rattle.tc_reach.specs.Limits.{AreZeros};
ghost use Rattle.tc_hash.specs.Creating.{Creates, HasNoRoom, IsEmptyIn, IsNew, MayBe};
ghost use Rattle.hf_record.specs.Fields.{HasFields};

use crate::hash::Hash;
use crate::open::held_open;
use crate::section::{section_place, section_size};
use crate::settle::spelling;
use hf_block::Blocks;
use hf_head::Head;
use hf_pool::Pool;
use std::alloc::{AllocError, Global};
use tc_base::FILE_MOST;
use tc_reach::{write_at, write_zeros};
use tc_space::{RecErr, Space};

/// The greatest number of zeros in one write.
pub(crate) const PIECE: usize = 65_536;

// The least multiple of a unit that isn't below a number.
fn least_multiple(n: u64, unit: u64) -> u64
    requires some { 1 ≤ unit }
    requires unit { unit ≤ 2 ^ 16 }
    requires low { n < 2 ^ 62 }
    ensures aligned { result % unit ≡ 0 }
    ensures least { (n ≤ result) × (result < n + unit) }
{
    let rest = n % unit;
    if rest == 0 {
        return n;
    }
    n - rest + unit
}

// The number of the form, as the options have it.
fn options_of(large: bool) -> u8
    ensures form { (result == 1) ≡ large }
    ensures most { result ≤ 1 }
{
    if large { 1 } else { 0 }
}

/// The head of a file without blocks.
pub(crate) fn new_head(kind: u8, apow: u8, fpow: u8, buckets: u64, large: bool) -> Head
    requires { MayBe kind apow fpow buckets }
    ensures new { IsNew kind apow fpow buckets large result }
    ensures most { result.first < 2 ^ 42 }
{
    let mut head = Head {
        kind,
        apow,
        fpow,
        options: options_of(large),
        buckets,
        records: 0,
        size: 0,
        first: 0,
        opaque: [0; 128],
    };
    let behind = section_place(&head) + section_size(&head) as u64;
    let first = least_multiple(behind, head.unit());
    head.first = first;
    head.size = first;
    head
}

/// Writes a head and zeros behind it into an empty file.
pub(crate) fn write_new<S: Space>(
    space: &mut S,
    file: u32,
    head: &Head,
    zeros: &[u8],
) -> Result<(), RecErr>
    requires empty { IsEmptyIn S.Space space.old file }
    requires long { 256 ≤ head.now.first }
    requires zeros { AreZeros zeros.now }
    ensures wrote { OnOk result (S.tells → Changes S.now file (spelled head.now ++ replicate (head.now.first - 256) 0) space.old space.new) }
    ensures outcome { Outcome S.sound S.flag result space.new }
    ensures keeps { Keeps S.Space space.old space.new }
    ensures full { IsErrOf result RecErr.Full → (S.limit space.old file < head.now.first) ⊎ S.log_full space.new }
    ensures spells { Spells head.now (spelled head.now) × (length (spelled head.now) ≡ 256) }
    ensures cause { OnFault S.Space result space.old space.new }
{
    write_at(space, file, 0, &spelling(head))?;
    write_zeros(space, file, 256, head.first, zeros)
}

/// The free blocks of a file without blocks.
pub(crate) fn new_pool(alloc: Global, head: &Head) -> Result<Pool, AllocError>
    requires valid { HasFields head.now }
    requires size { head.now.size ≡ head.now.first }
    ensures unit { IfOk result (λ pool. pool.unit ≡ unit head.now) }
    ensures size { IfOk result (λ pool. pool.size ≡ head.now.size) }
    ensures none { IfOk result (λ pool. (q : ℕ) → frees pool q ≡ None) }
    ensures noted { IfOk result (λ pool. pool.changed ≡ true) }
    ensures laid { IfOk result (λ pool. (bytes : List ℕ) → head.now.size ≤ length bytes → LaidOut (unit head.now) head.now.first head.now.size [] (frees pool) none bytes) }
{
    let blocks = Blocks::new(alloc);
    Pool::build(alloc, &blocks, head.unit(), head.first, head.size)
}

impl<S: Space> Hash<S> {
    /// Makes an empty file a hash file without records: of type 0, 1 or 3, with an alignment power from 4 to 16, a free pool power up to 20, and 1
    /// to 2^38 buckets, in the small or the large form. After a refusal the space isn't sound, or nothing has changed.
    pub fn create(
        alloc: Global,
        space: &mut S,
        file: u32,
        kind: u8,
        apow: u8,
        fpow: u8,
        buckets: u64,
        large: bool,
    ) -> Result<Hash<S>, RecErr>
        requires empty { IsEmptyIn S.Space space.old file }
        requires numbers { MayBe kind apow fpow buckets }
        ensures file { IfOk result (λ h. (h.body.file ≡ file) × IsNew kind apow fpow buckets large h.body.head) }
        ensures created { IfOk result (λ h. Creates S.Space file h space.old space.new) }
        ensures refused { OnErr result ((S.flag space.new ≡ false) ⊎ OnlyReads S.Space space.old space.new) }
        ensures keeps { Keeps S.Space space.old space.new }
        ensures full { IsErrOf result RecErr.Full → (h : Head) × IsNew kind apow fpow buckets large h × HasNoRoom (S.limit space.old file) (S.log_full space.new) h.first }
        ensures cause { OnFault S.Space result space.old space.new }
    {
        let head = new_head(kind, apow, fpow, buckets, large);
        if head.size > FILE_MOST {
            return Err(RecErr::Full);
        }
        let zeros = vec![in alloc; 0; PIECE]?;
        let pool = new_pool(alloc, &head)?;
        write_new(space, file, &head, &zeros)?;
        Ok(held_open(alloc, file, head, pool))
    }
}
