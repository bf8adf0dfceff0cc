//! A file opened: its rules, checked one after the other.
ghost use Rattle.std.specs.Prelude.{◌≡◌, ◌≤◌, ◌^◌, length, take, IfOk, IfErr, IfSome, IfNone, OnOk, IsErrOf, Err};
ghost use Rattle.std.specs.FinMap.{get};
ghost use Rattle.tc_base.specs.Maps.{Map};
ghost use Rattle.tc_space.specs.Frames.{OnlyReads};
ghost use Rattle.tc_space.specs.Ranges.{IsDataFile};
ghost use Rattle.tc_space.specs.Refusals.{Blamed};
ghost use Rattle.hf_head.specs.Heads.{IsValid, Spells, head_in, unit};
ghost use Rattle.hf_block.specs.Rows.{StandApart};
ghost use Rattle.hf_block.specs.Walks.{HoldsUpTo};
ghost use Rattle.hf_layout.specs.Frees.{none};
ghost use Rattle.hf_pool.specs.Pools.{frees};
ghost use Rattle.hf_tree.specs.Standing.{StandsFor};
ghost use Rattle.hf_survey.specs.Surveys.{WasSurveyed};
ghost use Rattle.tc_hash.specs.Keeping.{holds};
ghost use Rattle.tc_hash.specs.Sections.{IsListOf, section_len, section_of};
ghost use Rattle.tc_hash.specs.Standing.{StandsWith};
ghost use Rattle.tc_hash.specs.Opening.{Breaks, HasHead, HasHeadIn, IsNoList, IsPoolOf, WasRead, broken_at, open_of};

use crate::hash::Hash;
use crate::section::{is_list, read_section, section_size};
use hf_block::WalkErr;
use hf_head::Head;
use hf_pool::Pool;
use hf_record::Body;
use hf_survey::{Survey, check, survey_blocks};
use std::alloc::Global;
use std::marker::PhantomData;
use tc_base::Rule;
use tc_reach::read_into;
use tc_space::{OpenErr, Space};

// A rule of this layout that doesn't hold.
fn broken(file: u32, number: u8) -> OpenErr
    ensures { result ≡ broken_at file number }
{
    OpenErr::Broken {
        file,
        rule: Rule {
            letter: b'L',
            number,
        },
    }
}

// A refusal of a walk as one of an opening, with the file.
fn refusal(file: u32, e: WalkErr) -> OpenErr
    ensures { result ≡ open_of file e }
{
    match e {
        WalkErr::Broken(rule) => OpenErr::Broken { file, rule },
        WalkErr::Fault => OpenErr::Fault,
        WalkErr::Memory => OpenErr::Memory,
    }
}

// The head that the bytes at the front are, if it is one of that type.
fn head_of(bytes: &[u8; 256], kind: u8) -> Option<Head>
    ensures some { IfSome result (λ h. IsValid h × Spells h bytes.now × (h.kind ≡ kind)) }
    ensures none { IfNone result ((h : Head) → IsValid h → Spells h bytes.now → h.kind ≡ kind → ⊥) }
{
    let Ok(head) = Head::read(bytes) else {
        return None;
    };
    if head.kind != kind {
        return None;
    }
    Some(head)
}

// The head of the file: the first rule.
fn load_head<S: Space>(space: &mut S, file: u32, kind: u8) -> Result<Head, OpenErr>
    requires sound { S.sound space.old }
    requires file { IsDataFile file }
    ensures valid { IfOk result (λ h. IsValid h × (h.kind ≡ kind)) }
    ensures head { IfOk result (λ h. S.tells → HasHead kind (S.now space.old file) h) }
    ensures broken { IfErr result (λ e. Breaks S.tells kind file (S.now space.old file) e) }
    ensures reads { OnlyReads S.Space space.old space.new }
    ensures cause { Blamed S.Space (IsErrOf result OpenErr.Fault) space.old space.new }
{
    let len = space.len(file);
    if len < 256 {
        return Err(broken(file, 1));
    }
    let mut bytes = [0; 256];
    read_into(space, file, 0, &mut bytes)?;
    match head_of(&bytes, kind) {
        Some(head) => Ok(head),
        None => Err(broken(file, 1)),
    }
}

// What stands in the file: the second and the third rule.
fn read_blocks<S: Space>(
    alloc: Global,
    space: &mut S,
    file: u32,
    head: &Head,
) -> Result<Survey, OpenErr>
    requires head { HasHeadIn S.Space space.old file head.now }
    ensures apart { IfOk result (λ s. StandApart (unit head.now) head.now.first head.now.size s.frees) }
    ensures found { IfOk result (λ s. S.tells → WasSurveyed head.now (S.now space.old file) s) }
    ensures broken { IfErr result (λ e. Breaks S.tells head.now.kind file (S.now space.old file) e) }
    ensures reads { OnlyReads S.Space space.old space.new }
    ensures cause { Blamed S.Space (IsErrOf result OpenErr.Fault) space.old space.new }
{
    let len = space.len(file);
    let size = head.size;
    if len < size {
        return Err(broken(file, 2));
    }
    match survey_blocks(alloc, space, file, head) {
        Ok(found) => Ok(found),
        Err(e) => Err(refusal(file, e)),
    }
}

// The pool section, read into `section`, which is as long, lists free blocks of the pool: the last rule.
fn judge_section<S: Space>(
    space: &mut S,
    file: u32,
    head: &Head,
    pool: &Pool,
    section: &mut [u8],
) -> Result<(), OpenErr>
    requires holds { HoldsUpTo S.Space space.old file head.now.first }
    requires head { IsValid head.now }
    requires size { pool.now.size ≤ 2 ^ 40 }
    requires unit { pool.now.unit ≡ unit head.now }
    requires section { length section.old ≡ section_len head.now }
    ensures list { OnOk result (S.tells → IsListOf (unit head.now) (frees pool.now) (section_of head.now (S.now space.old file))) }
    ensures other { IfErr result (λ e. IsNoList S.tells file (unit head.now) (frees pool.now) (section_of head.now (S.now space.old file)) e) }
    ensures reads { OnlyReads S.Space space.old space.new }
    ensures cause { Blamed S.Space (IsErrOf result OpenErr.Fault) space.old space.new }
{
    read_section(space, file, head, section)?;
    if !is_list(section, pool) {
        return Err(broken(file, 9));
    }
    Ok(())
}

// The pool section lists free blocks of the pool; memory for the section is taken meanwhile.
fn check_section<S: Space>(
    alloc: Global,
    space: &mut S,
    file: u32,
    head: &Head,
    pool: &Pool,
) -> Result<(), OpenErr>
    requires holds { HoldsUpTo S.Space space.old file head.now.first }
    requires head { IsValid head.now }
    requires size { pool.now.size ≤ 2 ^ 40 }
    requires unit { pool.now.unit ≡ unit head.now }
    ensures list { OnOk result (S.tells → IsListOf (unit head.now) (frees pool.now) (section_of head.now (S.now space.old file))) }
    ensures other { IfErr result (λ e. IsNoList S.tells file (unit head.now) (frees pool.now) (section_of head.now (S.now space.old file)) e) }
    ensures reads { OnlyReads S.Space space.old space.new }
    ensures cause { Blamed S.Space (IsErrOf result OpenErr.Fault) space.old space.new }
{
    let mut section = vec![in alloc; 0; section_size(head)]?;
    judge_section(space, file, head, pool, &mut section)
}

// The head and the free blocks, read from the file where all rules hold.
struct Parts {
    head: Head,
    pool: Pool,
}

// The free blocks of the file, once all blocks were passed: the other rules.
fn read_pool<S: Space>(
    alloc: Global,
    space: &mut S,
    file: u32,
    head: &Head,
    found: &Survey,
) -> Result<Pool, OpenErr>
    requires head { HasHeadIn S.Space space.old file head.now }
    requires apart { StandApart (unit head.now) head.now.first head.now.size found.now.frees }
    requires found { S.tells → WasSurveyed head.now (S.now space.old file) found.now }
    ensures pool { IfOk result (IsPoolOf head.now) }
    ensures read { IfOk result (λ pool. S.tells → WasRead head.now.kind (S.now space.old file) head.now (frees pool)) }
    ensures broken { IfErr result (λ e. Breaks S.tells head.now.kind file (S.now space.old file) e) }
    ensures reads { OnlyReads S.Space space.old space.new }
    ensures cause { Blamed S.Space (IsErrOf result OpenErr.Fault) space.old space.new }
{
    match check(alloc, space, file, head, &found.facts) {
        Ok(()) => {}
        Err(e) => return Err(refusal(file, e)),
    }
    let pool = Pool::build(alloc, &found.frees, head.unit(), head.first, head.size)?;
    check_section(alloc, space, file, head, &pool)?;
    Ok(pool)
}

// Reads head and free blocks, one rule after the other.
fn read_parts<S: Space>(alloc: Global, space: &mut S, file: u32, kind: u8) -> Result<Parts, OpenErr>
    requires sound { S.sound space.old }
    requires file { IsDataFile file }
    ensures valid { IfOk result (λ p. IsValid p.head × (p.head.kind ≡ kind)) }
    ensures pool { IfOk result (λ p. IsPoolOf p.head p.pool) }
    ensures read { IfOk result (λ p. S.tells → WasRead kind (S.now space.old file) p.head (frees p.pool)) }
    ensures broken { IfErr result (λ e. Breaks S.tells kind file (S.now space.old file) e) }
    ensures reads { OnlyReads S.Space space.old space.new }
    ensures cause { Blamed S.Space (IsErrOf result OpenErr.Fault) space.old space.new }
{
    let head = load_head(space, file, kind)?;
    let found = read_blocks(alloc, space, file, &head)?;
    let pool = read_pool(alloc, space, file, &head, &found)?;
    Ok(Parts { head, pool })
}

/// A file held open, with its head and its free blocks.
pub fn held_open<S: Space>(alloc: Global, file: u32, head: Head, pool: Pool) -> Hash<S>
    requires file { IsDataFile file }
    requires head { IsValid head }
    requires unit { pool.unit ≡ unit head }
    ensures body { (result.body.file ≡ file) × (result.body.head ≡ head) × (result.body.pool ≡ pool) }
    ensures rest { (result.records ≡ head.records) × (result.region ≡ head.opaque) × (result.front ≡ None) }
{
    let records = head.records;
    let region = head.opaque;
    Hash {
        body: Body {
            alloc,
            file,
            head,
            pool,
        },
        records,
        region,
        gets: 0,
        front: None,
        of: PhantomData,
    }
}

impl<S: Space> Hash<S> {
    /// Opens a file of a type: 0 for a hash file, 1 for the file of a tree, 3 for the rows of a table. Nothing is written.
    ///
    /// `Broken` comes exactly where a rule of the layout fails, and names the first: the head (1), the length (2), whole blocks (3), what links
    /// name (4), how often records are reached (5), their buckets and hashes (6), their order (7) and count (8), and the list of free blocks (9).
    pub fn open(alloc: Global, space: &mut S, file: u32, kind: u8) -> Result<Hash<S>, OpenErr>
        requires sound { S.sound space.old }
        requires file { IsDataFile file }
        ensures file { IfOk result (λ h. (h.body.file ≡ file) × (h.body.head.kind ≡ kind)) }
        ensures stands { IfOk result (λ h. S.tells → (m : Map) × StandsWith kind (S.now space.old file) m h.region) }
        ensures holds { IfOk result (λ h. S.tells → (m : Map) → StandsFor kind (S.now space.old file) (get m) → holds h (S.now space.new file) m) }
        ensures head { IfOk result (λ h. S.tells → head_in (take 256 (S.now space.new file)) ≡ h.body.head) }
        ensures broken { IfErr result (λ e. Breaks S.tells kind file (S.now space.old file) e) }
        ensures reads { OnlyReads S.Space space.old space.new }
        ensures cause { Blamed S.Space (IsErrOf result OpenErr.Fault) space.old space.new }
    {
        let Parts { head, pool } = read_parts(alloc, space, file, kind)?;
        Ok(held_open(alloc, file, head, pool))
    }
}
