//! One pass over the blocks of a file.
ghost use Rattle.std.specs.Prelude.{◌≡◌, ℕ, ◌+◌, ◌<◌, ◌≤◌, [], length, true, false, IfOk, IfSome, OnOk, IsErrOf};
ghost use Rattle.tc_space.specs.Ranges.{IsDataFile};
ghost use Rattle.tc_space.specs.Frames.{OnlyReads};
ghost use Rattle.tc_space.specs.Refusals.{Blamed};
ghost use Rattle.hf_head.specs.Heads.{IsValid, unit};
ghost use Rattle.hf_block.specs.Pieces.{IsSize};
ghost use Rattle.hf_block.specs.Rows.{StandApart};
ghost use Rattle.hf_block.specs.Walks.{HasNext, IsChunk, LacksBlocks, NotFilled, OfAllUpTo, OnBroken};
ghost use Rattle.hf_tree.specs.Links.{width};
ghost use Rattle.hf_survey.specs.Passes.{Looks};
ghost use Rattle.hf_survey.specs.Surveys.{Added, Passed, Stand, WasSurveyed, WentOn, IsKeyIn, StoodOn, rest_of};

use crate::facts::{Facts, fact_behind, fact_in};
use hf_block::{Block, BlockAt, Blocks, WHOLE_BLOCKS, WalkErr, next_block};
use hf_chain::{RecHead, rec_of};
use hf_head::Head;
use std::alloc::{AllocError, Global};
use tc_reach::Window;
use tc_space::Space;

/// What a pass over the blocks of a file finds.
#[derive(Drop)]
pub struct Survey {
    /// What the rules ask of its records, in ascending place.
    pub facts: Facts,
    /// Its free blocks, in ascending place.
    pub frees: Blocks,
}

// The key behind a record's head, where all of it is among the record's first bytes.
fn key_of<'a>(front: &'a [u8], rec: &RecHead) -> Option<&'a [u8]>
    ensures { IfSome result (λ key. IsKeyIn rec.now front.now key.now) }
{
    let len = front.len() as u64;
    if rec.head > len || rec.key > len - rec.head {
        return None;
    }
    let start = rec.head as usize;
    Some(&front[start..start + rec.key as usize])
}

// Adds a block whose first bytes these are to what was found. False, and nothing is added, where its key isn't among them.
fn take_block(
    head: &Head,
    place: u64,
    front: &[u8],
    size: u64,
    block: &Block,
    found: &mut Survey,
) -> Result<bool, AllocError>
    requires { IsValid head.now }
    ensures added { IfOk result (λ is. is ≡ true → Added head.now place size block.now front.now found.old found.new) }
    ensures same { IfOk result (λ is. is ≡ false → found.new ≡ found.old) }
{
    let Some(rec) = rec_of(block) else {
        found.frees.push(BlockAt {
            place,
            size,
            free: true,
        })?;
        return Ok(true);
    };
    let Some(key) = key_of(front, &rec) else {
        return Ok(false);
    };
    let fact = fact_in(head, place, &rec, key);
    found.facts.push(fact)?;
    Ok(true)
}

// Adds the blocks of a chunk of bytes from place `at` on to what was found, up to the first whose key isn't all in the chunk, and answers where
// the next block begins. The last block may end behind the chunk.
fn survey_chunk(head: &Head, chunk: &[u8], at: u64, found: &mut Survey) -> Result<u64, WalkErr>
    requires head { IsValid head.now }
    requires chunk { IsChunk at (length chunk.now) head.now.size }
    ensures on { IfOk result (StoodOn head.now at found.old found.new) }
    ensures passed { IfOk result (λ next. OfAllUpTo chunk.now at head.now.size (λ bytes. Passed head.now at next bytes found.old found.new)) }
    ensures rule { OnBroken result (λ rule. rule ≡ WHOLE_BLOCKS) }
    ensures broken { OnBroken result (λ _. OfAllUpTo chunk.now at head.now.size (NotFilled (width head.now) (unit head.now))) }
    ensures no_fault { IsErrOf result WalkErr.Fault → ⊥ }
{
    let len = chunk.len() as u64;
    let end = head.size;
    let unit = head.unit();
    let large = head.is_large();
    let mut next = at;
    while next - at < len && (len - (next - at) >= 40 || at + len == end) {
        let front = &chunk[(next - at) as usize..];
        let Some((size, block)) = next_block(front, end - next, unit, large) else {
            return Err(WalkErr::Broken(WHOLE_BLOCKS));
        };
        if !take_block(head, next, front, size, &block, found)? {
            return Ok(next);
        }
        next += size;
    }
    Ok(next)
}

// Adds a block to what was found, whose head is read already and whose key may be long.
fn take_long<S: Space>(
    space: &mut S,
    file: u32,
    head: &Head,
    place: u64,
    size: u64,
    block: &Block,
    window: &mut Window,
    found: &mut Survey,
) -> Result<(), WalkErr>
    requires looks { Looks S.Space space.old file window.old }
    requires head { IsValid head.now }
    requires next { S.tells → HasNext (width head.now) (unit head.now) size block.now (rest_of head.now place (S.now space.old file)) }
    requires within { (place + size ≤ head.now.size) × (S.tells → head.now.size ≤ length (S.now space.old file)) }
    ensures stand { OnOk result (IsSize (unit head.now) size → Stand head.now place found.old → Stand head.now (place + size) found.new) }
    ensures passed { OnOk result (S.tells → Passed head.now place (place + size) (rest_of head.now place (S.now space.old file)) found.old found.new) }
    ensures looks { OnOk result (Looks S.Space space.new file window.new) }
    ensures reads { OnlyReads S.Space space.old space.new }
    ensures err { OnBroken result (λ _. ⊥) × Blamed S.Space (IsErrOf result WalkErr.Fault) space.old space.new }
{
    let None = rec_of(block) else {
        let fact = fact_behind(space, file, head, place, window)?;
        found.facts.push(fact)?;
        return Ok(());
    };
    found.frees.push(BlockAt {
        place,
        size,
        free: true,
    })?;
    Ok(())
}

// Adds one block to what was found, whose key may be long, and answers where it ends.
fn survey_one<S: Space>(
    space: &mut S,
    file: u32,
    head: &Head,
    at: u64,
    window: &mut Window,
    found: &mut Survey,
) -> Result<u64, WalkErr>
    requires looks { Looks S.Space space.old file window.old }
    requires head { IsValid head.now }
    requires within { (at < head.now.size) × (S.tells → head.now.size ≤ length (S.now space.old file)) }
    ensures on { IfOk result (λ next. WentOn S.tells head.now at next (S.now space.old file) found.old found.new) }
    ensures looks { OnOk result (Looks S.Space space.new file window.new) }
    ensures broken { OnBroken result (LacksBlocks S.tells head.now at (S.now space.old file)) }
    ensures reads { OnlyReads S.Space space.old space.new }
    ensures cause { Blamed S.Space (IsErrOf result WalkErr.Fault) space.old space.new }
{
    let left = head.size - at;
    let count = left.min(40) as usize;
    window.fill(space, file, at, count)?;
    let front = window.get(at, count);
    let Some((size, block)) = next_block(front, left, head.unit(), head.is_large()) else {
        return Err(WalkErr::Broken(WHOLE_BLOCKS));
    };
    take_long(space, file, head, at, size, &block, window, found)?;
    Ok(at + size)
}

// How many bytes are read at once.
const AT_ONCE: u64 = 65536;

// Adds the blocks of so many bytes from place `at` on, one at least, to what was found, and answers where the next begins.
fn survey_on<S: Space>(
    space: &mut S,
    file: u32,
    head: &Head,
    at: u64,
    window: &mut Window,
    found: &mut Survey,
) -> Result<u64, WalkErr>
    requires looks { Looks S.Space space.old file window.old }
    requires head { IsValid head.now }
    requires within { (at < head.now.size) × (S.tells → head.now.size ≤ length (S.now space.old file)) }
    ensures on { IfOk result (λ next. WentOn S.tells head.now at next (S.now space.old file) found.old found.new) }
    ensures looks { OnOk result (Looks S.Space space.new file window.new) }
    ensures broken { OnBroken result (LacksBlocks S.tells head.now at (S.now space.old file)) }
    ensures reads { OnlyReads S.Space space.old space.new }
    ensures cause { Blamed S.Space (IsErrOf result WalkErr.Fault) space.old space.new }
{
    let count = (head.size - at).min(AT_ONCE) as usize;
    window.fill(space, file, at, count)?;
    let next = survey_chunk(head, window.get(at, count), at, found)?;
    if next > at {
        return Ok(next);
    }
    survey_one(space, file, head, at, window, found)
}

// How many records room is made for at once. A head may name more than the file has.
const ROOM: u64 = 65536;

// Nothing was found yet. There is room for the head's number of records, as many as are made room for at once; it grows as they are found.
fn nothing_yet(alloc: Global, head: &Head) -> Result<Survey, AllocError>
    ensures { IfOk result (λ s. (s.facts ≡ []) × (s.frees ≡ [])) }
{
    let room = head.records.min(ROOM) as usize;
    let facts = Vec::with_capacity(alloc, room)?;
    Ok(Survey {
        facts: Facts::from_vec(facts),
        frees: Blocks::new(alloc),
    })
}

/// What stands from the head's first block to its file size: what the rules ask of each record, and the free blocks, whatever the space tells. It
/// reads those bytes once, many at a time, and a key that reaches far a second time. `Broken` comes exactly where whole blocks don't stand
/// there one after the other.
pub fn survey_blocks<S: Space>(
    alloc: Global,
    space: &mut S,
    file: u32,
    head: &Head,
) -> Result<Survey, WalkErr>
    requires sound { S.sound space.old }
    requires file { IsDataFile file }
    requires head { IsValid head.now }
    requires inside { S.tells → head.now.size ≤ length (S.now space.old file) }
    ensures apart { IfOk result (λ s. StandApart (unit head.now) head.now.first head.now.size s.frees) }
    ensures found { IfOk result (λ s. S.tells → WasSurveyed head.now (S.now space.old file) s) }
    ensures broken { OnBroken result (LacksBlocks S.tells head.now head.now.first (S.now space.old file)) }
    ensures reads { OnlyReads S.Space space.old space.new }
    ensures cause { Blamed S.Space (IsErrOf result WalkErr.Fault) space.old space.new }
{
    let mut window = Window::new(alloc);
    let mut found = nothing_yet(alloc, head)?;
    let mut at = head.first;
    while at < head.size {
        at = survey_on(space, file, head, at, &mut window, &mut found)?;
    }
    Ok(found)
}
