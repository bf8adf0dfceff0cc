//! The blocks of a file, from the first to the file size.
ghost use Rattle.std.specs.Prelude.{◌≡◌, ℕ, ◌+◌, ◌-◌, ◌≤◌, ◌<◌, ◌^◌, ◌⊎◌, List, length, take, drop, min, IfOk, IfErr, OnErr, IsErrOf, Err, MatchResult, IfSome, IfNone, MatchOption};
ghost use Rattle.tc_io.specs.Causes.{HasCause};
ghost use Rattle.tc_base.specs.declared.kind.Rule.{Rule};
ghost use Rattle.tc_space.specs.Ranges.{IsDataFile};
ghost use Rattle.hf_head.specs.Heads.{IsValid, is_large, wide, unit as head_unit};
ghost use Rattle.hf_block.specs.Heads.{Fits};
ghost use Rattle.hf_block.specs.Pieces.{Piece, IsFilled, IsSize, placed};
ghost use Rattle.hf_block.specs.Rows.{StandInRow};
ghost use Rattle.hf_block.specs.Walks.{GoesOn, HasNext, HasWalked, HoldsUpTo, IsChunk, LacksBlocks, NoneFill, NotFilled, OfAll, OfAllUpTo, OnBroken, Walked, between, is_free_block, total};
ghost use Rattle.tc_space.specs.Frames.{OnlyReads};
ghost use Rattle.tc_space.specs.Refusals.{Blamed};

use crate::block::{Block, BlockAt, Blocks};
use crate::reading::read_block;
use hf_head::Head;
use std::alloc::{AllocError, Global};
use tc_base::{FOUR_BYTES_END, Fault, Rule};
use tc_reach::ReadErr;
use tc_space::Space;
use thiserror::Error;

/// Why the blocks of a file aren't listed.
#[derive(Clone, Copy, Debug, PartialEq, Eq, Error)]
pub enum WalkErr {
    /// A rule of the layout doesn't hold.
    #[error("rule {} is broken", .0.number)]
    Broken(Rule),
    #[error("a call of the volume failed")]
    Fault,
    #[error("out of memory")]
    Memory,
}

impl From<Fault> for WalkErr {
    ghost use Rattle.hf_block.specs.declared.walking.WalkErr.TheVariants.{Fault as is_fault};

    ghost from_gives = { λ _ e. e ≡ is_fault };

    fn from(_: Fault) -> Self {
        WalkErr::Fault
    }
}

impl From<AllocError> for WalkErr {
    ghost use Rattle.hf_block.specs.declared.walking.WalkErr.TheVariants.{Memory as is_memory};

    ghost from_gives = { λ _ e. e ≡ is_memory };

    fn from(_: AllocError) -> Self {
        WalkErr::Memory
    }
}

impl From<ReadErr> for WalkErr {
    ghost use Rattle.hf_block.specs.Errors.{walk_of};

    ghost from_gives = { λ r e. e ≡ walk_of r };

    fn from(e: ReadErr) -> Self {
        match e {
            ReadErr::Fault => WalkErr::Fault,
            ReadErr::Memory => WalkErr::Memory,
        }
    }
}

/// The rule that whole blocks stand from the first to the file size.
pub const WHOLE_BLOCKS: Rule = Rule {
    letter: b'L',
    number: 3,
};

// The bytes of the block whose head this is, where a block of a file with that unit may have so many.
fn measure(block: &Block, unit: u64, large: bool) -> Option<u64>
    requires fits { Fits (wide large) block.now }
    requires unit { 1 ≤ unit }
    ensures some { IfSome result (λ n. (n ≡ total block.now) × IsSize unit n) }
    ensures none { IfNone result (IsSize unit (total block.now) → ⊥) }
{
    let size = match block {
        Block::Free { size } => *size,
        Block::Rec {
            pad,
            key,
            value,
            head,
            ..
        } => {
            if *key >= FOUR_BYTES_END || *value >= FOUR_BYTES_END {
                return None;
            }
            *head + *key + *value + u64::from(*pad)
        }
    };
    if size % unit != 0 || size >= FOUR_BYTES_END {
        return None;
    }
    Some(size)
}

/// The block whose first bytes these are, and how many it has, where so many bytes are left up to the end: a whole block stands there then.
/// `None` only where whole blocks with such chains don't fill the bytes up to the end. The first 40 bytes are enough.
pub fn next_block(front: &[u8], left: u64, unit: u64, large: bool) -> Option<(u64, Block)>
    requires some { 0 < length front.now }
    requires within { length front.now ≤ left }
    requires enough { (length front.now ≡ left) ⊎ (40 ≤ length front.now) }
    requires unit { 5 ≤ unit }
    ensures some { IfSome result (λ m. IsSize unit m.0 × (m.0 ≤ left)) }
    ensures next { IfSome result (λ m. OfAll front.now left (HasNext (wide large) unit m.0 m.1)) }
    ensures none { IfNone result (OfAll front.now left (NotFilled (wide large) unit)) }
{
    let Ok(block) = read_block(front, large) else {
        return None;
    };
    let Some(size) = measure(&block, unit, large) else {
        return None;
    };
    if size > left {
        return None;
    }
    Some((size, block))
}

// Whether it is the head of a free block.
fn is_free(block: &Block) -> bool
    ensures { result ≡ is_free_block block.now }
{
    match block {
        Block::Rec { .. } => false,
        Block::Free { .. } => true,
    }
}

// Lists the blocks of a chunk of bytes from place `at` on, and answers where the next block begins. The last block may end
// behind the chunk.
fn walk_chunk(
    chunk: &[u8],
    at: u64,
    end: u64,
    unit: u64,
    large: bool,
    list: &mut Blocks,
) -> Result<u64, WalkErr>
    requires chunk { IsChunk at (length chunk.now) end }
    requires unit { 5 ≤ unit }
    ensures on { IfOk result (λ next. GoesOn unit at next end list.old list.new) }
    ensures walked { IfOk result (λ next. OfAllUpTo chunk.now at end (λ bytes. Walked (wide large) unit at next bytes list.old list.new)) }
    ensures rule { OnBroken result (λ rule. rule ≡ WHOLE_BLOCKS) }
    ensures broken { OnBroken result (λ _. OfAllUpTo chunk.now at end (NotFilled (wide large) unit)) }
    ensures no_fault { IsErrOf result WalkErr.Fault → ⊥ }
{
    let len = chunk.len() as u64;
    let mut next = at;
    while next - at < len && (len - (next - at) >= 40 || at + len == end) {
        let front = &chunk[(next - at) as usize..];
        let Some((size, block)) = next_block(front, end - next, unit, large) else {
            return Err(WalkErr::Broken(WHOLE_BLOCKS));
        };
        list.push(BlockAt {
            place: next,
            size,
            free: is_free(&block),
        })?;
        next += size;
    }
    Ok(next)
}

// Lists the blocks of as many bytes of the file as the chunk has room for, from place `at` on.
fn walk_piece<S: Space>(
    space: &mut S,
    file: u32,
    at: u64,
    end: u64,
    unit: u64,
    large: bool,
    chunk: &mut [u8],
    blocks: &mut Blocks,
) -> Result<u64, WalkErr>
    requires holds { HoldsUpTo S.Space space.old file end }
    requires chunk { IsChunk at (length chunk.old) end }
    requires unit { 5 ≤ unit }
    ensures on { IfOk result (λ next. GoesOn unit at next end blocks.old blocks.new) }
    ensures walked { IfOk result (λ next. S.tells → Walked (wide large) unit at next (between at end (S.now space.old file)) blocks.old blocks.new) }
    ensures broken { OnBroken result (NoneFill S.tells (wide large) unit (between at end (S.now space.old file))) }
    ensures reads { OnlyReads S.Space space.old space.new }
    ensures cause { Blamed S.Space (IsErrOf result WalkErr.Fault) space.old space.new }
{
    space.read(file, at, chunk)?;
    walk_chunk(chunk, at, end, unit, large, blocks)
}

/// The blocks of a file from the head's first block to its file size, in ascending place, whatever the space tells. It reads each block's head once, many
/// blocks at a time. `Broken` comes exactly where whole blocks don't stand there one after the other.
pub fn walk<S: Space>(
    alloc: Global,
    space: &mut S,
    file: u32,
    head: &Head,
) -> Result<Blocks, WalkErr>
    requires sound { S.sound space.old }
    requires file { IsDataFile file }
    requires head { IsValid head.now }
    requires inside { S.tells → head.now.size ≤ length (S.now space.old file) }
    ensures row { IfOk result (StandInRow (head_unit head.now) head.now.first head.now.size) }
    ensures listed { IfOk result (λ blocks. S.tells → HasWalked head.now (S.now space.old file) blocks) }
    ensures broken { OnBroken result (LacksBlocks S.tells head.now head.now.first (S.now space.old file)) }
    ensures reads { OnlyReads S.Space space.old space.new }
    ensures cause { Blamed S.Space (IsErrOf result WalkErr.Fault) space.old space.new }
{
    let unit = head.unit();
    let large = head.is_large();
    let end = head.size;
    let mut blocks = Blocks::new(alloc);
    let mut chunk = [0; 16384];
    let mut at = head.first;
    while at < end {
        let len = (end - at).min(16384) as usize;
        at = walk_piece(
            space,
            file,
            at,
            end,
            unit,
            large,
            &mut chunk[..len],
            &mut blocks,
        )?;
    }
    Ok(blocks)
}
