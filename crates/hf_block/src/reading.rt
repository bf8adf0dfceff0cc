//! The head of a block at the front of bytes.
ghost use Rattle.std.specs.Prelude.{◌≡◌, ◌↔◌, ◌+◌, ◌*◌, ◌≤◌, length, IfOk, IfSome, Ok, Err};
ghost use Rattle.tc_base.specs.Reading.{Gives};
ghost use Rattle.tc_base.specs.Vnum.{vnum};
ghost use Rattle.hf_head.specs.Heads.{wide};
ghost use Rattle.hf_block.specs.declared.block.Block.{Block};
ghost use Rattle.hf_block.specs.Heads.{BeginsWith, Fits, HasNoHead, IsCutShort, IsPrefix, head_bytes};
ghost use Rattle.hf_block.specs.Fronts.{rec_front, free_front, block_front};

use crate::block::Block;
use tc_base::{NotWhole, read_le, read_number, vnum_len};
use thiserror::Error;

/// Why no block's head is read.
#[derive(Clone, Copy, Debug, PartialEq, Eq, Error)]
pub enum BlockErr {
    /// The bytes are less than a block's head: some bytes behind them make it whole.
    #[error("the block's head is cut short")]
    Short,
    /// No block's head begins so.
    #[error("not a block")]
    Bad,
}

// The bytes of a chain.
pub(crate) fn width(large: bool) -> usize
    ensures value { result ≡ wide large }
    ensures some { 4 ≤ result }
    ensures most { result ≤ 8 }
{
    if large { 8 } else { 4 }
}

// The bytes before the key of a record with a key and a value of these sizes.
pub(crate) fn head_len(key: u64, value: u64, large: bool) -> u64
    ensures value { result ≡ 4 + 2 * wide large + length (vnum key) + length (vnum value) }
    ensures most { result ≤ 40 }
{
    4 + 2 * width(large) as u64 + vnum_len(key) as u64 + vnum_len(value) as u64
}

// The number that four bytes spell, the least first.
fn number(a: u8, b: u8, c: u8, d: u8) -> u64
    ensures { result ≡ a + 256 * (b + 256 * (c + 256 * d)) }
{
    let low = u64::from(b) * 256 + u64::from(a);
    let high = u64::from(d) * 256 + u64::from(c);
    high * 65_536 + low
}

// What stands behind the first byte of a record with chains of 4 bytes, where all of it does: the numbers of four bytes are read at once.
fn read_narrow(bytes: &[u8]) -> Option<(Block, &[u8])>
    ensures { IfSome result (λ x. rec_front 4 bytes.now ≡ Ok (x.0, x.1.now)) }
{
    let [hash, a, b, c, d, e, f, g, h, low, high, sizes @ ..] = bytes else {
        return None;
    };
    let Ok((key, behind)) = read_number(sizes) else {
        return None;
    };
    let Ok((value, rest)) = read_number(behind) else {
        return None;
    };
    let block = Block::Rec {
        hash: *hash,
        left: number(*a, *b, *c, *d),
        right: number(*e, *f, *g, *h),
        pad: u16::from(*high) * 256 + u16::from(*low),
        key,
        value,
        head: head_len(key, value, false),
    };
    Some((block, rest))
}

// What stands behind the first byte of a record.
#[tactic(auto, unfolding(crate::specs::Fronts::rec_front))]
fn read_rec(bytes: &[u8], large: bool) -> Result<(Block, &[u8]), NotWhole>
    ensures { Gives (λ x. (x.0, x.1.now)) result (rec_front (wide large) bytes.now) }
{
    if !large {
        if let Some(found) = read_narrow(bytes) {
            return Ok(found);
        }
    }
    let (hash, rest) = read_le(1, bytes)?;
    let (left, rest) = read_le(width(large), rest)?;
    let (right, rest) = read_le(width(large), rest)?;
    let (pad, rest) = read_le(2, rest)?;
    let (key, rest) = read_number(rest)?;
    let (value, rest) = read_number(rest)?;
    let block = Block::Rec {
        hash: hash as u8,
        left,
        right,
        pad: pad as u16,
        key,
        value,
        head: head_len(key, value, large),
    };
    Ok((block, rest))
}

// What stands behind the first byte of a free block.
#[tactic(auto, unfolding(crate::specs::Fronts::free_front))]
fn read_free(bytes: &[u8]) -> Result<(Block, &[u8]), NotWhole>
    ensures { Gives (λ x. (x.0, x.1.now)) result (free_front bytes.now) }
{
    let (size, rest) = read_le(4, bytes)?;
    if size == 0 {
        return Err(NotWhole::Bad);
    }
    Ok((Block::Free { size }, rest))
}

#[tactic(auto, unfolding(crate::specs::Fronts::block_front))]
fn read_front(bytes: &[u8], large: bool) -> Result<(Block, &[u8]), NotWhole>
    ensures { Gives (λ x. (x.0, x.1.now)) result (block_front (wide large) bytes.now) }
{
    match bytes {
        [] => Err(NotWhole::Part),
        [0xC8, rest @ ..] => read_rec(rest, large),
        [0xB0, rest @ ..] => read_free(rest),
        _ => Err(NotWhole::Bad),
    }
}

/// The head of the block at the front of the bytes, of a file in the large form or not; what stands behind it isn't looked at. It
/// takes no memory.
pub fn read_block(bytes: &[u8], large: bool) -> Result<Block, BlockErr>
    ensures found { IfOk result (λ b. BeginsWith (wide large) b bytes.now) }
    ensures again { (b : Block) → Fits (wide large) b → IsPrefix (head_bytes (wide large) b) bytes.now → result ≡ Ok b }
    ensures short { (result ≡ Err BlockErr.Short) ↔ IsCutShort (wide large) bytes.now }
    ensures bad { (result ≡ Err BlockErr.Bad) ↔ HasNoHead (wide large) bytes.now }
{
    match read_front(bytes, large) {
        Ok((block, _)) => Ok(block),
        Err(NotWhole::Part) => Err(BlockErr::Short),
        Err(NotWhole::Bad) => Err(BlockErr::Bad),
    }
}
