//! Heads of records, and entries of buckets, as they stand in a file.
ghost use Rattle.std.specs.Prelude.{◌≡◌, ◌+◌, ◌*◌, ◌-◌, ◌^◌, ◌<◌, ◌≤◌, length, true, IfOk, IfSome, IfNone, OnOk, IsErrOf};
ghost use Rattle.tc_io.specs.Causes.{HasCause};
ghost use Rattle.tc_space.specs.Ranges.{IsDataFile};
ghost use Rattle.tc_space.specs.Frames.{OnlyReads};
ghost use Rattle.tc_space.specs.Refusals.{Blamed};
ghost use Rattle.tc_reach.specs.Windows.{Shows};
ghost use Rattle.hf_head.specs.Heads.{wide};
ghost use Rattle.hf_head.specs.Layout.{number_at};
ghost use Rattle.hf_block.specs.Walks.{is_free_block};
ghost use Rattle.hf_tree.specs.Links.{width, entry_at};
ghost use Rattle.hf_chain.specs.Heads.{IsHeadIn, IsHeadOf, capped, head_block};
ghost use Rattle.hf_chain.specs.Fronts.{FitsLinks, IsEnough};

use hf_block::{Block, read_block};
use hf_head::Head;
use tc_base::{Fault, get_le};
use tc_reach::{ReadErr, Window};
use tc_space::Space;

/// What the head of a record says.
#[derive(Clone, Copy, Drop, PartialEq, Eq)]
pub struct RecHead {
    /// The second hash of its key.
    pub hash: u8,
    /// The place of its left subtree, shifted right by the alignment power; 0 for none.
    pub left: u64,
    /// The place of its right subtree, shifted right by the alignment power; 0 for none.
    pub right: u64,
    /// The bytes of padding behind its value.
    pub pad: u16,
    /// The bytes of its key.
    pub key: u64,
    /// The bytes of its value.
    pub value: u64,
    /// The bytes before its key, at most 40.
    pub head: u64,
}

// The head of no record.
fn no_head() -> RecHead
    ensures left { result.left ≡ 0 }
    ensures right { result.right ≡ 0 }
    ensures head { result.head ≡ 0 }
{
    RecHead {
        hash: 0,
        left: 0,
        right: 0,
        pad: 0,
        key: 0,
        value: 0,
        head: 0,
    }
}

/// The head of a block that is a record; of a free block, none.
pub fn rec_of(block: &Block) -> Option<RecHead>
    ensures some { IfSome result (λ x. block.now ≡ head_block x) }
    ensures none { IfNone result (is_free_block block.now ≡ true) }
{
    match block {
        Block::Rec {
            hash,
            left,
            right,
            pad,
            key,
            value,
            head,
        } => Some(RecHead {
            hash: *hash,
            left: *left,
            right: *right,
            pad: *pad,
            key: *key,
            value: *value,
            head: *head,
        }),
        Block::Free { .. } => None,
    }
}

/// The head at the front of bytes; of none, zeros.
pub fn head_in(front: &[u8], large: bool) -> RecHead
    ensures head { IsHeadIn large front.now result }
    ensures chains { (result.left < 256 ^ wide large) × (result.right < 256 ^ wide large) }
    ensures small { result.head ≤ 40 }
{
    match read_block(front, large) {
        Ok(block) => match rec_of(&block) {
            Some(rec) => rec,
            None => no_head(),
        },
        Err(_) => no_head(),
    }
}

// The head of the record at a place, where the bytes to fill are all up to the end of the file, or 40 at least.
fn read_front<S: Space>(
    space: &mut S,
    file: u32,
    head: &Head,
    at: u64,
    front: &mut [u8],
) -> Result<RecHead, Fault>
    requires sound { S.sound space.old }
    requires file { IsDataFile file }
    requires enough { S.tells → IsEnough at (length front.old) (S.now space.old file) }
    ensures head { IfOk result (λ x. S.tells → IsHeadOf head.now at (S.now space.old file) x) }
    ensures fits { IfOk result (FitsLinks head.now) }
    ensures reads { OnlyReads S.Space space.old space.new }
    ensures counted { S.bytes_read space.new ≤ S.bytes_read space.old + length front.old }
    ensures cause { HasCause (S.faults space.old) (S.faults space.new) result }
{
    space.read(file, at, front)?;
    Ok(head_in(front, head.is_large()))
}

/// The head of the record at a place. It reads at most 40 bytes, and takes no memory.
pub fn read_head<S: Space>(space: &mut S, file: u32, head: &Head, at: u64) -> Result<RecHead, Fault>
    requires sound { S.sound space.old }
    requires file { IsDataFile file }
    requires inside { S.tells → at ≤ length (S.now space.old file) }
    ensures head { IfOk result (λ x. S.tells → IsHeadOf head.now at (S.now space.old file) x) }
    ensures fits { IfOk result (FitsLinks head.now) }
    ensures long { S.tells → length (S.now space.old file) < 2 ^ 64 }
    ensures reads { OnlyReads S.Space space.old space.new }
    ensures counted { S.bytes_read space.new ≤ S.bytes_read space.old + 40 }
    ensures cause { HasCause (S.faults space.old) (S.faults space.new) result }
{
    let len = space.len(file).saturating_sub(at).min(40) as usize;
    let mut front = [0; 40];
    read_front(space, file, head, at, &mut front[..len])
}

/// The head of the record at a place, through a window.
pub fn head_at<S: Space>(
    space: &mut S,
    file: u32,
    head: &Head,
    place: u64,
    window: &mut Window,
) -> Result<RecHead, ReadErr>
    requires sound { S.sound space.old }
    requires file { IsDataFile file }
    requires inside { S.tells → place ≤ length (S.now space.old file) }
    requires shows { S.tells → Shows window.old (S.now space.old file) }
    ensures head { IfOk result (λ x. S.tells → IsHeadOf head.now place (S.now space.old file) x) }
    ensures shows { OnOk result (S.tells → Shows window.new (S.now space.old file)) }
    ensures long { S.tells → length (S.now space.old file) < 2 ^ 64 }
    ensures reads { OnlyReads S.Space space.old space.new }
    ensures cause { Blamed S.Space (IsErrOf result ReadErr.Fault) space.old space.new }
{
    let ahead = space.len(file).saturating_sub(place).min(40) as usize;
    window.fill(space, file, place, ahead)?;
    Ok(head_in(window.get(place, ahead), head.is_large()))
}

// A bucket's entry, where there is room for its bytes.
fn read_field<S: Space>(space: &mut S, file: u32, at: u64, field: &mut [u8]) -> Result<u64, Fault>
    requires sound { S.sound space.old }
    requires file { IsDataFile file }
    requires some { 1 ≤ length field.old }
    requires few { length field.old ≤ 8 }
    requires inside { S.tells → at + length field.old ≤ length (S.now space.old file) }
    ensures number { IfOk result (λ n. S.tells → n ≡ number_at at (length field.old) (S.now space.old file)) }
    ensures reads { OnlyReads S.Space space.old space.new }
    ensures counted { S.bytes_read space.new ≤ S.bytes_read space.old + length field.old }
    ensures cause { HasCause (S.faults space.old) (S.faults space.new) result }
{
    space.read(file, at, field)?;
    Ok(get_le(field, 0, field.len()))
}

/// A bucket's entry. It reads 4 bytes, or 8 in the large form.
pub fn read_entry<S: Space>(
    space: &mut S,
    file: u32,
    head: &Head,
    bucket: u64,
) -> Result<u64, Fault>
    requires sound { S.sound space.old }
    requires file { IsDataFile file }
    requires low { bucket < 2 ^ 38 }
    requires inside { S.tells → 256 + width head.now * bucket + width head.now ≤ length (S.now space.old file) }
    ensures entry { IfOk result (λ n. S.tells → n ≡ entry_at (width head.now) bucket (S.now space.old file)) }
    ensures reads { OnlyReads S.Space space.old space.new }
    ensures counted { S.bytes_read space.new ≤ S.bytes_read space.old + 8 }
    ensures cause { HasCause (S.faults space.old) (S.faults space.new) result }
{
    let width = head.width();
    let mut field = [0; 8];
    read_field(
        space,
        file,
        256 + width * bucket,
        &mut field[..width as usize],
    )
}

/// The place that a link names with a stored number, in units; the greatest number where it is past that.
pub fn place_named(unit: u64, n: u64) -> u64
    requires { unit ≤ 2 ^ 16 }
    ensures { result ≡ capped (unit * n) }
{
    (u128::from(unit) * u128::from(n)).min(u128::from(u64::MAX)) as u64
}
