//! The pool section of a file, read.
ghost use Rattle.std.specs.Prelude.{◌≡◌, ◌+◌, ◌*◌, ◌<◌, ◌≤◌, ◌^◌, length, drop, IfSome, IfNone, OnOk, Some, true, false};
ghost use Rattle.tc_io.specs.Causes.{HasCause};
ghost use Rattle.tc_space.specs.Frames.{OnlyReads};
ghost use Rattle.hf_head.specs.Heads.{IsValid};
ghost use Rattle.hf_block.specs.Walks.{HoldsUpTo};
ghost use Rattle.hf_pool.specs.Pools.{frees};
ghost use Rattle.tc_hash.specs.Sections.{IsEnd, IsListOf, IsNoPair, IsPair, section_at, section_len, section_of};

use hf_head::Head;
use hf_pool::Pool;
use tc_base::{FILE_MOST, FOUR_BYTES_END, Fault, read_vnum};
use tc_reach::read_into;
use tc_space::Space;

// The bytes from a place on.
fn behind(bytes: &[u8], at: usize) -> &[u8]
    requires { at ≤ length bytes.now }
    ensures { result.now ≡ drop at bytes.now }
{
    &bytes[at..]
}

// Whether two zero bytes stand at the front.
fn is_end(bytes: &[u8]) -> bool
    ensures end { result ≡ true → IsEnd bytes.now }
    ensures other { result ≡ false → IsEnd bytes.now → ⊥ }
{
    bytes.len() >= 2 && bytes[0] == 0 && bytes[1] == 0
}

// Whether a free block of that size stands there, both in units.
fn is_free(pool: &Pool, place: u64, size: u64) -> bool
    requires size { pool.now.size ≤ 2 ^ 40 }
    requires unit { pool.now.unit ≤ 2 ^ 16 }
    requires place { place < 2 ^ 42 }
    ensures free { result ≡ true → frees pool.now (pool.now.unit * place) ≡ Some (pool.now.unit * size) }
    ensures not { result ≡ false → frees pool.now (pool.now.unit * place) ≡ Some (pool.now.unit * size) → ⊥ }
{
    if size >= FOUR_BYTES_END {
        return false;
    }
    match pool.free_at(pool.unit() * place) {
        Some(found) => found == pool.unit() * size,
        None => false,
    }
}

// The pair at the front behind a place in units: the place that it names, and its bytes.
fn read_pair(bytes: &[u8], before: u64, pool: &Pool) -> Option<(u64, usize)>
    requires size { pool.now.size ≤ 2 ^ 40 }
    requires unit { pool.now.unit ≤ 2 ^ 16 }
    requires before { before ≤ 2 ^ 40 }
    ensures some { IfSome result (λ x. IsPair pool.now.unit (frees pool.now) before bytes.now x.0 x.1) }
    ensures low { IfSome result (λ x. x.0 ≤ 2 ^ 40) }
    ensures none { IfNone result (IsNoPair pool.now.unit (frees pool.now) before bytes.now) }
{
    let Ok((difference, len)) = read_vnum(bytes) else {
        return None;
    };
    let Ok((size, more)) = read_vnum(behind(bytes, len)) else {
        return None;
    };
    if difference == 0 {
        return None;
    }
    if difference > FILE_MOST {
        return None;
    }
    if !is_free(pool, before + difference, size) {
        return None;
    }
    Some((before + difference, len + more))
}

/// The place of the pool section.
pub fn section_place(head: &Head) -> u64
    requires { head.now.buckets ≤ 2 ^ 38 }
    ensures { result ≡ section_at head.now }
{
    256 + head.width() * head.buckets
}

/// The bytes of the pool section.
pub fn section_size(head: &Head) -> usize
    requires { head.now.fpow ≤ 20 }
    ensures value { result ≡ section_len head.now }
    ensures some { 64 ≤ result }
{
    64 + (4 << head.fpow)
}

/// Fills `into`, which is as long, with the bytes of the pool section.
pub fn read_section<S: Space>(
    space: &mut S,
    file: u32,
    head: &Head,
    into: &mut [u8],
) -> Result<(), Fault>
    requires holds { HoldsUpTo S.Space space.old file head.now.first }
    requires head { IsValid head.now }
    requires size { length into.old ≡ section_len head.now }
    ensures bytes { OnOk result (S.tells → into.new ≡ section_of head.now (S.now space.old file)) }
    ensures reads { OnlyReads S.Space space.old space.new }
    ensures cause { HasCause (S.faults space.old) (S.faults space.new) result }
{
    read_into(space, file, section_place(head), into)
}

/// Whether a pool section lists free blocks of the pool in ascending place, from its front up to two zero bytes.
pub fn is_list(section: &[u8], pool: &Pool) -> bool
    requires size { pool.now.size ≤ 2 ^ 40 }
    requires unit { pool.now.unit ≤ 2 ^ 16 }
    ensures list { result ≡ true → IsListOf pool.now.unit (frees pool.now) section.now }
    ensures other { result ≡ false → IsListOf pool.now.unit (frees pool.now) section.now → ⊥ }
{
    let mut at = 0;
    let mut place = 0;
    while !is_end(behind(section, at)) {
        let Some((next, len)) = read_pair(behind(section, at), place, pool) else {
            return false;
        };
        place = next;
        at += len;
    }
    true
}
