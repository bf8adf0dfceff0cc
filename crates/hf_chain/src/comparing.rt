//! A key compared with that of a record in a file.
ghost use Rattle.std.specs.Prelude.{◌≡◌, ◌+◌, ◌^◌, ◌<◌, ◌≤◌, length, take, drop, IfOk};
ghost use Rattle.tc_base.specs.Hashes.{second};
ghost use Rattle.tc_io.specs.Causes.{HasCause};
ghost use Rattle.tc_space.specs.Ranges.{IsDataFile};
ghost use Rattle.tc_space.specs.Frames.{OnlyReads};
ghost use Rattle.hf_chain.specs.Heads.{IsOrder, order_at};
ghost use Rattle.hf_chain.specs.Fronts.{WasRead};

use crate::heads::RecHead;
use hf_head::Head;
use std::cmp::Ordering;
use tc_base::Fault;
use tc_space::Space;

// The order of at most 64 bytes and as many of the file.
fn compare_piece<S: Space>(space: &mut S, file: u32, at: u64, key: &[u8]) -> Result<Ordering, Fault>
    requires sound { S.sound space.old }
    requires file { IsDataFile file }
    requires short { length key.now ≤ 64 }
    requires inside { S.tells → at + length key.now ≤ length (S.now space.old file) }
    ensures order { IfOk result (λ o. S.tells → o ≡ order_at key.now at (S.now space.old file)) }
    ensures reads { OnlyReads S.Space space.old space.new }
    ensures counted { S.bytes_read space.new ≤ S.bytes_read space.old + length key.now }
    ensures cause { HasCause (S.faults space.old) (S.faults space.new) result }
{
    let mut piece = [0; 64];
    let n = key.len();
    space.read(file, at, &mut piece[..n])?;
    Ok(key.cmp(&piece[..n]))
}

/// The order of bytes and as many of the file from a place on, read in pieces. It takes no memory.
pub fn compare_bytes<S: Space>(
    space: &mut S,
    file: u32,
    at: u64,
    key: &[u8],
) -> Result<Ordering, Fault>
    requires sound { S.sound space.old }
    requires file { IsDataFile file }
    requires inside { S.tells → at + length key.now ≤ length (S.now space.old file) }
    requires long { S.tells → length (S.now space.old file) < 2 ^ 64 }
    ensures order { IfOk result (λ o. S.tells → o ≡ order_at key.now at (S.now space.old file)) }
    ensures reads { OnlyReads S.Space space.old space.new }
    ensures counted { S.bytes_read space.new ≤ S.bytes_read space.old + length key.now }
    ensures cause { HasCause (S.faults space.old) (S.faults space.new) result }
{
    let mut done = 0usize;
    while done < key.len() {
        let n = (key.len() - done).min(64);
        let order = compare_piece(
            space,
            file,
            at.saturating_add(done as u64),
            &key[done..done + n],
        )?;
        match order {
            Ordering::Equal => done += n,
            other => return Ok(other),
        }
    }
    Ok(Ordering::Equal)
}

// The order of bytes and as many from a place on, of a file whose bytes from `from` on were read before: in memory where they are among
// those.
fn compare_near<S: Space>(
    space: &mut S,
    file: u32,
    from: u64,
    front: &[u8],
    skip: u64,
    key: &[u8],
) -> Result<Ordering, Fault>
    requires sound { S.sound space.old }
    requires file { IsDataFile file }
    requires inside { S.tells → from + skip + length key.now ≤ length (S.now space.old file) }
    requires front { S.tells → front.now ≡ take (length front.now) (drop from (S.now space.old file)) }
    requires long { S.tells → length (S.now space.old file) < 2 ^ 64 }
    ensures order { IfOk result (λ o. S.tells → o ≡ order_at key.now (from + skip) (S.now space.old file)) }
    ensures reads { OnlyReads S.Space space.old space.new }
    ensures counted { S.bytes_read space.new ≤ S.bytes_read space.old + length key.now }
    ensures cause { HasCause (S.faults space.old) (S.faults space.new) result }
{
    let start = skip as usize;
    if start <= front.len() && key.len() <= front.len() - start {
        return Ok(key.cmp(&front[start..start + key.len()]));
    }
    compare_bytes(space, file, from.saturating_add(skip), key)
}

/// The order of a key, with its second hash, and that of the record at a place, whose front was read. Where the key lies in the front
/// nothing more is read.
pub fn compare<S: Space>(
    space: &mut S,
    file: u32,
    head: &Head,
    at: u64,
    rec: &RecHead,
    front: &[u8],
    key: &[u8],
    hash: u8,
) -> Result<Ordering, Fault>
    requires sound { S.sound space.old }
    requires file { IsDataFile file }
    requires hash { hash ≡ second key.now }
    requires read { S.tells → WasRead head.now rec.now at front.now (S.now space.old file) }
    ensures order { IfOk result (λ o. S.tells → IsOrder head.now rec.now at key.now (S.now space.old file) o) }
    ensures reads { OnlyReads S.Space space.old space.new }
    ensures counted { S.bytes_read space.new ≤ S.bytes_read space.old + length key.now }
    ensures cause { HasCause (S.faults space.old) (S.faults space.new) result }
{
    match hash.cmp(&rec.hash) {
        Ordering::Equal => match (key.len() as u64).cmp(&rec.key) {
            Ordering::Equal => compare_near(space, file, at, front, rec.head, key),
            longer => Ok(longer),
        },
        greater => Ok(greater),
    }
}
