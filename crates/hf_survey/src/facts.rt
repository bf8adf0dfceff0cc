//! What the rules ask of a record.
ghost use Rattle.std.specs.Prelude.{◌≡◌, ◌≤◌, ℕ, [], IfOk, OnOk, IsErrOf, drop, take};
ghost use Rattle.tc_base.specs.Hashes.{back_hash, front_hash};
ghost use Rattle.tc_space.specs.Frames.{OnlyReads};
ghost use Rattle.tc_space.specs.Refusals.{Blamed};
ghost use Rattle.hf_head.specs.Heads.{IsValid};
ghost use Rattle.hf_chain.specs.Heads.{IsRecordAt};
ghost use Rattle.hf_survey.specs.Facts.{front_of, IsFactAt, IsFactFrom, IsFactOfMarks, marks_of};
ghost use Rattle.hf_survey.specs.Passes.{Looks, LooksAt};

use crate::hashing::{back_on, front_on, hashes_of};
use hf_chain::{RecHead, head_at, place_named};
use hf_head::Head;
use tc_base::Seq;
use tc_reach::{ReadErr, Window};
use tc_space::Space;

/// What the rules ask of a record.
#[derive(Clone, Copy, Drop, PartialEq, Eq)]
pub struct Fact {
    /// Its place.
    pub place: u64,
    /// The place that its left chain names, or the greatest number where that is past all places.
    pub left: u64,
    /// The place that its right chain names, or the greatest number where that is past all places.
    pub right: u64,
    /// Its key's bucket.
    pub bucket: u64,
    /// Its key's second hash.
    pub second: u8,
    /// The second hash that its head has.
    pub hash: u8,
    /// The bytes before its key.
    pub ahead: u8,
    /// The bytes of its key.
    pub long: u32,
    /// The first 16 bytes of its key, with zeros behind a shorter one.
    pub front: [u8; 16],
}

/// The facts of a file's records, in ascending place.
pub type Facts = Seq<Fact>;

// The first 16 bytes of a key, with zeros behind a shorter one.
fn front_in(key: &[u8]) -> [u8; 16]
    ensures { result ≡ front_of key.now }
{
    let count = key.len().min(16);
    let mut front = [0; 16];
    front[..count].copy_from_slice(&key[..count]);
    front
}

/// What is told of a key.
#[derive(Clone, Copy, Drop, PartialEq, Eq)]
pub struct Marks {
    /// Its bucket.
    pub bucket: u64,
    /// Its second hash.
    pub second: u8,
    /// Its first 16 bytes, with zeros behind a shorter one.
    pub front: [u8; 16],
}

// The marks of a key.
fn marks_in(key: &[u8], buckets: u64) -> Marks
    requires { 1 ≤ buckets }
    ensures { result ≡ marks_of buckets key.now }
{
    let (bucket, second) = hashes_of(key, buckets);
    Marks {
        bucket,
        second,
        front: front_in(key),
    }
}

// The fact of a record with this head, whose key has these marks.
fn fact_with(head: &Head, place: u64, rec: &RecHead, marks: &Marks) -> Fact
    requires { IsValid head.now }
    ensures { IsFactOfMarks head.now place rec.now marks.now result }
{
    let unit = head.unit();
    // no record's head and key are longer
    let ahead = rec.head.min(40);
    let long = rec.key.min(u64::from(u32::MAX));
    Fact {
        place,
        left: place_named(unit, rec.left),
        right: place_named(unit, rec.right),
        bucket: marks.bucket,
        second: marks.second,
        hash: rec.hash,
        ahead: ahead as u8,
        long: long as u32,
        front: marks.front,
    }
}

/// The fact of a record with this head and key.
pub fn fact_in(head: &Head, place: u64, rec: &RecHead, key: &[u8]) -> Fact
    requires { IsValid head.now }
    ensures { IsFactFrom head.now place rec.now key.now result }
{
    let marks = marks_in(key, head.buckets);
    fact_with(head, place, rec, &marks)
}

// So many bytes of a key are hashed at once.
const PIECE: u64 = 4096;

// The hash from the front of the key of so many bytes from a place on.
fn front_behind<S: Space>(
    space: &mut S,
    file: u32,
    start: u64,
    long: u64,
    window: &mut Window,
) -> Result<u64, ReadErr>
    requires looks { LooksAt S.Space space.old file start long window.old }
    ensures hash { IfOk result (λ h. S.tells → h ≡ front_hash (take long (drop start (S.now space.old file)))) }
    ensures looks { OnOk result (LooksAt S.Space space.new file start long window.new) }
    ensures reads { OnlyReads S.Space space.old space.new }
    ensures cause { Blamed S.Space (IsErrOf result ReadErr.Fault) space.old space.new }
{
    let mut hash: u64 = 19_780_211;
    let mut done: u64 = 0;
    while done < long {
        let count = (long - done).min(PIECE);
        let at = start.saturating_add(done);
        window.fill(space, file, at, count as usize)?;
        hash = front_on(hash, window.get(at, count as usize));
        done += count;
    }
    Ok(hash)
}

// The hash from the back of the key of so many bytes from a place on.
fn back_behind<S: Space>(
    space: &mut S,
    file: u32,
    start: u64,
    long: u64,
    window: &mut Window,
) -> Result<u32, ReadErr>
    requires looks { LooksAt S.Space space.old file start long window.old }
    ensures hash { IfOk result (λ h. S.tells → h ≡ back_hash (take long (drop start (S.now space.old file)))) }
    ensures looks { OnOk result (LooksAt S.Space space.new file start long window.new) }
    ensures reads { OnlyReads S.Space space.old space.new }
    ensures cause { Blamed S.Space (IsErrOf result ReadErr.Fault) space.old space.new }
{
    let mut hash: u32 = 751;
    let mut left = long;
    while left > 0 {
        let count = left.min(PIECE);
        let at = start.saturating_add(left - count);
        window.fill(space, file, at, count as usize)?;
        hash = back_on(hash, window.get(at, count as usize));
        left -= count;
    }
    Ok(hash)
}

// The marks of the key of so many bytes from a place on, which is read in pieces.
fn marks_behind<S: Space>(
    space: &mut S,
    file: u32,
    buckets: u64,
    start: u64,
    long: u64,
    window: &mut Window,
) -> Result<Marks, ReadErr>
    requires some { 1 ≤ buckets }
    requires looks { LooksAt S.Space space.old file start long window.old }
    ensures marks { IfOk result (λ x. S.tells → x ≡ marks_of buckets (take long (drop start (S.now space.old file)))) }
    ensures looks { OnOk result (Looks S.Space space.new file window.new) }
    ensures reads { OnlyReads S.Space space.old space.new }
    ensures cause { Blamed S.Space (IsErrOf result ReadErr.Fault) space.old space.new }
{
    let hash = front_behind(space, file, start, long, window)?;
    let back = back_behind(space, file, start, long, window)?;
    let count = long.min(16) as usize;
    window.fill(space, file, start, count)?;
    Ok(Marks {
        bucket: hash % buckets,
        second: (back % 256) as u8,
        front: front_in(window.get(start, count)),
    })
}

/// The fact of the record at a place, whose head and key may lie behind the window. However long the key is, no more of it than a window has
/// is in memory at once.
pub fn fact_behind<S: Space>(
    space: &mut S,
    file: u32,
    head: &Head,
    place: u64,
    window: &mut Window,
) -> Result<Fact, ReadErr>
    requires looks { Looks S.Space space.old file window.old }
    requires head { IsValid head.now }
    requires there { S.tells → IsRecordAt head.now place (S.now space.old file) }
    ensures fact { IfOk result (λ x. S.tells → IsFactAt head.now place (S.now space.old file) x) }
    ensures looks { OnOk result (Looks S.Space space.new file window.new) }
    ensures reads { OnlyReads S.Space space.old space.new }
    ensures cause { Blamed S.Space (IsErrOf result ReadErr.Fault) space.old space.new }
{
    let rec = head_at(space, file, head, place, window)?;
    let start = place.saturating_add(rec.head);
    let marks = marks_behind(space, file, head.buckets, start, rec.key, window)?;
    Ok(fact_with(head, place, &rec, &marks))
}
