//! A record found by its key.
ghost use Rattle.std.specs.Prelude.{◌≡◌, ◌+◌, ◌^◌, ◌≤◌, length, IfOk};
ghost use Rattle.tc_base.specs.Hashes.{second};
ghost use Rattle.tc_io.specs.Causes.{HasCause};
ghost use Rattle.tc_space.specs.Frames.{OnlyReads};
ghost use Rattle.hf_block.specs.Pieces.{Record};
ghost use Rattle.hf_tree.specs.Keys.{bucket_of as home};
ghost use Rattle.hf_chain.specs.Files.{IsOpenFile};
ghost use Rattle.hf_chain.specs.Heads.{IsHeadOf, IsRecordAt, head_of};
ghost use Rattle.hf_chain.specs.Fronts.{FitsLinks, HasFront};
ghost use Rattle.hf_chain.specs.Chains.{EndsAt, HasTree, IsStep, step_of};
ghost use Rattle.hf_chain.specs.Costs.{CostsSearch, PaidBy, step_most};
ghost use Rattle.hf_chain.specs.Searches.{KnowsHead, found_of};

use crate::comparing::compare;
use crate::counting::count_step;
use crate::heads::{RecHead, head_in, place_named, read_entry};
use hf_head::Head;
use hf_tree::Parent;
use std::cmp::Ordering;
use tc_base::{Fault, Steps, bucket_of, second_hash};
use tc_reach::read_into;
use tc_space::Space;

/// Where a search found the record of its key.
#[derive(Clone, Copy, Drop, PartialEq, Eq)]
pub struct Place {
    /// Where the record begins.
    pub at: u64,
    /// What names it.
    pub from: Parent,
    /// Its head.
    pub rec: RecHead,
}

/// How a search ended.
#[derive(Clone, Copy, Drop, PartialEq, Eq)]
pub enum Search {
    /// At the record of the key.
    Here(Place),
    /// At the empty entry or chain where it would hang.
    Gap(Parent),
}

// A record that a search came to: its head, and where the search goes on, and the place named there.
#[derive(Clone, Copy, Drop)]
struct Look {
    rec: RecHead,
    step: Option<(Parent, u64)>,
}

// Where a search goes on from the record at a place, and the place named there.
fn turn(order: Ordering, at: u64, rec: &RecHead, unit: u64) -> Option<(Parent, u64)>
    requires { unit ≤ 2 ^ 16 }
    ensures { (r : Record) → rec.now ≡ head_of r → result ≡ step_of unit at r order }
{
    match order {
        Ordering::Less => Some((Parent::Right(at), place_named(unit, rec.right))),
        Ordering::Equal => None,
        Ordering::Greater => Some((Parent::Left(at), place_named(unit, rec.left))),
    }
}

// One record of a search, where the bytes to fill are all up to the end of the file, or enough for its head.
fn look_front<S: Space>(
    space: &mut S,
    file: u32,
    head: &Head,
    at: u64,
    front: &mut [u8],
    key: &[u8],
    hash: u8,
) -> Result<Look, Fault>
    requires ready { IsOpenFile S.Space head.now file space.old }
    requires hash { hash ≡ second key.now }
    requires front { S.tells → HasFront head.now at (length front.old) (S.now space.old file) }
    ensures step { IfOk result (λ x. S.tells → IsStep head.now at key.now (S.now space.old file) x.step) }
    ensures head { IfOk result (λ x. S.tells → IsHeadOf head.now at (S.now space.old file) x.rec) }
    ensures fits { IfOk result (λ x. FitsLinks head.now x.rec) }
    ensures reads { OnlyReads S.Space space.old space.new }
    ensures counted { S.bytes_read space.new ≤ S.bytes_read space.old + (length front.old + length key.now) }
    ensures cause { HasCause (S.faults space.old) (S.faults space.new) result }
{
    read_into(space, file, at, front)?;
    let rec = head_in(front, head.is_large());
    let order = compare(space, file, head, at, &rec, front, key, hash)?;
    let step = turn(order, at, &rec, head.unit());
    Ok(Look { rec, step })
}

// One record of a search. Its head and the front of its key are read at once.
fn look_at<S: Space>(
    space: &mut S,
    file: u32,
    head: &Head,
    at: u64,
    key: &[u8],
    hash: u8,
) -> Result<Look, Fault>
    requires ready { IsOpenFile S.Space head.now file space.old }
    requires hash { hash ≡ second key.now }
    requires there { S.tells → IsRecordAt head.now at (S.now space.old file) }
    ensures step { IfOk result (λ x. S.tells → IsStep head.now at key.now (S.now space.old file) x.step) }
    ensures head { IfOk result (λ x. S.tells → IsHeadOf head.now at (S.now space.old file) x.rec) }
    ensures fits { IfOk result (λ x. FitsLinks head.now x.rec) }
    ensures reads { OnlyReads S.Space space.old space.new }
    ensures counted { S.bytes_read space.new ≤ S.bytes_read space.old + step_most (length key.now) }
    ensures cause { HasCause (S.faults space.old) (S.faults space.new) result }
{
    let len = space.len(file).saturating_sub(at).min(96) as usize;
    let mut front = [0; 96];
    look_front(space, file, head, at, &mut front[..len], key, hash)
}

/// Finds the record of a key, or the empty entry or chain where it would hang. A step is the read of the bucket's entry or of one record: at most one
/// more than there are records in the bucket. It compares keys in pieces and takes no memory. The head of the record that it finds was read, and is
/// handed on.
pub fn find<S: Space, L>(
    space: &mut S,
    file: u32,
    head: &Head,
    key: &[u8],
    steps: &mut Steps<L>,
) -> Result<Search, Fault>
    requires ready { IsOpenFile S.Space head.now file space.old }
    requires tree { S.tells → HasTree head.now (home head.now.buckets key.now) (S.now space.old file) }
    ensures found { IfOk result (λ f. S.tells → EndsAt head.now key.now (S.now space.old file) (found_of f)) }
    ensures head { IfOk result (KnowsHead S.Space head.now file space.old) }
    ensures within { S.tells → CostsSearch S.Space head.now key.now file steps.old steps.new space.old space.new }
    ensures paid { PaidBy S.Space (step_most (length key.now)) steps.old steps.new space.old space.new }
    ensures reads { OnlyReads S.Space space.old space.new }
    ensures cause { HasCause (S.faults space.old) (S.faults space.new) result }
{
    let bucket = bucket_of(key, head.buckets);
    let hash = second_hash(key);
    // a bucket has no more records than the file has bytes
    let most = space.len(file);
    count_step(steps);
    let entry = read_entry(space, file, head, bucket)?;
    let mut from = Parent::Bucket(bucket);
    let mut at = place_named(head.unit(), entry);
    for depth in 0..most {
        if at == 0 {
            return Ok(Search::Gap(from));
        }
        count_step(steps);
        let look = look_at(space, file, head, at, key, hash)?;
        let Some((link, place)) = look.step else {
            return Ok(Search::Here(Place {
                at,
                from,
                rec: look.rec,
            }));
        };
        from = link;
        at = place;
    }
    Ok(Search::Gap(from))
}
