//! The rules that each record is at home, and that each bucket's tree is in order.
ghost use Rattle.std.specs.Prelude.{◌≡◌, ◌↔◌, ℕ, ◌+◌, ◌^◌, ◌<◌, ◌≤◌, IfOk, IsTrue, true, false, length};
ghost use Rattle.tc_io.specs.Causes.{HasCause};
ghost use Rattle.tc_space.specs.Ranges.{IsDataFile};
ghost use Rattle.tc_space.specs.Frames.{OnlyReads};
ghost use Rattle.hf_survey.specs.Facts.{IsFactOf};
ghost use Rattle.hf_survey.specs.Reaching.{AreLow, IsHomeBy, IsLow};
ghost use Rattle.hf_survey.specs.Orders.{AreTrue, ComparesBy, HasKey, IsBetweenBy, Judged, AllBetween, AllHome, HasMixed, HasStray, JudgedOn, bytewise, keywise, order_of_parts};

use crate::facts::{Fact, Facts};
use crate::reaching::{Item, Items};
use hf_chain::compare_bytes;
use hf_head::Head;
use std::cmp::Ordering;
use tc_base::Fault;
use tc_space::Space;

/// What is found of records that were reached.
#[derive(Clone, Copy, PartialEq, Eq)]
pub enum Verdict {
    /// Each is in its key's bucket, has its key's second hash, and is above the one that it hangs left of and below the one that it
    /// hangs right of.
    InOrder,
    /// One isn't in its key's bucket, or hasn't its key's second hash.
    Stray,
    /// None is such, but one isn't above or below another as it should be.
    Mixed,
}

// Whether a record that was reached is in its key's bucket, and has its key's second hash.
fn is_home(facts: &Facts, item: &Item) -> bool
    requires low { (0 < item.now.number) × (item.now.number ≤ length facts.now) }
    ensures { IsTrue result ↔ IsHomeBy facts.now item.now }
{
    let fact = *facts.at((item.number - 1) as usize);
    if fact.bucket != item.bucket {
        return false;
    }
    fact.hash == fact.second
}

// Whether each of these records is in its key's bucket, and has its key's second hash.
fn all_home(facts: &Facts, items: &Items) -> bool
    requires low { AreLow (length facts.now) items.now }
    ensures yes { result ≡ true → AllHome facts.now items.now }
    ensures no { result ≡ false → HasStray facts.now items.now }
{
    for k in 0..items.len() {
        let item = *items.at(k);
        if !is_home(facts, &item) {
            return false;
        }
    }
    true
}

// The order of bytes of the file from a place on, which are read into `piece`, and as many from another.
fn order_of_piece<S: Space>(
    space: &mut S,
    file: u32,
    a: u64,
    b: u64,
    piece: &mut [u8],
) -> Result<Ordering, Fault>
    requires sound { S.sound space.old }
    requires file { IsDataFile file }
    requires first { S.tells → a + length piece.old ≤ length (S.now space.old file) }
    requires second { S.tells → b + length piece.old ≤ length (S.now space.old file) }
    requires long { S.tells → length (S.now space.old file) < 2 ^ 64 }
    ensures order { IfOk result (λ o. S.tells → o ≡ order_of_parts (length piece.old) a b (S.now space.old file)) }
    ensures reads { OnlyReads S.Space space.old space.new }
    ensures cause { HasCause (S.faults space.old) (S.faults space.new) result }
{
    space.read(file, a, piece)?;
    compare_bytes(space, file, b, piece)
}

// The order of at most 64 bytes of the file from a place on and as many from another.
fn order_of_part<S: Space>(
    space: &mut S,
    file: u32,
    a: u64,
    b: u64,
    count: usize,
) -> Result<Ordering, Fault>
    requires sound { S.sound space.old }
    requires file { IsDataFile file }
    requires first { S.tells → a + count ≤ length (S.now space.old file) }
    requires second { S.tells → b + count ≤ length (S.now space.old file) }
    requires few { (count ≤ 64) × (S.tells → length (S.now space.old file) < 2 ^ 64) }
    ensures order { IfOk result (λ o. S.tells → o ≡ order_of_parts count a b (S.now space.old file)) }
    ensures reads { OnlyReads S.Space space.old space.new }
    ensures cause { HasCause (S.faults space.old) (S.faults space.new) result }
{
    let mut piece = [0; 64];
    order_of_piece(space, file, a, b, &mut piece[..count])
}

// The order of so many bytes of the file from a place on and as many from another, read in pieces. It takes no memory.
fn order_of_bytes<S: Space>(
    space: &mut S,
    file: u32,
    a: u64,
    b: u64,
    long: u64,
) -> Result<Ordering, Fault>
    requires sound { S.sound space.old }
    requires file { IsDataFile file }
    requires first { S.tells → a + long ≤ length (S.now space.old file) }
    requires second { S.tells → b + long ≤ length (S.now space.old file) }
    requires few { S.tells → length (S.now space.old file) < 2 ^ 64 }
    ensures order { IfOk result (λ o. S.tells → o ≡ order_of_parts long a b (S.now space.old file)) }
    ensures reads { OnlyReads S.Space space.old space.new }
    ensures cause { HasCause (S.faults space.old) (S.faults space.new) result }
{
    let mut done = 0;
    while done < long {
        let n = (long - done).min(64);
        let first = a.saturating_add(done);
        let second = b.saturating_add(done);
        let order = order_of_part(space, file, first, second, n as usize)?;
        match order {
            Ordering::Equal => done += n,
            other => return Ok(other),
        }
    }
    Ok(Ordering::Equal)
}

// The place behind a key's front, or `end` where that comes first.
fn behind_front(fact: &Fact, end: u64) -> u64
    ensures { fact.now.place + fact.now.ahead + 16 ≤ end → result ≡ fact.now.place + fact.now.ahead + 16 }
{
    let place = fact.place.saturating_add(u64::from(fact.ahead) + 16);
    place.min(end)
}

// The order of two keys of one length whose fronts are the same, by the bytes behind them.
fn order_behind<S: Space>(space: &mut S, file: u32, a: &Fact, b: &Fact) -> Result<Ordering, Fault>
    requires sound { S.sound space.old }
    requires file { IsDataFile file }
    requires same { (a.now.long ≡ b.now.long) × (a.now.front ≡ b.now.front) }
    requires first { S.tells → HasKey a.now (S.now space.old file) }
    requires second { S.tells → HasKey b.now (S.now space.old file) }
    ensures order { IfOk result (λ o. S.tells → o ≡ bytewise a.now b.now (S.now space.old file)) }
    ensures reads { OnlyReads S.Space space.old space.new }
    ensures cause { HasCause (S.faults space.old) (S.faults space.new) result }
{
    if a.long <= 16 {
        return Ok(Ordering::Equal);
    }
    let end = space.len(file);
    let first = behind_front(a, end);
    let second = behind_front(b, end);
    order_of_bytes(space, file, first, second, u64::from(a.long - 16))
}

// The order of two keys of one length, by their bytes.
fn order_of_keys<S: Space>(space: &mut S, file: u32, a: &Fact, b: &Fact) -> Result<Ordering, Fault>
    requires sound { S.sound space.old }
    requires file { IsDataFile file }
    requires same { a.now.long ≡ b.now.long }
    requires first { S.tells → HasKey a.now (S.now space.old file) }
    requires second { S.tells → HasKey b.now (S.now space.old file) }
    ensures order { IfOk result (λ o. S.tells → o ≡ bytewise a.now b.now (S.now space.old file)) }
    ensures reads { OnlyReads S.Space space.old space.new }
    ensures cause { HasCause (S.faults space.old) (S.faults space.new) result }
{
    match a.front[..].cmp(&b.front[..]) {
        Ordering::Equal => order_behind(space, file, a, b),
        other => Ok(other),
    }
}

// The order of the keys of two records. Keys are read only where their hashes, lengths and fronts are the same.
fn order_of<S: Space>(
    space: &mut S,
    file: u32,
    head: &Head,
    a: &Fact,
    b: &Fact,
) -> Result<Ordering, Fault>
    requires sound { S.sound space.old }
    requires file { IsDataFile file }
    requires first { S.tells → IsFactOf head.now a.now (S.now space.old file) }
    requires second { S.tells → IsFactOf head.now b.now (S.now space.old file) }
    ensures order { IfOk result (λ o. S.tells → o ≡ keywise a.now b.now (S.now space.old file)) }
    ensures reads { OnlyReads S.Space space.old space.new }
    ensures cause { HasCause (S.faults space.old) (S.faults space.new) result }
{
    match a.second.cmp(&b.second) {
        Ordering::Equal => match a.long.cmp(&b.long) {
            Ordering::Equal => order_of_keys(space, file, a, b),
            longer => Ok(longer),
        },
        greater => Ok(greater),
    }
}

fn is_same(a: Ordering, b: Ordering) -> bool
    ensures { IsTrue result ↔ (a ≡ b) }
{
    match a {
        Ordering::Less => match b {
            Ordering::Less => true,
            Ordering::Equal => false,
            Ordering::Greater => false,
        },
        Ordering::Equal => match b {
            Ordering::Less => false,
            Ordering::Equal => true,
            Ordering::Greater => false,
        },
        Ordering::Greater => match b {
            Ordering::Less => false,
            Ordering::Equal => false,
            Ordering::Greater => true,
        },
    }
}

// Whether a record's key compares so with that of the one with a number, if there is one.
fn compares<S: Space>(
    space: &mut S,
    file: u32,
    head: &Head,
    facts: &Facts,
    fact: &Fact,
    number: u64,
    wanted: Ordering,
) -> Result<bool, Fault>
    requires sound { S.sound space.old }
    requires file { IsDataFile file }
    requires low { number ≤ length facts.now }
    requires this { S.tells → IsFactOf head.now fact.now (S.now space.old file) }
    requires all { S.tells → AreTrue head.now facts.now (S.now space.old file) }
    ensures yes { IfOk result (λ is. is ≡ true → S.tells → ComparesBy facts.now fact.now number wanted (S.now space.old file)) }
    ensures no { IfOk result (λ is. is ≡ false → S.tells → ComparesBy facts.now fact.now number wanted (S.now space.old file) → ⊥) }
    ensures reads { OnlyReads S.Space space.old space.new }
    ensures cause { HasCause (S.faults space.old) (S.faults space.new) result }
{
    if number == 0 {
        return Ok(true);
    }
    let other = *facts.at((number - 1) as usize);
    let order = order_of(space, file, head, fact, &other)?;
    Ok(is_same(order, wanted))
}

// Whether a record that was reached is above the one that it hangs left of, and below the one that it hangs right of.
fn is_between<S: Space>(
    space: &mut S,
    file: u32,
    head: &Head,
    facts: &Facts,
    item: &Item,
) -> Result<bool, Fault>
    requires sound { S.sound space.old }
    requires file { IsDataFile file }
    requires low { IsLow (length facts.now) item.now }
    requires all { S.tells → AreTrue head.now facts.now (S.now space.old file) }
    ensures yes { IfOk result (λ is. is ≡ true → S.tells → IsBetweenBy facts.now item.now (S.now space.old file)) }
    ensures no { IfOk result (λ is. is ≡ false → S.tells → IsBetweenBy facts.now item.now (S.now space.old file) → ⊥) }
    ensures reads { OnlyReads S.Space space.old space.new }
    ensures cause { HasCause (S.faults space.old) (S.faults space.new) result }
{
    let fact = *facts.at((item.number - 1) as usize);
    let greater = Ordering::Greater;
    if !compares(space, file, head, facts, &fact, item.above, greater)? {
        return Ok(false);
    }
    compares(space, file, head, facts, &fact, item.below, Ordering::Less)
}

// Whether each of these records is above the one that it hangs left of, and below the one that it hangs right of.
fn all_between<S: Space>(
    space: &mut S,
    file: u32,
    head: &Head,
    facts: &Facts,
    items: &Items,
) -> Result<bool, Fault>
    requires sound { S.sound space.old }
    requires file { IsDataFile file }
    requires low { AreLow (length facts.now) items.now }
    requires all { S.tells → AreTrue head.now facts.now (S.now space.old file) }
    ensures yes { IfOk result (λ is. is ≡ true → S.tells → AllBetween facts.now items.now (S.now space.old file)) }
    ensures no { IfOk result (λ is. is ≡ false → S.tells → HasMixed facts.now items.now (S.now space.old file)) }
    ensures reads { OnlyReads S.Space space.old space.new }
    ensures cause { HasCause (S.faults space.old) (S.faults space.new) result }
{
    for k in 0..items.len() {
        let item = *items.at(k);
        if !is_between(space, file, head, facts, &item)? {
            return Ok(false);
        }
    }
    Ok(true)
}

// What is found of these records alone.
fn judge_all<S: Space>(
    space: &mut S,
    file: u32,
    head: &Head,
    facts: &Facts,
    items: &Items,
) -> Result<Verdict, Fault>
    requires sound { S.sound space.old }
    requires file { IsDataFile file }
    requires low { AreLow (length facts.now) items.now }
    requires all { S.tells → AreTrue head.now facts.now (S.now space.old file) }
    ensures judged { IfOk result (Judged S.tells facts.now items.now (length items.now) (S.now space.old file)) }
    ensures reads { OnlyReads S.Space space.old space.new }
    ensures cause { HasCause (S.faults space.old) (S.faults space.new) result }
{
    if !all_home(facts, items) {
        return Ok(Verdict::Stray);
    }
    if all_between(space, file, head, facts, items)? {
        return Ok(Verdict::InOrder);
    }
    Ok(Verdict::Mixed)
}

/// What is found of all records that were reached, which are these and others before them, of which that was found. Keys are read where
/// their hashes, lengths and first 16 bytes are the same, and there is more of them.
pub fn judge<S: Space>(
    space: &mut S,
    file: u32,
    head: &Head,
    facts: &Facts,
    items: &Items,
    before: Verdict,
) -> Result<Verdict, Fault>
    requires sound { S.sound space.old }
    requires file { IsDataFile file }
    requires low { AreLow (length facts.now) items.now }
    requires all { S.tells → AreTrue head.now facts.now (S.now space.old file) }
    ensures judged { IfOk result (JudgedOn S.tells facts.now items.now (S.now space.old file) before) }
    ensures reads { OnlyReads S.Space space.old space.new }
    ensures cause { HasCause (S.faults space.old) (S.faults space.new) result }
{
    match before {
        Verdict::InOrder => judge_all(space, file, head, facts, items),
        Verdict::Stray => Ok(Verdict::Stray),
        Verdict::Mixed => {
            if all_home(facts, items) {
                return Ok(Verdict::Mixed);
            }
            Ok(Verdict::Stray)
        }
    }
}
