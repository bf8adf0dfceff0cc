//! The rules of links and records, checked one after the other.
ghost use Rattle.std.specs.Prelude.{◌≡◌, IfOk, OnOk, IsErrOf, length};
ghost use Rattle.tc_space.specs.Ranges.{IsDataFile};
ghost use Rattle.tc_space.specs.Frames.{OnlyReads};
ghost use Rattle.tc_space.specs.Refusals.{Blamed};
ghost use Rattle.hf_head.specs.Heads.{IsValid};
ghost use Rattle.hf_survey.specs.Facts.{HasFacts};
ghost use Rattle.hf_survey.specs.Passes.{HasBuckets};
ghost use Rattle.hf_survey.specs.declared.judging.Verdict.TheVariants.{InOrder as in_order};
ghost use Rattle.hf_survey.specs.Orders.{Refutes};
ghost use Rattle.hf_survey.specs.Holding.{FirstBreaks, HoldsAll, LinkBreaks};
ghost use Rattle.hf_block.specs.Walks.{OnBroken};

use crate::facts::Facts;
use crate::guessing::{Guesses, guess};
use crate::judging::Verdict;
use crate::naming::{chains_named, entries_named};
use crate::reaching::reach;
use hf_block::{Blocks, WalkErr};
use hf_head::Head;
use std::alloc::Global;
use tc_base::Rule;
use tc_reach::{ReadErr, Window};
use tc_space::Space;

const NAMES: Rule = Rule {
    letter: b'L',
    number: 4,
};

const ONCE: Rule = Rule {
    letter: b'L',
    number: 5,
};

const HOME: Rule = Rule {
    letter: b'L',
    number: 6,
};

const ORDER: Rule = Rule {
    letter: b'L',
    number: 7,
};

const COUNT: Rule = Rule {
    letter: b'L',
    number: 8,
};

// What is told of the rules behind those of links, once the records that the buckets reach were judged.
fn conclude(head: &Head, facts: &Facts, verdict: Verdict) -> Result<(), WalkErr>
    ensures hold { OnOk result ((verdict ≡ in_order) × (length facts.now ≡ head.now.records)) }
    ensures broken { OnBroken result (Refutes verdict (length facts.now) head.now.records) }
    ensures no_fault { IsErrOf result WalkErr.Fault → ⊥ }
{
    match verdict {
        Verdict::Stray => Err(WalkErr::Broken(HOME)),
        Verdict::Mixed => Err(WalkErr::Broken(ORDER)),
        Verdict::InOrder => {
            if facts.len() as u64 != head.records {
                return Err(WalkErr::Broken(COUNT));
            }
            Ok(())
        }
    }
}

// Which rule of links is broken, where not each link names a record or none with each record reached once.
fn broken_link<S: Space>(
    alloc: Global,
    space: &mut S,
    file: u32,
    head: &Head,
    facts: &Facts,
    guesses: &Guesses,
) -> Result<Rule, ReadErr>
    requires sound { S.sound space.old }
    requires file { IsDataFile file }
    requires buckets { HasBuckets S.Space head.now space.old file }
    ensures broken { IfOk result (λ rule. S.tells → LinkBreaks head.now (S.now space.old file) facts.now rule) }
    ensures reads { OnlyReads S.Space space.old space.new }
    ensures cause { Blamed S.Space (IsErrOf result ReadErr.Fault) space.old space.new }
{
    let mut window = Window::new(alloc);
    if !entries_named(space, file, head, facts, guesses, &mut window)? {
        return Ok(NAMES);
    }
    if !chains_named(facts, guesses) {
        return Ok(NAMES);
    }
    Ok(ONCE)
}

/// Checks the rules of links and records, each over the whole file before the next: each link names a record or none, the buckets reach each
/// record once, each record is at home, each bucket's tree is in order, and the head has the number of records. `Broken` names the first that
/// doesn't hold. The facts are what `survey_blocks` finds. Keys of more than 16 bytes that have
/// their second hash, length and first 16 bytes in common are read again to be compared.
pub fn check<S: Space>(
    alloc: Global,
    space: &mut S,
    file: u32,
    head: &Head,
    facts: &Facts,
) -> Result<(), WalkErr>
    requires sound { S.sound space.old }
    requires file { IsDataFile file }
    requires head { IsValid head.now }
    requires facts { S.tells → HasFacts head.now (S.now space.old file) facts.now }
    ensures hold { OnOk result (S.tells → HoldsAll head.now (S.now space.old file) facts.now) }
    ensures broken { OnBroken result (λ rule. S.tells → FirstBreaks head.now (S.now space.old file) facts.now rule) }
    ensures reads { OnlyReads S.Space space.old space.new }
    ensures cause { Blamed S.Space (IsErrOf result WalkErr.Fault) space.old space.new }
{
    let guesses = guess(alloc, facts)?;
    let Some(verdict) = reach(alloc, space, file, head, facts, &guesses)? else {
        let rule = broken_link(alloc, space, file, head, facts, &guesses)?;
        return Err(WalkErr::Broken(rule));
    };
    conclude(head, facts, verdict)
}
