//! Two scripts over a wire in memory, which `tests/refusals` plays with an allocation refused.

use crate::judging::judged;
use crate::outcome::ran;
use crate::plan::Plan;
use std::alloc::{AllocError, Global};
use tc_fakes::MemVolume;

/// There was no memory to make the script.
pub const UNMADE: u8 = 98;

// `one` is set to `first`, and asked for.
const PUT_AND_GET: &[u8] = b"\xC8\x10\0\0\0\x03\0\0\0\x05onefirst\xC8\x30\0\0\0\x03one";

// `a` is set to `1`.
const PUT: &[u8] = b"\xC8\x10\0\0\0\x01\0\0\0\x01a1";

// `a` is asked for, twice.
const TWO_GETS: &[u8] = b"\xC8\x30\0\0\0\x01a\xC8\x30\0\0\0\x01a";

// What is played.
#[derive(Clone, Copy)]
enum Script {
    // A put and a get.
    One,
    // A put between two gets of another connection.
    Two,
}

// The words of a run.
fn order(alloc: Global) -> Result<Vec<String>, AllocError> {
    let mut words = Vec::new(alloc);
    for text in ["pipe", "*"] {
        words.push(String::from_str(alloc, text)?)?;
    }
    Ok(words)
}

// What a run of the script is given.
fn plan_of(alloc: Global, script: Script) -> Result<Plan, AllocError> {
    let words = order(alloc)?;
    match script {
        Script::One => Plan::asking(alloc, words, PUT_AND_GET),
        Script::Two => {
            let mut plan = Plan::new(alloc);
            plan.words = words;
            plan.opens(0)?;
            plan.opens(1)?;
            plan.reads(1, TWO_GETS)?;
            plan.reads(0, PUT)?;
            Ok(plan)
        }
    }
}

// What connections 0 and 1 are owed.
fn owed(script: Script) -> [&'static [u8]; 2] {
    match script {
        Script::One => [b"\0\0\0\0\0\x05first", b""],
        Script::Two => [b"\0", b"\x01\0\0\0\0\x011"],
    }
}

// Plays a script, and judges it.
fn played(alloc: Global, script: Script) -> Result<u8, AllocError> {
    let plan = plan_of(alloc, script)?;
    let (outcome, _) = ran(alloc, &plan, MemVolume::new(alloc)?)?;
    let [first, second] = owed(script);
    Ok(judged(outcome.status, &outcome.wire, first, second))
}

/// Plays the script that the words `refused one` or `refused two` name; answers the status that the program ends with.
pub fn play_refused(alloc: Global, words: &[String]) -> Option<u8> {
    let [what, name] = words else {
        return None;
    };
    if !matches!(what.as_str(), "refused") {
        return None;
    }
    let script = match name.as_str() {
        "one" => Script::One,
        "two" => Script::Two,
        _ => return None,
    };
    Some(played(alloc, script).unwrap_or(UNMADE))
}
