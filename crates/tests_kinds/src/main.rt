//! Asks the plain body of the abstract database what its standard input has, as `tests/tables.py` writes it, and compares what it is answered with
//! what stands there, which a model in another language said. Prints a line for each database.
#![tactic(auto)]

mod asking;
mod script;

use anyhow::{Error, anyhow};
use asking::Database;
use script::{Head, Script, Step};
use std::alloc::{AllocError, Global};
use std::io::Read;
use tc_base::Kind;

fn name(kind: Kind) -> &'static str {
    match kind {
        Kind::Hash => "hash",
        Kind::Tree => "tree",
        Kind::Fixed => "fixed",
        Kind::Table => "table",
        Kind::MemHash => "hash in memory",
        Kind::MemTree => "tree in memory",
    }
}

// Whether a step is answered as it says.
fn is_right(alloc: Global, database: &mut Database, step: &Step<'_>) -> Result<bool, AllocError> {
    match database.ask(alloc, step.request)? {
        Some(answer) => Ok(answer.is_that_of(step)),
        None => Ok(false),
    }
}

// Asks a database so many requests. Answers the number, counted from 0, of the first that is answered otherwise or is missing.
fn ask_all(
    alloc: Global,
    database: &mut Database,
    script: &mut Script<'_>,
    count: u64,
) -> Result<Option<u64>, AllocError> {
    let mut wrong = None;
    for number in 0..count {
        let Some(step) = script.step() else {
            return Ok(wrong.or(Some(number)));
        };
        if !is_right(alloc, database, &step)? {
            wrong = wrong.or(Some(number));
        }
    }
    Ok(wrong)
}

// The same of the next database.
fn first_wrong(
    alloc: Global,
    script: &mut Script<'_>,
    head: &Head,
) -> Result<Option<u64>, AllocError> {
    let mut database = Database::new(alloc, head);
    let wrong = ask_all(alloc, &mut database, script, head.count);
    drop(database);
    wrong
}

fn main(rt: HostRuntime) -> Result<(), Error> {
    let alloc = rt.alloc();
    let mut bytes = Vec::new(alloc);
    rt.stdin().read_to_end(&mut bytes)?;
    let mut script = Script::new(&bytes);
    for _ in 0..bytes.len() {
        if script.is_empty() {
            break;
        }
        let Some(head) = script.head() else {
            return Err(anyhow!("the input is cut short"));
        };
        let (kind, count) = (name(head.kind), head.count);
        match first_wrong(alloc, &mut script, &head)? {
            None => println!(rt; "{kind}: {count} requests are answered alike")?,
            Some(number) => println!(rt;
                "{kind}: request {number} of {count} is answered otherwise"
            )?,
        }
    }
    Ok(())
}
