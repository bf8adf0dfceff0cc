//! What lines say of values.
ghost use Rattle.std.specs.Prelude.{◌≡◌, ℕ, List, true, IfOk};
ghost use Rattle.ty_ulog.specs.declared.record.Record.{Record};
ghost use Rattle.ty_ulog.specs.Records.{Fits, IsReadAs};

use crate::failures::Failure;
use play_text::{Line, Why, Wrong};
use std::alloc::{AllocError, Global};
use tc_base::Blob;
use tc_space::OpenErr;
use ty_slave::Step;
use ty_ulog::{RecTake, Record, put_record, read_record, take_record};

/// A number is that of a line, which has no more.
pub fn is_number(alloc: Global, line: &mut Line, found: u64) -> Result<(), Failure> {
    Ok(line.is_text(format!(in alloc; "{found}")?)?)
}

/// The id of a server.
pub fn id_of(line: &mut Line) -> Result<u16, Failure> {
    Ok(line.within(0, 65_535)? as u16)
}

/// The file and the rule that an opening names are those of a line, as `2 G1`.
pub fn is_rule(alloc: Global, line: &mut Line, opened: Option<OpenErr>) -> Result<(), Failure> {
    let Some(OpenErr::Broken { file, rule }) = opened else {
        return Err(Failure::Line(Wrong::Not(Why::NoRule)));
    };
    let text = format!(in alloc; "{file} {}{}", char::from(rule.letter), rule.number)?;
    Ok(line.is_text(text)?)
}

/// A step of a link as text. Of a record its request is left out.
pub fn step_text(alloc: Global, step: &Step) -> Result<String, AllocError> {
    match step {
        Step::Part => String::from_str(alloc, "part"),
        Step::Master(id) => format!(in alloc; "master {id}"),
        Step::Take(r) => {
            format!(in alloc; "take {} {} {} {}", r.stamp, r.before, r.server, r.master)
        }
        Step::Old => String::from_str(alloc, "old"),
        Step::Gap { held, follows } => format!(in alloc; "gap {held} {follows}"),
        Step::Bad => String::from_str(alloc, "bad"),
    }
}

/// What stands at the front of bytes, as text.
pub fn take_text(alloc: Global, taken: RecTake) -> Result<String, AllocError> {
    match taken {
        RecTake::Whole(size) => format!(in alloc; "whole {size}"),
        RecTake::Part => String::from_str(alloc, "part"),
        RecTake::Bad => String::from_str(alloc, "bad"),
    }
}

/// What stands at the front of bytes: `BYTES => part`, `bad` or `whole SIZE`.
pub fn is_taken(alloc: Global, line: &mut Line) -> Result<(), Failure> {
    let taken = take_record(line.given()?.as_slice());
    Ok(line.is_text(take_text(alloc, taken)?)?)
}

// Whether a whole record stands at the front.
fn is_whole(bytes: &[u8]) -> bool
    ensures { result ≡ true → (r : Record) × (rest : List ℕ) × IsReadAs bytes.now r rest }
{
    match take_record(bytes) {
        RecTake::Whole(_) => true,
        RecTake::Part => false,
        RecTake::Bad => false,
    }
}

// The record at the front.
fn record_of(alloc: Global, bytes: &[u8]) -> Result<Record, Failure>
    ensures { IfOk result (λ r. Fits r) }
{
    if !is_whole(bytes) {
        return Err(Failure::Line(Wrong::Not(Why::NoRecord)));
    }
    let r = read_record(alloc, bytes)?;
    Ok(r)
}

/// Bytes are one record with these numbers, which is written as them again: `BYTES => STAMP BEFORE SERVER MASTER`.
pub fn is_record(alloc: Global, line: &mut Line) -> Result<(), Failure> {
    let bytes = line.given()?;
    let r = record_of(alloc, bytes.as_slice())?;
    let mut again = Blob::new(alloc);
    put_record(&r, &mut again)?;
    line.told(&bytes, again.as_slice())?;
    Ok(line.is_text(format!(in alloc; "{} {} {} {}", r.stamp, r.before, r.server, r.master)?)?)
}
