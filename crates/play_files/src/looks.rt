//! What lines say of values.
ghost use Rattle.std.specs.Prelude.{◌≡◌, true, OnOk};

use crate::refusals::unopened;
use play_text::{Line, Pattern, Why, Wrong};
use std::alloc::{AllocError, Global};
use tc_base::{Blob, Blobs, Pairs, Rule};
use tc_memstores::OneFile;
use tc_space::{OpenErr, Space};

/// A file in memory may be used.
pub fn usable(space: &OneFile) -> Result<(), Wrong>
    ensures { OnOk result (space.now.sound ≡ true) }
{
    if space.is_sound() {
        Ok(())
    } else {
        Err(Wrong::Not(Why::Fault))
    }
}

/// A number is that of a line, which has no more.
pub fn is_number(alloc: Global, line: &mut Line, found: u64) -> Result<(), Wrong> {
    line.is_text(format!(in alloc; "{found}")?)
}

/// A value is that of a line, or there is none where none is wanted.
pub fn is_value(
    line: &mut Line,
    wanted: Option<&Pattern>,
    found: &Option<Blob>,
) -> Result<(), Wrong> {
    let found = match found {
        Some(found) => Some(found.as_slice()),
        None => None,
    };
    line.told_if(wanted, found)
}

// Texts, each behind its size in four bytes.
fn sized(alloc: Global, texts: &Blobs) -> Result<Pattern, AllocError> {
    let mut all = Pattern::new(alloc);
    for text in texts.as_slice() {
        all.add_sized(text.as_slice())?;
    }
    Ok(all)
}

/// Texts are those of a line, each behind its size in four bytes.
pub fn are_texts(alloc: Global, line: &mut Line, texts: &Blobs) -> Result<(), Wrong> {
    line.is_bytes(sized(alloc, texts)?.as_slice())
}

// Keys and values in turn, each behind its size in four bytes.
fn sized_pairs(alloc: Global, pairs: &Pairs) -> Result<Pattern, AllocError> {
    let mut all = Pattern::new(alloc);
    for pair in pairs.as_slice() {
        all.add_sized(pair.key.as_slice())?;
        all.add_sized(pair.value.as_slice())?;
    }
    Ok(all)
}

/// Keys and values in turn are those of a line.
pub fn are_pairs(alloc: Global, line: &mut Line, pairs: &Pairs) -> Result<(), Wrong> {
    line.is_bytes(sized_pairs(alloc, pairs)?.as_slice())
}

// The bytes of a file from a place in it on are those of a line, of which there is one at least.
fn are_bytes(line: &mut Line, file: &[u8]) -> Result<(), Wrong> {
    let place = line.within(0, file.len() as u64)? as usize;
    let wanted = line.bytes()?;
    if wanted.is_empty() {
        return Err(Wrong::Unread);
    }
    let behind = &file[place..];
    line.told(&wanted, &behind[..wanted.len().min(behind.len())])
}

/// A line on the bytes of a file: `bytes PLACE BYTES`, `ends N` for its length.
pub fn bytes_line(alloc: Global, file: &[u8], what: &str, line: &mut Line) -> Result<(), Wrong> {
    match what {
        "bytes" => are_bytes(line, file),
        "ends" => is_number(alloc, line, file.len() as u64),
        _ => Err(Wrong::Unread),
    }
}

/// So it is of a case in which `mark` keeps the bytes, and `same` says that they are as they were there.
pub fn marked_line(
    alloc: Global,
    file: &[u8],
    marked: &mut Blob,
    what: &str,
    line: &mut Line,
) -> Result<(), Wrong> {
    match what {
        "mark" => {
            *marked = Blob::from_slice(alloc, file)?;
            Ok(())
        }
        "same" => line.is_so(marked.as_slice() == file),
        _ => bytes_line(alloc, file, what, line),
    }
}

/// A rule as text, as `L6`.
pub fn name_of(alloc: Global, rule: Rule) -> Result<String, AllocError> {
    format!(in alloc; "{}{}", char::from(rule.letter), rule.number)
}

// The file and the rule that an opening names, as `0 L6`; `0` for none.
fn rule_text(alloc: Global, opened: Option<OpenErr>) -> Result<String, Wrong> {
    match opened {
        None => Ok(String::from_str(alloc, "0")?),
        Some(OpenErr::Broken { file, rule }) => {
            let name = name_of(alloc, rule)?;
            Ok(format!(in alloc; "{file} {}", name.as_str())?)
        }
        Some(e) => Err(unopened(e)),
    }
}

/// The file and the rule that an opening names are those of a line.
pub fn is_rule(alloc: Global, line: &mut Line, opened: Option<OpenErr>) -> Result<(), Wrong> {
    line.is_text(rule_text(alloc, opened)?)
}
