//! Text commands as tables have them.

use std::alloc::{AllocError, Global};
use tc_base::{Blob, Keys};
use ty_memc::{Text, Word, quiet};

fn store_word(word: Word) -> &'static [u8] {
    match word {
        Word::Set => b"set",
        Word::Add => b"add",
        Word::Replace => b"replace",
        Word::Append => b"append",
    }
}

fn count_word(down: bool) -> &'static [u8] {
    if down { b"decr" } else { b"incr" }
}

// Adds bytes in brackets behind a blank.
fn add_part(part: &[u8], into: &mut Blob) -> Result<(), AllocError> {
    into.append(b" [")?;
    into.append(part)?;
    into.push(b']')
}

fn add_keys(keys: &Keys, into: &mut Blob) -> Result<(), AllocError> {
    into.append(b"get")?;
    for key in keys.as_slice() {
        add_part(key.as_slice(), into)?;
    }
    Ok(())
}

// Adds a command's word, and what stands behind it.
fn add_command(alloc: Global, text: &Text, into: &mut Blob) -> Result<(), AllocError> {
    match text {
        Text::Store {
            word,
            key,
            value,
            ..
        } => {
            into.append(store_word(*word))?;
            add_part(key.as_slice(), into)?;
            add_part(value.as_slice(), into)
        }
        Text::Get { keys } => add_keys(keys, into),
        Text::Delete { key, .. } => {
            into.append(b"delete")?;
            add_part(key.as_slice(), into)
        }
        Text::Count { key, by, down, .. } => {
            into.append(count_word(*down))?;
            add_part(key.as_slice(), into)?;
            into.append(format!(in alloc; " {by}")?.as_bytes())
        }
        Text::Flush { .. } => into.append(b"flush_all"),
        Text::Version => into.append(b"version"),
        Text::Other => into.append(b"other"),
    }
}

/// A command as its word, its keys and its value in brackets, the number of a count, and `quiet` where no reply is wanted.
pub fn text_of(alloc: Global, text: &Text) -> Result<Blob, AllocError> {
    let mut all = Blob::new(alloc);
    add_command(alloc, text, &mut all)?;
    if quiet(text) {
        all.append(b" quiet")?;
    }
    Ok(all)
}
