//! The text command at the front of bytes, read.
ghost use Rattle.std.specs.Prelude.{◌≡◌, ℕ, List, is_ok, true, IfOk, Ok};
ghost use Rattle.std.specs.List.{list_all};
ghost use Rattle.ty_memc.specs.declared.text.Text.{Text};
ghost use Rattle.ty_memc.specs.declared.text.Text.TheVariants as said;
ghost use Rattle.ty_memc.specs.Reading.{text_at};
ghost use Rattle.ty_memc.specs.Words.{words};
ghost use Rattle.ty_memc.specs.Lines.{bare, counts, deletes, flushes, gets, is_key, line_of, or_other, plain, says};
ghost use Rattle.ty_memc.specs.Seen.{Gives};

use crate::ends::{find_feed, read_data, split_line};
use crate::lines::{Heading, read_heading};
use crate::text::Text;
use crate::words::{is, is_done, key_only, next_word, number_in, quiet_at};
use std::alloc::{AllocError, Global};
use tc_base::{Blob, Key, Keys};

// A key, and whether no reply is wanted.
fn delete_words(rest: &[u8]) -> Option<(&[u8], bool)>
    ensures { Gives (λ x. said.Delete x.0.now x.1) result (deletes (words rest.now)) }
{
    let (key, rest) = next_word(rest)?;
    let quiet = quiet_at(rest)?;
    if !key_only(key) {
        return None;
    }
    Some((key, quiet))
}

fn read_delete(alloc: Global, rest: &[u8]) -> Result<Text, AllocError>
    ensures { IfOk result (λ t. t ≡ or_other (deletes (words rest.now))) }
{
    let Some((key, quiet)) = delete_words(rest) else {
        return Ok(Text::Other)
    };
    Ok(Text::Delete {
        key: Key::from_slice(alloc, key)?,
        quiet,
    })
}

// A key, a number, and whether no reply is wanted.
fn count_words(down: bool, rest: &[u8]) -> Option<(&[u8], u64, bool)>
    ensures { Gives (λ x. said.Count x.0.now x.1 down x.2) result (counts down (words rest.now)) }
{
    let (key, rest) = next_word(rest)?;
    let (number, rest) = next_word(rest)?;
    let by = number_in(20, u64::MAX, number)?;
    let quiet = quiet_at(rest)?;
    if !key_only(key) {
        return None;
    }
    Some((key, by, quiet))
}

fn read_count(alloc: Global, down: bool, rest: &[u8]) -> Result<Text, AllocError>
    ensures { IfOk result (λ t. t ≡ or_other (counts down (words rest.now))) }
{
    let Some((key, by, quiet)) = count_words(down, rest) else {
        return Ok(Text::Other)
    };
    Ok(Text::Count {
        key: Key::from_slice(alloc, key)?,
        by,
        down,
        quiet,
    })
}

fn read_flush(rest: &[u8]) -> Text
    ensures { result ≡ or_other (flushes (words rest.now)) }
{
    match quiet_at(rest) {
        Some(quiet) => Text::Flush { quiet },
        None => Text::Other,
    }
}

// Whether all words are keys.
fn are_keys(rest: &[u8]) -> bool
    ensures { result ≡ list_all is_key (words rest.now) }
{
    let mut left = rest;
    while let Some((word, behind)) = next_word(left) {
        if !key_only(word) {
            return false;
        }
        left = behind;
    }
    true
}

// Copies of all words.
fn keys_at(alloc: Global, rest: &[u8]) -> Result<Keys, AllocError>
    ensures { IfOk result (λ k. k ≡ words rest.now) }
{
    let mut keys = Keys::new(alloc);
    let mut left = rest;
    while let Some((word, behind)) = next_word(left) {
        keys.push(Key::from_slice(alloc, word)?)?;
        left = behind;
    }
    Ok(keys)
}

fn read_get(alloc: Global, rest: &[u8]) -> Result<Text, AllocError>
    ensures { IfOk result (λ t. t ≡ or_other (gets (words rest.now))) }
{
    if is_done(rest) || !are_keys(rest) {
        return Ok(Text::Other);
    }
    Ok(Text::Get {
        keys: keys_at(alloc, rest)?,
    })
}

fn read_bare(word: &[u8], rest: &[u8]) -> Text
    ensures { result ≡ or_other (bare word.now (words rest.now)) }
{
    if is(word, b"flush_all") {
        return read_flush(rest);
    }
    if is(word, b"version") & is_done(rest) {
        return Text::Version;
    }
    Text::Other
}

fn read_keyed(alloc: Global, word: &[u8], rest: &[u8]) -> Result<Text, AllocError>
    ensures { IfOk result (λ t. t ≡ or_other (plain word.now (words rest.now))) }
{
    if is(word, b"get") {
        return read_get(alloc, rest);
    }
    if is(word, b"delete") {
        return read_delete(alloc, rest);
    }
    if is(word, b"incr") {
        return read_count(alloc, false, rest);
    }
    if is(word, b"decr") {
        return read_count(alloc, true, rest);
    }
    Ok(read_bare(word, rest))
}

// A line that says all.
fn read_plain(alloc: Global, line: &[u8]) -> Result<Text, AllocError>
    requires { (t : Text) × (line_of (words line.now) ≡ says t) }
    ensures { IfOk result (λ t. line_of (words line.now) ≡ says t) }
{
    let Some((word, rest)) = next_word(line) else {
        return Ok(Text::Other)
    };
    read_keyed(alloc, word, rest)
}

/// The text command at the front, where `take_text` says that a whole one stands there.
pub fn read_text(alloc: Global, bytes: &[u8]) -> Result<Text, AllocError>
    requires { is_ok (text_at bytes.now) ≡ true }
    ensures { IfOk result (λ t. (rest : List ℕ) × (text_at bytes.now ≡ Ok (t, rest))) }
{
    let Some(at) = find_feed(bytes, 0) else {
        unreachable!();
    };
    let (line, rest) = split_line(bytes, at);
    match read_heading(line) {
        Heading::Stores(storing) => {
            let Ok((value, _)) = read_data(storing.size, rest) else {
                unreachable!();
            };
            let key = Key::from_slice(alloc, storing.key)?;
            let value = Blob::from_slice(alloc, value)?;
            Ok(Text::Store {
                word: storing.word,
                key,
                value,
                quiet: storing.quiet,
            })
        }
        Heading::Says => read_plain(alloc, line),
        Heading::Closes => unreachable!(),
    }
}
