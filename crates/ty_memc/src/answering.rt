//! What a text command asks of the database, and its reply.
ghost use Rattle.std.specs.Prelude.{◌≡◌, ◌^◌, ◌-◌, IfOk};
ghost use Rattle.ty_memc.specs.Answers.{count_on, counted, does, does_if, line, say, store_on, then_of};
ghost use Rattle.ty_memc.specs.Lines.{number};
ghost use Rattle.ty_memc.specs.Seen.{seen_value};

use crate::text::{Text, Then, Word};
use crate::words::number_in;
use itoa::Buffer;
use std::alloc::{AllocError, Global};
use tc_base::{Blob, Key, Request};

// A line, and nothing where no reply is wanted.
fn reply_line(alloc: Global, quiet: bool, text: &[u8]) -> Result<Blob, AllocError>
    ensures { IfOk result (λ b. b ≡ line quiet text.now) }
{
    if quiet {
        return Ok(Blob::new(alloc));
    }
    let mut reply = Blob::from_slice(alloc, text)?;
    reply.append(b"\r\n")?;
    Ok(reply)
}

fn saying(alloc: Global, quiet: bool, text: &[u8]) -> Result<Then, AllocError>
    ensures { IfOk result (λ t. t ≡ say quiet text.now) }
{
    Ok(Then::Say {
        reply: reply_line(alloc, quiet, text)?,
    })
}

fn asking(alloc: Global, quiet: bool, request: Request, text: &[u8]) -> Result<Then, AllocError>
    ensures { IfOk result (λ t. t ≡ does quiet request text.now) }
{
    Ok(Then::Do {
        request,
        reply: reply_line(alloc, quiet, text)?,
    })
}

// Asks for what stores, where that is wanted.
fn storing(alloc: Global, wanted: bool, quiet: bool, request: Request) -> Result<Then, AllocError>
    ensures { IfOk result (λ t. t ≡ does_if wanted quiet request) }
{
    if !wanted {
        return saying(alloc, quiet, b"NOT_STORED");
    }
    asking(alloc, quiet, request, b"STORED")
}

// What a storing command asks, where its key is held or isn't.
fn answer_store(
    alloc: Global,
    word: Word,
    key: Key,
    value: Blob,
    quiet: bool,
    is_held: bool,
) -> Result<Then, AllocError>
    ensures { IfOk result (λ t. t ≡ store_on word key value quiet is_held) }
{
    match word {
        Word::Set => storing(alloc, true, quiet, Request::Put { key, value }),
        Word::Add => storing(alloc, !is_held, quiet, Request::PutKeep { key, value }),
        Word::Replace => storing(alloc, is_held, quiet, Request::Put { key, value }),
        Word::Append => storing(alloc, is_held, quiet, Request::PutCat { key, value }),
    }
}

// The number after a count.
fn count(down: bool, by: u64, number: u64) -> u64
    ensures { result ≡ counted down by number }
{
    if down {
        number.saturating_sub(by)
    } else {
        number.wrapping_add(by)
    }
}

// What a count asks, where its key is held.
fn answer_count(
    alloc: Global,
    key: Key,
    by: u64,
    down: bool,
    quiet: bool,
    held: &[u8],
) -> Result<Then, AllocError>
    ensures { IfOk result (λ t. t ≡ count_on key down by quiet (number 20 (2 ^ 64 - 1) held.now)) }
{
    let Some(number) = number_in(20, u64::MAX, held) else {
        return saying(
            alloc,
            quiet,
            b"CLIENT_ERROR cannot increment or decrement non-numeric value",
        )
    };
    let mut buffer = Buffer::new();
    let text = buffer.format(count(down, by, number)).as_bytes();
    let value = Blob::from_slice(alloc, text)?;
    asking(alloc, quiet, Request::Put { key, value }, text)
}

/// What a text command asks of the database, and its reply, by the value that its key has, where it has one. Of a get, whose keys are
/// asked for one by one, nothing is said here.
pub fn answer(alloc: Global, text: Text, got: Option<&[u8]>) -> Result<Then, AllocError>
    ensures { IfOk result (λ t. t ≡ then_of text (seen_value got.entry)) }
{
    match text {
        Text::Store {
            word,
            key,
            value,
            quiet,
        } => answer_store(alloc, word, key, value, quiet, got.is_some()),
        Text::Delete { key, quiet } => match got {
            Some(_) => asking(alloc, quiet, Request::Out { key }, b"DELETED"),
            None => saying(alloc, quiet, b"NOT_FOUND"),
        },
        Text::Count {
            key,
            by,
            down,
            quiet,
        } => match got {
            Some(held) => answer_count(alloc, key, by, down, quiet, held),
            None => saying(alloc, quiet, b"NOT_FOUND"),
        },
        Text::Flush { quiet } => asking(alloc, quiet, Request::Vanish, b"OK"),
        Text::Version => saying(alloc, false, b"VERSION 1.1"),
        Text::Other => saying(alloc, false, b"ERROR"),
        Text::Get { .. } => Ok(Then::Say {
            reply: Blob::new(alloc),
        }),
    }
}
