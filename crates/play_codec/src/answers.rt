//! What text commands ask of the database, and what is replied.
ghost use Rattle.std.specs.Prelude.{◌≡◌, ℕ, List, Ok};
ghost use Rattle.ty_wire.specs.Spelling.{Fits};
ghost use Rattle.ty_memc.specs.Answers.{IsAsked};
ghost use Rattle.ty_memc.specs.Reading.{text_at};

use crate::behind::{begun, is_bare};
use crate::texts::command_at;
use play_text::{Line, Pattern, Wrong};
use std::alloc::{AllocError, Global};
use tc_base::{Blob, Key, Request};
use ty_memc::{Text, Then, answer, asked_key, spell_update, write_error, write_value};

// What a text command asks of the database, as bytes, and what is replied.
#[derive(Drop)]
struct Asked {
    request: Option<Blob>,
    reply: Blob,
}

// A request as bytes.
fn spelling_of(alloc: Global, request: Request) -> Result<Blob, AllocError>
    requires asked { IsAsked request }
    requires fits { Fits request }
{
    let spelled = spell_update(alloc, &request);
    drop(request);
    spelled
}

// What a text command that was read asks, where its key has this value.
fn asked_of(alloc: Global, text: Text, held: Option<&[u8]>) -> Result<Asked, AllocError>
    requires { (bytes : List ℕ) × (rest : List ℕ) × (text_at bytes ≡ Ok (text, rest)) }
{
    match answer(alloc, text, held)? {
        Then::Say { reply } => Ok(Asked {
            request: None,
            reply,
        }),
        Then::Do { request, reply } => Ok(Asked {
            request: Some(spelling_of(alloc, request)?),
            reply,
        }),
    }
}

// The bytes in front of a mark, and none where `-` stands there.
fn some_up_to(line: &mut Line, mark: &str) -> Result<Option<Pattern>, Wrong> {
    if !line.rest().trim_start().starts_with('-') {
        return Ok(Some(line.bytes_up_to(mark)?));
    }
    if line.has_dash_up_to(mark)? {
        return Ok(None);
    }
    Err(Wrong::Unread)
}

fn slice_of(bytes: &Option<Pattern>) -> Option<&[u8]> {
    match bytes {
        Some(bytes) => Some(bytes.as_slice()),
        None => None,
    }
}

fn blob_slice(bytes: &Option<Blob>) -> Option<&[u8]> {
    match bytes {
        Some(bytes) => Some(bytes.as_slice()),
        None => None,
    }
}

// What the command that bytes are asks.
fn asked_at(alloc: Global, bytes: &[u8], held: Option<&[u8]>) -> Result<Asked, Wrong> {
    let text = command_at(alloc, bytes)?;
    Ok(asked_of(alloc, text, held)?)
}

/// `then BYTES : HELD => REQUEST : REPLY`: what a text command asks of the database and what is replied, where its key has this value: `-` where it has none, and where nothing
/// is asked.
pub fn is_then(alloc: Global, line: &mut Line) -> Result<(), Wrong> {
    let bytes = line.bytes_up_to(" :")?;
    let held = some_up_to(line, "=>")?;
    let asked = asked_at(alloc, bytes.as_slice(), slice_of(&held))?;
    let request = some_up_to(line, " :")?;
    line.told_if(request.as_ref(), blob_slice(&asked.request))?;
    line.is_bytes(asked.reply.as_slice())
}

// The key that the command that bytes are asks for.
fn key_at(alloc: Global, bytes: &[u8]) -> Result<Option<Key>, Wrong> {
    let text = command_at(alloc, bytes)?;
    let key = asked_key(alloc, &text);
    drop(text);
    Ok(key?)
}

/// `asks BYTES => KEY`: the key whose value a text command asks for first, `-` where it asks for none.
pub fn asks(alloc: Global, line: &mut Line) -> Result<(), Wrong> {
    let bytes = line.given()?;
    match key_at(alloc, bytes.as_slice())? {
        Some(key) => line.is_bytes(key.as_slice()),
        None => line.is_text(String::from_str(alloc, "-")?),
    }
}

// What a get replies of a key and its value, behind other bytes.
fn value_behind(alloc: Global, key: &[u8], value: &[u8]) -> Result<Blob, AllocError> {
    let mut all = begun(alloc)?;
    write_value(key, value, &mut all)?;
    Ok(all)
}

/// `value KEY = VALUE => BYTES`: what a get replies of a key and its value, as it is written behind other bytes.
pub fn value(alloc: Global, line: &mut Line) -> Result<Blob, Wrong> {
    let key = line.key()?;
    let value = line.given()?;
    Ok(value_behind(alloc, key.as_slice(), value.as_slice())?)
}

/// `error quiet|loud => BYTES`: the reply where a request fails, as it is written behind other bytes.
pub fn error(alloc: Global, line: &mut Line) -> Result<Blob, Wrong> {
    let quiet = line.is_second("loud", "quiet")?;
    is_bare(line)?;
    let mut all = begun(alloc)?;
    write_error(quiet, &mut all)?;
    Ok(all)
}
