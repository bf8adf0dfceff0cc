//! Replies that are made of rows.
ghost use Rattle.std.specs.Prelude.{◌≡◌, ◌+◌, ◌≤◌, ◌++◌, ◌∷◌, [], ℕ, List, length, OnErr, IfOk, IsErrOf};
ghost use Rattle.std.specs.Int.{w32, to_be_bytes};
ghost use Rattle.tc_base.specs.Files.{wrote};
ghost use Rattle.ty_wire.specs.Prefixes.{IsPrefix};
ghost use Rattle.tc_engine.specs.Rows.{bytes_of};
ghost use Rattle.ty_answers.specs.Lists.{Gives, Opens, Undone, counted, no_rows, room};

use crate::voice::Voice;
use std::alloc::{AllocError, Global};
use tc_base::{Blob, REPLY_MOST};
use tc_engine::Rows;
use tc_space::RecErr;

/// Begins a reply of one value behind the bytes of a reply.
pub fn open_value(alloc: Global, reply: &mut Blob) -> Result<Rows, AllocError>
    ensures ok { IfOk result (λ rows. Opens rows (reply.old ++ 0 ∷ []) 67108863) }
    ensures err { OnErr result (reply.new ≡ reply.old) }
{
    reply.push(0)?;
    Ok(Rows::over(alloc, reply, REPLY_MOST as u32 - 1))
}

/// Begins a list behind the bytes of a reply, with a count that is written at its end.
pub fn open_list(alloc: Global, reply: &mut Blob) -> Result<Rows, AllocError>
    ensures ok { IfOk result (λ rows. Opens rows (reply.old ++ no_rows) room) }
    ensures err { OnErr result (reply.new ≡ reply.old) }
{
    reply.append(&[0; 5])?;
    Ok(Rows::over(alloc, reply, REPLY_MOST as u32 - 5))
}

/// Gives the bytes of rows back, and answers whether they stand: where nothing was found, or it is too long, a refusal stands behind the
/// first bytes.
pub fn give_back(
    made: Result<bool, RecErr>,
    rows: Rows,
    begin: usize,
    voice: Voice,
    reply: &mut Blob,
) -> Result<bool, RecErr>
    ensures ok { IfOk result (λ whole. Gives made rows begin voice whole (bytes_of rows) reply.new) }
    ensures front { (front : List ℕ) → length front ≡ begin → IsPrefix front (bytes_of rows) → IsPrefix front reply.new }
    ensures undone { Undone made rows result }
    ensures fault { IsErrOf result RecErr.Fault → IsErrOf made RecErr.Fault }
    ensures full { IsErrOf result RecErr.Full → IsErrOf made RecErr.Full }
{
    let long = rows.is_long();
    rows.give(reply);
    let found = made?;
    if found && !long {
        return Ok(true);
    }
    reply.truncate(begin);
    voice.fail(reply)?;
    Ok(false)
}

// Puts bytes over others from a place on.
fn put_at(into: &mut [u8], at: usize, bytes: &[u8])
    requires { at + length bytes.now ≤ length into.old }
    ensures { into.new ≡ wrote at bytes.now into.old }
{
    into[at..at + bytes.len()].copy_from_slice(bytes);
}

// The bytes with a count from a place on.
fn with_count(bytes: Blob, at: usize, count: u32) -> Blob
    requires { at + 4 ≤ length bytes }
    ensures { result ≡ wrote at (to_be_bytes w32 count) bytes }
{
    let mut bytes = bytes.into_vec();
    put_at(&mut bytes, at, &count.to_be_bytes());
    Blob::from_vec(bytes)
}

/// Ends a list that began behind so many bytes, and answers whether it stands, with its count.
pub fn end_list(
    alloc: Global,
    made: Result<bool, RecErr>,
    rows: Rows,
    begin: usize,
    voice: Voice,
    reply: &mut Blob,
) -> Result<bool, RecErr>
    requires { begin + 5 ≤ length (bytes_of rows) }
    ensures ok { IfOk result (λ whole. Gives made rows begin voice whole (counted rows begin) reply.new) }
    ensures front { (front : List ℕ) → length front ≡ begin → IsPrefix front (bytes_of rows) → IsPrefix front reply.new }
    ensures undone { Undone made rows result }
    ensures fault { IsErrOf result RecErr.Fault → IsErrOf made RecErr.Fault }
    ensures full { IsErrOf result RecErr.Full → IsErrOf made RecErr.Full }
{
    let count = rows.count() as u32;
    if !give_back(made, rows, begin, voice, reply)? {
        return Ok(false);
    }
    let bytes = std::mem::replace(reply, Blob::new(alloc));
    *reply = with_count(bytes, begin + 1, count);
    Ok(true)
}
