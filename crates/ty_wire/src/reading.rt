//! The request at the front of bytes.
ghost use Rattle.std.specs.Prelude.{◌≡◌, IfOk, [], ◌∷◌};
ghost use Rattle.tc_base.specs.Reading.{Gives};
ghost use Rattle.tc_base.specs.declared.request.Request.{Request};
ghost use Rattle.ty_wire.specs.Form.{word};
ghost use Rattle.ty_wire.specs.Reading.{pick, counted_at, named_entries, number_entries, bare_entries, key_entries, entries, request_at};
ghost use Rattle.ty_wire.specs.Parsed.{parsed, texts, IsWhole, AreWhole};
ghost use Rattle.ty_wire.specs.Spelling.{key_text, spelling, Fits};
ghost use Rattle.ty_wire.specs.Prefixes.{IsPrefix};
ghost use Rattle.ty_wire.specs.Taking.{HasOneAtMost, Takes, IsRead};

use crate::copies::copied;
use crate::items::skip_items;
use crate::parsed::{Bare, Items, Keyed, Parsed, Stores, Texted};
use crate::shapes::{
    Read, ext_of, key_longs_of, key_of, key_word_of, master_of, pair_of, repl_of, restore_of,
    shift_of, word_of,
};
use std::alloc::{AllocError, Global};
use tc_base::{KEY_MOST, NotWhole, REQUEST_MOST, Request, VALUE_MOST, read_bytes, read_size};

/// What stands at the front of bytes.
#[derive(Clone, Copy, PartialEq, Eq)]
pub enum Front {
    /// A whole request of that many bytes.
    Whole(usize),
    /// Less than a request: some bytes behind it make it whole.
    Part,
    /// Neither: no request begins so.
    Bad,
}

// A count and so many keys.
fn keys_of(bytes: &[u8]) -> Read<'_, Items<'_>>
    ensures read { Gives (λ x. ((tt, texts x.0), x.1.now)) result (counted_at [] 1048576 bytes.now) }
    ensures whole { IfOk result (λ x. AreWhole x.0) }
{
    let left = REQUEST_MOST - 6;
    let (count, bytes) = read_size(left / 4, bytes)?;
    let rest = skip_items(KEY_MOST, count, left, bytes)?;
    Ok((
        Items {
            count,
            most: KEY_MOST,
            left,
            bytes,
        },
        rest,
    ))
}

// A name, options, a count and so many arguments.
fn call_of(bytes: &[u8]) -> Read<'_, (&[u8], u32, Items<'_>)>
    ensures read { Gives (λ x. (((x.0.0.now, (x.0.1, tt)), texts x.0.2), x.1.now)) result (counted_at (key_text ∷ word ∷ []) 16777216 bytes.now) }
    ensures whole { IfOk result (λ x. AreWhole x.0.2) }
{
    let (n, rest) = read_size(KEY_MOST, bytes)?;
    let (options, rest) = word_of(rest)?;
    let left = REQUEST_MOST - 14 - n;
    let (count, rest) = read_size(left / 4, rest)?;
    let (name, bytes) = read_bytes(n, rest)?;
    let rest = skip_items(VALUE_MOST, count, left, bytes)?;
    let args = Items {
        count,
        most: VALUE_MOST,
        left,
        bytes,
    };
    Ok(((name, options, args), rest))
}

#[inline(always)]
fn named_of(command: u8, bytes: &[u8]) -> Read<'_, Parsed<'_>>
    ensures read { Gives (λ x. (parsed x.0, x.1.now)) result (pick named_entries command bytes.now) }
    ensures whole { IfOk result (λ x. IsWhole x.0) }
{
    match command {
        0x74 => {
            let ((path, timestamp, options), rest) = restore_of(bytes)?;
            Ok((
                Parsed::Texted(Texted::Restore(timestamp, options), path),
                rest,
            ))
        }
        0x78 => {
            let ((host, port, timestamp, options), rest) = master_of(bytes)?;
            Ok((
                Parsed::Texted(Texted::SetMst(port, timestamp, options), host),
                rest,
            ))
        }
        0x90 => {
            let ((name, options, args), rest) = call_of(bytes)?;
            Ok((Parsed::Misc(name, options, args), rest))
        }
        0xA0 => {
            let ((timestamp, server), rest) = repl_of(bytes)?;
            Ok((Parsed::Bare(Bare::Repl(timestamp, server)), rest))
        }
        _ => Err(NotWhole::Bad),
    }
}

#[inline(always)]
fn number_of(command: u8, bytes: &[u8]) -> Read<'_, Parsed<'_>>
    ensures read { Gives (λ x. (parsed x.0, x.1.now)) result (pick number_entries command bytes.now) }
    ensures whole { IfOk result (λ x. IsWhole x.0) }
{
    match command {
        0x58 => {
            let ((prefix, maximum), rest) = key_word_of(bytes)?;
            Ok((
                Parsed::Keyed(Keyed::FwmKeys(maximum.cast_signed()), prefix),
                rest,
            ))
        }
        0x60 => {
            let ((key, number), rest) = key_word_of(bytes)?;
            Ok((Parsed::Keyed(Keyed::AddInt(number), key), rest))
        }
        0x61 => {
            let ((key, integer, fraction), rest) = key_longs_of(bytes)?;
            Ok((
                Parsed::Keyed(Keyed::AddDouble(integer, fraction), key),
                rest,
            ))
        }
        0x68 => {
            let ((name, options, key, value), rest) = ext_of(bytes)?;
            Ok((Parsed::Ext(name, options, key, value), rest))
        }
        _ => named_of(command, bytes),
    }
}

#[inline(always)]
fn bare_of(command: u8, bytes: &[u8]) -> Read<'_, Parsed<'_>>
    ensures read { Gives (λ x. (parsed x.0, x.1.now)) result (pick bare_entries command bytes.now) }
    ensures whole { IfOk result (λ x. IsWhole x.0) }
{
    match command {
        0x50 => Ok((Parsed::Bare(Bare::IterInit), bytes)),
        0x51 => Ok((Parsed::Bare(Bare::IterNext), bytes)),
        0x70 => Ok((Parsed::Bare(Bare::Sync), bytes)),
        0x72 => Ok((Parsed::Bare(Bare::Vanish), bytes)),
        0x80 => Ok((Parsed::Bare(Bare::Rnum), bytes)),
        0x81 => Ok((Parsed::Bare(Bare::Size), bytes)),
        0x88 => Ok((Parsed::Bare(Bare::Stat), bytes)),
        _ => number_of(command, bytes),
    }
}

#[inline(always)]
fn keyed_of(command: u8, bytes: &[u8]) -> Read<'_, Parsed<'_>>
    ensures read { Gives (λ x. (parsed x.0, x.1.now)) result (pick key_entries command bytes.now) }
    ensures whole { IfOk result (λ x. IsWhole x.0) }
{
    match command {
        0x20 => {
            let (key, rest) = key_of(bytes)?;
            Ok((Parsed::Keyed(Keyed::Out, key), rest))
        }
        0x30 => {
            let (key, rest) = key_of(bytes)?;
            Ok((Parsed::Keyed(Keyed::Get, key), rest))
        }
        0x31 => {
            let (keys, rest) = keys_of(bytes)?;
            Ok((Parsed::MGet(keys), rest))
        }
        0x38 => {
            let (key, rest) = key_of(bytes)?;
            Ok((Parsed::Keyed(Keyed::Vsiz, key), rest))
        }
        0x71 => {
            let (text, rest) = key_of(bytes)?;
            Ok((Parsed::Texted(Texted::Optimize, text), rest))
        }
        0x73 => {
            let (path, rest) = key_of(bytes)?;
            Ok((Parsed::Texted(Texted::Copy, path), rest))
        }
        _ => bare_of(command, bytes),
    }
}

#[inline(always)]
fn stored_of(command: u8, bytes: &[u8]) -> Read<'_, Parsed<'_>>
    ensures read { Gives (λ x. (parsed x.0, x.1.now)) result (pick entries command bytes.now) }
    ensures whole { IfOk result (λ x. IsWhole x.0) }
{
    match command {
        0x10 => {
            let ((key, value), rest) = pair_of(bytes)?;
            Ok((Parsed::Stores(Stores::Put, key, value), rest))
        }
        0x11 => {
            let ((key, value), rest) = pair_of(bytes)?;
            Ok((Parsed::Stores(Stores::PutKeep, key, value), rest))
        }
        0x12 => {
            let ((key, value), rest) = pair_of(bytes)?;
            Ok((Parsed::Stores(Stores::PutCat, key, value), rest))
        }
        0x13 => {
            let ((key, value, width), rest) = shift_of(bytes)?;
            Ok((Parsed::Stores(Stores::PutShl(width), key, value), rest))
        }
        0x18 => {
            let ((key, value), rest) = pair_of(bytes)?;
            Ok((Parsed::Stores(Stores::PutNr, key, value), rest))
        }
        _ => keyed_of(command, bytes),
    }
}

#[tactic(auto, unfolding(crate::specs::Reading::request_at, crate::specs::Reading::fields_at))]
#[inline(always)]
fn request_of(bytes: &[u8]) -> Read<'_, Parsed<'_>>
    ensures read { Gives (λ x. (parsed x.0, x.1.now)) result (request_at bytes.now) }
    ensures whole { IfOk result (λ x. IsWhole x.0) }
{
    match bytes {
        [] => Err(NotWhole::Part),
        [0xC8] => Err(NotWhole::Part),
        [0xC8, command, rest @ ..] => stored_of(*command, rest),
        _ => Err(NotWhole::Bad),
    }
}

/// What stands at the front, by the grammar. It looks at sizes alone, whatever the length of keys and values.
#[inline(always)]
pub fn take(bytes: &[u8]) -> Front
    ensures grammar { Takes bytes.now result }
    ensures reading { IsRead bytes.now result }
    ensures alone { HasOneAtMost bytes.now }
{
    match request_of(bytes) {
        Ok((_, rest)) => Front::Whole(bytes.len() - rest.len()),
        Err(NotWhole::Part) => Front::Part,
        Err(NotWhole::Bad) => Front::Bad,
    }
}

/// The request at the front, where `take` says that a whole one stands there.
#[inline(always)]
pub fn read_request(alloc: Global, bytes: &[u8]) -> Result<Request, AllocError>
    requires { (r : Request) × Fits r × IsPrefix (spelling r) bytes.now }
    ensures { IfOk result (λ r. Fits r × IsPrefix (spelling r) bytes.now) }
{
    match request_of(bytes) {
        Ok((p, _)) => copied(alloc, p),
        Err(_) => unreachable!(),
    }
}
