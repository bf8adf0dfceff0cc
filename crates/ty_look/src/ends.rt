//! How many bytes a request takes, told by its sizes.
ghost use Rattle.std.specs.Prelude.{◌≡◌, [], ◌∷◌};
ghost use Rattle.tc_base.specs.Reading.{Gives};
ghost use Rattle.ty_wire.specs.Form.{word, long};
ghost use Rattle.ty_wire.specs.Spelling.{key_text, value_text};
ghost use Rattle.ty_wire.specs.Reading.{named_entries, number_entries, bare_entries, key_entries, entries};
ghost use Rattle.ty_look.specs.Seen.{end_at, list_at, pick_end, announced_at};

use tc_base::{KEY_MOST, NotWhole, REQUEST_MOST, VALUE_MOST, read_size};
use ty_wire::{Read, long_of, word_of};

fn key_end(bytes: &[u8]) -> Read<'_, usize>
    ensures { Gives (λ x. (x.0, x.1.now)) result (end_at (key_text ∷ []) bytes.now) }
{
    let (k, rest) = read_size(KEY_MOST, bytes)?;
    Ok((2 + (4 + k), rest))
}

fn pair_end(bytes: &[u8]) -> Read<'_, usize>
    ensures { Gives (λ x. (x.0, x.1.now)) result (end_at (key_text ∷ value_text ∷ []) bytes.now) }
{
    let (k, rest) = read_size(KEY_MOST, bytes)?;
    let (v, rest) = read_size(VALUE_MOST, rest)?;
    Ok((2 + (4 + k) + (4 + v), rest))
}

fn shift_end(bytes: &[u8]) -> Read<'_, usize>
    ensures { Gives (λ x. (x.0, x.1.now)) result (end_at (key_text ∷ value_text ∷ word ∷ []) bytes.now) }
{
    let (k, rest) = read_size(KEY_MOST, bytes)?;
    let (v, rest) = read_size(VALUE_MOST, rest)?;
    let (_, rest) = word_of(rest)?;
    Ok((2 + (4 + k) + (4 + v) + 4, rest))
}

fn key_word_end(bytes: &[u8]) -> Read<'_, usize>
    ensures { Gives (λ x. (x.0, x.1.now)) result (end_at (key_text ∷ word ∷ []) bytes.now) }
{
    let (k, rest) = read_size(KEY_MOST, bytes)?;
    let (_, rest) = word_of(rest)?;
    Ok((2 + (4 + k) + 4, rest))
}

fn key_longs_end(bytes: &[u8]) -> Read<'_, usize>
    ensures { Gives (λ x. (x.0, x.1.now)) result (end_at (key_text ∷ long ∷ long ∷ []) bytes.now) }
{
    let (k, rest) = read_size(KEY_MOST, bytes)?;
    let (_, rest) = long_of(rest)?;
    let (_, rest) = long_of(rest)?;
    Ok((2 + (4 + k) + 8 + 8, rest))
}

fn ext_end(bytes: &[u8]) -> Read<'_, usize>
    ensures { Gives (λ x. (x.0, x.1.now)) result (end_at (key_text ∷ word ∷ key_text ∷ value_text ∷ []) bytes.now) }
{
    let (n, rest) = read_size(KEY_MOST, bytes)?;
    let (_, rest) = word_of(rest)?;
    let (k, rest) = read_size(KEY_MOST, rest)?;
    let (v, rest) = read_size(VALUE_MOST, rest)?;
    Ok((2 + (4 + n) + 4 + (4 + k) + (4 + v), rest))
}

fn restore_end(bytes: &[u8]) -> Read<'_, usize>
    ensures { Gives (λ x. (x.0, x.1.now)) result (end_at (key_text ∷ long ∷ word ∷ []) bytes.now) }
{
    let (p, rest) = read_size(KEY_MOST, bytes)?;
    let (_, rest) = long_of(rest)?;
    let (_, rest) = word_of(rest)?;
    Ok((2 + (4 + p) + 8 + 4, rest))
}

fn master_end(bytes: &[u8]) -> Read<'_, usize>
    ensures { Gives (λ x. (x.0, x.1.now)) result (end_at (key_text ∷ word ∷ long ∷ word ∷ []) bytes.now) }
{
    let (h, rest) = read_size(KEY_MOST, bytes)?;
    let (_, rest) = word_of(rest)?;
    let (_, rest) = long_of(rest)?;
    let (_, rest) = word_of(rest)?;
    Ok((2 + (4 + h) + 4 + 8 + 4, rest))
}

fn repl_end(bytes: &[u8]) -> Read<'_, usize>
    ensures { Gives (λ x. (x.0, x.1.now)) result (end_at (long ∷ word ∷ []) bytes.now) }
{
    let (_, rest) = long_of(bytes)?;
    let (_, rest) = word_of(rest)?;
    Ok((2 + 8 + 4, rest))
}

// An mget up to its first key.
fn keys_end(bytes: &[u8]) -> Read<'_, usize>
    ensures { Gives (λ x. (x.0, x.1.now)) result (list_at [] bytes.now) }
{
    let left = REQUEST_MOST - 6;
    let (_, rest) = read_size(left / 4, bytes)?;
    Ok((6, rest))
}

// A misc up to its first argument.
fn arguments_end(bytes: &[u8]) -> Read<'_, usize>
    ensures { Gives (λ x. (x.0, x.1.now)) result (list_at (key_text ∷ word ∷ []) bytes.now) }
{
    let (n, rest) = read_size(KEY_MOST, bytes)?;
    let (_, rest) = word_of(rest)?;
    let left = REQUEST_MOST - 14 - n;
    let (_, rest) = read_size(left / 4, rest)?;
    Ok((6 + (4 + n) + 4, rest))
}

fn named_end(command: u8, bytes: &[u8]) -> Read<'_, usize>
    ensures { Gives (λ x. (x.0, x.1.now)) result (pick_end named_entries command bytes.now) }
{
    match command {
        0x74 => restore_end(bytes),
        0x78 => master_end(bytes),
        0x90 => arguments_end(bytes),
        0xA0 => repl_end(bytes),
        _ => Err(NotWhole::Bad),
    }
}

fn number_end(command: u8, bytes: &[u8]) -> Read<'_, usize>
    ensures { Gives (λ x. (x.0, x.1.now)) result (pick_end number_entries command bytes.now) }
{
    match command {
        0x58 => key_word_end(bytes),
        0x60 => key_word_end(bytes),
        0x61 => key_longs_end(bytes),
        0x68 => ext_end(bytes),
        _ => named_end(command, bytes),
    }
}

fn bare_end(command: u8, bytes: &[u8]) -> Read<'_, usize>
    ensures { Gives (λ x. (x.0, x.1.now)) result (pick_end bare_entries command bytes.now) }
{
    match command {
        0x50 => Ok((2, bytes)),
        0x51 => Ok((2, bytes)),
        0x70 => Ok((2, bytes)),
        0x72 => Ok((2, bytes)),
        0x80 => Ok((2, bytes)),
        0x81 => Ok((2, bytes)),
        0x88 => Ok((2, bytes)),
        _ => number_end(command, bytes),
    }
}

fn keyed_end(command: u8, bytes: &[u8]) -> Read<'_, usize>
    ensures { Gives (λ x. (x.0, x.1.now)) result (pick_end key_entries command bytes.now) }
{
    match command {
        0x20 => key_end(bytes),
        0x30 => key_end(bytes),
        0x31 => keys_end(bytes),
        0x38 => key_end(bytes),
        0x71 => key_end(bytes),
        0x73 => key_end(bytes),
        _ => bare_end(command, bytes),
    }
}

fn stored_end(command: u8, bytes: &[u8]) -> Read<'_, usize>
    ensures { Gives (λ x. (x.0, x.1.now)) result (pick_end entries command bytes.now) }
{
    match command {
        0x10 => pair_end(bytes),
        0x11 => pair_end(bytes),
        0x12 => pair_end(bytes),
        0x13 => shift_end(bytes),
        0x18 => pair_end(bytes),
        _ => keyed_end(command, bytes),
    }
}

/// How many bytes the request begun has, or it has up to its list, 0 where its sizes don't say so yet.
#[tactic(auto, unfolding(crate::specs::Seen::announced_at))]
pub fn announced(bytes: &[u8]) -> usize
    ensures { result ≡ announced_at bytes.now }
{
    match bytes {
        [0xC8, command, rest @ ..] => match stored_end(*command, rest) {
            Ok((n, _)) => n,
            Err(_) => 0,
        },
        _ => 0,
    }
}
