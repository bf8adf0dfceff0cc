//! The request of a text command, spelled for an update record.
ghost use Rattle.std.specs.Prelude.{◌≡◌, ◌≤◌, length, IfOk};
ghost use Rattle.ty_wire.specs.Spelling.{spelling, Fits};
ghost use Rattle.ty_memc.specs.Answers.{IsAsked, asked, is_quiet};
ghost use Rattle.ty_memc.specs.Fitting.{pair_bytes, key_bytes};

use crate::text::{Text, Word};
use std::alloc::{AllocError, Global};
use tc_base::{Blob, Key, Request};

// A command byte, a key and a value with their sizes in front.
fn spell_pair(alloc: Global, command: u8, key: &[u8], value: &[u8]) -> Result<Blob, AllocError>
    requires key { length key.now ≤ 1048576 }
    requires value { length value.now ≤ 16777216 }
    ensures { IfOk result (λ b. b ≡ pair_bytes command key.now value.now) }
{
    let mut bytes = Blob::from_slice(alloc, &[0xC8, command])?;
    bytes.append(&(key.len() as u32).to_be_bytes())?;
    bytes.append(&(value.len() as u32).to_be_bytes())?;
    bytes.append(key)?;
    bytes.append(value)?;
    Ok(bytes)
}

// A command byte and a key with its size in front.
fn spell_key(alloc: Global, command: u8, key: &[u8]) -> Result<Blob, AllocError>
    requires { length key.now ≤ 1048576 }
    ensures { IfOk result (λ b. b ≡ key_bytes command key.now) }
{
    let mut bytes = Blob::from_slice(alloc, &[0xC8, command])?;
    bytes.append(&(key.len() as u32).to_be_bytes())?;
    bytes.append(key)?;
    Ok(bytes)
}

/// The bytes of a request that a text command asks for.
#[tactic(auto, unfolding(ty_wire::specs::Spelling::spelling))]
pub fn spell_update(alloc: Global, request: &Request) -> Result<Blob, AllocError>
    requires asked { IsAsked request.now }
    requires fits { Fits request.now }
    ensures { IfOk result (λ b. b ≡ spelling request.now) }
{
    match request {
        Request::Put { key, value } => spell_pair(alloc, 0x10, key.as_slice(), value.as_slice()),
        Request::PutKeep { key, value } => {
            spell_pair(alloc, 0x11, key.as_slice(), value.as_slice())
        }
        Request::PutCat { key, value } => spell_pair(alloc, 0x12, key.as_slice(), value.as_slice()),
        Request::Out { key } => spell_key(alloc, 0x20, key.as_slice()),
        Request::Vanish => Blob::from_slice(alloc, &[0xC8, 0x72]),
        _ => unreachable!(),
    }
}

/// A copy of the key whose value a command asks for first, where it asks for one.
pub fn asked_key(alloc: Global, text: &Text) -> Result<Option<Key>, AllocError>
    ensures { IfOk result (λ o. o ≡ asked text.now) }
{
    let key = match text {
        Text::Store { word, key, .. } => {
            if *word == Word::Set {
                return Ok(None);
            }
            key
        }
        Text::Delete { key, .. } => key,
        Text::Count { key, .. } => key,
        _ => return Ok(None),
    };
    Ok(Some(Key::from_slice(alloc, key.as_slice())?))
}

/// Whether no reply is wanted.
pub fn quiet(text: &Text) -> bool
    ensures { result ≡ is_quiet text.now }
{
    match text {
        Text::Store { quiet, .. } => *quiet,
        Text::Delete { quiet, .. } => *quiet,
        Text::Count { quiet, .. } => *quiet,
        Text::Flush { quiet } => *quiet,
        _ => false,
    }
}
