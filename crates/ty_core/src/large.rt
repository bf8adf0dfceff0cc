//! A put of a large value, whose bytes come in pieces.
ghost use Rattle.std.specs.Prelude.{◌≡◌, ◌++◌, ◌+◌, ◌≤◌, [], ◌∷◌, length, drop, take, OnOk, OnErr, IfOk, IfSome, if◌then◌else◌, Some, None};
ghost use Rattle.ty_memc.specs.Fronts.{IsPieceRead, TakesPiece};
ghost use Rattle.ty_core.specs.Gathering.{Adds, BeginsPut, Gathers, all_of};

use bytes::BytesMut;
use std::alloc::{AllocError, Global};
use tc_base::{Blob, KEY_MOST, Key, VALUE_MOST, read_bytes, read_size};
use ty_wire::Front;

// A put of at least so many bytes is gathered apart.
const LARGE: usize = 65_536;

/// A put at the front of a connection's bytes. Its value is gathered where it will lie, so that none of its bytes is copied once more.
#[derive(Drop)]
pub struct Large {
    // the bytes in front of the value
    head: Blob,
    value: Blob,
    // so many bytes the value is to have
    size: usize,
}

// Of a put whose first two bytes stand in front of these, how many bytes it has in front of its value, and how many the value has.
fn sizes_at(bytes: &[u8]) -> Option<(usize, usize)>
    ensures { IfSome result (λ x. (x.0 ≤ 2 + length bytes.now) × BeginsPut (take x.0 (0xC8 ∷ 0x10 ∷ bytes.now)) x.1) }
{
    let Ok((named, rest)) = read_size(KEY_MOST, bytes) else {
        return None;
    };
    let Ok((size, rest)) = read_size(VALUE_MOST, rest) else {
        return None;
    };
    let Ok((key, _)) = read_bytes(named, rest) else {
        return None;
    };
    Some((10 + key.len(), size))
}

// The same of bytes, where they begin a put.
fn put_at(bytes: &[u8]) -> Option<(usize, usize)>
    ensures { IfSome result (λ x. (x.0 ≤ length bytes.now) × BeginsPut (take x.0 bytes.now) x.1) }
{
    match bytes {
        [0xC8, 0x10, rest @ ..] => sizes_at(rest),
        _ => None,
    }
}

impl Large {
    /// What these bytes begin, where that is a put of at least `least` bytes, those are many, and there is memory for them.
    #[tactic(auto, using(crate::proofs::Gathering::begun))]
    pub fn begin(alloc: Global, bytes: &[u8], least: usize) -> Option<Large>
        ensures begun { IfSome result (λ large. Gathers large [] × (bytes.now ≡ all_of (Some large) [])) }
    {
        if least < LARGE {
            return None;
        }
        let (at, size) = put_at(bytes)?;
        let (head, front) = bytes.split_at(at);
        if front.len() > size {
            return None;
        }
        let Ok(head) = Blob::from_slice(alloc, head) else {
            return None;
        };
        let Ok(mut value) = Vec::with_capacity(alloc, size) else {
            return None;
        };
        let Ok(()) = value.extend_from_slice(front) else {
            return None;
        };
        Some(Large {
            head,
            value: Blob::from_vec(value),
            size,
        })
    }

    /// Adds bytes: those of the value to it, and what is left behind those that stand there. An `Err` changes nothing.
    pub fn add(&mut self, behind: &mut BytesMut, bytes: &[u8]) -> Result<(), AllocError>
        requires { Gathers self.old behind.old.items }
        ensures ok { OnOk result (Adds self.old self.new behind.old.items behind.new.items bytes.now) }
        ensures err { OnErr result ((self.new ≡ self.old) × (behind.new.items ≡ behind.old.items)) }
    {
        let left = self.size - self.value.len();
        if bytes.len() <= left {
            return self.value.append(bytes);
        }
        let (own, rest) = bytes.split_at(left.min(bytes.len()));
        let len = behind.len();
        behind.extend_from_slice(rest)?;
        match self.value.append(own) {
            Ok(()) => Ok(()),
            Err(e) => {
                behind.truncate(len);
                Err(e)
            }
        }
    }

    /// What stands at the front.
    pub fn front(&self, behind: &BytesMut) -> Front
        requires { Gathers self.now behind.now.items }
        ensures grammar { TakesPiece (all_of (Some self.now) behind.now.items) result }
        ensures reading { IsPieceRead (all_of (Some self.now) behind.now.items) result }
    {
        if self.value.len() < self.size {
            return Front::Part;
        }
        Front::Whole(self.head.len() + self.value.len())
    }

    /// A copy of its bytes where they are asked for.
    pub fn copy(&self, alloc: Global, asked: bool) -> Result<Option<Blob>, AllocError>
        ensures { IfOk result (λ o. o ≡ (if asked then Some (self.now.head ++ self.now.value) else None)) }
    {
        if !asked {
            return Ok(None);
        }
        let mut bytes = Blob::from_slice(alloc, self.head.as_slice())?;
        bytes.append(self.value.as_slice())?;
        Ok(Some(bytes))
    }

    /// A copy of its key.
    pub fn key(&self, alloc: Global) -> Result<Key, AllocError>
        requires { 10 ≤ length self.now.head }
        ensures { IfOk result (λ k. k ≡ drop 10 self.now.head) }
    {
        Key::from_slice(alloc, &self.head.as_slice()[10..])
    }

    /// Its value.
    pub fn into_value(self) -> Blob
        ensures { result ≡ self.value }
    {
        self.value
    }
}
