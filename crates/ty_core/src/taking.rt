//! The piece at the front of bytes, taken off them.
ghost use Rattle.std.specs.Prelude.{◌≡◌, ◌≤◌, ◌&&◌, false, true, is_ok, List, [], ℕ, IfOk, length, drop, if◌then◌else◌, Some, None};
ghost use Rattle.tc_model.specs.Apply.{updates};
ghost use Rattle.ty_memc.specs.Grammar.{begins_text, piece_at};
ghost use Rattle.ty_core.specs.Gathering.{BeginsPut, MayGather, all_of};
ghost use Rattle.ty_core.specs.Serving.{IsTaken, IsWhole, is_kept};

use crate::large::Large;
use bytes::BytesMut;
use std::alloc::{AllocError, Global};
use tc_base::{Blob, Request};
use ty_memc::{Piece, read_piece};
use ty_wire::{is_updating, read_request};

/// The room of at most so many bytes is used again.
pub const ROOM_KEPT: usize = 65_536;

/// A piece, and its bytes where they were asked for and it is a request that may update.
#[derive(Drop)]
pub struct Taken {
    pub piece: Piece,
    pub copied: Option<Blob>,
}

/// Whether a test holds and the request updates where it succeeds.
pub fn if_updating(request: &Request, test: bool) -> bool
    ensures { result ≡ (test && updates request.now) }
{
    if test { is_updating(request) } else { false }
}

// Whether the bytes of a piece are of use: those of a request that may update, where a test holds.
fn is_copied(piece: &Piece, test: bool) -> bool
    ensures { result ≡ is_kept test piece.now }
{
    match piece {
        Piece::Request { request } => if_updating(request, test),
        Piece::Text { .. } => false,
    }
}

// A copy of the bytes where they are asked for.
fn copy(alloc: Global, bytes: &[u8], asked: bool) -> Result<Option<Blob>, AllocError>
    ensures { IfOk result (λ o. o ≡ (if asked then Some bytes.now else None)) }
{
    if asked {
        Ok(Some(Blob::from_slice(alloc, bytes)?))
    } else {
        Ok(None)
    }
}

// Whether there is a first byte, and it isn't that of a request.
fn begins_text(bytes: &[u8]) -> bool
    ensures { result ≡ begins_text bytes.now }
{
    match bytes {
        [] => false,
        [first, _rest @ ..] => *first != 0xC8,
    }
}

// The request at the front of bytes, of whose own none are copied.
#[inline(always)]
fn read_alone(alloc: Global, unread: &[u8]) -> Result<Taken, AllocError>
    requires whole { is_ok (piece_at unread.now) ≡ true }
    requires first { begins_text unread.now ≡ false }
    ensures { IfOk result (λ t. (n : ℕ) → IsWhole n unread.now → IsTaken t false unread.now (drop n unread.now)) }
{
    let Ok(request) = read_request(alloc, unread) else {
        return Err(AllocError);
    };
    Ok(Taken {
        piece: Piece::Request { request },
        copied: None,
    })
}

// The piece at the front of bytes, whose own are the first `whole`.
#[inline(always)]
fn read_any(alloc: Global, unread: &[u8], whole: usize, logs: bool) -> Result<Taken, AllocError>
    requires { IsWhole whole unread.now }
    ensures { IfOk result (λ t. IsTaken t logs unread.now (drop whole unread.now)) }
{
    let piece = read_piece(alloc, unread)?;
    let copied = copy(alloc, &unread[..whole], is_copied(&piece, logs))?;
    Ok(Taken { piece, copied })
}

// The same. A request of whose bytes none are copied has a way of its own.
#[inline(always)]
fn read_small(alloc: Global, unread: &[u8], whole: usize, logs: bool) -> Result<Taken, AllocError>
    requires { IsWhole whole unread.now }
    ensures { IfOk result (λ t. IsTaken t logs unread.now (drop whole unread.now)) }
{
    if logs {
        return read_any(alloc, unread, whole, logs);
    }
    if begins_text(unread) {
        return read_any(alloc, unread, whole, logs);
    }
    read_alone(alloc, unread)
}

/// Drops all bytes. The room of many is given back, that of few is used again from its front.
pub fn empty(alloc: Global, bytes: &mut BytesMut)
    ensures { bytes.new.items ≡ [] }
{
    bytes.clear();
    if bytes.capacity() > ROOM_KEPT {
        *bytes = BytesMut::new(alloc);
    }
}

// Takes bytes off the front.
#[tactic(auto, using(crate::proofs::Fronts::none_left))]
fn pass(alloc: Global, bytes: &mut BytesMut, n: usize)
    requires { n ≤ length bytes.old.items }
    ensures { bytes.new.items ≡ drop n bytes.old.items }
{
    bytes.advance(n);
    if bytes.is_empty() {
        empty(alloc, bytes);
    }
}

// A piece that stands whole among the bytes.
#[inline(always)]
fn take_small(
    alloc: Global,
    bytes: &mut BytesMut,
    whole: usize,
    logs: bool,
) -> Result<Taken, AllocError>
    requires { IsWhole whole bytes.old.items }
    ensures { IfOk result (λ t. IsTaken t logs bytes.old.items bytes.new.items) }
{
    let taken = read_small(alloc, bytes.as_slice(), whole, logs);
    pass(alloc, bytes, whole);
    taken
}

// A put whose value was gathered.
#[tactic(auto, using(crate::proofs::Gathering::head_long, crate::proofs::Gathering::large_taken))]
#[inline(always)]
fn take_large(alloc: Global, large: Large, logs: bool) -> Result<Taken, AllocError>
    requires begins { BeginsPut large.head large.size }
    requires full { length large.value ≡ large.size }
    ensures { IfOk result (λ t. (behind : List ℕ) → IsTaken t logs (all_of (Some large) behind) behind) }
{
    let key = large.key(alloc)?;
    let copied = large.copy(alloc, logs)?;
    Ok(Taken {
        piece: Piece::Request {
            request: Request::Put {
                key,
                value: large.into_value(),
            },
        },
        copied,
    })
}

/// The piece at the front. Its own bytes are the first `whole`.
#[inline(always)]
pub fn take_front(
    alloc: Global,
    large: &mut Option<Large>,
    bytes: &mut BytesMut,
    whole: usize,
    logs: bool,
) -> Result<Taken, AllocError>
    requires whole { IsWhole whole (all_of large.old bytes.old.items) }
    requires gathers { MayGather large.old bytes.old.items }
    ensures taken { IfOk result (λ t. IsTaken t logs (all_of large.old bytes.old.items) (all_of large.new bytes.new.items)) }
    ensures gathers { MayGather large.new bytes.new.items }
{
    match large.take() {
        Some(large) => take_large(alloc, large, logs),
        None => take_small(alloc, bytes, whole, logs),
    }
}
