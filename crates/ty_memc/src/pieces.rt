//! What stands at the front of a connection's bytes: requests and text commands.
ghost use Rattle.std.specs.Prelude.{◌≡◌, ℕ, List, is_ok, true, false, IfOk, Ok};
ghost use Rattle.ty_memc.specs.Grammar.{begins_text, piece_at};
ghost use Rattle.ty_memc.specs.Fronts.{IsPieceRead, IsPieceSeen, TakesPiece};

use crate::looking::{SeenText, Value, look_text};
use crate::reading::read_text;
use crate::text::Piece;
use std::alloc::{AllocError, Global};
use ty_look::{Seen, look};
use ty_wire::{Front, read_request};

/// What of a piece that isn't whole was looked at already: nothing at first.
#[derive(Clone, Copy)]
pub struct SeenPiece {
    request: Seen,
    text: SeenText,
}

impl SeenPiece {
    /// Nothing was looked at, which is true of any bytes.
    pub fn new() -> SeenPiece
        ensures { (bytes : List ℕ) → IsPieceSeen result bytes }
    {
        SeenPiece {
            request: Seen::new(),
            text: SeenText::new(),
        }
    }

    /// Of a request that has begun: it has at least so many bytes.
    pub fn least(&self) -> usize
        ensures { result ≡ self.now.request.least }
    {
        self.request.least()
    }

    /// Of a storing line that was read: where its value begins, and how many bytes it has.
    pub fn value(&self) -> Option<Value>
        ensures { result ≡ self.now.text.value }
    {
        self.text.value()
    }
}

// Whether there is a first byte, and it isn't that of a request.
fn begins_text(bytes: &[u8]) -> bool
    ensures { result ≡ begins_text bytes.now }
{
    match bytes {
        [] => false,
        [first, _rest @ ..] => *first != 0xC8,
    }
}

/// What stands at the front: a request where nothing is there yet or it begins with `C8`, a text command where it begins otherwise.
/// What was looked at of these bytes, when there were fewer of them, isn't looked at again.
#[tactic(auto, using(crate::proofs::PieceFronts::request_read, crate::proofs::PieceFronts::text_read, crate::proofs::PieceFronts::takes_request, crate::proofs::PieceFronts::takes_text))]
pub fn look_piece(bytes: &[u8], seen: &mut SeenPiece) -> Front
    requires { IsPieceSeen seen.old bytes.now }
    ensures reading { IsPieceRead bytes.now result }
    ensures grammar { TakesPiece bytes.now result }
    ensures seen { IsPieceSeen seen.new bytes.now }
{
    if begins_text(bytes) {
        return look_text(bytes, &mut seen.text);
    }
    look(bytes, &mut seen.request)
}

fn request_piece(alloc: Global, bytes: &[u8]) -> Result<Piece, AllocError>
    requires whole { is_ok (piece_at bytes.now) ≡ true }
    requires first { begins_text bytes.now ≡ false }
    ensures { IfOk result (λ x. (rest : List ℕ) × (piece_at bytes.now ≡ Ok (x, rest))) }
{
    let request = read_request(alloc, bytes)?;
    Ok(Piece::Request { request })
}

fn text_piece(alloc: Global, bytes: &[u8]) -> Result<Piece, AllocError>
    requires whole { is_ok (piece_at bytes.now) ≡ true }
    requires first { begins_text bytes.now ≡ true }
    ensures { IfOk result (λ x. (rest : List ℕ) × (piece_at bytes.now ≡ Ok (x, rest))) }
{
    let text = read_text(alloc, bytes)?;
    Ok(Piece::Text { text })
}

/// The piece at the front, where a whole one stands there, copied from the bytes.
#[inline(never)]
pub fn read_piece(alloc: Global, bytes: &[u8]) -> Result<Piece, AllocError>
    requires { is_ok (piece_at bytes.now) ≡ true }
    ensures { IfOk result (λ x. (rest : List ℕ) × (piece_at bytes.now ≡ Ok (x, rest))) }
{
    if begins_text(bytes) {
        return text_piece(alloc, bytes);
    }
    request_piece(alloc, bytes)
}
