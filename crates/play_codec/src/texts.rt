//! Text commands at the front of bytes, and pieces that are requests or text commands.
ghost use Rattle.std.specs.Prelude.{◌≡◌, ◌<◌, ℕ, List, IfOk, Ok};
ghost use Rattle.ty_memc.specs.Fronts.{IsPieceRead};
ghost use Rattle.ty_memc.specs.Reading.{text_at};

use crate::commands::text_of;
use play_text::{Why, Wrong};
use std::alloc::{AllocError, Global};
use tc_base::Blob;
use ty_memc::{
    Piece, SeenPiece, SeenText, Text, Value, look_piece, look_text, read_piece, read_text,
    take_text,
};
use ty_wire::{Front, is_updating};

// Whether `look_text` at bytes that come in such pieces answers at each step what `take_text` answers.
fn agrees(bytes: &[u8], piece: usize) -> bool
    requires { 0 < piece }
{
    let mut seen = SeenText::new();
    let mut n = 0;
    while n < bytes.len() {
        n += piece.min(bytes.len() - n);
        let front = &bytes[..n];
        if look_text(front, &mut seen) != take_text(front) {
            return false;
        }
    }
    true
}

// Whether each front is a part, and looks at bytes that come in pieces agree with one look at them.
fn comes_in_parts(bytes: &[u8]) -> bool {
    for cut in 0..bytes.len() {
        if take_text(&bytes[..cut]) != Front::Part {
            return false;
        }
    }
    agrees(bytes, 1) && agrees(bytes, 7)
}

// Bytes, and three more.
fn longer(alloc: Global, bytes: &[u8]) -> Result<Vec<u8>, AllocError> {
    let mut longer = Vec::from_slice(alloc, bytes)?;
    longer.extend_from_slice(b"\n\xC8\x30")?;
    Ok(longer)
}

// Whether bytes are this with their last byte, and still with bytes behind them.
fn becomes(alloc: Global, bytes: &[u8], wanted: Front) -> Result<bool, AllocError> {
    let longer = longer(alloc, bytes)?;
    Ok(take_text(bytes) == wanted && take_text(&longer) == wanted && comes_in_parts(bytes))
}

/// The command that bytes are.
pub fn command_at(alloc: Global, bytes: &[u8]) -> Result<Text, Wrong>
    ensures { IfOk result (λ t. (rest : List ℕ) × (text_at bytes.now ≡ Ok (t, rest))) }
{
    match take_text(bytes) {
        Front::Whole(n) => {
            if n != bytes.len() {
                return Err(Wrong::Not(Why::Behind));
            }
            Ok(read_text(alloc, bytes)?)
        }
        Front::Part | Front::Bad => Err(Wrong::Not(Why::NotWhole)),
    }
}

/// `said BYTES => TEXT`: a text command, whole with its last byte, and what it says.
pub fn said(alloc: Global, bytes: &[u8]) -> Result<Blob, Wrong> {
    if !becomes(alloc, bytes, Front::Whole(bytes.len()))? {
        return Err(Wrong::Not(Why::NotWholeYet));
    }
    let text = command_at(alloc, bytes)?;
    let told = text_of(alloc, &text);
    drop(text);
    Ok(told?)
}

/// `ends BYTES`: what ends the connection with its last byte.
pub fn is_the_end(alloc: Global, bytes: &[u8]) -> Result<bool, AllocError> {
    becomes(alloc, bytes, Front::Bad)
}

/// `part BYTES`: bytes that are a part of a text command, as each front of them is.
pub fn is_part(bytes: &[u8]) -> bool {
    take_text(bytes) == Front::Part && comes_in_parts(bytes)
}

// What a look at bytes finds, and the value that a storing line awaits.
fn looked(bytes: &[u8]) -> (Front, Option<Value>)
    ensures { IsPieceRead bytes.now result.0 }
{
    let mut seen = SeenPiece::new();
    let front = look_piece(bytes, &mut seen);
    (front, seen.value())
}

/// `awaits BYTES => PLACE SIZE`: where the value of a storing line begins that isn't whole, and how many bytes it has; `nothing` where none is awaited.
pub fn awaited(alloc: Global, bytes: &[u8]) -> Result<String, AllocError> {
    match looked(bytes) {
        (Front::Part, Some(value)) => format!(in alloc; "{} {}", value.at, value.size),
        _ => String::from_str(alloc, "nothing"),
    }
}

// Whether `look_piece` at bytes that come one by one finds a part at each step, and a whole piece with the last.
fn is_whole_at_last(bytes: &[u8]) -> bool {
    let mut seen = SeenPiece::new();
    let mut n = 0;
    while n < bytes.len() {
        n += 1;
        let front = look_piece(&bytes[..n], &mut seen);
        if front != Front::Part {
            return n == bytes.len() && front == Front::Whole(n);
        }
    }
    false
}

// The piece at the front.
fn piece_at(alloc: Global, bytes: &[u8]) -> Result<Piece, Wrong> {
    match looked(bytes).0 {
        Front::Whole(_) => Ok(read_piece(alloc, bytes)?),
        Front::Part | Front::Bad => Err(Wrong::Not(Why::NotWhole)),
    }
}

// A piece as text: a request by what it does, or a text command.
fn piece_text(alloc: Global, piece: &Piece) -> Result<Blob, AllocError> {
    match piece {
        Piece::Request { request } => {
            let updates = is_updating(request);
            Blob::from_slice(alloc, if updates { b"updates" } else { b"reads" })
        }
        Piece::Text { text } => text_of(alloc, text),
    }
}

/// `piece BYTES => TEXT`: a request, which `'updates'` or `'reads'`, or a text command; it is whole with its last byte.
pub fn piece(alloc: Global, bytes: &[u8]) -> Result<Blob, Wrong> {
    if !is_whole_at_last(bytes) {
        return Err(Wrong::Not(Why::NotWholeYet));
    }
    let piece = piece_at(alloc, bytes)?;
    let told = piece_text(alloc, &piece);
    drop(piece);
    Ok(told?)
}
