//! The bytes of a file with pieces over them.
ghost use Rattle.std.specs.Prelude.{◌≡◌, ◌≤◌, true, length, All};
ghost use Rattle.tc_undo.specs.Guards.{IsSmall};
ghost use Rattle.tc_undo.specs.Pieces.{LiesIn};
ghost use Rattle.tc_held.specs.Pieces.{Ascend, Parts};
ghost use Rattle.tc_held.specs.Shown.{LaysAll, LaysOne};

use tc_undo::Piece;

// Puts what a piece has for a file over bytes that show the file from a place on.
fn lay_one(piece: Piece, bytes: &[u8], file: u32, at: u64, into: &mut [u8])
    requires lies { LiesIn bytes.now piece }
    requires small { IsSmall piece }
    ensures lays { LaysOne bytes.now piece file at into.old into.new }
    ensures long { length into.new ≡ length into.old }
{
    if piece.file != file {
        return;
    }
    let from = piece.at.max(at);
    let to = (piece.at + piece.size as u64).min(at.saturating_add(into.len() as u64));
    if from < to {
        let place = (from - at) as usize;
        let n = (to - from) as usize;
        let start = piece.from + (from - piece.at) as usize;
        into[place..place + n].copy_from_slice(&bytes[start..start + n]);
    }
}

// Where the piece is of this file, it begins at the end or behind it.
fn is_past(piece: Piece, file: u32, end: u64) -> bool
    ensures { result ≡ true → piece.file ≡ file → end ≤ piece.at }
{
    piece.file != file || piece.at >= end
}

/// Puts what pieces have for a file over bytes that show the file from a place on. It looks at those that meet them, from the first that ends
/// behind the place.
pub fn lay_from(pieces: &[Piece], bytes: &[u8], first: usize, file: u32, at: u64, into: &mut [u8])
    requires lie { All (LiesIn bytes.now) pieces.now }
    requires small { All IsSmall pieces.now }
    requires ascend { Ascend pieces.now }
    requires parts { Parts file at pieces.now first }
    ensures lays { LaysAll bytes.now pieces.now file at into.old into.new }
    ensures long { length into.new ≡ length into.old }
{
    let end = at.saturating_add(into.len() as u64);
    for i in first..pieces.len() {
        let piece = pieces[i];
        if is_past(piece, file, end) {
            return;
        }
        lay_one(piece, bytes, file, at, into);
    }
}
