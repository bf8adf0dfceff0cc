//! Where pieces that ascend are parted by a place of a file.
ghost use Rattle.std.specs.Prelude.{◌≡◌, ◌+◌, ◌^◌, ◌<◌, ◌≤◌, true, false, All};
ghost use Rattle.tc_undo.specs.Guards.{IsSmall};
ghost use Rattle.tc_held.specs.Pieces.{Ascend, BeginsBehind, EndsBefore, EndsBehind, Parts};

use tc_undo::Piece;

// The piece ends at a place of a file, or in front of it.
fn ends_before(piece: Piece, file: u32, at: u64) -> bool
    requires { IsSmall piece }
    ensures before { result ≡ true → EndsBefore file at piece }
    ensures behind { result ≡ false → EndsBehind file at piece }
{
    if piece.file != file {
        return piece.file < file;
    }
    piece.at + piece.size as u64 <= at
}

/// How many pieces end at a place of a file or in front of it, by halves.
pub fn find(pieces: &[Piece], file: u32, at: u64) -> usize
    requires small { All IsSmall pieces.now }
    requires ascend { Ascend pieces.now }
    ensures { Parts file at pieces.now result }
{
    let mut low = 0;
    let mut high = pieces.len();
    while low < high {
        let middle = low + (high - low) / 2;
        if ends_before(pieces[middle], file, at) {
            low = middle + 1;
        } else {
            high = middle;
        }
    }
    low
}

/// The piece is of a file, and begins at a place or in front of it.
pub fn begins_before(piece: Piece, file: u32, at: u64) -> bool
    ensures before { result ≡ true → (piece.file ≡ file) × (piece.at ≤ at) }
    ensures behind { result ≡ false → piece.file ≡ file → at < piece.at }
{
    piece.file == file && piece.at <= at
}

/// The piece ends at a place of a file, and its bytes are the last of so many.
pub fn ends_here(piece: Piece, file: u32, at: u64, bytes: usize) -> bool
    requires small { IsSmall piece }
    requires low { piece.from + piece.size ≤ 2 ^ 23 }
    ensures { result ≡ true → (piece.file ≡ file) × (piece.at + piece.size ≡ at) × (piece.from + piece.size ≡ bytes) }
{
    if piece.file != file || piece.from + piece.size != bytes {
        return false;
    }
    piece.at + piece.size as u64 == at
}

/// How many of so many bytes from a place of a file on lie in front of a piece that begins behind it.
pub fn gap(piece: Piece, file: u32, at: u64, size: usize) -> usize
    requires { BeginsBehind file (at + 1) piece }
    ensures most { result ≤ size }
    ensures some { 1 ≤ size → 1 ≤ result }
    ensures behind { BeginsBehind file (at + result) piece }
{
    if piece.file != file {
        return size;
    }
    piece.at.saturating_sub(at).min(size as u64) as usize
}
