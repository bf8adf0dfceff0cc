//! Pieces that adjoin are one write of the file.
ghost use Rattle.std.specs.Prelude.{◌≡◌, ◌+◌, ◌≤◌, ◌<◌, true, length, take, get_or, All};
ghost use Rattle.tc_undo.specs.Guards.{IsSmall};
ghost use Rattle.tc_undo.specs.Pieces.{LiesIn};
ghost use Rattle.tc_undo.specs.Runs.{IsRunAt, blank};

use crate::gather::put_at;
use crate::piece::Piece;
use crate::waiting::ROOM;

/// How many pieces adjoin, and how many bytes they are.
#[derive(Clone, Copy)]
pub struct Run {
    pub count: usize,
    pub size: usize,
}

// The piece begins where so many bytes of another end, and there is room for both.
fn follows(first: Piece, size: usize, piece: Piece) -> bool
    requires small { IsSmall first }
    requires room { size ≤ 16384 }
    ensures file { result ≡ true → piece.file ≡ first.file }
    ensures place { result ≡ true → piece.at ≡ first.at + size }
    ensures fits { result ≡ true → size + piece.size ≤ 16384 }
{
    piece.file == first.file && piece.at == first.at + size as u64 && piece.size <= ROOM - size
}

/// Puts the bytes of the first pieces one behind the other, as far as each begins where the one before it ends, and there is room.
pub fn join(pieces: &[Piece], bytes: &[u8], room: &mut [u8; ROOM]) -> Run
    requires small { All IsSmall pieces.now }
    requires lie { All (LiesIn bytes.now) pieces.now }
    requires some { 0 < length pieces.now }
    ensures count { result.count ≤ length pieces.now }
    ensures size { result.size ≤ 16384 }
    ensures run { IsRunAt bytes.now (take result.count pieces.now) (get_or pieces.now 0 blank) (take result.size room.new) }
{
    let first = pieces[0];
    let mut run = Run { count: 0, size: 0 };
    while run.count < pieces.len() && follows(first, run.size, pieces[run.count]) {
        let piece = pieces[run.count];
        put_at(room, run.size, &bytes[piece.from..piece.from + piece.size]);
        run.count += 1;
        run.size += piece.size;
    }
    run
}
