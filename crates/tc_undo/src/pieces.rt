//! Several writes as one: the old bytes of all of them go into the log and to the disk with one sync, then the files change.
ghost use Rattle.std.specs.Prelude.{◌≡◌, ◌+◌, ◌^◌, ◌<◌, ◌≤◌, ℕ, [], true, length, take, All, OnOk, IfOk};
ghost use Rattle.tc_io.specs.Causes.{HasCause};
ghost use Rattle.tc_io.specs.Images.{now};
ghost use Rattle.ud_log.specs.Undo.{data_of, is_data};
ghost use Rattle.ud_state.specs.State.{Idle, IsOpen, IsValid, Logging, Secured};
ghost use Rattle.tc_undo.specs.Ahead.{Waits, ahead};
ghost use Rattle.tc_undo.specs.Changes.{KnowsLens};
ghost use Rattle.tc_undo.specs.Guards.{IsNew, IsSmall, LoggingAll, LogsAll, LogsPiece, MayLogAll, MayLogPiece, MayPut, MaySecure, PutsAll, PutsPiece, PutsRun, SecuresAll, WritesAll};
ghost use Rattle.tc_undo.specs.Pieces.{LiesIn, Reached, needs_all};
ghost use Rattle.tc_undo.specs.Room.{log_end, needs, recorded_of};
ghost use Rattle.tc_undo.specs.Volumes.{StaysQuiet};

use crate::changes::{begin, log_range};
use crate::gather::bring;
use crate::piece::Piece;
use crate::room::Log;
use crate::runs::join;
use crate::waiting::{ROOM, Waiting};
use tc_base::Fault;
use tc_io::Volume;
use ud_log::place;

/// Puts the old bytes of a piece behind the log, those below the file's length and the recorded one. Answers the log's new length.
fn log_piece<V: Volume>(
    vol: &mut V,
    waiting: &mut Waiting,
    end: u64,
    recorded: &[u64; 18],
    lens: &[u64; 18],
    piece: Piece,
) -> Result<u64, Fault>
    requires bound { V.bound vol.old ≡ true }
    requires logging { V.tells → (at : ℕ) → Logging (ahead (V.calls vol.old) waiting.old) recorded.now piece.file at at }
    requires waits { V.tells → Waits (V.calls vol.old) waiting.old end }
    requires may { MayLogPiece V.tells (ahead (V.calls vol.old) waiting.old) lens.now end (needs piece.size) piece }
    ensures quiet { StaysQuiet V.Volume vol.old vol.new }
    ensures logs { IfOk result (λ size. V.tells → LogsPiece (ahead (V.calls vol.old) waiting.old) (ahead (V.calls vol.new) waiting.new) recorded.now piece size) }
    ensures waits { IfOk result (λ size. V.tells → Waits (V.calls vol.new) waiting.new size) }
    ensures spent { IfOk result (λ size. size ≤ end + needs piece.size) }
    ensures cause { HasCause (V.faults vol.old) (V.faults vol.new) result }
{
    let i = place(piece.file);
    let all = piece.at + piece.size as u64;
    let stop = all.min(recorded[i]).min(lens[i]);
    let size = log_range(vol, waiting, end, recorded, piece.file, piece.at, stop)?;
    Ok(size)
}

/// Puts the old bytes of all the pieces behind the log. Answers the log's new length.
fn log_pieces<V: Volume>(
    vol: &mut V,
    waiting: &mut Waiting,
    end: u64,
    recorded: &[u64; 18],
    lens: &[u64; 18],
    pieces: &[Piece],
) -> Result<u64, Fault>
    requires bound { V.bound vol.old ≡ true }
    requires logging { V.tells → LoggingAll (ahead (V.calls vol.old) waiting.old) recorded.now [] }
    requires waits { V.tells → Waits (V.calls vol.old) waiting.old end }
    requires may { MayLogAll V.tells (ahead (V.calls vol.old) waiting.old) lens.now end pieces.now }
    ensures quiet { StaysQuiet V.Volume vol.old vol.new }
    ensures logs { IfOk result (λ size. V.tells → LogsAll (ahead (V.calls vol.old) waiting.old) (ahead (V.calls vol.new) waiting.new) recorded.now pieces.now size) }
    ensures waits { IfOk result (λ size. V.tells → Waits (V.calls vol.new) waiting.new size) }
    ensures spent { IfOk result (λ size. size ≤ end + needs_all pieces.now) }
    ensures cause { HasCause (V.faults vol.old) (V.faults vol.new) result }
{
    let mut size = end;
    for i in 0..pieces.len() {
        let piece = pieces[i];
        size = log_piece(vol, waiting, size, recorded, lens, piece)?;
    }
    Ok(size)
}

/// Opens a transaction whose log begins with the old bytes of all the pieces. One sync.
fn secure_pieces_first<V: Volume>(
    vol: &mut V,
    log: &mut Log,
    lens: &[u64; 18],
    pieces: &[Piece],
) -> Result<(), Fault>
    requires bound { V.bound vol.old ≡ true }
    requires idle { V.tells → Idle (V.calls vol.old) (data_of (now (V.calls vol.old))) }
    requires may { MaySecure V.tells (now (V.calls vol.old)) lens.now 152 pieces.now }
    ensures quiet { StaysQuiet V.Volume vol.old vol.new }
    ensures secures { OnOk result (SecuresAll V.tells (V.calls vol.old) (V.calls vol.new) lens.now 152 log.new pieces.now) }
    ensures cause { HasCause (V.faults vol.old) (V.faults vol.new) result }
{
    let mut waiting = begin(lens);
    let end = log_pieces(vol, &mut waiting, 152, lens, lens, pieces)?;
    bring(vol, &mut waiting, end)?;
    *log = Log {
        active: true,
        end,
        recorded: *lens,
        changed: [false; 18],
    };
    Ok(())
}

/// None of the pieces has old bytes that the log has to take.
fn are_new(recorded: &[u64; 18], lens: &[u64; 18], pieces: &[Piece]) -> bool
    requires { All IsSmall pieces.now }
    ensures { result ≡ true → All (IsNew recorded.now lens.now) pieces.now }
{
    for i in 0..pieces.len() {
        let piece = pieces[i];
        let k = place(piece.file);
        let all = piece.at + piece.size as u64;
        if all.min(recorded[k]).min(lens[k]) > piece.at {
            return false;
        }
    }
    true
}

/// Adds the old bytes of all the pieces to the log of the open transaction. One sync, or none where no piece has any.
fn secure_pieces_more<V: Volume>(
    vol: &mut V,
    log: &mut Log,
    lens: &[u64; 18],
    pieces: &[Piece],
) -> Result<(), Fault>
    requires bound { V.bound vol.old ≡ true }
    requires active { log.old.active ≡ true }
    requires open { V.tells → IsOpen (V.calls vol.old) log.old.end log.old.recorded log.old.changed }
    requires may { MaySecure V.tells (now (V.calls vol.old)) lens.now log.old.end pieces.now }
    ensures quiet { StaysQuiet V.Volume vol.old vol.new }
    ensures secures { OnOk result (SecuresAll V.tells (V.calls vol.old) (V.calls vol.new) log.old.recorded log.old.end log.new pieces.now) }
    ensures cause { HasCause (V.faults vol.old) (V.faults vol.new) result }
{
    if are_new(&log.recorded, lens, pieces) {
        return Ok(());
    }
    let mut waiting = Waiting::new();
    let end = log_pieces(vol, &mut waiting, log.end, &log.recorded, lens, pieces)?;
    bring(vol, &mut waiting, end)?;
    log.end = end;
    Ok(())
}

/// Brings the old bytes of all the pieces to the disk, in a transaction that is opened if none is. One sync.
fn secure_pieces<V: Volume>(
    vol: &mut V,
    log: &mut Log,
    lens: &[u64; 18],
    pieces: &[Piece],
) -> Result<(), Fault>
    requires bound { V.bound vol.old ≡ true }
    requires valid { V.tells → IsValid log.old.active (V.calls vol.old) log.old.end log.old.recorded log.old.changed }
    requires may { MaySecure V.tells (now (V.calls vol.old)) lens.now (log_end log.old.active log.old.end) pieces.now }
    ensures quiet { StaysQuiet V.Volume vol.old vol.new }
    ensures secures { OnOk result (SecuresAll V.tells (V.calls vol.old) (V.calls vol.new) (recorded_of log.old.active log.old.recorded lens.now) (log_end log.old.active log.old.end) log.new pieces.now) }
    ensures cause { HasCause (V.faults vol.old) (V.faults vol.new) result }
{
    if log.active {
        secure_pieces_more(vol, log, lens, pieces)?;
        return Ok(());
    }
    secure_pieces_first(vol, log, lens, pieces)?;
    Ok(())
}

/// Writes a piece whose old bytes are on the disk.
fn put_piece<V: Volume>(
    vol: &mut V,
    log: &mut Log,
    lens: &mut [u64; 18],
    file: u32,
    at: u64,
    bytes: &[u8],
) -> Result<(), Fault>
    requires bound { V.bound vol.old ≡ true }
    requires data_file { is_data file ≡ true }
    requires small { at + length bytes.now ≤ 2 ^ 40 }
    requires within { V.tells → at ≤ length (now (V.calls vol.old) file) }
    requires knows { KnowsLens V.tells (now (V.calls vol.old)) lens.old }
    requires secured { V.tells → Secured (V.calls vol.old) log.old.recorded file at (at + length bytes.now) }
    ensures quiet { StaysQuiet V.Volume vol.old vol.new }
    ensures puts { OnOk result (PutsPiece V.tells (V.calls vol.old) (V.calls vol.new) log.old log.new lens.old lens.new file at bytes.now) }
    ensures cause { HasCause (V.faults vol.old) (V.faults vol.new) result }
{
    vol.write(file, at, bytes)?;
    let i = place(file);
    log.changed[i] = true;
    lens[i] = lens[i].max(at + bytes.len() as u64);
    Ok(())
}

/// Writes the first piece, whose old bytes are on the disk, and those behind it that adjoin. Answers how many it wrote.
fn put_run<V: Volume>(
    vol: &mut V,
    log: &mut Log,
    lens: &mut [u64; 18],
    pieces: &[Piece],
    bytes: &[u8],
    room: &mut [u8; ROOM],
) -> Result<usize, Fault>
    requires bound { V.bound vol.old ≡ true }
    requires some { 0 < length pieces.now }
    requires may { MayPut V.tells (V.calls vol.old) log.old lens.old bytes.now pieces.now }
    ensures quiet { StaysQuiet V.Volume vol.old vol.new }
    ensures some { IfOk result (λ n. 0 < n) }
    ensures count { IfOk result (λ n. n ≤ length pieces.now) }
    ensures puts { IfOk result (λ n. PutsRun V.tells (V.calls vol.old) (V.calls vol.new) log.old log.new lens.old lens.new bytes.now (take n pieces.now)) }
    ensures cause { HasCause (V.faults vol.old) (V.faults vol.new) result }
{
    let piece = pieces[0];
    let run = join(pieces, bytes, room);
    if run.count <= 1 {
        let part = &bytes[piece.from..piece.from + piece.size];
        put_piece(vol, log, lens, piece.file, piece.at, part)?;
        return Ok(1);
    }
    put_piece(vol, log, lens, piece.file, piece.at, &room[..run.size])?;
    Ok(run.count)
}

/// Writes the pieces, whose old bytes are on the disk, one after the other, those that adjoin by one call.
fn put_pieces<V: Volume>(
    vol: &mut V,
    log: &mut Log,
    lens: &mut [u64; 18],
    pieces: &[Piece],
    bytes: &[u8],
) -> Result<(), Fault>
    requires bound { V.bound vol.old ≡ true }
    requires may { MayPut V.tells (V.calls vol.old) log.old lens.old bytes.now pieces.now }
    ensures quiet { StaysQuiet V.Volume vol.old vol.new }
    ensures puts { OnOk result (PutsAll V.tells (V.calls vol.old) (V.calls vol.new) log.old log.new lens.old lens.new bytes.now pieces.now) }
    ensures cause { HasCause (V.faults vol.old) (V.faults vol.new) result }
{
    let mut room = [0; ROOM];
    let mut i = 0;
    while i < pieces.len() {
        let count = put_run(vol, log, lens, &pieces[i..], bytes, &mut room)?;
        i += count;
    }
    Ok(())
}

/// Writes several pieces as one: one sync of the log for all of them, and of its header where no transaction is open.
pub fn write_pieces<V: Volume>(
    vol: &mut V,
    log: &mut Log,
    lens: &mut [u64; 18],
    pieces: &[Piece],
    bytes: &[u8],
) -> Result<(), Fault>
    requires bound { V.bound vol.old ≡ true }
    requires valid { V.tells → IsValid log.old.active (V.calls vol.old) log.old.end log.old.recorded log.old.changed }
    requires may { MaySecure V.tells (now (V.calls vol.old)) lens.old (log_end log.old.active log.old.end) pieces.now }
    requires lie { All (LiesIn bytes.now) pieces.now }
    requires reached { V.tells → Reached bytes.now pieces.now (now (V.calls vol.old)) }
    ensures quiet { StaysQuiet V.Volume vol.old vol.new }
    ensures puts { OnOk result (WritesAll V.tells (V.calls vol.old) (V.calls vol.new) (log_end log.old.active log.old.end) log.new lens.old lens.new bytes.now pieces.now) }
    ensures cause { HasCause (V.faults vol.old) (V.faults vol.new) result }
{
    secure_pieces(vol, log, lens, pieces)?;
    put_pieces(vol, log, lens, pieces, bytes)?;
    Ok(())
}
