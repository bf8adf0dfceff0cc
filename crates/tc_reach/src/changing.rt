//! Bytes written over others of a file, from the first to the last that differs.
ghost use Rattle.std.specs.Prelude.{◌≡◌, ◌+◌, ◌-◌, ◌≤◌, length, take, drop, OnOk};
ghost use Rattle.tc_base.specs.Files.{wrote};
ghost use Rattle.tc_space.specs.Effects.{Changes, Outcome};
ghost use Rattle.tc_space.specs.Frames.{Keeps, OnlyReads, OnlyWrites};
ghost use Rattle.tc_space.specs.Ranges.{Reaches};
ghost use Rattle.tc_space.specs.Refusals.{OnFault, OnlyLogIsFull};

use crate::reading::{is_same, read_into};
use crate::writing::{give_up, write_over};
use tc_space::{RecErr, Space};

// How many bytes at the front are the same.
fn same_front(a: &[u8], b: &[u8]) -> usize
    requires { length a.now ≡ length b.now }
    ensures most { result ≤ length a.now }
    ensures same { take result a.now ≡ take result b.now }
{
    let mut n = 0;
    while n < a.len() && a[n] == b[n] {
        n += 1;
    }
    n
}

// Behind how many bytes all are the same.
fn same_back(a: &[u8], b: &[u8]) -> usize
    requires { length a.now ≡ length b.now }
    ensures most { result ≤ length a.now }
    ensures same { drop result a.now ≡ drop result b.now }
{
    let mut n = a.len();
    while n > 0 && a[n - 1] == b[n - 1] {
        n -= 1;
    }
    n
}

/// Writes bytes over others of a file, from the first to the last that differs from these old ones, and nothing where none does. After a refusal
/// the space isn't sound.
pub fn write_difference<S: Space>(
    space: &mut S,
    file: u32,
    at: u64,
    old: &[u8],
    bytes: &[u8],
) -> Result<(), RecErr>
    requires sound { S.sound space.old }
    requires reaches { Reaches S.tells (S.now space.old) file (at + length bytes.now) }
    requires old { (length old.now ≡ length bytes.now) × (S.tells → old.now ≡ take (length bytes.now) (drop at (S.now space.old file))) }
    ensures wrote { OnOk result (S.tells → Changes S.now file (wrote at bytes.now (S.now space.old file)) space.old space.new) }
    ensures same { old.now ≡ bytes.now → space.new ≡ space.old }
    ensures outcome { Outcome S.sound S.flag result space.new }
    ensures writes { OnlyWrites S.Space space.old space.new }
    ensures full { OnlyLogIsFull S.Space result space.new }
    ensures cause { OnFault S.Space result space.old space.new }
{
    if is_same(old, bytes) {
        return Ok(());
    }
    let end = same_back(old, bytes);
    let front = same_front(&old[..end], &bytes[..end]);
    // no file has such places
    let Some(start) = at.checked_add(front as u64) else {
        give_up(space);
        return Err(RecErr::Memory);
    };
    write_over(space, file, start, &bytes[front..end])
}

/// Writes bytes over others of a file, from the first to the last that differs from those that stand there, and nothing where none does: those are
/// read before, into room of as many bytes. After a refusal the space isn't sound.
pub fn write_changed<S: Space>(
    space: &mut S,
    file: u32,
    at: u64,
    bytes: &[u8],
    room: &mut [u8],
) -> Result<(), RecErr>
    requires sound { S.sound space.old }
    requires reaches { Reaches S.tells (S.now space.old) file (at + length bytes.now) }
    requires room { length room.old ≡ length bytes.now }
    ensures wrote { OnOk result (S.tells → Changes S.now file (wrote at bytes.now (S.now space.old file)) space.old space.new) }
    ensures same { OnOk result (S.tells → take (length bytes.now) (drop at (S.now space.old file)) ≡ bytes.now → OnlyReads S.Space space.old space.new) }
    ensures outcome { Outcome S.sound S.flag result space.new }
    ensures keeps { Keeps S.Space space.old space.new }
    ensures full { OnlyLogIsFull S.Space result space.new }
    ensures cause { OnFault S.Space result space.old space.new }
{
    if let Err(e) = read_into(space, file, at, room) {
        give_up(space);
        return Err(RecErr::from(e));
    }
    write_difference(space, file, at, room, bytes)
}
