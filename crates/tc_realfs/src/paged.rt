//! Calls on a file whose pages are kept.
ghost use Rattle.std.specs.Prelude.{◌≡◌, ℕ, ◌+◌, ◌%◌, ◌^◌, ◌<◌, ◌≤◌, List, length, take, drop, Option, Some, OnOk, OnErr};
ghost use Rattle.tc_realfs.specs.Paging.{Reads, ReadsShown, ShowsOutside, ShowsWrite, StillShowsTold};

use crate::pages::{MOST, PAGE, Pages};
use std::fs::File;
use std::io;
use std::os::unix::fs::FileExt;

/// What bytes are read from. A read gives it away, so who is given one reads once at most.
pub trait Source {
    /// Its bytes, where it tells them.
    ghost bytes: { Self → Option (List ℕ) };

    /// Fills bytes with its own from a place on.
    fn read_at(self, at: u64, into: &mut [u8]) -> io::Result<()>
        ensures { OnOk result (Reads (bytes self) at (length into.old) into.new) };
}

impl<'a> Source for &'a File {
    ghost use Rattle.std.specs.Prelude.{None};

    ghost bytes = { λ _. None };

    fn read_at(self, at: u64, into: &mut [u8]) -> io::Result<()> {
        self.read_exact_at(into, at)
    }
}

/// Fills bytes with those from a place on, of bytes that stand at a place before it.
pub fn take_from(start: u64, bytes: &[u8], at: u64, into: &mut [u8])
    requires behind { start ≤ at }
    requires inside { at + length into.old ≤ start + length bytes.now }
    ensures { (file : List ℕ) → bytes.now ≡ take (length bytes.now) (drop start file) → into.new ≡ take (length into.old) (drop at file) }
{
    let skip = (at - start) as usize;
    into.copy_from_slice(&bytes[skip..skip + into.len()]);
}

// Fills bytes of a page that isn't kept. It is read whole, if there is memory for it.
#[inline(never)]
fn read_one<S: Source>(
    pages: &mut Pages,
    source: S,
    len: u64,
    at: u64,
    into: &mut [u8],
) -> io::Result<()>
    requires page { at % 4096 + length into.old ≤ 4096 }
    requires inside { at + length into.old ≤ len }
    ensures bytes { OnOk result (Reads (S.bytes source) at (length into.old) into.new) }
    ensures shows { StillShowsTold (S.bytes source) pages.old pages.new }
{
    let number = at / PAGE;
    let start = number * PAGE;
    let count = (len - start).min(PAGE) as usize;
    let Some(mut room) = pages.room(number, count) else {
        return source.read_at(at, into);
    };
    source.read_at(start, &mut room)?;
    take_from(start, &room, at, into);
    pages.fill(number, room);
    Ok(())
}

// Fills bytes of two pages of which none is kept. Both are read whole, and kept if there is memory for them.
#[inline(never)]
fn read_both<S: Source>(
    pages: &mut Pages,
    source: S,
    len: u64,
    at: u64,
    into: &mut [u8],
) -> io::Result<()>
    requires short { length into.old ≤ 4096 }
    requires crosses { 4096 < at % 4096 + length into.old }
    requires inside { at + length into.old ≤ len }
    ensures bytes { OnOk result (Reads (S.bytes source) at (length into.old) into.new) }
    ensures shows { StillShowsTold (S.bytes source) pages.old pages.new }
{
    let number = at / PAGE;
    let start = number * PAGE;
    let count = (len - start).min(2 * PAGE) as usize;
    let mut room = [0; 2 * PAGE as usize];
    let both = &mut room[..count];
    source.read_at(start, both)?;
    take_from(start, both, at, into);
    let (first, second) = both.split_at(PAGE as usize);
    pages.keep(number, first);
    pages.keep(number + 1, second);
    Ok(())
}

// Up to so many bytes the pages that some bytes lie in are read whole.
const FEW: usize = 5 * PAGE as usize;

// Fills bytes of a few pages. These are read whole, and kept as far as there is memory for them.
#[inline(never)]
fn read_few<S: Source>(
    pages: &mut Pages,
    source: S,
    len: u64,
    at: u64,
    into: &mut [u8],
) -> io::Result<()>
    requires few { at % 4096 + length into.old ≤ 20480 }
    requires inside { at + length into.old ≤ len }
    ensures bytes { OnOk result (Reads (S.bytes source) at (length into.old) into.new) }
    ensures shows { StillShowsTold (S.bytes source) pages.old pages.new }
{
    let start = at / PAGE * PAGE;
    let end = (at - start + into.len() as u64).div_ceil(PAGE) * PAGE;
    let count = (len - start).min(end) as usize;
    let mut room = [0; FEW];
    let all = &mut room[..count];
    source.read_at(start, all)?;
    take_from(start, all, at, into);
    pages.keep_all(start, all);
    Ok(())
}

// Fills bytes by one call, and keeps what was read as far as there is memory for it. Where the pages that the bytes lie in are few they are read whole.
#[inline(never)]
fn read_kept<S: Source>(
    pages: &mut Pages,
    source: S,
    len: u64,
    at: u64,
    into: &mut [u8],
) -> io::Result<()>
    requires inside { at + length into.old ≤ len }
    ensures bytes { OnOk result (Reads (S.bytes source) at (length into.old) into.new) }
    ensures shows { StillShowsTold (S.bytes source) pages.old pages.new }
{
    let end = at % PAGE + into.len() as u64;
    if end <= PAGE {
        return read_one(pages, source, len, at, into);
    }
    if end <= FEW as u64 {
        return read_few(pages, source, len, at, into);
    }
    source.read_at(at, into)?;
    pages.keep_all(at, into);
    Ok(())
}

// Fills as many bytes as a page has, or more: those at the front from pages that are kept, and the rest by one call. That rest is kept, but for a read of just a page's length from a file
// that is longer than all pages together.
#[inline(never)]
fn read_long<S: Source + Drop>(
    pages: &mut Pages,
    source: S,
    len: u64,
    at: u64,
    into: &mut [u8],
) -> io::Result<()>
    requires inside { at + length into.old ≤ len }
    ensures bytes { OnOk result (ReadsShown pages.old (S.bytes source) at (length into.old) into.new) }
    ensures shows { StillShowsTold (S.bytes source) pages.old pages.new }
{
    let is_kept = into.len() as u64 > PAGE || len <= MOST;
    let done = pages.copy_front(at, into);
    if done == into.len() {
        return Ok(());
    }
    let from = at + done as u64;
    let (_, rest) = into.split_at_mut(done);
    if is_kept {
        return read_kept(pages, source, len, from, rest);
    }
    source.read_at(from, rest)
}

/// Fills bytes with those from a place on of a file of a length, by one call at most, and by none where all are kept. Those at the front that are kept aren't asked for. The pages that the
/// others lie in are read whole and kept, where they are five at most; else those that begin in them. A read of just a page's length from a file that is longer than all pages together
/// keeps none.
pub fn read<S: Source + Drop>(
    pages: &mut Pages,
    source: S,
    len: u64,
    at: u64,
    into: &mut [u8],
) -> io::Result<()>
    requires inside { at + length into.old < 2 ^ 64 }
    ensures bytes { OnOk result (ReadsShown pages.old (S.bytes source) at (length into.old) into.new) }
    ensures shows { StillShowsTold (S.bytes source) pages.old pages.new }
{
    let end = at + into.len() as u64;
    if end > len {
        return source.read_at(at, into);
    }
    if into.len() as u64 >= PAGE {
        return read_long(pages, source, len, at, into);
    }
    let here = into.len().min((PAGE - at % PAGE) as usize);
    let next = at + here as u64;
    let (first, second) = into.split_at_mut(here);
    match (pages.copy(at, first), pages.copy(next, second)) {
        (true, true) => Ok(()),
        (true, false) => read_one(pages, source, len, next, second),
        (false, true) => read_one(pages, source, len, at, first),
        (false, false) => read_both(pages, source, len, at, into),
    }
}

/// Writes all the bytes from a place on. After an error any of them may be there.
pub fn write(pages: &mut Pages, file: &File, at: u64, bytes: &[u8]) -> io::Result<()>
    requires inside { at + length bytes.now < 2 ^ 64 }
    ensures written { OnOk result (ShowsWrite at bytes.now pages.old pages.new) }
    ensures torn { OnErr result (ShowsOutside at (at + length bytes.now) pages.old pages.new) }
{
    match file.write_all_at(bytes, at) {
        Ok(()) => {
            pages.put(at, bytes);
            Ok(())
        }
        Err(e) => {
            pages.forget(at, at + bytes.len() as u64);
            Err(e)
        }
    }
}

/// Cuts what lies behind a place, up to where the file ends; the system keeps so many bytes. After an error they may be there or not.
pub fn cut(pages: &mut Pages, file: &File, at: u64, left: u64, end: u64) -> io::Result<()>
    ensures { ShowsOutside at end pages.old pages.new }
{
    let done = file.set_len(left);
    pages.forget(at, end);
    done
}
