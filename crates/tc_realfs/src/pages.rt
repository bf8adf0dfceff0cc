//! Pages of a file that were read, kept in memory.
ghost use Rattle.std.specs.Prelude.{◌≡◌, ℕ, ◌+◌, ◌*◌, ◌%◌, ◌^◌, ◌<◌, ◌≤◌, List, [], length, take, drop, IfSome, IsTrue, OnOk};
ghost use Rattle.tc_base.specs.Files.{wrote};
ghost use Rattle.tc_realfs.specs.Changes.{PutsOver};

use std::alloc::{AllocError, Global};
use std::mem::replace;

/// How many bytes a page has.
pub const PAGE: u64 = 4096;

// A page stands in the slot of its number modulo this.
const SLOTS: u64 = 24_576;

/// How many bytes all pages have together, at most.
pub const MOST: u64 = SLOTS * PAGE;

// The bytes of a page, all of them zero.
const ZEROS: [u8; PAGE as usize] = [0; PAGE as usize];

// Where a place of the file lies: so many bytes behind the start of the page that is in this slot in this turn.
#[derive(Clone, Copy)]
struct Spot {
    slot: usize,
    turn: u64,
    skip: usize,
}

impl Spot {
    ghost use Rattle.tc_realfs.specs.Paging.{IsSpot};

    #[inline(always)]
    fn of(at: u64) -> Spot
        ensures { IsSpot result at }
    {
        let number = at / PAGE;
        Spot {
            slot: (number % SLOTS) as usize,
            turn: number / SLOTS,
            skip: (at % PAGE) as usize,
        }
    }
}

// The bytes of one of the pages that share a slot, as many of them as the file had when they were read. Without bytes it is absent.
#[derive(Drop)]
struct Page {
    turn: u64,
    bytes: Vec<u8>,
    ghost short: { length bytes.items ≤ 4096 },
}

// Puts bytes over others from a place on.
fn put_at(into: &mut [u8], at: usize, bytes: &[u8])
    requires { at + length bytes.now ≤ length into.old }
    ensures { into.new ≡ wrote at bytes.now into.old }
{
    into[at..at + bytes.len()].copy_from_slice(bytes);
}

// Puts bytes over others from a place on, and behind them. None are left where the two would not meet, or where memory is wanting.
fn put_over(into: &mut Vec<u8>, at: usize, bytes: &[u8])
    ensures { PutsOver at bytes.now into.old.items into.new.items }
{
    let len = into.len();
    if len == 0 || len < at {
        into.clear();
        return;
    }
    let (over, more) = bytes.split_at(bytes.len().min(len - at));
    let Ok(()) = into.extend_from_slice(more) else {
        into.clear();
        return;
    };
    put_at(into, at, over);
}

/// So many bytes, with zeros where there were fewer. They are copied, since filling takes a step for each.
pub fn resize(room: &mut Vec<u8>, count: usize) -> Result<(), AllocError>
    ensures { OnOk result (length room.new.items ≡ count) }
{
    room.truncate(count);
    while room.len() < count {
        let more = (count - room.len()).min(ZEROS.len());
        room.extend_from_slice(&ZEROS[..more])?;
    }
    Ok(())
}

impl Page {
    ghost use Rattle.tc_realfs.specs.Paging.{IsLeft, IsPut};

    fn absent(alloc: Global) -> Page
        ensures { result.bytes.items ≡ [] }
    {
        Page {
            turn: 0,
            bytes: Vec::new(alloc),
        }
    }

    // Fills bytes with those from a place in the page on. Answers whether they are there.
    #[inline(always)]
    fn copy(&self, skip: usize, into: &mut [u8]) -> bool
        ensures inside { IsTrue result → skip + length into.old ≤ length self.now.bytes.items }
        ensures bytes { IsTrue result → into.new ≡ take (length into.old) (drop skip self.now.bytes.items) }
    {
        let Some(found) = self.bytes.get(skip..) else {
            return false;
        };
        let Some(found) = found.get(..into.len()) else {
            return false;
        };
        into.copy_from_slice(found);
        true
    }

    // Puts bytes over those from a place on, if it is the page of that turn.
    fn put(&mut self, turn: u64, skip: usize, bytes: &[u8])
        requires inside { skip + length bytes.now ≤ 4096 }
        ensures { IsPut turn skip bytes.now self.old self.new }
    {
        if self.turn == turn {
            put_over(&mut self.bytes, skip, bytes);
        }
    }

    // Lets go of its bytes, if it is the page of that turn.
    fn let_go(&mut self, turn: u64)
        ensures left { IsLeft self.old self.new }
        ensures gone { self.old.turn ≡ turn → self.new.bytes.items ≡ [] }
    {
        if self.turn == turn {
            self.bytes.clear();
        }
    }

    // Gives its bytes away.
    fn take(&mut self, alloc: Global) -> Vec<u8>
        ensures { IsLeft self.old self.new }
    {
        replace(&mut self.bytes, Vec::new(alloc))
    }
}

/// Pages of a file that were read, at most 96 MiB of them. Each takes memory once it is read.
#[derive(Drop)]
pub struct Pages {
    alloc: Global,
    slots: Vec<Page>,
    ghost few: { length slots.items ≤ 24576 },
}

impl Pages {
    ghost use Rattle.tc_realfs.specs.Paging.{Lacks, Shows, ShowsOutside, ShowsWrite, StillShows, TakesPage};

    /// No pages, which takes no memory.
    pub fn new(alloc: Global) -> Pages
        ensures { (file : List ℕ) → Shows result file }
    {
        Pages {
            alloc,
            slots: Vec::new(alloc),
        }
    }

    /// Fills bytes with those from a place on. Answers whether they are there, all in one page; none always are.
    #[inline(always)]
    pub fn copy(&self, at: u64, into: &mut [u8]) -> bool
        ensures none { length into.old ≡ 0 → IsTrue result }
        ensures bytes { IsTrue result → (file : List ℕ) → Shows self.now file → into.new ≡ take (length into.old) (drop at file) }
    {
        if into.is_empty() {
            return true;
        }
        let spot = Spot::of(at);
        let Some(page) = self.slots.get(spot.slot) else {
            return false;
        };
        page.turn == spot.turn && page.copy(spot.skip, into)
    }

    /// Fills bytes with those from a place on, as far as they are there without a gap, in whichever pages. Answers how many.
    pub fn copy_front(&self, at: u64, into: &mut [u8]) -> usize
        requires inside { at + length into.old < 2 ^ 64 }
        ensures most { result ≤ length into.old }
        ensures bytes { (file : List ℕ) → Shows self.now file → take result into.new ≡ take result (drop at file) }
    {
        let mut done = 0;
        while done < into.len() {
            let from = at + done as u64;
            let here = (into.len() - done).min((PAGE - from % PAGE) as usize);
            if !self.copy(from, &mut into[done..done + here]) {
                return done;
            }
            done += here;
        }
        done
    }

    // Makes a slot where it isn't there.
    fn make_slot(&mut self, slot: usize) -> Result<(), AllocError>
        requires { slot < 24576 }
        ensures { StillShows self.old self.new }
    {
        while self.slots.len() <= slot {
            self.slots.push(Page::absent(self.alloc))?;
        }
        Ok(())
    }

    /// So many bytes, whatever they are, to be filled with those of a page. None where memory is wanting.
    pub fn room(&mut self, number: u64, count: usize) -> Option<Vec<u8>>
        ensures long { IfSome result (λ room. length room.items ≡ count) }
        ensures shows { StillShows self.old self.new }
    {
        let slot = (number % SLOTS) as usize;
        self.make_slot(slot).ok()?;
        let page = self.slots.get_mut(slot)?;
        let mut room = page.take(self.alloc);
        // a page that grows later takes no more
        let more = (PAGE as usize).saturating_sub(room.len());
        room.reserve_exact(more).ok()?;
        resize(&mut room, count).ok()?;
        Some(room)
    }

    /// Keeps the bytes of a page.
    pub fn fill(&mut self, number: u64, bytes: Vec<u8>)
        requires short { length bytes.items ≤ 4096 }
        ensures { TakesPage number bytes.items self.old self.new }
    {
        let slot = (number % SLOTS) as usize;
        let Some(page) = self.slots.get_mut(slot) else {
            return;
        };
        *page = Page {
            turn: number / SLOTS,
            bytes,
        };
    }

    /// Keeps a copy of the bytes of a page, if there is memory for it.
    pub fn keep(&mut self, number: u64, bytes: &[u8])
        requires short { length bytes.now ≤ 4096 }
        ensures { TakesPage number bytes.now self.old self.new }
    {
        let Some(mut room) = self.room(number, bytes.len()) else {
            return;
        };
        room.copy_from_slice(bytes);
        self.fill(number, room);
    }

    // Whether so many bytes at the front of a page are there.
    fn has(&self, number: u64, count: usize) -> bool {
        match self.slots.get((number % SLOTS) as usize) {
            Some(page) => page.turn == number / SLOTS && count <= page.bytes.len(),
            None => false,
        }
    }

    // Keeps a copy of the bytes of a page where so many aren't there, if there is memory for it.
    fn keep_more(&mut self, number: u64, bytes: &[u8])
        requires short { length bytes.now ≤ 4096 }
        ensures { TakesPage number bytes.now self.old self.new }
    {
        if self.has(number, bytes.len()) {
            return;
        }
        self.keep(number, bytes);
    }

    /// Keeps copies of the pages that begin in bytes from a place on, of the last as much as lies in them, as far as there is memory for them.
    pub fn keep_all(&mut self, at: u64, bytes: &[u8])
        requires inside { at + length bytes.now < 2 ^ 64 }
        ensures { (file : List ℕ) → bytes.now ≡ take (length bytes.now) (drop at file) → Shows self.old file → Shows self.new file }
    {
        let mut done = ((PAGE - at % PAGE) % PAGE) as usize;
        while done < bytes.len() {
            let number = (at + done as u64) / PAGE;
            let here = (bytes.len() - done).min(PAGE as usize);
            self.keep_more(number, &bytes[done..done + here]);
            done += here;
        }
    }

    // Brings in what was written from a place on in one page.
    fn put_part(&mut self, at: u64, bytes: &[u8])
        requires inside { at % 4096 + length bytes.now ≤ 4096 }
        ensures { ShowsWrite at bytes.now self.old self.new }
    {
        let spot = Spot::of(at);
        let Some(page) = self.slots.get_mut(spot.slot) else {
            return;
        };
        page.put(spot.turn, spot.skip, bytes);
    }

    /// Brings in what was written from a place on.
    pub fn put(&mut self, at: u64, bytes: &[u8])
        requires inside { at + length bytes.now < 2 ^ 64 }
        ensures { ShowsWrite at bytes.now self.old self.new }
    {
        let mut done = 0;
        while done < bytes.len() {
            let from = at + done as u64;
            let here = (bytes.len() - done).min((PAGE - from % PAGE) as usize);
            self.put_part(from, &bytes[done..done + here]);
            done += here;
        }
    }

    // Lets go of a page.
    fn let_go(&mut self, number: u64)
        ensures shows { StillShows self.old self.new }
        ensures gone { Lacks number self.new }
        ensures still { (other : ℕ) → Lacks other self.old → Lacks other self.new }
    {
        let Some(page) = self.slots.get_mut((number % SLOTS) as usize) else {
            return;
        };
        page.let_go(number / SLOTS);
    }

    /// Lets go of what lies from one place to another, and of all where that is longer than all.
    pub fn forget(&mut self, from: u64, until: u64)
        ensures { ShowsOutside from until self.old self.new }
    {
        let first = from / PAGE;
        let end = until.div_ceil(PAGE);
        if end.saturating_sub(first) > self.slots.len() as u64 {
            self.slots.clear();
            return;
        }
        for number in first..end {
            self.let_go(number);
        }
    }
}
