//! Guesses at which record stands at a place.
ghost use Rattle.std.specs.Prelude.{◌≡◌, ◌<◌, length};

use crate::facts::Facts;
use std::alloc::{AllocError, Global};

/// For each stretch of a file, the first record that begins in it. The stretches are as long as a power of two, and no more of them than
/// records. What stands here is only a guess: whoever asks looks at that record.
#[derive(Drop)]
pub struct Guesses {
    first: u64,
    shift: u32,
    numbers: Vec<u32>,
    ghost low: { shift < 64 },
}

// In which stretch a place lies, where the first begins at `first`.
fn stretch(place: u64, first: u64, shift: u32) -> usize
    requires { shift < 64 }
{
    (place.saturating_sub(first) >> shift) as usize
}

impl Guesses {
    // The first record of the stretch that a place lies in, counted from 0. There may be no such record.
    fn at(&self, place: u64) -> usize {
        let i = stretch(place, self.first, self.shift);
        if i < self.numbers.len() {
            self.numbers[i] as usize
        } else {
            0
        }
    }

    // The first record of the stretch of each of many places.
    fn at_all(&self, places: &[u64], likely: &mut [usize])
        requires { length likely.old ≡ length places.now }
    {
        for i in 0..places.len() {
            likely[i] = self.at(places[i]);
        }
    }

    /// Where in the list the record at a place is likely to stand: as the first of its stretch, or behind that. There may be no such record.
    pub fn likely(&self, facts: &Facts, place: u64) -> usize {
        step_on(facts, self.at(place), place)
    }

    /// Where the record at each of many places is likely to stand. They are looked for side by side: none waits for what another reads from memory.
    pub fn likely_all(&self, facts: &Facts, places: &[u64], likely: &mut [usize])
        requires { length likely.old ≡ length places.now }
    {
        self.at_all(places, likely);
        step_on_all(facts, places, likely);
    }
}

// The number of the record behind one, counted from 0, where that one stands before a place; else its own. It doesn't branch on what was read.
fn step_on(facts: &Facts, i: usize, place: u64) -> usize {
    if i >= facts.len() {
        return i;
    }
    i + (facts.at(i).place < place) as usize
}

// For each of many places the number of its record, or of the one behind it where that one stands before the place.
fn step_on_all(facts: &Facts, places: &[u64], likely: &mut [usize])
    requires { length likely.old ≡ length places.now }
{
    for i in 0..places.len() {
        likely[i] = step_on(facts, likely[i], places[i]);
    }
}

// Notes each record at its stretch, the last first, so that the first of a stretch stays.
fn note(numbers: &mut [u32], facts: &Facts, first: u64, shift: u32)
    requires { shift < 64 }
{
    for i in 0..facts.len() {
        let k = facts.len() - 1 - i;
        let at = stretch(facts.at(k).place, first, shift);
        if at < numbers.len() {
            numbers[at] = k.min(u32::MAX as usize) as u32;
        }
    }
}

// How long stretches are, as a power of two, where so many bytes have no more of them than there are records.
fn shift_of(bytes: u64, records: usize) -> u32
    requires { 0 < records }
    ensures { result < 64 }
{
    (64 - (bytes / records as u64).leading_zeros()).min(63)
}

/// Guesses at the records of a file, which lie in ascending place.
pub fn guess(alloc: Global, facts: &Facts) -> Result<Guesses, AllocError> {
    let count = facts.len();
    if count == 0 {
        return Ok(Guesses {
            first: 0,
            shift: 0,
            numbers: Vec::new(alloc),
        });
    }
    let first = facts.at(0).place;
    let bytes = facts.at(count - 1).place.saturating_sub(first);
    let shift = shift_of(bytes, count);
    let stretches = stretch(bytes, 0, shift).min(count - 1) + 1;
    let mut numbers = vec![in alloc; 0u32; stretches]?;
    note(&mut numbers, facts, first, shift);
    Ok(Guesses {
        first,
        shift,
        numbers,
    })
}
