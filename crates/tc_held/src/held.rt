//! Pieces that are held, and their bytes.
ghost use Rattle.std.specs.Prelude.{◌≡◌, ◌+◌, ◌-◌, ◌^◌, ◌<◌, ◌≤◌, [], true, false, length, take, drop, get_or, set, min, IfOk, IfSome, MatchOption};
ghost use Rattle.tc_base.specs.Files.{wrote};
ghost use Rattle.ud_log.specs.Undo.{is_data};
ghost use Rattle.tc_held.specs.Pieces.{BeginsBehind, Covers, EndsHere, IsAt, NextIs, Parts};
ghost use Rattle.tc_held.specs.Held.{HasRoomFor, IsTidy, Lays, Takes};

use crate::finding::{begins_before, ends_here, find, gap};
use crate::overlay::lay_from;
use std::alloc::{AllocError, Global};
use tc_undo::Piece;

/// The most bytes that are held.
const MOST_BYTES: usize = 1 << 23;

/// The most pieces that are held.
const MOST_PIECES: usize = 1 << 13;

/// Bytes for data files, in pieces that ascend by file and place and are apart. Its memory is taken when it is made.
#[derive(Drop)]
pub struct Held {
    pieces: Vec<Piece>,
    bytes: Vec<u8>,
    slots: usize,
    room: usize,
}

fn put_at(into: &mut [u8], at: usize, bytes: &[u8])
    requires { at + length bytes.now ≤ length into.old }
    ensures { into.new ≡ wrote at bytes.now into.old }
{
    into[at..at + bytes.len()].copy_from_slice(bytes);
}

fn set_at(pieces: &mut [Piece], i: usize, piece: Piece)
    requires { i < length pieces.old }
    ensures { pieces.new ≡ set pieces.old i piece }
{
    pieces[i] = piece;
}

pub(crate) fn behind(bytes: &[u8], at: usize) -> &[u8]
    requires { at ≤ length bytes.now }
    ensures { result.now ≡ drop at bytes.now }
{
    &bytes[at..]
}

impl Held {
    /// Holds nothing, with room for 8,192 pieces and 8,388,608 bytes, which is taken now.
    pub fn new(alloc: Global) -> Result<Held, AllocError>
        ensures none { IfOk result (λ h. (h.pieces.items ≡ []) × (h.bytes.items ≡ [])) }
        ensures room { IfOk result (HasRoomFor (2 ^ 13) (2 ^ 23)) }
    {
        Held::with_room(alloc, MOST_PIECES, MOST_BYTES)
    }

    /// The same with room for at most so many pieces and bytes.
    pub fn with_room(alloc: Global, pieces: usize, bytes: usize) -> Result<Held, AllocError>
        ensures none { IfOk result (λ h. (h.pieces.items ≡ []) × (h.bytes.items ≡ [])) }
        ensures room { IfOk result (HasRoomFor (min pieces (2 ^ 13)) (min bytes (2 ^ 23))) }
    {
        let slots = pieces.min(MOST_PIECES);
        let room = bytes.min(MOST_BYTES);
        Ok(Held {
            pieces: Vec::with_capacity(alloc, slots)?,
            bytes: Vec::with_capacity(alloc, room)?,
            slots,
            room,
        })
    }

    /// It holds nothing.
    pub fn is_empty(&self) -> bool
        ensures none { result ≡ true → self.now.pieces.items ≡ [] }
        ensures some { result ≡ false → self.now.pieces.items ≡ [] → ⊥ }
    {
        self.pieces.is_empty()
    }

    /// What it holds is let go.
    pub fn clear(&mut self)
        ensures { (self.new.pieces.items ≡ []) × (self.new.bytes.items ≡ []) }
    {
        self.pieces.clear();
        self.bytes.clear();
    }

    /// The pieces, whose bytes are those of `bytes`.
    pub fn pieces(&self) -> &[Piece]
        ensures { result.now ≡ self.now.pieces.items }
    {
        self.pieces.as_slice()
    }

    /// The bytes of all pieces.
    pub fn bytes(&self) -> &[u8]
        ensures { result.now ≡ self.now.bytes.items }
    {
        self.bytes.as_slice()
    }

    // How many pieces end at a place of a file or in front of it.
    fn find(&self, file: u32, at: u64) -> usize
        requires tidy { IsTidy self.now }
        ensures { Parts file at self.now.pieces.items result }
    {
        find(self.pieces.as_slice(), file, at)
    }

    /// There is room for so many bytes from a place of a file on: one piece has them all, or there is as much as if none of them were held.
    pub fn has_room(&self, file: u32, at: u64, size: usize) -> bool
        requires tidy { IsTidy self.now }
        requires small { at + size ≤ 2 ^ 40 }
    {
        if self.has_plenty(size) {
            return true;
        }
        let first = self.find(file, at);
        let end = at + size as u64;
        if self.has_up_to(first, file, at, end) {
            return true;
        }
        let last = self.find(file, end);
        let more = last.saturating_sub(first).saturating_add(1);
        size <= self.room.saturating_sub(self.bytes.len())
            && more <= self.slots.saturating_sub(self.pieces.len())
    }

    // There is room for so many bytes more, each in a piece of its own, and for one piece besides.
    fn has_plenty(&self, size: usize) -> bool {
        size <= self.room.saturating_sub(self.bytes.len())
            && size < self.slots.saturating_sub(self.pieces.len())
    }

    // The piece at an index, if there are so many.
    fn piece(&self, i: usize) -> Option<Piece>
        ensures { MatchOption result (length self.now.pieces.items ≤ i) (IsAt self.now.pieces.items i) }
    {
        let pieces = self.pieces.as_slice();
        if i >= pieces.len() {
            return None;
        }
        Some(pieces[i])
    }

    // The piece at an index has all bytes of a file from one place up to another.
    fn has_up_to(&self, i: usize, file: u32, at: u64, end: u64) -> bool {
        match self.piece(i) {
            Some(piece) => {
                begins_before(piece, file, at) && end <= piece.at.saturating_add(piece.size as u64)
            }
            None => false,
        }
    }

    // Writes over the bytes of a piece, which covers a place of a file, from there on. Answers how many.
    fn change(&mut self, i: usize, piece: Piece, file: u32, at: u64, data: &[u8]) -> usize
        requires tidy { IsTidy self.old }
        requires is { IsAt self.old.pieces.items i piece }
        requires covers { Covers file at piece }
        ensures most { result ≤ length data.now }
        ensures takes { Takes file at (take result data.now) self.old self.new }
    {
        let skip = (at - piece.at) as usize;
        let n = data.len().min(piece.size - skip);
        put_at(&mut self.bytes, piece.from + skip, &data[..n]);
        n
    }

    // There is room for so many bytes more.
    fn has_bytes(&self, size: usize) -> bool
        requires tidy { IsTidy self.now }
        ensures { result ≡ true → length self.now.bytes.items + size ≤ 2 ^ 23 }
    {
        size <= self.room.min(MOST_BYTES).saturating_sub(self.bytes.len())
    }

    // There is room for one more piece, of so many bytes.
    fn has_place(&self, size: usize) -> bool
        requires tidy { IsTidy self.now }
        ensures { result ≡ true → length self.now.bytes.items + size ≤ 2 ^ 23 }
    {
        self.has_bytes(size) && self.pieces.len() < self.slots
    }

    // Holds a piece more at an index. Answers how many bytes it took: all, or none where there is no room.
    fn insert(&mut self, i: usize, file: u32, at: u64, data: &[u8]) -> usize
        requires tidy { IsTidy self.old }
        requires file { is_data file ≡ true }
        requires small { at + length data.now ≤ 2 ^ 40 }
        requires some { 1 ≤ length data.now }
        requires parts { Parts file at self.old.pieces.items i }
        requires next { NextIs (BeginsBehind file (at + length data.now)) self.old.pieces.items i }
        ensures most { result ≤ length data.now }
        ensures takes { Takes file at (take result data.now) self.old self.new }
    {
        if !self.has_place(data.len()) {
            return 0;
        }
        let piece = Piece {
            file,
            at,
            from: self.bytes.len(),
            size: data.len(),
        };
        let Ok(()) = self.bytes.extend_from_slice(data) else {
            return 0;
        };
        let Ok(()) = self.pieces.insert(i, piece) else {
            return 0;
        };
        data.len()
    }

    // The piece in front of an index, if it ends at a place of a file and its bytes are the last.
    fn piece_before(&self, i: usize, file: u32, at: u64) -> Option<Piece>
        requires tidy { IsTidy self.now }
        ensures { IfSome result (EndsHere self.now.bytes.items self.now.pieces.items i file at) }
    {
        if i == 0 {
            return None;
        }
        let piece = self.piece(i - 1)?;
        if !ends_here(piece, file, at, self.bytes.len()) {
            return None;
        }
        Some(piece)
    }

    // Lengthens a piece in front of an index by bytes behind it. Answers how many: all, or none where there is no room.
    fn lengthen(&mut self, i: usize, piece: Piece, file: u32, at: u64, data: &[u8]) -> usize
        requires tidy { IsTidy self.old }
        requires ends { EndsHere self.old.bytes.items self.old.pieces.items i file at piece }
        requires small { at + length data.now ≤ 2 ^ 40 }
        requires next { NextIs (BeginsBehind file (at + length data.now)) self.old.pieces.items i }
        ensures most { result ≤ length data.now }
        ensures takes { Takes file at (take result data.now) self.old self.new }
    {
        if !self.has_bytes(data.len()) {
            return 0;
        }
        let Ok(()) = self.bytes.extend_from_slice(data) else {
            return 0;
        };
        let longer = Piece {
            file: piece.file,
            at: piece.at,
            from: piece.from,
            size: piece.size + data.len(),
        };
        set_at(&mut self.pieces, i - 1, longer);
        data.len()
    }

    // Holds bytes that no piece has, in the piece in front of an index or in one more there. Answers how many: all, or none where there is no room.
    fn add(&mut self, i: usize, file: u32, at: u64, data: &[u8]) -> usize
        requires tidy { IsTidy self.old }
        requires file { is_data file ≡ true }
        requires small { at + length data.now ≤ 2 ^ 40 }
        requires some { 1 ≤ length data.now }
        requires parts { Parts file at self.old.pieces.items i }
        requires next { NextIs (BeginsBehind file (at + length data.now)) self.old.pieces.items i }
        ensures most { result ≤ length data.now }
        ensures takes { Takes file at (take result data.now) self.old self.new }
    {
        match self.piece_before(i, file, at) {
            Some(piece) => self.lengthen(i, piece, file, at, data),
            None => self.insert(i, file, at, data),
        }
    }

    // Holds bytes from a place of a file on, as far as one piece has them or none does. Answers how many, 0 where there is no room.
    fn put_some(&mut self, file: u32, at: u64, data: &[u8]) -> usize
        requires tidy { IsTidy self.old }
        requires file { is_data file ≡ true }
        requires small { at + length data.now ≤ 2 ^ 40 }
        requires some { 1 ≤ length data.now }
        ensures most { result ≤ length data.now }
        ensures takes { Takes file at (take result data.now) self.old self.new }
    {
        let i = self.find(file, at);
        let Some(next) = self.piece(i) else {
            return self.add(i, file, at, data);
        };
        if begins_before(next, file, at) {
            return self.change(i, next, file, at, data);
        }
        let n = gap(next, file, at, data.len());
        self.add(i, file, at, &data[..n])
    }

    /// Holds bytes for a data file from a place on. Answers how many: all, or those for which there was room.
    pub fn put(&mut self, file: u32, at: u64, data: &[u8]) -> usize
        requires tidy { IsTidy self.old }
        requires file { is_data file ≡ true }
        requires small { at + length data.now ≤ 2 ^ 40 }
        ensures most { result ≤ length data.now }
        ensures takes { Takes file at (take result data.now) self.old self.new }
    {
        let mut done = 0;
        while done < data.len() {
            let n = self.put_some(file, at + done as u64, behind(data, done));
            if n == 0 {
                return done;
            }
            done += n;
        }
        done
    }

    // Lays the pieces that it holds over bytes that show a file from a place on.
    #[inline(never)]
    fn lay_pieces(&self, file: u32, at: u64, into: &mut [u8])
        requires tidy { IsTidy self.now }
        ensures lays { Lays self.now file at into.old into.new }
        ensures long { length into.new ≡ length into.old }
    {
        let first = self.find(file, at);
        lay_from(
            self.pieces.as_slice(),
            self.bytes.as_slice(),
            first,
            file,
            at,
            into,
        );
    }

    /// Lays what it holds over bytes that show a file from a place on.
    #[inline(always)]
    pub fn lay(&self, file: u32, at: u64, into: &mut [u8])
        requires tidy { IsTidy self.now }
        ensures lays { Lays self.now file at into.old into.new }
        ensures long { length into.new ≡ length into.old }
    {
        if self.is_empty() {
            return;
        }
        self.lay_pieces(file, at, into);
    }
}
