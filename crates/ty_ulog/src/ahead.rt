//! The update log read ahead in pieces, one update after the other.
#![tactic(auto, using(tc_space::specs::Frames::only_reads_refl, tc_space::specs::Frames::only_reads_then))]

ghost use Rattle.std.specs.Prelude.{◌≡◌, ◌+◌, ◌≤◌, [], length, take, drop, min, true, false, IfOk, IfSome, OnOk, IsErrOf};
ghost use Rattle.tc_io.specs.Causes.{HasCause};
ghost use Rattle.tc_space.specs.Frames.{OnlyReads};
ghost use Rattle.tc_space.specs.Refusals.{Blamed};
ghost use Rattle.ty_ulog.specs.Ongoing.{IsNoPart};

use crate::checks::update_of;
use crate::reading::{HEAD_SIZE, Head, measure};
use crate::record::ULOG_FILE;
use bytes::BytesMut;
use std::alloc::{AllocError, Global};
use tc_base::Fault;
use tc_reach::{ReadErr, read_into};
use tc_space::Space;
use ty_wire::{Front, take};

// So many bytes are read at once, at most.
const PIECE: u64 = 65_536;

/// Bytes of the update log that were read and not passed yet.
#[derive(Drop)]
pub struct Ahead {
    alloc: Global,
    /// Where the first of them stands.
    at: u64,
    /// How many bytes the file has.
    end: u64,
    held: BytesMut,
    /// The bytes that were read last, which are held too.
    piece: Vec<u8>,
    ghost inside: { at + length held.items ≤ end },
}

// Room for so many bytes.
fn make_room(into: &mut Vec<u8>, count: usize) -> Result<(), AllocError>
    ensures { OnOk result (length into.new.items ≡ count) }
{
    if into.len() != count {
        into.clear();
        into.resize(count, 0)?;
    }
    Ok(())
}

// Reads as many bytes as there is room for, from a place on.
fn fill<S: Space>(space: &mut S, at: u64, into: &mut Vec<u8>) -> Result<(), Fault>
    requires sound { S.sound space.old }
    requires inside { S.tells → at + length into.old.items ≤ length (S.now space.old 2) }
    ensures long { length into.new.items ≡ length into.old.items }
    ensures bytes { OnOk result (S.tells → into.new.items ≡ take (length into.old.items) (drop at (S.now space.old 2))) }
    ensures counted { S.bytes_read space.new ≤ S.bytes_read space.old + length into.old.items }
    ensures reads { OnlyReads S.Space space.old space.new }
    ensures cause { HasCause (S.faults space.old) (S.faults space.new) result }
{
    read_into(space, ULOG_FILE, at, into)
}

// Bytes behind a head.
fn behind_head(held: &[u8]) -> &[u8]
    requires { 25 ≤ length held.now }
    ensures { result.now ≡ drop 25 held.now }
{
    &held[HEAD_SIZE..]
}

// So many bytes from the front on.
fn first_bytes(held: &[u8], count: usize) -> &[u8]
    requires { count ≤ length held.now }
    ensures { result.now ≡ take count held.now }
{
    &held[..count]
}

// Whether the bytes behind a head are a part of a request, and no whole one.
fn is_part(held: &[u8]) -> bool
    requires { 25 ≤ length held.now }
    ensures { result ≡ false → IsNoPart (drop 25 held.now) }
{
    match take(behind_head(held)) {
        Front::Part => true,
        Front::Whole(_) => false,
        Front::Bad => false,
    }
}

impl Ahead {
    ghost use Rattle.ty_ulog.specs.Pieces.{upto, Goes, HasNone, HasRoom, Heads, IsAhead, IsNext, Passes, Spends};

    /// Nothing was read of a file of so many bytes.
    pub fn new(alloc: Global, end: u64) -> Ahead
        ensures none { result.held.items ≡ [] }
        ensures front { result.at ≡ 0 }
        ensures end { result.end ≡ end }
    {
        Ahead {
            alloc,
            at: 0,
            end,
            held: BytesMut::new(alloc),
            piece: Vec::new(alloc),
        }
    }

    /// Where the next update stands.
    pub fn place(&self) -> u64
        ensures { result ≡ self.now.at }
    {
        self.at
    }

    // Reads the bytes behind those that are held, as many as there are up to a piece.
    fn more<S: Space>(&mut self, space: &mut S) -> Result<(), ReadErr>
        requires sound { S.sound space.old }
        requires ahead { S.tells → IsAhead self.old (S.now space.old 2) }
        ensures goes { OnOk result (Goes S.Space self.old self.new space.old) }
        ensures reach { OnOk result (upto self.new ≡ min (upto self.old + 65536) self.old.end) }
        ensures spends { Spends S.Space result self.old self.new space.old space.new }
        ensures reads { OnlyReads S.Space space.old space.new }
        ensures cause { Blamed S.Space (IsErrOf result ReadErr.Fault) space.old space.new }
    {
        let from = self.at + self.held.len() as u64;
        let more = (self.end - from).min(PIECE) as usize;
        make_room(&mut self.piece, more)?;
        fill(space, from, &mut self.piece)?;
        self.held.extend_from_slice(self.piece.as_slice())?;
        Ok(())
    }

    // Holds the bytes of a head.
    fn hold_head<S: Space>(&mut self, space: &mut S) -> Result<(), ReadErr>
        requires sound { S.sound space.old }
        requires ahead { S.tells → IsAhead self.old (S.now space.old 2) }
        requires room { self.old.at + 25 ≤ self.old.end }
        ensures held { OnOk result (25 ≤ length self.new.held.items) }
        ensures goes { OnOk result (Goes S.Space self.old self.new space.old) }
        ensures spends { Spends S.Space result self.old self.new space.old space.new }
        ensures reads { OnlyReads S.Space space.old space.new }
        ensures cause { Blamed S.Space (IsErrOf result ReadErr.Fault) space.old space.new }
    {
        if self.held.len() >= HEAD_SIZE {
            return Ok(());
        }
        self.more(space)?;
        Ok(())
    }

    // The head of the record that stands next, if one does that ends inside the file; it is held then.
    fn head<S: Space>(&mut self, space: &mut S) -> Result<Option<Head>, ReadErr>
        requires sound { S.sound space.old }
        requires ahead { S.tells → IsAhead self.old (S.now space.old 2) }
        ensures some { IfOk result (λ o. IfSome o (HasRoom self.new)) }
        ensures heads { IfOk result (λ o. S.tells → Heads (drop self.old.at (S.now space.old 2)) o) }
        ensures goes { OnOk result (Goes S.Space self.old self.new space.old) }
        ensures spends { Spends S.Space result self.old self.new space.old space.new }
        ensures reads { OnlyReads S.Space space.old space.new }
        ensures cause { Blamed S.Space (IsErrOf result ReadErr.Fault) space.old space.new }
    {
        let left = self.end - self.at;
        if left < 25 {
            return Ok(None);
        }
        self.hold_head(space)?;
        let Some(head) = measure(first_bytes(self.held.as_slice(), HEAD_SIZE)) else {
            return Ok(None);
        };
        if head.size as u64 > left {
            return Ok(None);
        }
        Ok(Some(head))
    }

    // Holds as many bytes. False where what is there of the request isn't a part of one. That is looked at each time that twice as much is
    // there: no more is held than twice of what the request announces, whatever the record's size says.
    fn hold<S: Space>(&mut self, space: &mut S, size: usize) -> Result<bool, ReadErr>
        requires sound { S.sound space.old }
        requires ahead { S.tells → IsAhead self.old (S.now space.old 2) }
        requires head { (25 ≤ length self.old.held.items) × (self.old.at + size ≤ self.old.end) }
        ensures held { IfOk result (λ b. b ≡ true → size ≤ length self.new.held.items) }
        ensures none { IfOk result (λ b. b ≡ false → S.tells → HasNone (drop self.old.at (S.now space.old 2)) size) }
        ensures goes { OnOk result (Goes S.Space self.old self.new space.old) }
        ensures spends { Spends S.Space result self.old self.new space.old space.new }
        ensures reads { OnlyReads S.Space space.old space.new }
        ensures cause { Blamed S.Space (IsErrOf result ReadErr.Fault) space.old space.new }
    {
        let mut checked = 0;
        'pieces: while self.held.len() < size {
            if self.held.len() / 2 >= checked {
                checked = self.held.len();
                if !is_part(self.held.as_slice()) {
                    return Ok(false);
                }
            }
            self.more(space)?;
        }
        Ok(true)
    }

    /// Passes the update that stands next, if one does.
    pub fn next<S: Space>(&mut self, space: &mut S) -> Result<Option<Head>, ReadErr>
        requires sound { S.sound space.old }
        requires ahead { S.tells → IsAhead self.old (S.now space.old 2) }
        ensures moved { IfOk result (λ o. IfSome o (Passes self.old self.new)) }
        ensures update { IfOk result (λ o. S.tells → IsNext (S.now space.old 2) self.old.at o) }
        ensures end { OnOk result (self.new.end ≡ self.old.end) }
        ensures ahead { OnOk result (S.tells → IsAhead self.new (S.now space.old 2)) }
        ensures spends { Spends S.Space result self.old self.new space.old space.new }
        ensures reads { OnlyReads S.Space space.old space.new }
        ensures cause { Blamed S.Space (IsErrOf result ReadErr.Fault) space.old space.new }
    {
        let Some(head) = self.head(space)? else {
            return Ok(None);
        };
        if !self.hold(space, head.size)? {
            return Ok(None);
        }
        let Some(update) = update_of(self.alloc, first_bytes(self.held.as_slice(), head.size))?
        else {
            return Ok(None);
        };
        self.held.advance(head.size);
        self.at += head.size as u64;
        Ok(Some(update))
    }
}
