//! Heads of records, read many at once.
#![tactic(auto, using(tc_space::specs::Frames::only_reads_refl, tc_space::specs::Frames::only_reads_then))]

ghost use Rattle.std.specs.Prelude.{◌≡◌, ◌↔◌, ◌+◌, ◌*◌, ◌≤◌, length, drop, take, IfOk, OnOk, IsTrue};
ghost use Rattle.tc_io.specs.Causes.{HasCause};
ghost use Rattle.tc_space.specs.Frames.{OnlyReads};

use crate::reading::{HEAD_SIZE, Head, measure};
use crate::record::ULOG_FILE;
use tc_base::Fault;
use tc_reach::read_into;
use tc_space::Space;

/// Bytes of the update log from a place on: 4,096, or as many as there are.
#[derive(Drop)]
pub struct Piece {
    at: u64,
    /// How many bytes the file has.
    end: u64,
    bytes: [u8; 4096],
    ghost inside: { at ≤ end },
}

// Fills the front with the bytes of the file from a place on.
fn read_front<S: Space>(
    space: &mut S,
    at: u64,
    into: &mut [u8; 4096],
    len: usize,
) -> Result<(), Fault>
    requires sound { S.sound space.old }
    requires few { len ≤ 4096 }
    requires inside { S.tells → at + len ≤ length (S.now space.old 2) }
    ensures bytes { OnOk result (S.tells → take len into.new ≡ take len (drop at (S.now space.old 2))) }
    ensures counted { S.bytes_read space.new ≤ S.bytes_read space.old + len }
    ensures reads { OnlyReads S.Space space.old space.new }
    ensures cause { HasCause (S.faults space.old) (S.faults space.new) result }
{
    read_into(space, ULOG_FILE, at, &mut into[..len])
}

// So many bytes from a place on.
fn part(bytes: &[u8; 4096], at: usize, count: usize) -> &[u8]
    requires { at + count ≤ 4096 }
    ensures long { length result.now ≡ count }
    ensures bytes { result.now ≡ take count (drop at bytes.now) }
{
    &bytes[at..at + count]
}

impl Piece {
    ghost use Rattle.ty_ulog.specs.Pieces.{long_of, Finds, MovesOn, Shows};

    /// Reads the first bytes, from a place on.
    pub fn read<S: Space>(space: &mut S, at: u64, end: u64) -> Result<Piece, Fault>
        requires sound { S.sound space.old }
        requires inside { at ≤ end }
        requires end { S.tells → end ≡ length (S.now space.old 2) }
        ensures place { IfOk result (λ p. (p.at ≡ at) × (p.end ≡ end)) }
        ensures shows { IfOk result (λ p. S.tells → Shows p (S.now space.old 2)) }
        ensures counted { S.bytes_read space.new ≤ S.bytes_read space.old + 4096 }
        ensures reads { OnlyReads S.Space space.old space.new }
        ensures cause { HasCause (S.faults space.old) (S.faults space.new) result }
    {
        let mut bytes = [0; 4096];
        let len = (end - at).min(4096) as usize;
        read_front(space, at, &mut bytes, len)?;
        Ok(Piece { at, end, bytes })
    }

    // How many bytes it has.
    fn len(&self) -> usize
        ensures { result ≡ long_of self.now }
    {
        (self.end - self.at).min(4096) as usize
    }

    // Whether the 25 bytes from a place on are held.
    fn has_head(&self, at: u64) -> bool
        requires { self.now.at ≤ at }
        ensures { IsTrue result ↔ (at + 25 ≤ self.now.at + long_of self.now) }
    {
        (self.len() as u64).saturating_sub(at - self.at) >= 25
    }

    // Reads the bytes from a place on, where its head isn't held.
    fn hold<S: Space>(&mut self, space: &mut S, at: u64) -> Result<(), Fault>
        requires sound { S.sound space.old }
        requires place { (self.old.at ≤ at) × (at + 25 ≤ self.old.end) }
        requires shows { S.tells → Shows self.old (S.now space.old 2) }
        ensures shows { OnOk result (S.tells → Shows self.new (S.now space.old 2)) }
        ensures place { MovesOn self.old self.new at }
        ensures covers { OnOk result (at + 25 ≤ self.new.at + long_of self.new) }
        ensures counted { S.bytes_read space.new + 2 * self.old.at ≤ S.bytes_read space.old + 2 * self.new.at }
        ensures reads { OnlyReads S.Space space.old space.new }
        ensures cause { HasCause (S.faults space.old) (S.faults space.new) result }
    {
        if self.has_head(at) {
            return Ok(());
        }
        self.at = at;
        let len = self.len();
        read_front(space, at, &mut self.bytes, len)?;
        Ok(())
    }

    /// The head of the record that stands at a place, if one does that ends inside the file.
    pub fn head<S: Space>(&mut self, space: &mut S, at: u64) -> Result<Option<Head>, Fault>
        requires sound { S.sound space.old }
        requires place { (self.old.at ≤ at) × (at ≤ self.old.end) }
        requires shows { S.tells → Shows self.old (S.now space.old 2) }
        ensures finds { IfOk result (Finds S.tells (S.now space.old 2) at self.old.end) }
        ensures shows { OnOk result (S.tells → Shows self.new (S.now space.old 2)) }
        ensures place { MovesOn self.old self.new at }
        ensures counted { S.bytes_read space.new + 2 * self.old.at ≤ S.bytes_read space.old + 2 * self.new.at }
        ensures reads { OnlyReads S.Space space.old space.new }
        ensures cause { HasCause (S.faults space.old) (S.faults space.new) result }
    {
        if self.end - at < 25 {
            return Ok(None);
        }
        self.hold(space, at)?;
        let skip = (at - self.at) as usize;
        let Some(head) = measure(part(&self.bytes, skip, HEAD_SIZE)) else {
            return Ok(None);
        };
        if head.size as u64 > self.end - at {
            return Ok(None);
        }
        Ok(Some(head))
    }
}
