//! One link to a master.
ghost use Rattle.std.specs.Prelude.{◌≡◌, ◌≤◌, ◌++◌, [], true, false, drop, length, IfOk, OnOk, OnErr};
ghost use Rattle.ty_ulog.specs.Records.{TakesRecord, IsReadRecord, record_at, seen};
ghost use Rattle.ty_slave.specs.Lines.{HasNext, IsNext, Line, TakesThis, TakesUpdate, judged, judged_next, looked, introduced, stepped, is_refusal};

use bytes::BytesMut;
use std::alloc::{AllocError, Global};
use std::marker::Model;
use ty_ulog::{RecTake, Record, RecordRef, is_update, look_record, take_record};

// Room of so many bytes is kept though nothing is in it.
const KEPT_ROOM: usize = 65_536;

/// What one step over a link's bytes came to.
#[derive(Drop)]
pub enum Step {
    /// No whole id, or no whole record behind it, is held.
    Part,
    /// The master's id was read.
    Master(u32),
    /// A record that is to be taken, if the contents don't refuse it. It may come next in the log of what is held.
    Take(Record),
    /// A record that isn't later than what is held: it is ignored.
    Old,
    /// A later record that follows another than the last one held: the link is to be closed.
    Gap {
        /// The last timestamp held.
        held: u64,
        /// The timestamp that it follows.
        follows: u64,
    },
    /// The master refused, it is this server itself, or the bytes are no record that can be taken: the link is to be closed.
    Bad,
}

/// The bytes that came of a master and weren't looked at yet, and the last timestamp held.
#[derive(Drop)]
pub struct Link {
    alloc: Global,
    own: u16,
    held: u64,
    named: bool,
    unread: BytesMut,
}

impl Model for Link {
    ghost use Rattle.ty_slave.specs.Lines.{Line};

    ghost Value = { Line };

    ghost view = { λ l. record { own = l.own; held = l.held; named = l.named; unread = l.unread.items } };
}

// A later record that follows the last one held: it is to be taken where it has one whole updating request.
fn judge_next(alloc: Global, r: RecordRef<'_>) -> Result<Step, AllocError>
    ensures judged { IfOk result (λ s. s ≡ judged_next (seen r.entry)) }
    ensures takes { IfOk result (TakesThis (seen r.entry)) }
{
    if !is_update(alloc, r.request)? {
        return Ok(Step::Bad);
    }
    Ok(Step::Take(r.to_record(alloc)?))
}

// Whether a record is to be taken, or why not. Its request is looked at where all else speaks for it.
#[tactic(auto, using(crate::proofs::Looking::next_on))]
fn judge(alloc: Global, held: u64, r: RecordRef<'_>) -> Result<Step, AllocError>
    ensures judged { IfOk result (λ s. s ≡ judged held (seen r.entry)) }
    ensures takes { IfOk result (TakesThis (seen r.entry)) }
    ensures wanting { OnErr result (IsNext held (seen r.entry)) }
{
    let next = r.before == held;
    let later = held < r.stamp;
    if next & later {
        return judge_next(alloc, r);
    }
    if !later {
        return Ok(Step::Old);
    }
    Ok(Step::Gap {
        held,
        follows: r.before,
    })
}

// The record at the front of bytes that begin with a whole one, judged.
fn judge_front(alloc: Global, held: u64, bytes: &[u8], whole: usize) -> Result<Step, AllocError>
    requires { IsReadRecord bytes.now (RecTake.Whole whole) }
    ensures judged { IfOk result (λ s. (l : Line) → l.held ≡ held → (s, record l { unread = drop whole bytes.now }) ≡ looked l (record_at bytes.now)) }
    ensures takes { IfOk result TakesUpdate }
    ensures wanting { OnErr result (HasNext held bytes.now) }
{
    let r = look_record(bytes);
    judge(alloc, held, r)
}

// Whether the first byte refuses.
fn refuses(bytes: &[u8]) -> bool
    ensures { result ≡ is_refusal bytes.now }
{
    match bytes {
        [b, ..] => *b == 1,
        [] => false,
    }
}

impl Link {
    /// Nothing came yet. `held` is the last timestamp held, `own` this server's id.
    pub fn new(alloc: Global, held: u64, own: u16) -> Link
        ensures { result ≡ record { own = own; held = held; named = false; unread = [] } }
    {
        Link {
            alloc,
            own,
            held,
            named: false,
            unread: BytesMut::new(alloc),
        }
    }

    /// Adds bytes behind the others. An `Err` changes nothing.
    pub fn push(&mut self, bytes: &[u8]) -> Result<(), AllocError>
        ensures ok { OnOk result (self.new ≡ record self.old { unread = self.old.unread ++ bytes.now }) }
        ensures err { OnErr result (self.new ≡ self.old) }
    {
        self.unread.extend_from_slice(bytes)
    }

    // Reads the id, if it is there.
    fn introduce(&mut self) -> Step
        ensures introduced { (result, self.new) ≡ introduced self.old }
        ensures takes { TakesUpdate result }
        ensures fewer { length self.new.unread ≤ length self.old.unread }
    {
        let bytes = self.unread.as_slice();
        if refuses(bytes) {
            return Step::Bad;
        }
        if bytes.len() < 4 {
            return Step::Part;
        }
        let id = u32::from_be_bytes([bytes[0], bytes[1], bytes[2], bytes[3]]);
        if id == u32::from(self.own) {
            return Step::Bad;
        }
        self.unread.advance(4);
        self.named = true;
        Step::Master(id)
    }

    // Lets much room go where nothing is in it.
    fn give_back(&mut self)
        ensures { self.new ≡ self.old }
    {
        if self.unread.is_empty() && self.unread.capacity() > KEPT_ROOM {
            self.unread = BytesMut::new(self.alloc);
        }
    }

    // Looks at the record at the front, if it is there.
    #[tactic(auto, using(crate::proofs::Looking::next_in))]
    fn look(&mut self) -> Result<Step, AllocError>
        ensures ok { IfOk result (λ s. (s, self.new) ≡ looked self.old (record_at self.old.unread)) }
        ensures takes { IfOk result TakesUpdate }
        ensures fewer { length self.new.unread ≤ length self.old.unread }
        ensures err { OnErr result (self.new ≡ self.old) }
        ensures wanting { OnErr result (HasNext self.old.held self.old.unread) }
    {
        match take_record(self.unread.as_slice()) {
            RecTake::Whole(n) => {
                let step = judge_front(self.alloc, self.held, self.unread.as_slice(), n)?;
                self.unread.advance(n);
                self.give_back();
                Ok(step)
            }
            RecTake::Part => Ok(Step::Part),
            RecTake::Bad => Ok(Step::Bad),
        }
    }

    /// Looks at the id where it wasn't read before, else at the record at the front. A whole id or record that was looked at is gone, whatever came
    /// of it, but for an id that is this server's own; that and bytes that are neither stay, so the next step is bad as well. Behind a gap, or a
    /// record that is bad, the link is to be closed: it doesn't remember, and a further step would look at what stands behind.
    ///
    /// An `Err` changes nothing. It comes only where the record in front follows what is held, and is later.
    #[tactic(auto, using(crate::proofs::Looking::next_named), unfolding(crate::specs::Lines::stepped))]
    pub fn step(&mut self) -> Result<Step, AllocError>
        ensures ok { IfOk result (λ s. (s, self.new) ≡ stepped self.old) }
        ensures takes { IfOk result TakesUpdate }
        ensures fewer { length self.new.unread ≤ length self.old.unread }
        ensures err { OnErr result (self.new ≡ self.old) }
        ensures wanting { OnErr result ((self.old.named ≡ true) × HasNext self.old.held self.old.unread) }
    {
        if self.named {
            return self.look();
        }
        Ok(self.introduce())
    }

    /// This is the last timestamp held now.
    pub fn hold(&mut self, stamp: u64)
        ensures { self.new ≡ record self.old { held = stamp } }
    {
        self.held = stamp;
    }

    /// What stands behind the id and the records looked at; `Part` where the id wasn't read.
    pub fn front(&self) -> RecTake
        ensures unnamed { self.now.named ≡ false → result ≡ RecTake.Part }
        ensures grammar { self.now.named ≡ true → TakesRecord self.now.unread result }
        ensures reading { self.now.named ≡ true → IsReadRecord self.now.unread result }
    {
        if !self.named {
            return RecTake::Part;
        }
        take_record(self.unread.as_slice())
    }
}
