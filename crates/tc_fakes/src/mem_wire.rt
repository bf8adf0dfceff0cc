//! A wire that plays a script.
ghost use Rattle.std.specs.Prelude.{◌≡◌, ◌≤◌, ◌<◌, ◌++◌, ◌∷◌, ◌&&◌, [], ℕ, List, IfOk, OnOk, OnErr, false, not, length};
ghost use Rattle.tc_fakes.specs.Answers.{MayTake, answer_to, bounded};
ghost use Rattle.tc_fakes.specs.Counted.{IsFresh};
ghost use Rattle.tc_io.specs.Lines.{has};
ghost use Rattle.tc_fakes.specs.Transcripts.{out_of, was_given};
ghost use Rattle.tc_fakes.specs.Feeding.{AddsReads};
ghost use Rattle.tc_io.specs.declared.act.Act.{Act};

use crate::book::Book;
use crate::counts::Counts;
use crate::{entries, peers, playing};
use std::alloc::{AllocError, Global};
use tc_base::{Blob, Fault};
use tc_io::{Act, At, Dialled, Entry, Ev, Sent, Wire};

/// A wire that plays a script, by default takes all the bytes that it is offered, and tells all that happens.
#[derive(Drop)]
pub struct MemWire {
    alloc: Global,
    acts: Vec<Act>,
    act_at: usize,
    dials: Vec<Dialled>,
    dial_at: usize,
    // numbers of sends with other answers than all bytes taken, the latest first
    answers: Vec<(u64, Sent)>,
    sends: u64,
    counts: Counts,
    book: Book,
    conns: Vec<u32>,
    ended: Vec<u32>,
    given: u64,
    opened: bool,
    ghost none_before: { opened ≡ false → conns.items ≡ [] },
}

// Adds reads of bytes of a connection, each of at most `piece` bytes, or some of them where memory ran out.
fn add_reads(
    alloc: Global,
    acts: &mut Vec<Act>,
    conn: u32,
    bytes: &[u8],
    piece: usize,
) -> Result<(), AllocError>
    requires { (1 ≤ piece) × (piece ≤ 4096) }
    ensures ok { OnOk result (AddsReads acts.old.items acts.new.items conn bytes.now piece) }
    ensures err { OnErr result ((more : List Act) × (acts.new.items ≡ acts.old.items ++ more)) }
{
    let mut rest = bytes;
    while !rest.is_empty() {
        let (part, behind) = rest.split_at(piece.min(rest.len()));
        let part = Blob::from_slice(alloc, part)?;
        acts.push(Act::Read(conn, part))?;
        rest = behind;
    }
    Ok(())
}

impl MemWire {
    ghost use Rattle.tc_fakes.specs.Wires.{told};

    /// A wire with an empty script.
    pub fn new(alloc: Global) -> Result<MemWire, AllocError>
        ensures unopened { IfOk result (λ w. w.opened ≡ false) }
        ensures empty { IfOk result (λ w. (w.acts.items ≡ []) × (w.dials.items ≡ []) × (w.answers.items ≡ [])) }
        ensures fresh { IfOk result (λ w. IsFresh w.counts × (w.sends ≡ 0) × (told w ≡ [])) }
        ensures given { IfOk result (λ w. (w.conns.items ≡ []) × (w.ended.items ≡ []) × (w.given ≡ 0)) }
    {
        Ok(MemWire {
            alloc,
            acts: Vec::new(alloc),
            act_at: 0,
            dials: Vec::new(alloc),
            dial_at: 0,
            answers: Vec::new(alloc),
            sends: 0,
            counts: Counts::new(alloc),
            book: Book::new(alloc),
            conns: Vec::new(alloc),
            ended: Vec::new(alloc),
            given: 0,
            opened: false,
        })
    }

    /// Adds an event to the script. An `Err` changes nothing.
    pub fn act(&mut self, act: Act) -> Result<(), AllocError>
        ensures ok { OnOk result (self.new.acts.items ≡ self.old.acts.items ++ act ∷ []) }
        ensures err { OnErr result (self.new.acts.items ≡ self.old.acts.items) }
        ensures others { self.new ≡ record self.old { acts = self.new.acts } }
        ensures opened { self.new.opened ≡ self.old.opened }
    {
        self.acts.push(act)?;
        Ok(())
    }

    /// Adds reads of bytes of a connection, each of at most `piece` bytes, as many as it takes. An `Err` changes nothing.
    pub fn feed(&mut self, conn: u32, bytes: &[u8], piece: usize) -> Result<(), AllocError>
        requires { (1 ≤ piece) × (piece ≤ 4096) }
        ensures ok { OnOk result (AddsReads self.old.acts.items self.new.acts.items conn bytes.now piece) }
        ensures err { OnErr result (self.new.acts.items ≡ self.old.acts.items) }
        ensures others { self.new ≡ record self.old { acts = self.new.acts } }
        ensures opened { self.new.opened ≡ self.old.opened }
    {
        let before = self.acts.len();
        let done = add_reads(self.alloc, &mut self.acts, conn, bytes, piece);
        if done.is_err() {
            self.acts.truncate(before);
        }
        done
    }

    /// Gives the send of that number, counted from 1, another answer. A `Took(n)` takes at least one byte, and at most what is offered.
    pub fn answer_at(&mut self, call: u64, answer: Sent) -> Result<(), AllocError>
        ensures ok { OnOk result (self.new.answers.items ≡ (call, answer) ∷ self.old.answers.items) }
        ensures err { OnErr result (self.new.answers.items ≡ self.old.answers.items) }
        ensures others { self.new ≡ record self.old { answers = self.new.answers } }
        ensures opened { self.new.opened ≡ self.old.opened }
    {
        self.answers.insert(0, (call, answer))?;
        Ok(())
    }

    /// Adds an answer of a dial. When none is left, a dial gives `NotNow`.
    pub fn dial_gives(&mut self, answer: Dialled) -> Result<(), AllocError>
        ensures ok { OnOk result (self.new.dials.items ≡ self.old.dials.items ++ answer ∷ []) }
        ensures err { OnErr result (self.new.dials.items ≡ self.old.dials.items) }
        ensures others { self.new ≡ record self.old { dials = self.new.dials } }
        ensures opened { self.new.opened ≡ self.old.opened }
    {
        self.dials.push(answer)?;
        Ok(())
    }

    /// Names the calls of `open`, `dial`, `next`, `send` and `close`, counted together from 1, that answer a fault, in place of those
    /// named before.
    pub fn fail_at(&mut self, calls: Vec<u64>)
        ensures fails { self.new ≡ record self.old { counts = record self.old.counts { fails = calls } } }
        ensures opened { self.new.opened ≡ self.old.opened }
    {
        self.counts.fails = calls;
    }

    /// The bytes that the sends to a connection took, in order.
    pub fn sent(&self, conn: u32) -> &[u8]
        ensures { result.now ≡ out_of conn (told self.now) }
    {
        self.book.sent(conn)
    }

    /// Whether a connection was opened or dialled and is open no more.
    pub fn is_closed(&self, conn: u32) -> bool
        ensures { result ≡ (was_given conn (told self.now) && not (has self.now.conns.items conn)) }
    {
        self.book.was_given(conn) && !self.conns.contains(&conn)
    }

    /// All that happened, in order.
    pub fn log(&self) -> &[Entry]
        ensures { result.now ≡ told self.now }
    {
        self.book.entries()
    }

    /// How many calls found no memory.
    pub fn starved(&self) -> u64
        ensures { result ≡ self.now.counts.starved }
    {
        self.counts.starved
    }
}

// An answer within what is offered.
fn within(answer: Sent, offered: usize) -> Sent
    ensures { result ≡ bounded offered answer }
{
    match answer {
        Sent::Took(n) => Sent::Took(n.min(offered).max(1)),
        Sent::NotYet => Sent::NotYet,
        Sent::Gone => Sent::Gone,
    }
}

// The answer of a send: all bytes are taken where the list has no other.
fn answer_of(answers: &[(u64, Sent)], number: u64, offered: usize) -> Sent
    requires { 0 < offered }
    ensures can { MayTake offered result }
    ensures listed { result ≡ answer_to answers.now number offered }
{
    for (call, answer) in answers {
        if *call == number {
            return within(*answer, offered);
        }
    }
    Sent::Took(offered)
}

impl Wire for MemWire {
    ghost use Rattle.std.specs.Prelude.{◌⊎◌, Some, ℕ, true, nat_eq, is_ok};
    ghost use Rattle.std.specs.List.{list_any};
    ghost use Rattle.tc_io.specs.declared.wire.Dialled.TheVariants.{NotNow};
    ghost use Rattle.tc_io.specs.declared.wire.Entry.TheVariants.{Open, Dial, Send, Close};
    ghost use Rattle.tc_fakes.specs.Counted.{FailsRightly, one_more};
    ghost use Rattle.tc_io.specs.Lines.{IsUnopened, MayCome, MayDial};
    ghost use Rattle.tc_io.specs.Transcript.{heard};
    ghost use Rattle.tc_fakes.specs.Wires.{Answers, Closes, Dials, Hears, PlaysOne, Stay, Tells, TellsUnstarved, conns_of, ended_of, given_of, script_of, told};

    ghost faults = { λ w. w.counts.faults };

    ghost opened = { λ w. w.opened };

    ghost conns = { conns_of };

    ghost ended = { ended_of };

    ghost given = { given_of };

    ghost transcript = { λ w. Some (told w) };

    ghost plays = { script_of };

    ghost none_before = { λ w closed. w.none_before closed };

    fn open(&mut self, at: &At) -> Result<(), Fault>
        requires { self.old.opened ≡ false }
        ensures opened { self.new.opened ≡ is_ok result }
        ensures lines { Stay self.old self.new }
        ensures told { OnOk result (Tells self.old self.new (Open at.now)) }
        ensures told_err { OnErr result (TellsUnstarved self.old self.new (Open at.now)) }
        ensures plays { OnOk result (PlaysOne self.old self.new (Open at.now)) }
        ensures rightly { FailsRightly self.old.counts self.new.counts result }
    {
        let fails = self.counts.begin();
        let Ok(at) = entries::copy_of(self.alloc, at) else {
            return Err(self.counts.starve());
        };
        if self.book.add(Entry::Open { at }).is_err() {
            return Err(self.counts.starve());
        }
        if fails {
            return Err(self.counts.fault());
        }
        self.opened = true;
        Ok(())
    }

    fn dial(&mut self, host: &[u8], port: u16) -> Result<Dialled, Fault>
        requires { self.old.opened ≡ true }
        ensures opened { self.new.opened ≡ true }
        ensures may { IfOk result (λ answer. MayDial self.old.given answer) }
        ensures fresh { IfOk result (λ answer. IsUnopened self.old.conns.items answer) }
        ensures lines { IfOk result (λ answer. Dials self.old self.new answer) }
        ensures lines_err { OnErr result (Stay self.old self.new) }
        ensures told { IfOk result (λ answer. Tells self.old self.new (Dial host.now port answer)) }
        ensures told_err { OnErr result (TellsUnstarved self.old self.new (Dial host.now port NotNow)) }
        ensures plays { IfOk result (λ answer. PlaysOne self.old self.new (Dial host.now port answer)) }
        ensures rightly { FailsRightly self.old.counts self.new.counts result }
    {
        let fails = self.counts.begin();
        let (at, answer) = if fails {
            (self.dial_at, Dialled::NotNow)
        } else {
            playing::choose_dial(&self.dials, self.dial_at, &self.conns, self.given)
        };
        let Ok(entry) = entries::dial(self.alloc, host, port, answer) else {
            return Err(self.counts.starve());
        };
        if let Dialled::Conn(c) = answer {
            if self.conns.try_reserve(1).is_err() || self.book.add(entry).is_err() {
                return Err(self.counts.starve());
            }
            self.conns.push_reserved(c);
            self.given = c as u64 + 1;
            self.dial_at = at;
            return Ok(answer);
        }
        if self.book.add(entry).is_err() {
            return Err(self.counts.starve());
        }
        self.dial_at = at;
        if fails {
            return Err(self.counts.fault());
        }
        Ok(Dialled::NotNow)
    }

    fn next(&mut self, paused: &[u32], busy: bool, into: &mut [u8; 4096]) -> Result<Ev, Fault>
        requires { self.old.opened ≡ true }
        ensures opened { self.new.opened ≡ true }
        ensures may { IfOk result (λ ev. MayCome self.old.conns.items self.old.ended.items self.old.given paused.now busy ev) }
        ensures lines { IfOk result (λ ev. Hears self.old self.new ev) }
        ensures lines_err { OnErr result (Stay self.old self.new) }
        ensures told { IfOk result (λ ev. Tells self.old self.new (heard paused.now busy ev into.new)) }
        ensures told_err { OnErr result (told self.new ≡ told self.old) }
        ensures plays { IfOk result (λ ev. PlaysOne self.old self.new (heard paused.now busy ev into.new)) }
        ensures rightly { FailsRightly self.old.counts self.new.counts result }
    {
        self.counts.refuse()?;
        let (at, ev) = playing::choose(
            self.acts.as_slice(),
            self.act_at,
            self.conns.as_slice(),
            self.ended.as_slice(),
            self.given,
            paused,
            busy,
            into,
        );
        let Ok(entry) = entries::event(self.alloc, paused, busy, ev, into) else {
            return Err(self.counts.starve());
        };
        if let Ev::Opened(c) = ev {
            if self.conns.try_reserve(1).is_err() || self.book.add(entry).is_err() {
                return Err(self.counts.starve());
            }
            self.conns.push_reserved(c);
            self.given = c as u64 + 1;
            self.act_at = at;
            return Ok(ev);
        }
        if let Ev::Ended(c) = ev {
            if self.ended.try_reserve(1).is_err() || self.book.add(entry).is_err() {
                return Err(self.counts.starve());
            }
            if self.ended.insert(0, c).is_err() {
                return Err(self.counts.starve());
            }
            self.act_at = at;
            return Ok(ev);
        }
        if self.book.add(entry).is_err() {
            return Err(self.counts.starve());
        }
        self.act_at = at;
        Ok(ev)
    }

    fn send(&mut self, conn: u32, bytes: &[u8]) -> Result<Sent, Fault>
        requires { 0 < length bytes.now }
        ensures opened { self.new.opened ≡ self.old.opened }
        ensures lines { Stay self.old self.new }
        ensures sends { self.new.sends ≡ one_more self.old.sends }
        ensures answer { IfOk result (λ sent. Answers self.old bytes.now sent) }
        ensures told { IfOk result (λ sent. Tells self.old self.new (Send conn bytes.now sent)) }
        ensures told_err { OnErr result (told self.new ≡ told self.old) }
        ensures plays { IfOk result (λ sent. PlaysOne self.old self.new (Send conn bytes.now sent)) }
        ensures rightly { FailsRightly self.old.counts self.new.counts result }
    {
        self.sends = self.sends.saturating_add(1);
        self.counts.refuse()?;
        let answer = answer_of(&self.answers, self.sends, bytes.len());
        let Ok(entry) = entries::send(self.alloc, conn, bytes, answer) else {
            return Err(self.counts.starve());
        };
        if self.book.add(entry).is_err() {
            return Err(self.counts.starve());
        }
        Ok(answer)
    }

    fn close(&mut self, conn: u32) -> Result<(), Fault>
        ensures opened { self.new.opened ≡ self.old.opened }
        ensures lines { Closes self.old self.new conn }
        ensures told { OnOk result (Tells self.old self.new (Close conn)) }
        ensures told_err { OnErr result (told self.new ≡ told self.old) }
        ensures plays { OnOk result (PlaysOne self.old self.new (Close conn)) }
        ensures rightly { FailsRightly self.old.counts self.new.counts result }
    {
        peers::drop_conn(&mut self.conns, conn);
        peers::drop_conn(&mut self.ended, conn);
        self.counts.refuse()?;
        if self.book.add(Entry::Close { conn }).is_err() {
            return Err(self.counts.starve());
        }
        Ok(())
    }
}
