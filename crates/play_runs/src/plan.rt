//! What a run is given: its words and what happens on its wire.
ghost use Rattle.std.specs.Prelude.{◌≡◌, false, IfOk};

use play_text::{Line, Pattern, Why, Wrong, number_of};
use std::alloc::{AllocError, Global};
use tc_base::Blob;
use tc_fakes::{MemSink, MemWire};
use tc_io::{Act, Dialled, Sent};

// What happens on a wire, or how it answers.
#[derive(Drop)]
enum Step {
    Opened(u32),
    Read(u32, Blob, usize),
    // connection 0 opens, these bytes come of it, and it ends
    Ask(Blob, usize),
    Ended(u32),
    Quiet,
    Answer(u64, u64, Sent),
    Dial(Dialled),
}

/// The words of a run, the steps of its wire, and which calls of the wire and of the sink fail.
#[derive(Drop)]
pub struct Plan {
    alloc: Global,
    pub words: Vec<String>,
    // what connection 0 is owed, where it asks
    pub owed: Option<Pattern>,
    // a line was taken since the last run
    pub waits: bool,
    steps: Vec<Step>,
    piece: usize,
    fails: Vec<u64>,
    refuses: Vec<u64>,
}

/// How a send is answered, where so many bytes are taken if all are.
pub fn sent_of(line: &mut Line, all: usize) -> Result<Sent, Wrong> {
    match line.word() {
        "all" => Ok(Sent::Took(all)),
        "later" => Ok(Sent::NotYet),
        "gone" => Ok(Sent::Gone),
        "took" => took_of(line),
        _ => Err(Wrong::Unread),
    }
}

// How many bytes are taken, of which there is one at least.
fn took_of(line: &mut Line) -> Result<Sent, Wrong> {
    let bytes = line.within(1, u64::from(u32::MAX))?;
    Ok(Sent::Took(bytes as usize))
}

/// How a dial is answered.
pub fn dialled_of(line: &mut Line) -> Result<Dialled, Wrong> {
    let word = line.word();
    if matches!(word, "later") {
        return Ok(Dialled::NotNow);
    }
    let conn = number_of(word).ok_or(Wrong::Unread)?;
    let conn = u32::try_from(conn).ok().ok_or(Wrong::Unread)?;
    Ok(Dialled::Conn(conn))
}

// What happens on a connection.
fn step_of(alloc: Global, what: &str, line: &mut Line, piece: usize) -> Result<Step, Wrong> {
    match what {
        "ended" => Ok(Step::Ended(line.small()?)),
        "quiet" => Ok(Step::Quiet),
        "dial" => Ok(Step::Dial(dialled_of(line)?)),
        "read" => {
            let conn = line.small()?;
            let bytes = line.bytes()?;
            Ok(Step::Read(conn, Blob::from_slice(alloc, bytes.as_slice())?, piece))
        }
        "sends" => {
            let (first, last) = line.numbers()?;
            Ok(Step::Answer(first, last, sent_of(line, usize::MAX)?))
        }
        _ => Err(Wrong::Unread),
    }
}

// Answers the sends from one number to another so.
fn answer(wire: &mut MemWire, first: u64, last: u64, sent: Sent) -> Result<(), AllocError>
    requires { wire.old.opened ≡ false }
    ensures { wire.new.opened ≡ false }
{
    for number in first..=last {
        wire.answer_at(number, sent)?;
    }
    Ok(())
}

// Bytes come of a connection, in pieces of 1 to 4096.
fn feed(wire: &mut MemWire, conn: u32, bytes: &Blob, piece: usize) -> Result<(), AllocError>
    ensures { wire.new.opened ≡ wire.old.opened }
{
    wire.feed(conn, bytes.as_slice(), piece.min(4096).max(1))
}

// Adds a step to the script of a wire.
fn add(wire: &mut MemWire, step: &Step) -> Result<(), AllocError>
    requires { wire.old.opened ≡ false }
    ensures { wire.new.opened ≡ false }
{
    match step {
        Step::Opened(conn) => wire.act(Act::Opened(*conn)),
        Step::Read(conn, bytes, piece) => feed(wire, *conn, bytes, *piece),
        Step::Ask(bytes, piece) => {
            wire.act(Act::Opened(0))?;
            feed(wire, 0, bytes, *piece)?;
            wire.act(Act::Ended(0))
        }
        Step::Ended(conn) => wire.act(Act::Ended(*conn)),
        Step::Quiet => wire.act(Act::Quiet),
        Step::Answer(first, last, sent) => answer(wire, *first, *last, *sent),
        Step::Dial(answer) => wire.dial_gives(*answer),
    }
}

impl Plan {
    pub fn new(alloc: Global) -> Plan {
        Plan {
            alloc,
            words: Vec::new(alloc),
            owed: None,
            waits: false,
            steps: Vec::new(alloc),
            piece: 4096,
            fails: Vec::new(alloc),
            refuses: Vec::new(alloc),
        }
    }

    /// These words, and connection 0 asks this.
    pub fn asking(alloc: Global, words: Vec<String>, bytes: &[u8]) -> Result<Plan, AllocError> {
        let mut plan = Plan::new(alloc);
        plan.words = words;
        plan.steps
            .push(Step::Ask(Blob::from_slice(alloc, bytes)?, 4096))?;
        Ok(plan)
    }

    /// A connection opens.
    pub fn opens(&mut self, conn: u32) -> Result<(), AllocError> {
        Ok(self.steps.push(Step::Opened(conn))?)
    }

    /// These bytes come of a connection.
    pub fn reads(&mut self, conn: u32, bytes: &[u8]) -> Result<(), AllocError> {
        let bytes = Blob::from_slice(self.alloc, bytes)?;
        Ok(self.steps.push(Step::Read(conn, bytes, 4096))?)
    }

    // Takes words: what was done with those before is forgotten.
    fn begin(&mut self, words: Vec<String>) -> Result<(), Wrong> {
        if self.waits {
            return Err(Wrong::Not(Why::NothingRan));
        }
        *self = Plan::new(self.alloc);
        self.words = words;
        Ok(())
    }

    // Connections open.
    fn open(&mut self, line: &mut Line) -> Result<(), Wrong> {
        let (first, last) = line.numbers()?;
        for conn in first..=last {
            let conn = u32::try_from(conn).ok().ok_or(Wrong::Unread)?;
            self.steps.push(Step::Opened(conn))?;
        }
        Ok(())
    }

    // Takes what connection 0 asks, behind what it asked so far, and what it is owed for it.
    fn ask(&mut self, line: &mut Line) -> Result<(), Wrong> {
        let asked = line.given()?;
        let owed = line.bytes()?;
        match &mut self.owed {
            Some(all) => all.append_times(&owed, 1)?,
            None => self.owed = Some(owed),
        }
        if let Some(Step::Ask(bytes, _)) = self.steps.last_mut() {
            return Ok(bytes.append(asked.as_slice())?);
        }
        let bytes = Blob::from_slice(self.alloc, asked.as_slice())?;
        Ok(self.steps.push(Step::Ask(bytes, self.piece))?)
    }

    // Takes a line that says which calls of an object fail.
    fn take_fails(line: &mut Line, fails: &mut Vec<u64>) -> Result<(), Wrong> {
        let (first, last) = line.numbers()?;
        for number in first..=last {
            fails.push(number)?;
        }
        Ok(())
    }

    /// Takes a line.
    pub fn take(&mut self, what: &str, line: &mut Line) -> Result<(), Wrong> {
        match what {
            "words" => self.begin(line.words()?)?,
            "opened" => self.open(line)?,
            "ask" => self.ask(line)?,
            "pieces" => self.piece = line.within(1, 4096)? as usize,
            "wire" => Plan::take_fails(line, &mut self.fails)?,
            "sink" => Plan::take_fails(line, &mut self.refuses)?,
            _ => self
                .steps
                .push(step_of(self.alloc, what, line, self.piece)?)?,
        }
        self.waits = true;
        Ok(())
    }

    // A wire with these steps.
    fn wire(&self) -> Result<MemWire, AllocError>
        ensures { IfOk result (λ w. w.opened ≡ false) }
    {
        let mut wire = MemWire::new(self.alloc)?;
        for step in self.steps.iter() {
            add(&mut wire, step)?;
        }
        wire.fail_at(self.fails.clone()?);
        Ok(wire)
    }

    // A sink that takes what is printed.
    fn sink(&self) -> Result<MemSink, AllocError> {
        let mut sink = MemSink::new(self.alloc);
        sink.fail_at(self.refuses.clone()?);
        Ok(sink)
    }

    /// A wire with these steps, and a sink that takes what is printed.
    pub fn ends(&self) -> Result<(MemWire, MemSink), AllocError>
        ensures { IfOk result (λ ends. ends.0.opened ≡ false) }
    {
        let sink = self.sink()?;
        let wire = self.wire()?;
        Ok((wire, sink))
    }
}
