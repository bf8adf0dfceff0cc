//! A wire: connections, the bytes that come of them and those that are sent to them.
ghost use Rattle.std.specs.Prelude.{◌≡◌, ◌<◌, ℕ, Bool, true, false, List, [], Option, length, IfOk, OnOk, OnErr, is_ok, nat_eq};
ghost use Rattle.std.specs.List.{list_any};
ghost use Rattle.tc_io.specs.Causes.{HasCause};
ghost use Rattle.tc_io.specs.Told.{MayTell, Tells, TellsNothing};

use crate::numbers::Numbers;
use tc_base::{Blob, Fault};

/// Where a wire listens.
#[derive(Debug, Drop)]
pub enum At {
    /// The two standard streams, as connection 0.
    Pipe,
    /// An address.
    Host { host: Blob, port: u16 },
}

/// What happened on a wire.
#[derive(Clone, Copy, Debug, PartialEq, Eq)]
pub enum Ev {
    /// A connection opened. Its number is above all that were given before.
    Opened(u32),
    /// So many bytes came of a connection, 1 to 4096.
    Read(u32, usize),
    /// No more input comes of a connection; said once of each.
    Ended(u32),
    /// Nothing is ready.
    Quiet,
    /// No event will come any more.
    Shut,
}

/// What a connection took of the bytes that it was offered.
#[derive(Clone, Copy, Debug, PartialEq, Eq)]
pub enum Sent {
    /// So many from the front, at least 1.
    Took(usize),
    /// None, for now.
    NotYet,
    /// None, and it will take none any more.
    Gone,
}

/// What came of a connection outwards.
#[derive(Clone, Copy, Debug, PartialEq, Eq)]
pub enum Dialled {
    /// It is open under this number, which is above all that were given before.
    Conn(u32),
    /// There is none, for now. This is no fault.
    NotNow,
}

/// One line of a transcript.
#[derive(Debug, Drop)]
pub enum Entry {
    Open {
        at: At,
    },
    Dial {
        host: Blob,
        port: u16,
        answer: Dialled,
    },
    Event {
        paused: Numbers,
        busy: bool,
        ev: Ev,
        bytes: Blob,
    },
    Send {
        conn: u32,
        bytes: Blob,
        answer: Sent,
    },
    Close {
        conn: u32,
    },
}

pub trait Wire {
    ghost use Rattle.tc_io.specs.declared.wire.At.{At};
    ghost use Rattle.tc_io.specs.declared.wire.Dialled.TheVariants.{NotNow};
    ghost use Rattle.tc_io.specs.declared.wire.Entry.{Entry};
    ghost use Rattle.tc_io.specs.declared.wire.Entry.TheVariants.{Open, Dial, Send, Close};
    ghost use Rattle.tc_io.specs.Lines.{CanTake, Closes, Dials, Hears, IsUnopened, MayCome, MayDial, Stay};
    ghost use Rattle.tc_io.specs.Transcript.{heard};
    ghost use Rattle.tc_io.specs.Script.{Script, PlaysOne};

    /// How often a call failed.
    ghost faults: { Self → ℕ };

    /// Whether an `open` succeeded.
    ghost opened: { Self → Bool };

    /// The connections that are open.
    ghost conns: { Self → List ℕ };

    /// The open connections of which no more input comes.
    ghost ended: { Self → List ℕ };

    /// Each number that was given is below it, and no number below it is given again.
    ghost given: { Self → ℕ };

    /// What happened so far, where it tells that.
    ghost transcript: { Self → Option (List Entry) };

    /// What it will still play, where it tells that. Such a wire takes all the bytes that it is offered.
    ghost plays: { Self → Option Script };

    /// Starts to listen, or takes the two standard streams.
    fn open(&mut self, at: &At) -> Result<(), Fault>
        requires { opened self.old ≡ false }
        ensures opened { opened self.new ≡ is_ok result }
        ensures lines { Stay conns ended given self.old self.new }
        ensures told { OnOk result (Tells transcript self.old self.new (Open at.now)) }
        ensures told_err { OnErr result (MayTell transcript self.old self.new (Open at.now)) }
        ensures plays { OnOk result (PlaysOne plays self.old self.new (Open at.now)) }
        ensures cause { HasCause (faults self.old) (faults self.new) result };

    /// Starts a connection outwards.
    fn dial(&mut self, host: &[u8], port: u16) -> Result<Dialled, Fault>
        requires { opened self.old ≡ true }
        ensures opened { opened self.new ≡ true }
        ensures may { IfOk result (λ answer. MayDial (given self.old) answer) }
        ensures fresh { IfOk result (λ answer. IsUnopened (conns self.old) answer) }
        ensures lines { IfOk result (λ answer. Dials conns ended given self.old self.new answer) }
        ensures lines_err { OnErr result (Stay conns ended given self.old self.new) }
        ensures told { IfOk result (λ answer. Tells transcript self.old self.new (Dial host.now port answer)) }
        ensures told_err { OnErr result (MayTell transcript self.old self.new (Dial host.now port NotNow)) }
        ensures plays { IfOk result (λ answer. PlaysOne plays self.old self.new (Dial host.now port answer)) }
        ensures cause { HasCause (faults self.old) (faults self.new) result };

    /// Gives one event. No read comes of a paused connection. Where `busy` is true it doesn't wait, and `Shut` doesn't come.
    fn next(&mut self, paused: &[u32], busy: bool, into: &mut [u8; 4096]) -> Result<Ev, Fault>
        requires { opened self.old ≡ true }
        ensures opened { opened self.new ≡ true }
        ensures may { IfOk result (λ ev. MayCome (conns self.old) (ended self.old) (given self.old) paused.now busy ev) }
        ensures lines { IfOk result (λ ev. Hears conns ended given self.old self.new ev) }
        ensures lines_err { OnErr result (Stay conns ended given self.old self.new) }
        ensures told { IfOk result (λ ev. Tells transcript self.old self.new (heard paused.now busy ev into.new)) }
        ensures told_err { OnErr result (TellsNothing transcript self.old self.new) }
        ensures plays { IfOk result (λ ev. PlaysOne plays self.old self.new (heard paused.now busy ev into.new)) }
        ensures cause { HasCause (faults self.old) (faults self.new) result };

    /// Offers bytes to a connection.
    fn send(&mut self, conn: u32, bytes: &[u8]) -> Result<Sent, Fault>
        requires is_open { list_any (nat_eq conn) (conns self.old) ≡ true }
        requires some { 0 < length bytes.now }
        ensures opened { opened self.new ≡ opened self.old }
        ensures lines { Stay conns ended given self.old self.new }
        ensures can { IfOk result (λ sent. CanTake bytes.now sent) }
        ensures told { IfOk result (λ sent. Tells transcript self.old self.new (Send conn bytes.now sent)) }
        ensures told_err { OnErr result (TellsNothing transcript self.old self.new) }
        ensures plays { IfOk result (λ sent. PlaysOne plays self.old self.new (Send conn bytes.now sent)) }
        ensures cause { HasCause (faults self.old) (faults self.new) result };

    /// Ends a connection. Also where it fails, the connection is open no more.
    fn close(&mut self, conn: u32) -> Result<(), Fault>
        requires { list_any (nat_eq conn) (conns self.old) ≡ true }
        ensures opened { opened self.new ≡ opened self.old }
        ensures lines { Closes conns ended given self.old self.new conn }
        ensures told { OnOk result (Tells transcript self.old self.new (Close conn)) }
        ensures told_err { OnErr result (TellsNothing transcript self.old self.new) }
        ensures plays { OnOk result (PlaysOne plays self.old self.new (Close conn)) }
        ensures cause { HasCause (faults self.old) (faults self.new) result };

    /// Nothing is open before an `open` succeeds.
    ghost none_before: { (w : Self) → opened w ≡ false → conns w ≡ [] };
}
