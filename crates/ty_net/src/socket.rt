//! The wire over sockets.
ghost use Rattle.std.specs.Prelude.{◌≡◌, ◌≤◌, ◌<◌, ◌+◌, ◌++◌, [], ◌∷◌, None, false, true, IfOk, IfSome, IfNone, OnErr};
ghost use Rattle.tc_io.specs.Causes.{HasCause};
ghost use Rattle.ty_net.specs.Finds.{Given, Took, SameNumbers};

use crate::faults::{Failed, fault};
use crate::roster::Roster;
use crate::sockets::{Found, Of, Sockets, address_of};
use mio::net::TcpStream;
use std::alloc::Global;
use std::net::Net;
use std::rt;
use std::time::{Duration, Instant};
use tc_base::Fault;
use tc_io::{At, Dialled, Ev, Sent, Wire};

// So many milliseconds it waits for an event at most, before it says that nothing is ready.
const PATIENCE: u64 = 1000;

// So many milliseconds it waits where all that wait are blocked by their peers.
const NAP: u64 = 5;

/// Connections at an address, and those that are dialled.
///
/// It sleeps where nothing is ready, for a second at most, and asks the system once for a batch of events. What it took of replies is
/// gathered, up to 16 KiB a connection, and written once nothing is ready, or 64 turns later. A peer's reset is the end of its input, or it is gone;
/// a fault is only a failed `open`, a failed question to the system, or want of memory for a number.
#[derive(Drop)]
pub struct SocketWire<'a, R> {
    rt: &'a R,
    alloc: Global,
    sockets: Option<Sockets>,
    roster: Roster,
    opened: bool,
    faults: u64,
    // when it last said that nothing is ready
    quiet_at: Option<Instant>,
    ghost none_before: { opened ≡ false → roster.conns.items ≡ [] },
}

impl<'a, R: Net + rt::Clock> SocketWire<'a, R> {
    /// A wire that isn't opened yet, and failed so often before.
    pub fn new(alloc: Global, rt: &'a R, faults: u64) -> SocketWire<'a, R>
        ensures opened { result.opened ≡ false }
        ensures conns { result.roster.conns.items ≡ [] }
        ensures ended { result.roster.ended.items ≡ [] }
        ensures given { result.roster.given ≡ 0 }
        ensures faults { result.faults ≡ faults }
    {
        SocketWire {
            rt,
            alloc,
            sockets: None,
            roster: Roster::new(alloc),
            opened: false,
            faults,
            quiet_at: None,
        }
    }

    /// Writes all that was taken, as far as the system takes it now.
    pub fn write_out(&mut self) {
        if let Some(sockets) = self.sockets.as_mut() {
            sockets.flush(&[]);
        }
    }

    // How long it may wait.
    fn patience(&self, busy: bool, are_refused: bool) -> Duration {
        if busy {
            return Duration::from_millis(if are_refused { NAP } else { 0 });
        }
        let most = Duration::from_millis(PATIENCE);
        let Some(at) = self.quiet_at else {
            return most;
        };
        let Ok(past) = at.elapsed(self.rt) else {
            return most;
        };
        most.saturating_sub(past)
    }
}

// A connection under the next number, where one is left and there is memory.
fn welcome<R: rt::Clock>(
    rt: &R,
    sockets: &mut Sockets,
    roster: &mut Roster,
    stream: TcpStream,
    is_readable: bool,
) -> Option<u32>
    ensures some { IfSome result (λ number. Given number roster.old.given roster.new.given roster.old.conns.items roster.new.conns.items) }
    ensures none { IfNone result ((roster.new.conns.items ≡ roster.old.conns.items) × (roster.new.given ≡ roster.old.given)) }
    ensures ended { roster.new.ended.items ≡ roster.old.ended.items }
{
    let number = roster.next_number()?;
    if sockets.add(number, stream, is_readable).is_err() {
        return None;
    }
    if roster.add(number).is_err() {
        sockets.remove(rt, number);
        return None;
    }
    Some(number)
}

// What is ready of those connections, with no question to the system but the calls themselves.
#[inline(always)]
fn hear(
    of: Of,
    sockets: &mut Sockets,
    roster: &mut Roster,
    paused: &[u32],
    into: &mut [u8; 4096],
) -> Result<Option<Ev>, Failed>
    ensures ok { IfOk result (λ took. Took roster.old.conns.items roster.new.conns.items roster.old.ended.items roster.new.ended.items roster.old.given roster.new.given paused.now took) }
    ensures err { OnErr result (SameNumbers roster.old roster.new) }
{
    match sockets.hear(of, roster, paused, into) {
        Found::Bytes(number, n) => Ok(Some(Ev::Read(number, n))),
        Found::End(number) => {
            let Ok(()) = roster.end(number) else {
                return Err(Failed);
            };
            Ok(Some(Ev::Ended(number)))
        }
        Found::Nothing => Ok(None),
    }
}

// A connection that opens, behind what ended before it came.
#[inline(never)]
fn arrive<R: rt::Clock>(
    rt: &R,
    sockets: &mut Sockets,
    roster: &mut Roster,
    paused: &[u32],
    into: &mut [u8; 4096],
) -> Result<Option<Ev>, Failed>
    ensures ok { IfOk result (λ took. Took roster.old.conns.items roster.new.conns.items roster.old.ended.items roster.new.ended.items roster.old.given roster.new.given paused.now took) }
    ensures err { OnErr result (SameNumbers roster.old roster.new) }
{
    if !sockets.may_accept() {
        return Ok(None);
    }
    sockets.ask(rt, Duration::from_millis(0))?;
    let heard = hear(Of::Closing, sockets, roster, paused, into)?;
    if heard.is_some() {
        return Ok(heard);
    }
    let Some(stream) = sockets.accept() else {
        return Ok(None);
    };
    match welcome(rt, sockets, roster, stream, true) {
        Some(number) => Ok(Some(Ev::Opened(number))),
        None => Ok(None),
    }
}

// An event that is ready. Connections are accepted before reads, but not twice in a row.
#[inline(always)]
fn take<R: rt::Clock>(
    rt: &R,
    sockets: &mut Sockets,
    roster: &mut Roster,
    paused: &[u32],
    into: &mut [u8; 4096],
) -> Result<Option<Ev>, Failed>
    ensures ok { IfOk result (λ took. Took roster.old.conns.items roster.new.conns.items roster.old.ended.items roster.new.ended.items roster.old.given roster.new.given paused.now took) }
    ensures err { OnErr result (SameNumbers roster.old roster.new) }
{
    if sockets.accepts_first() {
        let arrived = arrive(rt, sockets, roster, paused, into)?;
        if arrived.is_some() {
            return Ok(arrived);
        }
    }
    let heard = hear(Of::All, sockets, roster, paused, into)?;
    if heard.is_some() {
        return Ok(heard);
    }
    arrive(rt, sockets, roster, paused, into)
}

// An event that is ready, once the system was asked where that is due. Where there is none, what was taken is written, but for connections that are about
// to get more; else it waits, so that replies are written in a row, whose first alone may have to wake a peer.
#[inline(always)]
fn look<R: rt::Clock>(
    rt: &R,
    sockets: &mut Sockets,
    roster: &mut Roster,
    paused: &[u32],
    into: &mut [u8; 4096],
) -> Result<Option<Ev>, Failed>
    ensures ok { IfOk result (λ took. Took roster.old.conns.items roster.new.conns.items roster.old.ended.items roster.new.ended.items roster.old.given roster.new.given paused.now took) }
    ensures err { OnErr result (SameNumbers roster.old roster.new) }
{
    sockets.flush_old();
    if sockets.is_due() {
        sockets.ask(rt, Duration::from_millis(0))?;
    }
    let taken = take(rt, sockets, roster, paused, into)?;
    if taken.is_none() {
        sockets.flush(paused);
    }
    Ok(taken)
}

impl<'a, R: Net + rt::Clock> Wire for SocketWire<'a, R> {
    ghost use Rattle.std.specs.Prelude.{None, [], ◌∷◌};

    ghost faults = { λ w. w.faults };

    ghost opened = { λ w. w.opened };

    ghost conns = { λ w. w.roster.conns.items };

    ghost ended = { λ w. w.roster.ended.items };

    ghost given = { λ w. w.roster.given };

    ghost transcript = { λ _. None };

    ghost plays = { λ _. None };

    ghost none_before = { λ w closed. w.none_before closed };

    fn open(&mut self, at: &At) -> Result<(), Fault> {
        let At::Host { host, port } = at else {
            return Err(fault(&mut self.faults));
        };
        match Sockets::listen(self.alloc, self.rt, host.as_slice(), *port) {
            Ok(sockets) => {
                self.sockets = Some(sockets);
                self.quiet_at = Instant::now(self.rt).ok();
                self.opened = true;
                Ok(())
            }
            Err(_) => Err(fault(&mut self.faults)),
        }
    }

    fn dial(&mut self, host: &[u8], port: u16) -> Result<Dialled, Fault> {
        let Some(sockets) = self.sockets.as_mut() else {
            return Ok(Dialled::NotNow);
        };
        let Ok(address) = address_of(self.rt, host, port) else {
            return Ok(Dialled::NotNow);
        };
        let Ok(stream) = TcpStream::connect(self.rt, address) else {
            return Ok(Dialled::NotNow);
        };
        match welcome(self.rt, sockets, &mut self.roster, stream, false) {
            Some(number) => Ok(Dialled::Conn(number)),
            None => Ok(Dialled::NotNow),
        }
    }

    fn next(&mut self, paused: &[u32], busy: bool, into: &mut [u8; 4096]) -> Result<Ev, Fault> {
        let Some(sockets) = self.sockets.as_mut() else {
            return Ok(Ev::Quiet);
        };
        if let Some((number, n)) = sockets.go_on(&self.roster, paused, into) {
            return Ok(Ev::Read(number, n));
        }
        match look(self.rt, sockets, &mut self.roster, paused, into) {
            Ok(Some(ev)) => return Ok(ev),
            Ok(None) => {}
            Err(_) => return Err(fault(&mut self.faults)),
        }
        let are_refused = busy && !paused.is_empty() && sockets.are_refused(paused);
        if busy && !are_refused && !sockets.is_due_while_busy() {
            return Ok(Ev::Quiet);
        }
        let wait = self.patience(busy, are_refused);
        let Some(sockets) = self.sockets.as_mut() else {
            return Ok(Ev::Quiet);
        };
        if sockets.ask(self.rt, wait).is_err() {
            return Err(fault(&mut self.faults));
        }
        match look(self.rt, sockets, &mut self.roster, paused, into) {
            Ok(Some(ev)) => Ok(ev),
            Ok(None) => {
                if !busy {
                    sockets.rest();
                    self.quiet_at = Instant::now(self.rt).ok();
                }
                Ok(Ev::Quiet)
            }
            Err(_) => Err(fault(&mut self.faults)),
        }
    }

    fn send(&mut self, conn: u32, bytes: &[u8]) -> Result<Sent, Fault> {
        match self.sockets.as_mut() {
            Some(sockets) => Ok(sockets.offer(conn, bytes)),
            None => Ok(Sent::Gone),
        }
    }

    fn close(&mut self, conn: u32) -> Result<(), Fault> {
        self.roster.remove(conn);
        if let Some(sockets) = self.sockets.as_mut() {
            sockets.remove(self.rt, conn);
        }
        Ok(())
    }
}
