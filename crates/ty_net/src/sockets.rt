//! The listening socket and those of the connections, over one poll.
ghost use Rattle.std.specs.Prelude.{◌≡◌, ◌<◌, false, length, IfSome};
ghost use Rattle.tc_io.specs.Lines.{CanTake, has};
ghost use Rattle.ty_net.specs.Finds.{MayFind};
ghost use Rattle.ty_net.specs.declared.sockets.Found.TheVariants.{Bytes};

use crate::faults::Failed;
use crate::leaving::Leaving;
use crate::line::{Heard, Line};
use crate::roster::Roster;
use crate::stretch::Stretch;
use mio::event::Event;
use mio::net::{TcpListener, TcpStream};
use mio::{Events, Interest, Poll, Token};
use std::alloc::Global;
use std::io::ErrorKind;
use std::net::{Net, SocketAddr, ToSocketAddrs};
use std::time::Duration;
use std::{io, rt};
use tc_io::Sent;

const LISTENER: usize = usize::MAX;

// So many events of the system are taken in at once: more than there are sockets.
const EVENTS: usize = 256;

// So many halves of turns go by between two questions to the system, where there is always something ready. A turn that gives bytes read
// ahead is short and counts as a half.
const HALVES_MOST: u32 = 128;

// So many halves of turns go by where nothing is ready, but requests wait to be served.
const BUSY_HALVES_MOST: u32 = 16;

// So many turns a reply waits at most, to be written in a row with others.
const HELD_MOST: u32 = 64;

/// What was found ready.
pub enum Found {
    Bytes(u32, usize),
    End(u32),
    Nothing,
}

/// Of which connections something is looked for.
#[derive(Clone, Copy, PartialEq, Eq)]
pub enum Of {
    All,
    /// The connections whose end was told.
    Closing,
}

#[derive(Drop)]
pub struct Sockets {
    alloc: Global,
    poll: Poll,
    events: Events,
    listener: TcpListener,
    lines: Vec<Line>,
    leaving: Leaving,
    // where the next search begins
    cursor: usize,
    // so many halves of turns since the system was asked
    halves: u32,
    // a connection may wait to be accepted
    may_accept: bool,
    // the last accept found no descriptor
    is_starved: bool,
    // the last event was a connection that opened
    just_opened: bool,
    // so many lines are readable
    ready: usize,
    // bytes that aren't written yet are gathered at no other places
    owing: Stretch,
    // so many turns since all were written
    held: u32,
    // where the last line was found
    found_at: usize,
    // so many turns more, which are counted already, one line alone gives anything, of what was read ahead
    streak: u32,
    // where it stands
    streak_at: usize,
}

/// The first address of a host.
pub fn address_of<R: Net>(net: &R, host: &[u8], port: u16) -> io::Result<SocketAddr> {
    let Ok(name) = std::str::from_utf8(host) else {
        return Err(io::Error::from(ErrorKind::InvalidInput));
    };
    let mut found = (name, port).to_socket_addrs(net)?;
    match found.next() {
        Some(address) => Ok(address),
        None => Err(io::Error::from(ErrorKind::NotFound)),
    }
}

// Where the connection of that number stands: they stand in ascending number.
fn place_of(lines: &[Line], number: usize) -> Option<usize>
    ensures { IfSome result (λ i. i < length lines.now) }
{
    let place = lines.partition_point(|line| (line.number() as usize) < number);
    if place < lines.len() && lines[place].number() as usize == number {
        return Some(place);
    }
    None
}

// Takes in one event of a connection. Answers whether it is there. Where nothing was ready, the next search begins with it.
fn note(lines: &mut Vec<Line>, ready: &mut usize, cursor: &mut usize, event: &Event) -> bool {
    let Some(i) = place_of(lines, event.token().0) else {
        return false;
    };
    let was_ready = lines[i].is_readable();
    lines[i].note(event);
    if !was_ready && lines[i].is_readable() {
        if *ready == 0 {
            *cursor = i;
        }
        *ready = ready.saturating_add(1);
    }
    true
}

impl Sockets {
    /// Listens at an address.
    pub fn listen<R: Net>(alloc: Global, net: &R, host: &[u8], port: u16) -> io::Result<Sockets> {
        let address = address_of(net, host, port)?;
        let poll = Poll::new(net)?;
        let events = Events::with_capacity(alloc, EVENTS)?;
        let mut listener = TcpListener::bind(net, address)?;
        poll.registry()
            .register(&mut listener, Token(LISTENER), Interest::READABLE)?;
        Ok(Sockets {
            alloc,
            poll,
            events,
            listener,
            lines: Vec::new(alloc),
            leaving: Leaving::new(alloc),
            cursor: 0,
            halves: 0,
            may_accept: true,
            is_starved: false,
            just_opened: false,
            ready: 0,
            owing: Stretch::none(),
            held: 0,
            found_at: 0,
            streak: 0,
            streak_at: 0,
        })
    }

    /// Whether the system is to be asked although something is ready.
    pub fn is_due(&mut self) -> bool {
        self.halves = self.halves.saturating_add(2);
        self.halves > HALVES_MOST
    }

    /// Whether the system is to be asked although there are requests to serve.
    pub fn is_due_while_busy(&self) -> bool {
        self.halves >= BUSY_HALVES_MOST
    }

    /// Asks the system what is ready, and waits so long for it.
    #[inline(never)]
    pub fn ask<R: rt::Clock>(&mut self, rt: &R, wait: Duration) -> Result<(), Failed> {
        self.halves = 0;
        let Ok(_) = self.poll.poll(&mut self.events, Some(wait)) else {
            return Err(Failed);
        };
        for event in self.events.iter() {
            if event.token().0 == LISTENER {
                self.may_accept = true;
            } else if !note(&mut self.lines, &mut self.ready, &mut self.cursor, event) {
                self.leaving.note(event);
            }
        }
        if !self.leaving.is_empty() {
            self.leaving.tend(rt);
        }
        Ok(())
    }

    /// Nothing happened for a while: what failed for want of descriptors is tried again.
    pub fn rest(&mut self) {
        if self.is_starved {
            self.may_accept = true;
        }
    }

    /// Writes what was taken where it has waited for long enough.
    pub fn flush_old(&mut self) {
        if self.owing.is_none() {
            return;
        }
        self.held = self.held.saturating_add(1);
        if self.held >= HELD_MOST {
            self.flush(&[]);
        }
    }

    /// Writes what was taken, but for those connections.
    pub fn flush(&mut self, but: &[u32]) {
        if self.owing.is_none() {
            return;
        }
        let places = self.owing;
        self.owing = Stretch::none();
        for at in places.from..places.to {
            let Some(line) = self.lines.get_mut(at) else {
                break;
            };
            if line.owes() && !but.contains(&line.number()) {
                line.flush();
            }
            if line.owes() {
                self.owing.add(at);
            }
        }
        if but.is_empty() || self.owing.is_none() {
            self.held = 0;
        }
    }

    /// Whether each of these waits for its peer to read.
    pub fn are_refused(&self, paused: &[u32]) -> bool {
        for number in paused {
            let Some(i) = place_of(&self.lines, *number as usize) else {
                return false;
            };
            if !self.lines[i].is_refused() {
                return false;
            }
        }
        true
    }

    /// Whether a connection may wait to be accepted.
    pub fn may_accept(&self) -> bool {
        self.may_accept
    }

    /// Whether an accept comes before reads.
    pub fn accepts_first(&self) -> bool {
        self.may_accept && !self.just_opened
    }

    /// The next connection that waits to be accepted.
    pub fn accept(&mut self) -> Option<TcpStream> {
        match self.listener.accept() {
            Ok((stream, _)) => {
                self.is_starved = false;
                Some(stream)
            }
            Err(e) => {
                self.was_not_accepted(e.kind());
                None
            }
        }
    }

    // What a failed accept says. Without descriptors those that leave are given up, and it is tried again when one closes or nothing
    // happens for a while.
    fn was_not_accepted(&mut self, kind: ErrorKind) {
        match kind {
            ErrorKind::Interrupted | ErrorKind::ConnectionAborted => {}
            ErrorKind::WouldBlock => {
                self.may_accept = false;
                self.is_starved = false;
            }
            _ => {
                self.may_accept = !self.leaving.is_empty();
                self.is_starved = true;
                self.leaving.clear();
            }
        }
    }

    /// Keeps a connection's socket under its number.
    pub fn add(&mut self, number: u32, stream: TcpStream, is_readable: bool) -> io::Result<()> {
        let _ = stream.set_nodelay(true);
        let mut line = Line::new(self.alloc, number, stream, is_readable)?;
        self.lines.reserve(1)?;
        self.poll.registry().register(
            line.stream(),
            Token(number as usize),
            Interest::READABLE.add(Interest::WRITABLE),
        )?;
        self.lines.push(line)?;
        self.streak = 0;
        self.just_opened = true;
        if is_readable {
            self.ready = self.ready.saturating_add(1);
        }
        Ok(())
    }

    // The line at this place gave a piece that was read ahead, and has so many more. Where it alone gives anything a streak begins.
    fn gave_piece(&mut self, at: usize, pieces: usize) {
        self.halves = self.halves.saturating_sub(1);
        if self.ready != 1 || self.may_accept || !self.owing.is_none() {
            return;
        }
        let left = HALVES_MOST.saturating_sub(self.halves);
        self.streak = left.min(u32::try_from(pieces).unwrap_or(left));
        self.streak_at = at;
        self.halves = self.halves.saturating_add(self.streak);
    }

    /// The next bytes of a streak, which ends where there are none.
    pub fn go_on(
        &mut self,
        roster: &Roster,
        paused: &[u32],
        into: &mut [u8; 4096],
    ) -> Option<(u32, usize)>
        ensures { IfSome result (λ x. MayFind roster.now.conns.items roster.now.ended.items paused.now (Bytes x.0 x.1)) }
    {
        if self.streak == 0 {
            return None;
        }
        let left = self.streak - 1;
        self.streak = 0;
        if !paused.is_empty() {
            return None;
        }
        let at = self.streak_at;
        let line = self.lines.get_mut(at)?;
        let number = line.number();
        if !roster.hears(at, number) {
            return None;
        }
        match line.give(into) {
            Heard::Bytes(n) => {
                self.streak = left;
                Some((number, n))
            }
            Heard::End => None,
            Heard::Nothing => None,
        }
    }

    /// The next connection that gives something, of those that may.
    pub fn hear(&mut self, of: Of, roster: &Roster, paused: &[u32], into: &mut [u8; 4096]) -> Found
        ensures { MayFind roster.now.conns.items roster.now.ended.items paused.now result }
    {
        let mut left = self.ready;
        for _ in 0..self.lines.len() {
            if left == 0 {
                break;
            }
            if self.cursor >= self.lines.len() {
                self.cursor = 0;
            }
            let at = self.cursor;
            self.cursor = at.saturating_add(1);
            let Some(line) = self.lines.get_mut(at) else {
                break;
            };
            if !line.is_readable() {
                continue;
            }
            left = left.saturating_sub(1);
            let found = hear_line(line, at, of, roster, paused, into);
            let pieces = line.pieces_ahead();
            if !line.is_readable() {
                self.ready = self.ready.saturating_sub(1);
            }
            match found {
                Found::Nothing => {}
                found => {
                    self.just_opened = false;
                    if pieces > 0 {
                        self.gave_piece(at, pieces);
                    }
                    return found;
                }
            }
        }
        Found::Nothing
    }

    // Offers bytes to the connection of that number, where it stands there.
    fn offer_at(&mut self, at: usize, number: u32, bytes: &[u8]) -> Option<Sent>
        requires { 0 < length bytes.now }
        ensures { IfSome result (λ sent. CanTake bytes.now sent) }
    {
        let line = self.lines.get_mut(at)?;
        if line.number() != number {
            return None;
        }
        self.found_at = at;
        self.owing.add(at);
        self.streak = 0;
        Some(line.offer(bytes))
    }

    /// Offers bytes to a connection.
    pub fn offer(&mut self, number: u32, bytes: &[u8]) -> Sent
        requires { 0 < length bytes.now }
        ensures { CanTake bytes.now result }
    {
        // sends come in ascending number
        if let Some(sent) = self.offer_at(self.found_at, number, bytes) {
            return sent;
        }
        if let Some(sent) = self.offer_at(self.found_at.saturating_add(1), number, bytes) {
            return sent;
        }
        match place_of(&self.lines, number as usize) {
            Some(i) => match self.offer_at(i, number, bytes) {
                Some(sent) => sent,
                None => Sent::Gone,
            },
            None => Sent::Gone,
        }
    }

    /// Closes a connection, once its peer has what was written for it, or is late.
    pub fn remove<R: rt::Clock>(&mut self, rt: &R, number: u32) {
        if self.is_starved {
            self.may_accept = true;
        }
        let Some(i) = place_of(&self.lines, number as usize) else {
            return;
        };
        let line = self.lines.remove(i);
        self.streak = 0;
        if line.is_readable() {
            self.ready = self.ready.saturating_sub(1);
        }
        self.owing.close_up(i);
        if i < self.cursor {
            self.cursor -= 1;
        }
        self.leaving.add(rt, line);
    }
}

// Whether that number is among those that wait. They ascend, so one of them is found by halves.
fn is_paused(paused: &[u32], number: u32) -> bool
    ensures { result ≡ false → has paused.now number ≡ false }
{
    if paused.is_empty() {
        return false;
    }
    paused.binary_search(&number).is_ok() || paused.contains(&number)
}

// What one line gives, where it may. Its number is likely to stand at that place of the roster.
fn hear_line(
    line: &mut Line,
    at: usize,
    of: Of,
    roster: &Roster,
    paused: &[u32],
    into: &mut [u8; 4096],
) -> Found
    ensures { MayFind roster.now.conns.items roster.now.ended.items paused.now result }
{
    if of == Of::Closing && !line.is_closing() {
        return Found::Nothing;
    }
    let number = line.number();
    if is_paused(paused, number) || !roster.hears(at, number) {
        return Found::Nothing;
    }
    match line.read(into) {
        Heard::Bytes(n) => Found::Bytes(number, n),
        Heard::End => Found::End(number),
        Heard::Nothing => Found::Nothing,
    }
}
