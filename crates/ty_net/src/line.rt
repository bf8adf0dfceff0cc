//! One connection's socket, with what is known of its readiness.
ghost use Rattle.std.specs.Prelude.{◌≡◌, ◌<◌, length};
ghost use Rattle.tc_io.specs.Lines.{CanTake};
ghost use Rattle.ty_net.specs.Finds.{MayHear};

use crate::ahead::{Ahead, ROOM};
use mio::event::Event;
use mio::net::TcpStream;
use std::alloc::{AllocError, Global};
use std::io::{ErrorKind, Read, Write};
use std::net::Shutdown;
use tc_io::Sent;

// So many bytes are gathered before they are written, and as many are written as they come.
const GATHERED: usize = 16_384;

// So often a call is made again that a signal ended.
const TRIES: u32 = 4;

/// What a line gave.
#[derive(Clone, Copy)]
pub enum Heard {
    Bytes(usize),
    End,
    Nothing,
}

/// A connection's socket. The flags say what the system told of it and no call has contradicted since.
#[derive(Drop)]
pub struct Line {
    number: u32,
    stream: TcpStream,
    // a read may give something
    is_readable: bool,
    // the end of its input or an error was told
    is_closing: bool,
    // its end was read
    has_ended: bool,
    // the last read filled its room, so more is likely to stand there
    is_streaming: bool,
    ahead: Ahead,
    // a write would wait
    is_blocked: bool,
    // the last send took nothing, since a write would wait
    is_refused: bool,
    // it takes no bytes any more
    is_gone: bool,
    // its peer was told that nothing more comes
    is_shut: bool,
    // taken and not written yet: those from `written` on
    out: Vec<u8>,
    written: usize,
}

impl Line {
    pub fn new(
        alloc: Global,
        number: u32,
        stream: TcpStream,
        is_readable: bool,
    ) -> Result<Line, AllocError> {
        Ok(Line {
            number,
            stream,
            is_readable,
            is_closing: false,
            has_ended: false,
            is_streaming: false,
            ahead: Ahead::new(alloc),
            is_blocked: false,
            is_refused: false,
            is_gone: false,
            is_shut: false,
            out: Vec::with_capacity(alloc, GATHERED)?,
            written: 0,
        })
    }

    pub fn number(&self) -> u32
        ensures { result ≡ self.now.number }
    {
        self.number
    }

    pub fn stream(&mut self) -> &mut TcpStream {
        &mut self.stream
    }

    /// Whether a read may give something.
    pub fn is_readable(&self) -> bool {
        self.is_readable || !self.ahead.is_empty()
    }

    /// So many pieces that were read ahead it gives, and has bytes left behind them.
    pub fn pieces_ahead(&self) -> usize {
        self.ahead.pieces()
    }

    /// Whether its end was told, and stands behind what wasn't read yet.
    pub fn is_closing(&self) -> bool {
        self.is_closing
    }

    /// Whether its end was read.
    pub fn has_ended(&self) -> bool {
        self.has_ended
    }

    /// Whether it holds back what it is sent until its peer reads.
    pub fn is_refused(&self) -> bool {
        self.is_refused
    }

    /// Whether it takes no bytes any more.
    pub fn is_gone(&self) -> bool {
        self.is_gone
    }

    /// Whether bytes were taken that aren't written yet.
    pub fn owes(&self) -> bool {
        !self.out.is_empty()
    }

    /// Takes in what the system told.
    pub fn note(&mut self, event: &Event) {
        let failed = event.is_error();
        if event.is_readable() || event.is_read_closed() || failed {
            self.is_readable = true;
        }
        if event.is_read_closed() || failed {
            self.is_closing = true;
        }
        if event.is_writable() || event.is_write_closed() || failed {
            self.is_blocked = false;
            self.is_refused = false;
        }
    }

    /// The next bytes. What is not an end, a wait or a signal is an end too: a reset is none of ours.
    pub fn read(&mut self, into: &mut [u8; 4096]) -> Heard
        ensures { MayHear result }
    {
        if self.ahead.is_empty() {
            return self.read_more(into);
        }
        self.give(into)
    }

    /// The next of the bytes that were read ahead.
    pub fn give(&mut self, into: &mut [u8; 4096]) -> Heard
        ensures { MayHear result }
    {
        match self.ahead.give(into) {
            0 => self.nothing(),
            count => Heard::Bytes(count),
        }
    }

    // The next bytes where none were read ahead, which is seldom where many follow one another.
    #[inline(never)]
    fn read_more(&mut self, into: &mut [u8; 4096]) -> Heard
        ensures { MayHear result }
    {
        if !self.is_streaming || self.ahead.reserve().is_err() {
            return self.read_once(into);
        }
        self.read_ahead();
        self.give(into)
    }

    fn nothing(&self) -> Heard
        ensures { MayHear result }
    {
        if self.has_ended {
            return Heard::End;
        }
        Heard::Nothing
    }

    // What a read says of those that follow, where it gave so many bytes of so many.
    fn was_read(&mut self, count: usize, room: usize) {
        if count == 0 {
            self.has_ended = true;
        }
        self.is_streaming = count >= 4096;
        // a short read emptied the socket, but behind it the end may stand that was told already
        if count == 0 || (count < room && !self.is_closing) {
            self.is_readable = false;
        }
    }

    // What a failed read says: that it would wait, was ended by a signal, or that no more comes.
    fn was_refused(&mut self, kind: ErrorKind) {
        if kind == ErrorKind::Interrupted {
            return;
        }
        self.is_readable = false;
        self.is_streaming = false;
        if kind != ErrorKind::WouldBlock {
            self.has_ended = true;
        }
    }

    // One read of the system into the buffer of bytes read ahead.
    fn read_ahead(&mut self) {
        match self.ahead.fill(&mut self.stream) {
            Ok(count) => self.was_read(count, ROOM),
            Err(e) => self.was_refused(e.kind()),
        }
    }

    // One read of the system.
    fn read_once(&mut self, into: &mut [u8; 4096]) -> Heard
        ensures { MayHear result }
    {
        match self.stream.read(into) {
            Ok(0) => {
                self.was_read(0, 4096);
                Heard::End
            }
            Ok(count) => {
                self.was_read(count, 4096);
                Heard::Bytes(count)
            }
            Err(e) => {
                self.was_refused(e.kind());
                self.nothing()
            }
        }
    }

    /// Reads bytes and drops them, where the system told of any. Answers how many.
    pub fn drop_input(&mut self) -> usize {
        if !self.is_readable || self.has_ended {
            return 0;
        }
        let mut into = [0; 4096];
        match self.stream.read(&mut into) {
            Ok(count) => {
                self.was_read(count, 4096);
                count
            }
            Err(e) => {
                self.was_refused(e.kind());
                0
            }
        }
    }

    /// Whether its peer was told that nothing more comes.
    pub fn is_shut(&self) -> bool {
        self.is_shut
    }

    /// Tells the peer that nothing more comes.
    pub fn shut_writing(&mut self) {
        self.is_shut = true;
        let _ = self.stream.shutdown(Shutdown::Write);
    }

    // One write of what was taken, or of `bytes` where nothing was.
    fn write(&mut self, bytes: &[u8]) -> Sent
        ensures { CanTake bytes.now result }
    {
        for _ in 0..TRIES {
            match self.stream.write(bytes) {
                Ok(0) => return Sent::NotYet,
                Ok(n) => return Sent::Took(n),
                Err(e) if e.kind() == ErrorKind::WouldBlock => {
                    self.is_blocked = true;
                    return Sent::NotYet;
                }
                Err(e) if e.kind() == ErrorKind::Interrupted => {}
                Err(_) => {
                    self.is_gone = true;
                    return Sent::Gone;
                }
            }
        }
        Sent::NotYet
    }

    /// Writes what was taken, as far as the system takes it now.
    pub fn flush(&mut self) {
        for _ in 0..TRIES {
            if self.is_blocked || self.written >= self.out.len() {
                break;
            }
            match self.stream.write(&self.out[self.written..]) {
                Ok(n) => self.written = self.written.saturating_add(n),
                Err(e) if e.kind() == ErrorKind::WouldBlock => self.is_blocked = true,
                Err(e) if e.kind() == ErrorKind::Interrupted => {}
                Err(_) => {
                    self.is_gone = true;
                    self.written = self.out.len();
                }
            }
        }
        if self.written >= self.out.len() {
            self.out.clear();
            self.written = 0;
        }
    }

    /// Takes bytes, to write them with those that follow, or writes them where they are many.
    pub fn offer(&mut self, bytes: &[u8]) -> Sent
        requires { 0 < length bytes.now }
        ensures { CanTake bytes.now result }
    {
        if self.out.len().saturating_add(bytes.len()) > GATHERED {
            self.flush();
        }
        if self.is_gone {
            return Sent::Gone;
        }
        if self.is_blocked {
            self.is_refused = true;
            return Sent::NotYet;
        }
        if self.out.is_empty() && bytes.len() >= GATHERED {
            let sent = self.write(bytes);
            self.is_refused = self.is_blocked;
            return sent;
        }
        if self.out.len().saturating_add(bytes.len()) > GATHERED {
            return Sent::NotYet;
        }
        match self.out.extend_from_slice(bytes) {
            Ok(()) => Sent::Took(bytes.len()),
            Err(_) => Sent::NotYet,
        }
    }
}
