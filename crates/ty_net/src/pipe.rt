//! The wire over the two standard streams. It tells nothing of content.
ghost use Rattle.std.specs.Prelude.{◌≡◌, ◌≤◌, ◌∷◌, [], None, true, false, if◌then◌else◌, IfOk};
ghost use Rattle.tc_io.specs.Causes.{HasCause, Rose};

use crate::faults::fault;
use std::alloc::Global;
use std::io;
use std::io::{BufReader, BufWriter, ErrorKind, Read, Write};
use tc_base::Fault;
use tc_io::{At, Dialled, Ev, Sent, Wire};

// So much is read or written by one call of the system.
const ROOM: usize = 65_536;

/// Connection 0 over a reader and a writer: opened, then read to the end of its input, then shut.
///
/// What it took is gathered, and written out before it waits for input again and before it says `Shut`. A reader that went
/// away on the other side is gone, and no fault; any other call of the system that fails is one.
#[derive(Drop)]
pub struct PipeWire<R: Read + Drop, O: Write + Drop> {
    reader: BufReader<R>,
    writer: BufWriter<O>,
    opened: bool,
    started: bool,
    is_open: bool,
    has_ended: bool,
    is_gone: bool,
    faults: u64,
    ghost none_before: { opened ≡ false → is_open ≡ false },
    ghost ends_after: { started ≡ false → is_open ≡ false },
    ghost starts_after: { opened ≡ false → started ≡ false },
    ghost reads_after: { opened ≡ false → has_ended ≡ false },
}

impl<R: Read + Drop, O: Write + Drop> PipeWire<R, O> {
    /// A wire that isn't opened yet.
    pub fn new(alloc: Global, reader: R, writer: O) -> io::Result<PipeWire<R, O>>
        ensures opened { IfOk result (λ w. w.opened ≡ false) }
        ensures is_open { IfOk result (λ w. w.is_open ≡ false) }
    {
        Ok(PipeWire {
            reader: BufReader::with_capacity(alloc, ROOM, reader)?,
            writer: BufWriter::with_capacity(alloc, ROOM, writer)?,
            opened: false,
            started: false,
            is_open: false,
            has_ended: false,
            is_gone: false,
            faults: 0,
        })
    }
}

impl<R: Read + Drop, O: Write + Drop> PipeWire<R, O> {
    /// Counts a fault.
    pub fn fail(&mut self) -> Fault
        ensures opened { self.new.opened ≡ self.old.opened }
        ensures started { self.new.started ≡ self.old.started }
        ensures is_open { self.new.is_open ≡ self.old.is_open }
        ensures has_ended { self.new.has_ended ≡ self.old.has_ended }
        ensures rose { Rose self.old.faults self.new.faults }
        ensures later { self.old.faults ≤ self.new.faults }
    {
        fault(&mut self.faults)
    }

    /// How often a call failed.
    pub fn faults(&self) -> u64
        ensures { result ≡ self.now.faults }
    {
        self.faults
    }

    /// Writes out what was taken. A reader that went away is no fault.
    pub fn write_out(&mut self) -> Result<(), Fault>
        ensures opened { self.new.opened ≡ self.old.opened }
        ensures started { self.new.started ≡ self.old.started }
        ensures is_open { self.new.is_open ≡ self.old.is_open }
        ensures has_ended { self.new.has_ended ≡ self.old.has_ended }
        ensures cause { HasCause self.old.faults self.new.faults result }
    {
        if self.is_gone {
            return Ok(());
        }
        match self.writer.flush() {
            Ok(()) => Ok(()),
            Err(e) if e.kind() == ErrorKind::BrokenPipe => {
                self.is_gone = true;
                Ok(())
            }
            Err(_) => {
                self.faults = self.faults.saturating_add(1);
                Err(Fault)
            }
        }
    }
}

impl<R: Read + Drop, O: Write + Drop> Wire for PipeWire<R, O> {
    ghost use Rattle.std.specs.Prelude.{None, [], ◌∷◌, if◌then◌else◌};

    ghost faults = { λ w. w.faults };

    ghost opened = { λ w. w.opened };

    ghost conns = { λ w. if w.is_open then 0 ∷ [] else [] };

    ghost ended = { λ w. if w.has_ended then 0 ∷ [] else [] };

    ghost given = { λ w. if w.started then 1 else 0 };

    ghost transcript = { λ _. None };

    ghost plays = { λ _. None };

    ghost use Rattle.std.proofs.Common.{ap};
    ghost use Rattle.std.specs.Prelude.{Bool, List, ℕ};

    ghost none_before = { λ w closed. ap (λ (b : Bool). let lines : List ℕ = if b then 0 ∷ [] else [] in lines) (w.none_before closed) };

    fn open(&mut self, at: &At) -> Result<(), Fault> {
        match at {
            At::Pipe => {
                self.opened = true;
                Ok(())
            }
            At::Host { .. } => {
                self.faults = self.faults.saturating_add(1);
                Err(Fault)
            }
        }
    }

    fn dial(&mut self, host: &[u8], port: u16) -> Result<Dialled, Fault> {
        let _ = host;
        let _ = port;
        Ok(Dialled::NotNow)
    }

    fn next(&mut self, paused: &[u32], busy: bool, into: &mut [u8; 4096]) -> Result<Ev, Fault> {
        if !self.started {
            self.started = true;
            self.is_open = true;
            return Ok(Ev::Opened(0));
        }
        if self.is_open && !self.has_ended && !paused.contains(&0) {
            if self.reader.buffer().is_empty() {
                self.write_out()?;
            }
            let Ok(n) = self.reader.read(into) else {
                self.faults = self.faults.saturating_add(1);
                return Err(Fault);
            };
            if n == 0 {
                self.has_ended = true;
                return Ok(Ev::Ended(0));
            }
            return Ok(Ev::Read(0, n));
        }
        if busy {
            return Ok(Ev::Quiet);
        }
        self.write_out()?;
        Ok(Ev::Shut)
    }

    fn send(&mut self, conn: u32, bytes: &[u8]) -> Result<Sent, Fault> {
        let _ = conn;
        if self.is_gone {
            return Ok(Sent::Gone);
        }
        match self.writer.write_all(bytes) {
            Ok(()) => Ok(Sent::Took(bytes.len())),
            Err(e) if e.kind() == ErrorKind::BrokenPipe => {
                self.is_gone = true;
                Ok(Sent::Gone)
            }
            Err(_) => {
                self.faults = self.faults.saturating_add(1);
                Err(Fault)
            }
        }
    }

    fn close(&mut self, conn: u32) -> Result<(), Fault> {
        let _ = conn;
        self.is_open = false;
        self.has_ended = false;
        Ok(())
    }
}
