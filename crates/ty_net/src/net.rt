//! The wire of the program.
ghost use Rattle.std.specs.Prelude.{◌≡◌, [], None, false, IfOk};

use crate::pipe::PipeWire;
use crate::socket::SocketWire;
use std::alloc::Global;
use std::io::{Read, Write};
use std::net::Net;
use std::{io, rt};
use tc_base::Fault;
use tc_io::{At, Dialled, Ev, Sent, Wire};

/// The standard streams or sockets, as `open` picks.
#[derive(Drop)]
pub enum NetWire<'a, R, I: Read + Drop, O: Write + Drop> {
    /// The standard streams, also before anything was opened.
    Pipe {
        alloc: Global,
        rt: &'a R,
        wire: PipeWire<I, O>,
    },
    Socket(SocketWire<'a, R>),
}

impl<'a, R: Net + rt::Clock, I: Read + Drop, O: Write + Drop> NetWire<'a, R, I, O> {
    ghost use Rattle.ty_net.specs.Picked.{opened_of, conns_of};

    /// A wire that isn't opened yet.
    pub fn new(alloc: Global, rt: &'a R, input: I, output: O) -> io::Result<NetWire<'a, R, I, O>>
        ensures opened { IfOk result (λ w. opened_of w ≡ false) }
        ensures conns { IfOk result (λ w. conns_of w ≡ []) }
    {
        Ok(NetWire::Pipe {
            alloc,
            rt,
            wire: PipeWire::new(alloc, input, output)?,
        })
    }

    /// Writes out what was taken.
    pub fn write_out(&mut self) -> Result<(), Fault> {
        match self {
            NetWire::Pipe { wire, .. } => wire.write_out(),
            NetWire::Socket(wire) => {
                wire.write_out();
                Ok(())
            }
        }
    }
}

impl<'a, R: Net + rt::Clock, I: Read + Drop, O: Write + Drop> Wire for NetWire<'a, R, I, O> {
    ghost use Rattle.std.specs.Prelude.{None};
    ghost use Rattle.ty_net.specs.Picked.{faults_of, opened_of, conns_of, ended_of, given_of, none_of};

    ghost faults = { faults_of };

    ghost opened = { opened_of };

    ghost conns = { conns_of };

    ghost ended = { ended_of };

    ghost given = { given_of };

    ghost transcript = { λ _. None };

    ghost plays = { λ _. None };

    ghost none_before = { none_of };

    fn open(&mut self, at: &At) -> Result<(), Fault> {
        match self {
            NetWire::Pipe { alloc, rt, wire } => {
                if let At::Pipe = at {
                    return wire.open(at);
                }
                let mut socket = SocketWire::new(*alloc, *rt, wire.faults());
                match socket.open(at) {
                    Ok(()) => {
                        *self = NetWire::Socket(socket);
                        Ok(())
                    }
                    Err(_) => Err(wire.fail()),
                }
            }
            NetWire::Socket(wire) => wire.open(at),
        }
    }

    fn dial(&mut self, host: &[u8], port: u16) -> Result<Dialled, Fault> {
        match self {
            NetWire::Pipe { wire, .. } => wire.dial(host, port),
            NetWire::Socket(wire) => wire.dial(host, port),
        }
    }

    fn next(&mut self, paused: &[u32], busy: bool, into: &mut [u8; 4096]) -> Result<Ev, Fault> {
        match self {
            NetWire::Pipe { wire, .. } => wire.next(paused, busy, into),
            NetWire::Socket(wire) => wire.next(paused, busy, into),
        }
    }

    fn send(&mut self, conn: u32, bytes: &[u8]) -> Result<Sent, Fault> {
        match self {
            NetWire::Pipe { wire, .. } => wire.send(conn, bytes),
            NetWire::Socket(wire) => wire.send(conn, bytes),
        }
    }

    fn close(&mut self, conn: u32) -> Result<(), Fault> {
        match self {
            NetWire::Pipe { wire, .. } => wire.close(conn),
            NetWire::Socket(wire) => wire.close(conn),
        }
    }
}
