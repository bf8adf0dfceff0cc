//! The real wires and sinks, over sockets of one process and over pipes.
ghost use Rattle.std.specs.Prelude.{◌≡◌, true, false, IfOk};

use std::alloc::Global;
use std::io::{PipeReader, PipeWriter, Read, Write};
use std::net::Net;
use std::test::Fail;
use std::{io, rt};
use tc_base::Blob;
use tc_io::{At, Dialled, Ev, Sent, Sink, Wire};
use ty_net::{NetWire, PipeWire, SocketWire, StdSink};

// a put of `first` under `one`, and a get of it
const ASKED: &[u8] = b"\xC8\x10\0\0\0\x03\0\0\0\x05onefirst\xC8\x30\0\0\0\x03one";

const ANSWERED: &[u8] = b"\0\0\0\0\0\x05first";

// What came so far.
#[derive(Clone, Copy, PartialEq, Eq)]
struct Seen {
    opened: u32,
    right: u32,
    wrong: u32,
    ended: u32,
    shut: bool,
}

impl Seen {
    fn none() -> Seen {
        Seen {
            opened: 0,
            right: 0,
            wrong: 0,
            ended: 0,
            shut: false,
        }
    }
}

// One event. Bytes that are as wanted are answered so, or their connection is closed where there is no answer, and what ended is closed.
fn play<W: Wire>(wire: &mut W, wanted: &[u8], answer: &[u8], seen: &mut Seen)
    requires { W.opened wire.old ≡ true }
    ensures { W.opened wire.new ≡ true }
{
    let mut into = [0; 4096];
    match wire.next(&[], false, &mut into) {
        Ok(Ev::Opened(_)) => seen.opened = seen.opened.saturating_add(1),
        Ok(Ev::Read(conn, count)) => {
            let mut is_right = count == wanted.len() && into.starts_with(wanted);
            if answer.is_empty() {
                is_right = wire.close(conn).is_ok() && is_right;
            } else {
                is_right = wire.send(conn, answer) == Ok(Sent::Took(answer.len())) && is_right;
            }
            if is_right {
                seen.right = seen.right.saturating_add(1);
            } else {
                seen.wrong = seen.wrong.saturating_add(1);
            }
        }
        Ok(Ev::Ended(conn)) => {
            seen.ended = seen.ended.saturating_add(1);
            if wire.close(conn).is_err() {
                seen.wrong = seen.wrong.saturating_add(1);
            }
        }
        Ok(Ev::Shut) => seen.shut = true,
        Ok(Ev::Quiet) => {}
        Err(_) => seen.wrong = seen.wrong.saturating_add(1),
    }
}

// Four events.
fn play_four<W: Wire>(wire: &mut W, wanted: &[u8], answer: &[u8], seen: &mut Seen)
    requires { W.opened wire.old ≡ true }
    ensures { W.opened wire.new ≡ true }
{
    play(wire, wanted, answer, seen);
    play(wire, wanted, answer, seen);
    play(wire, wanted, answer, seen);
    play(wire, wanted, answer, seen);
}

// Opens a wire at one of a few ports, and answers at which.
fn open_some<W: Wire>(alloc: Global, wire: &mut W) -> Option<u16>
    requires { W.opened wire.old ≡ false }
    ensures { IsSome result → W.opened wire.new ≡ true }
{
    for port in 29_781..29_881 {
        let host = Blob::from_slice(alloc, b"127.0.0.1").ok()?;
        if wire.open(&At::Host { host, port }).is_ok() {
            return Some(port);
        }
    }
    None
}

ghost use Rattle.std.specs.Prelude.{IsSome};

// Dials and asks.
fn ask<W: Wire>(wire: &mut W, port: u16) -> bool
    requires { W.opened wire.old ≡ true }
    ensures { W.opened wire.new ≡ true }
{
    match wire.dial(b"127.0.0.1", port) {
        Ok(Dialled::Conn(conn)) => wire.send(conn, ASKED) == Ok(Sent::Took(ASKED.len())),
        _ => false,
    }
}

// Whether one wire asks another, which is asked and answers, and each sees what it is to see.
fn is_answered<N: Wire, F: Wire>(alloc: Global, near: &mut N, far: &mut F) -> bool
    requires near { N.opened near.old ≡ false }
    requires far { F.opened far.old ≡ false }
{
    let Some(_) = open_some(alloc, near) else {
        return false;
    };
    let Some(port) = open_some(alloc, far) else {
        return false;
    };
    if !ask(near, port) {
        return false;
    }
    let (mut asked, mut answered) = (Seen::none(), Seen::none());
    play(near, ANSWERED, b"", &mut asked);
    play(far, ASKED, ANSWERED, &mut answered);
    play(far, ASKED, ANSWERED, &mut answered);
    play(far, ASKED, ANSWERED, &mut answered);
    play(near, ANSWERED, b"", &mut asked);
    play(far, ASKED, ANSWERED, &mut answered);
    let wanted = Seen {
        opened: 1,
        right: 1,
        wrong: 0,
        ended: 1,
        shut: false,
    };
    answered == wanted
        && asked
            == Seen {
                opened: 0,
                ended: 0,
                ..wanted
            }
}

// Whether a wire dials no name that is none, and is told that nothing listens at an address.
fn is_told_of_none<W: Wire>(alloc: Global, wire: &mut W) -> bool
    requires { W.opened wire.old ≡ false }
{
    let Some(_) = open_some(alloc, wire) else {
        return false;
    };
    let dialled = wire.dial(b"\xFF", 1);
    let is_asked = ask(wire, 1);
    let mut seen = Seen::none();
    play_four(wire, b"", b"", &mut seen);
    dialled == Ok(Dialled::NotNow) && is_asked && seen.ended == 1 && seen.wrong == 0
}

// Whether a wire over a pipe is asked, answers and is shut.
fn is_asked<W: Wire>(wire: &mut W) -> bool
    requires { W.opened wire.old ≡ false }
{
    let Ok(()) = wire.open(&At::Pipe) else {
        return false;
    };
    let mut seen = Seen::none();
    play_four(wire, ASKED, ANSWERED, &mut seen);
    seen == Seen {
        opened: 1,
        right: 1,
        wrong: 0,
        ended: 1,
        shut: true,
    }
}

#[test]
fn asks_itself(rt: HostRuntime) -> Result<(), Fail> {
    let alloc: Global = rt.alloc();
    let mut far = NetWire::new(alloc, &rt, rt.stdin(), rt.stdout())?;
    let mut near = SocketWire::new(alloc, &rt, 0);
    assert!(rt; is_answered(alloc, &mut near, &mut far));
    Ok(())
}

#[test]
fn is_refused(rt: HostRuntime) -> Result<(), Fail> {
    let alloc: Global = rt.alloc();
    let mut wire = SocketWire::new(alloc, &rt, 0);
    assert!(rt; is_told_of_none(alloc, &mut wire));
    Ok(())
}

#[test]
fn plays_a_pipe(rt: HostRuntime) -> Result<(), Fail> {
    let alloc: Global = rt.alloc();
    let (input, mut to) = io::pipe(&rt)?;
    let (mut from, output) = io::pipe(&rt)?;
    to.write_all(ASKED)?;
    drop(to);
    let mut wire = PipeWire::new(alloc, input, output)?;
    let was_asked = is_asked(&mut wire);
    drop(wire);
    let mut all = Vec::new(alloc);
    from.read_to_end(&mut all)?;
    assert!(rt; was_asked && all.as_slice() == ANSWERED);
    Ok(())
}

#[test]
fn puts_into_a_pipe(rt: HostRuntime) -> Result<(), Fail> {
    let (mut from, output) = io::pipe(&rt)?;
    let mut sink = StdSink::new(output);
    assert!(rt; sink.put(b"one").is_ok() && sink.put(b" first").is_ok());
    drop(sink);
    let mut all = Vec::new(rt.alloc());
    from.read_to_end(&mut all)?;
    assert!(rt; all.as_slice() == b"one first".as_slice());
    Ok(())
}
