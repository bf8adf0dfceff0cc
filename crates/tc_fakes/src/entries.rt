//! Entries of a transcript, copied from the arguments of calls.
ghost use Rattle.std.specs.Prelude.{◌≡◌, IfOk};
ghost use Rattle.tc_io.specs.Transcript.{bytes_of};
ghost use Rattle.tc_io.specs.declared.wire.Entry.TheVariants.{Event, Send, Dial};

use std::alloc::{AllocError, Global};
use tc_base::Blob;
use tc_io::{At, Dialled, Entry, Ev, Numbers, Sent};

// The bytes of an event.
fn heard(alloc: Global, ev: Ev, into: &[u8; 4096]) -> Result<Blob, AllocError>
    ensures { IfOk result (λ b. b ≡ bytes_of ev into.now) }
{
    match ev {
        Ev::Read(_, n) => Blob::from_slice(alloc, &into[..n.min(4096)]),
        _ => Ok(Blob::new(alloc)),
    }
}

pub fn event(
    alloc: Global,
    paused: &[u32],
    busy: bool,
    ev: Ev,
    into: &[u8; 4096],
) -> Result<Entry, AllocError>
    ensures { IfOk result (λ e. e ≡ Event paused.now busy ev (bytes_of ev into.now)) }
{
    Ok(Entry::Event {
        paused: Numbers::from_slice(alloc, paused)?,
        busy,
        ev,
        bytes: heard(alloc, ev, into)?,
    })
}

pub fn send(alloc: Global, conn: u32, bytes: &[u8], answer: Sent) -> Result<Entry, AllocError>
    ensures { IfOk result (λ e. e ≡ Send conn bytes.now answer) }
{
    Ok(Entry::Send {
        conn,
        bytes: Blob::from_slice(alloc, bytes)?,
        answer,
    })
}

pub fn dial(alloc: Global, host: &[u8], port: u16, answer: Dialled) -> Result<Entry, AllocError>
    ensures { IfOk result (λ e. e ≡ Dial host.now port answer) }
{
    Ok(Entry::Dial {
        host: Blob::from_slice(alloc, host)?,
        port,
        answer,
    })
}

/// A copy of an address.
pub fn copy_of(alloc: Global, at: &At) -> Result<At, AllocError>
    ensures { IfOk result (λ a. a ≡ at.now) }
{
    match at {
        At::Pipe => Ok(At::Pipe),
        At::Host { host, port } => Ok(At::Host {
            host: Blob::from_slice(alloc, host.as_slice())?,
            port: *port,
        }),
    }
}
