//! What a wire was asked, in order.

use crate::plan::{dialled_of, sent_of};
use play_text::{Line, Wrong};
use std::alloc::Global;
use tc_io::{At, Dialled, Entry, Ev, Sent};

// Whether a call is one that a script tells.
fn is_told(entry: &Entry) -> bool {
    !matches!(entry, Entry::Event { .. })
}

/// The next call that a script tells, from a place on, and its place.
pub fn next_told(log: &[Entry], from: usize) -> Option<(usize, &Entry)> {
    for (place, entry) in log.iter().enumerate() {
        if place >= from && is_told(entry) {
            return Some((place, entry));
        }
    }
    None
}

// The connection that a call gave.
fn given_by(entry: &Entry) -> Option<u32> {
    match entry {
        Entry::Event {
            ev: Ev::Opened(conn),
            ..
        } => Some(*conn),
        Entry::Dial {
            answer: Dialled::Conn(conn),
            ..
        } => Some(*conn),
        _ => None,
    }
}

/// Whether a connection opened, or was dialled.
pub fn has_opened(log: &[Entry], conn: u32) -> bool {
    for entry in log.iter() {
        if given_by(entry) == Some(conn) {
            return true;
        }
    }
    false
}

/// The first connection that was sent something, but for these.
pub fn sent_besides(log: &[Entry], conns: &[u32]) -> Option<u32> {
    for entry in log.iter() {
        if let Entry::Send { conn, .. } = entry {
            if !conns.contains(conn) {
                return Some(*conn);
            }
        }
    }
    None
}

// A call as text.
fn text_of(alloc: Global, entry: &Entry) -> Result<String, Wrong> {
    Ok(format!(in alloc; "{entry:?}")?)
}

// Whether a call is another than the line says.
fn other(alloc: Global, entry: &Entry) -> Result<(), Wrong> {
    Err(Wrong::Differs(text_of(alloc, entry)?))
}

// Whether an address is that of the line.
fn is_address(line: &mut Line, host: &[u8], port: u16) -> Result<bool, Wrong> {
    Ok(line.word().as_bytes() == host && line.number()? == u64::from(port))
}

// Whether a send is that of the line: its connection, its answer and its bytes.
fn is_send(
    alloc: Global,
    line: &mut Line,
    conn: u32,
    bytes: &[u8],
    answer: Sent,
) -> Result<(), Wrong> {
    let to = line.small()?;
    let wanted = sent_of(line, bytes.len())?;
    line.is_bytes(bytes)?;
    if to == conn && wanted == answer {
        return Ok(());
    }
    Err(Wrong::Differs(format!(in alloc; "to {conn}, {answer:?}")?))
}

/// Whether a call is that of a line: `pipe`, `serve HOST PORT`, `dial HOST PORT ANSWER`, `send CONN ANSWER BYTES`, `close CONN`.
pub fn is_call(alloc: Global, line: &mut Line, entry: &Entry) -> Result<(), Wrong> {
    let what = line.own_word()?;
    let fits = match (what.as_str(), entry) {
        ("pipe", Entry::Open { at: At::Pipe }) => true,
        (
            "serve",
            Entry::Open {
                at: At::Host { host, port },
            },
        ) => is_address(line, host.as_slice(), *port)?,
        ("dial", Entry::Dial { host, port, answer }) => {
            is_address(line, host.as_slice(), *port)? && dialled_of(line)? == *answer
        }
        (
            "send",
            Entry::Send {
                conn,
                bytes,
                answer,
            },
        ) => {
            return is_send(alloc, line, *conn, bytes.as_slice(), *answer);
        }
        ("close", Entry::Close { conn }) => line.small()? == *conn,
        _ => false,
    };
    if fits { Ok(()) } else { other(alloc, entry) }
}
