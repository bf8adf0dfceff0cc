//! What happened on a wire in memory.
ghost use Rattle.std.specs.Prelude.{◌≡◌, ◌++◌, ◌∷◌, [], ℕ, OnOk, OnErr};
ghost use Rattle.tc_fakes.specs.Transcripts.{sent_by, out_of, gives, was_given};
ghost use Rattle.tc_fakes.specs.Peers.{bytes_to};

use crate::peers;
use std::alloc::{AllocError, Global};
use tc_io::{Dialled, Entry, Ev, Sent};

/// All that happened, in order, and the bytes that each connection took.
#[derive(Drop)]
pub struct Book {
    alloc: Global,
    entries: Vec<Entry>,
    peers: Vec<peers::Peer>,
    ghost kept: { (c : ℕ) → bytes_to c peers.items ≡ out_of c entries.items },
}

// Adds the bytes that an entry says were taken.
fn note(alloc: Global, peers: &mut Vec<peers::Peer>, entry: &Entry) -> Result<(), AllocError>
    ensures ok { OnOk result ((c : ℕ) → bytes_to c peers.new.items ≡ bytes_to c peers.old.items ++ sent_by c entry.now) }
    ensures err { OnErr result ((c : ℕ) → bytes_to c peers.new.items ≡ bytes_to c peers.old.items) }
{
    match entry {
        Entry::Send {
            conn,
            bytes,
            answer,
        } => match answer {
            Sent::Took(n) => {
                let bytes = bytes.as_slice();
                peers::record(alloc, peers, *conn, &bytes[..bytes.len().min(*n)])
            }
            Sent::NotYet | Sent::Gone => Ok(()),
        },
        Entry::Open { .. } | Entry::Dial { .. } | Entry::Event { .. } | Entry::Close { .. } => Ok(
            (),
        ),
    }
}

// Whether an entry gave a connection.
fn gave(entry: &Entry, conn: u32) -> bool
    ensures { result ≡ gives conn entry.now }
{
    match entry {
        Entry::Dial { answer, .. } => match answer {
            Dialled::Conn(c) => *c == conn,
            Dialled::NotNow => false,
        },
        Entry::Event { ev, .. } => match ev {
            Ev::Opened(c) => *c == conn,
            Ev::Read(..) | Ev::Ended(_) | Ev::Quiet | Ev::Shut => false,
        },
        Entry::Open { .. } | Entry::Send { .. } | Entry::Close { .. } => false,
    }
}

impl Book {
    pub fn new(alloc: Global) -> Book
        ensures { result.entries.items ≡ [] }
    {
        Book {
            alloc,
            entries: Vec::new(alloc),
            peers: Vec::new(alloc),
        }
    }

    pub fn entries(&self) -> &[Entry]
        ensures { result.now ≡ self.now.entries.items }
    {
        self.entries.as_slice()
    }

    /// Adds an entry. An `Err` changes nothing.
    pub fn add(&mut self, entry: Entry) -> Result<(), AllocError>
        ensures ok { OnOk result (self.new.entries.items ≡ self.old.entries.items ++ entry ∷ []) }
        ensures err { OnErr result (self.new.entries.items ≡ self.old.entries.items) }
    {
        self.entries.reserve(1)?;
        note(self.alloc, &mut self.peers, &entry)?;
        self.entries.push_reserved(entry);
        Ok(())
    }

    /// The bytes that the sends to a connection took, in order.
    pub fn sent(&self, conn: u32) -> &[u8]
        ensures { result.now ≡ out_of conn self.now.entries.items }
    {
        peers::bytes_of(&self.peers, conn)
    }

    /// Whether it was opened or dialled.
    pub fn was_given(&self, conn: u32) -> bool
        ensures { result ≡ was_given conn self.now.entries.items }
    {
        self.entries.iter().any(|entry| gave(entry, conn))
    }
}
