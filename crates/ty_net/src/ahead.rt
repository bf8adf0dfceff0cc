//! Bytes of a connection that were read before they are asked for.
ghost use Rattle.std.specs.Prelude.{◌≤◌, ◌≡◌, length, nat_eq};

use mio::net::TcpStream;
use std::alloc::{AllocError, Global};
use std::io;
use std::io::Read;

/// So many bytes are read by one call of the system.
pub const ROOM: usize = 131_072;

// So many bytes are given out at once, and cleared at once before the first read.
const PIECE: usize = 4096;

/// A buffer that is filled by one read and given out in pieces of at most 4,096 bytes. It takes no memory before its first read.
#[derive(Drop)]
pub struct Ahead {
    bytes: Vec<u8>,
    // those that aren't given out yet: from here
    from: usize,
    // up to here
    to: usize,
    ghost ordered: { from ≤ to },
    ghost inside: { to ≤ length bytes.items },
}

impl Ahead {
    pub fn new(alloc: Global) -> Ahead {
        Ahead {
            bytes: Vec::new(alloc),
            from: 0,
            to: 0,
        }
    }

    pub fn is_empty(&self) -> bool
        ensures { result ≡ nat_eq self.now.from self.now.to }
    {
        self.from == self.to
    }

    /// So many pieces can be given out with bytes left behind them.
    pub fn pieces(&self) -> usize {
        (self.to - self.from).saturating_sub(1) / PIECE
    }

    /// Takes the memory that a read needs. An `Err` changes nothing.
    pub fn reserve(&mut self) -> Result<(), AllocError> {
        if self.bytes.len() >= ROOM {
            return Ok(());
        }
        self.bytes.reserve(ROOM)?;
        for _ in 0..ROOM / PIECE {
            self.bytes.extend_from_slice(&[0; PIECE])?;
        }
        Ok(())
    }

    /// One read into an empty buffer. Answers how many bytes came, 0 at the end of input.
    pub fn fill(&mut self, stream: &mut TcpStream) -> io::Result<usize> {
        if !self.is_empty() {
            return Ok(self.to - self.from);
        }
        self.from = 0;
        self.to = 0;
        let count = stream.read(&mut self.bytes)?;
        self.to = count;
        Ok(count)
    }

    /// Gives the next bytes. Answers how many, 0 where none are left.
    pub fn give(&mut self, into: &mut [u8; 4096]) -> usize
        ensures { result ≤ 4096 }
    {
        let count = (self.to - self.from).min(4096);
        into[..count].copy_from_slice(&self.bytes[self.from..self.from + count]);
        self.from += count;
        count
    }
}
