//! The input: databases, and for each the requests and what they are answered.

use tc_base::Kind;

/// What is left of the input.
#[derive(Drop)]
pub struct Script<'a> {
    rest: &'a [u8],
}

/// A database, and how many requests it is asked.
#[derive(Clone, Copy)]
pub struct Head {
    pub kind: Kind,
    pub decimal: bool,
    pub width: u32,
    pub greatest: u64,
    pub count: u64,
}

/// A request, and what it is answered.
#[derive(Clone, Copy)]
pub struct Step<'a> {
    pub succeeds: bool,
    pub updates: bool,
    pub request: &'a [u8],
    pub reply: &'a [u8],
}

// The kind with a number.
fn kind_of(number: u64) -> Option<Kind> {
    match number {
        0 => Some(Kind::Hash),
        1 => Some(Kind::Tree),
        2 => Some(Kind::Fixed),
        3 => Some(Kind::Table),
        4 => Some(Kind::MemHash),
        5 => Some(Kind::MemTree),
        _ => None,
    }
}

impl<'a> Script<'a> {
    pub fn new(bytes: &'a [u8]) -> Script<'a> {
        Script { rest: bytes }
    }

    pub fn is_empty(&self) -> bool {
        self.rest.is_empty()
    }

    fn bytes(&mut self, count: usize) -> Option<&'a [u8]> {
        if count > self.rest.len() {
            return None;
        }
        let (front, rest) = self.rest.split_at(count);
        self.rest = rest;
        Some(front)
    }

    // A number, its greatest byte first.
    fn number(&mut self, width: usize) -> Option<u64> {
        let mut number = 0u64;
        for byte in self.bytes(width)? {
            number = number.wrapping_mul(256).wrapping_add(*byte as u64);
        }
        Some(number)
    }

    /// The next database, or none where the input is cut short.
    pub fn head(&mut self) -> Option<Head> {
        let kind = kind_of(self.number(1)?)?;
        let decimal = self.number(1)? == 1;
        let width = u32::try_from(self.number(4)?).ok()?;
        let greatest = self.number(8)?;
        let count = self.number(4)?;
        Some(Head {
            kind,
            decimal,
            width,
            greatest,
            count,
        })
    }

    /// The next request, or none where the input is cut short.
    pub fn step(&mut self) -> Option<Step<'a>> {
        let said = self.number(1)?;
        let size = usize::try_from(self.number(4)?).ok()?;
        let reply_size = usize::try_from(self.number(4)?).ok()?;
        let request = self.bytes(size)?;
        let reply = self.bytes(reply_size)?;
        Some(Step {
            succeeds: said % 2 == 1,
            updates: said >= 2,
            request,
            reply,
        })
    }
}
