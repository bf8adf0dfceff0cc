//! The input: steps on a list of pairs.

/// What is left of the input.
#[derive(Drop)]
pub struct Script<'a> {
    rest: &'a [u8],
}

/// A step: what it is, a number, a key and a value, or the two ends of a stretch of keys.
#[derive(Clone, Copy)]
pub struct Step<'a> {
    pub kind: u8,
    pub number: u64,
    pub key: &'a [u8],
    pub value: &'a [u8],
}

impl<'a> Script<'a> {
    pub fn new(bytes: &'a [u8]) -> Script<'a> {
        Script { rest: bytes }
    }

    /// How many bytes are left.
    pub fn left(&self) -> usize {
        self.rest.len()
    }

    fn bytes(&mut self, count: u64) -> Option<&'a [u8]> {
        if count > self.rest.len() as u64 {
            return None;
        }
        let (front, rest) = self.rest.split_at(count as usize);
        self.rest = rest;
        Some(front)
    }

    // A number, its greatest byte first.
    fn number(&mut self, width: u64) -> Option<u64> {
        let mut number = 0u64;
        for byte in self.bytes(width)? {
            number = number.wrapping_mul(256).wrapping_add(*byte as u64);
        }
        Some(number)
    }

    /// The next step, or none where the input is at its end or cut short.
    pub fn step(&mut self) -> Option<Step<'a>> {
        let kind = u8::try_from(self.number(1)?).ok()?;
        let number = self.number(4)?;
        let key_size = self.number(4)?;
        let size = self.number(4)?;
        let key = self.bytes(key_size)?;
        let value = self.bytes(size)?;
        Some(Step {
            kind,
            number,
            key,
            value,
        })
    }
}
