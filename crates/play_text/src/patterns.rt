//! Bytes, of which some may be any.

use std::alloc::{AllocError, Global};

/// Bytes, and the places at which any byte may stand.
#[derive(Drop)]
pub struct Pattern {
    bytes: Vec<u8>,
    free: Vec<usize>,
}

impl Pattern {
    /// No bytes.
    pub fn new(alloc: Global) -> Pattern {
        Pattern {
            bytes: Vec::new(alloc),
            free: Vec::new(alloc),
        }
    }

    /// The bytes; where any may stand, 0.
    pub fn as_slice(&self) -> &[u8] {
        &self.bytes
    }

    /// How many there are.
    pub fn len(&self) -> usize {
        self.bytes.len()
    }

    /// Whether there are none.
    pub fn is_empty(&self) -> bool {
        self.bytes.is_empty()
    }

    /// Adds bytes.
    pub fn add(&mut self, bytes: &[u8]) -> Result<(), AllocError> {
        self.bytes.extend_from_slice(bytes)
    }

    /// Adds bytes behind their size in four bytes.
    pub fn add_sized(&mut self, bytes: &[u8]) -> Result<(), AllocError> {
        let size = u32::try_from(bytes.len()).unwrap_or(u32::MAX);
        self.bytes.extend_from_slice(&size.to_be_bytes())?;
        self.bytes.extend_from_slice(bytes)
    }

    /// Adds a byte that may be any.
    pub fn add_free(&mut self) -> Result<(), AllocError> {
        self.free.push(self.bytes.len())?;
        self.bytes.push(0)?;
        Ok(())
    }

    // Adds another pattern.
    fn append(&mut self, other: &Pattern) -> Result<(), AllocError> {
        let length = self.bytes.len();
        for place in other.free.iter() {
            self.free.push(length.saturating_add(*place))?;
        }
        self.bytes.extend_from_slice(&other.bytes)
    }

    /// Adds another so many times.
    pub fn append_times(&mut self, other: &Pattern, times: usize) -> Result<(), AllocError> {
        if let ([byte], []) = (other.bytes.as_slice(), other.free.as_slice()) {
            return self
                .bytes
                .resize(self.bytes.len().saturating_add(times), *byte);
        }
        for _ in 0..times {
            self.append(other)?;
        }
        Ok(())
    }

    /// How many of the first bytes are as they are to be.
    pub fn fitting(&self, found: &[u8]) -> usize {
        let mut fitting = 0;
        for (place, (wanted, byte)) in self.bytes.iter().zip(found.iter()).enumerate() {
            if wanted != byte && !self.free.contains(&place) {
                return place;
            }
            fitting = place.saturating_add(1);
        }
        fitting
    }

    /// Whether bytes are these.
    pub fn fits(&self, found: &[u8]) -> bool {
        if self.free.is_empty() {
            return self.bytes.as_slice() == found;
        }
        self.bytes.len() == found.len() && self.fitting(found) == found.len()
    }
}
