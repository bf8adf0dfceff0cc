//! What stops leave of volumes, looked at once.

use crate::left::WHOLE;
use std::alloc::{AllocError, Global};
use tc_fakes::{Choice, MemVolume};

/// The volumes that were seen so far.
#[derive(Drop)]
pub struct Seen {
    alloc: Global,
    vols: Vec<MemVolume>,
}

/// Whether two volumes have the same files.
pub fn are_same(one: &MemVolume, other: &MemVolume) -> bool {
    for file in 0..19u32 {
        if one.bytes(file) != other.bytes(file) {
            return false;
        }
    }
    true
}

impl Seen {
    /// None so far.
    pub fn new(alloc: Global) -> Seen {
        Seen {
            alloc,
            vols: Vec::new(alloc),
        }
    }

    // Whether a volume was seen; mostly it is one of the last.
    fn has(&self, vol: &MemVolume) -> bool {
        for other in self.vols.iter().rev() {
            if are_same(vol, other) {
                return true;
            }
        }
        false
    }

    /// What the choices leave of a volume, but for what was seen before.
    pub fn unseen(
        &mut self,
        vol: &MemVolume,
        choices: &[Choice],
    ) -> Result<Vec<MemVolume>, AllocError> {
        let mut fresh = Vec::new(self.alloc);
        for choice in choices.iter() {
            let image = vol.image(choice)?;
            if !self.has(&image) {
                self.vols.push(image.image(&WHOLE)?)?;
                fresh.push(image)?;
            }
        }
        Ok(fresh)
    }
}
