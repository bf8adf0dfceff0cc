//! A space of one file in memory, written in place, which tells nothing.
ghost use Rattle.std.specs.Prelude.{◌≡◌, true, IfOk};

use std::alloc::{AllocError, Global};
use tc_base::{FILE_MOST, Fault};
use tc_space::{Space, SpaceErr};

/// File 0; every other file is that one too.
#[derive(Drop)]
pub struct OneFile {
    bytes: Vec<u8>,
    sound: bool,
    touched: bool,
    read: u64,
    faults: u64,
}

impl OneFile {
    /// A sound space of these bytes, made without taking memory.
    pub fn of(bytes: Vec<u8>) -> OneFile
        ensures sound { result.sound ≡ true }
        ensures bytes { result.bytes ≡ bytes }
    {
        OneFile {
            bytes,
            sound: true,
            touched: false,
            read: 0,
            faults: 0,
        }
    }

    /// A sound space of a copy of these bytes.
    pub fn new(alloc: Global, bytes: &[u8]) -> Result<OneFile, AllocError>
        ensures sound { IfOk result (λ space. space.sound ≡ true) }
        ensures bytes { IfOk result (λ space. space.bytes.items ≡ bytes.now) }
    {
        Ok(OneFile::of(Vec::from_slice(alloc, bytes)?))
    }

    /// The bytes of the file now.
    pub fn bytes(&self) -> &[u8]
        ensures { result.now ≡ self.now.bytes.items }
    {
        self.bytes.as_slice()
    }
}

// Writes over the bytes from a place on, and behind them.
fn put(file: &mut Vec<u8>, at: u64, bytes: &[u8]) -> Result<(), AllocError> {
    let mut place = at as usize;
    for b in bytes {
        if place < file.len() {
            file[place] = *b;
        } else {
            file.push(*b)?;
        }
        place = place.wrapping_add(1);
    }
    Ok(())
}

impl Space for OneFile {
    ghost use Rattle.std.specs.Prelude.{[], Some, None, ℕ, List, Option, true};
    ghost use Rattle.std.proofs.Common.{refl};
    ghost use Rattle.tc_base.specs.Files.{Files};
    ghost use Rattle.tc_io.specs.Copies.{unnamed};
    ghost use Rattle.tc_space.specs.NoFiles.{no_files};

    ghost tells = { ⊥ };

    ghost now = { λ _. no_files };

    ghost kept = { λ _. Some no_files };

    ghost moment = { λ _. 0 };

    ghost files_at = { λ _ t. no_files };

    ghost left = { λ _ t o. o ≡ Some no_files };

    ghost sound = { λ s. s.sound ≡ true };

    ghost flag = { λ s. s.sound };

    ghost touched = { λ s. s.touched };

    ghost limit = { λ _ f. 1099511627776 };

    ghost names = { λ _. unnamed };

    ghost overfills = { λ _ f at size. ⊥ };

    ghost log_full = { λ _. ⊥ };

    ghost brought = { λ _. Unit {0} };

    ghost bytes_read = { λ s. s.read };

    ghost faults = { λ s. s.faults };

    ghost only_kept = { λ s o told sound left. left };

    ghost keeps_files = { λ s told sound. refl };

    ghost clean = { λ s told sound is. refl };

    ghost within = { λ s file told sound is. absurd told };

    ghost earlier = { λ s t u o le left. left };

    ghost present = { λ s told. refl };

    ghost flagged = { λ s sound. sound };

    fn is_sound(&self) -> bool {
        self.sound
    }

    fn len(&self, file: u32) -> u64 {
        let _ = file;
        self.bytes.len() as u64
    }

    fn read(&mut self, file: u32, at: u64, into: &mut [u8]) -> Result<(), Fault> {
        let _ = file;
        self.read = self.read.saturating_add(into.len() as u64);
        let from = (at as usize).min(self.bytes.len());
        let n = into.len().min(self.bytes.len() - from);
        into[..n].copy_from_slice(&self.bytes[from..from + n]);
        Ok(())
    }

    fn write(&mut self, file: u32, at: u64, bytes: &[u8]) -> Result<(), SpaceErr> {
        let _ = file;
        self.touched = true;
        if at > FILE_MOST || bytes.len() as u64 > FILE_MOST - at {
            self.sound = false;
            return Err(SpaceErr::Full);
        }
        if put(&mut self.bytes, at, bytes).is_err() {
            self.sound = false;
            self.faults = self.faults.saturating_add(1);
            return Err(SpaceErr::Fault);
        }
        Ok(())
    }

    fn cut(&mut self, file: u32, len: u64) -> Result<(), SpaceErr> {
        let _ = file;
        self.bytes.truncate(len as usize);
        self.touched = true;
        Ok(())
    }

    fn commit(&mut self) -> Result<(), Fault> {
        self.touched = false;
        Ok(())
    }

    // It has no volume to copy to.
    fn copy(&mut self, label: &[u8]) -> Result<(), Fault> {
        let _ = label;
        Ok(())
    }

    fn spoil(&mut self) {
        self.sound = false;
    }

    fn give_up(&mut self) -> Result<(), Fault> {
        self.sound = false;
        Ok(())
    }
}
