//! The space of a database that has no file.
ghost use Rattle.std.specs.Prelude.{◌≡◌, ◌≢◌, true, false, [], Some, Option, ℕ};
ghost use Rattle.tc_base.specs.Files.{Files};

use crate::errors::SpaceErr;
use crate::space::Space;
use tc_base::Fault;

/// A space whose files are empty and stay so: the limit of each file is 0, and a write of bytes is refused as full.
#[derive(Drop)]
pub struct NoSpace {
    sound: bool,
    touched: bool,
    read: u64,
}

impl NoSpace {
    /// A sound space of empty files.
    pub fn new() -> NoSpace
        ensures sound { result.sound ≡ true }
        ensures touched { result.touched ≡ false }
        ensures read { result.read ≡ 0 }
    {
        NoSpace {
            sound: true,
            touched: false,
            read: 0,
        }
    }
}

impl Space for NoSpace {
    ghost use Rattle.std.specs.Prelude.{[], Some, None, ℕ, List, Option, true, ◌≤◌};
    ghost use Rattle.std.proofs.Common.{refl, arith};
    ghost use Rattle.tc_base.specs.Files.{Files};
    ghost use Rattle.tc_io.specs.Copies.{unnamed};
    ghost use Rattle.tc_space.specs.NoFiles.{no_files};

    ghost tells = { Unit {0} };

    ghost now = { λ _. no_files };

    ghost kept = { λ _. Some no_files };

    ghost moment = { λ _. 0 };

    ghost files_at = { λ _ t. no_files };

    ghost left = { λ _ t o. o ≡ Some no_files };

    ghost sound = { λ s. s.sound ≡ true };

    ghost flag = { λ s. s.sound };

    ghost touched = { λ s. s.touched };

    ghost limit = { λ _ f. 0 };

    ghost names = { λ _. unnamed };

    ghost overfills = { λ _ f at size. ⊥ };

    ghost log_full = { λ _. ⊥ };

    ghost brought = { λ _. Unit {0} };

    ghost bytes_read = { λ s. s.read };

    ghost faults = { λ _. 0 };

    ghost only_kept = { λ s o told sound left. left };

    ghost keeps_files = { λ s told sound. refl };

    ghost clean = { λ s told sound is. refl };

    ghost within = { λ s file told sound is. omega arith };

    ghost earlier = { λ s t u o le left. left };

    ghost present = { λ s told. refl };

    ghost flagged = { λ s sound. sound };

    fn is_sound(&self) -> bool {
        self.sound
    }

    fn len(&self, _file: u32) -> u64 {
        0
    }

    fn read(&mut self, _file: u32, _at: u64, into: &mut [u8]) -> Result<(), Fault> {
        self.read = self.read.saturating_add(into.len() as u64);
        Ok(())
    }

    fn write(&mut self, _file: u32, _at: u64, bytes: &[u8]) -> Result<(), SpaceErr> {
        self.touched = true;
        if bytes.is_empty() {
            return Ok(());
        }
        self.sound = false;
        Err(SpaceErr::Full)
    }

    fn cut(&mut self, _file: u32, _len: u64) -> Result<(), SpaceErr> {
        self.touched = true;
        Ok(())
    }

    fn commit(&mut self) -> Result<(), Fault> {
        self.touched = false;
        Ok(())
    }

    // A copy of no files.
    fn copy(&mut self, _label: &[u8]) -> Result<(), Fault> {
        Ok(())
    }

    fn spoil(&mut self) {
        self.sound = false;
    }

    fn give_up(&mut self) -> Result<(), Fault> {
        self.sound = false;
        Ok(())
    }
}
