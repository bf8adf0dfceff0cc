//! The space over a volume and its undo log.
ghost use Rattle.std.specs.Prelude.{◌≡◌, ◌+◌, ◌-◌, ◌^◌, ◌≤◌, ◌<◌, ℕ, true, false, length, IfOk, IfErr, MatchResult, max};
ghost use Rattle.tc_io.specs.Images.{now as reads_now};
ghost use Rattle.ud_log.specs.Undo.{data_of, is_data, length_of, recovered};
ghost use Rattle.ud_state.specs.Since.{Left, calls_at, calls_now};
ghost use Rattle.ud_state.proofs.Valid.{valid_only, left_earlier};
ghost use Rattle.tc_undo.specs.Opening.{HandsBack, IsRefused, OpensKept};
ghost use Rattle.tc_undo.specs.Room.{needs, log_end, stop_of};
ghost use Rattle.tc_undo.specs.Usable.{IsUsable, usable_clean, usable_kept, usable_within};

use crate::batched::Batched;
use crate::copying::make_copy;
use crate::errors::{RecoverErr, UndoErr, Unopened};
use crate::finish::finish;
use crate::piece::Piece;
use crate::pieces::write_pieces;
use crate::recovery::restore;
use crate::room::{Log, limits_of, stop_at};
use crate::through::{cut_through, write_through};
use tc_base::Fault;
use tc_io::Volume;
use tc_space::{Space, SpaceErr};
use ud_log::place;

/// Files over a volume whose kept contents survive each stop.
#[derive(Drop)]
pub struct Undo<V: Volume> {
    vol: V,
    sound: bool,
    touched: bool,
    read: u64,
    limits: [u64; 18],
    lens: [u64; 18],
    log: Log,
    ghost bound: { V.bound vol ≡ true },
}

impl<V: Volume> Undo<V> {
    /// Recovers the volume and opens it. The limit of a data file is the greater of `limit` and its length. It takes no memory.
    ///
    /// As many syncs as `recover`. A refusal hands the volume back as it stands; it may be opened again.
    pub fn open(vol: V, limit: u64) -> Result<Undo<V>, Unopened<V>>
        requires bound { V.bound vol ≡ true }
        requires limit { limit ≤ 2 ^ 40 }
        ensures sound { IfOk result (λ u. (u.sound ≡ true) × IsUsable V.tells (V.calls u.vol) u.touched u.log u.lens u.limits) }
        ensures begins { IfOk result (λ u. (u.touched ≡ false) × (u.read ≡ 0)) }
        ensures limits { IfOk result (λ u. (f : ℕ) → is_data f ≡ true → length_of u.limits f ≡ max limit (length_of u.lens f)) }
        ensures kept { IfOk result (λ u. V.tells → OpensKept (V.calls vol) (V.calls u.vol)) }
        ensures refused { IfErr result (λ r. V.tells → IsRefused r.why (V.calls vol) (V.calls r.vol)) }
        ensures names { MatchResult result (λ u. V.names u.vol ≡ V.names vol) (λ r. V.names r.vol ≡ V.names vol) }
        ensures cause { MatchResult result (λ u. V.faults vol ≤ V.faults u.vol) (λ r. HandsBack r.why (V.bound r.vol) (V.faults vol) (V.faults r.vol)) }
    {
        let mut vol = vol;
        match restore(&mut vol) {
            Ok(lens) => Ok(Undo {
                vol,
                sound: true,
                touched: false,
                read: 0,
                limits: limits_of(&lens, limit),
                lens,
                log: Log {
                    active: false,
                    end: 0,
                    recorded: [0; 18],
                    changed: [false; 18],
                },
            }),
            Err(RecoverErr::Fault) => Err(Unopened {
                vol,
                why: UndoErr::Fault,
            }),
            Err(RecoverErr::Broken(rule)) => Err(Unopened {
                vol,
                why: UndoErr::Broken(rule),
            }),
        }
    }

    /// Hands the volume back as it stands, whether the space is sound or not. It calls nothing of the volume.
    pub fn close(self) -> V
        ensures { result ≡ self.vol }
    {
        self.vol
    }
}

impl<V: Volume> Space for Undo<V> {
    ghost use Rattle.std.proofs.Common.{ap};

    ghost tells = { V.tells };

    ghost now = { λ s. data_of (reads_now (V.calls s.vol)) };

    ghost kept = { λ s. recovered (reads_now (V.calls s.vol)) };

    ghost moment = { λ s. length (V.calls s.vol) };

    ghost files_at = { λ s t. data_of (reads_now (calls_at t (V.calls s.vol))) };

    ghost left = { λ s. Left (V.calls s.vol) };

    ghost sound = { λ s. (s.sound ≡ true) × IsUsable V.tells (V.calls s.vol) s.touched s.log s.lens s.limits };

    ghost flag = { λ s. s.sound };

    ghost touched = { λ s. s.touched };

    ghost limit = { λ s f. length_of s.limits f };

    ghost overfills = { λ s f at size. 2 ^ 62 < log_end s.log.active s.log.end + needs (stop_of s.log.active s.log.recorded s.lens f (at + size) - at) };

    ghost names = { λ s. V.names s.vol };

    ghost log_full = { λ s. V.tells → 2 ^ 61 ≤ length (reads_now (V.calls s.vol) 1) };

    ghost brought = { λ s. Unit {0} };

    ghost bytes_read = { λ s. s.read };

    ghost faults = { λ s. V.faults s.vol };

    ghost only_kept = { λ s o t sound left. valid_only s.log.active (V.calls s.vol) s.log.end s.log.recorded s.log.changed (sound.1.valid t) o left };

    ghost keeps_files = { λ s t sound. usable_kept V.tells (V.calls s.vol) s.touched s.log s.lens s.limits t sound.1 };

    ghost clean = { λ s t sound is. usable_clean V.tells (V.calls s.vol) s.touched s.log s.lens s.limits t sound.1 is };

    ghost within = { λ s file t sound is. usable_within V.tells (V.calls s.vol) s.touched s.log s.lens s.limits t sound.1 file is };

    ghost earlier = { λ s t u o le left. left_earlier (V.calls s.vol) t u o le left };

    ghost present = { λ s t. ap (λ cs. data_of (reads_now cs)) (calls_now (V.calls s.vol)) };

    ghost flagged = { λ s sound. sound.0 };

    /// It calls nothing of the volume.
    fn is_sound(&self) -> bool {
        self.sound
    }

    /// It calls nothing of the volume.
    fn len(&self, file: u32) -> u64 {
        self.lens[place(file)]
    }

    /// One read of the volume.
    fn read(&mut self, file: u32, at: u64, into: &mut [u8]) -> Result<(), Fault> {
        self.read = self.read.saturating_add(into.len() as u64);
        self.vol.read(file, at, into)
    }

    /// One sync where it opens a transaction or overwrites bytes below the recorded length, else none.
    fn write(&mut self, file: u32, at: u64, bytes: &[u8]) -> Result<(), SpaceErr> {
        self.touched = true;
        let limit = self.limits[place(file)];
        let size = bytes.len() as u64;
        if at > limit || size > limit - at {
            self.sound = false;
            return Err(SpaceErr::Full);
        }
        let Some(stop) = stop_at(&self.log, &self.lens, file, at, at + size) else {
            self.sound = false;
            return Err(SpaceErr::Full);
        };
        let Ok(()) = write_through(
            &mut self.vol,
            &mut self.log,
            &mut self.lens,
            file,
            at,
            bytes,
            stop,
        ) else {
            self.sound = false;
            return Err(SpaceErr::Fault);
        };
        Ok(())
    }

    /// One sync where it opens a transaction or removes bytes below the recorded length, else none.
    fn cut(&mut self, file: u32, len: u64) -> Result<(), SpaceErr> {
        self.touched = true;
        let all = self.lens[place(file)];
        let Some(stop) = stop_at(&self.log, &self.lens, file, len, all) else {
            self.sound = false;
            return Err(SpaceErr::Full);
        };
        let Ok(()) = cut_through(
            &mut self.vol,
            &mut self.log,
            &mut self.lens,
            file,
            len,
            stop,
        ) else {
            self.sound = false;
            return Err(SpaceErr::Fault);
        };
        Ok(())
    }

    /// As many syncs as data files changed since the last commit, and one; where nothing was written it calls nothing.
    fn commit(&mut self) -> Result<(), Fault> {
        if !self.log.active {
            self.touched = false;
            return Ok(());
        }
        match finish(&mut self.vol, &self.log) {
            Ok(()) => {
                self.log.active = false;
                self.touched = false;
                Ok(())
            }
            Err(e) => {
                self.sound = false;
                Err(e)
            }
        }
    }

    /// As many syncs as `copy_files` of `tk_copy`. The copy's files and locks are let go, whatever it answers.
    fn copy(&mut self, label: &[u8]) -> Result<(), Fault> {
        make_copy(&mut self.vol, label)
    }

    /// It calls nothing of the volume.
    fn spoil(&mut self) {
        self.sound = false;
    }

    /// It calls nothing of the volume: nothing is held back.
    fn give_up(&mut self) -> Result<(), Fault> {
        self.sound = false;
        Ok(())
    }
}

impl<V: Volume> Batched for Undo<V> {
    ghost use Rattle.std.specs.Prelude.{◌≤◌, ◌^◌, ℕ};
    ghost use Rattle.tc_undo.specs.Room.{log_end};
    ghost use Rattle.tc_undo.specs.Usable.{usable_half, usable_low, usable_small, overfills_needs};

    ghost logged = { λ s. log_end s.log.active s.log.end };

    ghost low = { λ s sound. usable_low V.tells (V.calls s.vol) s.touched s.log s.lens s.limits sound.1 };

    ghost small = { λ s file sound is. usable_small V.tells (V.calls s.vol) s.touched s.log s.lens s.limits sound.1 file };

    ghost half = { λ s sound is t. usable_half V.tells (V.calls s.vol) s.touched s.log s.lens s.limits t sound.1 is };

    ghost all = { λ s. tt };

    ghost no_room = { λ s f at size is. overfills_needs s.log.active s.log.end s.log.recorded s.lens f at size is };

    /// It calls nothing of the volume.
    fn log_len(&self) -> u64 {
        if self.log.active { self.log.end } else { 152 }
    }

    /// It calls nothing of the volume.
    fn limit_of(&self, file: u32) -> u64 {
        self.limits[place(file)]
    }

    /// One read of the volume.
    #[inline(always)]
    fn look(&mut self, file: u32, at: u64, into: &mut [u8]) -> Result<(), Fault> {
        self.read = self.read.saturating_add(into.len() as u64);
        self.vol.read(file, at, into)
    }

    /// One sync.
    fn write_all(&mut self, pieces: &[Piece], bytes: &[u8]) -> Result<(), Fault> {
        self.touched = true;
        match write_pieces(&mut self.vol, &mut self.log, &mut self.lens, pieces, bytes) {
            Ok(()) => Ok(()),
            Err(e) => {
                self.sound = false;
                Err(e)
            }
        }
    }
}
