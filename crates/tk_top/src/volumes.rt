//! A space over a volume.
ghost use Rattle.std.specs.Prelude.{◌≡◌, ◌≤◌, ◌^◌, ℕ, true, false, length, max, IfOk, IfErr, MatchResult};
ghost use Rattle.tc_io.specs.Images.{now as reads_now};
ghost use Rattle.ud_log.specs.Undo.{is_data};
ghost use Rattle.tc_undo.specs.Opening.{IsRefused, OpensKept};
ghost use Rattle.tc_undo.specs.declared.errors.UndoErr.TheVariants.{Memory};
ghost use Rattle.tk_top.specs.Naming.{HandsOver};
ghost use Rattle.tk_top.specs.Over.{IsOver};
ghost use Rattle.tk_top.specs.Volumes.{ShowsNow};

use std::alloc::Global;
use tc_held::{Held, HeldSpace};
use tc_io::Volume;
use tc_space::Space;
use tc_undo::{Batched, Undo, UndoErr, Unopened};

/// A space that keeps its files in a volume.
pub trait OnVolume: Space {
    type V: Volume;

    /// The volume.
    ghost under: { Self → Self.V };

    /// Recovers the volume and opens it. Memory for what it holds is taken before any call of the volume; its moments go on from those of the volume.
    fn open_over(alloc: Global, vol: Self::V, limit: u64) -> Result<Self, Unopened<Self::V>>
        requires bound { Self.V.bound vol ≡ true }
        requires limit { limit ≤ 2 ^ 40 }
        ensures sound { IfOk result (λ s. Self.sound s) }
        ensures untouched { IfOk result (λ s. Self.touched s ≡ false) }
        ensures limits { IfOk result (λ s. Self.V.tells → (f : ℕ) → is_data f ≡ true → Self.limit s f ≡ max limit (length (Self.now s f))) }
        ensures kept { IfOk result (λ s. Self.V.tells → OpensKept (Self.V.calls vol) (Self.V.calls (Self.under s))) }
        ensures moments { IfOk result (λ s. Self.V.tells → Self.moment s ≡ length (Self.V.calls (Self.under s))) }
        ensures none { IfErr result (λ r. r.why ≡ Memory → r.vol ≡ vol) }
        ensures refused { IfErr result (λ r. Self.V.tells → IsRefused r.why (Self.V.calls vol) (Self.V.calls r.vol)) }
        ensures names { MatchResult result (λ s. Self.V.names (Self.under s) ≡ Self.V.names vol) (λ r. Self.V.names r.vol ≡ Self.V.names vol) }
        ensures cause { MatchResult result (λ s. Self.V.faults vol ≤ Self.V.faults (Self.under s)) (λ r. HandsOver r.why (Self.V.bound r.vol) (Self.V.faults vol) (Self.V.faults r.vol)) };

    /// Hands the volume back as it stands.
    fn close_over(self) -> Self::V
        ensures { result ≡ Self.under self };

    /// What the space tells is what the calls of the volume make of its files, as soon as nothing waits to be committed. Its moments may be more than the calls.
    ghost is_over: { (s : Self) → IsOver Self.tells Self.V.tells (Self.sound s) (Self.V.calls (Self.under s)) (Self.touched s) (Self.moment s) (Self.left s) (Self.now s) (Self.names s) (Self.V.names (Self.under s)) (Self.faults s) (Self.V.faults (Self.under s)) };

    /// What it has brought to the volume are the volume's files.
    ghost shows: { (s : Self) → Self.brought s → ShowsNow (Self.V.calls (Self.under s)) (Self.now s) };

    /// Where it says that the undo log is full, that of the volume has half of what it may have.
    ghost log_is: { (s : Self) → Self.log_full s → Self.V.tells → 2 ^ 61 ≤ length (reads_now (Self.V.calls (Self.under s)) 1) };
}

impl<X: Volume> OnVolume for Undo<X> {
    ghost use Rattle.std.proofs.Common.{arith, refl};
    ghost use Rattle.tk_top.specs.Over.{images_now};
    ghost use Rattle.ud_state.proofs.Leaving.{images_left};

    type V = X;

    ghost under = { λ s. s.vol };

    ghost is_over = { λ s. record { to = λ t. t; from = λ t. t; moment_later = omega arith; leaves = λ t ims some. record { is = images_left (X.calls s.vol) t ims some }; left_is = λ is t o le l. l.is; exit = λ ims some. record { is = images_left (X.calls s.vol) _ ims (images_now (X.calls s.vol) ims some) }; now_is = λ sound kept. refl; names_are = refl; faults_are = refl } };

    ghost shows = { λ s all. record { same = λ f. refl } };

    ghost log_is = { λ s full. full };

    fn open_over(_alloc: Global, vol: X, limit: u64) -> Result<Self, Unopened<X>> {
        Undo::open(vol, limit)
    }

    fn close_over(self) -> X {
        self.close()
    }
}

/// What is written is held until a commit. Its memory, room for 100 pages of 65,536 bytes and more, is taken before any call of the volume, and given back with it.
impl<S: Batched + OnVolume> OnVolume for HeldSpace<S> {
    ghost use Rattle.std.specs.Prelude.{◌+◌, length, min};
    ghost use Rattle.std.proofs.Common.{arith, ◌∙◌};
    ghost use Rattle.tc_held.specs.Lengths.{all_bare, over_bare};
    ghost use Rattle.tc_held.proofs.History.{held_opened};
    ghost use Rattle.tk_top.specs.Volumes.{low_exit, low_left};

    type V = S::V;

    ghost under = { λ s. S.under s.below };

    ghost is_over = { λ s. let b = S.is_over s.below in record { to = b.to; from = b.from; moment_later = omega (arith, b.moment_later); leaves = λ t ims some. record { at = t; since = omega arith; left = low_left (S.left s.below) _ t _ ims b.leaves some }; left_is = λ all t o le l. b.left_is (omega (arith, all, b.moment_later)) t o le (S.earlier s.below t (min l.at (S.moment s.below)) o (omega (arith, l.since, le, b.moment_later)) (held_opened t o l (omega (arith, all, b.moment_later)))); exit = λ ims some. record { at = S.moment s.below + length s.stood.items; since = omega arith; left = low_exit (S.left s.below) S.moment (S.moment s.below + length s.stood.items) _ s.below s.held _ (omega arith) (b.exit ims some) }; now_is = λ sound off. all_bare s.held (S.now s.below) (sound.bare off).none ∙ b.now_is sound.below_is (sound.bare off).untouched; names_are = b.names_are; faults_are = b.faults_are } };

    ghost shows = { λ s all. record { same = λ f. over_bare s.held (S.now s.below) all.0 f ∙ (S.shows s.below all.1).same f } };

    ghost log_is = { λ s full. S.log_is s.below full };

    fn open_over(alloc: Global, vol: S::V, limit: u64) -> Result<Self, Unopened<S::V>> {
        let held = match Held::new(alloc) {
            Ok(held) => held,
            Err(_) => {
                return Err(Unopened {
                    vol,
                    why: UndoErr::Memory,
                });
            }
        };
        let below = S::open_over(alloc, vol, limit)?;
        let space = HeldSpace::new(below, held);
        Ok(space)
    }

    fn close_over(self) -> S::V {
        self.into_below().close_over()
    }
}
