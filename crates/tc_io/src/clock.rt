ghost use Rattle.std.specs.Prelude.{◌≡◌, ℕ, List, [], ◌∷◌, Option};
ghost use Rattle.tc_io.specs.Told.{Adds};

/// What tells the time.
pub trait Clock {
    /// Its answers so far, where it tells them.
    ghost answers: { Self → Option (List ℕ) };

    /// Microseconds, any number.
    fn now(&mut self) -> u64
        ensures { Adds (answers self.old) (answers self.new) (result ∷ []) };
}
