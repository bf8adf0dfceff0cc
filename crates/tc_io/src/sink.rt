ghost use Rattle.std.specs.Prelude.{◌≡◌, ℕ, ◌++◌, List, [], Option, OnOk, OnErr};
ghost use Rattle.tc_io.specs.Causes.{HasCause};
ghost use Rattle.tc_io.specs.Told.{Adds, AddsFront};

use tc_base::Fault;

/// What takes bytes in order.
pub trait Sink {
    /// How often a call failed.
    ghost faults: { Self → ℕ };

    /// The bytes taken, where it tells them.
    ghost taken: { Self → Option (List ℕ) };

    /// Writes all the bytes. After a fault it has taken a front of them, perhaps none.
    fn put(&mut self, bytes: &[u8]) -> Result<(), Fault>
        ensures ok { OnOk result (Adds (taken self.old) (taken self.new) bytes.now) }
        ensures err { OnErr result (AddsFront (taken self.old) (taken self.new) bytes.now) }
        ensures cause { HasCause (faults self.old) (faults self.new) result };
}
