//! How a run ends.
ghost use Rattle.std.specs.Prelude.{◌≡◌};

use tc_base::Rule;
use tc_undo::UndoErr;
use ty_base::AnyErr;
use ty_rounds::TurnErr;

/// How a run ends. The first cause that comes decides it.
#[derive(Clone, Copy, PartialEq, Eq)]
pub enum End {
    /// No event will come any more, and all was served.
    Done,
    /// The words are no order that is carried out.
    Words,
    /// The request that the order stands for failed.
    Refused,
    /// A call of the volume failed.
    VolumeFault,
    /// A rule of a file's layout doesn't hold; it is the first that fails.
    Broken { file: u32, rule: Rule },
    /// There was no memory.
    NoMemory,
    /// A limit was reached.
    Full,
    /// A call of the wire failed.
    WireFault,
    /// All turns were made, and none was the last.
    TurnsSpent,
}

ghost use Rattle.tk_top.specs.Ends.{status_of};

impl End {
    /// The status that the program exits with, from 0 to 8.
    pub fn status(self) -> u8
        ensures { result ≡ status_of self }
    {
        match self {
            End::Done => 0,
            End::Words => 1,
            End::Refused => 2,
            End::VolumeFault => 3,
            End::Broken { .. } => 4,
            End::NoMemory => 5,
            End::Full => 6,
            End::WireFault => 7,
            End::TurnsSpent => 8,
        }
    }
}

impl From<TurnErr> for End {
    ghost use Rattle.tk_top.specs.Ends.{end_of_turn};

    ghost from_gives = { λ e end. end ≡ end_of_turn e };

    fn from(e: TurnErr) -> Self {
        match e {
            TurnErr::Volume => End::VolumeFault,
            TurnErr::Full => End::Full,
            TurnErr::Wire => End::WireFault,
            TurnErr::Memory => End::NoMemory,
        }
    }
}

impl From<AnyErr> for End {
    ghost use Rattle.tk_top.specs.Ends.{end_of};

    ghost from_gives = { λ e end. end ≡ end_of e };

    fn from(e: AnyErr) -> Self {
        match e {
            AnyErr::Broken { file, rule } => End::Broken { file, rule },
            AnyErr::Full => End::Full,
            AnyErr::Fault => End::VolumeFault,
            AnyErr::Memory => End::NoMemory,
        }
    }
}

impl From<UndoErr> for End {
    ghost use Rattle.tk_top.specs.Ends.{end_of_undo};

    ghost from_gives = { λ e end. end ≡ end_of_undo e };

    fn from(e: UndoErr) -> Self {
        match e {
            UndoErr::Fault => End::VolumeFault,
            UndoErr::Broken(rule) => End::Broken { file: 1, rule },
            UndoErr::Memory => End::NoMemory,
        }
    }
}

/// How a run over a volume ended, and the volume as it stands.
#[derive(Drop)]
pub struct Stopped<V> {
    pub end: End,
    pub vol: V,
}
