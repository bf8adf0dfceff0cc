//! Bytes for the log that wait.
ghost use Rattle.std.specs.Prelude.{◌≤◌};

/// How many bytes wait at most.
pub const ROOM: usize = 16384;

/// Bytes that are to stand behind the log: the first `size` of `room`.
#[derive(Drop)]
pub struct Waiting {
    pub size: usize,
    pub room: [u8; ROOM],
    ghost fits: { size ≤ 16384 },
}
