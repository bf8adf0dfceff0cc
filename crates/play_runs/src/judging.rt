//! Whether a run ended as it may where an allocation is refused.
ghost use Rattle.std.specs.Prelude.{◌≡◌, ◌≢◌, ◌⊎◌, ◌↔◌, IsTrue, nat_eq, true};
ghost use Rattle.std.specs.List.{starts_with};
ghost use Rattle.tc_fakes.specs.Transcripts.{out_of};
ghost use Rattle.tc_fakes.specs.Wires.{told};

use tc_fakes::MemWire;

// It ended otherwise.
const WRONG: u8 = 97;

// Whether what a connection was sent is a front of what it is owed.
fn is_front(wire: &MemWire, conn: u32, owed: &[u8]) -> bool
    ensures { result ≡ starts_with nat_eq owed.now (out_of conn (told wire.now)) }
{
    owed.starts_with(wire.sent(conn))
}

// Whether a connection was sent all that it is owed.
fn is_whole(wire: &MemWire, conn: u32, owed: &[u8]) -> bool
    ensures { IsTrue result ↔ (out_of conn (told wire.now) ≡ owed.now) }
{
    wire.sent(conn) == owed
}

/// The status where a run may end with it, having sent connections 0 and 1 a front of what each is owed, and 97 elsewhere: 0 with all
/// of it sent, 5, and 7 where the wire found no memory.
pub fn judged(status: u8, wire: &MemWire, first: &[u8], second: &[u8]) -> u8
    ensures status { (result ≡ 97) ⊎ ((result ≡ status) × ((result ≡ 0) ⊎ (result ≡ 5) ⊎ (result ≡ 7))) }
    ensures front { result ≢ 97 → (starts_with nat_eq first.now (out_of 0 (told wire.now)) ≡ true) × (starts_with nat_eq second.now (out_of 1 (told wire.now)) ≡ true) }
    ensures whole { result ≡ 0 → (out_of 0 (told wire.now) ≡ first.now) × (out_of 1 (told wire.now) ≡ second.now) }
    ensures starved { result ≡ 7 → wire.now.counts.starved ≢ 0 }
{
    if !is_front(wire, 0, first) || !is_front(wire, 1, second) {
        return WRONG;
    }
    match status {
        0 if is_whole(wire, 0, first) && is_whole(wire, 1, second) => 0,
        5 => 5,
        7 if wire.starved() != 0 => 7,
        _ => WRONG,
    }
}
