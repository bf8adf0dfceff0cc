//! Numbers of the first bytes of a key.
ghost use Rattle.std.specs.Prelude.{◌≡◌, slice_index};
ghost use Rattle.tc_base.specs.Bytes.{IsBytes};
ghost use Rattle.tc_base.specs.Fronts.{front_at};

// The byte at a place, or 0.
fn byte_at(bytes: &[u8], i: usize) -> u8
    ensures { result ≡ slice_index bytes.now i }
{
    if i < bytes.len() { bytes[i] } else { 0 }
}

// The number of the first eight bytes, of which some are missing.
#[tactic(auto, unfolding(crate::specs::Fronts::front_at))]
fn short_number(bytes: &[u8]) -> u64
    ensures { result ≡ front_at 0 bytes.now }
{
    u64::from_be_bytes([
        byte_at(bytes, 0),
        byte_at(bytes, 1),
        byte_at(bytes, 2),
        byte_at(bytes, 3),
        byte_at(bytes, 4),
        byte_at(bytes, 5),
        byte_at(bytes, 6),
        byte_at(bytes, 7),
    ])
}

// The number of the first eight bytes.
#[tactic(auto, using(crate::proofs::Foreseeing::whole_front))]
fn number(bytes: &[u8]) -> u64
    ensures { result ≡ front_at 0 bytes.now }
{
    match bytes.first_chunk::<8>() {
        // one load
        Some(front) => u64::from_be_bytes(*front),
        None => short_number(bytes),
    }
}

/// The number of the eight bytes from a place on, the greatest first; those that are missing count as 0.
#[tactic(auto, unfolding(crate::specs::Fronts::front_at))]
pub fn number_at(bytes: &[u8], at: usize) -> u64
    ensures value { result ≡ front_at at bytes.now }
    ensures bytes { IsBytes bytes.now }
{
    if at < bytes.len() {
        number(&bytes[at..])
    } else {
        0
    }
}
