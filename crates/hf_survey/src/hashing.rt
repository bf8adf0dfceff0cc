//! Both hashes of a key: at once, or piece by piece.
ghost use Rattle.std.specs.Prelude.{◌≡◌, ◌≤◌};
ghost use Rattle.std.specs.List.{fold};
ghost use Rattle.tc_base.specs.Hashes.{bucket, front_step, second};
ghost use Rattle.hf_survey.specs.Hashing.{back_from};

/// The bucket of a key among that many, and its second hash. They are taken in one pass, one from the front and the other from the back, so
/// that neither waits for the other.
pub fn hashes_of(key: &[u8], buckets: u64) -> (u64, u8)
    requires { 1 ≤ buckets }
    ensures { (result.0 ≡ bucket key.now buckets) × (result.1 ≡ second key.now) }
{
    let mut front: u64 = 19_780_211;
    let mut back: u32 = 751;
    for i in 0..key.len() {
        front = front.wrapping_mul(37).wrapping_add(u64::from(key[i]));
        back = back.wrapping_mul(31) ^ u32::from(key[key.len() - 1 - i]);
    }
    (front % buckets, (back % 256) as u8)
}

/// The hash from the front, which is this in front of bytes, behind them.
pub fn front_on(hash: u64, bytes: &[u8]) -> u64
    ensures { result ≡ fold front_step hash bytes.now }
{
    let mut front = hash;
    for i in 0..bytes.len() {
        front = front.wrapping_mul(37).wrapping_add(u64::from(bytes[i]));
    }
    front
}

/// The hash from the back, which is this behind bytes, in front of them.
pub fn back_on(hash: u32, bytes: &[u8]) -> u32
    ensures { result ≡ back_from hash bytes.now }
{
    let mut back = hash;
    for i in 0..bytes.len() {
        back = back.wrapping_mul(31) ^ u32::from(bytes[bytes.len() - 1 - i]);
    }
    back
}
