//! The two hashes of a key, which place it in a hash file.
ghost use Rattle.std.specs.Prelude.{◌≡◌, ◌<◌, ◌≤◌};
ghost use Rattle.tc_base.specs.Hashes.{bucket, second};

/// The bucket of a key among that many, counted from 0.
pub fn bucket_of(key: &[u8], buckets: u64) -> u64
    requires { 1 ≤ buckets }
    ensures value { result ≡ bucket key.now buckets }
    ensures inside { result < buckets }
{
    let mut hash: u64 = 19_780_211;
    for b in key {
        hash = hash.wrapping_mul(37).wrapping_add(u64::from(*b));
    }
    hash % buckets
}

/// The second hash of a key, by which the records of one bucket are ordered first.
pub fn second_hash(key: &[u8]) -> u8
    ensures { result ≡ second key.now }
{
    let mut hash: u32 = 751;
    for i in 0..key.len() {
        hash = hash.wrapping_mul(31) ^ u32::from(key[key.len() - 1 - i]);
    }
    (hash % 256) as u8
}
