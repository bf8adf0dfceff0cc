//! What is made of values, whatever database holds them.
ghost use Rattle.std.specs.Prelude.{◌≡◌, IfOk};
ghost use Rattle.tc_model.specs.Values.{last, sum_of, spelled};

use std::alloc::{AllocError, Global};
use tc_base::{Blob, get_le, set_le};

/// The last bytes, all where there are no more.
pub fn last_of(bytes: &[u8], width: usize) -> &[u8]
    ensures { result.now ≡ last width bytes.now }
{
    &bytes[bytes.len().saturating_sub(width)..]
}

/// The sum of a number and that of a value, or none where the value spells none.
pub fn sum_of(value: &Option<Blob>, number: u32) -> Option<u32>
    ensures { result ≡ sum_of value.now number }
{
    let Some(value) = value else {
        return Some(number);
    };
    if value.len() != 4 {
        return None;
    }
    Some((get_le(value.as_slice(), 0, 4) as u32).wrapping_add(number))
}

/// A number in four bytes.
pub fn spelled(alloc: Global, number: u32) -> Result<Blob, AllocError>
    ensures { IfOk result (λ b. b ≡ spelled number) }
{
    let mut bytes = [0u8; 4];
    set_le(&mut bytes, 0, 4, u64::from(number));
    Blob::from_slice(alloc, &bytes)
}
