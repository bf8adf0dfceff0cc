//! The bytes of all keys and values, as they change.
ghost use Rattle.std.specs.Prelude.{◌≡◌, ◌+◌, IfSome};
ghost use Rattle.tc_maps.specs.Sizes.{size_gone};
ghost use Rattle.tc_hashdb.specs.Changing.{len_after};
ghost use Rattle.tc_hashdb.specs.Counting.{IsCountedWith, IsCountedWithout};

use tc_base::Mode;

// So many bytes without those of a key and its value, if it had one.
fn without(bytes: u64, key: u64, old: Option<u64>) -> Option<u64>
    ensures { IfSome result (λ n. n + size_gone key old ≡ bytes) }
{
    match old {
        Some(value) => bytes.checked_sub(key)?.checked_sub(value),
        None => Some(bytes),
    }
}

/// The bytes once a key has a value of another length than before, where both were counted.
pub(crate) fn counted_with(
    total: Option<u64>,
    key: u64,
    old: Option<u64>,
    value: Option<u64>,
) -> Option<u64>
    ensures { IfSome result (λ n. IsCountedWith key old total value n) }
{
    let more = total?.checked_add(key)?.checked_add(value?)?;
    without(more, key, old)
}

/// The bytes once a key is taken out, where they were counted.
pub(crate) fn counted_without(total: Option<u64>, key: u64, old: Option<u64>) -> Option<u64>
    ensures { IfSome result (λ n. IsCountedWithout key old total n) }
{
    without(total?, key, old)
}

/// The length of the value that a key has once it is given one of so many bytes, if it has 64 bits.
pub(crate) fn stored_len(mode: Mode, old: Option<u64>, more: usize) -> Option<u64>
    ensures { IfSome result (λ n. n ≡ len_after mode old more) }
{
    match mode {
        Mode::Over => Some(more as u64),
        Mode::Keep => Some(more as u64),
        Mode::Cat => old.unwrap_or(0).checked_add(more as u64),
    }
}
