//! The bytes of all keys and values, as they change.
ghost use Rattle.std.specs.Prelude.{◌≡◌, ◌+◌, IfSome};
ghost use Rattle.tc_treedb.specs.Counting.{gone, IsCountedWith, IsCountedWithout};

// So many bytes without those of a key and a value, if they were there.
fn without(bytes: u64, key: u64, old: Option<u64>) -> Option<u64>
    ensures { IfSome result (λ n. n + gone key old ≡ bytes) }
{
    match old {
        Some(value) => bytes.checked_sub(key)?.checked_sub(value),
        None => Some(bytes),
    }
}

/// The bytes with a key and a value in the place of an old value of the key, where they were counted.
pub(crate) fn counted_with(
    total: Option<u64>,
    key: u64,
    old: Option<u64>,
    value: u64,
) -> Option<u64>
    ensures { IfSome result (λ n. IsCountedWith key old total value n) }
{
    let more = total?.checked_add(key)?.checked_add(value)?;
    without(more, key, old)
}

/// The bytes once a key and a value of it are taken out, where they were counted.
pub(crate) fn counted_without(total: Option<u64>, key: u64, old: Option<u64>) -> Option<u64>
    ensures { IfSome result (λ n. IsCountedWithout key old total n) }
{
    without(total?, key, old)
}

/// The bytes without so many, where both were counted.
pub(crate) fn counted_less(total: Option<u64>, less: Option<u64>) -> Option<u64>
    ensures { IfSome result (λ n. (t : ℕ) × (m : ℕ) × (total ≡ Some t) × (less ≡ Some m) × (n + m ≡ t)) }
{
    total?.checked_sub(less?)
}

ghost use Rattle.std.specs.Prelude.{ℕ, Some};
