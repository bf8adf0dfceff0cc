//! A set of ids.
ghost use Rattle.std.specs.Prelude.{◌≡◌, ◌+◌, ◌≤◌, ℕ, OnOk, true, false, IsTrue, if◌then◌else◌};
ghost use Rattle.std.specs.BTreeSet.{btree_set_len};
ghost use Rattle.bt_check.specs.Collected.{IsSetTo, has};

use std::alloc::AllocError;
use std::collections::BTreeSet;

pub(crate) fn add(ids: &mut BTreeSet<u64>, id: u64) -> Result<(), AllocError>
    ensures has { OnOk result (IsSetTo id 1 ids.old ids.new) }
    ensures len { OnOk result (btree_set_len ids.new ≤ btree_set_len ids.old + 1) }
{
    ids.insert(id)?;
    Ok(())
}

/// Takes an id out, and answers whether it was there.
pub(crate) fn take(ids: &mut BTreeSet<u64>, id: u64) -> bool
    ensures was { has ids.old id ≡ (if result then 1 else 0) }
    ensures gone { IsSetTo id 0 ids.old ids.new }
    ensures len { btree_set_len ids.new + (if result then 1 else 0) ≡ btree_set_len ids.old }
{
    ids.remove(&id)
}

pub(crate) fn is_empty(ids: &BTreeSet<u64>) -> bool
    ensures none { IsTrue result → (id : ℕ) → has ids.now id ≡ 0 }
    ensures some { result ≡ false → (id : ℕ) × (has ids.now id ≡ 1) }
{
    match ids.first() {
        None => true,
        Some(_) => false,
    }
}
