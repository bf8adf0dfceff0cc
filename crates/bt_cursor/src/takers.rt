//! What is taken of an item where it lies: its key, or how many values it has.
use bt_slots::Lying;
use bt_tree::Taker;
use std::alloc::{AllocError, Global};
use tc_base::Blob;

/// The key of an item, and how many values it has behind the first. One item is enough.
#[derive(Drop)]
pub(crate) struct Ends {
    pub(crate) alloc: Global,
    pub(crate) found: Option<End>,
}

/// A key, and the number of its last value, counted from 0.
#[derive(Drop)]
pub(crate) struct End {
    pub(crate) key: Blob,
    pub(crate) last: u64,
}

impl Taker for Ends {
    ghost use Rattle.std.specs.Prelude.{◌≡◌, Some, false};
    ghost use Rattle.bt_cursor.specs.Places.{end_of};

    ghost takes = { λ t x u more. (u.found ≡ Some (end_of x)) × (more ≡ false) };

    ghost stays = { λ t u. Unit {0} };

    ghost stays_refl = { λ t. tt };

    ghost stays_then = { λ t u v first second. tt };

    fn take(&mut self, item: &Lying<'_>) -> Result<bool, AllocError> {
        self.found = Some(End {
            key: Blob::from_slice(self.alloc, item.key)?,
            last: item.more,
        });
        Ok(false)
    }
}

/// How many values an item has behind the first.
#[derive(Drop)]
pub(crate) struct Last {
    pub(crate) number: u64,
}

impl Taker for Last {
    ghost use Rattle.std.specs.Prelude.{◌≡◌, ◌+◌, length, false};

    ghost takes = { λ t x u more. (u.number + 1 ≡ length x.values) × (more ≡ false) };

    ghost stays = { λ t u. Unit {0} };

    ghost stays_refl = { λ t. tt };

    ghost stays_then = { λ t u v first second. tt };

    fn take(&mut self, item: &Lying<'_>) -> Result<bool, AllocError> {
        self.number = item.more;
        Ok(false)
    }
}
