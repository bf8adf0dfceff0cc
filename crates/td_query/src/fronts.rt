//! The rows of a search that come one by one, the last primary key first: no more of them are kept than its skip and its maximum ask for.
ghost use Rattle.std.specs.Prelude.{◌≡◌, ◌++◌, ◌+◌, ◌≤◌, ℕ, List, Some, length, reverse, IfOk};
ghost use Rattle.tc_model.specs.Search.{Found, arranged, in_order};

use crate::ordering::{FoundRows, arrange, sorted};
use std::alloc::AllocError;
use tc_model::Query;

/// Of rows that came from the last to the first those that may be among what is found, whatever comes in front of them: at most as many as are skipped and kept.
pub fn cut(q: &Query, rows: FoundRows) -> Result<FoundRows, AllocError>
    ensures stands { IfOk result (λ kept. (more : List Found) → arranged q.now (reverse (kept ++ more)) ≡ arranged q.now (reverse (rows ++ more))) }
{
    let Some(most) = q.maximum else {
        return Ok(rows);
    };
    let Some(n) = q.skip.checked_add(most) else {
        return Ok(rows);
    };
    let mut all = sorted(&q.sort, rows)?.into_vec();
    all.truncate(n as usize);
    Ok(FoundRows::from_vec(all))
}

/// What is found of rows that came from the last to the first.
pub fn arrange_back(q: &Query, rows: FoundRows) -> Result<FoundRows, AllocError>
    ensures { IfOk result (λ found. found ≡ arranged q.now (reverse rows)) }
{
    let mut all = rows.into_vec();
    all.reverse();
    arrange(q, FoundRows::from_vec(all))
}
