//! Rows that are moved into what adds to them, and back.
ghost use Rattle.std.specs.Prelude.{◌≡◌};

use std::alloc::Global;
use tc_base::Blob;
use tc_engine::Rows;

/// The rows, in whose place none are left.
pub(crate) fn taken_over(alloc: Global, rows: &mut Rows) -> Rows
    ensures { result ≡ rows.old }
{
    let mut none = Blob::new(alloc);
    std::mem::replace(rows, Rows::over(alloc, &mut none, 0))
}

/// The rows put back.
pub(crate) fn given_back(from: Rows, rows: &mut Rows)
    ensures { rows.new ≡ from }
{
    *rows = from;
}
