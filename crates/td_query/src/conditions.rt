//! Which rows meet the conditions of a query.
ghost use Rattle.std.specs.Prelude.{◌≡◌};
ghost use Rattle.std.specs.List.{list_all};
ghost use Rattle.std.specs.Option.{option_copied};
ghost use Rattle.tc_model.specs.Search.{bytes_of, is_met, holds};

use crate::operators::meets;
use tc_base::Blob;
use tc_model::{Cond, Query};
use td_row::Row;

/// A column's bytes, none where the row lacks it; an empty name means the primary key.
pub(crate) fn bytes_of<'a>(name: &Blob, key: &'a [u8], row: &'a Row) -> Option<&'a [u8]>
    ensures { option_copied result ≡ bytes_of name.now (key.now, row.now) }
{
    if name.len() >= 1 {
        row.get(name.as_slice())
    } else {
        Some(key)
    }
}

fn is_met(key: &[u8], row: &Row, cond: &Cond) -> bool
    ensures { result ≡ is_met (key.now, row.now) cond.now }
{
    let met = meets(
        cond.operator,
        bytes_of(&cond.column, key, row),
        cond.expression.as_slice(),
    );
    if cond.negated { !met } else { met }
}

/// Whether the row of a primary key meets all conditions of a query. It takes no memory. The operators on tokens look at the column's bytes once for each token
/// of the expression.
pub fn holds(q: &Query, key: &[u8], row: &Row) -> bool
    ensures { result ≡ holds q.now (key.now, row.now) }
{
    for cond in q.conds.as_slice() {
        if !is_met(key, row, cond) {
            return false;
        }
    }
    true
}
