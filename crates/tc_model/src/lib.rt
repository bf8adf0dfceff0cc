//! The abstract database of every kind: what each request makes of its contents, and what it is answered. Its definitions and their laws, and what a body needs of them as code.
#![tactic(auto)]

mod applied;
mod copies;
mod misc;
mod numbers;
mod query;
mod reading;
mod short_keys;
mod stats;
mod values;
mod walk;

pub use applied::Applied;
pub use copies::may_copy;
pub use misc::Misc;
pub use numbers::{count_of, long_number, maximum_of};
pub use query::{Cond, Deed, IndexKind, Query, Sort};
pub use reading::read_misc;
pub use short_keys::has_short_keys;
pub use stats::stat_lines;
pub use values::{last_of, spelled, sum_of};
pub use walk::Walk;
