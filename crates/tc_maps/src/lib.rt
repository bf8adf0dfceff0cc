//! Ordered maps in memory.
#![tactic(auto)]

mod bytemap;
mod entries;
mod multimap;
mod totals;
mod values;

pub use bytemap::Bytemap;
pub use multimap::Multimap;
pub use values::Values;
