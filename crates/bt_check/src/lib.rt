//! The check of a tree file's rules, over any map of records.
#![tactic(auto, using(crate::specs::Looks::looks_then, crate::specs::Looks::looks_refl))]

mod checking;
mod collecting;
mod ids;
mod laws;
mod leaves;
mod ordering;
mod pages;
mod rows;
mod walking;

pub use checking::{check_tree, measure_tree};
pub use laws::trees_break_no_rule;
