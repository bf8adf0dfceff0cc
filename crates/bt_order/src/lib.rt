//! Stretches of keys along their orders: from one key to another, by what a key begins with, by its value part, by its number.
//!
//! Each cut says which keys are inside; all others come before or after those along the cut's order.
#![tactic(auto)]

mod ends;
mod keys;
mod numbers;
mod sides;
mod values;

pub use ends::Above;
pub use keys::{All, KeyCut, PrefixCut, Stretch};
pub use numbers::NumberCut;
pub use values::{BeginCut, ValueCut};
