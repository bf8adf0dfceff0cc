//! The engine of fixed-length databases.
#![tactic(auto)]

mod engine;
mod holding;
mod informing;
mod many;
mod naming;
mod numbers;
mod opening;
mod prefixes;
mod reading;
mod shape;
mod storing;
mod texts;

pub use holding::FixedEngine;
pub use shape::FixedShape;
