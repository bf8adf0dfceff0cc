//! The words behind the program's name, read as what they ask for.
#![tactic(auto)]

mod making;
mod managing;
mod names;
mod numbers;
mod options;
mod order;
mod parsing;
mod serving;
mod tables;
mod words;

pub use order::{CommandLine, DbName, PutWord};
pub use parsing::parse;
